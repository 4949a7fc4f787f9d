ghost use Rattle.core_runs.specs.CoreRuns.{SessionsAreCoreRuns};
ghost use Rattle.core_runs.specs.Possible.{ImpossibleChangesNothing};

/// States that what the sessions of a script did is an execution of the core, one move after the other. From what was
/// opened, the moves lead the core to the labels, the operations and the publications at the end. Each event of a move
/// is possible where it comes. The changes that were placed, the refreshes that published and the commits that were
/// acknowledged keep the order of each session and of the phases, and each reply reports what the core gives there: the
/// place of the operation, or the number of operations.
///
/// All labels of a document come before the operation that adds it, and a publication has exactly the labels before it.
/// No other event comes between the two numbers of a refresh, or between the twelve disk calls of a commit. Left out are
/// commits that failed, and refreshes and commits that returned no number. Not specified are how many labels a commit
/// made durable, and where labels come among the other moves of their session: a change that was rejected may have
/// entered labels, and no reply shows when.
pub fn sessions_are_core_runs()
    ensures { SessionsAreCoreRuns }
{}

/// States that an event of the core that is not possible changes nothing.
pub fn impossible_changes_nothing()
    ensures { ImpossibleChangesNothing }
{}
