ghost use Rattle.facet_output.specs.Commits.{CommitsHavePoints};
ghost use Rattle.facet_output.specs.OneSession.{OneSessionAPhaseIsExact, OneSessionHasItsLabels, OneSessionIsExact};
ghost use Rattle.facet_output.specs.OneShelf.{OneSessionIsServed};
ghost use Rattle.facet_output.specs.Outputs.{FirstPhasesGivePart, SessionsGiveBytes, SessionsGivePart};
ghost use Rattle.facet_output.specs.Sessions.{SessionsGiveOutput};

/// States that the replies are the right output of the script for the labels, operations and publications at the end,
/// if each command of each session saw and entered what its call guarantees, and each phase knows what was seen in the
/// one before.
pub fn sessions_give_output()
    ensures { SessionsGiveOutput }
{}

/// States that the lines of these replies, with the last line, are the bytes of an output with the trace at the end. A
/// prefix of them is part of it. So is a prefix of the lines if only the first phases were carried out.
pub fn sessions_give_bytes()
    ensures whole { SessionsGiveBytes }
    ensures part { SessionsGivePart }
    ensures first { FirstPhasesGivePart }
{}

/// States what the history of commits has. Its first point is the opened one. After it, the points of each session are
/// its commits that were acknowledged or failed on the disk, in order. A point has as many operations as its commit
/// returned and all labels that the session had been shown, or the count at which its commit failed. No other command
/// has a point.
pub fn commits_have_points()
    ensures { CommitsHavePoints }
{}

/// States that in the right output of a script of one session each change is placed after all operations, a change that
/// is refused for documents saw all of them, each refresh and each commit has all of them, and each pair that is taken
/// without a name is that of the last refresh. So it is if at most one session has commands in each phase.
pub fn one_session_is_exact()
    ensures whole { OneSessionIsExact }
    ensures each { OneSessionAPhaseIsExact }
{}

/// States for a session that ran alone that each change leaves a prefix of the labels that its document lacked, all of
/// them unless it was rejected for labels, and none if it adds no document, and that each refresh takes all labels.
pub fn one_session_has_its_labels()
    ensures { OneSessionHasItsLabels }
{}

/// States for a session that ran alone and named no held pair that its replies are those that `facet_words` defines on
/// a shelf, and its lines are theirs.
pub fn one_session_is_served()
    ensures { OneSessionIsServed }
{}
