ghost use Rattle.live_lines.specs.ItemLaws.{ItemsAreComposed, LinesAreNumbered, ItemsAreInOrder};

/// States that what is carried out of two lists of lines is what is carried out of the one, and then of the other. The
/// call does nothing.
pub fn items_are_composed()
    ensures { ItemsAreComposed }
{}

/// States that each line is counted. The call does nothing.
pub fn lines_are_numbered()
    ensures { LinesAreNumbered }
{}

/// States that the lines of commands rise, from phase to phase and in each of them, and that their sessions are 1 to
/// 64. The call does nothing.
pub fn items_are_in_order()
    ensures { ItemsAreInOrder }
{}
