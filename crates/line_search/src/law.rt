//! The law of the lines: what their definition says of all lists of lines at once.
ghost use Rattle.line_search.specs.Lines.{LinesAreUnique};

/// States a law, and does nothing: a page of at most `MAX_SIDE` rows has one list of lines, so that `lines`
/// has one answer.
pub fn lines_are_unique()
    ensures one_list { LinesAreUnique }
{}
