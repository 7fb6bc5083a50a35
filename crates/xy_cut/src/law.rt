//! The law of cells: what their definition says of all lists of cells at once.
ghost use Rattle.xy_cut.specs.Cells.{CellsAreUnique};

/// States a law, and does nothing: boxes have one list of cells, so that `cells_alone` and `cells` have one answer.
pub fn cells_are_unique()
    ensures one_list { CellsAreUnique }
{}
