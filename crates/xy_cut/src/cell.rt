//! Cells, and the path of cuts that leads to each.
use layout_geom::{Items, Rect};

/// The most cuts on the way to a cell.
pub const MAX_CUTS: usize = 64;

/// A side of a cut.
#[derive(Clone, Copy, Debug, PartialEq, Eq)]
pub enum Side {
    /// Left of the band or above it: the digit 0 of a path.
    Before,
    /// Right of the band or below it: the digit 1.
    After,
}

/// The sides that a cell is on, cut by cut from the first one.
pub type Path = Items<Side>;

/// Boxes that no cut parts further.
#[derive(Drop)]
pub struct Cell {
    /// The way to it, of at most `MAX_CUTS` cuts.
    pub path: Path,
    /// How many boxes it has.
    pub count: u32,
    /// The least rectangle round them.
    pub bbox: Rect,
}

/// Cells, in the order of their paths.
pub type Cells = Items<Cell>;
