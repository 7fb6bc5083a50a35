//! A line of text, and lists of lines.
use layout_geom::{Items, Numbers, Rect};

/// A line of text: a baseline of the grid and the boxes that stand on it, or with their descenders below it.
#[derive(Drop)]
pub struct Line {
    /// The slope of the baseline in thousandths, from `LEAST_SLOPE` to `MAX_SLOPE`: it sinks to the right where it is positive.
    pub slope: i8,
    /// The height of the baseline at column 0, in rows from the top of the page.
    pub offset: i16,
    /// How many rows the line of the descenders lies below the baseline: 0 where no member asks for one, and at most
    /// `MAX_DEPTH` and a third of the median height of the page's boxes.
    pub depth: u8,
    /// The positions of the boxes in the list of the page's boxes, in rising order.
    pub members: Numbers,
    /// The least rectangle round the boxes.
    pub bbox: Rect,
    /// What the boxes weigh together, at least `LEAST_SCORE`.
    pub score: u32,
}

/// Lines of text.
pub type Lines = Items<Line>;
