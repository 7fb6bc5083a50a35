//! An area of text: lines that are read one after another.
use crate::rect::Rect;

/// Lines that follow one another in a listing of the text lines of a page.
#[derive(Clone, Copy, Debug, PartialEq, Eq)]
pub struct Area {
    /// The position in the listing, from 0, of the first of the lines.
    pub first: u32,
    /// The number of lines.
    pub count: u32,
    /// The least rectangle round the lines.
    pub bbox: Rect,
}
