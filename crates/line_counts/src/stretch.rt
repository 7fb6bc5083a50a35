//! A stretch of the grid of lines.

/// Lines of one slope whose offsets and depths are in ranges.
#[derive(Clone, Copy, Debug, PartialEq, Eq)]
pub struct Stretch {
    /// The slope in thousandths.
    pub slope: i8,
    /// The least offset in rows.
    pub from: i16,
    /// The number of offsets, from the least on.
    pub offsets: u16,
    /// The least depth in rows.
    pub shallowest: u8,
    /// The greatest depth, which is one of the range.
    pub deepest: u8,
}
