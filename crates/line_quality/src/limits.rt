//! The limits of the grid of lines, and of what its lines are scored by.
use layout_limits::MAX_SIDE;

/// The greatest slope of a line, in thousandths: so many rows does it sink in 1000 columns, to the right.
pub const MAX_SLOPE: i8 = 32;

/// The least slope of a line, in thousandths, which rises as steeply.
pub const LEAST_SLOPE: i8 = -MAX_SLOPE;

/// How many rows above the page, and how many below its last row, a line may lie at column 0.
pub const OFFSET_MARGIN: u16 = 300;

/// The least offset of a line, in rows from the top of the page.
pub const LEAST_OFFSET: i16 = -(OFFSET_MARGIN as i16);

/// The greatest offset of a line of any page, in rows from the top of the page.
pub const MAX_OFFSET: i16 = MAX_SIDE as i16 + OFFSET_MARGIN as i16;

/// The greatest depth of a line of any page, in rows: how far the line of its descenders lies below its baseline.
pub const MAX_DEPTH: u8 = 63;

/// The most gutters of a page.
pub const MAX_GUTTERS: usize = 256;

/// The most columns of a line: one more than the most gutters.
pub const MAX_COLUMNS: usize = MAX_GUTTERS + 1;

/// What a box weighs that stands on a line, the most that one can weigh.
pub const MAX_WEIGHT: u32 = 25;

/// The greatest score of a line: all of the most boxes of a page, 60,000, stand on it.
pub const MAX_SCORE: u32 = 60_000 * MAX_WEIGHT;

/// The greatest rank of a slope, that of the least slope.
pub(crate) const MAX_RANK: u32 = 2 * MAX_SLOPE as u32;
