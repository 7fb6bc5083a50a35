//! How much a table of counts holds, and how far its places reach.
use line_quality::{MAX_DEPTH, MAX_SLOPE, OFFSET_MARGIN};

/// The number of slopes of the grid.
pub(crate) const SLOPES: usize = 2 * MAX_SLOPE as usize + 1;

/// The most gutters of a page with a table: each takes as much memory as all rows of a page with none.
pub const MAX_TABLE_GUTTERS: usize = 72;

/// The most segments between so many gutters.
pub(crate) const MAX_SEGMENTS: usize = MAX_TABLE_GUTTERS + 1;

/// The most boxes of a page with a table, so that 16 bits hold each count.
pub const MAX_TABLE_BOXES: usize = 60_000;

/// The most bytes that a table of counts is to take.
pub const MAX_TABLE_BYTES: usize = 48_000_000;

/// How many rows a foot may be off a line, and still weigh something.
pub(crate) const REACH: u16 = 4;

/// How many places come before the top of the page: one for each offset there, and for what weighs something for the first.
pub(crate) const PLACES_ABOVE: u16 = OFFSET_MARGIN + REACH;

/// How many places there are beside the rows of the page: as many above as below, and those of the greatest depth.
pub(crate) const PLACES_BEYOND: u16 = 2 * PLACES_ABOVE + MAX_DEPTH as u16 + 1;

/// The most offsets whose lines are looked at together.
pub(crate) const BATCH: u16 = 64;

/// The most offsets of these lines and of those of their descenders.
pub(crate) const MAX_TOPS: usize = BATCH as usize + MAX_DEPTH as usize + 1;

/// The most places that weigh something for them.
pub(crate) const MAX_PLACES: usize = MAX_TOPS + 2 * REACH as usize;

/// The most that counts of 16 bits of all segments come to together.
pub(crate) const MAX_PART_COUNT: u32 = MAX_SEGMENTS as u32 * 65_535;
