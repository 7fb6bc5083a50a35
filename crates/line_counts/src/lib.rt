//! Counts of the boxes that fit a line exactly, by slope, segment and offset, and what they say of scores: the score of
//! a line is a weighted sum of a few of them, however many boxes a page has.
#![tactic(auto)]

mod block;
mod blocks;
mod bounds;
mod counts;
mod fit;
mod greatest;
mod keys;
mod limits;
mod lowering;
mod parts;
mod pieces;
mod plain;
mod rough;
mod score;
mod sharpening;
mod sizes;
mod span;
mod stretch;
mod table;
#[cfg(test)]
mod tests;
mod tops;

pub use bounds::is_single;
pub use counts::Counts;
pub use keys::Keys;
pub use limits::{MAX_TABLE_BOXES, MAX_TABLE_BYTES, MAX_TABLE_GUTTERS};
pub use sizes::fits_table;
pub use stretch::Stretch;
