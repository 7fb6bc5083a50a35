//! How well a line of text fits the boxes of a page: its height, what each box weighs for it, its
//! score among the columns that gutters make, and the key that orders the lines. A line has a depth:
//! letters stand on it, or with their descenders so many rows below it.
#![tactic(auto)]

mod crossed;
mod key;
mod limits;
mod point;
mod score;
#[cfg(test)]
mod tests;

pub use key::{line_key, point_of};
pub use limits::{
    LEAST_OFFSET, LEAST_SLOPE, MAX_COLUMNS, MAX_DEPTH, MAX_GUTTERS, MAX_OFFSET, MAX_SCORE,
    MAX_SLOPE, MAX_WEIGHT, OFFSET_MARGIN,
};
pub use point::{column, crosses, height_at, middle, weight, weight_at};
pub use score::{Score, greatest, score_at};
