//! Gutters: the white rectangles of a page that part its columns of text.
#![tactic(auto)]

mod beside;
mod filter;
#[cfg(test)]
mod tests;

pub use beside::{MAX_GAP_IN_MEDIANS, stands_left, stands_right};
pub use filter::{LEAST_BOXES, LEAST_RATIO, gutters, is_gutter};
