//! The greatest white rectangle of a page, as a space to be searched, and the greedy cover of a page's
//! white space by such rectangles.
#![tactic(auto)]

mod bars;
mod cells;
mod greedy;
mod pivot;
mod region;
#[cfg(test)]
mod tests;
mod white;

pub use greedy::{cover, cover_is_unique};
pub use region::Region;
pub use white::White;
