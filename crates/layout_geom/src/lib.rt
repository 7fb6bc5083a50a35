//! Rectangles of pixels with a key that orders them, and the lists that the crates above hand on.
#![tactic(auto)]

mod area;
mod clear;
mod items;
mod order;
mod rect;
#[cfg(test)]
mod tests;

pub use area::Area;
pub use clear::is_clear;
pub use items::{Areas, Items, Name, Numbers, Rects};
pub use order::Order;
pub use rect::Rect;
