//! The recursive XY cut: boxes that lie apart from one another fall into cells, parted at white bands.
#![tactic(auto)]

mod alone;
mod axis;
mod band;
mod cell;
mod cut;
mod forked;
mod law;
mod parts;
mod sweep;
#[cfg(test)]
mod tests;
mod uncut;

pub use alone::cells_alone;
pub use cell::{Cell, Cells, MAX_CUTS, Path, Side};
pub use forked::cells;
pub use law::cells_are_unique;
