//! The lines of text of a page: the grid of baselines as a space to be searched, and the greedy list of
//! the best lines, none of which crosses a gutter.
#![tactic(auto)]

mod bound;
mod characters;
mod greedy;
mod grid;
mod law;
mod line;
mod living;
mod members;
mod near;
mod parts;
mod span;
#[cfg(test)]
mod tests;

pub use greedy::lines;
pub use grid::{Grid, LEAST_SCORE};
pub use law::lines_are_unique;
pub use line::{Line, Lines};
pub use span::Span;
