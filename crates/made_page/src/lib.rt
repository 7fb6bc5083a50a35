//! The page of a seed: rows of solid blocks in two columns, for measuring and for tests.
#![tactic(auto)]

mod block;
mod blocks;
mod draws;
mod few;
mod made;
mod painting;
#[cfg(test)]
mod tests;

pub use few::made_page_has_few_components;
pub use made::make_page;
pub use page_runs::RunPage;
