//! The order in which the lines of a page are read, by the two rules of Breuel (2003), and the areas that they form.
#![tactic(auto)]

mod areas;
mod cycle;
mod front;
mod groups;
mod law;
mod order;
mod reach;
mod rows;
mod rules;
mod steps;
mod sweep;
mod table;
#[cfg(test)]
mod tests;

pub use areas::areas_of;
pub use law::order_and_areas_are_unique;
pub use order::order_of;
