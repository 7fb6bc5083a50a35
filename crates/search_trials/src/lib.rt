//! The tests of the search by one thread and by many, and what other tests re-use of them: a space of table keys, spaces
//! whose steps wait or find no memory, and a worker by hand. It is for tests alone, and no part of the product.
#![tactic(auto)]

mod by_hand;
mod meeting;
mod shard_hand;
mod table;
#[cfg(test)]
mod tests;
mod watched;

pub use by_hand::{give_back, take_lease, work, work_off};
pub use meeting::{Meeting, StepsMeet};
pub use shard_hand::{Look, ShardHand};
pub use table::{Span, Table};
pub use watched::{RefusesOnce, Watched, Watcher};
