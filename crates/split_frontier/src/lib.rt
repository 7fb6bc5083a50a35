//! A search whose frontier is split: each shard has a part of it and a turn of its own, beside one bound word that all
//! callers raise.
#![tactic(auto)]

mod homing;
mod law;
mod parked;
mod pass;
mod rule;
mod shards;
mod turn;
mod view;

pub use law::each_step_keeps_the_rule;
pub use pass::SplitPass;
pub use shards::Shards;
pub use turn::SplitTurn;
