//! A frontier that many callers share, one at a time, beside the bound word that all of them raise.
#![tactic(auto)]

mod dividing;
mod law;
mod pass;
mod rule;
mod shared;
mod sharing;
mod turn;
mod view;

pub use dividing::DividesPasses;
pub use law::each_step_keeps_the_rule;
pub use pass::Pass;
pub use shared::{Closed, Shared};
pub use sharing::{
    BOUND, GiveTurn, Halve, Merge, Parted, SearchRule, Shares, Steps, TURNS, TakeTurn,
};
pub use turn::Turn;
pub use view::{Outline, Snapshot};
