//! A search by several workers, each with a frontier of its own: each leases a node in a turn, takes its step outside, and ends
//! the lease in later turns. The answer is that of one thread, whatever the schedule.
#![tactic(auto)]

mod crew;
mod ending;
mod gate;
mod onward;
mod worker;
mod workers;
mod working;

pub use gate::{Gate, OpenGate};
pub use workers::Workers;
