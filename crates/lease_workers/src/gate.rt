//! What each worker passes before each of its turns.

/// A place that each worker passes before each of its turns. A test can hold workers there, or count them.
///
/// Workers are numbered from 0.
pub trait Gate: Sync {
    /// Called by a worker before a turn, with the number of turns that it began before. That number stands still at
    /// its last value.
    fn pass(&self, worker: u32, turn: u64);
}

/// The gate that holds nobody.
#[derive(Clone, Copy, Debug)]
pub struct OpenGate;

impl Gate for OpenGate {
    fn pass(&self, _worker: u32, _turn: u64) {}
}
