//! Which worker it is, and how many turns it began.
ghost use Rattle.std.specs.Prelude.{◌≡◌};

use crate::gate::Gate;

/// A worker: its number, its shard, and how many turns it began.
#[derive(Drop)]
pub(crate) struct Worker {
    /// Its number, from 0.
    number: u32,
    /// The number of its own shard.
    pub(crate) own: u32,
    begun: u64,
    /// How often it looked in vain since it slept last.
    vain: u32,
}

/// How often a worker looks in vain before it sleeps. Others mostly open nodes within microseconds.
const LOOKS: u32 = 100;

impl Worker {
    /// A worker that began no turn yet.
    pub(crate) fn new(number: u32, own: u32) -> Worker
        ensures { result.own ≡ own }
    {
        Worker {
            number,
            own,
            begun: 0,
            vain: 0,
        }
    }

    /// Passes the gate, as before each turn, and counts the turn that comes.
    pub(crate) fn pass_gate<G: Gate>(&mut self, gate: &G)
        ensures { self.new.own ≡ self.old.own }
    {
        gate.pass(self.number, self.begun);
        self.begun = self.begun.saturating_add(1);
    }

    /// Whether it may look once more before it sleeps, which it counts.
    pub(crate) fn may_look(&mut self) -> bool
        ensures { self.new.own ≡ self.old.own }
    {
        let is_awake = self.vain < LOOKS;
        self.vain = if is_awake { self.vain + 1 } else { 0 };
        is_awake
    }
}
