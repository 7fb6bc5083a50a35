//! Places at which two workers wait for one another, for a while.
use crate::watched::Watcher;
use box_search::Shape;
use crossbeam_utils::atomic::AtomicCell;
use layout_limits::OutOfMemory;
use lease_workers::Gate;
use std::hint::spin_loop;

// How often a waiting worker looks, before it goes on.
const LOOKS: u64 = 100_000_000;

/// Two flags, and one that says that somebody waited in vain.
#[derive(Drop)]
pub struct Meeting {
    first: AtomicCell<bool>,
    second: AtomicCell<bool>,
    in_vain: AtomicCell<bool>,
}

impl Meeting {
    /// A meeting to which nobody has come.
    pub fn new() -> Meeting {
        Meeting {
            first: AtomicCell::new(false),
            second: AtomicCell::new(false),
            in_vain: AtomicCell::new(false),
        }
    }

    /// Sets the first flag and waits for the second, or the other way round.
    pub fn come(&self, is_first: bool) {
        let (mine, other) = if is_first {
            (&self.first, &self.second)
        } else {
            (&self.second, &self.first)
        };
        mine.store(true);
        for _ in 0..LOOKS {
            if other.load() {
                return;
            }
            spin_loop();
        }
        self.in_vain.store(true);
    }

    /// Whether both came, and nobody waited in vain.
    pub fn took_place(&self) -> bool {
        self.first.load() && self.second.load() && !self.in_vain.load()
    }
}

/// Holds each of two workers before its first turn until the other has asked for one.
impl Gate for Meeting {
    fn pass(&self, worker: u32, turn: u64) {
        if turn == 0 {
            self.come(worker == 0);
        }
    }
}

/// Holds the steps at two shapes until both are asked for.
#[derive(Drop)]
pub struct StepsMeet<'a> {
    /// The shapes of the two nodes.
    pub shapes: (Shape, Shape),
    /// Where the two steps meet.
    pub meeting: &'a Meeting,
}

impl<'a> Watcher for StepsMeet<'a> {
    fn before_step(&self, shape: Shape) -> Result<(), OutOfMemory> {
        let (first, second) = self.shapes;
        if shape == first {
            self.meeting.come(true);
        } else if shape == second {
            self.meeting.come(false);
        }
        Ok(())
    }
}
