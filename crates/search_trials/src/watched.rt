//! A space whose steps somebody watches, who may hold them or refuse them memory.
use box_search::{Node, Shape, Space, Step};
use crossbeam_utils::atomic::AtomicCell;
use layout_limits::OutOfMemory;
use std::alloc::Global;

/// Somebody who is told of each step before it is taken.
pub trait Watcher: Sync {
    /// Called before the step at a node of this shape. Its refusal is the step's.
    fn before_step(&self, shape: Shape) -> Result<(), OutOfMemory>;
}

/// A space as it is, but for the watcher of its steps.
#[derive(Drop)]
pub struct Watched<'a, S: Space, W: Watcher> {
    /// The space that is searched.
    pub space: &'a S,
    /// Who is told of each step.
    pub watcher: &'a W,
}

impl<'a, S: Space, W: Watcher> Space for Watched<'a, S, W> {
    type Work = S::Work;

    ghost problem = { λ watched. S.problem watched.space.now };

    ghost admits = { S.admits };

    ghost lies_in = { S.lies_in };

    ghost fits = { S.fits };

    ghost positive = { S.positive };

    ghost bounded = { S.bounded };

    fn root(&self, alloc: Global) -> Result<Option<Node<S::Work>>, OutOfMemory> {
        self.space.root(alloc)
    }

    fn step(&self, alloc: Global, node: &Node<S::Work>) -> Result<Step<S::Work>, OutOfMemory> {
        self.watcher.before_step(node.shape)?;
        self.space.step(alloc, node)
    }
}

/// Refuses one step memory, after `left` others.
#[derive(Drop)]
pub struct RefusesOnce {
    left: AtomicCell<u64>,
}

impl RefusesOnce {
    /// Refuses the step after `left` others.
    pub fn after(left: u64) -> RefusesOnce {
        RefusesOnce {
            left: AtomicCell::new(left),
        }
    }
}

impl Watcher for RefusesOnce {
    fn before_step(&self, _shape: Shape) -> Result<(), OutOfMemory> {
        let left = self.left.load();
        self.left.store(left.wrapping_sub(1));
        if left == 0 {
            return Err(OutOfMemory);
        }
        Ok(())
    }
}
