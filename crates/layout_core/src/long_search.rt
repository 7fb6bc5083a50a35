//! A search on one thread that goes on by workers where it is long.
ghost use Rattle.std.specs.Prelude.{◌≤◌, IfOk};
ghost use Rattle.box_search.specs.Search.{IsGreatestKey};

use box_search::{Alone, HeadStart, Searcher, Space};
use layout_limits::{MAX_WORKERS, OutOfMemory};
use lease_workers::{Gate, Workers};
use std::alloc::Global;
use std::cell::Cell;
use std::sync::Wait;
use std::thread::Threads;

/// How many boxes of a search are opened before workers are asked for, at first. Most searches of a page end sooner, and to
/// begin threads and join them costs more than such a search.
pub(crate) const FIRST_HEAD_START: u32 = 200;

/// The most boxes of a search that are opened before workers are asked for.
const MAX_HEAD_START: u32 = 3200;

/// The greatest admitted key, or 0 exactly where no key is admitted: found on this thread where it is to be one worker or
/// where that takes few boxes, and else by workers, who go on from the boxes that are open then.
///
/// The head start is how many boxes are opened before workers are asked for. It doubles each time that they were: the
/// searches of a page are much alike, and where each of them asks for workers its threads cost more than they save.
pub(crate) fn best_of<S: Space, R: Threads + Wait + Sync, G: Gate>(
    alloc: Global,
    rt: &R,
    space: &S,
    count: u32,
    gate: &G,
    head_start: &Cell<u32>,
) -> Result<u64, OutOfMemory>
    requires counts { (1 ≤ count) × (count ≤ MAX_WORKERS) }
    ensures greatest { IfOk result (IsGreatestKey (S.admits (S.problem space.now))) }
{
    if count == 1 {
        return Alone.best(alloc, space);
    }
    let boxes = head_start.get();
    match Alone.best_within(alloc, space, boxes)? {
        HeadStart::Ended(key) => Ok(key),
        HeadStart::Open(nodes) => {
            head_start.set(boxes.saturating_mul(2).min(MAX_HEAD_START));
            Workers::new(count, gate).best_from(alloc, rt, space, nodes)
        }
    }
}
