//! Searches with several numbers of workers, workers that wait for one another, and memory that is refused.
ghost use Rattle.std.specs.Prelude.{◌≤◌, IfOk};
ghost use Rattle.box_search.specs.Search.{IsGreatestKey};
ghost use Rattle.layout_limits.specs.declared.TheConstants.{MAX_WORKERS};

use super::{BELOW, RIGHT, chance_numbers};
use crate::{Meeting, RefusesOnce, Table, Watched};
use box_search::{Alone, HeadStart, Searcher, Space};
use layout_limits::{MAX_WORKERS, OutOfMemory};
use lease_workers::{Gate, OpenGate, Workers};
use std::alloc::Global;
use std::sync::Wait;
use std::test::Fail;
use std::thread::Threads;

/// Searches with some workers.
fn best_with<R: Threads + Wait + Sync, G: Gate, S: Space>(
    rt: &R,
    alloc: Global,
    count: u32,
    gate: &G,
    space: &S,
) -> Result<u64, OutOfMemory>
    requires counts { (1 ≤ count) × (count ≤ MAX_WORKERS) }
    ensures greatest { IfOk result (IsGreatestKey (S.admits (S.problem space.now))) }
{
    let mut workers = Workers::new(count, gate);
    workers.best(alloc, rt, space)
}

#[test]
fn worker_counts(rt: HostRuntime) -> Result<(), Fail> {
    let alloc = rt.alloc();
    let numbers = chance_numbers();
    let keys = Table::new(&numbers);
    let greatest = Alone.best(alloc, &keys)?;
    for _ in 0..20 {
        assert_eq!(rt; best_with(&rt, alloc, 1, &OpenGate, &keys)?, greatest);
        assert_eq!(rt; best_with(&rt, alloc, 2, &OpenGate, &keys)?, greatest);
        assert_eq!(rt; best_with(&rt, alloc, 7, &OpenGate, &keys)?, greatest);
        assert_eq!(rt;
            best_with(&rt, alloc, u32::from(MAX_WORKERS), &OpenGate, &keys)?,
            greatest
        );
    }
    assert_eq!(rt; best_with(&rt, alloc, 2, &OpenGate, &Table::new(&[]))?, 0);
    assert_eq!(rt;
        best_with(&rt, alloc, 2, &OpenGate, &Table::new(&[0, 0]))?,
        0
    );
    Ok(())
}

/// Searches with some workers, who go on from what a search on one thread left open after so many boxes.
fn best_behind<R: Threads + Wait + Sync, S: Space>(
    rt: &R,
    alloc: Global,
    count: u32,
    boxes: u32,
    space: &S,
) -> Result<u64, OutOfMemory>
    requires counts { (1 ≤ count) × (count ≤ MAX_WORKERS) }
    ensures greatest { IfOk result (IsGreatestKey (S.admits (S.problem space.now))) }
{
    match Alone.best_within(alloc, space, boxes)? {
        HeadStart::Ended(key) => Ok(key),
        HeadStart::Open(nodes) => Workers::new(count, &OpenGate).best_from(alloc, rt, space, nodes),
    }
}

#[test]
fn workers_go_on_from_open_nodes(rt: HostRuntime) -> Result<(), Fail> {
    let alloc = rt.alloc();
    let numbers = chance_numbers();
    let keys = Table::new(&numbers);
    let greatest = Alone.best(alloc, &keys)?;
    for boxes in 0..12 {
        for count in [1, 2, 7] {
            assert!(rt; 1 <= count && count <= u32::from(MAX_WORKERS));
            let found = best_behind(&rt, alloc, count, boxes, &keys)?;
            assert_eq!(rt; found, greatest, "{count} workers behind {boxes} boxes");
        }
    }
    assert_eq!(rt; best_behind(&rt, alloc, 2, 0, &Table::new(&[0, 0]))?, 0);
    Ok(())
}

#[test]
fn both_workers_ask_for_turns(rt: HostRuntime) -> Result<(), Fail> {
    let keys = Table::new(&[BELOW, RIGHT]);
    let gate = Meeting::new();
    assert_eq!(rt; best_with(&rt, rt.alloc(), 2, &gate, &keys)?, RIGHT);
    assert!(rt; gate.took_place());
    Ok(())
}

#[test]
fn memory_is_refused_once(rt: HostRuntime) -> Result<(), Fail> {
    let keys = Table::new(&[BELOW, RIGHT]);
    let space = Watched {
        space: &keys,
        watcher: &RefusesOnce::after(0),
    };
    let alloc = rt.alloc();
    assert!(rt; best_with(&rt, alloc, 1, &OpenGate, &space).is_err());
    assert_eq!(rt; best_with(&rt, alloc, 1, &OpenGate, &space)?, RIGHT);
    Ok(())
}
