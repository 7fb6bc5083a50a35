//! Shared searches that are closed at once or after a turn by hand, and two threads on one frontier and on two.
ghost use Rattle.std.specs.Prelude.{◌≡◌, [], IfOk};
ghost use Rattle.std.specs.Thread.{IsSync};
ghost use Rattle.box_search.specs.Search.{IsGreatestKey};
ghost use Rattle.frontier_turn.specs.Callers.{IsOwn};

use super::shards::split_search_by_two;
use super::{BELOW, RIGHT, chance_numbers};
use crate::{Table, take_lease, work, work_off};
use box_search::{Alone, Searcher, Space, Take};
use frontier_turn::{Closed, DividesPasses, Pass, Shared};
use layout_limits::OutOfMemory;
use std::alloc::Global;
use std::sync::Wait;
use std::test::Fail;
use std::thread::{Threads, join};

/// How a search stands before any turn.
fn close_at_once(alloc: Global, keys: &Table<'_>) -> Result<Closed, OutOfMemory> {
    let root = keys.root(alloc)?;
    let (shared, pass) = Shared::start(alloc, keys, root)?;
    Ok(shared.close(pass))
}

#[test]
fn closed_at_once(rt: HostRuntime) -> Result<(), Fail> {
    let closed = close_at_once(rt.alloc(), &Table::new(&[RIGHT, BELOW]))?;
    assert_eq!(rt; (closed.word, closed.waiting, closed.leased), (0, 1, 0));
    let closed = close_at_once(rt.alloc(), &Table::new(&[]))?;
    assert_eq!(rt; (closed.word, closed.waiting, closed.leased), (0, 0, 0));
    Ok(())
}

// Where memory is refused, as in a run in which allocations fail, the lease goes back and its node is open again.
#[test]
fn lease_ends_or_goes_back(rt: HostRuntime) -> Result<(), Fail> {
    let alloc = rt.alloc();
    let keys = Table::new(&[RIGHT, BELOW]);
    let root = keys.root(alloc)?;
    let (shared, pass) = Shared::start(alloc, &keys, root)?;
    let (take, pass) = take_lease(&rt, &shared, pass);
    let Take::Leased(both) = take else {
        panic!(rt; "nothing was leased");
    };
    assert_eq!(rt;
        (both.number, both.node.shape.a0, both.node.shape.a1),
        (0, 0, 2)
    );
    let (ended, pass) = work_off(&rt, alloc, &keys, &shared, pass, both);
    let waiting = if ended { 2 } else { 1 };
    let closed = shared.close(pass);
    assert_eq!(rt;
        (closed.word, closed.waiting, closed.leased),
        (0, waiting, 0)
    );
    Ok(())
}

/// Searches with two threads.
fn search_by_two<S: Space, R: Threads + Wait + Sync>(
    rt: &R,
    alloc: Global,
    space: &S,
) -> Result<Closed, OutOfMemory>
    ensures greatest { let p = S.problem space.now in
        IfOk result (λ closed. closed.waiting ≡ 0 → closed.leased ≡ 0 → IsGreatestKey (S.admits p) closed.word) }
{
    let root = space.root(alloc)?;
    let (search, mut first) = Shared::start(alloc, space, root)?;
    let second = search.split(&mut first);
    let shared = &search;
    let (mut first, second) = join(
        rt,
        || -> Pass<S>
            requires { IsSync R.row × (shared.now.problem ≡ S.problem space.now)
                × IsOwn shared.now first × (first.view.rest.leases ≡ []) }
            ensures { IsOwn shared.entry.now result
                × (result.view.rest.parts ≡ first.view.rest.parts) × (result.view.rest.leases ≡ []) }
        { work(rt, alloc, space, shared, first) },
        || -> Pass<S>
            requires { IsSync R.row × (shared.now.problem ≡ S.problem space.now)
                × IsOwn shared.now second × (second.view.rest.leases ≡ []) }
            ensures { IsOwn shared.entry.now result
                × (result.view.rest.parts ≡ second.view.rest.parts) × (result.view.rest.leases ≡ []) }
        { work(rt, alloc, space, shared, second) },
    );
    search.join(&mut first, second);
    Ok(search.close(first))
}

#[test]
fn two_threads_find_the_greatest_key(rt: HostRuntime) -> Result<(), Fail> {
    let numbers = chance_numbers();
    let keys = Table::new(&numbers);
    let greatest = Alone.best(rt.alloc(), &keys)?;
    let wanted = Closed {
        word: greatest,
        waiting: 0,
        leased: 0,
    };
    for _ in 0..100 {
        assert_eq!(rt; search_by_two(&rt, rt.alloc(), &keys)?, wanted);
        assert_eq!(rt; split_search_by_two(&rt, rt.alloc(), &keys)?, wanted);
    }
    Ok(())
}
