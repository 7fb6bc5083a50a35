//! Split searches that are closed at once or after one lease, and one by two threads.
ghost use Rattle.std.specs.Prelude.{◌≡◌, ◌<◌, ◌≤◌, []};
ghost use Rattle.std.specs.Thread.{IsSync};
ghost use Rattle.layout_limits.specs.declared.TheConstants.{MAX_WORKERS};
ghost use Rattle.split_frontier.specs.Callers.{IsOwn};

use super::{BELOW, RIGHT};
use crate::{ShardHand, Table};
use box_search::{Space, Take, beginning};
use frontier_turn::{Closed, DividesPasses};
use layout_limits::OutOfMemory;
use split_frontier::{Shards, SplitPass};
use std::alloc::Global;
use std::process::Abort;
use std::sync::Wait;
use std::test::Fail;
use std::thread::{Threads, join};

/// Word, waiting and leased of a search with some shards before any turn.
fn close_at_once(
    alloc: Global,
    keys: &Table<'_>,
    count: u32,
) -> Result<(u64, u64, u64), OutOfMemory>
    requires counts { (1 ≤ count) × (count ≤ MAX_WORKERS) }
{
    let nodes = beginning(alloc, keys)?;
    let (shards, pass) = Shards::start(alloc, keys, nodes, count, 1)?;
    let closed = shards.close(pass);
    Ok((closed.word, closed.waiting, closed.leased))
}

#[test]
fn shards_closed_at_once(rt: HostRuntime) -> Result<(), Fail> {
    let keys = Table::new(&[RIGHT, BELOW]);
    assert_eq!(rt; close_at_once(rt.alloc(), &keys, 1)?, (0, 1, 0));
    assert_eq!(rt; close_at_once(rt.alloc(), &keys, 3)?, (0, 1, 0));
    assert_eq!(rt; close_at_once(rt.alloc(), &keys, 64)?, (0, 1, 0));
    assert_eq!(rt; close_at_once(rt.alloc(), &Table::new(&[]), 3)?, (0, 0, 0));
    Ok(())
}

/// Works off one lease of shard 0 by a worker of this shard of two. Says whether it ended, and how the search stands.
fn work_off_one<R: Abort + Wait>(
    rt: &R,
    alloc: Global,
    keys: &Table<'_>,
    own: u32,
) -> Result<(bool, (u64, u64, u64)), OutOfMemory>
    requires there { own < 2 }
{
    let nodes = beginning(alloc, keys)?;
    let (shards, pass) = Shards::start(alloc, keys, nodes, 2, 1)?;
    let hand = ShardHand {
        rt,
        space: keys,
        shards: &shards,
        own,
    };
    let (take, pass) = hand.lease_from(pass, 0);
    let Take::Leased(lease) = take else {
        panic!(rt; "nothing was leased");
    };
    let (ended, pass) = hand.work_off(alloc, pass, 0, lease);
    let closed = shards.close(pass);
    Ok((ended, (closed.word, closed.waiting, closed.leased)))
}

// Where memory is refused, as in a run in which allocations fail, the lease goes back and its node is open again.
#[test]
fn lease_of_a_shard_ends_or_goes_back(rt: HostRuntime) -> Result<(), Fail> {
    let keys = Table::new(&[RIGHT, BELOW]);
    let (ended, stands) = work_off_one(&rt, rt.alloc(), &keys, 0)?;
    assert_eq!(rt; stands, (0, if ended { 2 } else { 1 }, 0));
    let (adopted, stands) = work_off_one(&rt, rt.alloc(), &keys, 1)?;
    assert_eq!(rt; stands, (0, if adopted { 2 } else { 1 }, 0));
    Ok(())
}

/// Works with two threads, each with a pass of its own.
fn work_by_two<S: Space, R: Threads + Wait + Sync>(
    left: &ShardHand<'_, '_, S, R>,
    right: &ShardHand<'_, '_, S, R>,
    alloc: Global,
    first: SplitPass<S>,
    second: SplitPass<S>,
) -> (SplitPass<S>, SplitPass<S>)
    requires left_space { left.now.shards.now.problem ≡ S.problem left.now.space.now }
    requires left_there { (1 < left.now.shards.now.shards) × (left.now.own < left.now.shards.now.shards) }
    requires left_own { IsOwn left.now.shards.now first × (first.view.rest.leases ≡ []) }
    requires right_space { right.now.shards.now.problem ≡ S.problem right.now.space.now }
    requires right_there { (0 < right.now.shards.now.shards) × (right.now.own < right.now.shards.now.shards) }
    requires right_own { IsOwn right.now.shards.now second × (second.view.rest.leases ≡ []) }
    ensures left_own { IsOwn left.now.shards.now result.0 }
    ensures left_parts { result.0.view.rest.parts ≡ first.view.rest.parts }
    ensures right_own { IsOwn right.now.shards.now result.1 }
    ensures right_parts { result.1.view.rest.parts ≡ second.view.rest.parts }
    ensures unnamed { result.1.view.rest.leases ≡ [] }
{
    join(
        left.rt,
        || -> SplitPass<S>
            requires { IsSync R.row × (1 < left.now.shards.now.shards) × (left.now.own < left.now.shards.now.shards)
                × (left.now.shards.now.problem ≡ S.problem left.now.space.now)
                × IsOwn left.now.shards.now first × (first.view.rest.leases ≡ []) }
            ensures { IsOwn left.entry.now.shards.now result × (result.view.rest.parts ≡ first.view.rest.parts) }
        { left.work(alloc, first, 1) },
        || -> SplitPass<S>
            requires { IsSync R.row × (0 < right.now.shards.now.shards) × (right.now.own < right.now.shards.now.shards)
                × (right.now.shards.now.problem ≡ S.problem right.now.space.now)
                × IsOwn right.now.shards.now second × (second.view.rest.leases ≡ []) }
            ensures { IsOwn right.entry.now.shards.now result × (result.view.rest.parts ≡ second.view.rest.parts)
                × (result.view.rest.leases ≡ []) }
        { right.work(alloc, second, 0) },
    )
}

/// Searches a table with two threads, each with a shard of its own.
pub(super) fn split_search_by_two<R: Threads + Wait + Sync>(
    rt: &R,
    alloc: Global,
    keys: &Table<'_>,
) -> Result<Closed, OutOfMemory> {
    let nodes = beginning(alloc, keys)?;
    let (shards, mut first) = Shards::start(alloc, keys, nodes, 2, 1)?;
    let second = shards.split(&mut first);
    let left = ShardHand {
        rt,
        space: keys,
        shards: &shards,
        own: 0,
    };
    let right = ShardHand {
        rt,
        space: keys,
        shards: &shards,
        own: 1,
    };
    let (mut first, second) = work_by_two(&left, &right, alloc, first, second);
    shards.join(&mut first, second);
    Ok(shards.close(first))
}
