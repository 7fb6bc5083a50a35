//! Split frontiers by two passes, step by step.
ghost use Rattle.std.specs.Prelude.{◌≡◌, ◌<◌, ◌∷◌, []};
ghost use Rattle.split_frontier.specs.Callers.{IsOwn};
ghost use Rattle.split_frontier.specs.Claims.{unspent, spent};

use super::pages::{RIGHT, Sides, corner_block, shape_of};
use box_search::{Lease, Space, Take, beginning};
use frontier_turn::DividesPasses;
use search_trials::ShardHand;
use split_frontier::{Shards, SplitPass};
use std::process::Abort;
use std::sync::Wait;
use std::test::Fail;

/// Leases the node of a rectangle, which has number 0.
fn lease_at<S: Space, R: Abort + Wait>(
    hand: &ShardHand<'_, '_, S, R>,
    pass: SplitPass<S>,
    shard: u32,
    sides: Sides,
) -> (Lease<S::Work>, SplitPass<S>)
    requires own { IsOwn hand.now.shards.now pass }
    requires there { shard < hand.now.shards.now.shards }
    requires unnamed { pass.view.rest.leases ≡ [] }
    ensures own { IsOwn hand.now.shards.now result.1 }
    ensures parts { result.1.view.rest.parts ≡ pass.view.rest.parts }
    ensures named { result.1.view.rest.leases ≡ unspent shard result.0 ∷ [] }
    ensures fit { S.fits hand.now.shards.now.problem result.0.node }
{
    let (take, pass) = hand.lease_from(pass, shard);
    match take {
        Take::Leased(lease) => {
            assert_eq!(hand.rt; lease.number, 0);
            assert_eq!(hand.rt; lease.node.shape, shape_of(sides));
            (lease, pass)
        }
        _ => panic!(hand.rt; "nothing was leased"),
    }
}

/// Finds nothing to lease: something is out, or nothing is left.
fn lease_nothing<S: Space, R: Abort + Wait>(
    hand: &ShardHand<'_, '_, S, R>,
    pass: SplitPass<S>,
    shard: u32,
    is_done: bool,
) -> SplitPass<S>
    requires own { IsOwn hand.now.shards.now pass }
    requires there { shard < hand.now.shards.now.shards }
    requires unnamed { pass.view.rest.leases ≡ [] }
    ensures own { IsOwn hand.now.shards.now result }
    ensures parts { result.view.rest.parts ≡ pass.view.rest.parts }
    ensures unnamed { result.view.rest.leases ≡ [] }
{
    let (take, pass) = hand.lease_from(pass, shard);
    match take {
        Take::Leased(_) => panic!(hand.rt; "a node was leased"),
        Take::Idle => assert!(hand.rt; !is_done),
        Take::Done => assert!(hand.rt; is_done),
    }
    pass
}

/// Asks once for the turn of a shard, and gives it back. Says whether it came.
fn try_turn<S: Space>(
    shards: &Shards<'_, S>,
    pass: SplitPass<S>,
    shard: u32,
) -> (bool, SplitPass<S>)
    requires own { IsOwn shards.now pass }
    requires there { shard < shards.now.shards }
    ensures own { IsOwn shards.now result.1 }
    ensures parts { result.1.view.rest.parts ≡ pass.view.rest.parts }
    ensures leases { result.1.view.rest.leases ≡ pass.view.rest.leases }
{
    match shards.try_enter(pass, shard) {
        Ok(turn) => (true, turn.leave()),
        Err(back) => (false, back),
    }
}

/// Ends a spent lease of shard 0 in a turn, in which another pass asks for the turns of shards 0 and 1. Says which came.
fn end_beside<S: Space, R: Wait>(
    rt: &R,
    shards: &Shards<'_, S>,
    pass: SplitPass<S>,
    other: SplitPass<S>,
    lease: Lease<S::Work>,
) -> ((bool, bool), SplitPass<S>, SplitPass<S>)
    requires own { IsOwn shards.now pass }
    requires other { IsOwn shards.now other }
    requires there { 1 < shards.now.shards }
    requires named { pass.view.rest.leases ≡ spent 0 lease ∷ [] }
    ensures own { IsOwn shards.now result.1 }
    ensures other { IsOwn shards.now result.2 }
    ensures parts { result.1.view.rest.parts ≡ pass.view.rest.parts }
    ensures other_parts { result.2.view.rest.parts ≡ other.view.rest.parts }
    ensures unnamed { result.1.view.rest.leases ≡ [] }
    ensures other_leases { result.2.view.rest.leases ≡ other.view.rest.leases }
{
    let mut turn = shards.enter(rt, pass, 0);
    let (first, other) = try_turn(shards, other, 0);
    let (second, other) = try_turn(shards, other, 1);
    turn.end(lease);
    ((first, second), turn.leave(), other)
}

// A lease of shard 0 is adopted into shard 1 and ended at home, while another pass looks on, who then searches shard 1.
#[test]
fn adopt_and_end_by_hand(rt: HostRuntime) -> Result<(), Fail> {
    let alloc = rt.alloc();
    let white = corner_block(&rt, alloc)?;
    let nodes = beginning(alloc, &white)?;
    let (shards, mut first) = Shards::start(alloc, &white, nodes, 2, 1)?;
    let second = shards.split(&mut first);
    let hand = ShardHand {
        rt: &rt,
        space: &white,
        shards: &shards,
        own: 1,
    };
    let (page, first) = lease_at(&hand, first, 0, (0, 0, 16, 16));
    let (adopted, first) = hand.hand_over(alloc, first, 0, &page);
    assert!(rt; adopted);
    let second = lease_nothing(&hand, second, 0, false);
    let (came, mut first, second) = end_beside(&rt, &shards, first, second, page);
    assert_eq!(rt; came, (false, true));
    let (right, second) = lease_at(&hand, second, 1, (3, 0, 16, 16));
    let (ended, second) = hand.settle(alloc, second, right);
    assert!(rt; ended);
    let (below, second) = lease_at(&hand, second, 1, (0, 3, 16, 16));
    let (ended, second) = hand.settle(alloc, second, below);
    assert!(rt; ended);
    shards.join(&mut first, second);
    let first = lease_nothing(&hand, first, 0, true);
    let first = lease_nothing(&hand, first, 1, true);
    let closed = shards.close(first);
    assert_eq!(rt; (closed.word, closed.waiting, closed.leased), (RIGHT, 0, 0));
    Ok(())
}
