//! How a worker goes on in a turn in which it ended a lease: it passes over the nodes that are worth no step.
ghost use Rattle.std.specs.Prelude.{◌≡◌, ◌≤◌, ◌∷◌, [], All, IsTrue};
ghost use Rattle.split_frontier.specs.Holding.{NamesOnly};
ghost use Rattle.split_frontier.specs.Claims.{unspent};
ghost use Rattle.lease_workers.specs.Cutting.{IsCut};

use crate::crew::lease_and_leave;
use box_search::{Lease, Shape, Space, Take};
use split_frontier::{SplitPass, SplitTurn};
use std::alloc::Global;

/// How many nodes of one shape are passed over in one turn.
const PASSED: u32 = 64;

/// Whether the shapes have the same points.
fn is_same(one: Shape, other: Shape) -> bool
    ensures same { IsTrue result → one ≡ other }
{
    one == other
}

/// Ends a lease whose node is no greater than what was seen, as then is no other open node of the shard, and drops all
/// of these at once. Where it cannot, since others have leases of the shard or for want of memory, they come out one by
/// one, in this turn and in later ones.
fn drop_and_leave<S: Space>(
    alloc: Global,
    turn: SplitTurn<'_, S>,
    lease: Lease<S::Work>,
    seen: u64,
) -> (Take<S::Work>, SplitPass<S>)
    requires named { turn.leases ≡ unspent turn.shard lease ∷ [] }
    requires seen { seen ≤ turn.view.seen }
    requires fit { S.fits turn.view.rest.problem lease.node }
    requires low { lease.node.bound ≤ seen }
    requires greatest { All (λ node. node.bound ≤ lease.node.bound) turn.frontier.open_nodes }
    ensures table { result.1.table_id ≡ turn.entry.table_id }
    ensures problem { result.1.view.rest.problem ≡ turn.entry.view.rest.problem }
    ensures parts { result.1.view.rest.parts ≡ turn.entry.view.rest.parts }
    ensures named_after { NamesOnly turn.entry.shard (S.fits turn.entry.view.rest.problem) result.0 result.1.view.rest.leases }
{
    let mut turn = turn;
    turn.pass_over(lease, seen);
    drop(turn.clear(alloc, seen));
    lease_and_leave(turn)
}

/// Leases the next node that is worth a step, and gives the turn back. A node is worth none where its bound is no greater
/// than what was seen, or where its shape is the one that was cut in this turn, since its keys then lie in the parts.
pub(crate) fn lease_worthy<S: Space>(
    alloc: Global,
    turn: SplitTurn<'_, S>,
    cut: Shape,
    seen: u64,
) -> (Take<S::Work>, SplitPass<S>)
    requires unnamed { turn.leases ≡ [] }
    requires seen { seen ≤ turn.view.seen }
    requires cut { let p = turn.view.rest.problem in IsCut (S.admits p) (S.lies_in p) seen cut turn.frontier.open_nodes }
    ensures table { result.1.table_id ≡ turn.entry.table_id }
    ensures problem { result.1.view.rest.problem ≡ turn.entry.view.rest.problem }
    ensures parts { result.1.view.rest.parts ≡ turn.entry.view.rest.parts }
    ensures named { NamesOnly turn.entry.shard (S.fits turn.entry.view.rest.problem) result.0 result.1.view.rest.leases }
{
    let mut turn = turn;
    for _ in 0..PASSED {
        let lease = match turn.lease() {
            Take::Leased(lease) => lease,
            Take::Idle => return (Take::Idle, turn.leave()),
            Take::Done => return (Take::Done, turn.leave()),
        };
        if lease.node.bound <= seen {
            return drop_and_leave(alloc, turn, lease, seen);
        }
        if !is_same(lease.node.shape, cut) {
            return (Take::Leased(lease), turn.leave());
        }
        turn.pass_over(lease, seen);
    }
    lease_and_leave(turn)
}
