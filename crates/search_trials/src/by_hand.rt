//! A worker by hand: it leases a node, takes its step outside the turn, and ends the lease in its next turn.
ghost use Rattle.std.specs.Prelude.{◌≡◌, ℕ, ◌≤◌, ◌∷◌, [], All, IfOk};
ghost use Rattle.std.specs.List.Sorted.{IsPermutation};
ghost use Rattle.box_search.specs.Leasing.{entry_of};
ghost use Rattle.frontier_turn.specs.Callers.{IsOwn};
ghost use Rattle.frontier_turn.specs.Holding.{NamesOnly, Replaces};

use bound_word::BoundWord;
use box_search::{Lease, Node, Space, Step, Take, Unfinished};
use frontier_turn::{Pass, Shared};
use layout_limits::OutOfMemory;
use std::alloc::Global;
use std::sync::Wait;

/// Leases a node in a turn.
pub fn take_lease<S: Space, R: Wait>(
    rt: &R,
    shared: &Shared<'_, S>,
    pass: Pass<S>,
) -> (Take<S::Work>, Pass<S>)
    requires own { IsOwn shared.now pass }
    requires unnamed { pass.view.rest.leases ≡ [] }
    ensures own { IsOwn shared.now result.1 }
    ensures parts { result.1.view.rest.parts ≡ pass.view.rest.parts }
    ensures named { NamesOnly (S.fits shared.now.problem) result.0 result.1.view.rest.leases }
{
    let mut turn = shared.enter(rt, pass);
    let take = turn.lease();
    (take, turn.leave())
}

/// The word by which a node may be pruned, which the pass has read or raised, and the nodes to search in its place.
pub(crate) fn replace<S: Space, B: BoundWord>(
    alloc: Global,
    space: &S,
    bound: &B,
    pass: &mut B::Pass,
    node: &Node<S::Work>,
) -> Result<(u64, Vec<Node<S::Work>>), OutOfMemory>
    requires admits { (key : ℕ) → S.admits (S.problem space.now) key → B.admits bound.now key }
    requires own { B.is_own bound.now pass.old }
    requires fits { S.fits (S.problem space.now) node.now }
    ensures own { B.is_own bound.now pass.new }
    ensures rest { B.rest pass.new ≡ B.rest pass.old }
    ensures seen { IfOk result (λ found. found.0 ≤ B.seen pass.new) }
    ensures fits { IfOk result (λ found. All (S.fits (S.problem space.now)) found.1.items) }
    ensures replaces { let p = S.problem space.now in
        IfOk result (λ found. Replaces (S.admits p) (S.lies_in p) node.now.shape found.0 found.1.items) }
{
    let word = bound.read(pass);
    if node.bound <= word {
        return Ok((word, Vec::new(alloc)));
    }
    match space.step(alloc, node)? {
        Step::Settled(key) => {
            let word = bound.raise(pass, key);
            Ok((word.max(key), Vec::new(alloc)))
        }
        Step::Split(nodes) => Ok((bound.read(pass), nodes)),
    }
}

/// Ends a lease in a turn, or gives it back where there is no memory. Says whether it ended.
fn end_lease<S: Space, R: Wait>(
    rt: &R,
    shared: &Shared<'_, S>,
    pass: Pass<S>,
    lease: Lease<S::Work>,
    nodes: Vec<Node<S::Work>>,
    seen: u64,
) -> (bool, Pass<S>)
    requires own { IsOwn shared.now pass }
    requires named { IsPermutation pass.view.rest.leases (entry_of lease ∷ []) }
    requires fit { S.fits shared.now.problem lease.node }
    requires seen { seen ≤ pass.view.seen }
    requires fits { All (S.fits shared.now.problem) nodes.items }
    requires replaces { let p = shared.now.problem in Replaces (S.admits p) (S.lies_in p) lease.node.shape seen nodes.items }
    ensures own { IsOwn shared.now result.1 }
    ensures parts { result.1.view.rest.parts ≡ pass.view.rest.parts }
    ensures unnamed { result.1.view.rest.leases ≡ [] }
{
    let mut turn = shared.enter(rt, pass);
    match turn.finish(lease, nodes, seen) {
        Ok(()) => (true, turn.leave()),
        Err(unfinished) => {
            let Unfinished { lease, nodes: _ } = unfinished;
            turn.reopen(lease);
            (false, turn.leave())
        }
    }
}

/// Gives a lease back in a turn.
pub fn give_back<S: Space, R: Wait>(
    rt: &R,
    shared: &Shared<'_, S>,
    pass: Pass<S>,
    lease: Lease<S::Work>,
) -> Pass<S>
    requires own { IsOwn shared.now pass }
    requires named { IsPermutation pass.view.rest.leases (entry_of lease ∷ []) }
    requires fit { S.fits shared.now.problem lease.node }
    ensures own { IsOwn shared.now result }
    ensures parts { result.view.rest.parts ≡ pass.view.rest.parts }
    ensures unnamed { result.view.rest.leases ≡ [] }
{
    let mut turn = shared.enter(rt, pass);
    turn.reopen(lease);
    turn.leave()
}

/// Takes the step at a leased node, and ends the lease. Says whether it ended.
pub fn work_off<S: Space, R: Wait>(
    rt: &R,
    alloc: Global,
    space: &S,
    shared: &Shared<'_, S>,
    mut pass: Pass<S>,
    lease: Lease<S::Work>,
) -> (bool, Pass<S>)
    requires space { shared.now.problem ≡ S.problem space.now }
    requires own { IsOwn shared.now pass }
    requires named { IsPermutation pass.view.rest.leases (entry_of lease ∷ []) }
    requires fit { S.fits shared.now.problem lease.node }
    ensures own { IsOwn shared.now result.1 }
    ensures parts { result.1.view.rest.parts ≡ pass.view.rest.parts }
    ensures unnamed { result.1.view.rest.leases ≡ [] }
{
    match replace(alloc, space, shared, &mut pass, &lease.node) {
        Ok((seen, nodes)) => end_lease(rt, shared, pass, lease, nodes, seen),
        Err(OutOfMemory) => (false, give_back(rt, shared, pass, lease)),
    }
}

/// Works until nothing is left, or there is no memory.
pub fn work<S: Space, R: Wait>(
    rt: &R,
    alloc: Global,
    space: &S,
    shared: &Shared<'_, S>,
    pass: Pass<S>,
) -> Pass<S>
    requires space { shared.now.problem ≡ S.problem space.now }
    requires own { IsOwn shared.now pass }
    requires unnamed { pass.view.rest.leases ≡ [] }
    ensures own { IsOwn shared.now result }
    ensures parts { result.view.rest.parts ≡ pass.view.rest.parts }
    ensures unnamed { result.view.rest.leases ≡ [] }
{
    let mut mine = pass;
    for _ in rt.forever() {
        let (take, after) = take_lease(rt, shared, mine);
        let (more, after) = match take {
            Take::Done => (false, after),
            Take::Idle => (true, after),
            Take::Leased(lease) => work_off(rt, alloc, space, shared, after, lease),
        };
        mine = after;
        if !more {
            break;
        }
    }
    mine
}
