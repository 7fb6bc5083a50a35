//! A shared frontier by two passes, step by step.
ghost use Rattle.std.specs.Prelude.{◌≡◌, ◌∷◌, [], IfErr, IfOk};
ghost use Rattle.std.specs.List.Sorted.{IsPermutation};
ghost use Rattle.box_search.specs.Leasing.{entry_of};
ghost use Rattle.frontier_turn.specs.Callers.{IsOwn};

use super::pages::{RIGHT, Sides, corner_block, shape_of};
use bound_word::BoundWord;
use box_search::{Lease, Space, Take};
use frontier_turn::{DividesPasses, Pass, Shared};
use search_trials::{give_back, take_lease, work_off};
use std::process::Abort;
use std::sync::Wait;
use std::test::Fail;

/// Asks for the turn once, and gives it back. Says whether it came.
fn try_turn<S: Space>(shared: &Shared<'_, S>, pass: Pass<S>) -> (bool, Pass<S>)
    requires own { IsOwn shared.now pass }
    requires unnamed { pass.view.rest.leases ≡ [] }
    ensures own { IsOwn shared.now result.1 }
    ensures parts { result.1.view.rest.parts ≡ pass.view.rest.parts }
    ensures unnamed { result.1.view.rest.leases ≡ [] }
{
    match shared.try_enter(pass) {
        Ok(turn) => (true, turn.leave()),
        Err(back) => (false, back),
    }
}

/// While one pass has the turn another is refused it, and gets it afterwards.
fn take_turns<S: Space, R: Abort>(
    rt: &R,
    shared: &Shared<'_, S>,
    first: Pass<S>,
    second: Pass<S>,
) -> (Pass<S>, Pass<S>)
    requires own { IsOwn shared.now first × IsOwn shared.now second }
    requires unnamed { (first.view.rest.leases ≡ []) × (second.view.rest.leases ≡ []) }
    ensures own { IsOwn shared.now result.0 × IsOwn shared.now result.1 }
    ensures parts { (result.0.view.rest.parts ≡ first.view.rest.parts) × (result.1.view.rest.parts ≡ second.view.rest.parts) }
    ensures unnamed { (result.0.view.rest.leases ≡ []) × (result.1.view.rest.leases ≡ []) }
{
    match shared.try_enter(first) {
        Ok(turn) => {
            let (came, second) = try_turn(shared, second);
            assert!(rt; !came);
            let first = turn.leave();
            let (came, second) = try_turn(shared, second);
            assert!(rt; came);
            (first, second)
        }
        Err(_) => panic!(rt; "nobody had the turn"),
    }
}

/// Leases the node of a rectangle.
fn lease_at<S: Space, R: Abort + Wait>(
    rt: &R,
    shared: &Shared<'_, S>,
    pass: Pass<S>,
    sides: Sides,
) -> (Lease<S::Work>, Pass<S>)
    requires own { IsOwn shared.now pass }
    requires unnamed { pass.view.rest.leases ≡ [] }
    ensures own { IsOwn shared.now result.1 }
    ensures parts { result.1.view.rest.parts ≡ pass.view.rest.parts }
    ensures named { IsPermutation result.1.view.rest.leases (entry_of result.0 ∷ []) }
    ensures fit { S.fits shared.now.problem result.0.node }
{
    let (take, pass) = take_lease(rt, shared, pass);
    match take {
        Take::Leased(lease) => {
            assert_eq!(rt; lease.number, 0);
            assert_eq!(rt; lease.node.shape, shape_of(sides));
            (lease, pass)
        }
        _ => panic!(rt; "nothing was leased"),
    }
}

/// Finds nothing to lease.
fn lease_nothing<S: Space, R: Abort + Wait>(
    rt: &R,
    shared: &Shared<'_, S>,
    pass: Pass<S>,
    is_done: bool,
) -> Pass<S>
    requires own { IsOwn shared.now pass }
    requires unnamed { pass.view.rest.leases ≡ [] }
    ensures own { IsOwn shared.now result }
    ensures parts { result.view.rest.parts ≡ pass.view.rest.parts }
    ensures unnamed { result.view.rest.leases ≡ [] }
{
    let (take, pass) = take_lease(rt, shared, pass);
    match take {
        Take::Leased(_) => panic!(rt; "a node was leased"),
        Take::Idle => assert!(rt; !is_done),
        Take::Done => assert!(rt; is_done),
    }
    pass
}

/// Reads any bound word.
fn read_word<W: BoundWord>(word: &W, pass: &mut W::Pass) -> u64
    requires own { W.is_own word.now pass.old }
    ensures own { W.is_own word.now pass.new }
    ensures rest { W.rest pass.new ≡ W.rest pass.old }
{
    word.read(pass)
}

#[test]
fn shared_frontier_by_two_passes(rt: HostRuntime) -> Result<(), Fail> {
    let alloc = rt.alloc();
    let white = corner_block(&rt, alloc)?;
    let root = white.root(alloc)?;
    let (shared, mut first) = Shared::start(alloc, &white, root)?;
    let second = shared.split(&mut first);
    let (first, second) = take_turns(&rt, &shared, first, second);
    let (page, first) = lease_at(&rt, &shared, first, (0, 0, 16, 16));
    let second = lease_nothing(&rt, &shared, second, false);
    let (_, first) = work_off(&rt, alloc, &white, &shared, first, page);
    let (right, second) = lease_at(&rt, &shared, second, (3, 0, 16, 16));
    let mut second = give_back(&rt, &shared, second, right);
    assert_eq!(rt; read_word(&shared, &mut second), 0);
    let (right, first) = lease_at(&rt, &shared, first, (3, 0, 16, 16));
    let (_, mut first) = work_off(&rt, alloc, &white, &shared, first, right);
    assert_eq!(rt; read_word(&shared, &mut first), RIGHT);
    let (below, second) = lease_at(&rt, &shared, second, (0, 3, 16, 16));
    let (_, second) = work_off(&rt, alloc, &white, &shared, second, below);
    let mut first = lease_nothing(&rt, &shared, first, true);
    shared.join(&mut first, second);
    let closed = shared.close(first);
    assert_eq!(rt; (closed.word, closed.waiting, closed.leased), (RIGHT, 0, 0));
    Ok(())
}
