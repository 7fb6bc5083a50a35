//! How a worker ends a lease: the step at its node, which it takes outside of turns, and then one turn of the lease's home,
//! or one of its own shard, which adopts the nodes, and one of the home.
ghost use Rattle.std.specs.Prelude.{◌≡◌, ◌≢◌, ◌<◌, ◌≤◌, ◌∷◌, [], All, IfOk, IfSome, IfNone};
ghost use Rattle.box_search.specs.Leasing.{above};
ghost use Rattle.box_search.specs.Shapes.{size};
ghost use Rattle.frontier_turn.specs.Holding.{Replaces};
ghost use Rattle.split_frontier.specs.Callers.{IsOwn};
ghost use Rattle.split_frontier.specs.Claims.{unspent};
ghost use Rattle.split_frontier.specs.Holding.{NamesOnly};
ghost use Rattle.lease_workers.specs.Finding.{ComesBack};

use crate::crew::Crew;
use crate::gate::Gate;
use crate::onward::lease_worthy;
use crate::worker::Worker;
use bound_word::BoundWord;
use box_search::{Lease, Node, Space, Step, Take, Unfinished};
use layout_limits::OutOfMemory;
use split_frontier::SplitPass;
use std::alloc::Global;
use std::sync::Wait;

/// The nodes that take the place of a leased one, and the word by which nodes were pruned.
#[derive(Drop)]
pub(crate) struct Parts<W> {
    pub(crate) seen: u64,
    pub(crate) nodes: Vec<Node<W>>,
}

/// Drops the nodes whose bound is no greater than the word.
fn keep_above<W: Drop>(nodes: &mut Vec<Node<W>>, word: u64)
    ensures above { nodes.new.items ≡ above word nodes.old.items }
{
    nodes.retain(|node| node.bound > word);
}

impl<'a, 's, S: Space, R: Wait, G: Gate> Crew<'a, 's, S, R, G> {
    /// The word by which a node may be pruned, which the pass has read or raised, and the nodes above that word which
    /// take its place. No step is taken at a node whose bound is no greater than the word. It is done outside the turn.
    pub(crate) fn replace(
        &self,
        alloc: Global,
        pass: &mut SplitPass<S>,
        node: &Node<S::Work>,
    ) -> Result<Parts<S::Work>, OutOfMemory>
        requires space { self.now.shards.now.problem ≡ S.problem self.now.space.now }
        requires own { IsOwn self.now.shards.now pass.old }
        requires fits { S.fits self.now.shards.now.problem node.now }
        ensures own { IsOwn self.now.shards.now pass.new }
        ensures rest { pass.new.view.rest ≡ pass.old.view.rest }
        ensures seen { IfOk result (λ found. found.seen ≤ pass.new.view.seen) }
        ensures fits { IfOk result (λ found. All (S.fits self.now.shards.now.problem) found.nodes.items) }
        ensures smaller { IfOk result (λ found. All (λ part. size part.shape < size node.now.shape) found.nodes.items) }
        ensures replaces { let p = self.now.shards.now.problem in
            IfOk result (λ found. Replaces (S.admits p) (S.lies_in p) node.now.shape found.seen found.nodes.items) }
    {
        let seen = self.shards.read(pass);
        if node.bound <= seen {
            let nodes = Vec::new(alloc);
            return Ok(Parts { seen, nodes });
        }
        match self.space.step(alloc, node)? {
            Step::Settled(key) => {
                let word = self.shards.raise(pass, key);
                let nodes = Vec::new(alloc);
                Ok(Parts {
                    seen: word.max(key),
                    nodes,
                })
            }
            Step::Split(mut nodes) => {
                keep_above(&mut nodes, seen);
                Ok(Parts { seen, nodes })
            }
        }
    }

    /// Ends a lease of the worker's own shard in a turn, and leases the next node that is worth a step in the same turn.
    /// Where there is no memory the lease goes back, and nothing is leased. It wakes others for the nodes that it opened
    /// beyond its own.
    pub(crate) fn finish(
        &self,
        alloc: Global,
        worker: &mut Worker,
        pass: SplitPass<S>,
        lease: Lease<S::Work>,
        parts: Parts<S::Work>,
    ) -> (Option<Take<S::Work>>, SplitPass<S>)
        requires there { worker.old.own < self.now.shards.now.shards }
        requires own { IsOwn self.now.shards.now pass }
        requires named { pass.view.rest.leases ≡ unspent worker.old.own lease ∷ [] }
        requires fit { S.fits self.now.shards.now.problem lease.node }
        requires seen { parts.seen ≤ pass.view.seen }
        requires fits { All (S.fits self.now.shards.now.problem) parts.nodes.items }
        requires smaller { All (λ part. size part.shape < size lease.node.shape) parts.nodes.items }
        requires replaces { let p = self.now.shards.now.problem in
            Replaces (S.admits p) (S.lies_in p) lease.node.shape parts.seen parts.nodes.items }
        ensures worker { worker.new.own ≡ worker.old.own }
        ensures back { ComesBack self.now.shards.now pass result.1 }
        ensures named { IfSome result.0 (λ take.
            NamesOnly worker.old.own (S.fits self.now.shards.now.problem) take result.1.view.rest.leases) }
        ensures unnamed { IfNone result.0 (result.1.view.rest.leases ≡ []) }
    {
        worker.pass_gate(self.gate);
        let Parts { seen, nodes } = parts;
        let opened = nodes.len();
        let cut = lease.node.shape;
        let mut turn = self.shards.enter(self.rt, pass, worker.own);
        match turn.finish(lease, nodes, seen) {
            Ok(()) => {
                let (take, after) = lease_worthy(alloc, turn, cut, seen);
                self.wake(opened.saturating_sub(1));
                (Some(take), after)
            }
            Err(unfinished) => {
                let Unfinished { lease, nodes } = unfinished;
                turn.reopen(lease);
                let after = turn.leave();
                drop(nodes);
                (None, after)
            }
        }
    }

    /// Opens what takes the place of a lease of another shard in the worker's own one, and then ends the lease at its
    /// home. Where there is no memory the lease goes back, and it answers `false`. It wakes others for the nodes.
    pub(crate) fn adopt(
        &self,
        worker: &mut Worker,
        pass: SplitPass<S>,
        home: u32,
        lease: Lease<S::Work>,
        parts: Parts<S::Work>,
    ) -> (bool, SplitPass<S>)
        requires foreign { home ≢ worker.old.own }
        requires own_there { worker.old.own < self.now.shards.now.shards }
        requires there { home < self.now.shards.now.shards }
        requires own { IsOwn self.now.shards.now pass }
        requires named { pass.view.rest.leases ≡ unspent home lease ∷ [] }
        requires fit { S.fits self.now.shards.now.problem lease.node }
        requires seen { parts.seen ≤ pass.view.seen }
        requires fits { All (S.fits self.now.shards.now.problem) parts.nodes.items }
        requires replaces { let p = self.now.shards.now.problem in
            Replaces (S.admits p) (S.lies_in p) lease.node.shape parts.seen parts.nodes.items }
        ensures worker { worker.new.own ≡ worker.old.own }
        ensures back { ComesBack self.now.shards.now pass result.1 }
        ensures unnamed { result.1.view.rest.leases ≡ [] }
    {
        worker.pass_gate(self.gate);
        let Parts { seen, nodes } = parts;
        let opened = nodes.len();
        let mut turn = self.shards.enter(self.rt, pass, worker.own);
        match turn.adopt(home, &lease, nodes, seen) {
            Ok(()) => {
                let after = turn.leave();
                self.wake(opened);
                worker.pass_gate(self.gate);
                let back = self.shards.bring_home(self.rt, after, home, lease, true);
                (true, back)
            }
            Err(back) => {
                let after = turn.leave();
                drop(back);
                worker.pass_gate(self.gate);
                let back = self.shards.bring_home(self.rt, after, home, lease, false);
                (false, back)
            }
        }
    }
}
