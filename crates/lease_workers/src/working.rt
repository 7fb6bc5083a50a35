//! What one worker does: it looks for a lease, takes the step at its node, ends the lease, and looks again.
ghost use Rattle.std.specs.Prelude.{◌≡◌, ◌<◌, ◌≤◌, [], IfSome, IfNone};
ghost use Rattle.split_frontier.specs.Callers.{IsOwn};
ghost use Rattle.lease_workers.specs.Finding.{ComesBack, NamesLease, NamesFound};

use crate::crew::{Crew, Found, Manner};
use crate::gate::Gate;
use crate::worker::Worker;
use box_search::{Lease, Space, Take};
use layout_limits::OutOfMemory;
use split_frontier::SplitPass;
use std::alloc::Global;
use std::sync::Wait;

/// How a worker ended.
#[derive(Drop)]
pub(crate) struct Ended<S: Space> {
    pub(crate) pass: SplitPass<S>,
    /// Whether it was refused memory. If not, no shard had anything left as it went round for the last time.
    pub(crate) refused: bool,
}

impl<'a, 's, S: Space, R: Wait, G: Gate> Crew<'a, 's, S, R, G> {
    /// Takes the step at a leased node, ends the lease with what takes its place, and looks for the next. It answers
    /// nothing where memory was refused; then the lease went back.
    fn work_off(
        &self,
        alloc: Global,
        worker: &mut Worker,
        pass: SplitPass<S>,
        home: u32,
        lease: Lease<S::Work>,
    ) -> (Option<Found<S::Work>>, SplitPass<S>)
        requires shards { self.now.count ≡ self.now.shards.now.shards }
        requires space { self.now.shards.now.problem ≡ S.problem self.now.space.now }
        requires worker { worker.old.own < self.now.count }
        requires own { IsOwn self.now.shards.now pass }
        requires named { NamesLease (S.fits self.now.shards.now.problem) self.now.count home lease pass.view.rest.leases }
        ensures worker { worker.new.own ≡ worker.old.own }
        ensures back { ComesBack self.now.shards.now pass result.1 }
        ensures named { IfSome result.0 (λ found.
            NamesFound (S.fits self.now.shards.now.problem) self.now.count found result.1.view.rest.leases) }
        ensures unnamed { IfNone result.0 (result.1.view.rest.leases ≡ []) }
    {
        let mut pass = pass;
        let parts = match self.replace(alloc, &mut pass, &lease.node) {
            Ok(parts) => parts,
            Err(OutOfMemory) => {
                worker.pass_gate(self.gate);
                let back = self.shards.bring_home(self.rt, pass, home, lease, false);
                return (None, back);
            }
        };
        if home != worker.own {
            let (adopted, pass) = self.adopt(worker, pass, home, lease, parts);
            if !adopted {
                return (None, pass);
            }
            let (found, pass) = self.go_round(worker, pass, Manner::Trying);
            return (Some(found), pass);
        }
        let (take, pass) = self.finish(alloc, worker, pass, lease, parts);
        match take {
            None => (None, pass),
            Some(Take::Leased(lease)) => (Some(Found::Leased { home, lease }), pass),
            Some(_) => {
                let (found, pass) = self.go_round(worker, pass, Manner::Trying);
                (Some(found), pass)
            }
        }
    }

    /// Goes on from what was found: ends the lease, or looks again. It answers what it found then, and nothing where
    /// memory was refused.
    fn go_on(
        &self,
        alloc: Global,
        worker: &mut Worker,
        found: Found<S::Work>,
        pass: SplitPass<S>,
    ) -> (Option<Found<S::Work>>, SplitPass<S>)
        requires shards { self.now.count ≡ self.now.shards.now.shards }
        requires space { self.now.shards.now.problem ≡ S.problem self.now.space.now }
        requires worker { worker.old.own < self.now.count }
        requires own { IsOwn self.now.shards.now pass }
        requires named { NamesFound (S.fits self.now.shards.now.problem) self.now.count found pass.view.rest.leases }
        ensures worker { worker.new.own ≡ worker.old.own }
        ensures back { ComesBack self.now.shards.now pass result.1 }
        ensures named { IfSome result.0 (λ next.
            NamesFound (S.fits self.now.shards.now.problem) self.now.count next result.1.view.rest.leases) }
        ensures unnamed { IfNone result.0 (result.1.view.rest.leases ≡ []) }
    {
        match found {
            Found::Leased { home, lease } => self.work_off(alloc, worker, pass, home, lease),
            Found::Busy | Found::Done => {
                let (next, pass) = self.look_or_wait(worker, pass);
                (Some(next), pass)
            }
        }
    }

    /// Works until no shard has anything left, or until memory is refused. Then no lease is named, and it wakes all that
    /// wait: nothing is left, or a node is open again.
    pub(crate) fn work(&self, alloc: Global, number: u32, pass: SplitPass<S>) -> Ended<S>
        requires shards { self.now.count ≡ self.now.shards.now.shards }
        requires space { self.now.shards.now.problem ≡ S.problem self.now.space.now }
        requires some { 1 ≤ self.now.count }
        requires own { IsOwn self.now.shards.now pass }
        requires unnamed { pass.view.rest.leases ≡ [] }
        ensures own { IsOwn self.now.shards.now result.pass }
        ensures parts { result.pass.view.rest.parts ≡ pass.view.rest.parts }
        ensures unnamed { result.pass.view.rest.leases ≡ [] }
    {
        // The last shard of its stride: the turn word of shard 0 lies beside the bound word, which all read.
        let own = number
            .wrapping_add(1)
            .wrapping_mul(self.stride)
            .wrapping_sub(1)
            % self.count;
        let mut worker = Worker::new(number, own);
        let (mut found, mut mine) = self.go_round(&mut worker, pass, Manner::Trying);
        let mut refused = false;
        for _ in self.rt.forever() {
            if let Found::Done = found {
                break;
            }
            let (next, after) = self.go_on(alloc, &mut worker, found, mine);
            mine = after;
            match next {
                Some(next) => found = next,
                None => {
                    refused = true;
                    break;
                }
            }
        }
        self.news.notify_all();
        Ended {
            pass: mine,
            refused,
        }
    }
}
