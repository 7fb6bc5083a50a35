//! How a worker looks for work: it asks for the turn of its own shard first, and then for those of the others.
ghost use Rattle.std.specs.Prelude.{◌≡◌, ◌<◌, ◌≤◌, [], IfSome, IfNone};
ghost use Rattle.split_frontier.specs.Callers.{IsOwn};
ghost use Rattle.split_frontier.specs.Holding.{NamesOnly};
ghost use Rattle.lease_workers.specs.Finding.{MayLook, ComesBack, NamesFound};

use crate::gate::Gate;
use crate::worker::Worker;
use box_search::{Lease, Space, Take};
use crossbeam_utils::sync::EventCount;
use split_frontier::{Shards, SplitPass, SplitTurn};
use std::hint::spin_loop;
use std::sync::Wait;

/// What the workers of one search share.
#[derive(Drop)]
pub(crate) struct Crew<'a, 's, S: Space, R, G> {
    pub(crate) rt: &'a R,
    pub(crate) space: &'a S,
    pub(crate) shards: &'a Shards<'s, S>,
    /// How many workers there are.
    pub(crate) workers: u32,
    /// How many shards there are.
    pub(crate) count: u32,
    /// How far the shard of a worker is from that of the one before.
    pub(crate) stride: u32,
    pub(crate) gate: &'a G,
    /// That nodes were opened, or that a worker ended.
    pub(crate) news: &'a EventCount,
}

/// What a worker found that went round the shards.
#[derive(Drop)]
pub(crate) enum Found<W> {
    /// A lease, and the shard that it comes from.
    Leased { home: u32, lease: Lease<W> },
    /// No lease, and some shard has nodes leased to others, or its turn is held by another.
    Busy,
    /// No shard had anything left.
    Done,
}

/// How a worker asks for turns.
#[derive(Clone, Copy, Debug)]
pub(crate) enum Manner {
    /// It passes by a turn that another holds.
    Trying,
    /// It waits for each turn.
    Waiting,
}

/// Leases a node in a turn, and gives the turn back.
pub(crate) fn lease_and_leave<S: Space>(turn: SplitTurn<'_, S>) -> (Take<S::Work>, SplitPass<S>)
    requires unnamed { turn.leases ≡ [] }
    ensures table { result.1.table_id ≡ turn.entry.table_id }
    ensures problem { result.1.view.rest.problem ≡ turn.entry.view.rest.problem }
    ensures parts { result.1.view.rest.parts ≡ turn.entry.view.rest.parts }
    ensures named { NamesOnly turn.entry.shard (S.fits turn.entry.view.rest.problem) result.0 result.1.view.rest.leases }
{
    let mut turn = turn;
    let take = turn.lease();
    (take, turn.leave())
}

impl<'a, 's, S: Space, R: Wait, G: Gate> Crew<'a, 's, S, R, G> {
    /// Leases a node of a shard in a turn. `None` says that another holds that turn.
    fn look_at(
        &self,
        worker: &mut Worker,
        pass: SplitPass<S>,
        shard: u32,
        manner: Manner,
    ) -> (Option<Take<S::Work>>, SplitPass<S>)
        requires own { IsOwn self.now.shards.now pass }
        requires unnamed { pass.view.rest.leases ≡ [] }
        requires there { shard < self.now.shards.now.shards }
        ensures worker { worker.new.own ≡ worker.old.own }
        ensures back { ComesBack self.now.shards.now pass result.1 }
        ensures named { IfSome result.0 (λ take. NamesOnly shard (S.fits self.now.shards.now.problem) take result.1.view.rest.leases) }
        ensures unnamed { IfNone result.0 (result.1.view.rest.leases ≡ []) }
    {
        worker.pass_gate(self.gate);
        match manner {
            Manner::Waiting => {
                let turn = self.shards.enter(self.rt, pass, shard);
                let (take, after) = lease_and_leave(turn);
                (Some(take), after)
            }
            Manner::Trying => match self.shards.try_enter(pass, shard) {
                Err(back) => (None, back),
                Ok(turn) => {
                    let (take, after) = lease_and_leave(turn);
                    (Some(take), after)
                }
            },
        }
    }

    /// The shard of the worker that is so many behind the one with this shard, round the end.
    fn shard_behind(&self, own: u32, others: u32) -> u32
        requires own { own < self.now.count }
        ensures there { result < self.now.count }
    {
        own.wrapping_add(others.wrapping_mul(self.stride)) % self.count
    }

    /// Goes round the shards of the workers, its own first, until one has a node to lease.
    pub(crate) fn go_round(
        &self,
        worker: &mut Worker,
        pass: SplitPass<S>,
        manner: Manner,
    ) -> (Found<S::Work>, SplitPass<S>)
        requires ready { MayLook self.now.count worker.old.own self.now.shards.now pass }
        ensures worker { worker.new.own ≡ worker.old.own }
        ensures back { ComesBack self.now.shards.now pass result.1 }
        ensures named { NamesFound (S.fits self.now.shards.now.problem) self.now.count result.0 result.1.view.rest.leases }
    {
        let own = worker.own;
        let mut mine = pass;
        let mut busy = false;
        for others in 0..self.workers {
            let shard = self.shard_behind(own, others);
            let (take, after) = self.look_at(worker, mine, shard, manner);
            mine = after;
            match take {
                Some(Take::Leased(lease)) => return (Found::Leased { home: shard, lease }, mine),
                Some(Take::Done) => {}
                Some(Take::Idle) | None => busy = true,
            }
        }
        (if busy { Found::Busy } else { Found::Done }, mine)
    }

    /// Goes round the shards again, some times at once, and then so that it waits for each turn, and for news where it
    /// found no lease and others have some.
    ///
    /// Before it waits for news it looks once it has announced that it will wait, since whoever opens nodes, or ends,
    /// tells it afterwards: either this look sees what came of it, or the wait ends. It waits for each turn, since two that
    /// only tried could each find the other's turn held, and both sleep.
    pub(crate) fn look_or_wait(
        &self,
        worker: &mut Worker,
        pass: SplitPass<S>,
    ) -> (Found<S::Work>, SplitPass<S>)
        requires ready { MayLook self.now.count worker.old.own self.now.shards.now pass }
        ensures worker { worker.new.own ≡ worker.old.own }
        ensures back { ComesBack self.now.shards.now pass result.1 }
        ensures named { NamesFound (S.fits self.now.shards.now.problem) self.now.count result.0 result.1.view.rest.leases }
    {
        if worker.may_look() {
            spin_loop();
            return self.go_round(worker, pass, Manner::Trying);
        }
        let key = self.news.prepare_wait();
        let (found, pass) = self.go_round(worker, pass, Manner::Waiting);
        if let Found::Busy = found {
            key.wait(self.rt);
        }
        (found, pass)
    }

    /// Wakes as many of those that wait.
    pub(crate) fn wake(&self, count: usize) {
        for _ in 0..count {
            self.news.notify_one();
        }
    }
}
