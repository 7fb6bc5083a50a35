//! A worker by hand over a split search: it leases nodes of any shard, and opens what takes their place in its own.
ghost use Rattle.std.specs.Prelude.{◌≡◌, ◌≢◌, ◌<◌, ◌∷◌, []};
ghost use Rattle.split_frontier.specs.Callers.{IsOwn};
ghost use Rattle.split_frontier.specs.Claims.{claim_of, unspent};
ghost use Rattle.split_frontier.specs.Holding.{NamesOnly};

use crate::by_hand::replace;
use box_search::{Lease, Space, Take};
use split_frontier::{Shards, SplitPass};
use std::alloc::Global;
use std::sync::Wait;

/// A worker of a split search, which has a shard of its own.
#[derive(Drop)]
pub struct ShardHand<'a, 's, S: Space, R> {
    /// By what it waits for turns.
    pub rt: &'a R,
    /// The space that is searched.
    pub space: &'a S,
    /// The search.
    pub shards: &'a Shards<'s, S>,
    /// The shard in which it opens nodes.
    pub own: u32,
}

/// What a look at a shard came to.
#[derive(Clone, Copy, Debug, PartialEq, Eq)]
pub enum Look {
    /// A lease has ended.
    Worked,
    /// A lease went back for want of memory.
    Refused,
    /// Nothing was open, and something was leased.
    Idle,
    /// Nothing was open, and nothing was leased.
    Done,
}

impl<'a, 's, S: Space, R: Wait> ShardHand<'a, 's, S, R> {
    /// Leases a node in a turn of a shard.
    pub fn lease_from(&self, pass: SplitPass<S>, shard: u32) -> (Take<S::Work>, SplitPass<S>)
        requires own { IsOwn self.now.shards.now pass }
        requires there { shard < self.now.shards.now.shards }
        requires unnamed { pass.view.rest.leases ≡ [] }
        ensures own { IsOwn self.now.shards.now result.1 }
        ensures parts { result.1.view.rest.parts ≡ pass.view.rest.parts }
        ensures named { NamesOnly shard (S.fits self.now.shards.now.problem) result.0 result.1.view.rest.leases }
    {
        let mut turn = self.shards.enter(self.rt, pass, shard);
        let take = turn.lease();
        (take, turn.leave())
    }

    /// Takes the step at a leased node of its own shard, and ends the lease, which goes back where there is no memory.
    /// Says whether it ended.
    pub fn settle(
        &self,
        alloc: Global,
        mut pass: SplitPass<S>,
        lease: Lease<S::Work>,
    ) -> (bool, SplitPass<S>)
        requires space { self.now.shards.now.problem ≡ S.problem self.now.space.now }
        requires own { IsOwn self.now.shards.now pass }
        requires there { self.now.own < self.now.shards.now.shards }
        requires named { pass.view.rest.leases ≡ unspent self.now.own lease ∷ [] }
        requires fit { S.fits self.now.shards.now.problem lease.node }
        ensures own { IsOwn self.now.shards.now result.1 }
        ensures parts { result.1.view.rest.parts ≡ pass.view.rest.parts }
        ensures unnamed { result.1.view.rest.leases ≡ [] }
    {
        let Ok((seen, nodes)) = replace(alloc, self.space, self.shards, &mut pass, &lease.node)
        else {
            let back = self
                .shards
                .bring_home(self.rt, pass, self.own, lease, false);
            return (false, back);
        };
        let mut turn = self.shards.enter(self.rt, pass, self.own);
        match turn.finish(lease, nodes, seen) {
            Ok(()) => (true, turn.leave()),
            Err(unfinished) => {
                let pass = turn.leave();
                let lease = unfinished.lease;
                let back = self
                    .shards
                    .bring_home(self.rt, pass, self.own, lease, false);
                (false, back)
            }
        }
    }

    /// Takes the step at a leased node of another shard, and opens its nodes in its own. Says whether there was memory:
    /// then the lease is spent, and else nothing has changed.
    pub fn hand_over(
        &self,
        alloc: Global,
        mut pass: SplitPass<S>,
        home: u32,
        lease: &Lease<S::Work>,
    ) -> (bool, SplitPass<S>)
        requires space { self.now.shards.now.problem ≡ S.problem self.now.space.now }
        requires own { IsOwn self.now.shards.now pass }
        requires there { self.now.own < self.now.shards.now.shards }
        requires foreign { home ≢ self.now.own }
        requires named { pass.view.rest.leases ≡ unspent home lease.now ∷ [] }
        requires fit { S.fits self.now.shards.now.problem lease.now.node }
        ensures own { IsOwn self.now.shards.now result.1 }
        ensures parts { result.1.view.rest.parts ≡ pass.view.rest.parts }
        ensures named { result.1.view.rest.leases ≡ claim_of home lease.now result.0 ∷ [] }
    {
        let Ok((seen, nodes)) = replace(alloc, self.space, self.shards, &mut pass, &lease.node)
        else {
            return (false, pass);
        };
        let mut turn = self.shards.enter(self.rt, pass, self.own);
        match turn.adopt(home, lease, nodes, seen) {
            Ok(()) => (true, turn.leave()),
            Err(_) => (false, turn.leave()),
        }
    }

    /// Takes the step at a leased node, and ends the lease, which goes back where there is no memory. Says whether it
    /// ended.
    pub fn work_off(
        &self,
        alloc: Global,
        pass: SplitPass<S>,
        home: u32,
        lease: Lease<S::Work>,
    ) -> (bool, SplitPass<S>)
        requires space { self.now.shards.now.problem ≡ S.problem self.now.space.now }
        requires own { IsOwn self.now.shards.now pass }
        requires there { (home < self.now.shards.now.shards) × (self.now.own < self.now.shards.now.shards) }
        requires named { pass.view.rest.leases ≡ unspent home lease ∷ [] }
        requires fit { S.fits self.now.shards.now.problem lease.node }
        ensures own { IsOwn self.now.shards.now result.1 }
        ensures parts { result.1.view.rest.parts ≡ pass.view.rest.parts }
        ensures unnamed { result.1.view.rest.leases ≡ [] }
    {
        if home == self.own {
            return self.settle(alloc, pass, lease);
        }
        let (adopted, pass) = self.hand_over(alloc, pass, home, &lease);
        let back = self.shards.bring_home(self.rt, pass, home, lease, adopted);
        (adopted, back)
    }

    /// Leases a node of a shard, and works it off.
    pub fn look(&self, alloc: Global, pass: SplitPass<S>, shard: u32) -> (Look, SplitPass<S>)
        requires space { self.now.shards.now.problem ≡ S.problem self.now.space.now }
        requires own { IsOwn self.now.shards.now pass }
        requires there { (shard < self.now.shards.now.shards) × (self.now.own < self.now.shards.now.shards) }
        requires unnamed { pass.view.rest.leases ≡ [] }
        ensures own { IsOwn self.now.shards.now result.1 }
        ensures parts { result.1.view.rest.parts ≡ pass.view.rest.parts }
        ensures unnamed { result.1.view.rest.leases ≡ [] }
    {
        let (take, pass) = self.lease_from(pass, shard);
        match take {
            Take::Done => (Look::Done, pass),
            Take::Idle => (Look::Idle, pass),
            Take::Leased(lease) => {
                let (ended, pass) = self.work_off(alloc, pass, shard, lease);
                (if ended { Look::Worked } else { Look::Refused }, pass)
            }
        }
    }

    /// Looks at its own shard, and where nothing is open there, at another. Says whether to go on: it ends where nothing is
    /// left in either, and where memory is refused.
    fn round(&self, alloc: Global, pass: SplitPass<S>, other: u32) -> (bool, SplitPass<S>)
        requires space { self.now.shards.now.problem ≡ S.problem self.now.space.now }
        requires own { IsOwn self.now.shards.now pass }
        requires there { (other < self.now.shards.now.shards) × (self.now.own < self.now.shards.now.shards) }
        requires unnamed { pass.view.rest.leases ≡ [] }
        ensures own { IsOwn self.now.shards.now result.1 }
        ensures parts { result.1.view.rest.parts ≡ pass.view.rest.parts }
        ensures unnamed { result.1.view.rest.leases ≡ [] }
    {
        let (mine, pass) = self.look(alloc, pass, self.own);
        if let Look::Worked | Look::Refused = mine {
            return (mine == Look::Worked, pass);
        }
        let (found, pass) = self.look(alloc, pass, other);
        let nothing_left = mine == Look::Done && found == Look::Done;
        (!nothing_left && found != Look::Refused, pass)
    }

    /// Works on its own shard and another until nothing is left in either, or there is no memory.
    pub fn work(&self, alloc: Global, pass: SplitPass<S>, other: u32) -> SplitPass<S>
        requires space { self.now.shards.now.problem ≡ S.problem self.now.space.now }
        requires own { IsOwn self.now.shards.now pass }
        requires there { (other < self.now.shards.now.shards) × (self.now.own < self.now.shards.now.shards) }
        requires unnamed { pass.view.rest.leases ≡ [] }
        ensures own { IsOwn self.now.shards.now result }
        ensures parts { result.view.rest.parts ≡ pass.view.rest.parts }
        ensures unnamed { result.view.rest.leases ≡ [] }
    {
        let mut mine = pass;
        for _ in self.rt.forever() {
            let (more, after) = self.round(alloc, mine, other);
            mine = after;
            if !more {
                break;
            }
        }
        mine
    }
}
