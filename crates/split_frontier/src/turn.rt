//! The turn of a shard: its frontier is with one pass.
ghost use Rattle.std.specs.Prelude.{◌≡◌, ◌≢◌, ◌<◌, ◌≤◌, ◌∷◌, [], length, All, Contains, OnOk, OnErr, IfOk, IfErr, IsTrue, IsFalse};
ghost use Rattle.box_search.specs.Leasing.{Takes, Finishes, Reopens, Adds, Ends};
ghost use Rattle.frontier_turn.specs.Holding.{TakesFitting, Replaces};
ghost use Rattle.frontier_turn.specs.Snapshots.{snapshot_of};
ghost use Rattle.split_frontier.specs.Claims.{claim_of, unspent, spent};
ghost use Rattle.split_frontier.specs.Holding.{Names, Unnames, Spends};
ghost use Rattle.split_frontier.specs.Views.{leaves_turn};

use crate::parked::{Naming, Parked};
use crate::pass::SplitPass;
use crate::view::{Claim, Rest, View};
use atomic_table::Seat;
use box_search::{Entry, Frontier, Lease, Node, Space, Take, Unfinished};
use crossbeam_utils::sync::EventCount;
use frontier_turn::{GiveTurn, Steps, TURNS};
use layout_limits::OutOfMemory;
use std::alloc::Global;
use std::marker::Model;
use std::snapshot::Snapshot;

/// The turn of one shard: its frontier is with one pass, and no other pass reaches it.
///
/// It holds its pass, so the pass can do nothing else while the turn lives. It cannot be dropped: it ends by `leave`.
pub struct SplitTurn<'a, S: Space> {
    pub(crate) table: &'a Steps<S, Option<Parked<S::Work>>, Rest>,
    pub(crate) seat: Seat<Option<Parked<S::Work>>, View>,
    pub(crate) shard: u32,
    pub(crate) frontier: Frontier<S::Work>,
    /// What the turn has done to the leases of the pass.
    pub(crate) naming: Naming,
    /// Where those wait that want the turn.
    pub(crate) given: &'a EventCount,
}

impl<'a, S: Space> Model for SplitTurn<'a, S> {
    ghost use Rattle.split_frontier.specs.Claims.{claims_after};
    ghost use Rattle.split_frontier.specs.Holding.{ShardHold, IsTurn};

    ghost Value = { ShardHold S.Work };

    ghost view = { λ turn. record {
      table_id = turn.seat.table_id;
      shard = turn.shard;
      view = turn.seat.me.0;
      frontier = turn.frontier;
      leases = claims_after turn.seat.me.0.rest.leases turn.naming;
    } };

    ghost invariant = { λ turn. let p = S.problem turn.table.now.key in
        IsTurn p (S.admits p) (S.lies_in p) (S.fits p)
        turn.table.now.table_id turn.seat.table_id turn.seat.me turn.shard turn.frontier turn.naming };
}

/// A lease as a pass names it.
fn claim<W>(home: u32, lease: &Lease<W>, spent: bool) -> Claim
    ensures claim { result ≡ claim_of home lease.now spent }
{
    Claim {
        home,
        entry: Entry {
            number: lease.number,
            shape: lease.node.shape,
            bound: lease.node.bound,
        },
        spent,
    }
}

impl<'a, S: Space> SplitTurn<'a, S> {
    /// Moves out an open node of greatest bound, as `Frontier::lease` does. The node fits, and the pass names the
    /// lease with this shard as its home, unspent. It takes no memory.
    pub fn lease(&mut self) -> Take<S::Work>
        ensures table { self.new.table_id ≡ self.old.table_id }
        ensures shard { self.new.shard ≡ self.old.shard }
        ensures view { self.new.view ≡ self.old.view }
        ensures frontier { Takes self.old.frontier result self.new.frontier }
        ensures names { Names self.old.shard self.old.leases result self.new.leases }
        ensures fits { TakesFitting (S.fits self.old.view.rest.problem) result }
    {
        let take = self.frontier.lease();
        if let Take::Leased(lease) = &take {
            self.naming.name(claim(self.shard, lease, false));
        }
        take
    }

    /// Ends an unspent lease of this shard, opens the nodes whose bound is above `seen`, and drops the others, as
    /// `Frontier::finish` does. No key may be lost: each admitted key of the lease's shape is at most `seen`, which
    /// the pass has seen, or lies in a shape of the nodes. Its refusal is want of memory: the turn is as before, and
    /// the lease and the nodes come back.
    pub fn finish(
        &mut self,
        lease: Lease<S::Work>,
        nodes: Vec<Node<S::Work>>,
        seen: u64,
    ) -> Result<(), Unfinished<S::Work>>
        requires named { Contains self.old.leases (unspent self.old.shard lease) }
        requires seen { seen ≤ self.old.view.seen }
        requires fits { All (S.fits self.old.view.rest.problem) nodes.items }
        requires replaces { let p = self.old.view.rest.problem in Replaces (S.admits p) (S.lies_in p) lease.node.shape seen nodes.items }
        ensures table { self.new.table_id ≡ self.old.table_id }
        ensures shard { self.new.shard ≡ self.old.shard }
        ensures view { self.new.view ≡ self.old.view }
        ensures frontier { OnOk result (Finishes self.old.frontier lease nodes.items seen self.new.frontier) }
        ensures names { OnOk result (Unnames self.old.leases (unspent self.old.shard lease) self.new.leases) }
        ensures err { OnErr result (self.new.frontier ≡ self.old.frontier) }
        ensures err_names { OnErr result (self.new.leases ≡ self.old.leases) }
        ensures lease_returned { IfErr result (λ unfinished. unfinished.lease ≡ lease) }
        ensures nodes_returned { IfErr result (λ unfinished. unfinished.nodes ≡ nodes) }
    {
        let number = lease.number;
        self.frontier.finish(lease, nodes, seen)?;
        self.naming.unname(self.shard, number);
        Ok(())
    }

    /// Ends an unspent lease of this shard, and opens its node again. It can't fail, and takes no memory.
    pub fn reopen(&mut self, lease: Lease<S::Work>)
        requires named { Contains self.old.leases (unspent self.old.shard lease) }
        requires fits { S.fits self.old.view.rest.problem lease.node }
        ensures table { self.new.table_id ≡ self.old.table_id }
        ensures shard { self.new.shard ≡ self.old.shard }
        ensures view { self.new.view ≡ self.old.view }
        ensures frontier { Reopens self.old.frontier lease self.new.frontier }
        ensures names { Unnames self.old.leases (unspent self.old.shard lease) self.new.leases }
    {
        let number = lease.number;
        self.frontier.reopen(lease);
        self.naming.unname(self.shard, number);
    }

    /// Opens here what takes the place of an unspent lease of another shard, with the conditions of `finish`. The
    /// lease is spent then, and has still to be ended at its home. Its refusal is want of memory: the turn is as
    /// before, and the nodes come back.
    pub fn adopt(
        &mut self,
        home: u32,
        lease: &Lease<S::Work>,
        nodes: Vec<Node<S::Work>>,
        seen: u64,
    ) -> Result<(), Vec<Node<S::Work>>>
        requires foreign { home ≢ self.old.shard }
        requires named { Contains self.old.leases (unspent home lease.now) }
        requires seen { seen ≤ self.old.view.seen }
        requires fits { All (S.fits self.old.view.rest.problem) nodes.items }
        requires replaces { let p = self.old.view.rest.problem in
            Replaces (S.admits p) (S.lies_in p) lease.now.node.shape seen nodes.items }
        ensures table { self.new.table_id ≡ self.old.table_id }
        ensures shard { self.new.shard ≡ self.old.shard }
        ensures view { self.new.view ≡ self.old.view }
        ensures frontier { OnOk result (Adds self.old.frontier nodes.items seen self.new.frontier) }
        ensures spends { OnOk result (Spends self.old.leases home lease.now self.new.leases) }
        ensures err { OnErr result (self.new.frontier ≡ self.old.frontier) }
        ensures err_names { OnErr result (self.new.leases ≡ self.old.leases) }
        ensures nodes_returned { IfErr result (λ back. back ≡ nodes) }
    {
        self.frontier.add(nodes, seen)?;
        self.naming.unname(home, lease.number);
        self.naming.name(claim(home, lease, true));
        Ok(())
    }

    /// Ends a spent lease of this shard, and adds nothing. It can't fail, and takes no memory.
    pub fn end(&mut self, lease: Lease<S::Work>)
        requires named { Contains self.old.leases (spent self.old.shard lease) }
        ensures table { self.new.table_id ≡ self.old.table_id }
        ensures shard { self.new.shard ≡ self.old.shard }
        ensures view { self.new.view ≡ self.old.view }
        ensures frontier { Ends self.old.frontier lease self.new.frontier }
        ensures names { Unnames self.old.leases (spent self.old.shard lease) self.new.leases }
    {
        let number = lease.number;
        self.frontier.end(lease);
        self.naming.unname(self.shard, number);
    }

    /// Ends an unspent lease of this shard, and opens nothing, where its node is worth no step: each admitted key of its
    /// shape is at most `seen`, which the pass has seen, or lies in the shape of a node that is open here. It can't fail,
    /// and takes no memory.
    pub fn pass_over(&mut self, surplus: Lease<S::Work>, seen: u64)
        requires named { Contains self.old.leases (unspent self.old.shard surplus) }
        requires seen { seen ≤ self.old.view.seen }
        requires open { let p = self.old.view.rest.problem in
            Replaces (S.admits p) (S.lies_in p) surplus.node.shape seen self.old.frontier.open_nodes }
        ensures table { self.new.table_id ≡ self.old.table_id }
        ensures shard { self.new.shard ≡ self.old.shard }
        ensures view { self.new.view ≡ self.old.view }
        ensures frontier { Ends self.old.frontier surplus self.new.frontier }
        ensures names { Unnames self.old.leases (unspent self.old.shard surplus) self.new.leases }
    {
        let number = surplus.number;
        self.frontier.end(surplus);
        self.naming.unname(self.shard, number);
    }

    /// Drops all open nodes, none of which is above `seen`, where no node of this shard is leased, and says whether it
    /// did. It costs less than to take them out one by one. Its refusal is want of memory: the turn is as before.
    pub fn clear(&mut self, alloc: Global, seen: u64) -> Result<bool, OutOfMemory>
        requires seen { seen ≤ self.old.view.seen }
        requires low { All (λ node. node.bound ≤ seen) self.old.frontier.open_nodes }
        ensures table { self.new.table_id ≡ self.old.table_id }
        ensures shard { self.new.shard ≡ self.old.shard }
        ensures view { self.new.view ≡ self.old.view }
        ensures leases { self.new.leases ≡ self.old.leases }
        ensures cleared { IfOk result (λ done. IsTrue done → (self.old.frontier.leased ≡ [])
            × (self.new.frontier.open_nodes ≡ []) × (self.new.frontier.leased ≡ [])) }
        ensures held { IfOk result (λ done. IsFalse done → (0 < length self.old.frontier.leased)
            × (self.new.frontier ≡ self.old.frontier)) }
        ensures err { OnErr result (self.new.frontier ≡ self.old.frontier) }
    {
        if self.frontier.out() > 0 {
            return Ok(false);
        }
        self.frontier = Frontier::new(alloc, None)?;
        Ok(true)
    }

    /// Brings the frontier home, gives the turn back, wakes one caller that waits for it, and hands the pass back. The
    /// pass names the leases of the turn, and the shard is among its empties exactly where the frontier has nothing open
    /// and nothing leased. It takes no memory, and does not wait.
    pub fn leave(self) -> SplitPass<S>
        ensures table { result.table_id ≡ self.entry.table_id }
        ensures view { result.view ≡ leaves_turn self.entry.view self.entry.shard (snapshot_of self.entry.frontier) self.entry.leases }
    {
        let SplitTurn {
            table,
            mut seat,
            shard,
            frontier,
            naming,
            given,
        } = self;
        let naming = Snapshot::of(&naming);
        let parked = Parked { frontier, naming };
        drop(table.exchange(&mut seat, shard as usize, Some(parked)));
        table.swap::<GiveTurn<S>>(&mut seat, TURNS + shard as usize, 0);
        given.notify_one();
        SplitPass { seat }
    }
}
