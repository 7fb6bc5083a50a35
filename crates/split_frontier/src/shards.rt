//! The split search: one bound word, and of each shard a turn word and a slot that has its frontier.
ghost use Rattle.std.specs.Prelude.{◌≡◌, ℕ, ◌+◌, ◌^◌, ◌<◌, ◌≤◌, [], true, length, map, All, IfOk, IfErr, vec_len};
ghost use Rattle.std.specs.List.Sorted.{IsPermutation};
ghost use Rattle.box_search.specs.Search.{CoverAll, IsSound, IsGreatestKey};
ghost use Rattle.frontier_turn.specs.Snapshots.{snapshot_of};
ghost use Rattle.split_frontier.specs.Callers.{IsOwn};
ghost use Rattle.split_frontier.specs.Closing.{at_most, ClosesAs};
ghost use Rattle.split_frontier.specs.Holding.{AreLeased};
ghost use Rattle.split_frontier.specs.Opening.{together, IsFresh, AreFresh};
ghost use Rattle.split_frontier.specs.Rule.{is_listed};
ghost use Rattle.split_frontier.specs.Views.{newcomer, standing, parting, meets, meets_often, takes_turn};

use crate::parked::{Naming, Parked};
use crate::pass::SplitPass;
use crate::turn::SplitTurn;
use crate::view::{Rest, View};
use atomic_table::{Refused, Table};
use bound_word::{BoundWord, Raise, Read};
use box_search::{Frontier, Node, Space};
use crossbeam_utils::sync::{EventCount, Key};
use frontier_turn::{BOUND, Closed, DividesPasses, Halve, Merge, SearchRule, TURNS, TakeTurn};
use layout_limits::{MAX_WORKERS, OutOfMemory};
use std::alloc::Global;
use std::hint::spin_loop;
use std::marker::{Model, PhantomData};
use std::snapshot::Snapshot;
use std::sync::Wait;

/// A search that many callers share: a bound word, and shards, each with a frontier that one caller has at a time.
#[derive(Drop)]
pub struct Shards<'s, S: Space> {
    table: Table<Option<Parked<S::Work>>, View, S, SearchRule<Rest>, Global>,
    space: PhantomData<&'s S>,
    /// Of each shard, that its turn was given back.
    given: Vec<EventCount>,
}

impl<'s, S: Space> Model for Shards<'s, S> {
    ghost use Rattle.std.specs.Prelude.{◌≡◌, vec_len};
    ghost use Rattle.split_frontier.specs.Callers.{ShardsHome, IsSplitTable};

    ghost Value = { ShardsHome };

    ghost view = { λ shards. record {
      table_id = shards.table.shared.table_id;
      shards = vec_len shards.given;
      problem = S.problem shards.table.shared.key;
    } };

    ghost invariant = { λ shards. IsSplitTable shards.table.shared.table_id (vec_len shards.given) };
}

/// Deals the nodes out into as many shares as there are shards, one after the other: each `stride`th shard is dealt to.
fn deal<W: Drop>(
    alloc: Global,
    nodes: Vec<Node<W>>,
    shards: usize,
    stride: usize,
) -> Result<Vec<Vec<Node<W>>>, OutOfMemory>
    requires some { 1 ≤ shards }
    ensures count { IfOk result (λ shares. vec_len shares ≡ shards) }
    ensures dealt { IfOk result (λ shares. IsPermutation nodes.items (together (map (λ share. share.items) shares.items))) }
{
    let mut shares = Vec::with_capacity(alloc, shards)?;
    for _ in 0..shards {
        shares.push(Vec::new(alloc))?;
    }
    let mut dealt_to = stride.wrapping_sub(1) % shards;
    for node in nodes {
        shares[dealt_to].push(node)?;
        dealt_to = dealt_to.wrapping_add(stride) % shards;
    }
    Ok(shares)
}

/// A slot with a frontier that has these nodes open.
fn slot<W: Drop>(alloc: Global, nodes: Vec<Node<W>>) -> Result<Option<Parked<W>>, OutOfMemory>
    ensures fresh { IfOk result (IsFresh nodes.items) }
{
    let mut frontier = Frontier::new(alloc, None)?;
    match frontier.add(nodes, 0) {
        Ok(()) => {}
        Err(_) => return Err(OutOfMemory),
    }
    let naming = Snapshot::of(&Naming::AsTaken);
    Ok(Some(Parked { frontier, naming }))
}

/// The slots of the shards, each with its share of the nodes.
fn slots<W: Drop>(
    alloc: Global,
    shares: Vec<Vec<Node<W>>>,
) -> Result<Vec<Option<Parked<W>>>, OutOfMemory>
    ensures count { IfOk result (λ made. vec_len made ≡ vec_len shares) }
    ensures fresh { IfOk result (λ made. AreFresh (map (λ share. share.items) shares.items) made.items) }
{
    let mut made = Vec::with_capacity(alloc, shares.len())?;
    for share in shares {
        made.push(slot(alloc, share)?)?;
    }
    Ok(made)
}

/// As many events as there are shards.
fn events(alloc: Global, shards: usize) -> Result<Vec<EventCount>, OutOfMemory>
    ensures count { IfOk result (λ made. vec_len made ≡ shards) }
{
    let mut made = Vec::with_capacity(alloc, shards)?;
    for _ in 0..shards {
        made.push(EventCount::new())?;
    }
    Ok(made)
}

/// How often a turn is asked for before its caller sleeps. A turn takes less than a microsecond, and to sleep and to be
/// woken takes many.
const TRIES: u32 = 64;

/// For how many looks of a processor a caller pauses between two tries.
const PAUSE: u32 = 8;

/// Announces a wait at each `TRIES`th try.
fn announce(given: &EventCount, tries: u32) -> Option<Key<'_>> {
    if tries % TRIES == 0 {
        Some(given.prepare_wait())
    } else {
        None
    }
}

/// Waits where that was announced, and else pauses.
fn wait_or_pause<R: Wait>(rt: &R, key: Option<Key<'_>>) {
    match key {
        Some(key) => key.wait(rt),
        None => {
            for _ in 0..PAUSE {
                spin_loop();
            }
        }
    }
}

impl<'s, S: Space> Shards<'s, S> {
    /// A search with 1 to `MAX_WORKERS` shards that begins at nodes in which every admitted key lies, as a root or what
    /// another search left open, and its first pass, which has all 2^64 parts. The nodes are dealt out to each `stride`th
    /// shard in turn. It takes all the memory of the table.
    pub fn start(
        alloc: Global,
        space: &'s S,
        nodes: Vec<Node<S::Work>>,
        shards: u32,
        stride: u32,
    ) -> Result<(Shards<'s, S>, SplitPass<S>), OutOfMemory>
        requires counts { (1 ≤ shards) × (shards ≤ MAX_WORKERS) }
        requires covering { let p = S.problem space.now in CoverAll (S.admits p) (S.lies_in p) (S.fits p) nodes.items }
        ensures problem { IfOk result (λ started. started.0.problem ≡ S.problem space.now) }
        ensures shards { IfOk result (λ started. started.0.shards ≡ shards) }
        ensures own { IfOk result (λ started. IsOwn started.0 started.1) }
        ensures newcomer { IfOk result (λ started. started.1.view ≡ newcomer (S.problem space.now)) }
    {
        let count = shards as usize;
        let words = vec![in alloc; 0; count + 1]?;
        let given = events(alloc, count)?;
        let shares = deal(alloc, nodes, count, stride as usize)?;
        let slots = slots(alloc, shares)?;
        let (table, seat) = match Table::new(alloc, words.as_slice(), slots, space) {
            Ok(made) => made,
            Err(Refused { slots: _ }) => return Err(OutOfMemory),
        };
        let shards = Shards {
            table,
            space: PhantomData,
            given,
        };
        Ok((shards, SplitPass { seat }))
    }

    /// Asks for the turn of a shard: one swap of its turn word and, where it wins, one exchange with its slot. `Err` comes
    /// only where that swap found the turn held, by another pass, and hands the pass back. It does not wait.
    pub fn try_enter<'a>(
        &'a self,
        pass: SplitPass<S>,
        shard: u32,
    ) -> Result<SplitTurn<'a, S>, SplitPass<S>>
        requires own { IsOwn self.now pass }
        requires there { shard < self.now.shards }
        ensures turn_table { IfOk result (λ turn. turn.table_id ≡ pass.table_id) }
        ensures turn_shard { IfOk result (λ turn. turn.shard ≡ shard) }
        ensures turn_view { IfOk result (λ turn. turn.view ≡ takes_turn pass.view shard (snapshot_of turn.frontier)) }
        ensures turn_leases { IfOk result (λ turn. turn.leases ≡ pass.view.rest.leases) }
        ensures turn_leased { IfOk result (λ turn. AreLeased shard turn.leases turn.frontier) }
        ensures pass_table { IfErr result (λ back. back.table_id ≡ pass.table_id) }
        ensures met { IfErr result (λ back. back.view ≡ meets shard pass.view) }
    {
        let SplitPass { mut seat } = pass;
        let place = shard as usize;
        let table = &self.table.shared;
        if table.swap::<TakeTurn<S>>(&mut seat, TURNS + place, 1) != 0 {
            return Err(SplitPass { seat });
        }
        let parked = table.exchange(&mut seat, place, None).unwrap();
        let Parked {
            frontier,
            naming: _,
        } = parked;
        Ok(SplitTurn {
            table,
            seat,
            shard,
            frontier,
            naming: Naming::AsTaken,
            given: &self.given[place],
        })
    }

    /// Tries until it has the turn of the shard. It pauses between tries, since a turn is mostly short, and after some of
    /// them sleeps until that turn is given back: before such a try it has announced that it will wait, so that no turn is
    /// missed. It may wait; what it promises holds if it returns.
    pub fn enter<'a, R: Wait>(&'a self, rt: &R, pass: SplitPass<S>, shard: u32) -> SplitTurn<'a, S>
        requires own { IsOwn self.now pass }
        requires there { shard < self.now.shards }
        ensures table { result.table_id ≡ pass.table_id }
        ensures shard { result.shard ≡ shard }
        ensures view { (times : ℕ)
            × (result.view ≡ takes_turn (meets_often times shard pass.view) shard (snapshot_of result.frontier)) }
        ensures leases { result.leases ≡ pass.view.rest.leases }
        ensures leased { AreLeased shard result.leases result.frontier }
    {
        let given = &self.given[shard as usize];
        let mut waiting = pass;
        let mut tries = 0u32;
        for _ in rt.forever() {
            tries = tries.wrapping_add(1);
            let key = announce(given, tries);
            match self.try_enter(waiting, shard) {
                Ok(turn) => return turn,
                Err(back) => waiting = back,
            }
            wait_or_pause(rt, key);
        }
        unreachable!()
    }

    /// Ends the search. The pass has all parts, so it is the last one. It answers the word, and how many nodes are open
    /// and leased in the frontiers of all shards, as they are at that moment, at which the rule of the search holds. A
    /// sum above the greatest u64 is given as this number. Where nothing is open and nothing is leased, the word is the
    /// greatest admitted key, or 0 exactly where no key is admitted.
    pub fn close(self, pass: SplitPass<S>) -> Closed
        requires own { IsOwn self pass }
        requires all { pass.view.rest.parts ≡ 2 ^ 64 }
        ensures sound { IsSound (S.admits pass.view.rest.problem) result.word }
        ensures rising { pass.view.seen ≤ result.word }
        ensures moment { let p = pass.view.rest.problem in
            ClosesAs p (S.admits p) (S.lies_in p) (S.fits p) pass.view self.entry.shards result }
        ensures leased { result.leased ≡ at_most (length pass.view.rest.leases) }
        ensures empties { ((shard : ℕ) → shard < self.entry.shards → is_listed pass.view.rest.empties shard ≡ true)
            → (result.waiting ≡ 0) × (result.leased ≡ 0) }
        ensures greatest { result.waiting ≡ 0 → result.leased ≡ 0 → IsGreatestKey (S.admits pass.view.rest.problem) result.word }
    {
        let Shards {
            table,
            space: _,
            given,
        } = self;
        drop(given);
        let SplitPass { seat } = pass;
        let mut closed = table.close_with(seat);
        let word = closed.word(BOUND);
        let mut waiting: u64 = 0;
        let mut leased: u64 = 0;
        for shard in 0..closed.slot_count() {
            let Parked {
                frontier,
                naming: _,
            } = closed.take(shard).unwrap();
            waiting = waiting.saturating_add(frontier.waiting());
            leased = leased.saturating_add(frontier.out());
        }
        closed.free();
        Closed {
            word,
            waiting,
            leased,
        }
    }
}

impl<'s, S: Space> BoundWord for Shards<'s, S> {
    type Pass = SplitPass<S>;

    type Rest = Rest;

    ghost admits = { λ shards. S.admits shards.problem };

    ghost is_own = { IsOwn };

    ghost seen = { λ pass. pass.view.seen };

    ghost asked = { λ pass. pass.view.asked };

    ghost last = { λ pass. pass.view.last };

    ghost rest = { λ pass. pass.view.rest };

    fn raise(&self, pass: &mut SplitPass<S>, key: u64) -> u64 {
        let table = &self.table.shared;
        table.fetch_max::<Raise<S>>(&mut pass.seat, BOUND, key)
    }

    fn read(&self, pass: &mut SplitPass<S>) -> u64 {
        let table = &self.table.shared;
        table.load::<Read<S>>(&mut pass.seat, BOUND)
    }
}

/// Neither a split nor a join leaves a pass with empties.
impl<'s, S: Space> DividesPasses for Shards<'s, S> {
    ghost table_of = { λ pass. pass.table_id };

    ghost view_of = { λ pass. pass.view };

    ghost standing = { standing };

    ghost parting = { parting };

    fn split(&self, pass: &mut SplitPass<S>) -> SplitPass<S> {
        let seat = self.table.shared.split_seat::<Halve>(&mut pass.seat);
        SplitPass { seat }
    }

    fn join(&self, pass: &mut SplitPass<S>, other: SplitPass<S>) {
        let SplitPass { seat } = other;
        self.table.shared.join_seat::<Merge>(&mut pass.seat, seat);
    }
}
