//! The search by several workers.
ghost use Rattle.std.specs.Prelude.{◌≡◌, ◌+◌, ◌≤◌, [], IfOk};
ghost use Rattle.std.specs.Thread.{IsSync};
ghost use Rattle.layout_limits.specs.declared.TheConstants.{MAX_WORKERS};
ghost use Rattle.box_search.specs.Search.{CoverAll, IsSound, IsGreatestKey};
ghost use Rattle.split_frontier.specs.Callers.{IsOwn};

use crate::crew::Crew;
use crate::gate::Gate;
use crate::working::Ended;
use box_search::{Node, Space, beginning};
use crossbeam_utils::sync::EventCount;
use frontier_turn::{Closed, DividesPasses};
use layout_limits::{MAX_WORKERS, OutOfMemory};
use split_frontier::{Shards, SplitPass, each_step_keeps_the_rule};
use std::alloc::Global;
use std::marker::{Model, PhantomData};
use std::sync::Wait;
use std::thread::{Threads, join};

/// A search by several workers, each with a frontier of its own and in a thread of its own, or one after the other where
/// no thread can be made. Each worker passes a gate before each of its turns.
///
/// Contracts see how many workers there are.
#[derive(Drop)]
pub struct Workers<'g, R, G> {
    count: u32,
    gate: &'g G,
    run: PhantomData<R>,
}

impl<'g, R, G> Model for Workers<'g, R, G> {
    ghost use Rattle.std.specs.Prelude.{ℕ, ◌≤◌};
    ghost use Rattle.layout_limits.specs.declared.TheConstants.{MAX_WORKERS};

    ghost Value = { ℕ };

    ghost view = { λ workers. workers.count };

    ghost invariant = { λ workers. (1 ≤ workers.count) × (workers.count ≤ MAX_WORKERS) };
}

impl<'g, R: Threads + Wait + Sync, G: Gate> Workers<'g, R, G> {
    /// A search by 1 to `MAX_WORKERS` workers.
    pub fn new(count: u32, gate: &'g G) -> Workers<'g, R, G>
        requires counts { (1 ≤ count) × (count ≤ MAX_WORKERS) }
        ensures count { result ≡ count }
    {
        Workers {
            count,
            gate,
            run: PhantomData,
        }
    }

    /// Searches a space with a frontier for each worker, and answers how the search stood as it was closed: the word, which
    /// is 0 or an admitted key, how many nodes were still open, and that none was leased. Where none was open the word is
    /// the greatest admitted key, or 0 exactly where no key is admitted. Nodes are still open only where a worker was
    /// refused memory, whose lease went back; after that the search may be asked for again.
    ///
    /// It may wait; what it promises holds if it returns, for every schedule. What the workers share meets the rule of
    /// the split search between any two of their steps: `split_frontier::each_step_keeps_the_rule` states it.
    ///
    /// # Errors
    ///
    /// Want of memory, where the search could not begin.
    pub fn run<S: Space>(
        &mut self,
        alloc: Global,
        run: &R,
        space: &S,
    ) -> Result<Closed, OutOfMemory>
        ensures count { self.new ≡ self.old }
        ensures leased { IfOk result (λ closed. closed.leased ≡ 0) }
        ensures sound { IfOk result (λ closed. IsSound (S.admits (S.problem space.now)) closed.word) }
        ensures greatest { IfOk result (λ closed. closed.waiting ≡ 0 → IsGreatestKey (S.admits (S.problem space.now)) closed.word) }
    {
        let nodes = beginning(alloc, space)?;
        self.run_from(alloc, run, space, nodes)
    }

    /// Searches as `run` does, from nodes in which every admitted key lies.
    fn run_from<S: Space>(
        &mut self,
        alloc: Global,
        run: &R,
        space: &S,
        nodes: Vec<Node<S::Work>>,
    ) -> Result<Closed, OutOfMemory>
        requires covering { let p = S.problem space.now in CoverAll (S.admits p) (S.lies_in p) (S.fits p) nodes.items }
        ensures count { self.new ≡ self.old }
        ensures leased { IfOk result (λ closed. closed.leased ≡ 0) }
        ensures sound { IfOk result (λ closed. IsSound (S.admits (S.problem space.now)) closed.word) }
        ensures greatest { IfOk result (λ closed. closed.waiting ≡ 0 → IsGreatestKey (S.admits (S.problem space.now)) closed.word) }
    {
        each_step_keeps_the_rule::<S>();
        let used = shards_of(self.count);
        let (shards, pass) = Shards::start(alloc, space, nodes, used.shards, used.stride)?;
        let news = EventCount::new();
        let crew = Crew {
            rt: run,
            space,
            shards: &shards,
            workers: self.count,
            count: used.shards,
            stride: used.stride,
            gate: self.gate,
            news: &news,
        };
        let Ended { pass, refused } = work_together(&crew, alloc, pass, 0, self.count);
        let pass = if refused {
            pass
        } else {
            // It has all parts now, so what it finds empty is empty: nobody else can open a node.
            crew.work(alloc, 0, pass).pass
        };
        Ok(shards.close(pass))
    }

    /// The greatest admitted key, or 0 exactly where no key is admitted, for every schedule: the word of `run`.
    ///
    /// # Errors
    ///
    /// Want of memory, where the search could not begin, or where nodes were still open as it was closed.
    pub fn best<S: Space>(&mut self, alloc: Global, run: &R, space: &S) -> Result<u64, OutOfMemory>
        ensures count { self.new ≡ self.old }
        ensures greatest { IfOk result (IsGreatestKey (S.admits (S.problem space.now))) }
    {
        let nodes = beginning(alloc, space)?;
        self.best_from(alloc, run, space, nodes)
    }

    /// The greatest admitted key, or 0 exactly where no key is admitted, of a search that goes on from nodes in which every
    /// admitted key lies, as those that another search left open. The nodes are dealt out to the workers.
    ///
    /// # Errors
    ///
    /// Those of `best`.
    pub fn best_from<S: Space>(
        &mut self,
        alloc: Global,
        run: &R,
        space: &S,
        nodes: Vec<Node<S::Work>>,
    ) -> Result<u64, OutOfMemory>
        requires covering { let p = S.problem space.now in CoverAll (S.admits p) (S.lies_in p) (S.fits p) nodes.items }
        ensures count { self.new ≡ self.old }
        ensures greatest { IfOk result (IsGreatestKey (S.admits (S.problem space.now))) }
    {
        let closed = self.run_from(alloc, run, space, nodes)?;
        if closed.waiting == 0 {
            Ok(closed.word)
        } else {
            Err(OutOfMemory)
        }
    }
}

/// How many shards some workers have, and how far those of two workers that follow one another are apart.
#[derive(Clone, Copy, Debug)]
struct Spread {
    shards: u32,
    stride: u32,
}

/// The shards of so many workers. Only each `stride`th of them is used, so that what two workers write in their turns
/// lies, for up to eight of them, in two lines of the cache.
fn shards_of(workers: u32) -> Spread
    requires counts { (1 ≤ workers) × (workers ≤ MAX_WORKERS) }
    ensures shards { (workers ≤ result.shards) × (result.shards ≤ MAX_WORKERS) }
{
    let (shards, stride) = match workers {
        0..=8 => (workers * 8, 8),
        9..=16 => (workers * 4, 4),
        17..=32 => (workers * 2, 2),
        _ => (workers, 1),
    };
    Spread { shards, stride }
}

/// Works with `count` workers from the number `first` on, each with a share of the pass, and joins their passes.
fn work_together<S: Space, R: Threads + Wait + Sync, G: Gate>(
    crew: &Crew<'_, '_, S, R, G>,
    alloc: Global,
    pass: SplitPass<S>,
    first: u32,
    count: u32,
) -> Ended<S>
    requires shards { crew.now.count ≡ crew.now.shards.now.shards }
    requires space { crew.now.shards.now.problem ≡ S.problem crew.now.space.now }
    requires own { IsOwn crew.now.shards.now pass }
    requires unnamed { pass.view.rest.leases ≡ [] }
    requires some { 1 ≤ count }
    requires numbers { first + count ≤ crew.now.count }
    requires few { crew.now.count ≤ MAX_WORKERS }
    requires parts { count ≤ pass.view.rest.parts }
    ensures own { IsOwn crew.now.shards.now result.pass }
    ensures parts { result.pass.view.rest.parts ≡ pass.view.rest.parts }
    ensures unnamed { result.pass.view.rest.leases ≡ [] }
{
    if count == 1 {
        return crew.work(alloc, first, pass);
    }
    let others = count / 2;
    let mine = count - others;
    let mut pass = pass;
    let other = crew.shards.split(&mut pass);
    let (ended, other) = join(
        crew.rt,
        || -> Ended<S>
            requires { IsSync R.row × (crew.now.count ≡ crew.now.shards.now.shards)
                × (crew.now.shards.now.problem ≡ S.problem crew.now.space.now)
                × IsOwn crew.now.shards.now pass × (pass.view.rest.leases ≡ [])
                × (1 ≤ mine) × (first + mine ≤ crew.now.count) × (crew.now.count ≤ MAX_WORKERS)
                × (mine ≤ pass.view.rest.parts) }
            ensures { IsOwn crew.entry.now.shards.now result.pass
                × (result.pass.view.rest.parts ≡ pass.view.rest.parts) × (result.pass.view.rest.leases ≡ []) }
        { work_together(crew, alloc, pass, first, mine) },
        || -> Ended<S>
            requires { IsSync R.row × (crew.now.count ≡ crew.now.shards.now.shards)
                × (crew.now.shards.now.problem ≡ S.problem crew.now.space.now)
                × IsOwn crew.now.shards.now other × (other.view.rest.leases ≡ [])
                × (1 ≤ others) × (first + mine + others ≤ crew.now.count) × (crew.now.count ≤ MAX_WORKERS)
                × (others ≤ other.view.rest.parts) }
            ensures { IsOwn crew.entry.now.shards.now result.pass
                × (result.pass.view.rest.parts ≡ other.view.rest.parts) × (result.pass.view.rest.leases ≡ []) }
        { work_together(crew, alloc, other, first + mine, others) },
    );
    let Ended { pass, refused } = ended;
    let mut pass = pass;
    crew.shards.join(&mut pass, other.pass);
    Ended {
        pass,
        refused: refused || other.refused,
    }
}
