//! A small space: the keys of a table, searched by cutting the range of its places into eight.
ghost use Rattle.std.specs.Prelude.{◌≡◌, ◌+◌, ◌^◌, ◌<◌, ◌≤◌, length, vec_len, slice_index, IfOk, OnOk, ℕ};
ghost use Rattle.box_search.specs.Search.{Splits};
ghost use Rattle.search_trials.specs.Table.{IsKey, LiesIn, FitsTable, PartsUpTo};

use box_search::{Node, Shape, Space, Step};
use layout_limits::OutOfMemory;
use std::alloc::Global;

/// A range of places: the first one, and the one past the last.
pub type Span = (usize, usize);

/// The keys are the table's entries, and 0 stands for no key.
#[derive(Clone, Copy)]
pub struct Table<'k> {
    /// The keys, by their places.
    pub keys: &'k [u64],
    ghost short: { length keys.now < 2 ^ 31 },
}

impl<'k> Table<'k> {
    /// The space of a table's keys.
    pub fn new(keys: &'k [u64]) -> Table<'k>
        requires short { length keys.now < 2 ^ 31 }
        ensures keys { result.keys.now ≡ keys.now }
    {
        Table { keys }
    }

    /// The greatest key of a range of places.
    fn greatest(&self, from: usize, to: usize) -> u64
        requires ordered { from ≤ to }
        requires within { to ≤ length self.now.keys.now }
        ensures over { (place : ℕ) → from ≤ place → place < to → slice_index self.now.keys.now place ≤ result }
        ensures one { to ≡ from + 1 → result ≡ slice_index self.now.keys.now from }
    {
        let mut greatest = 0;
        for place in from..to {
            greatest = self.keys[place].max(greatest);
        }
        greatest
    }

    /// The node of a range of places. Its bound is loose where there are several.
    fn node(&self, limit: u64, from: usize, to: usize) -> Node<Span>
        requires some { from < to }
        requires within { to ≤ length self.now.keys.now }
        requires over { (place : ℕ) → from ≤ place → place < to → slice_index self.now.keys.now place ≤ limit }
        ensures fits { FitsTable self.now.keys.now result }
        ensures span { (result.work.0 ≡ from) × (result.work.1 ≡ to) }
        ensures bound { result.bound ≤ limit }
    {
        let slack = (to - from - 1) as u64;
        Node {
            shape: Shape {
                a0: from as i32,
                a1: to as i32,
                b0: 0,
                b1: 1,
                c0: 0,
                c1: 1,
            },
            bound: self.greatest(from, to).saturating_add(slack).min(limit),
            work: (from, to),
        }
    }

    /// Adds the part of a node from `cut` up to `next`, if it isn't empty.
    fn add_part(
        &self,
        parts: &mut Vec<Node<Span>>,
        node: &Node<Span>,
        cut: usize,
        next: usize,
    ) -> Result<(), OutOfMemory>
        requires fits { FitsTable self.now.keys.now node.now }
        requires before { PartsUpTo self.now.keys.now node.now parts.old.items cut }
        requires ordered { cut ≤ next }
        requires within { next ≤ node.now.work.1 }
        requires smaller { next + node.now.work.0 < node.now.work.1 + cut }
        ensures after { OnOk result (PartsUpTo self.now.keys.now node.now parts.new.items next) }
        ensures few { OnOk result (vec_len parts.new ≤ vec_len parts.old + 1) }
    {
        if cut < next {
            parts.push(self.node(node.bound, cut, next))?;
        }
        Ok(())
    }

    /// The parts of a range of at least two places: seven of an eighth of it, and the rest.
    fn parts(&self, alloc: Global, node: &Node<Span>) -> Result<Vec<Node<Span>>, OutOfMemory>
        requires fits { FitsTable self.now.keys.now node.now }
        requires several { node.now.work.0 + 1 < node.now.work.1 }
        ensures parts { let keys = self.now.keys.now in
            IfOk result (λ parts. Splits (IsKey keys) (LiesIn keys) (FitsTable keys) node.now parts.items) }
    {
        let (from, to) = node.work;
        let width = ((to - from) / 8).max(1);
        let mut parts = Vec::new(alloc);
        let mut cut = from;
        for _piece in 0..7_usize {
            let next = (cut + width).min(to);
            self.add_part(&mut parts, node, cut, next)?;
            cut = next;
        }
        self.add_part(&mut parts, node, cut, to)?;
        Ok(parts)
    }
}

impl<'k> Space for Table<'k> {
    ghost use Rattle.search_trials.specs.Table.{table_problem, keys_of, IsKey, LiesIn, FitsTable};
    ghost use Rattle.search_trials.specs.TableLaws.{table_positive, table_bounded};

    type Work = Span;

    ghost problem = { λ table. table_problem table.keys.now };

    ghost admits = { λ problem. IsKey (keys_of problem) };

    ghost lies_in = { λ problem. LiesIn (keys_of problem) };

    ghost fits = { λ problem. FitsTable (keys_of problem) };

    ghost positive = { table_positive };

    ghost bounded = { table_bounded };

    fn root(&self, _alloc: Global) -> Result<Option<Node<Span>>, OutOfMemory> {
        let places = self.keys.len();
        if places == 0 {
            return Ok(None);
        }
        let limit = self.greatest(0, places).saturating_add(places as u64);
        Ok(Some(self.node(limit, 0, places)))
    }

    fn step(&self, alloc: Global, node: &Node<Span>) -> Result<Step<Span>, OutOfMemory> {
        let (from, to) = node.work;
        if to - from > 1 {
            return Ok(Step::Split(self.parts(alloc, node)?));
        }
        if node.bound > 0 {
            Ok(Step::Settled(node.bound))
        } else {
            Ok(Step::Split(Vec::new(alloc)))
        }
    }
}
