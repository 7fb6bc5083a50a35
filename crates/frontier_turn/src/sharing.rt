//! How the passes of a search share a table. A search of one frontier and one of many differ in what their views and slots
//! are, in their rules and in how a turn is taken and given back; all else of their tables stands here, once.
ghost use Rattle.std.specs.Prelude.{ℕ};
ghost use Rattle.atomic_table.specs.Table.{State, Me, Step};
ghost use Rattle.bound_word.specs.declared.view.View.{View};
ghost use Rattle.frontier_turn.specs.Sharing.{Parting};

use atomic_table::{Join, Play, Split, TableRule};
use bound_word::View;
use std::marker::PhantomData;

/// The word that is the bound.
pub const BOUND: usize = 0;

/// The first word that says whether a turn is held.
pub const TURNS: usize = 1;

/// The rest of a view, which says how two passes come of one, and one of two.
pub trait Parted {
    // how views are cut in two and made one
    ghost parting: { Parting Self };
}

/// The rest of a view, in a search of a space `S` whose table has slots of the type `T`.
pub trait Shares<S, T> {
    // the rule of the table, which holds between any two steps
    ghost rule: { S → State T (View Self) → Type 0 };

    // the view of the first pass
    ghost first: { S → View Self };

    // what a pass is told that asks for a turn
    ghost takes: { Step T → Me T (View Self) → ℕ → Me T (View Self) → Type 0 };

    // what a pass is told that gives a turn back
    ghost gives: { Step T → Me T (View Self) → ℕ → Me T (View Self) → Type 0 };
}

/// The part of a table that its passes share.
pub type Steps<S, T, R> = atomic_table::Shared<T, View<R>, S, SearchRule<R>>;

/// The rule of a search.
pub struct SearchRule<R> {
    rest: PhantomData<R>,
}

impl<S, T, R: Shares<S, T>> TableRule<T, View<R>, S> for SearchRule<R> {
    ghost holds = { R.rule };

    ghost first = { R.first };
}

/// A turn is asked for.
pub struct TakeTurn<S> {
    space: PhantomData<S>,
}

impl<S, T, R: Shares<S, T>> Play<T, View<R>> for TakeTurn<S> {
    ghost then = { R.takes };
}

/// A turn is given back.
pub struct GiveTurn<S> {
    space: PhantomData<S>,
}

impl<S, T, R: Shares<S, T>> Play<T, View<R>> for GiveTurn<S> {
    ghost then = { R.gives };
}

/// A pass is cut in two.
pub struct Halve;

impl<R: Parted> Split<View<R>> for Halve {
    ghost left = { λ view. R.parting.left view };

    ghost right = { λ view. R.parting.right view };
}

/// Two passes become one.
pub struct Merge;

impl<R: Parted> Join<View<R>> for Merge {
    ghost both = { λ view other. R.parting.both view other };

    ghost spent = { R.parting.spent };
}
