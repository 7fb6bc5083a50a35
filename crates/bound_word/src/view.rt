//! What a caller of a bound word knows. No value of these types is made: they exist in proofs alone.
ghost use Rattle.std.specs.Prelude.{List, ℤ};
ghost use Rattle.bound_word.specs.Asking.{Reads, Raises};

use atomic_table::Play;
use box_search::Space;
use std::collections::LinkedList;
use std::marker::PhantomData;

/// The view of a pass.
pub struct View<R> {
    /// The greatest word that the pass has read or raised.
    pub seen: u64,
    /// How many loads and raises it made.
    pub asked: u64,
    /// The word that the latest of them found.
    pub last: u64,
    /// All else, which reading and raising leave alone.
    pub rest: R,
}

/// The rest of a view, which names the problem whose keys may be raised.
pub trait NamesProblem {
    // the problem
    ghost problem: { Self → List ℤ };
}

impl NamesProblem for LinkedList<i64> {
    ghost problem = { λ problem. problem };
}

/// What a load of the bound word tells.
pub struct Read<S> {
    space: PhantomData<S>,
}

impl<S: Space, T, R: NamesProblem> Play<T, View<R>> for Read<S> {
    ghost then = { Reads S.admits R.problem };
}

/// What a raise of the bound word tells.
pub struct Raise<S> {
    space: PhantomData<S>,
}

impl<S: Space, T, R: NamesProblem> Play<T, View<R>> for Raise<S> {
    ghost then = { Raises S.admits R.problem };
}
