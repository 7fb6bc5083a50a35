//! The gutters that one line crosses, found once and asked for every box.
ghost use Rattle.std.specs.Prelude.{◌≡◌, ℕ, ◌<◌, ◌≤◌, [], ◌∷◌, ◌++◌, length, take, nat_le};
ghost use Rattle.std.specs.List.{count_by};
ghost use Rattle.line_quality.specs.Crossings.{crossed_middles};

use crate::limits::MAX_GUTTERS;
use crate::point::{crosses, middle};
use layout_geom::Rect;
use std::marker::Model;

/// The middle columns of gutters.
#[derive(Drop)]
pub(crate) struct Middles {
    columns: [u16; MAX_GUTTERS],
    count: usize,
}

impl Model for Middles {
    ghost use Rattle.std.specs.Prelude.{List, ℕ, ◌≤◌, take};
    ghost use Rattle.line_quality.specs.declared.limits.TheConstants.{MAX_GUTTERS};

    ghost Value = { List ℕ };

    ghost view = { λ middles. take middles.count middles.columns };

    ghost invariant = { λ middles. middles.count ≤ MAX_GUTTERS };
}

impl Middles {
    fn new() -> Middles
        ensures { result ≡ [] }
    {
        Middles {
            columns: [0; MAX_GUTTERS],
            count: 0,
        }
    }

    fn push(&mut self, middle: u16)
        requires { length self.old < MAX_GUTTERS }
        ensures { self.new ≡ self.old ++ middle ∷ [] }
    {
        self.columns[self.count] = middle;
        self.count += 1;
    }

    /// How many there are.
    pub(crate) fn len(&self) -> usize
        ensures value { result ≡ length self.now }
        ensures small { result ≤ MAX_GUTTERS }
    {
        self.count
    }

    /// How many of them are at the anchor or to its left.
    pub(crate) fn column(&self, anchor: u16) -> usize
        ensures value { result ≡ count_by (λ middle. nat_le middle anchor) self.now }
        ensures few { result ≤ length self.now }
        ensures small { result ≤ MAX_GUTTERS }
    {
        self.columns[..self.count]
            .iter()
            .filter(|middle| **middle <= anchor)
            .count()
    }
}

/// The middles of the gutters that a line crosses, in the order of the gutters.
pub(crate) fn crossed(slope: i8, offset: i16, gutters: &[Rect]) -> Middles
    requires { length gutters.now ≤ MAX_GUTTERS }
    ensures value { result ≡ crossed_middles slope offset gutters.now }
    ensures few { length result ≤ length gutters.now }
{
    let mut middles = Middles::new();
    for gutter in gutters {
        if crosses(slope, offset, gutter) {
            middles.push(middle(gutter));
        }
    }
    middles
}
