//! What a grid keeps of its page.
//!
//! A table of keys bounds the lines of a shape without a look at the boxes, however many there are. It takes memory for each
//! segment between gutters, so a page with too many of them is kept as its lists alone, and a search looks at the boxes that
//! stand near a shape. Both have the same lines.
ghost use Rattle.std.specs.Prelude.{◌≡◌, ◌<◌, ◌≤◌, ◌++◌, ℕ, IfSome, length, All};
ghost use Rattle.std.specs.List.Sorted.{IsPermutation};
ghost use Rattle.line_counts.specs.Shapes.{IsInGrid, IsSingle};
ghost use Rattle.line_counts.specs.KeyTables.{IsShapeBound};
ghost use Rattle.line_search.specs.declared.grid.TheConstants.{LEAST_SCORE};
ghost use Rattle.line_search.specs.Lines.{deepest};
ghost use Rattle.line_search.specs.Pages.{page_of, HasKeysOf};
ghost use Rattle.line_search.specs.Parts.{IsLong};

use crate::parts::{Range, by_blocks, longest};
use box_search::Shape;
use layout_geom::{Numbers, Rects};
use layout_limits::MAX_SIDE;
use line_counts::Keys;
use line_quality::MAX_DEPTH;

/// The lists of a page.
#[derive(Drop)]
pub(crate) struct Lists {
    /// The height of the page in rows.
    pub(crate) height: u16,
    /// The boxes of the page.
    pub(crate) boxes: Rects,
    /// The positions of those that are alive.
    pub(crate) alive: Numbers,
    /// The gutters of the page.
    pub(crate) gutters: Rects,
    /// The farthest middle of a box from the left.
    pub(crate) widest: u16,
}

/// A page and its boxes that are alive.
#[derive(Drop)]
pub(crate) enum Living {
    /// As its lists alone.
    Plain(Lists),
    /// With a table of keys.
    Counted(Keys),
}

impl Living {
    /// The height of the page.
    pub(crate) fn height(&self) -> u16
        ensures { result ≡ (page_of self.now).height }
    {
        match self {
            Living::Plain(lists) => lists.height,
            Living::Counted(keys) => keys.counts().height(),
        }
    }

    /// The boxes of the page.
    pub(crate) fn boxes(&self) -> &Rects
        ensures { result.now ≡ (page_of self.now).boxes }
    {
        match self {
            Living::Plain(lists) => &lists.boxes,
            Living::Counted(keys) => keys.counts().boxes(),
        }
    }

    /// The positions of the boxes that are alive.
    pub(crate) fn alive(&self) -> &Numbers
        ensures { result.now ≡ (page_of self.now).alive }
    {
        match self {
            Living::Plain(lists) => &lists.alive,
            Living::Counted(keys) => keys.counts().alive(),
        }
    }

    /// The gutters of the page.
    pub(crate) fn gutters(&self) -> &Rects
        ensures { result.now ≡ (page_of self.now).gutters }
    {
        match self {
            Living::Plain(lists) => &lists.gutters,
            Living::Counted(keys) => keys.counts().gutters(),
        }
    }

    /// Has the others of the boxes alone alive from now on, and not the members of a line.
    pub(crate) fn take(&mut self, members: &[u32], others: Numbers)
        requires divided { IsPermutation (page_of self.old).alive (members.now ++ others) }
        ensures page { page_of self.new ≡ record (page_of self.old) { alive = others } }
        ensures keys { (median : ℕ) → HasKeysOf median self.old → HasKeysOf median self.new }
    {
        match self {
            Living::Plain(lists) => lists.alive = others,
            Living::Counted(keys) => keys.take(members, others),
        }
    }

    /// Makes the greatest of the keys exact, so that the next search opens few shapes.
    pub(crate) fn sharpen(&mut self)
        ensures { self.new ≡ self.old }
    {
        if let Living::Counted(keys) = self {
            keys.sharpen();
        }
    }

    /// What the table of keys says of the lines of a shape of the grid, where there is a table.
    pub(crate) fn bound(&self, shape: &Shape) -> Option<u64>
        requires { (median : ℕ) × HasKeysOf median self.now × IsInGrid (page_of self.now).height (deepest median) shape.now }
        ensures { IfSome result (IsShapeBound (page_of self.now) LEAST_SCORE shape.now) }
    {
        match self {
            Living::Plain(_) => None,
            Living::Counted(keys) => Some(keys.bound(shape)),
        }
    }

    /// The range of a shape at whose middle a search cuts it. Any with two numbers would do; this one keeps the search short.
    pub(crate) fn cut(&self, shape: &Shape) -> Range
        requires in_grid { IsInGrid MAX_SIDE MAX_DEPTH shape.now }
        requires wide { IsSingle shape.now → ⊥ }
        ensures { IsLong shape.now result }
    {
        match self {
            Living::Plain(lists) => longest(shape, lists.widest),
            Living::Counted(_) => by_blocks(shape),
        }
    }
}
