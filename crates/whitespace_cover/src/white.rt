//! The white rectangles of a page, as a space to be searched.
use crate::cells::Cells;
use crate::pivot::pivot_of;
use crate::region::{Region, is_roomy, node_of, parts};
use box_search::{Node, Space, Step};
use layout_geom::{Rect, Rects};
use layout_limits::OutOfMemory;
use std::alloc::Global;
use std::marker::Model;

/// How many of the last obstacles are looked at before the index, as those that are pushed later are: large
/// ones leave little to search.
const LOOKED_AT_FIRST: usize = 32;

/// The rectangles of a page that overlap no obstacle and have at least a least size, to be searched
/// for the one of greatest key: Breuel's search for the greatest white rectangle (2002).
///
/// The shape of a node is a rectangle that is to be searched: its first range has the columns and its second the rows, in
/// pixels and half-open. Its third has the one number 0.
#[derive(Drop)]
pub struct White {
    page: Rect,
    obstacles: Rects,
    least: u16,
    /// An index of the first obstacles, if there is one.
    cells: Option<Cells>,
}

impl Model for White {
    ghost use Rattle.whitespace_cover.specs.Problem.{WhiteProblem};
    ghost use Rattle.whitespace_cover.specs.Index.{IsIndexed};

    ghost Value = { WhiteProblem };

    ghost view = { λ white. record { page = white.page; obstacles = white.obstacles; least = white.least } };

    ghost invariant = { λ white. IsIndexed white.page white.obstacles white.cells };
}

impl White {
    ghost use Rattle.std.specs.Prelude.{◌≡◌, ◌++◌, ◌∷◌, [], is_ok, if◌then◌else◌, IfOk};

    /// The rectangles of the page that overlap no obstacle and are at least `least` columns wide and
    /// `least` rows high. It takes no memory.
    pub fn new(page: Rect, obstacles: Rects, least: u16) -> White
        ensures page { result.page ≡ page }
        ensures obstacles { result.obstacles ≡ obstacles }
        ensures least { result.least ≡ least }
    {
        White {
            page,
            obstacles,
            least,
            cells: None,
        }
    }

    /// The same with an index, by which a search finds the obstacles near a rectangle, where there are more
    /// than are looked at first. A search is shorter where the obstacles go from smaller to larger ones.
    pub fn indexed(
        alloc: Global,
        page: Rect,
        obstacles: Rects,
        least: u16,
    ) -> Result<White, OutOfMemory>
        ensures page { IfOk result (λ white. white.page ≡ page) }
        ensures obstacles { IfOk result (λ white. white.obstacles ≡ obstacles) }
        ensures least { IfOk result (λ white. white.least ≡ least) }
    {
        let count = obstacles.len().saturating_sub(LOOKED_AT_FIRST);
        if count == 0 {
            return Ok(White::new(page, obstacles, least));
        }
        let cells = Some(Cells::new(alloc, &page, obstacles.as_slice(), count)?);
        Ok(White {
            page,
            obstacles,
            least,
            cells,
        })
    }

    /// Puts an obstacle behind the others. Where there is no memory for it, they stay as they were.
    pub fn push(&mut self, obstacle: Rect) -> Result<(), OutOfMemory>
        ensures page { self.new.page ≡ self.old.page }
        ensures grown { self.new.obstacles ≡ (if is_ok result then self.old.obstacles ++ obstacle ∷ [] else self.old.obstacles) }
        ensures least { self.new.least ≡ self.old.least }
    {
        self.obstacles.push(obstacle)?;
        Ok(())
    }
}

impl Space for White {
    ghost use Rattle.std.specs.Prelude.{◌<◌, ◌⊎◌, ◌↔◌, IfOk, IsNone, IfSome};
    ghost use Rattle.layout_geom.specs.Rectangles.{width_of, height_of};
    ghost use Rattle.box_search.specs.Search.{IsRootOf, IsStepOf};
    ghost use Rattle.whitespace_cover.specs.Problem.{white_numbers, IsWhiteKey};
    ghost use Rattle.whitespace_cover.specs.Regions.{RectLiesIn, IsNodeOf, FitsWhite, IsWhiteStep};
    ghost use Rattle.whitespace_cover.specs.WhiteLaws.{white_positive, white_bounded};

    type Work = Region;

    ghost problem = { white_numbers };

    ghost admits = { IsWhiteKey };

    ghost lies_in = { λ _ key shape. RectLiesIn key shape };

    ghost fits = { FitsWhite };

    ghost positive = { white_positive };

    ghost bounded = { white_bounded };

    fn root(&self, _alloc: Global) -> Result<Option<Node<Region>>, OutOfMemory>
        ensures root { let p = white_numbers self.now in IfOk result (IsRootOf (IsWhiteKey p) RectLiesIn (FitsWhite p)) }
        // There is none exactly where the page is below the least size, and else it is the page.
        ensures none { IfOk result (λ root. IsNone root
            ↔ ((width_of self.now.page < self.now.least) ⊎ (height_of self.now.page < self.now.least))) }
        ensures page { IfOk result (λ root. IfSome root (IsNodeOf self.now.page)) }
    {
        if !is_roomy(self.least, &self.page) {
            return Ok(None);
        }
        Ok(Some(node_of(self.page, u64::MAX)))
    }

    fn step(&self, alloc: Global, node: &Node<Region>) -> Result<Step<Region>, OutOfMemory>
        requires fits { FitsWhite (white_numbers self.now) node.now }
        ensures step { let p = white_numbers self.now in IfOk result (IsStepOf (IsWhiteKey p) RectLiesIn (FitsWhite p) node.now) }
        ensures exactly { IfOk result (IsWhiteStep self.now node.now.work) }
    {
        let obstacles = self.obstacles.as_slice();
        let scan = pivot_of(self.least, obstacles, &self.cells, &node.work);
        match scan.pivot {
            None => Ok(Step::Settled(node.bound)),
            Some(pivot) => {
                let nodes = parts(alloc, self.least, &node.work.rect, &pivot, scan.mask)?;
                Ok(Step::Split(nodes))
            }
        }
    }
}
