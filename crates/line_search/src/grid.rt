//! The lines that a page may have, as a space to be searched.
ghost use Rattle.std.specs.Prelude.{◌≡◌};
ghost use Rattle.line_search.specs.Lines;

use crate::bound::nearest_slope;
use crate::line::Line;
use crate::living::{Lists, Living};
use crate::members::{Division, Winner, divide, farthest, least_round};
use crate::near::near;
use crate::parts::{halves, listed};
use crate::span::Span;
use box_search::{Node, Shape, Space, Step};
use layout_geom::{Numbers, Rects};
use layout_limits::{MAX_SIDE, OutOfMemory};
use line_counts::{Counts, Keys, fits_table, is_single};
use line_quality::{
    LEAST_OFFSET, LEAST_SLOPE, MAX_DEPTH, MAX_GUTTERS, MAX_SLOPE, OFFSET_MARGIN, Score, line_key,
    point_of, score_at,
};
use std::alloc::Global;
use std::marker::Model;

/// The lines that a page may have, by their slopes, offsets and depths, to be searched for the one of greatest
/// key: a search for baselines by branch and bound, after Breuel (2002).
///
/// The slopes go from `LEAST_SLOPE` to `MAX_SLOPE` thousandths, the offsets from `OFFSET_MARGIN` rows above the page
/// to as many below it, the depths from 0 to a third of the median height of the page's boxes, and to `MAX_DEPTH` at
/// most. A line is admitted where its score among the boxes that are alive is at least
/// `LEAST_SCORE`.
#[derive(Drop)]
pub struct Grid {
    living: Living,
    median: u16,
}

impl Model for Grid {
    ghost use Rattle.line_search.specs.Problem.{GridProblem};
    ghost use Rattle.line_search.specs.Pages.{page_of, problem_of, IsKept};

    ghost Value = { GridProblem };

    ghost view = { λ grid. problem_of (page_of grid.living) grid.median };

    ghost invariant = { λ grid. IsKept grid.living grid.median };
}

/// The least score of a line: less than three boxes do not make one.
pub const LEAST_SCORE: u32 = 60;

/// The least key of a line whose score is enough.
const LEAST_KEY: u64 = (LEAST_SCORE as u64) << 29;

/// Fewer boxes weigh less than a line.
const LEAST_MEMBERS: usize = 3;

/// The greatest depth of the lines of a page whose boxes have this median height.
fn deepest(median: u16) -> u8
    ensures { result ≡ Lines.deepest median }
{
    (median / 3).min(MAX_DEPTH as u16) as u8
}

/// A line that is taken out of a grid.
#[derive(Drop)]
struct Taken {
    winner: Winner,
    score: u32,
    division: Division,
}

impl Grid {
    ghost use Rattle.std.specs.Prelude.{◌≡◌, ◌<◌, ◌≤◌, OnOk, IfOk, IfSome, IfNone, length, All};
    ghost use Rattle.layout_geom.specs.declared.rect.Rect.{Rect};
    ghost use Rattle.layout_geom.specs.Rectangles.{Encloses};
    ghost use Rattle.box_search.specs.Search.{IsGreatestKey};
    ghost use Rattle.line_counts.specs.KeyTables.{IsShapeBound};
    ghost use Rattle.line_search.specs.Lines;
    ghost use Rattle.line_search.specs.Lines.{IsBestLine, without};
    ghost use Rattle.line_search.specs.Problem.{grid_numbers, IsGridKey};
    ghost use Rattle.line_search.specs.Pages.{living_page};
    ghost use Rattle.line_counts.specs.Shapes.{IsInGrid};
    ghost use Rattle.line_search.specs.Bounds.{IsOver, HasWeighing, IsGridNode};
    ghost use Rattle.line_search.specs.Parts.{HasNoPoint};
    ghost use Rattle.line_search.specs.Taken.{IsTaken};

    /// The lines of a page with these boxes, scored by those of them at the positions in `alive`. There are
    /// at most 60,000 boxes, 60,000 positions and `MAX_GUTTERS` gutters, and the height is from 1 to `MAX_SIDE`. The median
    /// is that of the heights of the page's boxes. It takes no memory.
    pub fn new(boxes: Rects, alive: Numbers, gutters: Rects, height: u16, median: u16) -> Grid
        requires low { 1 ≤ height }
        requires high { height ≤ MAX_SIDE }
        requires few_boxes { length boxes ≤ 60000 }
        requires few_alive { length alive ≤ 60000 }
        requires few_gutters { length gutters ≤ MAX_GUTTERS }
        requires positions { All (λ position. position < length boxes) alive }
        ensures height { result.height ≡ height }
        ensures median { result.median ≡ median }
        ensures boxes { result.boxes ≡ boxes }
        ensures alive { result.alive ≡ alive }
        ensures gutters { result.gutters ≡ gutters }
    {
        let widest = farthest(boxes.as_slice());
        let lists = Lists {
            height,
            boxes,
            alive,
            gutters,
            widest,
        };
        Grid {
            living: Living::Plain(lists),
            median,
        }
    }

    /// The same lines as those of `new`, with a table of keys where the page has a line and its table is small enough. The one
    /// refusal is want of memory.
    pub(crate) fn with_keys(
        alloc: Global,
        boxes: Rects,
        alive: Numbers,
        gutters: Rects,
        height: u16,
        median: u16,
    ) -> Result<Grid, OutOfMemory>
        requires low { 1 ≤ height }
        requires high { height ≤ MAX_SIDE }
        requires few_boxes { length boxes ≤ 60000 }
        requires few_alive { length alive ≤ 60000 }
        requires few_gutters { length gutters ≤ MAX_GUTTERS }
        requires positions { All (λ position. position < length boxes) alive }
        ensures height { IfOk result (λ grid. grid.height ≡ height) }
        ensures median { IfOk result (λ grid. grid.median ≡ median) }
        ensures boxes { IfOk result (λ grid. grid.boxes ≡ boxes) }
        ensures alive { IfOk result (λ grid. grid.alive ≡ alive) }
        ensures gutters { IfOk result (λ grid. grid.gutters ≡ gutters) }
    {
        if alive.len() < LEAST_MEMBERS || !fits_table(height, &gutters) {
            return Ok(Grid::new(boxes, alive, gutters, height, median));
        }
        let counts = Counts::new(alloc, boxes, alive, gutters, height)?;
        let keys = Keys::new(alloc, counts, LEAST_SCORE, deepest(median))?;
        Ok(Grid {
            living: Living::Counted(keys),
            median,
        })
    }

    /// Makes ready for a search, so that it opens few shapes. The lines stay as they are.
    pub(crate) fn sharpen(&mut self)
        ensures { self.new ≡ self.old }
    {
        self.living.sharpen();
    }

    /// All positions of the boxes that are alive.
    fn all(&self) -> Span
        ensures from { result.from ≡ 0 }
        ensures to { result.to ≡ length self.now.alive }
    {
        Span {
            from: 0,
            to: self.living.alive().len() as u32,
        }
    }

    /// The node of a shape. The stretch has at least the positions of the boxes that can weigh something for
    /// its lines.
    fn node_of(&self, alloc: Global, shape: Shape, span: Span) -> Result<Node<Span>, OutOfMemory>
        requires in_grid { IsInGrid self.now.height (Lines.deepest self.now.median) shape }
        requires weighing { HasWeighing self.now shape span }
        ensures fitting { IfOk result (λ node. IsGridNode node self.now) }
        ensures shape { IfOk result (λ node. node.shape ≡ shape) }
    {
        let boxes = self.living.boxes();
        let alive = self.living.alive();
        let gutters = self.living.gutters();
        let positions = &alive.as_slice()[span.from as usize..span.to as usize];
        let near = near(alloc, &shape, boxes, gutters, positions)?;
        Ok(Node {
            shape,
            bound: line_key(
                near.score.score,
                nearest_slope(&shape),
                shape.b0 as i16,
                shape.c0 as u8,
            ),
            work: Span {
                from: span.from + near.span.from,
                to: span.from + near.span.to,
            },
        })
    }

    /// The node of a shape with the bound that the table of keys gives, unless it has no admissible point.
    fn counted_node(&self, shape: Shape, bound: u64) -> Option<Node<Span>>
        requires in_grid { IsInGrid self.now.height (Lines.deepest self.now.median) shape }
        requires bound { IsShapeBound (living_page self.now) LEAST_SCORE shape bound }
        ensures fitting { IfSome result (λ node. IsGridNode node self.now) }
        ensures shape { IfSome result (λ node. node.shape ≡ shape) }
        ensures bound { IfSome result (λ node. node.bound ≡ bound) }
        ensures none { IfNone result (HasNoPoint self.now shape) }
    {
        if bound < LEAST_KEY {
            return None;
        }
        Some(Node {
            shape,
            bound,
            work: self.all(),
        })
    }

    /// The node of a shape by the table of keys, where there is a table and the shape has an admissible point by it.
    fn known_node(&self, shape: Shape) -> Option<Node<Span>>
        requires { IsInGrid self.now.height (Lines.deepest self.now.median) shape }
        ensures fitting { IfSome result (λ node. IsGridNode node self.now) }
        ensures shape { IfSome result (λ node. node.shape ≡ shape) }
    {
        match self.living.bound(&shape) {
            Some(bound) => self.counted_node(shape, bound),
            None => None,
        }
    }

    /// The node of a part of a shape, unless it has no admissible point.
    fn part(
        &self,
        alloc: Global,
        shape: Shape,
        span: Span,
        limit: u64,
    ) -> Result<Option<Node<Span>>, OutOfMemory>
        requires in_grid { IsInGrid self.now.height (Lines.deepest self.now.median) shape }
        requires weighing { HasWeighing self.now shape span }
        requires over { IsOver self.now shape limit }
        ensures fitting { IfOk result (λ part. IfSome part (λ node. IsGridNode node self.now)) }
        ensures shape { IfOk result (λ part. IfSome part (λ node. node.shape ≡ shape)) }
        ensures bound { IfOk result (λ part. IfSome part (λ node. node.bound ≤ limit)) }
        ensures none { IfOk result (λ part. IfNone part (HasNoPoint self.now shape)) }
    {
        if let Some(bound) = self.living.bound(&shape) {
            return Ok(self.counted_node(shape, bound.min(limit)));
        }
        let node = self.node_of(alloc, shape, span)?;
        let bound = node.bound.min(limit);
        if bound < LEAST_KEY {
            return Ok(None);
        }
        Ok(Some(Node { bound, ..node }))
    }

    /// The line of the greatest key, and which of the positions that are alive are in it.
    fn best_line(&self, alloc: Global, key: u64) -> Result<Taken, OutOfMemory>
        requires greatest { IsGreatestKey (IsGridKey (grid_numbers self.now)) key }
        requires some { 0 < key }
        requires high { self.now.height ≤ MAX_SIDE }
        ensures { IfOk result (λ taken. IsTaken self.now key taken.score taken.winner taken.division) }
    {
        let (slope, offset, depth) = point_of(key);
        let boxes = self.living.boxes();
        let alive = self.living.alive();
        let gutters = self.living.gutters();
        let Score { score, column } = score_at(slope, offset, depth, boxes, alive, gutters);
        let winner = Winner {
            slope,
            offset,
            depth,
            column,
        };
        let division = divide(alloc, &winner, boxes, alive, gutters)?;
        Ok(Taken {
            winner,
            score,
            division,
        })
    }

    /// The line of the greatest key, whose members are then alive no more.
    pub(crate) fn take_line(&mut self, alloc: Global, key: u64) -> Result<Line, OutOfMemory>
        requires greatest { IsGreatestKey (IsGridKey (grid_numbers self.old)) key }
        requires some { 0 < key }
        requires high { self.old.height ≤ MAX_SIDE }
        requires contained { (outer : Rect) × All (Encloses outer) self.old.boxes }
        ensures best { IfOk result (λ line. IsBestLine self.old.boxes self.old.gutters self.old.height self.old.median self.old.alive line) }
        ensures rest { IfOk result (λ line. self.new ≡ record self.old { alive = without line.members self.old.alive }) }
        ensures fewer { OnOk result (length self.new.alive < length self.old.alive) }
        ensures within { IfOk result (λ line. All (λ member. member < length self.old.boxes) line.members) }
    {
        let Taken {
            winner,
            score,
            division,
        } = self.best_line(alloc, key)?;
        let Division { members, others } = division;
        let bbox = least_round(self.living.boxes().as_slice(), members.as_slice());
        self.living.take(members.as_slice(), others);
        Ok(Line {
            slope: winner.slope,
            offset: winner.offset,
            depth: winner.depth,
            members,
            bbox,
            score,
        })
    }
}

impl Space for Grid {
    ghost use Rattle.std.specs.Prelude.{◌≡◌, IfOk, IfSome, IsSome};
    ghost use Rattle.box_search.specs.Search.{IsRootOf, IsStepOf};
    ghost use Rattle.line_search.specs.Lines;
    ghost use Rattle.line_search.specs.Problem.{grid_numbers, IsGridKey};
    ghost use Rattle.line_counts.specs.Shapes.{PointLiesIn, whole_grid};
    ghost use Rattle.line_search.specs.Bounds.{FitsGrid};
    ghost use Rattle.line_search.specs.Parts.{IsGridStep};
    ghost use Rattle.line_search.specs.GridLaws.{grid_positive, grid_bounded};

    type Work = Span;

    ghost problem = { grid_numbers };

    ghost admits = { IsGridKey };

    ghost lies_in = { λ _ key shape. PointLiesIn key shape };

    ghost fits = { FitsGrid };

    ghost positive = { grid_positive };

    ghost bounded = { grid_bounded };

    fn root(&self, alloc: Global) -> Result<Option<Node<Span>>, OutOfMemory>
        ensures root { let p = grid_numbers self.now in IfOk result (IsRootOf (IsGridKey p) PointLiesIn (FitsGrid p)) }
        // There always is one, and its shape is the whole grid.
        ensures always { IfOk result (λ root. IsSome root) }
        ensures whole { IfOk result (λ root. IfSome root (λ node. node.shape ≡ whole_grid self.now.height (Lines.deepest self.now.median))) }
    {
        let shape = Shape {
            a0: LEAST_SLOPE as i32,
            a1: MAX_SLOPE as i32 + 1,
            b0: LEAST_OFFSET as i32,
            b1: self.living.height() as i32 + OFFSET_MARGIN as i32 + 1,
            c0: 0,
            c1: deepest(self.median) as i32 + 1,
        };
        if let Some(node) = self.known_node(shape) {
            return Ok(Some(node));
        }
        let node = self.node_of(alloc, shape, self.all())?;
        Ok(Some(node))
    }

    fn step(&self, alloc: Global, node: &Node<Span>) -> Result<Step<Span>, OutOfMemory>
        requires fits { FitsGrid (grid_numbers self.now) node.now }
        ensures step { let p = grid_numbers self.now in IfOk result (IsStepOf (IsGridKey p) PointLiesIn (FitsGrid p) node.now) }
        ensures exactly { IfOk result (IsGridStep self.now node.now.shape) }
    {
        if is_single(&node.shape) {
            if node.bound < LEAST_KEY {
                return Ok(Step::Split(Vec::new(alloc)));
            }
            return Ok(Step::Settled(node.bound));
        }
        let (lower, upper) = halves(&node.shape, self.living.cut(&node.shape));
        let lower = self.part(alloc, lower, node.work, node.bound)?;
        let upper = self.part(alloc, upper, node.work, node.bound)?;
        Ok(Step::Split(listed(alloc, lower, upper)?))
    }
}
