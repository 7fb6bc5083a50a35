//! The greedy list of the lines of a page.
ghost use Rattle.std.specs.Prelude.{◌≡◌, ◌≤◌, IfOk, length, All};
ghost use Rattle.std.specs.List.Sorted.{IsStrictlyIncreasing};
ghost use Rattle.layout_geom.specs.declared.rect.Rect.{Rect};
ghost use Rattle.layout_geom.specs.Rectangles.{Encloses};
ghost use Rattle.line_search.specs.Lines.{AreLinesOf};

use crate::characters::characters;
use crate::grid::Grid;
use crate::line::Lines;
use box_search::Searcher;
use components::Kept;
use layout_geom::Rects;
use layout_limits::{MAX_SIDE, OutOfMemory};
use line_quality::MAX_GUTTERS;
use std::alloc::Global;

/// The rectangles, in a list of their own.
pub(crate) fn copy_of(alloc: Global, rects: &Rects) -> Result<Rects, OutOfMemory>
    requires { length rects.now ≤ 60000 }
    ensures { IfOk result (λ copy. copy ≡ rects.now) }
{
    let copy = Vec::from_slice(alloc, rects.as_slice())?;
    Ok(Rects::from_vec(copy))
}

/// The lines of text of a page, the best first: each is the best among the boxes that are in no line
/// before it, as in the greedy search for lines of Breuel (2002).
///
/// At first all kept boxes that have about the size of a character are alive. A line is the admissible
/// line of the grid of greatest key; its members are the boxes that weigh something for it, of the column
/// between gutters that weighs most, so that no line goes on across a gutter that it crosses. They are
/// alive no more afterwards. A line is at most as deep as a third of the median height of the boxes. The list ends where no line has a score of at least `LEAST_SCORE`.
///
/// There are at most 60,000 boxes and `MAX_GUTTERS` gutters, the height is from 1 to `MAX_SIDE`, and one rectangle has all
/// boxes inside. The one refusal is want of memory, after which it may be called again.
pub fn lines<F: Searcher<Grid>>(
    alloc: Global,
    kept: &Kept,
    gutters: &Rects,
    height: u16,
    searcher: &mut F,
) -> Result<Lines, OutOfMemory>
    requires few_boxes { length kept.now.boxes ≤ 60000 }
    requires few_gutters { length gutters.now ≤ MAX_GUTTERS }
    requires low { 1 ≤ height }
    requires high { height ≤ MAX_SIDE }
    requires contained { (outer : Rect) × All (Encloses outer) kept.now.boxes }
    requires ready { F.ready searcher.old }
    ensures ready { F.ready searcher.new }
    ensures lines { IfOk result (AreLinesOf kept.now gutters.now height) }
    ensures rising { IfOk result (λ lines. All (λ line. IsStrictlyIncreasing line.members) lines) }
{
    let alive = characters(alloc, kept)?;
    let boxes = copy_of(alloc, &kept.boxes)?;
    let walls = copy_of(alloc, gutters)?;
    let mut grid = Grid::with_keys(alloc, boxes, alive, walls, height, kept.median)?;
    let mut lines = Lines::new(alloc);
    loop {
        grid.sharpen();
        let key = searcher.best(alloc, &grid)?;
        if key == 0 {
            return Ok(lines);
        }
        lines.push(grid.take_line(alloc, key)?)?;
    }
}
