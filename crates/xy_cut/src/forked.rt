//! The cells of boxes, with the two sides of a large cut in threads of their own.
ghost use Rattle.std.specs.Prelude.{◌≤◌, ◌<◌, [], length, IfOk, All};
ghost use Rattle.std.specs.Thread.{IsSync};
ghost use Rattle.layout_geom.specs.declared.rect.Rect.{Rect};
ghost use Rattle.layout_geom.specs.Rectangles.{Encloses};
ghost use Rattle.xy_cut.specs.Cells.{AreCells};

use crate::alone::{cells_from, copy_of};
use crate::cell::{Cells, Path, Side};
use crate::cut::cut_of;
use crate::parts::{longer, part_on};
use crate::uncut::{followed, whole};
use layout_geom::Rects;
use layout_limits::OutOfMemory;
use std::alloc::Global;
use std::thread::{Threads, join};

/// How many boxes are cut on one thread: to begin a thread and join it costs more than to cut so few.
const FEW_BOXES: usize = 4096;

/// The cells of the boxes at the end of a path.
fn cells_apart<R: Threads + Sync>(
    rt: &R,
    alloc: Global,
    path: Path,
    boxes: Rects,
    least: u16,
) -> Result<Cells, OutOfMemory>
    requires least { 1 ≤ least }
    requires contained { (outer : Rect) × All (Encloses outer) boxes }
    ensures { IfOk result (AreCells least path boxes) }
{
    if boxes.len() <= FEW_BOXES {
        return cells_from(alloc, path, boxes, least);
    }
    let Some(band) = cut_of(alloc, &path, &boxes, least)? else {
        return whole(alloc, path, &boxes);
    };
    let before = part_on(alloc, &boxes, &band, Side::Before)?;
    let after = part_on(alloc, &boxes, &band, Side::After)?;
    drop(boxes);
    let way = longer(alloc, &path, Side::Before)?;
    let other_way = longer(alloc, &path, Side::After)?;
    let (cells, others) = join(
        rt,
        || -> Result<Cells, OutOfMemory>
            requires { IsSync R.row × (1 ≤ least) × ((outer : Rect) × All (Encloses outer) before) }
            ensures { IfOk result (AreCells least way before) }
        { cells_apart(rt, alloc, way, before, least) },
        || -> Result<Cells, OutOfMemory>
            requires { IsSync R.row × (1 ≤ least) × ((outer : Rect) × All (Encloses outer) after) }
            ensures { IfOk result (AreCells least other_way after) }
        { cells_apart(rt, alloc, other_way, after, least) },
    );
    followed(cells?, others?)
}

/// The cells that boxes fall into by the recursive XY cut, as `cells_alone` gives them. The two sides of a cut of more
/// than a few thousand boxes are worked on at a time, where threads can be made for them.
///
/// `t` is at least 1, and one rectangle contains all boxes.
///
/// # Errors
///
/// Want of memory is the one refusal.
pub fn cells<R: Threads + Sync>(
    rt: &R,
    alloc: Global,
    boxes: &Rects,
    t: u16,
) -> Result<Cells, OutOfMemory>
    requires least { 1 ≤ t }
    requires contained { (outer : Rect) × All (Encloses outer) boxes.now }
    ensures cells { IfOk result (AreCells t [] boxes.now) }
{
    cells_apart(rt, alloc, Path::new(alloc), copy_of(alloc, boxes)?, t)
}
