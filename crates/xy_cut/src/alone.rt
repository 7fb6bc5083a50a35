//! The cells of boxes, on one thread.
ghost use Rattle.std.specs.Prelude.{◌≡◌, ◌≤◌, [], IfOk, All};
ghost use Rattle.layout_geom.specs.declared.rect.Rect.{Rect};
ghost use Rattle.layout_geom.specs.Rectangles.{Encloses};
ghost use Rattle.xy_cut.specs.Cells.{AreCells};

use crate::cell::{Cells, Path, Side};
use crate::cut::cut_of;
use crate::parts::{longer, part_on};
use crate::uncut::{followed, whole};
use layout_geom::Rects;
use layout_limits::OutOfMemory;
use std::alloc::Global;

/// The same boxes once more.
pub(crate) fn copy_of(alloc: Global, boxes: &Rects) -> Result<Rects, OutOfMemory>
    ensures { IfOk result (λ copy. copy ≡ boxes.now) }
{
    let mut copy = Vec::with_capacity(alloc, boxes.len())?;
    copy.extend_from_slice(boxes.as_slice())?;
    Ok(Rects::from_vec(copy))
}

/// The cells of the boxes at the end of a path.
pub(crate) fn cells_from(
    alloc: Global,
    path: Path,
    boxes: Rects,
    least: u16,
) -> Result<Cells, OutOfMemory>
    requires least { 1 ≤ least }
    requires contained { (outer : Rect) × All (Encloses outer) boxes }
    ensures { IfOk result (AreCells least path boxes) }
{
    let Some(band) = cut_of(alloc, &path, &boxes, least)? else {
        return whole(alloc, path, &boxes);
    };
    let before = part_on(alloc, &boxes, &band, Side::Before)?;
    let after = part_on(alloc, &boxes, &band, Side::After)?;
    drop(boxes);
    let way = longer(alloc, &path, Side::Before)?;
    let cells = cells_from(alloc, way, before, least)?;
    let way = longer(alloc, &path, Side::After)?;
    let others = cells_from(alloc, way, after, least)?;
    followed(cells, others)
}

/// The cells that boxes fall into by the recursive XY cut (Nagy and Seth 1984), on one thread.
///
/// A white band of at least `t` columns or rows goes through all the boxes, from the end of one to the beginning of
/// another. The boxes are cut at the widest band, and of several at one that goes across the page, and then at the first;
/// what lies left of it or above it and the rest are cut in the same way, along a path of at most `MAX_CUTS` cuts. The
/// cells stand in the order of their paths, and each has the number of its boxes and the least rectangle round them.
///
/// `t` is at least 1, and one rectangle contains all boxes, as that of a page does. For n boxes a cut takes time of
/// n log n steps; there are copies of all boxes, of their paths and of the cells in memory.
///
/// # Errors
///
/// Want of memory is the one refusal.
pub fn cells_alone(alloc: Global, boxes: &Rects, t: u16) -> Result<Cells, OutOfMemory>
    requires least { 1 ≤ t }
    requires contained { (outer : Rect) × All (Encloses outer) boxes.now }
    ensures cells { IfOk result (AreCells t [] boxes.now) }
{
    cells_from(alloc, Path::new(alloc), copy_of(alloc, boxes)?, t)
}
