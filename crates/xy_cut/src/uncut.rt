//! Boxes that no cut parts further, as cells, and cells side by side.
ghost use Rattle.std.specs.Prelude.{◌≡◌, ◌<◌, ◌++◌, length, IfOk, All};
ghost use Rattle.layout_geom.specs.declared.rect.Rect.{Rect};
ghost use Rattle.layout_geom.specs.Rectangles.{Encloses};
ghost use Rattle.xy_cut.specs.Cells.{IsHullOf, AreWhole};

use crate::cell::{Cell, Cells, Path};
use layout_geom::{Rect, Rects};
use layout_limits::OutOfMemory;
use std::alloc::Global;

/// The least rectangle round boxes.
fn hull_of(boxes: &[Rect]) -> Rect
    requires some { 0 < length boxes.now }
    requires contained { (outer : Rect) × All (Encloses outer) boxes.now }
    ensures { IsHullOf boxes.now result }
{
    let mut hull = boxes[0];
    for place in 1..boxes.len() {
        hull = hull.hull(&boxes[place]);
    }
    hull
}

/// Boxes that are not cut, as one cell, or as none where there is no box.
pub(crate) fn whole(alloc: Global, path: Path, boxes: &Rects) -> Result<Cells, OutOfMemory>
    requires { (outer : Rect) × All (Encloses outer) boxes.now }
    ensures { IfOk result (AreWhole path boxes.now) }
{
    let mut cells = Cells::new(alloc);
    if boxes.is_empty() {
        return Ok(cells);
    }
    cells.push(Cell {
        path,
        count: boxes.len() as u32,
        bbox: hull_of(boxes.as_slice()),
    })?;
    Ok(cells)
}

/// Cells, and others behind them.
pub(crate) fn followed(cells: Cells, others: Cells) -> Result<Cells, OutOfMemory>
    ensures { IfOk result (λ all. all ≡ cells ++ others) }
{
    let mut all = cells;
    for cell in others.into_vec() {
        all.push(cell)?;
    }
    Ok(all)
}
