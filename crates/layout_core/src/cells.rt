//! The cells of a page.
ghost use Rattle.std.specs.Prelude.{IfOk, All};
ghost use Rattle.layout_geom.specs.declared.rect.Rect.{Rect};
ghost use Rattle.layout_geom.specs.Rectangles.{Encloses};
ghost use Rattle.layout_core.specs.ShownCells.{AreShownCells};

use crate::tasks::PageTasks;
use components::Kept;
use layout_limits::OutOfMemory;
use std::alloc::Global;
use xy_cut::Cells;

/// How many columns or rows a band between cells has at least, where the median height is less.
pub const LEAST_BAND: u16 = 1;

/// The cells of the kept boxes of a page where they are shown, and none where they are not.
pub(crate) fn shown_cells<T: PageTasks>(
    alloc: Global,
    shown: bool,
    kept: &Kept,
    tasks: &T,
) -> Result<Cells, OutOfMemory>
    requires ready { T.ready tasks.now }
    requires contained { (outer : Rect) × All (Encloses outer) kept.now.boxes }
    ensures { IfOk result (AreShownCells shown kept.now) }
{
    if shown {
        tasks.cells(alloc, &kept.boxes, kept.median.max(LEAST_BAND))
    } else {
        Ok(Cells::new(alloc))
    }
}
