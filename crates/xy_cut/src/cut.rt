//! Where boxes are cut.
ghost use Rattle.std.specs.Prelude.{◌≤◌, ◌<◌, length, IfOk};
ghost use Rattle.xy_cut.specs.Cells.{IsCutOf};

use crate::band::Band;
use crate::cell::{MAX_CUTS, Path};
use crate::sweep::best_band;
use layout_geom::Rects;
use layout_limits::OutOfMemory;
use std::alloc::Global;

/// The band at which the boxes at the end of a path are cut, or none where they are not cut.
pub(crate) fn cut_of(
    alloc: Global,
    path: &Path,
    boxes: &Rects,
    least: u16,
) -> Result<Option<Band>, OutOfMemory>
    requires { 1 ≤ least }
    ensures { IfOk result (IsCutOf least path.now boxes.now) }
{
    if path.len() < MAX_CUTS && !boxes.is_empty() {
        best_band(alloc, boxes, least)
    } else {
        Ok(None)
    }
}
