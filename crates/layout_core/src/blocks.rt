//! The blocks of a page.
ghost use Rattle.std.specs.Prelude.{◌≡◌, ◌*◌, IfOk, IfErr, min};
ghost use Rattle.page_runs.specs.Page.{Page};
ghost use Rattle.page_runs.specs.Packed.{Holds, IsWhole};
ghost use Rattle.layout_core.specs.ShownBlocks.{AreShownBlocks, IsBlockFault};

use crate::page_layout::CoreFault;
use crate::tasks::PageTasks;
use components::components;
use layout_geom::Rects;
use page_runs::RunPage;
use std::alloc::Global;

/// The longest white stretch that is filled, in pixels.
pub const MAX_STRETCH: u16 = 8191;

/// Of how many median heights of columns a white stretch of a row is filled.
pub const COLUMNS_IN_MEDIANS: u16 = 4;

/// Of how many median heights of rows a white stretch of a column is filled.
pub const ROWS_IN_MEDIANS: u16 = 2;

/// The longest stretch that is filled, where it may have so many median heights.
fn stretch_of(median: u16, heights: u16) -> u16
    ensures { result ≡ min MAX_STRETCH (heights * median) }
{
    median.saturating_mul(heights).min(MAX_STRETCH)
}

/// The blocks of a page where they are shown, and none where they are not. The median is that of the heights of its kept components.
pub(crate) fn shown_blocks<T: PageTasks>(
    alloc: Global,
    shown: bool,
    page: &RunPage,
    median: u16,
    tasks: &T,
) -> Result<Rects, CoreFault>
    requires ready { T.ready tasks.now }
    requires whole { IsWhole page.now }
    ensures blocks { (held : Page) → Holds page.now held → IfOk result (AreShownBlocks shown held median) }
    ensures fault { (held : Page) → Holds page.now held → IfErr result (IsBlockFault shown held median) }
{
    if !shown {
        return Ok(Rects::new(alloc));
    }
    let columns = stretch_of(median, COLUMNS_IN_MEDIANS);
    let rows = stretch_of(median, ROWS_IN_MEDIANS);
    let smear = tasks.smear(alloc, page, columns, rows)?;
    let kept = components(alloc, &smear)?;
    Ok(kept.boxes)
}
