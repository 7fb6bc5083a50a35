//! The boxes of the components that are kept.
ghost use Rattle.std.specs.Prelude.{◌≡◌, ◌<◌, ◌≤◌, ◌*◌, ◌^◌, ℕ, IfOk, IsTrue, ◌↔◌, length};
ghost use Rattle.page_runs.specs.Page.{Page};
ghost use Rattle.page_runs.specs.Packed.{IsWhole, page_of};
ghost use Rattle.layout_geom.specs.Sides.{AreSides};
ghost use Rattle.layout_geom.specs.Rectangles.{HasSides};
ghost use Rattle.components.specs.declared.bounds.Bounds.{Bounds as Sides};
ghost use Rattle.components.specs.Boxes.{IsLarge};
ghost use Rattle.components.specs.Groups.{IsDone, group_at};
ghost use Rattle.components.specs.Kept.{IsKeptBoxes};

use crate::bounds::Bounds;
use crate::groups::Group;
use crate::rows::group_runs;
use layout_geom::Rect;
use layout_limits::{MAX_SIDE, OutOfMemory};
use page_runs::RunPage;
use std::alloc::Global;

/// The greatest width and the greatest height of noise, in pixels.
pub const MAX_NOISE: u16 = 2;

/// Whether a component with this box is kept; what is smaller is noise.
fn is_large(rect: &Rect) -> bool
    ensures { IsTrue result ↔ IsLarge rect.now }
{
    rect.width() > MAX_NOISE || rect.height() > MAX_NOISE
}

/// The rectangle of the sides.
fn box_of(bounds: Bounds) -> Rect
    requires { AreSides bounds.x0 bounds.y0 bounds.x1 bounds.y1 }
    ensures { HasSides result bounds.x0 bounds.y0 bounds.x1 bounds.y1 }
{
    match Rect::new(bounds.x0, bounds.y0, bounds.x1, bounds.y1) {
        Some(rect) => rect,
        None => unreachable!(),
    }
}

/// The boxes of those groups that are whole components and no noise.
fn boxes_of(alloc: Global, groups: &[Group]) -> Result<Vec<Rect>, OutOfMemory>
    requires sides { (g : ℕ) → g < length groups.now → (group_at groups.now g).parent ≡ g
        → (let b : Sides = (group_at groups.now g).bounds in AreSides b.x0 b.y0 b.x1 b.y1) }
    ensures kept { (page : Page) → IsDone page groups.now → IfOk result (λ boxes. IsKeptBoxes page boxes.items) }
    ensures few { IfOk result (λ boxes. length boxes.items ≤ length groups.now) }
{
    let mut boxes = Vec::new(alloc);
    for g in 0..groups.len() {
        let group = groups[g];
        if group.parent as usize == g {
            let found = box_of(group.bounds);
            if is_large(&found) {
                boxes.push(found)?;
            }
        }
    }
    Ok(boxes)
}

/// The boxes of the kept components, in the order in which their first runs are met.
pub(crate) fn kept_boxes(alloc: Global, page: &RunPage) -> Result<Vec<Rect>, OutOfMemory>
    requires { IsWhole page.now }
    ensures kept { IfOk result (λ boxes. IsKeptBoxes (page_of page.now) boxes.items) }
    ensures few { IfOk result (λ boxes. length boxes.items ≤ MAX_SIDE * MAX_SIDE) }
{
    // A page's limits are known to the proof once its height was asked for.
    let _size = page.height();
    let groups = group_runs(alloc, page)?;
    boxes_of(alloc, &groups)
}
