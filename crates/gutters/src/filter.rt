//! The filter that keeps the gutters of a list of white rectangles.
ghost use Rattle.std.specs.Prelude.{◌≡◌, ◌≤◌, ◌↔◌, IsTrue, IfOk, All, Contains};
ghost use Rattle.gutters.specs.Gutters.{beside_count, IsGutter, is_gutter as gutter_test, gutters_of};

use crate::beside::{Side, stands_beside};
use components::Kept;
use layout_geom::{Rect, Rects};
use layout_limits::OutOfMemory;
use std::alloc::Global;

/// The least number of boxes on either side of a gutter.
pub const LEAST_BOXES: usize = 3;

/// How many times as high as wide a gutter is at least.
pub const LEAST_RATIO: u32 = 3;

/// Whether enough of the kept boxes stand on a side of a rectangle.
fn has_beside(side: Side, rect: &Rect, kept: &Kept) -> bool
    ensures { IsTrue result ↔ (LEAST_BOXES ≤ beside_count side kept.now rect.now) }
{
    let boxes = kept.boxes.as_slice();
    let count = boxes
        .iter()
        .filter(|char_box| stands_beside(side, rect, kept.median, char_box))
        .count();
    count >= LEAST_BOXES
}

/// Whether the rectangle is a gutter among the kept boxes: it is at least `LEAST_RATIO` times as high
/// as wide, and at least `LEAST_BOXES` boxes stand on its left (`stands_left`) and as many on its
/// right (`stands_right`), where equal boxes count as often as they stand in the list.
///
/// Time grows with the number of boxes. It takes no memory.
pub fn is_gutter(rect: &Rect, kept: &Kept) -> bool
    ensures facts { IsTrue result ↔ IsGutter kept.now rect.now }
    ensures test { result ≡ gutter_test kept.now rect.now }
{
    u32::from(rect.height()) >= LEAST_RATIO * u32::from(rect.width())
        && has_beside(Side::Left, rect, kept)
        && has_beside(Side::Right, rect, kept)
}

/// The gutters among the white rectangles of a page, in the order of these: those of which
/// `is_gutter` is true.
///
/// Time grows with the number of rectangles times the number of kept boxes.
///
/// # Errors
///
/// Want of memory is the one refusal.
pub fn gutters(alloc: Global, whites: &Rects, kept: &Kept) -> Result<Rects, OutOfMemory>
    ensures filtered { IfOk result (λ found. found ≡ gutters_of kept.now whites.now) }
    ensures each { IfOk result (All (IsGutter kept.now)) }
    ensures every { IfOk result (λ found. All (λ white. IsGutter kept.now white → Contains found white) whites.now) }
{
    let mut found = Rects::new(alloc);
    for white in whites.as_slice() {
        if is_gutter(white, kept) {
            found.push(*white)?;
        }
    }
    Ok(found)
}
