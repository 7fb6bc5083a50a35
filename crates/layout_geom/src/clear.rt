//! White space among boxes.
ghost use Rattle.std.specs.Prelude.{IsTrue, ◌↔◌};
ghost use Rattle.layout_geom.specs.Rectangles.{IsClear};

use crate::items::Rects;
use crate::rect::Rect;

/// Whether the rectangle overlaps no box of the list.
pub fn is_clear(rect: &Rect, boxes: &Rects) -> bool
    ensures clear { IsTrue result ↔ IsClear rect.now boxes.now }
{
    boxes
        .as_slice()
        .iter()
        .all(|obstacle| !rect.overlaps(obstacle))
}
