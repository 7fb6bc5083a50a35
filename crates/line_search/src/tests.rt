//! Lines of pages whose boxes were written down by hand or made by chance.
ghost use Rattle.std.specs.Prelude.{◌<◌, ◌≤◌, IfOk, length, All};
ghost use Rattle.layout_geom.specs.declared.rect.Rect.{Rect};
ghost use Rattle.layout_geom.specs.Rectangles.{Encloses};

mod both_forms;
mod by_hand;

use layout_geom::{Rect, Rects};
use std::alloc::Global;
use std::test::Fail;

/// The sides `x0`, `y0`, `x1`, `y1` of a rectangle.
type Sides = (u16, u16, u16, u16);

/// The rectangle that has the boxes of every test inside.
const PAGE: Sides = (0, 0, 1010, 1010);

/// The rectangles of these sides.
fn rects_of(alloc: Global, all: &[Sides]) -> Result<Rects, Fail>
    ensures { IfOk result (λ rects. length rects ≤ length all.now) }
{
    let mut rects = Rects::new(alloc);
    for (x0, y0, x1, y1) in all {
        let rect = Rect::new(*x0, *y0, *x1, *y1).ok_or("no rectangle")?;
        rects.push(rect)?;
    }
    Ok(rects)
}

/// The boxes of these sides inside a rectangle.
fn boxes_in(alloc: Global, outer: &Rect, all: &[Sides]) -> Result<Rects, Fail>
    ensures few { IfOk result (λ boxes. length boxes ≤ length all.now) }
    ensures inside { IfOk result (λ boxes. All (Encloses outer.now) boxes) }
{
    let mut boxes = Rects::new(alloc);
    for (x0, y0, x1, y1) in all {
        let rect = Rect::new(*x0, *y0, *x1, *y1).ok_or("no rectangle")?;
        if !outer.contains(&rect) {
            Err("not inside")?;
        }
        boxes.push(rect)?;
    }
    Ok(boxes)
}

/// The sides of a rectangle.
fn sides_of(rect: &Rect) -> Sides {
    (rect.x0(), rect.y0(), rect.x1(), rect.y1())
}
