//! The pages of the tests.
use box_search::Shape;
use layout_geom::{Rect, Rects};
use layout_limits::OutOfMemory;
use std::alloc::Global;
use std::process::Abort;
use whitespace_cover::White;

// The keys of the rectangles `3 0 16 16` and `0 3 16 16`, worked out by hand.
pub(crate) const RIGHT: u64 = 114_349_209_264_115;

pub(crate) const BELOW: u64 = 114_349_007_962_096;

/// The sides `x0`, `y0`, `x1`, `y1` of a rectangle.
pub(crate) type Sides = (u16, u16, u16, u16);

fn rect_of(rt: &impl Abort, sides: Sides) -> Rect {
    let (x0, y0, x1, y1) = sides;
    match Rect::new(x0, y0, x1, y1) {
        Some(rect) => rect,
        None => panic!(rt; "no rectangle"),
    }
}

/// The white rectangles of a page with these obstacles, at least 8 columns wide and 8 rows high.
pub(crate) fn white_of(
    rt: &impl Abort,
    alloc: Global,
    page: Sides,
    obstacles: &[Sides],
) -> Result<White, OutOfMemory> {
    let mut rects = Rects::new(alloc);
    for &sides in obstacles {
        rects.push(rect_of(rt, sides))?;
    }
    Ok(White::new(rect_of(rt, page), rects, 8))
}

/// A page of 16 by 16 pixels with a block in its corner. Its two greatest white rectangles are `3 0 16 16` and
/// `0 3 16 16`.
pub(crate) fn corner_block(rt: &impl Abort, alloc: Global) -> Result<White, OutOfMemory> {
    white_of(rt, alloc, (0, 0, 16, 16), &[(0, 0, 3, 3)])
}

/// The shape of a rectangle's node.
pub(crate) fn shape_of(sides: Sides) -> Shape {
    let (x0, y0, x1, y1) = sides;
    Shape {
        a0: x0 as i32,
        a1: x1 as i32,
        b0: y0 as i32,
        b1: y1 as i32,
        c0: 0,
        c1: 1,
    }
}
