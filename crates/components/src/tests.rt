//! The kept boxes of pages that are drawn here.
ghost use Rattle.std.specs.Prelude.{◌≡◌, ◌<◌, ◌≤◌, ◌%◌, IfOk, length};
ghost use Rattle.components.specs.Page.{IsPageSize, row_len};
ghost use Rattle.components.specs.Packed.{IsWhole};

use crate::kept::{CompFault, components, is_char_sized, kept_is_unique};
use layout_geom::Rect;
use layout_limits::{MAX_SIDE, OutOfMemory};
use page_runs::{RowSink, RunPage};
use std::alloc::Global;
use std::process::Abort;
use std::test::Fail;

/// The packed bytes of a row.
fn row_of<F: Fn(u16, u16) -> bool>(
    alloc: Global,
    width: u16,
    y: u16,
    black: &F,
) -> Result<Vec<u8>, OutOfMemory>
    requires width { width ≤ MAX_SIDE }
    requires callable { F.IsAlwaysCallable black.now }
    ensures { IfOk result (λ bits. length bits.items ≡ row_len width) }
{
    let mut bits = vec![in alloc; 0u8; (usize::from(width) + 7) / 8]?;
    for x in 0..width {
        if black(x, y) {
            bits[usize::from(x) / 8] |= 128 >> (u32::from(x) % 8);
        }
    }
    Ok(bits)
}

/// The page whose black pixels pass the test.
fn made<F: Fn(u16, u16) -> bool>(
    alloc: Global,
    width: u16,
    height: u16,
    black: F,
) -> Result<RunPage, OutOfMemory>
    requires size { IsPageSize width height }
    requires full { width % 8 ≡ 0 }
    requires callable { F.IsAlwaysCallable black }
    ensures { IfOk result IsWhole }
{
    let mut page = RunPage::empty(alloc);
    page.begin(width, height)?;
    for y in 0..height {
        let bits = row_of(alloc, width, y, &black)?;
        page.push_row(&bits)?;
    }
    Ok(page)
}

/// What is drawn on a page of 16 by 16 pixels.
#[derive(Clone, Copy)]
enum Shape {
    White,
    Black,
    Speck,
    CornerBlock,
    TouchingCorners,
    RunsAtCorners,
    RingInRing,
    FrameRoundText,
    Comb,
    Diagonal,
    Checkers,
    Spiral,
    HookAndBlock,
}

const SPIRAL: [u16; 16] = [
    0b1111_1111_1111_1111,
    0b0000_0000_0000_0001,
    0b1111_1111_1111_1101,
    0b1000_0000_0000_0101,
    0b1011_1111_1111_0101,
    0b1010_0000_0001_0101,
    0b1010_1111_1101_0101,
    0b1010_1000_0101_0101,
    0b1010_1011_0101_0101,
    0b1010_1011_1101_0101,
    0b1010_1000_0001_0101,
    0b1010_1111_1111_0101,
    0b1010_0000_0000_0101,
    0b1011_1111_1111_1101,
    0b1000_0000_0000_0001,
    0b1111_1111_1111_1111,
];

fn is_black(shape: Shape, x: u16, y: u16) -> bool {
    let ring = x.abs_diff(7).max(y.abs_diff(7));
    match shape {
        Shape::White => false,
        Shape::Black => true,
        Shape::Speck => x / 2 == 3 && y / 2 == 3,
        Shape::CornerBlock => x < 3 && y < 3,
        Shape::TouchingCorners => x < 6 && y < 6 && x / 3 == y / 3,
        Shape::RunsAtCorners => { (y == 0 && (x < 2 || x == 3 || x == 4)) || (y == 1 && x == 2) }
        Shape::RingInRing => ring == 3 || ring == 6,
        Shape::FrameRoundText => {
            x == 0 || y == 0 || x == 15 || y == 15 || (x / 3 == 2 && y / 4 == 1)
        }
        Shape::Comb => x % 4 == 0 || y == 15,
        Shape::Diagonal => x == y,
        Shape::Checkers => x % 2 == y % 2,
        Shape::Spiral => y < 16 && (SPIRAL[usize::from(y)] >> (15 - x % 16)) % 2 == 1,
        Shape::HookAndBlock => { (x == 7 && y < 6) || (x < 7 && y == 5) || (x / 2 == 2 && y < 3) }
    }
}

/// The kept components of a shape are these boxes in this order, with this median.
fn check(
    rt: &impl Abort,
    alloc: Global,
    shape: Shape,
    boxes: &[[u16; 4]],
    median: u16,
) -> Result<(), Fail> {
    let page = made(alloc, 16, 16, |x, y| is_black(shape, x, y))?;
    let kept = components(alloc, &page)?;
    let found = kept.boxes.as_slice();
    assert_eq!(rt; found.len(), boxes.len());
    for (rect, want) in found.iter().zip(boxes) {
        assert!(rt; rect.x0() == want[0] && rect.y0() == want[1]);
        assert!(rt; rect.x1() == want[2] && rect.y1() == want[3]);
    }
    assert_eq!(rt; kept.median, median);
    Ok(())
}

/// Shapes, the boxes of their kept components, and the median of their heights.
const SHAPES: [(Shape, &[[u16; 4]], u16); 13] = [
    (Shape::White, &[], 0),
    (Shape::Black, &[[0, 0, 16, 16]], 16),
    (Shape::Speck, &[], 0),
    (Shape::CornerBlock, &[[0, 0, 3, 3]], 3),
    (Shape::TouchingCorners, &[[0, 0, 6, 6]], 6),
    (Shape::RunsAtCorners, &[[0, 0, 5, 2]], 2),
    (Shape::RingInRing, &[[1, 1, 14, 14], [4, 4, 11, 11]], 7),
    (Shape::FrameRoundText, &[[0, 0, 16, 16], [6, 4, 9, 8]], 4),
    (Shape::Comb, &[[0, 0, 16, 16]], 16),
    (Shape::Diagonal, &[[0, 0, 16, 16]], 16),
    (Shape::Checkers, &[[0, 0, 16, 16]], 16),
    (Shape::Spiral, &[[0, 0, 16, 16]], 16),
    (Shape::HookAndBlock, &[[0, 0, 8, 6], [4, 0, 6, 3]], 3),
];

#[test]
fn shapes_have_their_boxes(rt: HostRuntime) -> Result<(), Fail> {
    for (shape, boxes, median) in SHAPES {
        check(&rt, rt.alloc(), shape, boxes, median)?;
    }
    Ok(())
}

/// 250 blocks 3 wide and 1 high in each second row, and one more below them.
#[test]
fn more_than_60000_components_are_too_many(rt: HostRuntime) -> Result<(), Fail> {
    let page = made(
        rt.alloc(),
        1000,
        481,
        |x, y| x % 4 < 3 && y % 2 == 0 && (y < 480 || x < 4),
    )?;
    match components(rt.alloc(), &page) {
        Err(CompFault::TooMany { count }) => assert_eq!(rt; count, 60_001),
        _ => assert!(rt; false),
    }
    let page = made(
        rt.alloc(),
        1000,
        481,
        |x, y| x % 4 < 3 && y % 2 == 0 && y < 480,
    )?;
    let kept = components(rt.alloc(), &page)?;
    assert_eq!(rt; kept.boxes.len(), 60_000);
    assert_eq!(rt; kept.median, 1);
    Ok(())
}

#[test]
fn a_character_is_at_most_six_medians_wide(rt: HostRuntime) {
    let rect = Rect::new(0, 0, 60, 30).expect(&rt, "a rectangle");
    assert!(rt; is_char_sized(&rect, 10));
    assert!(rt; !is_char_sized(&rect, 9));
    assert!(rt; !is_char_sized(&rect, 61));
    kept_is_unique();
}
