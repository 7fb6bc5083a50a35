//! Gutters of pages whose boxes were written down by hand.
use crate::{gutters, is_gutter, stands_left, stands_right};
use components::Kept;
use layout_geom::{Rect, Rects};
use layout_limits::OutOfMemory;
use std::alloc::Global;
use std::process::Abort;
use std::test::Fail;

/// The rectangles of these sides, each `x0 y0 x1 y1`.
fn rects(alloc: Global, sides: &[[u16; 4]]) -> Result<Rects, Fail> {
    let mut rects = Rects::new(alloc);
    for [x0, y0, x1, y1] in sides {
        rects.push(Rect::new(*x0, *y0, *x1, *y1).ok_or("no rectangle")?)?;
    }
    Ok(rects)
}

/// Puts a block 10 by 10 at a place of a small page.
fn add_block(boxes: &mut Rects, x0: u16, y0: u16) -> Result<(), OutOfMemory> {
    if x0 <= 100 && y0 <= 100 {
        if let Some(block) = Rect::new(x0, y0, x0 + 10, y0 + 10) {
            boxes.push(block)?;
        }
    }
    Ok(())
}

/// Blocks at these places, each `x0 y0`.
fn blocks(alloc: Global, places: &[[u16; 2]]) -> Result<Kept, OutOfMemory> {
    let mut boxes = Rects::new(alloc);
    for [x0, y0] in places {
        add_block(&mut boxes, *x0, *y0)?;
    }
    Ok(Kept { boxes, median: 10 })
}

/// Puts a line of blocks at these columns.
fn add_line(boxes: &mut Rects, columns: &[u16], y0: u16) -> Result<(), OutOfMemory> {
    for x0 in columns {
        add_block(boxes, *x0, y0)?;
    }
    Ok(())
}

/// Puts a line of 6 blocks at each of these rows, in two columns of text.
fn add_two_columns(boxes: &mut Rects, rows: [u16; 3]) -> Result<(), OutOfMemory> {
    for y0 in rows {
        add_line(boxes, &[2, 14, 26, 48, 60, 72], y0)?;
    }
    Ok(())
}

/// Two columns of text.
fn two_columns(alloc: Global) -> Result<Kept, OutOfMemory> {
    let mut boxes = Rects::new(alloc);
    add_two_columns(&mut boxes, [2, 14, 26])?;
    Ok(Kept { boxes, median: 10 })
}

/// The same below a heading of 7 blocks.
fn heading_over_two_columns(alloc: Global) -> Result<Kept, OutOfMemory> {
    let mut boxes = Rects::new(alloc);
    add_line(&mut boxes, &[2, 14, 26, 38, 50, 62, 74], 2)?;
    add_two_columns(&mut boxes, [14, 26, 38])?;
    Ok(Kept { boxes, median: 10 })
}

/// Whether the gutters of these white rectangles are those of the wanted sides, in this order.
fn has_gutters(
    alloc: Global,
    kept: &Kept,
    whites: &[[u16; 4]],
    wanted: &[[u16; 4]],
) -> Result<bool, Fail> {
    let whites = rects(alloc, whites)?;
    let wanted = rects(alloc, wanted)?;
    let found = gutters(alloc, &whites, kept)?;
    Ok(found.as_slice() == wanted.as_slice())
}

#[test]
fn the_space_between_two_columns_is_a_gutter(rt: HostRuntime) -> Result<(), Fail> {
    let alloc = rt.alloc();
    let columns = two_columns(alloc)?;
    let between = [[36, 0, 48, 41]];
    assert!(rt; has_gutters(alloc, &columns, &between, &between)?);
    let headed = heading_over_two_columns(alloc)?;
    let below = [[36, 12, 48, 53]];
    assert!(rt; has_gutters(alloc, &headed, &below, &below)?);
    Ok(())
}

#[test]
fn gutters_keep_the_order_of_the_white_rectangles(rt: HostRuntime) -> Result<(), Fail> {
    let alloc = rt.alloc();
    let kept = two_columns(alloc)?;
    let whites = [
        [38, 0, 46, 41],
        [0, 12, 84, 14],
        [36, 0, 48, 41],
        [0, 36, 84, 41],
        [37, 0, 47, 41],
        [38, 0, 46, 41],
    ];
    let wanted = [
        [38, 0, 46, 41],
        [36, 0, 48, 41],
        [37, 0, 47, 41],
        [38, 0, 46, 41],
    ];
    assert!(rt; has_gutters(alloc, &kept, &whites, &wanted)?);
    assert!(rt; has_gutters(alloc, &kept, &[], &[])?);
    let none = blocks(alloc, &[])?;
    assert!(rt; has_gutters(alloc, &none, &whites, &[])?);
    Ok(())
}

/// Whether a white rectangle is a gutter among blocks at these places.
fn is_gutter_among(alloc: Global, sides: [u16; 4], places: &[[u16; 2]]) -> Result<bool, Fail> {
    let kept = blocks(alloc, places)?;
    let whites = rects(alloc, &[sides])?;
    Ok(
        whites
            .as_slice()
            .iter()
            .all(|white| is_gutter(white, &kept)),
    )
}

#[test]
fn a_gutter_is_slim_and_has_three_boxes_on_each_side(rt: HostRuntime) -> Result<(), Fail> {
    let alloc = rt.alloc();
    let three = [[10, 0], [10, 12], [10, 24], [30, 0], [30, 12], [30, 24]];
    // Exactly 3 times as high as wide, and one row less.
    assert!(rt; is_gutter_among(alloc, [20, 0, 30, 30], &three)?);
    assert!(rt; !is_gutter_among(alloc, [20, 0, 30, 29], &three)?);
    // Two boxes on the left, and then on the right.
    assert!(rt; !is_gutter_among(alloc, [20, 0, 30, 30], &three[1..])?);
    assert!(rt; !is_gutter_among(alloc, [20, 0, 30, 30], &three[..5])?);
    // Equal boxes count as often as they stand in the list.
    let equal = [[10, 0], [10, 0], [10, 0], [30, 0], [30, 0], [30, 0]];
    assert!(rt; is_gutter_among(alloc, [20, 0, 30, 30], &equal)?);
    // All boxes on one side.
    let left = [[0, 0], [0, 12], [0, 24], [10, 0], [10, 12], [10, 24]];
    assert!(rt; !is_gutter_among(alloc, [20, 0, 30, 30], &left)?);
    Ok(())
}

/// A box, and whether it stands on the left and on the right of the rectangle `40 20 50 60`,
/// where the median height is 10.
struct Beside {
    sides: [u16; 4],
    left: bool,
    right: bool,
}

const BESIDE: [Beside; 12] = [
    // At the rectangle's side, 20 columns off, and 21.
    Beside {
        sides: [30, 20, 40, 30],
        left: true,
        right: false,
    },
    Beside {
        sides: [10, 20, 20, 30],
        left: true,
        right: false,
    },
    Beside {
        sides: [9, 20, 19, 30],
        left: false,
        right: false,
    },
    Beside {
        sides: [50, 20, 60, 30],
        left: false,
        right: true,
    },
    Beside {
        sides: [70, 20, 80, 30],
        left: false,
        right: true,
    },
    Beside {
        sides: [71, 20, 81, 30],
        left: false,
        right: false,
    },
    // A column inside the rectangle.
    Beside {
        sides: [31, 20, 41, 30],
        left: false,
        right: false,
    },
    Beside {
        sides: [49, 20, 59, 30],
        left: false,
        right: false,
    },
    // One row in common, and none.
    Beside {
        sides: [30, 11, 40, 21],
        left: true,
        right: false,
    },
    Beside {
        sides: [30, 10, 40, 20],
        left: false,
        right: false,
    },
    Beside {
        sides: [50, 60, 60, 70],
        left: false,
        right: false,
    },
    // Less than half as high as the median.
    Beside {
        sides: [30, 20, 40, 24],
        left: false,
        right: false,
    },
];

#[test]
fn a_box_stands_at_most_two_medians_off(rt: HostRuntime) {
    let white = Rect::new(40, 20, 50, 60).expect(&rt, "a rectangle");
    for case in &BESIDE {
        let [x0, y0, x1, y1] = case.sides;
        let char_box = Rect::new(x0, y0, x1, y1).expect(&rt, "a rectangle");
        assert_eq!(rt; stands_left(&white, 10, &char_box), case.left);
        assert_eq!(rt; stands_right(&white, 10, &char_box), case.right);
    }
}
