//! Values that were worked out by hand from the definitions.
ghost use Rattle.std.specs.Prelude.{◌≡◌, ◌<◌, ◌≤◌, IfOk, All, length};

use crate::{
    MAX_GUTTERS, Score, column, crosses, greatest, height_at, line_key, middle, point_of, score_at,
    weight, weight_at,
};
use layout_geom::{Numbers, Rect, Rects};
use layout_limits::OutOfMemory;
use std::alloc::Global;
use std::test::Fail;

type Sides = (u16, u16, u16, u16);

fn rects(alloc: Global, sides: &[Sides]) -> Result<Rects, Fail>
    ensures { IfOk result (λ boxes. length boxes ≡ length sides.now) }
{
    let mut boxes = Rects::new(alloc);
    for (x0, y0, x1, y1) in sides {
        match Rect::new(*x0, *y0, *x1, *y1) {
            Some(r) => boxes.push(r)?,
            None => Err("no rectangle")?,
        }
    }
    Ok(boxes)
}

/// All positions below a number.
fn positions(alloc: Global, count: u32) -> Result<Numbers, OutOfMemory>
    ensures within { IfOk result (All (λ position. position < count)) }
    ensures few { IfOk result (λ alive. length alive ≤ count) }
{
    let mut alive = Numbers::new(alloc);
    for position in 0..count {
        alive.push(position)?;
    }
    Ok(alive)
}

// Three glyphs on a line that sinks by ten thousandths, and on one that rises.
const SINKING: [Sides; 3] = [(0, 20, 10, 30), (500, 25, 510, 35), (1000, 30, 1010, 40)];

const RISING: [Sides; 3] = [(1000, 20, 1010, 30), (500, 25, 510, 35), (0, 30, 10, 40)];

// The left sides of the glyphs of a row of two columns of three, and the gutter between them.
const ROW: [u16; 6] = [2, 14, 26, 48, 60, 72];

const GUTTER: [Sides; 1] = [(36, 0, 48, 41)];

// Those of a heading of seven, whose feet stand on the top edge of the gutter below it.
const HEADING: [u16; 7] = [2, 14, 26, 38, 50, 62, 74];

const BELOW: [Sides; 1] = [(36, 12, 48, 53)];

/// The boxes of a case: given by their sides, or a row of glyphs of 10 by 10 pixels with their feet at 12, given by
/// their left sides.
#[derive(Clone, Copy)]
enum Boxes {
    Given(&'static [Sides]),
    Row(&'static [u16]),
}

/// The glyphs of a row.
fn glyphs(alloc: Global, lefts: &[u16]) -> Result<Rects, Fail> {
    let mut boxes = Rects::new(alloc);
    for left in lefts {
        boxes.push(Rect::new(*left, 2, left.saturating_add(10), 12).ok_or("no rectangle")?)?;
    }
    Ok(boxes)
}

/// The boxes of a case.
fn boxes_of(alloc: Global, boxes: Boxes) -> Result<Rects, Fail> {
    match boxes {
        Boxes::Given(sides) => rects(alloc, sides),
        Boxes::Row(lefts) => glyphs(alloc, lefts),
    }
}

#[test]
fn heights_are_rounded_towards_the_lesser_number(rt: HostRuntime) {
    let cases = [
        (10, 5, 0),
        (10, 505, 5),
        (10, 1005, 10),
        (-10, 5, -1),
        (-10, 505, -6),
        (-10, 1005, -11),
        (-32, 8191, -263),
        (32, 8191, 262),
    ];
    for (slope, x, rise) in cases {
        assert_eq!(rt; height_at(slope, 0, x), rise, "slope {slope} at {x}");
        assert_eq!(rt;
            height_at(slope, -300, x),
            rise - 300,
            "slope {slope} at {x}"
        );
    }
}

#[test]
fn a_weight_falls_by_the_square(rt: HostRuntime) -> Result<(), Fail> {
    let glyph = Rect::new(2, 2, 13, 12).ok_or("no rectangle")?;
    assert_eq!(rt; middle(&glyph), 7);
    let cases = [
        (7, 0),
        (8, 9),
        (9, 16),
        (10, 21),
        (11, 24),
        (12, 25),
        (13, 24),
        (14, 21),
        (15, 16),
        (16, 9),
        (17, 0),
        (8492, 0),
        (-300, 0),
    ];
    for (offset, expected) in cases {
        assert_eq!(rt; weight(0, offset, 0, &glyph), expected, "offset {offset}");
    }
    assert_eq!(rt; weight_at(4), 9);
    Ok(())
}

#[test]
fn a_weight_is_that_of_the_nearer_line(rt: HostRuntime) -> Result<(), Fail> {
    // The foot stands at 34; the baselines at 30, the descenders `depth` rows below.
    let tail = Rect::new(30, 10, 40, 34).ok_or("no rectangle")?;
    let cases = [(0, 9), (1, 16), (3, 24), (4, 25), (8, 9), (9, 9), (63, 9)];
    for (depth, expected) in cases {
        assert_eq!(rt; weight(0, 30, depth, &tail), expected, "depth {depth}");
    }
    let low = Rect::new(30, 10, 40, 93).ok_or("no rectangle")?;
    assert_eq!(rt; weight(0, 30, 63, &low), 25);
    assert_eq!(rt; weight(0, 30, 62, &low), 24);
    assert_eq!(rt; weight(0, 60, 29, &low), 9);
    Ok(())
}

#[test]
fn a_gutter_is_crossed_below_its_top_edge(rt: HostRuntime) -> Result<(), Fail> {
    let gutter = Rect::new(36, 12, 48, 53).ok_or("no rectangle")?;
    let cases = [
        (11, false),
        (12, false),
        (13, true),
        (53, true),
        (54, false),
    ];
    for (offset, crossed) in cases {
        assert_eq!(rt; crosses(0, offset, &gutter), crossed, "offset {offset}");
    }
    Ok(())
}

#[test]
fn a_column_is_counted_from_the_left(rt: HostRuntime) -> Result<(), Fail> {
    // The middles are 42, 42, 92 and 60, and the last is not crossed.
    let gutters = rects(
        rt.alloc(),
        &[
            (36, 0, 48, 41),
            (41, 9, 44, 90),
            (90, 5, 94, 12),
            (55, 12, 65, 90),
        ],
    )?;
    assert_eq!(rt; gutters.len(), 4);
    let cases = [
        (0, 0),
        (41, 0),
        (42, 2),
        (60, 2),
        (91, 2),
        (92, 3),
        (8191, 3),
    ];
    for (anchor, expected) in cases {
        assert_eq!(rt;
            column(0, 12, &gutters, anchor),
            expected,
            "anchor {anchor}"
        );
    }
    Ok(())
}

#[test]
fn a_score_is_that_of_the_best_column(rt: HostRuntime) -> Result<(), Fail> {
    let none: [Sides; 0] = [];
    let sinking = Boxes::Given(&SINKING);
    let rising = Boxes::Given(&RISING);
    let row = Boxes::Row(&ROW);
    let heading = Boxes::Row(&HEADING);
    let (cut, below, whole) = (GUTTER.as_slice(), BELOW.as_slice(), none.as_slice());
    let cases = [
        ("no box", 0, 12, Boxes::Given(&[]), whole, 0, 0),
        ("sinking", 10, 30, sinking, whole, 75, 0),
        ("sinking, one row lower", 10, 31, sinking, whole, 72, 0),
        ("sinking, but flat", 0, 35, sinking, whole, 25, 0),
        ("rising", -10, 41, rising, whole, 75, 0),
        ("rising, one row higher", -10, 40, rising, whole, 72, 0),
        ("two columns, no gutter", 0, 12, row, whole, 150, 0),
        ("two columns, a tie", 0, 12, row, cut, 75, 0),
        ("two columns, far above", 0, 0, row, cut, 0, 0),
        ("heading, on the top edge", 0, 12, heading, below, 175, 0),
        ("heading, cut: four to three", 0, 13, heading, below, 96, 1),
    ];
    for (name, slope, offset, boxes, gutters, score, column) in cases {
        let boxes = boxes_of(rt.alloc(), boxes)?;
        let gutters = rects(rt.alloc(), gutters)?;
        assert!(rt; boxes.len() <= 60_000 && gutters.len() <= MAX_GUTTERS);
        let alive = positions(rt.alloc(), boxes.len() as u32)?;
        let found = score_at(slope, offset, 0, &boxes, &alive, &gutters);
        assert_eq!(rt; found, Score { score, column }, "{name}");
    }
    Ok(())
}

#[test]
fn only_living_boxes_count(rt: HostRuntime) -> Result<(), Fail> {
    let boxes = glyphs(rt.alloc(), &ROW)?;
    let gutters = rects(rt.alloc(), &GUTTER)?;
    assert!(rt; boxes.len() == 6);
    let mut alive = Numbers::new(rt.alloc());
    alive.push(3)?;
    alive.push(5)?;
    let found = score_at(0, 12, 0, &boxes, &alive, &gutters);
    assert_eq!(rt;
        found,
        Score {
            score: 50,
            column: 1
        }
    );
    assert_eq!(rt;
        greatest(&[3, 5, 5]),
        Score {
            score: 5,
            column: 1
        }
    );
    Ok(())
}

#[test]
fn a_key_ranks_its_line(rt: HostRuntime) {
    assert_eq!(rt; line_key(75, 0, 20, 0), 40_798_060_223);

    // At score 0, the greatest depth and offset -300 the key shows the rank of the slope.
    let cases = [
        (0, 0),
        (1, 1),
        (-1, 2),
        (2, 3),
        (-2, 4),
        (31, 61),
        (-31, 62),
        (32, 63),
        (-32, 64),
    ];
    for (slope, rank) in cases {
        assert_eq!(rt;
            line_key(0, slope, -300, 63),
            (64 - rank) * 65_536 + 65_535,
            "slope {slope}"
        );
    }
}

#[test]
fn a_key_tells_its_line(rt: HostRuntime) {
    let cases = [
        (75, 0, 20, 0),
        (0, -32, 8492, 63),
        (1_500_000, 32, -300, 1),
        (60, -1, 0, 62),
    ];
    for (score, slope, offset, depth) in cases {
        let key = line_key(score, slope, offset, depth);
        assert_eq!(rt; point_of(key), (slope, offset, depth), "score {score}");
    }
}
