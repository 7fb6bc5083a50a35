//! Values that were worked out by hand from the definitions.
ghost use Rattle.std.specs.Prelude.{◌≡◌, ◌≤◌, ◌∷◌, [], IfOk, length};

use crate::{Counts, Keys, Stretch, fits_table};
use box_search::Shape;
use layout_geom::{Numbers, Rect, Rects};
use layout_limits::OutOfMemory;
use line_quality::{Score, line_key};
use std::alloc::Global;
use std::test::Fail;

type Sides = (u16, u16, u16, u16);

// Three glyphs left of a gutter, the last with its foot 3 rows deeper, and four right of it, before another gutter.
const BOXES: [Sides; 7] = [
    (2, 2, 12, 12),
    (14, 2, 24, 12),
    (26, 5, 36, 15),
    (48, 2, 58, 12),
    (60, 2, 70, 12),
    (72, 3, 82, 13),
    (84, 2, 94, 12),
];

const GUTTERS: [Sides; 2] = [(96, 0, 100, 41), (36, 0, 48, 41)];

/// The positions of the glyphs on either side.
const LEFT: [u32; 3] = [0, 1, 2];

const RIGHT: [u32; 4] = [3, 4, 5, 6];

fn rects(alloc: Global, sides: &[Sides]) -> Result<Rects, Fail>
    ensures { IfOk result (λ boxes. length boxes ≡ length sides.now) }
{
    let mut boxes = Rects::new(alloc);
    for (x0, y0, x1, y1) in sides {
        match Rect::new(*x0, *y0, *x1, *y1) {
            Some(r) => boxes.push(r)?,
            None => Err("no rectangle")?,
        }
    }
    Ok(boxes)
}

fn numbers(alloc: Global, positions: &[u32]) -> Result<Numbers, OutOfMemory>
    requires { length positions.now ≤ 60000 }
    ensures { IfOk result (λ numbers. numbers ≡ positions.now) }
{
    Ok(Numbers::from_vec(Vec::from_slice(alloc, positions)?))
}

/// The page of the boxes, all of them alive.
fn page(alloc: Global) -> Result<Counts, Fail>
    ensures height { IfOk result (λ counts. counts.height ≡ 40) }
    ensures alive { IfOk result (λ counts. counts.alive ≡ 3 ∷ 4 ∷ 5 ∷ 6 ∷ 0 ∷ 1 ∷ 2 ∷ []) }
{
    let boxes = rects(alloc, &BOXES)?;
    let gutters = rects(alloc, &GUTTERS)?;
    let alive = numbers(alloc, &[3, 4, 5, 6, 0, 1, 2])?;
    Ok(Counts::new(alloc, boxes, alive, gutters, 40)?)
}

#[test]
fn scores_come_from_counts(rt: HostRuntime) -> Result<(), Fail> {
    let counts = page(rt.alloc())?;
    let cases = [
        ("left 66, right 99", 0, 12, 0, 99, 1),
        ("a foot one row deeper", 0, 12, 1, 100, 1),
        ("left 75, right 99", 0, 12, 3, 99, 1),
        ("by the descenders alone", 0, 7, 5, 99, 1),
        ("above both gutters", 0, 0, 12, 165, 0),
        ("below all", 0, 60, 63, 0, 0),
        ("sinking", 32, 11, 0, 98, 1),
        ("rising", -32, 14, 0, 94, 1),
    ];
    for (name, slope, offset, depth, score, column) in cases {
        let found = counts.score(slope, offset, depth);
        assert_eq!(rt; found, Score { score, column }, "{name}");
    }
    Ok(())
}

#[test]
fn the_greatest_key_is_that_of_what_is_left(rt: HostRuntime) -> Result<(), Fail> {
    let mut counts = page(rt.alloc())?;
    let all = Stretch {
        slope: 0,
        from: -300,
        offsets: 641,
        shallowest: 0,
        deepest: 6,
    };
    assert_eq!(rt; counts.greatest(&all, 60), line_key(100, 0, 12, 1));
    assert_eq!(rt;
        counts.greatest(&Stretch { deepest: 0, ..all }, 60),
        line_key(99, 0, 12, 0)
    );
    assert_eq!(rt; counts.greatest(&all, 101), 0);
    counts.take(&RIGHT, numbers(rt.alloc(), &LEFT)?);
    assert_eq!(rt; counts.greatest(&all, 60), line_key(75, 0, 12, 3));
    assert_eq!(rt; counts.alive().as_slice(), LEFT.as_slice());
    Ok(())
}

const GRID: Shape = Shape {
    a0: -32,
    a1: 33,
    b0: -300,
    b1: 341,
    c0: 0,
    c1: 7,
};

#[test]
fn bounds_are_sharp_at_the_greatest_key_as_boxes_go(rt: HostRuntime) -> Result<(), Fail> {
    let mut keys = Keys::new(rt.alloc(), page(rt.alloc())?, 60, 6)?;
    keys.sharpen();
    assert_eq!(rt; keys.bound(&GRID), line_key(100, 0, 12, 1));
    keys.take(&RIGHT, numbers(rt.alloc(), &LEFT)?);
    keys.sharpen();
    assert_eq!(rt; keys.bound(&GRID), line_key(75, 0, 12, 3));
    assert_eq!(rt; keys.counts().alive().len(), 3);
    Ok(())
}

#[test]
fn parts_of_blocks_are_scored_by_their_own_lines(rt: HostRuntime) -> Result<(), Fail> {
    let keys = Keys::new(rt.alloc(), page(rt.alloc())?, 60, 6)?;
    let level = Shape {
        a0: 0,
        a1: 1,
        ..GRID
    };
    let no_depth = Shape { c1: 1, ..level };
    assert_eq!(rt; keys.bound(&no_depth), line_key(99, 0, 12, 0));
    let some_offsets = Shape {
        b0: 12,
        b1: 14,
        ..level
    };
    assert_eq!(rt; keys.bound(&some_offsets), line_key(100, 0, 12, 1));
    let one_line = Shape {
        b0: 7,
        b1: 8,
        c0: 5,
        c1: 6,
        ..level
    };
    assert_eq!(rt; keys.bound(&one_line), line_key(99, 0, 7, 5));
    let too_low = Shape {
        b0: 60,
        b1: 61,
        c0: 6,
        ..level
    };
    assert_eq!(rt; keys.bound(&too_low), 0);
    Ok(())
}

/// So many gutters, all at the same place.
fn gutters(alloc: Global, count: u32) -> Result<Rects, Fail> {
    let mut gutters = Rects::new(alloc);
    for _ in 0..count {
        gutters.push(Rect::new(36, 0, 48, 41).ok_or("no rectangle")?)?;
    }
    Ok(gutters)
}

#[test]
fn pages_with_few_gutters_get_a_table(rt: HostRuntime) -> Result<(), Fail> {
    let cases = [
        (2, 8192, true),
        (40, 8192, true),
        (41, 8192, false),
        (72, 4385, true),
        (72, 4386, false),
        (73, 100, false),
    ];
    for (count, height, fits) in cases {
        let found = fits_table(height, &gutters(rt.alloc(), count)?);
        assert_eq!(rt; found, fits, "{count} gutters, {height} rows");
    }
    Ok(())
}
