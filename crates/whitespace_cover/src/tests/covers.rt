//! Greedy covers that were worked out by hand.
use super::plain::{Sides, chance_box};
use super::{rect_of, rects_of};
use crate::{White, cover, cover_is_unique};
use box_search::{Alone, Searcher};
use chance::next_number;
use layout_geom::{Rect, Rects};
use layout_limits::OutOfMemory;
use std::alloc::Global;
use std::process::Abort;
use std::test::Fail;

/// A page with its boxes, and the rectangles of its cover in their order.
#[derive(Clone, Copy)]
struct Case {
    page: Sides,
    boxes: &'static [Sides],
    least: u16,
    count: u32,
    rects: &'static [Sides],
}

const THREE_GLYPHS: [Sides; 3] = [(10, 10, 20, 20), (30, 10, 40, 20), (50, 10, 60, 20)];

const CASES: [Case; 6] = [
    // A block in the corner. Below it the rows are too few.
    Case {
        page: (0, 0, 16, 16),
        boxes: &[(0, 0, 3, 3)],
        least: 8,
        count: 32,
        rects: &[(3, 0, 16, 16)],
    },
    // The second rectangle touches the block and the first.
    Case {
        page: (0, 0, 40, 40),
        boxes: &[(0, 0, 20, 20)],
        least: 20,
        count: 32,
        rects: &[(20, 0, 40, 40), (0, 20, 20, 40)],
    },
    Case {
        page: (0, 0, 100, 40),
        boxes: &[(10, 10, 20, 20), (30, 10, 40, 20)],
        least: 10,
        count: 32,
        rects: &[
            (40, 0, 100, 40),
            (0, 20, 40, 40),
            (0, 0, 40, 10),
            (0, 10, 10, 20),
            (20, 10, 30, 20),
        ],
    },
    Case {
        page: (0, 0, 100, 40),
        boxes: &THREE_GLYPHS,
        least: 10,
        count: 32,
        rects: &[
            (0, 20, 100, 40),
            (0, 0, 100, 10),
            (60, 10, 100, 20),
            (0, 10, 10, 20),
            (20, 10, 30, 20),
            (40, 10, 50, 20),
        ],
    },
    // The count ends a list that could go on.
    Case {
        page: (0, 0, 100, 40),
        boxes: &THREE_GLYPHS,
        least: 10,
        count: 2,
        rects: &[(0, 20, 100, 40), (0, 0, 100, 10)],
    },
    Case {
        page: (0, 0, 100, 40),
        boxes: &THREE_GLYPHS,
        least: 10,
        count: 0,
        rects: &[],
    },
];

#[test]
fn covers_by_hand(rt: HostRuntime) -> Result<(), Fail> {
    for case in CASES {
        let page = rect_of(&rt, case.page);
        let boxes = rects_of(&rt, rt.alloc(), case.boxes)?;
        assert!(rt; 1 <= case.least && case.count <= 256 && boxes.len() <= 60_000);
        let found = cover(rt.alloc(), page, &boxes, case.least, case.count, &mut Alone)?;
        let expected = rects_of(&rt, rt.alloc(), case.rects)?;
        assert!(rt; found.as_slice() == expected.as_slice());
    }
    cover_is_unique();
    Ok(())
}

/// The cover by searches behind the boxes themselves, without an index.
fn plain_cover(
    alloc: Global,
    page: Rect,
    boxes: &Rects,
    least: u16,
    count: u32,
) -> Result<Rects, OutOfMemory> {
    let mut found = Rects::new(alloc);
    for _ in 0..count {
        let mut obstacles = Rects::new(alloc);
        for rect in boxes.as_slice() {
            obstacles.push(*rect)?;
        }
        for rect in found.as_slice() {
            obstacles.push(*rect)?;
        }
        let key = Alone.best(alloc, &White::new(page, obstacles, least))?;
        let Some(rect) = Rect::of_key(key) else {
            return Ok(found);
        };
        found.push(rect)?;
    }
    Ok(found)
}

/// Boxes by chance, so close together that most of them become bars.
fn chance_boxes(
    rt: &impl Abort,
    alloc: Global,
    seed: u64,
    count: u16,
) -> Result<Rects, OutOfMemory> {
    let mut boxes = Rects::new(alloc);
    let mut number = seed;
    for _ in 0..count {
        number = next_number(number);
        boxes.push(rect_of(rt, chance_box(number, 200, 12)))?;
    }
    Ok(boxes)
}

// Boxes over several cells of the index, and so many rectangles that some are beyond the reach of the masks.
#[test]
fn bars_and_cells_change_no_cover(rt: HostRuntime) -> Result<(), Fail> {
    let page = rect_of(&rt, (0, 0, 210, 200));
    for turn in 0..8_u16 {
        let boxes = chance_boxes(&rt, rt.alloc(), turn as u64 + 7, 60 + 10 * turn)?;
        assert!(rt; boxes.len() <= 60_000);
        let found = cover(rt.alloc(), page, &boxes, 4 + turn, 48, &mut Alone)?;
        let expected = plain_cover(rt.alloc(), page, &boxes, 4 + turn, 48)?;
        assert!(rt; found.as_slice() == expected.as_slice(), "{turn}");
    }
    Ok(())
}
