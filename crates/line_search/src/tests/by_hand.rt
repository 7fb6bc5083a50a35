//! Lines that were worked out by hand.
use super::{PAGE, Sides, boxes_in, rects_of, sides_of};
use crate::characters::characters;
use crate::{Grid, Line, lines};
use box_search::{Alone, Noted, Searcher};
use components::Kept;
use layout_geom::Rect;
use layout_limits::MAX_SIDE;
use line_quality::MAX_GUTTERS;
use std::alloc::Global;
use std::process::Abort;
use std::test::Fail;

/// A line as it is worked out: slope, offset and depth, score, the first of its members and how many there are,
/// which have neighbouring positions, and its box.
pub(super) type Wanted = ((i8, i16, u8), u32, u32, u32, Sides);

/// A row of glyphs of 10 by 10 pixels: its upper side, and the left sides of the glyphs.
pub(super) type Row = (u16, &'static [u16]);

/// The kept boxes of a page, with rows of glyphs behind them, their median height, the gutters, the height of the
/// page and its lines.
#[derive(Clone, Copy)]
pub(super) struct Case {
    name: &'static str,
    boxes: &'static [Sides],
    rows: &'static [Row],
    pub(super) median: u16,
    pub(super) gutters: &'static [Sides],
    pub(super) height: u16,
    lines: &'static [Wanted],
}

const LINE: [u16; 3] = [10, 30, 50];

const COLUMNS: [u16; 6] = [2, 14, 26, 48, 60, 72];

const HEADING: [u16; 7] = [2, 14, 26, 38, 50, 62, 74];

/// What most of the cases have.
const USUAL: Case = Case {
    name: "",
    boxes: &[],
    rows: &[],
    median: 10,
    gutters: &[],
    height: 40,
    lines: &[],
};

/// Letters without tails and letters with tails four rows long, in turn.
const TAILS: [Sides; 5] = [
    (10, 10, 20, 30),
    (30, 10, 40, 34),
    (50, 10, 60, 30),
    (70, 10, 80, 34),
    (90, 10, 100, 30),
];

/// The same, only half as high.
const LOW_TAILS: [Sides; 5] = [
    (10, 20, 20, 30),
    (30, 20, 40, 34),
    (50, 20, 60, 30),
    (70, 20, 80, 34),
    (90, 20, 100, 30),
];

pub(super) const CASES: [Case; 11] = [
    Case {
        name: "no kept box",
        median: 0,
        height: 16,
        ..USUAL
    },
    Case {
        name: "three glyphs",
        rows: &[(10, &LINE)],
        lines: &[((0, 20, 0), 75, 0, 3, (10, 10, 60, 20))],
        ..USUAL
    },
    // The greatest score is 50.
    Case {
        name: "two glyphs",
        rows: &[(10, &[10, 30])],
        ..USUAL
    },
    // A rule above the glyphs, with its foot on their line, has not the size of a character.
    Case {
        name: "three glyphs and a rule",
        boxes: &[(0, 4, 100, 20)],
        rows: &[(10, &LINE)],
        lines: &[((0, 20, 0), 75, 1, 3, (10, 10, 60, 20))],
        ..USUAL
    },
    Case {
        name: "two columns",
        rows: &[(2, &COLUMNS), (14, &COLUMNS), (26, &COLUMNS)],
        gutters: &[(36, 0, 48, 41)],
        height: 41,
        lines: &[
            ((0, 12, 0), 75, 0, 3, (2, 2, 36, 12)),
            ((0, 12, 0), 75, 3, 3, (48, 2, 82, 12)),
            ((0, 24, 0), 75, 6, 3, (2, 14, 36, 24)),
            ((0, 24, 0), 75, 9, 3, (48, 14, 82, 24)),
            ((0, 36, 0), 75, 12, 3, (2, 26, 36, 36)),
            ((0, 36, 0), 75, 15, 3, (48, 26, 82, 36)),
        ],
        ..USUAL
    },
    // Without the gutter each line goes across.
    Case {
        name: "two columns, no gutter",
        rows: &[(2, &COLUMNS), (14, &COLUMNS), (26, &COLUMNS)],
        height: 41,
        lines: &[
            ((0, 12, 0), 150, 0, 6, (2, 2, 82, 12)),
            ((0, 24, 0), 150, 6, 6, (2, 14, 82, 24)),
            ((0, 36, 0), 150, 12, 6, (2, 26, 82, 36)),
        ],
        ..USUAL
    },
    // The feet of the heading stand on the top edge of the gutter, which does not cut it.
    Case {
        name: "heading over two columns",
        rows: &[
            (2, &HEADING),
            (14, &COLUMNS),
            (26, &COLUMNS),
            (38, &COLUMNS),
        ],
        gutters: &[(36, 12, 48, 53)],
        height: 53,
        lines: &[
            ((0, 12, 0), 175, 0, 7, (2, 2, 84, 12)),
            ((0, 24, 0), 75, 7, 3, (2, 14, 36, 24)),
            ((0, 24, 0), 75, 10, 3, (48, 14, 82, 24)),
            ((0, 36, 0), 75, 13, 3, (2, 26, 36, 36)),
            ((0, 36, 0), 75, 16, 3, (48, 26, 82, 36)),
            ((0, 48, 0), 75, 19, 3, (2, 38, 36, 48)),
            ((0, 48, 0), 75, 22, 3, (48, 38, 82, 48)),
        ],
        ..USUAL
    },
    Case {
        name: "letters with tails",
        boxes: &TAILS,
        median: 20,
        height: 60,
        lines: &[((0, 30, 4), 125, 0, 5, (10, 10, 100, 34))],
        ..USUAL
    },
    // At a third of the median the depth is at most three.
    Case {
        name: "low letters with tails",
        boxes: &LOW_TAILS,
        height: 60,
        lines: &[((0, 30, 3), 123, 0, 5, (10, 20, 100, 34))],
        ..USUAL
    },
    Case {
        name: "slanted line that sinks",
        boxes: &[(0, 20, 10, 30), (500, 25, 510, 35), (1000, 30, 1010, 40)],
        height: 60,
        lines: &[((10, 30, 0), 75, 0, 3, (0, 20, 1010, 40))],
        ..USUAL
    },
    Case {
        name: "slanted line that rises",
        boxes: &[(1000, 20, 1010, 30), (500, 25, 510, 35), (0, 30, 10, 40)],
        height: 60,
        lines: &[((-10, 41, 0), 75, 0, 3, (0, 20, 1010, 40))],
        ..USUAL
    },
];

/// The sides of the boxes of a case.
pub(super) fn sides_in(alloc: Global, case: &Case) -> Result<Vec<Sides>, Fail> {
    let mut all = Vec::from_slice(alloc, case.boxes)?;
    for (top, lefts) in case.rows {
        put_row(&mut all, *top, lefts)?;
    }
    Ok(all)
}

/// Puts the sides of the glyphs of a row behind the others.
fn put_row(all: &mut Vec<Sides>, top: u16, lefts: &[u16]) -> Result<(), Fail> {
    for left in lefts {
        all.push((*left, top, left.saturating_add(10), top.saturating_add(10)))?;
    }
    Ok(())
}

/// Compares a line with what was worked out.
fn compare(rt: &impl Abort, name: &str, line: &Line, wanted: Wanted) {
    let (point, score, first, count, sides) = wanted;
    assert_eq!(rt; (line.slope, line.offset, line.depth), point, "{name}");
    assert_eq!(rt; line.score, score, "{name}");
    assert_eq!(rt; sides_of(&line.bbox), sides, "{name}");
    assert_eq!(rt; line.members.len(), count as usize, "{name}");
    let mut next = first;
    for member in line.members.as_slice() {
        assert_eq!(rt; *member, next, "{name}");
        next = next.saturating_add(1);
    }
}

/// Compares the lines of a page with those that were worked out.
fn compare_page(rt: &impl Abort, alloc: Global, case: &Case) -> Result<(), Fail> {
    let (x0, y0, x1, y1) = PAGE;
    let page = Rect::new(x0, y0, x1, y1).ok_or("no rectangle")?;
    let kept = Kept {
        boxes: boxes_in(alloc, &page, &sides_in(alloc, case)?)?,
        median: case.median,
    };
    let gutters = rects_of(alloc, case.gutters)?;
    assert!(rt; kept.boxes.len() <= 60_000 && gutters.len() <= MAX_GUTTERS);
    assert!(rt; 1 <= case.height && case.height <= MAX_SIDE);
    let found = lines(alloc, &kept, &gutters, case.height, &mut Alone)?;
    assert_eq!(rt; found.len(), case.lines.len(), "{}", case.name);
    for (line, wanted) in found.as_slice().iter().zip(case.lines) {
        compare(rt, case.name, line, *wanted);
    }
    Ok(())
}

#[test]
fn lines_by_hand(rt: HostRuntime) -> Result<(), Fail> {
    for case in &CASES {
        compare_page(&rt, rt.alloc(), case)?;
    }
    Ok(())
}

#[test]
fn best_line_of_a_grid(rt: HostRuntime) -> Result<(), Fail> {
    // The key of score 75, slope 0, offset 20 and depth 0, worked out by hand.
    let cases = [(LINE.as_slice(), 40_798_060_223), (&[10, 30], 0)];
    for (lefts, key) in cases {
        let mut sides = Vec::new(rt.alloc());
        put_row(&mut sides, 10, lefts)?;
        let kept = Kept {
            boxes: rects_of(rt.alloc(), &sides)?,
            median: 10,
        };
        let gutters = rects_of(rt.alloc(), &[])?;
        assert!(rt; kept.boxes.len() <= 60_000 && gutters.len() == 0);
        let alive = characters(rt.alloc(), &kept)?;
        let grid = Grid::new(kept.boxes, alive, gutters, 40, kept.median);
        assert_eq!(rt; Alone.best(rt.alloc(), &grid)?, key);
        let mut noted = Noted {
            space: &grid,
            low: u64::MAX,
        };
        assert_eq!(rt; Alone.best_on(rt.alloc(), &mut noted)?, key);
        assert!(rt; key <= noted.low);
    }
    Ok(())
}
