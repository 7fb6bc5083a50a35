//! Cells of boxes that were written down by hand.
ghost use Rattle.std.specs.Prelude.{IfOk, All};
ghost use Rattle.layout_geom.specs.declared.rect.Rect.{Rect};
ghost use Rattle.layout_geom.specs.Rectangles.{Encloses};

use crate::{Cell, Cells, MAX_CUTS, Side, cells, cells_alone, cells_are_unique};
use layout_geom::{Rect, Rects};
use std::alloc::Global;
use std::process::Abort;
use std::test::Fail;
use std::thread::Threads;

/// A cell: the digits of its path, how many boxes it has, and its box as `x0 y0 x1 y1`.
type Wanted<'a> = (&'a str, u32, [u16; 4]);

/// Boxes, and their cells where a band has at least `t` columns or rows.
struct Case<'a> {
    name: &'a str,
    boxes: &'a [[u16; 4]],
    t: u16,
    cells: &'a [Wanted<'a>],
}

const TWO_COLUMNS: [[u16; 4]; 18] = [
    [2, 2, 12, 12],
    [14, 2, 24, 12],
    [26, 2, 36, 12],
    [48, 2, 58, 12],
    [60, 2, 70, 12],
    [72, 2, 82, 12],
    [2, 14, 12, 24],
    [14, 14, 24, 24],
    [26, 14, 36, 24],
    [48, 14, 58, 24],
    [60, 14, 70, 24],
    [72, 14, 82, 24],
    [2, 26, 12, 36],
    [14, 26, 24, 36],
    [26, 26, 36, 36],
    [48, 26, 58, 36],
    [60, 26, 70, 36],
    [72, 26, 82, 36],
];

const UNDER_A_HEADING: [[u16; 4]; 25] = [
    [2, 2, 12, 12],
    [14, 2, 24, 12],
    [26, 2, 36, 12],
    [38, 2, 48, 12],
    [50, 2, 60, 12],
    [62, 2, 72, 12],
    [74, 2, 84, 12],
    [2, 14, 12, 24],
    [14, 14, 24, 24],
    [26, 14, 36, 24],
    [48, 14, 58, 24],
    [60, 14, 70, 24],
    [72, 14, 82, 24],
    [2, 26, 12, 36],
    [14, 26, 24, 36],
    [26, 26, 36, 36],
    [48, 26, 58, 36],
    [60, 26, 70, 36],
    [72, 26, 82, 36],
    [2, 38, 12, 48],
    [14, 38, 24, 48],
    [26, 38, 36, 48],
    [48, 38, 58, 48],
    [60, 38, 70, 48],
    [72, 38, 82, 48],
];

const CASES: [Case; 11] = [
    Case {
        name: "two columns",
        boxes: &TWO_COLUMNS,
        t: 10,
        cells: &[("0", 9, [2, 2, 36, 36]), ("1", 9, [48, 2, 82, 36])],
    },
    Case {
        name: "columns, rows and blocks: the widest band, then the upper ones, then the left ones",
        boxes: &TWO_COLUMNS,
        t: 2,
        cells: &[
            ("000", 1, [2, 2, 12, 12]),
            ("0010", 1, [14, 2, 24, 12]),
            ("0011", 1, [26, 2, 36, 12]),
            ("0100", 1, [2, 14, 12, 24]),
            ("01010", 1, [14, 14, 24, 24]),
            ("01011", 1, [26, 14, 36, 24]),
            ("0110", 1, [2, 26, 12, 36]),
            ("01110", 1, [14, 26, 24, 36]),
            ("01111", 1, [26, 26, 36, 36]),
            ("100", 1, [48, 2, 58, 12]),
            ("1010", 1, [60, 2, 70, 12]),
            ("1011", 1, [72, 2, 82, 12]),
            ("1100", 1, [48, 14, 58, 24]),
            ("11010", 1, [60, 14, 70, 24]),
            ("11011", 1, [72, 14, 82, 24]),
            ("1110", 1, [48, 26, 58, 36]),
            ("11110", 1, [60, 26, 70, 36]),
            ("11111", 1, [72, 26, 82, 36]),
        ],
    },
    Case {
        name: "a heading closes the band between columns",
        boxes: &UNDER_A_HEADING,
        t: 10,
        cells: &[("", 25, [2, 2, 84, 48])],
    },
    Case {
        name: "no boxes",
        boxes: &[],
        t: 1,
        cells: &[],
    },
    Case {
        name: "one box",
        boxes: &[[3, 4, 5, 6]],
        t: 1,
        cells: &[("", 1, [3, 4, 5, 6])],
    },
    Case {
        name: "equal boxes",
        boxes: &[
            [20, 0, 30, 10],
            [0, 0, 10, 10],
            [20, 0, 30, 10],
            [0, 0, 10, 10],
        ],
        t: 10,
        cells: &[("0", 2, [0, 0, 10, 10]), ("1", 2, [20, 0, 30, 10])],
    },
    Case {
        name: "boxes inside one another",
        boxes: &[
            [0, 0, 40, 40],
            [2, 2, 4, 4],
            [30, 30, 38, 38],
            [50, 3, 52, 5],
        ],
        t: 3,
        cells: &[("0", 3, [0, 0, 40, 40]), ("1", 1, [50, 3, 52, 5])],
    },
    Case {
        name: "a band down and one across that are as wide",
        boxes: &[
            [0, 0, 10, 10],
            [12, 0, 22, 10],
            [0, 12, 10, 22],
            [12, 12, 22, 22],
        ],
        t: 2,
        cells: &[
            ("00", 1, [0, 0, 10, 10]),
            ("01", 1, [12, 0, 22, 10]),
            ("10", 1, [0, 12, 10, 22]),
            ("11", 1, [12, 12, 22, 22]),
        ],
    },
    Case {
        name: "the wider band first",
        boxes: &[[0, 0, 10, 10], [12, 0, 22, 10], [25, 0, 35, 10]],
        t: 2,
        cells: &[
            ("00", 1, [0, 0, 10, 10]),
            ("01", 1, [12, 0, 22, 10]),
            ("1", 1, [25, 0, 35, 10]),
        ],
    },
    Case {
        name: "a band that is one column too narrow",
        boxes: &[[0, 0, 10, 10], [12, 0, 22, 10]],
        t: 3,
        cells: &[("", 2, [0, 0, 22, 10])],
    },
    Case {
        name: "boxes that touch",
        boxes: &[[0, 0, 10, 10], [10, 0, 20, 10]],
        t: 1,
        cells: &[("", 2, [0, 0, 20, 10])],
    },
];

/// Boxes of these sides, on a page.
fn boxes_of(rt: &impl Abort, alloc: Global, sides: &[[u16; 4]]) -> Result<Rects, Fail>
    ensures { IfOk result (λ boxes. (outer : Rect) × All (Encloses outer) boxes) }
{
    let page = Rect::new(0, 0, 8192, 4096).expect(rt, "a page");
    let mut boxes = Rects::new(alloc);
    for [x0, y0, x1, y1] in sides {
        let rect = Rect::new(*x0, *y0, *x1, *y1).expect(rt, "a box");
        assert!(rt; page.contains(&rect));
        boxes.push(rect)?;
    }
    Ok(boxes)
}

/// The cells of boxes by either call.
fn both<R: Threads + Abort + Sync>(
    rt: &R,
    alloc: Global,
    sides: &[[u16; 4]],
    t: u16,
) -> Result<[Cells; 2], Fail> {
    assert!(rt; 1 <= t);
    let boxes = boxes_of(rt, alloc, sides)?;
    Ok([cells_alone(alloc, &boxes, t)?, cells(rt, alloc, &boxes, t)?])
}

/// Whether a cell has this path, so many boxes and this box.
fn is_cell(cell: &Cell, wanted: &Wanted<'_>) -> bool {
    let (digits, count, [x0, y0, x1, y1]) = *wanted;
    let sides = cell.path.as_slice();
    sides.len() == digits.len()
        && sides
            .iter()
            .zip(digits.bytes())
            .all(|(side, digit)| (*side == Side::After) == (digit == b'1'))
        && cell.count == count
        && Rect::new(x0, y0, x1, y1) == Some(cell.bbox)
}

#[test]
fn boxes_have_the_cells_of_the_cases(rt: HostRuntime) -> Result<(), Fail> {
    for case in &CASES {
        for cells in both(&rt, rt.alloc(), case.boxes, case.t)? {
            let cells = cells.into_vec();
            assert!(rt; cells.len() == case.cells.len(), "{}", case.name);
            let same = cells
                .iter()
                .zip(case.cells)
                .all(|(cell, wanted)| is_cell(cell, wanted));
            assert!(rt; same, "{}", case.name);
        }
    }
    Ok(())
}

/// Looks that boxes have so many cells by either call, and the last of them so many boxes behind as many cuts as there may be.
fn ends_with<R: Threads + Abort + Sync>(
    rt: &R,
    alloc: Global,
    sides: &[[u16; 4]],
    t: u16,
    (number, last): (usize, u32),
) -> Result<(), Fail> {
    for cells in both(rt, alloc, sides, t)? {
        let cells = cells.into_vec();
        assert_eq!(rt; cells.len(), number);
        let cell = cells.last().ok_or("no cell")?;
        assert_eq!(rt; (cell.path.len(), cell.count), (MAX_CUTS, last));
    }
    Ok(())
}

/// Each box lies two columns and two rows behind the one before it, and each cut parts off one.
#[test]
fn a_staircase_of_70_boxes_has_65_cells(rt: HostRuntime) -> Result<(), Fail> {
    let mut sides = Vec::new(rt.alloc());
    for step in 0u16..70 {
        sides.push([3 * step, 3 * step, 3 * step + 1, 3 * step + 1])?;
    }
    ends_with(&rt, rt.alloc(), &sides, 2, (65, 6))
}

/// In each of 4000 places 15 equal boxes, which a cut parts off together.
#[test]
fn a_row_of_60_000_boxes_has_65_cells(rt: HostRuntime) -> Result<(), Fail> {
    let mut sides = Vec::new(rt.alloc());
    for number in 0u16..60_000 {
        let x0 = number % 4000 * 2;
        sides.push([x0, 0, x0 + 1, 9])?;
    }
    ends_with(&rt, rt.alloc(), &sides, 1, (65, 59_040))
}

/// Rows of 300 boxes with a white row behind each: 64 rows are cut off, the first by one cut, and what is left of its 64
/// cuts parts off a box each.
#[test]
fn a_grid_of_60_000_boxes_has_2081_cells(rt: HostRuntime) -> Result<(), Fail> {
    let mut sides = Vec::new(rt.alloc());
    for number in 0u16..60_000 {
        let x0 = number % 300 * 2;
        let y0 = number / 300 * 2;
        sides.push([x0, y0, x0 + 1, y0 + 1])?;
    }
    ends_with(&rt, rt.alloc(), &sides, 1, (2081, 40_800))
}

#[test]
fn the_law_is_stated(_rt: HostRuntime) {
    cells_are_unique();
}
