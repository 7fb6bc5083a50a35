//! Orders and areas of arrangements that were written down by hand, or found at random and answered by a plain program
//! that compares all permutations of the lines and all cycles.
ghost use Rattle.std.specs.Prelude.{IfOk, All, ◌≤◌};
ghost use Rattle.layout_geom.specs.Rectangles.{Encloses};

use crate::{areas_of, order_of};
use layout_geom::{Area, Areas, Order, Rect, Rects};
use layout_limits::OutOfMemory;
use std::alloc::Global;
use std::test::Fail;

// The sides of a rectangle: left, top, right, bottom.
type Sides = [u16; 4];

// The lines of these sides. Those that do not lie on the page are left out.
fn lines_on(alloc: Global, page: &Rect, sides: &[Sides]) -> Result<Rects, OutOfMemory>
    ensures { IfOk result (λ lines. All (Encloses page.now) lines) }
{
    let mut lines = Rects::new(alloc);
    for [x0, y0, x1, y1] in sides {
        if let Some(line) = Rect::new(*x0, *y0, *x1, *y1) {
            if page.contains(&line) {
                lines.push(line)?;
            }
        }
    }
    Ok(lines)
}

// An order, or a cycle that forbids one.
#[derive(Clone, Copy)]
enum Read {
    Topological(&'static [u32]),
    Cycle(&'static [u32]),
}

// An area: its first position in the listing, the number of its lines, and the sides of its box.
type Stretch = (u32, u32, Sides);

// Lines on a page of 100 by 100 pixels, how they are read, and the areas in which they lie.
struct Case {
    name: &'static str,
    lines: &'static [Sides],
    read: Read,
    // None where the areas are not looked at.
    areas: Option<&'static [Stretch]>,
}

// The median height of the components of each page.
const MEDIAN: u16 = 10;

const CASES: [Case; 16] = [
    Case {
        name: "no lines",
        lines: &[],
        read: Read::Topological(&[]),
        areas: Some(&[]),
    },
    Case {
        name: "cycle of four",
        lines: &[
            [40, 0, 60, 10],
            [20, 20, 45, 30],
            [5, 40, 25, 50],
            [0, 60, 10, 70],
        ],
        read: Read::Cycle(&[0, 1, 2, 3]),
        areas: None,
    },
    Case {
        name: "cycle of five",
        lines: &[
            [7, 20, 12, 26],
            [17, 64, 29, 69],
            [11, 72, 19, 77],
            [20, 48, 23, 51],
            [10, 9, 21, 13],
            [6, 27, 17, 32],
            [17, 3, 24, 7],
            [3, 36, 7, 45],
            [3, 83, 12, 92],
            [21, 56, 24, 60],
        ],
        read: Read::Cycle(&[0, 5, 7, 6, 4]),
        areas: None,
    },
    Case {
        name: "heading over two columns",
        lines: &[
            [2, 2, 84, 12],
            [2, 14, 36, 24],
            [48, 14, 82, 24],
            [2, 26, 36, 36],
            [48, 26, 82, 36],
            [2, 38, 36, 48],
            [48, 38, 82, 48],
        ],
        read: Read::Topological(&[0, 1, 3, 5, 2, 4, 6]),
        areas: Some(&[(0, 4, [2, 2, 84, 48]), (4, 3, [48, 14, 82, 48])]),
    },
    Case {
        name: "two columns",
        lines: &[
            [2, 2, 36, 12],
            [48, 2, 82, 12],
            [2, 14, 36, 24],
            [48, 14, 82, 24],
            [2, 26, 36, 36],
            [48, 26, 82, 36],
        ],
        read: Read::Topological(&[0, 2, 4, 1, 3, 5]),
        areas: Some(&[(0, 3, [2, 2, 36, 36]), (3, 3, [48, 2, 82, 36])]),
    },
    Case {
        name: "next line at twice the median",
        lines: &[[0, 0, 10, 10], [0, 30, 10, 40]],
        read: Read::Topological(&[0, 1]),
        areas: Some(&[(0, 2, [0, 0, 10, 40])]),
    },
    Case {
        name: "next line behind twice the median",
        lines: &[[0, 0, 10, 10], [0, 31, 10, 41]],
        read: Read::Topological(&[0, 1]),
        areas: Some(&[(0, 1, [0, 0, 10, 10]), (1, 1, [0, 31, 10, 41])]),
    },
    Case {
        name: "first permutation of six",
        lines: &[
            [12, 35, 23, 43],
            [19, 24, 21, 29],
            [17, 7, 36, 15],
            [1, 39, 18, 45],
            [24, 5, 42, 9],
            [25, 3, 45, 9],
        ],
        read: Read::Topological(&[5, 4, 2, 1, 0, 3]),
        areas: None,
    },
    Case {
        name: "second permutation of six",
        lines: &[
            [36, 10, 40, 15],
            [15, 31, 31, 33],
            [18, 30, 31, 31],
            [31, 11, 43, 14],
            [37, 20, 47, 26],
            [25, 27, 40, 32],
        ],
        read: Read::Topological(&[0, 3, 4, 5, 2, 1]),
        areas: None,
    },
    Case {
        name: "third permutation of six",
        lines: &[
            [29, 6, 38, 8],
            [28, 2, 40, 9],
            [17, 12, 35, 15],
            [14, 12, 21, 19],
            [24, 14, 26, 15],
            [14, 15, 24, 16],
        ],
        read: Read::Topological(&[1, 0, 2, 3, 5, 4]),
        areas: None,
    },
    Case {
        name: "equal boxes keep their order",
        lines: &[
            [50, 0, 60, 10],
            [0, 0, 10, 10],
            [50, 0, 60, 10],
            [0, 0, 10, 10],
        ],
        read: Read::Topological(&[1, 3, 0, 2]),
        areas: None,
    },
    Case {
        name: "cycle of four among other lines",
        lines: &[
            [28, 32, 34, 36],
            [38, 5, 52, 12],
            [9, 18, 28, 25],
            [35, 0, 48, 8],
            [24, 7, 41, 13],
            [19, 34, 24, 42],
        ],
        read: Read::Cycle(&[1, 4, 2, 5]),
        areas: None,
    },
    Case {
        name: "cycle of five among other lines",
        lines: &[
            [18, 6, 30, 11],
            [8, 37, 17, 38],
            [26, 5, 34, 10],
            [16, 19, 29, 27],
            [0, 1, 9, 9],
            [32, 2, 45, 9],
        ],
        read: Read::Cycle(&[0, 3, 1, 5, 2]),
        areas: None,
    },
    Case {
        name: "first of two disjoint cycles",
        lines: &[
            [7, 51, 32, 57],
            [52, 2, 53, 5],
            [24, 56, 42, 60],
            [35, 21, 54, 25],
            [14, 44, 38, 46],
            [40, 52, 57, 54],
            [42, 42, 54, 46],
            [6, 59, 25, 64],
        ],
        read: Read::Cycle(&[0, 1, 3, 4]),
        areas: None,
    },
    Case {
        name: "first of two cycles of equal length",
        lines: &[
            [55, 9, 68, 14],
            [39, 5, 41, 11],
            [43, 21, 63, 27],
            [19, 36, 38, 40],
            [23, 30, 45, 36],
            [8, 19, 19, 24],
            [56, 40, 57, 42],
            [14, 43, 38, 47],
            [44, 5, 49, 11],
        ],
        read: Read::Cycle(&[0, 2, 4, 3]),
        areas: None,
    },
    // The numbers 1 6 5 2 are a cycle of four.
    Case {
        name: "longer cycle from the least number",
        lines: &[
            [26, 32, 42, 35],
            [40, 31, 55, 34],
            [49, 8, 69, 10],
            [50, 12, 74, 16],
            [22, 4, 33, 7],
            [24, 57, 25, 63],
            [19, 55, 41, 60],
            [33, 50, 55, 55],
        ],
        read: Read::Cycle(&[0, 6, 5, 2, 1]),
        areas: None,
    },
];

// Whether an order is the one that is meant.
fn is_read(order: &Order, read: Read) -> bool {
    match (order, read) {
        (Order::Topological(order), Read::Topological(numbers)) => order.as_slice() == numbers,
        (Order::Cycle(cycle), Read::Cycle(numbers)) => cycle.as_slice() == numbers,
        _ => false,
    }
}

// Whether these are the areas, each with its first position, its count and its box.
fn are_areas(areas: &Areas, stretches: &[Stretch]) -> bool {
    areas.len() == stretches.len()
        && areas
            .as_slice()
            .iter()
            .zip(stretches)
            .all(|(area, stretch)| is_area(area, stretch))
}

fn is_area(area: &Area, (first, count, sides): &Stretch) -> bool {
    let bbox = &area.bbox;
    area.first == *first
        && area.count == *count
        && [bbox.x0(), bbox.y0(), bbox.x1(), bbox.y1()] == *sides
}

// A page of 100 columns and 100 rows.
fn page() -> Rect {
    match Rect::new(0, 0, 100, 100) {
        Some(page) => page,
        None => unreachable!(),
    }
}

// As many lines as rows in each of the columns, 16 columns of pixels each, from a top row on, one row of pixels between
// two lines.
fn lines_in_columns(alloc: Global, columns: u16, rows: u16, top: u16) -> Result<Rects, OutOfMemory>
    requires columns { columns ≤ 100 }
    requires rows { rows ≤ 4000 }
    requires top { top ≤ 100 }
{
    let mut lines = Rects::new(alloc);
    for row in 0..rows {
        for column in 0..columns {
            let x0 = 20 * column;
            let y0 = top + 2 * row;
            if let Some(line) = Rect::new(x0, y0, x0 + 16, y0 + 1) {
                lines.push(line)?;
            }
        }
    }
    Ok(lines)
}

// Puts lines that form a cycle of four below a row of the first column.
fn push_cycle(lines: &mut Rects, row: u16) -> Result<(), OutOfMemory>
    requires { row ≤ 8000 }
{
    for [x0, y0, x1, y1] in [[10, 0, 15, 1], [5, 2, 11, 3], [2, 4, 7, 5], [0, 6, 3, 7]] {
        if let Some(line) = Rect::new(x0, row + y0, x1, row + y1) {
            lines.push(line)?;
        }
    }
    Ok(())
}

#[test]
fn lines_are_read_as_the_rules_say(rt: HostRuntime) -> Result<(), Fail> {
    for case in &CASES {
        let name = case.name;
        let lines = lines_on(rt.alloc(), &page(), case.lines)?;
        let order = order_of(rt.alloc(), &lines)?;
        assert!(rt; is_read(&order, case.read), "{name}");
    }
    Ok(())
}

#[test]
fn lines_fall_into_areas(rt: HostRuntime) -> Result<(), Fail> {
    for case in &CASES {
        let name = case.name;
        let lines = lines_on(rt.alloc(), &page(), case.lines)?;
        if let (Order::Topological(order), Some(stretches)) = (
            order_of(rt.alloc(), &lines)?,
            case.areas,
        ) {
            let areas = areas_of(rt.alloc(), &lines, &order, MEDIAN)?;
            assert!(rt; are_areas(&areas, stretches), "{name}");
        }
    }
    Ok(())
}

#[test]
fn two_columns_of_a_thousand_lines(rt: HostRuntime) -> Result<(), Fail> {
    let lines = lines_in_columns(rt.alloc(), 2, 1000, 0)?;
    match order_of(rt.alloc(), &lines)? {
        Order::Topological(order) => {
            assert!(rt; order.len() == 2000);
            for (place, number) in order.as_slice().iter().enumerate() {
                assert!(rt;
                    *number as usize
                        == if place < 1000 {
                            2 * place
                        } else {
                            2 * place - 1999
                        }
                );
            }
        }
        Order::Cycle(_) => assert!(rt; false),
    }
    Ok(())
}

#[test]
fn cycle_behind_two_thousand_lines(rt: HostRuntime) -> Result<(), Fail> {
    let mut lines = lines_in_columns(rt.alloc(), 2, 1000, 0)?;
    push_cycle(&mut lines, 2000)?;
    match order_of(rt.alloc(), &lines)? {
        Order::Topological(_) => assert!(rt; false),
        Order::Cycle(cycle) => assert!(rt; cycle.as_slice() == [2000, 2001, 2002, 2003].as_slice()),
    }
    Ok(())
}

// Each line of the column is behind the first cycle and before the second, and has a number below all that are on them.
#[test]
fn two_thousand_lines_between_two_cycles(rt: HostRuntime) -> Result<(), Fail> {
    let mut lines = lines_in_columns(rt.alloc(), 1, 2000, 8)?;
    push_cycle(&mut lines, 4008)?;
    push_cycle(&mut lines, 0)?;
    match order_of(rt.alloc(), &lines)? {
        Order::Topological(_) => assert!(rt; false),
        Order::Cycle(cycle) => assert!(rt; cycle.as_slice() == [2000, 2001, 2002, 2003].as_slice()),
    }
    Ok(())
}
