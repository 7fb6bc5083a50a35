//! Pages whose grid is made in both of its forms: as lists alone, and with a table of keys.
ghost use Rattle.std.specs.Prelude.{◌≡◌, ◌≤◌, IfOk, OnOk, All};
ghost use Rattle.layout_geom.specs.declared.rect.Rect.{Rect};
ghost use Rattle.layout_geom.specs.Rectangles.{Encloses};

use super::by_hand::{CASES, sides_in};
use super::{PAGE, Sides, boxes_in, rects_of};
use crate::Grid;
use crate::characters::characters;
use crate::greedy::copy_of;
use box_search::{Alone, Searcher};
use chance::next_number;
use components::Kept;
use layout_geom::Rect;
use layout_limits::{MAX_SIDE, OutOfMemory};
use line_quality::MAX_GUTTERS;
use std::alloc::Global;
use std::process::Abort;
use std::test::Fail;

/// A box 6 high whose left side and whose top follow from a number.
fn box_of(number: u64) -> Sides {
    let (x0, y0) = ((number >> 40) % 500, (number >> 52) % 24);
    (x0 as u16, y0 as u16, x0 as u16 + 6, y0 as u16 + 6)
}

/// A gutter 10 wide whose left side and whose rows follow from a number.
fn gutter_of(number: u64) -> Sides {
    let (x0, y0) = ((number >> 40) % 500, (number >> 52) % 16);
    let height = (number >> 58) % 14 + 1;
    (x0 as u16, y0 as u16, x0 as u16 + 10, (y0 + height) as u16)
}

/// The key of the best line of a grid, 0 where there is none. The line is then taken.
fn next_key(alloc: Global, grid: &mut Grid) -> Result<u64, OutOfMemory>
    requires high { grid.old.height ≤ MAX_SIDE }
    requires contained { (outer : Rect) × All (Encloses outer) grid.old.boxes }
    ensures boxes { OnOk result (grid.new.boxes ≡ grid.old.boxes) }
    ensures height { OnOk result (grid.new.height ≡ grid.old.height) }
{
    grid.sharpen();
    let key = Alone.best(alloc, grid)?;
    if key > 0 {
        let _line = grid.take_line(alloc, key)?;
    }
    Ok(key)
}

/// Takes the lines of a grid in both forms, and compares their keys.
fn compare_forms(
    rt: &impl Abort,
    alloc: Global,
    plain: &mut Grid,
    counted: &mut Grid,
) -> Result<(), Fail>
    requires plain_high { plain.old.height ≤ MAX_SIDE }
    requires counted_high { counted.old.height ≤ MAX_SIDE }
    requires plain_contained { (outer : Rect) × All (Encloses outer) plain.old.boxes }
    requires counted_contained { (outer : Rect) × All (Encloses outer) counted.old.boxes }
{
    for _ in 0..20 {
        let key = next_key(alloc, plain)?;
        assert_eq!(rt; next_key(alloc, counted)?, key);
        if key == 0 {
            return Ok(());
        }
    }
    Err("too many lines")?
}

/// Compares the two forms of the grid of a page.
fn compare_page(
    rt: &impl Abort,
    alloc: Global,
    sides: &[Sides],
    gutter_sides: &[Sides],
    height: u16,
    median: u16,
) -> Result<(), Fail> {
    let (x0, y0, x1, y1) = PAGE;
    let page = Rect::new(x0, y0, x1, y1).ok_or("no rectangle")?;
    let kept = Kept {
        boxes: boxes_in(alloc, &page, sides)?,
        median,
    };
    let gutters = rects_of(alloc, gutter_sides)?;
    assert!(rt; kept.boxes.len() <= 60_000 && gutters.len() <= MAX_GUTTERS);
    assert!(rt; 1 <= height && height <= MAX_SIDE);
    let alive = characters(alloc, &kept)?;
    let others = characters(alloc, &kept)?;
    let boxes = copy_of(alloc, &kept.boxes)?;
    let walls = copy_of(alloc, &gutters)?;
    let mut plain = Grid::new(boxes, alive, walls, height, median);
    let mut counted = Grid::with_keys(alloc, kept.boxes, others, gutters, height, median)?;
    compare_forms(rt, alloc, &mut plain, &mut counted)
}

#[test]
fn pages_by_hand_in_both_forms(rt: HostRuntime) -> Result<(), Fail> {
    for case in &CASES {
        let sides = sides_in(rt.alloc(), case)?;
        compare_page(
            &rt,
            rt.alloc(),
            &sides,
            case.gutters,
            case.height,
            case.median,
        )?;
    }
    Ok(())
}

// With 73 gutters there is no table.
#[test]
fn pages_by_chance_in_both_forms(rt: HostRuntime) -> Result<(), Fail> {
    let mut number = 1;
    for gutter_count in [0, 2, 17, 73] {
        let mut boxes: Vec<Sides> = Vec::new(rt.alloc());
        for _ in 0..30 {
            number = next_number(number);
            boxes.push(box_of(number))?;
        }
        let mut gutters: Vec<Sides> = Vec::new(rt.alloc());
        for _ in 0..gutter_count {
            number = next_number(number);
            gutters.push(gutter_of(number))?;
        }
        compare_page(&rt, rt.alloc(), &boxes, &gutters, 30, 12)?;
    }
    Ok(())
}
