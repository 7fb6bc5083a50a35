//! Searches for white rectangles that were worked out by hand or by a plain program that lists them all.
mod by_hand;
mod covers;
mod plain;

use crate::White;
use box_search::{Alone, Noted, Searcher};
use chance::next_number;
use layout_geom::{Rect, Rects};
use layout_limits::OutOfMemory;
use plain::{Sides, best_of_all, chance_box};
use std::alloc::Global;
use std::process::Abort;
use std::test::Fail;

// The key of the rectangle `3 0 16 16`, worked out by hand.
pub(crate) const RIGHT: u64 = 114_349_209_264_115;

fn rect_of(rt: &impl Abort, sides: Sides) -> Rect {
    let (x0, y0, x1, y1) = sides;
    match Rect::new(x0, y0, x1, y1) {
        Some(rect) => rect,
        None => panic!(rt; "no rectangle"),
    }
}

fn rects_of(rt: &impl Abort, alloc: Global, all: &[Sides]) -> Result<Rects, OutOfMemory> {
    let mut rects = Rects::new(alloc);
    for &sides in all {
        rects.push(rect_of(rt, sides))?;
    }
    Ok(rects)
}

/// The white rectangles of a page with these obstacles.
pub(crate) fn white_of(
    rt: &impl Abort,
    alloc: Global,
    page: Sides,
    obstacles: &[Sides],
    least: u16,
) -> Result<White, OutOfMemory> {
    let obstacles = rects_of(rt, alloc, obstacles)?;
    Ok(White::new(rect_of(rt, page), obstacles, least))
}

/// What a search answers by its two calls for a page and the least size 8, and the note that the second leaves.
fn answers_of(
    rt: &impl Abort,
    alloc: Global,
    page: Sides,
    obstacles: &[Sides],
) -> Result<(u64, u64, u64), OutOfMemory> {
    let white = white_of(rt, alloc, page, obstacles, 8)?;
    let key = Alone.best(alloc, &white)?;
    let mut noted = Noted {
        space: &white,
        low: u64::MAX,
    };
    let again = Alone.best_on(alloc, &mut noted)?;
    Ok((key, again, noted.low))
}

#[test]
fn corner_block(rt: HostRuntime) -> Result<(), Fail> {
    let (key, again, low) = answers_of(&rt, rt.alloc(), (0, 0, 16, 16), &[(0, 0, 3, 3)])?;
    assert!(rt; key == RIGHT && again == RIGHT && low >= RIGHT);
    Ok(())
}

#[test]
fn page_below_the_least_size(rt: HostRuntime) -> Result<(), Fail> {
    let (key, again, low) = answers_of(&rt, rt.alloc(), (0, 0, 4, 4), &[])?;
    assert!(rt; key == 0 && again == 0 && low == u64::MAX);
    Ok(())
}

// A page, its obstacles, and the least size.
const PAGES: [(Sides, &[Sides], u16); 12] = [
    ((0, 0, 8, 8), &[], 1),
    ((0, 0, 8, 8), &[], 8),
    ((0, 0, 8, 7), &[], 8),
    ((1, 2, 7, 5), &[], 3),
    ((0, 0, 8, 8), &[(0, 0, 8, 8)], 1),
    // The four sides of a block leave strips of one area.
    ((0, 0, 8, 8), &[(3, 3, 5, 5)], 1),
    ((0, 0, 8, 8), &[(3, 3, 5, 5)], 3),
    ((0, 0, 8, 8), &[(3, 3, 5, 5)], 4),
    // Obstacles that touch, that overlap, and that reach over the sides of the page.
    ((0, 0, 8, 8), &[(2, 0, 4, 4), (4, 4, 6, 8)], 2),
    ((0, 0, 8, 8), &[(1, 1, 5, 4), (3, 2, 7, 6), (3, 2, 7, 6)], 1),
    ((2, 2, 6, 6), &[(0, 0, 3, 8), (5, 5, 20, 20)], 1),
    ((2, 2, 6, 6), &[(0, 0, 2, 8), (6, 0, 8, 8)], 2),
];

/// Whether the search finds what the plain program does.
fn finds_the_best(
    rt: &impl Abort,
    alloc: Global,
    page: Sides,
    obstacles: &[Sides],
    least: u16,
) -> Result<bool, OutOfMemory> {
    let white = white_of(rt, alloc, page, obstacles, least)?;
    let key = Alone.best(alloc, &white)?;
    let best = best_of_all(page, obstacles, least);
    let best_key = best.map_or(0, |sides| rect_of(rt, sides).key());
    Ok(key == best_key)
}

#[test]
fn small_pages_by_hand(rt: HostRuntime) -> Result<(), Fail> {
    for (page, obstacles, least) in PAGES {
        assert!(rt;
            finds_the_best(&rt, rt.alloc(), page, obstacles, least)?,
            "{page:?} {least}"
        );
    }
    Ok(())
}

#[test]
fn small_pages_by_chance(rt: HostRuntime) -> Result<(), Fail> {
    let mut number = 1;
    for turn in 0..200 {
        let mut obstacles: Vec<Sides> = Vec::new(rt.alloc());
        for _ in 0..turn % 12 {
            number = next_number(number);
            obstacles.push(chance_box(number, 8, 3))?;
        }
        assert!(rt;
            finds_the_best(&rt, rt.alloc(), (0, 0, 8, 8), &obstacles, turn % 3 + 1)?,
            "{turn}"
        );
    }
    Ok(())
}
