//! The areas that the lines of a page form in the order of a listing.
ghost use Rattle.std.specs.Prelude.{◌≡◌, ℕ, ◌+◌, ◌*◌, ◌<◌, ◌≤◌, ◌^◌, length, IfOk, IsTrue, ◌↔◌, All};
ghost use Rattle.std.specs.List.{range_with_len};
ghost use Rattle.std.specs.List.Sorted.{IsPermutation};
ghost use Rattle.layout_geom.specs.declared.rect.Rect.{Rect};
ghost use Rattle.layout_geom.specs.Rectangles.{Encloses};
ghost use Rattle.reading_order.specs.Areas.{GoesOn, line_at, IsArea, AreAreasOf};

use crate::rules::{overlap_in_x, twice_middle};
use layout_geom::{Area, Areas, Numbers, Rect, Rects};
use layout_limits::OutOfMemory;
use std::alloc::Global;

/// How many median heights lie at most between the end of a line and the next line of its area: lines of one text
/// stand nearer.
const MOST_GAP: u32 = 2;

/// Whether a line goes on below another.
fn goes_on(line: &Rect, next: &Rect, median: u16) -> bool
    ensures { IsTrue result ↔ GoesOn (MOST_GAP * median) line.now next.now }
{
    overlap_in_x(line, next)
        && twice_middle(line) < twice_middle(next)
        && next.y0() as u32 <= line.y1() as u32 + MOST_GAP * median as u32
}

/// The line at a position of a listing.
fn listed_line<'a>(lines: &'a Rects, listing: &Numbers, position: usize) -> &'a Rect
    requires position { position < length listing.now }
    requires low { All (λ k. k < length lines.now) listing.now }
    ensures { (d : Rect) → result.now ≡ line_at lines.now listing.now position d }
{
    lines.get(*listing.get(position) as usize)
}

/// The area that begins at a position.
fn area_at(lines: &Rects, listing: &Numbers, median: u16, first: usize) -> Area
    requires first { first < length listing.now }
    requires low { All (λ k. k < length lines.now) listing.now }
    requires contained { (page : Rect) × All (Encloses page) lines.now }
    ensures { IsArea lines.now listing.now (MOST_GAP * median) first result }
{
    let count = listing.len();
    let mut bbox = *listed_line(lines, listing, first);
    for position in first + 1..count {
        let line = listed_line(lines, listing, position - 1);
        let next = listed_line(lines, listing, position);
        if !goes_on(line, next, median) {
            return Area {
                first: first as u32,
                count: (position - first) as u32,
                bbox,
            };
        }
        bbox = bbox.hull(next);
    }
    Area {
        first: first as u32,
        count: (count - first) as u32,
        bbox,
    }
}

/// The areas of a page: the longest stretches of a listing of its lines in which each next line goes on below the one
/// before.
///
/// A line goes on below another where their x-ranges overlap, its middle is below that of the other, and it begins at
/// most `2 * median` rows below the end of the other (`next.y0 <= line.y1 + 2 * median`). `median` is the median height
/// of the page's components in pixels. An area has its first position in the listing, the number of its lines, and the
/// least rectangle round them.
///
/// The listing has each position of `lines` once, and one rectangle contains all lines, as those of a page do. For n
/// lines this takes time of n steps, and memory for the areas alone.
///
/// # Errors
///
/// Want of memory is the one refusal.
pub fn areas_of(
    alloc: Global,
    lines: &Rects,
    listing: &Numbers,
    median: u16,
) -> Result<Areas, OutOfMemory>
    requires listing { IsPermutation (range_with_len 0 (length lines.now)) listing.now }
    requires contained { (page : Rect) × All (Encloses page) lines.now }
    ensures areas { IfOk result (AreAreasOf lines.now listing.now median) }
{
    let mut areas = Areas::new(alloc);
    let mut first = 0;
    while first < listing.len() {
        let area = area_at(lines, listing, median, first);
        first += area.count as usize;
        areas.push(area)?;
    }
    Ok(areas)
}
