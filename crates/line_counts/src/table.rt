//! The cells of a table, as boxes are counted and as they go.
ghost use Rattle.std.specs.Prelude.{◌≡◌, ◌+◌, ◌*◌, ◌<◌, ◌≤◌, ◌++◌, ℕ, List, [], length, All, slice_index};
ghost use Rattle.line_quality.specs.Points.{middle_of};
ghost use Rattle.line_counts.specs.Fits.{segment_of};
ghost use Rattle.line_counts.specs.Table;
ghost use Rattle.line_counts.specs.Table.{cell_of, IsWide, AreCounts, IsRaised};

use crate::fit::{place, segment, slope};
use crate::limits::{MAX_SEGMENTS, MAX_TABLE_BOXES, MAX_TABLE_GUTTERS, PLACES_BEYOND, SLOPES};
use layout_geom::{Rect, Rects};
use layout_limits::MAX_SIDE;
use line_quality::middle;

/// How wide a row has to be for a page of this height with these boxes.
pub(crate) fn width_for(height: u16, boxes: &[Rect]) -> usize
    requires { height ≤ MAX_SIDE }
    ensures { IsWide height boxes.now result }
{
    let mut lowest = height;
    for rect in boxes {
        lowest = lowest.max(rect.y1());
    }
    lowest as usize + PLACES_BEYOND as usize
}

/// Where a count stands among the cells.
pub(crate) fn cell(
    segments: usize,
    width: usize,
    number: usize,
    segment: usize,
    place: usize,
) -> usize
    requires segments { segments ≤ MAX_SEGMENTS }
    requires width { width ≤ MAX_SIDE + PLACES_BEYOND }
    requires number { number < SLOPES }
    requires segment { segment < segments }
    requires place { place < width }
    ensures value { result ≡ cell_of segments width number segment place }
    ensures within { result < SLOPES * segments * width }
{
    (number * segments + segment) * width + place
}

/// Where a box of a segment is counted at the slope of a number.
fn own_cell(gutters: &Rects, width: usize, rect: &Rect, of_box: usize, number: usize) -> usize
    requires wide { rect.now.y1 + PLACES_BEYOND ≤ width }
    requires small { width ≤ MAX_SIDE + PLACES_BEYOND }
    requires few_gutters { length gutters.now ≤ MAX_TABLE_GUTTERS }
    requires segment { of_box ≡ segment_of gutters.now (middle_of rect.now) }
    requires number { number < SLOPES }
    ensures value { result ≡ Table.own_cell gutters.now width rect.now number }
    ensures within { result < SLOPES * (length gutters.now + 1) * width }
{
    cell(
        gutters.len() + 1,
        width,
        number,
        of_box,
        place(slope(number), rect),
    )
}

/// Counts one more box: one up at each slope.
fn raise(cells: &mut [u16], gutters: &Rects, width: usize, rect: &Rect)
    requires wide { rect.now.y1 + PLACES_BEYOND ≤ width }
    requires small { width ≤ MAX_SIDE + PLACES_BEYOND }
    requires few_gutters { length gutters.now ≤ MAX_TABLE_GUTTERS }
    requires long { length cells.old ≡ SLOPES * (length gutters.now + 1) * width }
    requires room { (number : ℕ) → number < SLOPES
        → slice_index cells.old (Table.own_cell gutters.now width rect.now number) < MAX_TABLE_BOXES }
    ensures { IsRaised gutters.now width rect.now cells.old cells.new }
{
    let of_box = segment(gutters, middle(rect));
    for number in 0..SLOPES {
        cells[own_cell(gutters, width, rect, of_box, number)] += 1;
    }
}

/// Counts one box less: one down at each slope.
fn lower(cells: &mut [u16], gutters: &Rects, width: usize, rect: &Rect)
    requires wide { rect.now.y1 + PLACES_BEYOND ≤ width }
    requires small { width ≤ MAX_SIDE + PLACES_BEYOND }
    requires few_gutters { length gutters.now ≤ MAX_TABLE_GUTTERS }
    requires long { length cells.old ≡ SLOPES * (length gutters.now + 1) * width }
    requires some { (number : ℕ) → number < SLOPES
        → 0 < slice_index cells.old (Table.own_cell gutters.now width rect.now number) }
    ensures { IsRaised gutters.now width rect.now cells.new cells.old }
{
    let of_box = segment(gutters, middle(rect));
    for number in 0..SLOPES {
        cells[own_cell(gutters, width, rect, of_box, number)] -= 1;
    }
}

/// Counts the boxes at the positions.
pub(crate) fn count_all(
    cells: &mut [u16],
    boxes: &Rects,
    gutters: &Rects,
    width: usize,
    positions: &[u32],
)
    requires wide { (height : ℕ) × IsWide height boxes.now width }
    requires few_gutters { length gutters.now ≤ MAX_TABLE_GUTTERS }
    requires few { length positions.now ≤ MAX_TABLE_BOXES }
    requires within { All (λ position. position < length boxes.now) positions.now }
    requires none { AreCounts boxes.now gutters.now width [] cells.old }
    ensures { AreCounts boxes.now gutters.now width positions.now cells.new }
{
    for position in positions {
        raise(cells, gutters, width, boxes.get(*position as usize));
    }
}

/// Counts the boxes at the members of a longer list no more.
pub(crate) fn lower_all(
    cells: &mut [u16],
    boxes: &Rects,
    gutters: &Rects,
    width: usize,
    members: &[u32],
)
    requires wide { (height : ℕ) × IsWide height boxes.now width }
    requires few_gutters { length gutters.now ≤ MAX_TABLE_GUTTERS }
    requires within { All (λ position. position < length boxes.now) members.now }
    requires all { (others : List ℕ) × AreCounts boxes.now gutters.now width (members.now ++ others) cells.old }
    ensures { (others : List ℕ) → AreCounts boxes.now gutters.now width (members.now ++ others) cells.old
        → AreCounts boxes.now gutters.now width others cells.new }
{
    for member in members {
        lower(cells, gutters, width, boxes.get(*member as usize));
    }
}
