//! Where a box stands: its segment between the gutters, and its place among the lines of a slope.
ghost use Rattle.std.specs.Prelude.{◌≡◌, ◌+◌, ◌<◌, ◌≤◌, ◌≤ℤ◌, ℕ, cond, nat_le, length, slice_index};
ghost use Rattle.line_quality.specs.Points.{IsSlope};
ghost use Rattle.line_counts.specs.Fits;
ghost use Rattle.line_counts.specs.Fits.{slope_of};

use crate::limits::{MAX_SEGMENTS, MAX_TABLE_GUTTERS, PLACES_ABOVE, PLACES_BEYOND, SLOPES};
use layout_geom::{Rect, Rects};
use line_quality::{LEAST_OFFSET, LEAST_SLOPE, OFFSET_MARGIN, crosses, height_at, middle};

/// The slope of a number.
pub(crate) fn slope(number: usize) -> i8
    requires { number < SLOPES }
    ensures value { result ≡ slope_of number }
    ensures of_grid { IsSlope result }
{
    number as i8 + LEAST_SLOPE
}

/// The place of a box at a slope.
pub(crate) fn place(slope: i8, rect: &Rect) -> usize
    requires { IsSlope slope }
    ensures value { result ≡ Fits.place_of slope rect.now }
    ensures within { result < rect.now.y1 + PLACES_BEYOND }
{
    let fit = rect.y1() as i32 - height_at(slope, 0, middle(rect));
    (fit + PLACES_ABOVE as i32).unsigned_abs() as usize
}

/// The segment of an anchor.
pub(crate) fn segment(gutters: &Rects, anchor: u16) -> usize
    ensures value { result ≡ Fits.segment_of gutters.now anchor }
    ensures few { result ≤ length gutters.now }
{
    gutters
        .as_slice()
        .iter()
        .filter(|gutter| middle(gutter) <= anchor)
        .count()
}

/// Counts one column more for the segments from one on.
fn begin_column(columns: &mut [usize], from: usize)
    requires long { length columns.old ≡ MAX_SEGMENTS }
    requires room { (of_segment : ℕ) → slice_index columns.old of_segment ≤ MAX_TABLE_GUTTERS }
    ensures long { length columns.new ≡ MAX_SEGMENTS }
    ensures value { (of_segment : ℕ) → of_segment < MAX_SEGMENTS
        → slice_index columns.new of_segment ≡ slice_index columns.old of_segment + cond (nat_le from of_segment) 1 0 }
    ensures small { (of_segment : ℕ) → slice_index columns.new of_segment ≤ slice_index columns.old of_segment + 1 }
{
    for of_segment in from..MAX_SEGMENTS {
        columns[of_segment] += 1;
    }
}

/// The column of each segment for the lines of a slope and an offset: how many crossed gutters have their middle in it or left of it.
pub(crate) fn columns(slope: i8, offset: i16, gutters: &Rects) -> [usize; MAX_SEGMENTS]
    requires { length gutters.now ≤ MAX_TABLE_GUTTERS }
    ensures value { (of_segment : ℕ) → of_segment < MAX_SEGMENTS
        → slice_index result of_segment ≡ Fits.column_of_segment slope offset gutters.now of_segment }
    ensures few { (of_segment : ℕ) → slice_index result of_segment ≤ length gutters.now }
{
    let mut columns = [0; MAX_SEGMENTS];
    for gutter in gutters.as_slice() {
        if crosses(slope, offset, gutter) {
            begin_column(columns.as_mut_slice(), segment(gutters, middle(gutter)));
        }
    }
    columns
}

/// The number of a slope.
pub(crate) fn number(slope: i8) -> usize
    requires { IsSlope slope }
    ensures value { slope_of result ≡ slope }
    ensures small { result < SLOPES }
{
    (slope - LEAST_SLOPE) as usize
}

/// The first place that weighs something for a line of this offset.
pub(crate) fn first_place(offset: i16) -> usize
    requires { LEAST_OFFSET ≤ℤ offset }
    ensures value { result ≡ Fits.first_place offset }
{
    (offset as i32 + OFFSET_MARGIN as i32).unsigned_abs() as usize
}
