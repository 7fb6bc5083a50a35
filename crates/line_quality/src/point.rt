//! A line of the grid, by its slope in thousandths, its offset and its depth in rows: its height at a column,
//! what a box weighs for it, and the gutters that it crosses.
ghost use Rattle.std.specs.Prelude.{◌≡◌, ◌<◌, ◌≤◌, ◌↔◌, IsTrue, length, pos, negsuc, ◌≤ℤ◌};
ghost use Rattle.line_quality.specs.Points;
ghost use Rattle.line_quality.specs.Points.{IsRounded, Crosses};

use crate::limits::{MAX_GUTTERS, MAX_WEIGHT};
use layout_geom::{Rect, Rects};

/// The height of a line at a column of the page, counted in rows from the top: the offset and
/// `slope * x / 1000`, rounded towards the lesser number. It is a border between two rows, as the
/// foot `y1` of a box is.
pub fn height_at(slope: i8, offset: i16, x: u16) -> i32
    ensures value { result ≡ Points.height_at slope offset x }
    ensures rounded { IsRounded slope offset x result }
    ensures low { negsuc 49999 ≤ℤ result }
    ensures high { result ≤ℤ pos 50000 }
{
    offset as i32 + (slope as i32 * x as i32).div_euclid(1000)
}

/// The middle column of a rectangle, rounded down: the anchor of a box, and where a line meets a
/// gutter.
pub fn middle(rect: &Rect) -> u16
    ensures value { result ≡ Points.middle_of rect.now }
{
    ((rect.x0() as u32 + rect.x1() as u32) / 2) as u16
}

/// What a foot weighs that is this many rows from a line: 25 on it, and nothing from five rows on.
/// It falls by the square, as in Breuel's search for baselines by least squares (2002).
pub fn weight_at(deviation: u32) -> u32
    ensures value { result ≡ Points.weight_at deviation }
{
    if deviation < 5 {
        MAX_WEIGHT - deviation * deviation
    } else {
        0
    }
}

/// What a box weighs for a line, by how far its foot is at its middle column from the line, or from the line of the
/// descenders, `depth` rows below, where that is nearer. The feet of p, g, y and of commas stand there.
pub fn weight(slope: i8, offset: i16, depth: u8, rect: &Rect) -> u32
    ensures value { result ≡ Points.weight slope offset depth rect.now }
    ensures small { result ≤ MAX_WEIGHT }
{
    let foot = rect.y1() as i32;
    let height = height_at(slope, offset, middle(rect));
    let descent = height + depth as i32;
    weight_at(height.abs_diff(foot).min(descent.abs_diff(foot)))
}

/// Whether a line crosses a gutter: whether at the gutter's middle column it passes below the top
/// edge and not below the foot. A heading whose feet stand on the top edge is not cut by the gutter.
pub fn crosses(slope: i8, offset: i16, gutter: &Rect) -> bool
    ensures crossing { IsTrue result ↔ Crosses slope offset gutter.now }
    ensures value { result ≡ Points.is_crossed slope offset gutter.now }
{
    let height = height_at(slope, offset, middle(gutter));
    (gutter.y0() as i32) < height && height <= gutter.y1() as i32
}

/// The column of an anchor: how many of the gutters that the line crosses have their middle at the
/// anchor or to its left.
pub fn column(slope: i8, offset: i16, gutters: &Rects, anchor: u16) -> u32
    requires { length gutters.now ≤ MAX_GUTTERS }
    ensures value { result ≡ Points.column_of slope offset gutters.now anchor }
    ensures few { result ≤ length gutters.now }
{
    gutters
        .as_slice()
        .iter()
        .filter(|gutter| crosses(slope, offset, gutter) && middle(gutter) <= anchor)
        .count() as u32
}
