//! What all lines of a shape have in common: how near they pass to a box, and which gutters they cross.
ghost use Rattle.std.specs.Prelude.{◌≡◌, ◌+◌, ◌≤◌, Some, pos, negsuc, ◌≤ℤ◌};
ghost use Rattle.std.specs.Int.{int_gap};
ghost use Rattle.line_counts.specs.Plain;
ghost use Rattle.line_search.specs.Bounds;
ghost use Rattle.line_counts.specs.Shapes.{IsInGrid};

use box_search::Shape;
use layout_geom::Rect;
use layout_limits::MAX_SIDE;
use line_quality::{MAX_DEPTH, MAX_WEIGHT, height_at, middle, weight_at};

/// The slope of a shape that is nearest to 0.
pub(crate) fn nearest_slope(shape: &Shape) -> i8
    requires { IsInGrid MAX_SIDE MAX_DEPTH shape.now }
    ensures { result ≡ Plain.nearest_slope shape.now }
{
    shape.a0.max((shape.a1 - 1).min(0)) as i8
}

/// The least and the greatest height of the lines of the shape at a column.
fn heights(shape: &Shape, anchor: u16) -> (i32, i32)
    requires { IsInGrid MAX_SIDE MAX_DEPTH shape.now }
    ensures lowest { result.0 ≡ Plain.lowest shape.now anchor }
    ensures highest { result.1 ≡ Plain.highest shape.now anchor }
    ensures low { (negsuc 49999 ≤ℤ result.0) × (result.0 ≤ℤ pos 50000) }
    ensures high { (negsuc 49999 ≤ℤ result.1) × (result.1 ≤ℤ pos 50000) }
{
    let lowest = height_at(shape.a0 as i8, shape.b0 as i16, anchor);
    let highest = height_at((shape.a1 - 1) as i8, (shape.b1 - 1) as i16, anchor);
    (lowest, highest)
}

/// How far a foot is from the interval between two heights.
fn gap_to(lowest: i32, highest: i32, foot: u16) -> u32
    requires low { (negsuc 59999 ≤ℤ lowest) × (lowest ≤ℤ pos 60000) }
    requires high { (negsuc 59999 ≤ℤ highest) × (highest ≤ℤ pos 60000) }
    ensures { result ≡ int_gap (pos foot) lowest + int_gap highest (pos foot) }
{
    let above = (lowest - foot as i32).max(0);
    let below = (foot as i32 - highest).max(0);
    above as u32 + below as u32
}

/// The most that a box can weigh for a line of the shape: it stands on a baseline, or on a line of descenders.
pub(crate) fn most_weight(shape: &Shape, rect: &Rect) -> u32
    requires { IsInGrid MAX_SIDE MAX_DEPTH shape.now }
    ensures value { result ≡ Bounds.most_weight shape.now (Some rect.now) }
    ensures small { result ≤ MAX_WEIGHT }
{
    let foot = rect.y1();
    let (lowest, highest) = heights(shape, middle(rect));
    let from_line = gap_to(lowest, highest, foot);
    let from_descenders = gap_to(lowest + shape.c0, highest + (shape.c1 - 1), foot);
    weight_at(from_line.min(from_descenders))
}

/// Whether all lines of the shape cross a gutter.
pub(crate) fn all_cross(shape: &Shape, gutter: &Rect) -> bool
    requires { IsInGrid MAX_SIDE MAX_DEPTH shape.now }
    ensures { result ≡ Bounds.all_cross shape.now gutter.now }
{
    let (lowest, highest) = heights(shape, middle(gutter));
    (gutter.y0() as i32) < lowest && highest <= gutter.y1() as i32
}
