//! The widest band between boxes, in one walk over the boxes by where they begin.
ghost use Rattle.std.specs.Prelude.{◌≤◌, ◌<◌, length, IfOk};
ghost use Rattle.std.specs.List.Sorted.{IsNonDecreasingBy};
ghost use Rattle.xy_cut.specs.Bands.{start_of};
ghost use Rattle.xy_cut.specs.Widest.{IsInOrder, IsWidestAlong, IsBestOf};

use crate::axis::Axis;
use crate::band::{Band, wider};
use layout_geom::{Rect, Rects};
use layout_limits::OutOfMemory;
use std::alloc::Global;

/// The boxes by where they begin along an axis.
fn in_order(alloc: Global, axis: Axis, boxes: &Rects) -> Result<Vec<Rect>, OutOfMemory>
    ensures { IfOk result (λ line. IsInOrder axis boxes.now line.items) }
{
    let mut line = Vec::from_slice(alloc, boxes.as_slice())?;
    line.sort_unstable_by_key(|rect| axis.start(rect));
    Ok(line)
}

/// The widest band along an axis of at least `least` columns or rows, and the first of several, between boxes in order.
fn widest_in(axis: Axis, line: &[Rect], least: u16) -> Option<Band>
    requires some { 0 < length line.now }
    requires least { 1 ≤ least }
    requires sorted { IsNonDecreasingBy (start_of axis) line.now }
    ensures { IsWidestAlong axis line.now least result }
{
    let mut widest = None;
    let mut end = axis.end(&line[0]);
    for place in 1..line.len() {
        let next = &line[place];
        let band = Band {
            axis,
            low: end,
            high: axis.start(next),
        };
        if least <= band.width() {
            widest = Some(wider(widest, band));
        }
        end = end.max(axis.end(next));
    }
    widest
}

/// The widest band along an axis of at least `least` columns or rows, and the first of several.
fn widest_along(
    alloc: Global,
    axis: Axis,
    boxes: &Rects,
    least: u16,
) -> Result<Option<Band>, OutOfMemory>
    requires some { 0 < length boxes.now }
    requires least { 1 ≤ least }
    ensures { IfOk result (IsWidestAlong axis boxes.now least) }
{
    let line = in_order(alloc, axis, boxes)?;
    Ok(widest_in(axis, &line, least))
}

/// The best band between boxes: the widest of at least `least` columns or rows, of two as wide the one that goes across
/// the page, and then the first.
pub(crate) fn best_band(
    alloc: Global,
    boxes: &Rects,
    least: u16,
) -> Result<Option<Band>, OutOfMemory>
    requires some { 0 < length boxes.now }
    requires least { 1 ≤ least }
    ensures { IfOk result (IsBestOf boxes.now least) }
{
    let across = widest_along(alloc, Axis::Across, boxes, least)?;
    let down = widest_along(alloc, Axis::Down, boxes, least)?;
    match across {
        Some(across) => Ok(Some(wider(down, across))),
        None => Ok(down),
    }
}
