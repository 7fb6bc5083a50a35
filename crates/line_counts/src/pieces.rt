//! The pieces of a stretch: the lines of neighbouring offsets that cross the same gutters.
ghost use Rattle.std.specs.Prelude.{◌≡◌, ◌+◌, ◌<◌, ◌≤◌, pos, ◌+ℤ◌, ◌≤ℤ◌};
ghost use Rattle.line_quality.specs.Points.{IsSlope, IsOffset};

use crate::limits::BATCH;
use crate::stretch::Stretch;
use layout_geom::{Rect, Rects};
use layout_limits::MAX_SIDE;
use line_quality::{LEAST_OFFSET, OFFSET_MARGIN, height_at, middle};

/// The offset of a stretch that comes so many behind the first.
pub(crate) fn offset_of(stretch: &Stretch, more: u16) -> i16
    requires more { more < stretch.now.offsets }
    requires low { LEAST_OFFSET ≤ℤ stretch.now.from }
    requires high { (stretch.now.from +ℤ pos stretch.now.offsets) ≤ℤ pos (MAX_SIDE + OFFSET_MARGIN + 1) }
    ensures { result ≡ stretch.now.from +ℤ pos more }
{
    (stretch.from as i32 + more as i32) as i16
}

/// How many offsets from one on have lines that all cross a gutter, or none of which does: at least 1, and at most `BATCH`.
fn alike_at(slope: i8, offset: i16, gutter: &Rect) -> u16
    requires slope { IsSlope slope }
    requires offset { IsOffset offset }
    ensures some { 0 < result }
    ensures few { result ≤ BATCH }
{
    let height = height_at(slope, offset, middle(gutter));
    let (top, foot) = (gutter.y0() as i32 + 1, gutter.y1() as i32 + 1);
    let end = if height < top {
        top
    } else if height < foot {
        foot
    } else {
        height + BATCH as i32
    };
    end.abs_diff(height).max(1).min(BATCH as u32) as u16
}

/// How many offsets from one on have lines that cross the same gutters: at least 1, and at most `BATCH`.
fn alike(slope: i8, offset: i16, gutters: &Rects) -> u16
    requires slope { IsSlope slope }
    requires offset { IsOffset offset }
    ensures some { 0 < result }
    ensures few { result ≤ BATCH }
{
    let mut offsets = BATCH;
    for gutter in gutters.as_slice() {
        offsets = alike_at(slope, offset, gutter).min(offsets);
    }
    offsets
}

/// A part of a stretch: the offsets from one on whose lines cross the same gutters, so that its parts are their columns.
pub(crate) fn part_of(stretch: &Stretch, done: u16, gutters: &Rects) -> Stretch
    requires slope { IsSlope stretch.now.slope }
    requires more { done < stretch.now.offsets }
    requires low { LEAST_OFFSET ≤ℤ stretch.now.from }
    requires high { (stretch.now.from +ℤ pos stretch.now.offsets) ≤ℤ pos (MAX_SIDE + OFFSET_MARGIN + 1) }
    ensures part { result ≡ record stretch.now { from = stretch.now.from +ℤ pos done; offsets = result.offsets } }
    ensures some { 0 < result.offsets }
    ensures few { result.offsets ≤ BATCH }
    ensures within { done + result.offsets ≤ stretch.now.offsets }
{
    let from = offset_of(stretch, done);
    Stretch {
        from,
        offsets: (stretch.offsets - done).min(alike(stretch.slope, from, gutters)),
        ..*stretch
    }
}
