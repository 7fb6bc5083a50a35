//! The boxes that stand on a line, and the least rectangle round them.
ghost use Rattle.std.specs.Prelude.{◌≡◌, ◌<◌, ◌≤◌, IfOk, Some, length, All, not, slice_get};
ghost use Rattle.std.specs.List.{filter};
ghost use Rattle.layout_geom.specs.declared.rect.Rect.{Rect};
ghost use Rattle.layout_geom.specs.Rectangles.{Encloses};
ghost use Rattle.line_quality.specs.Points.{middle_of};
ghost use Rattle.line_quality.specs.Scores.{group_of, is_of};
ghost use Rattle.line_search.specs.Lines.{IsLeastRound};

use layout_geom::{Numbers, Rect, Rects};
use layout_limits::{MAX_SIDE, OutOfMemory};
use line_quality::{MAX_GUTTERS, column, middle, weight};
use std::alloc::Global;

/// A line of the grid, and the column that wins.
#[derive(Clone, Copy, Debug, PartialEq, Eq)]
pub(crate) struct Winner {
    /// The slope of the line in thousandths.
    pub(crate) slope: i8,
    /// The offset of the line in rows.
    pub(crate) offset: i16,
    /// The depth of the line in rows.
    pub(crate) depth: u8,
    /// How many crossed gutters lie left of the column.
    pub(crate) column: u32,
}

/// The positions that are in a line, and the others, both in order.
#[derive(Drop)]
pub(crate) struct Division {
    pub(crate) members: Numbers,
    pub(crate) others: Numbers,
}

/// Whether a box is in the column of a line and has weight for it.
fn is_member(winner: &Winner, gutters: &Rects, rect: &Rect) -> bool
    requires { length gutters.now ≤ MAX_GUTTERS }
    ensures { result ≡ is_of winner.now.slope winner.now.offset winner.now.depth gutters.now winner.now.column (Some rect.now) }
{
    let Winner {
        slope,
        offset,
        depth,
        column: winning,
    } = *winner;
    weight(slope, offset, depth, rect) > 0
        && column(slope, offset, gutters, middle(rect)) == winning
}

/// Divides the positions that are alive by whether they are in a line.
pub(crate) fn divide(
    alloc: Global,
    winner: &Winner,
    boxes: &Rects,
    alive: &Numbers,
    gutters: &Rects,
) -> Result<Division, OutOfMemory>
    requires few_gutters { length gutters.now ≤ MAX_GUTTERS }
    requires positions { All (λ position. position < length boxes.now) alive.now }
    ensures members { IfOk result (λ division. division.members
        ≡ group_of winner.now.slope winner.now.offset winner.now.depth boxes.now gutters.now winner.now.column alive.now) }
    ensures others { IfOk result (λ division. division.others
        ≡ filter (λ position. not (is_of winner.now.slope winner.now.offset winner.now.depth gutters.now winner.now.column
        (slice_get boxes.now position))) alive.now) }
{
    let mut members = Numbers::new(alloc);
    let mut others = Numbers::new(alloc);
    for position in alive.as_slice() {
        let rect = boxes.get(*position as usize);
        if is_member(winner, gutters, rect) {
            members.push(*position)?;
        } else {
            others.push(*position)?;
        }
    }
    Ok(Division { members, others })
}

/// The least rectangle round the boxes at the positions.
pub(crate) fn least_round(boxes: &[Rect], positions: &[u32]) -> Rect
    requires some { 0 < length positions.now }
    requires within { All (λ position. position < length boxes.now) positions.now }
    requires contained { (outer : Rect) × All (Encloses outer) boxes.now }
    ensures { IsLeastRound boxes.now positions.now result }
{
    let mut round = boxes[positions[0] as usize];
    for position in positions {
        round = round.hull(&boxes[*position as usize]);
    }
    round
}

/// The farthest middle of a box from the left, 0 where there is no box.
pub(crate) fn farthest(boxes: &[Rect]) -> u16
    ensures farthest { All (λ rect. middle_of rect ≤ result) boxes.now }
    ensures small { result < MAX_SIDE }
{
    let mut farthest = 0;
    for rect in boxes {
        farthest = middle(rect).max(farthest);
    }
    farthest
}
