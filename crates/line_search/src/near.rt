//! The boxes that count for the lines of a shape, and what those of one column can weigh together.
ghost use Rattle.std.specs.Prelude.{◌≡◌, ◌*◌, ◌<◌, ◌≤◌, IfOk, length, map, nat_le, All};
ghost use Rattle.std.specs.List.{filter, count_by};
ghost use Rattle.line_quality.specs.Points.{middle_of};
ghost use Rattle.line_search.specs.Bounds;
ghost use Rattle.line_search.specs.Bounds.{weighing, stretch_of, HasMost};
ghost use Rattle.line_counts.specs.Shapes.{IsInGrid};

use crate::bound::{all_cross, most_weight};
use crate::span::Span;
use box_search::Shape;
use layout_geom::{Rect, Rects};
use layout_limits::{MAX_SIDE, OutOfMemory};
use line_quality::{MAX_COLUMNS, MAX_DEPTH, MAX_GUTTERS, MAX_WEIGHT, Score, greatest, middle};
use std::alloc::Global;

/// What counts for the lines of a shape.
#[derive(Clone, Copy)]
pub(crate) struct Nearby {
    /// A stretch that has the positions of all boxes that can weigh something.
    pub(crate) span: Span,
    /// The most that the boxes of one column can weigh together, and the least column that has it.
    pub(crate) score: Score,
}

/// The middles of the gutters that all lines of the shape cross, in the order of the gutters.
fn sure_middles(alloc: Global, shape: &Shape, gutters: &[Rect]) -> Result<Vec<u16>, OutOfMemory>
    requires { IsInGrid MAX_SIDE MAX_DEPTH shape.now }
    ensures value { IfOk result (λ middles. middles.items ≡ map middle_of (filter (Bounds.all_cross shape.now) gutters.now)) }
    ensures few { IfOk result (λ middles. length middles.items ≤ length gutters.now) }
{
    let mut middles = Vec::new(alloc);
    for gutter in gutters {
        if all_cross(shape, gutter) {
            middles.push(middle(gutter))?;
        }
    }
    Ok(middles)
}

/// How many of the middles are at the anchor or to its left.
fn column_among(middles: &[u16], anchor: u16) -> usize
    ensures value { result ≡ count_by (λ middle. nat_le middle anchor) middles.now }
    ensures few { result ≤ length middles.now }
{
    middles.iter().filter(|middle| **middle <= anchor).count()
}

/// Which stretch of the positions has all the boxes that can weigh something for a line of the shape, and
/// what those of one column can weigh together.
pub(crate) fn near(
    alloc: Global,
    shape: &Shape,
    boxes: &Rects,
    gutters: &Rects,
    positions: &[u32],
) -> Result<Nearby, OutOfMemory>
    requires shape { IsInGrid MAX_SIDE MAX_DEPTH shape.now }
    requires few_gutters { length gutters.now ≤ MAX_GUTTERS }
    requires few { length positions.now ≤ 60000 }
    requires within { All (λ position. position < length boxes.now) positions.now }
    ensures ordered { IfOk result (λ near. near.span.from ≤ near.span.to) }
    ensures inside { IfOk result (λ near. near.span.to ≤ length positions.now) }
    ensures weighing { IfOk result (λ near. weighing shape.now boxes.now (stretch_of near.span positions.now)
        ≡ weighing shape.now boxes.now positions.now) }
    ensures most { IfOk result (λ near. HasMost shape.now boxes.now gutters.now positions.now near.score.score near.score.column) }
    ensures small { IfOk result (λ near. near.score.score ≤ MAX_WEIGHT * length positions.now) }
{
    let middles = sure_middles(alloc, shape, gutters.as_slice())?;
    let mut sums = [0; MAX_COLUMNS];
    let mut span = Span { from: 0, to: 0 };
    for (place, position) in positions.iter().enumerate() {
        let rect = boxes.get(*position as usize);
        let weight = most_weight(shape, rect);
        if weight > 0 {
            sums[column_among(&middles, middle(rect))] += weight;
            span = span.grown(place as u32);
        }
    }
    let score = greatest(&sums[..middles.len() + 1]);
    Ok(Nearby { span, score })
}
