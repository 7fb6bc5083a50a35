//! The score of a line: the greatest weight of a column of boxes.
ghost use Rattle.std.specs.Prelude.{◌≡◌, ℕ, ◌+◌, ◌*◌, ◌<◌, ◌≤◌, length, All, slice_get, slice_index};
ghost use Rattle.std.specs.List.{sum_by};
ghost use Rattle.line_quality.specs.Scores.{IsScore, weight_of};

use crate::crossed::crossed;
use crate::limits::{MAX_COLUMNS, MAX_GUTTERS, MAX_WEIGHT};
use crate::point::{middle, weight};
use layout_geom::{Numbers, Rects};

/// The greatest weight of a column, and the least column that has it.
#[derive(Clone, Copy, Debug, PartialEq, Eq)]
pub struct Score {
    /// What the boxes of the column weigh together: 0 where no box weighs anything.
    pub score: u32,
    /// How many crossed gutters lie left of the column.
    pub column: u32,
}

/// The greatest of the sums of columns, and the least column that has it.
pub fn greatest(sums: &[u32]) -> Score
    requires some { 0 < length sums.now }
    requires few { length sums.now ≤ MAX_COLUMNS }
    ensures reached { slice_index sums.now result.column ≡ result.score }
    ensures greatest { (column : ℕ) → slice_index sums.now column ≤ result.score }
    ensures least { (column : ℕ) → column < result.column → slice_index sums.now column < result.score }
    ensures within { result.column < length sums.now }
{
    let mut best = Score {
        score: sums[0],
        column: 0,
    };
    for (column, sum) in sums.iter().enumerate() {
        if *sum > best.score {
            best = Score {
                score: *sum,
                column: column as u32,
            };
        }
    }
    best
}

/// The score of a line among the boxes at the positions in `alive`. The gutters that the line
/// crosses divide the boxes into columns; a group is the boxes of one column that weigh something.
/// The depth has no part in what the line crosses.
///
/// One call looks once at each gutter and once at each position, and for a box that weighs
/// something at each crossed gutter. It takes no memory.
pub fn score_at(
    slope: i8,
    offset: i16,
    depth: u8,
    boxes: &Rects,
    alive: &Numbers,
    gutters: &Rects,
) -> Score
    requires few_gutters { length gutters.now ≤ MAX_GUTTERS }
    requires few_alive { length alive.now ≤ 60000 }
    requires positions { All (λ position. position < length boxes.now) alive.now }
    ensures score { IsScore slope offset depth boxes.now gutters.now alive.now result.score result.column }
    // It is no more than all the boxes weigh, so 0 with column 0 where none weighs anything.
    ensures total { result.score ≤ sum_by (λ position. weight_of slope offset depth (slice_get boxes.now position)) alive.now }
    ensures none { result.score ≡ 0 → result.column ≡ 0 }
    ensures small { result.score ≤ MAX_WEIGHT * length alive.now }
    ensures within { result.column ≤ length gutters.now }
{
    let middles = crossed(slope, offset, gutters.as_slice());
    let mut sums = [0; MAX_COLUMNS];
    for position in alive.as_slice() {
        let rect = boxes.get(*position as usize);
        let weight = weight(slope, offset, depth, rect);
        if weight > 0 {
            sums[middles.column(middle(rect))] += weight;
        }
    }
    greatest(&sums[..middles.len() + 1])
}
