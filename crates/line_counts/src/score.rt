//! Scores that come from the counts alone.
ghost use Rattle.std.specs.Prelude.{◌≡◌, ◌+◌, ◌*◌, ◌≤◌, pos, ◌+ℤ◌, ◌≤ℤ◌, length};
ghost use Rattle.line_quality.specs.Points.{IsSlope, IsOffset};
ghost use Rattle.line_quality.specs.Scores.{IsScore};
ghost use Rattle.line_counts.specs.Fits;
ghost use Rattle.line_counts.specs.Table.{IsRow};

use crate::counts::Counts;
use crate::fit::{columns, first_place, number};
use crate::limits::{MAX_SEGMENTS, REACH};
use crate::table::cell;
use line_quality::{
    LEAST_OFFSET, MAX_DEPTH, MAX_SCORE, MAX_WEIGHT, OFFSET_MARGIN, Score, greatest, weight_at,
};

/// What a box weighs whose place is so many places behind the first that weighs something.
fn weight_behind(depth: u8, behind: usize) -> u32
    requires { behind ≤ MAX_DEPTH + 2 * REACH }
    ensures value { result ≡ Fits.weight_behind depth behind }
    ensures small { result ≤ MAX_WEIGHT }
{
    let from_line = (behind as u32).abs_diff(REACH as u32);
    let from_descenders = (behind as u32).abs_diff(REACH as u32 + depth as u32);
    weight_at(from_line.min(from_descenders))
}

impl Counts {
    /// The counts of the places in a segment that weigh something for a line.
    pub(crate) fn row(&self, slope: i8, offset: i16, depth: u8, of_segment: usize) -> &[u16]
        requires slope { IsSlope slope }
        requires low { LEAST_OFFSET ≤ℤ offset }
        requires high { (offset +ℤ pos depth) ≤ℤ pos (self.now.height + OFFSET_MARGIN + MAX_DEPTH) }
        requires segment { of_segment ≤ length self.now.gutters }
        ensures { IsRow self.now slope offset depth of_segment result.now }
    {
        let (segments, first) = (self.gutters.len() + 1, first_place(offset));
        let from = cell(segments, self.width, number(slope), of_segment, first);
        &self.cells.as_slice()[from..from + 2 * REACH as usize + depth as usize + 1]
    }

    /// What the boxes of a segment weigh together for a line.
    fn segment_weight(&self, slope: i8, offset: i16, depth: u8, of_segment: usize) -> u32
        requires slope { IsSlope slope }
        requires low { LEAST_OFFSET ≤ℤ offset }
        requires high { offset ≤ℤ pos (self.now.height + OFFSET_MARGIN) }
        requires depth { depth ≤ MAX_DEPTH }
        requires segment { of_segment ≤ length self.now.gutters }
        ensures value { result ≡ Fits.segment_weight self.now.boxes self.now.gutters slope offset depth of_segment self.now.alive }
        ensures small { result ≤ MAX_SCORE }
    {
        let mut total = 0;
        for (behind, count) in self
            .row(slope, offset, depth, of_segment)
            .iter()
            .enumerate()
        {
            total += *count as u32 * weight_behind(depth, behind);
        }
        total
    }

    /// The score of a line among the boxes that are alive: the greatest weight of a column, and the least column that has it.
    pub fn score(&self, slope: i8, offset: i16, depth: u8) -> Score
        requires slope { IsSlope slope }
        requires low { LEAST_OFFSET ≤ℤ offset }
        requires high { offset ≤ℤ pos (self.now.height + OFFSET_MARGIN) }
        requires depth { depth ≤ MAX_DEPTH }
        ensures score { IsScore slope offset depth self.now.boxes self.now.gutters self.now.alive result.score result.column }
        ensures small { result.score ≤ MAX_SCORE }
        ensures of_grid { IsOffset offset }
    {
        let columns = columns(slope, offset, &self.gutters);
        let mut sums = [0; MAX_SEGMENTS];
        for of_segment in 0..self.gutters.len() + 1 {
            sums[columns[of_segment]] += self.segment_weight(slope, offset, depth, of_segment);
        }
        greatest(&sums)
    }
}
