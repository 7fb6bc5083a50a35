//! Plain keys of the lines of one slope and neighbouring offsets, by counts alone.
ghost use Rattle.std.specs.Prelude.{◌≡◌, ◌+◌, ◌*◌, ◌<◌, ◌≤◌, pos, ◌+ℤ◌, ◌≤ℤ◌, length, slice_get, IsTrue};
ghost use Rattle.std.specs.List.{sum_by};
ghost use Rattle.line_quality.specs.Points.{IsSlope};
ghost use Rattle.line_counts.specs.Plain;
ghost use Rattle.line_counts.specs.Plain.{plain_weight};
ghost use Rattle.line_counts.specs.Blocks;
ghost use Rattle.line_counts.specs.Blocks.{IsKeyBound, lines_of};

use crate::blocks::MAX_BLOCK;
use crate::counts::Counts;
use crate::limits::REACH;
use layout_limits::MAX_SIDE;
use line_quality::{LEAST_OFFSET, MAX_DEPTH, MAX_SCORE, OFFSET_MARGIN, line_key};

/// How many rows the lines of some neighbouring offsets and their descenders take beside the first.
pub(crate) fn more_rows(offsets: u16, deepest: u8) -> u8
    requires some { 0 < offsets }
    requires few { offsets ≤ MAX_BLOCK }
    requires deep { deepest ≤ MAX_DEPTH }
    ensures { result + 1 ≡ offsets + deepest }
{
    (offsets - 1) as u8 + deepest
}

impl Counts {
    /// What the boxes of a segment weigh at most together for one of a row and so many more of a slope: 25 where they stand between
    /// the rows, and less above the first and below the last.
    fn plain_segment(&self, slope: i8, from: i16, more: u8, of_segment: usize) -> u32
        requires slope { IsSlope slope }
        requires low { LEAST_OFFSET ≤ℤ from }
        requires high { (from +ℤ pos more) ≤ℤ pos (self.now.height + OFFSET_MARGIN + MAX_DEPTH) }
        requires segment { of_segment ≤ length self.now.gutters }
        ensures value { result ≡ Blocks.plain_segment self.now.boxes self.now.gutters slope from more of_segment self.now.alive }
        ensures small { result ≤ MAX_SCORE }
    {
        let row = self.row(slope, from, more, of_segment);
        let last = REACH as usize + more as usize;
        let mut inside = 0;
        for behind in REACH as usize..last + 1 {
            inside += row[behind] as u32;
        }
        9 * (row[0] as u32 + row[last + 4] as u32)
            + 16 * (row[1] as u32 + row[last + 3] as u32)
            + 21 * (row[2] as u32 + row[last + 2] as u32)
            + 24 * (row[3] as u32 + row[last + 1] as u32)
            + 25 * inside
    }

    /// What all boxes weigh at most together for them, or what those of the first segments do where that is enough.
    fn plain_score(&self, slope: i8, from: i16, more: u8, enough: u64) -> u32
        requires slope { IsSlope slope }
        requires low { LEAST_OFFSET ≤ℤ from }
        requires high { (from +ℤ pos more) ≤ℤ pos (self.now.height + OFFSET_MARGIN + MAX_DEPTH) }
        ensures value { result < enough → result ≡ sum_by
            (λ position. plain_weight (lines_of slope from 1 more) (slice_get self.now.boxes position)) self.now.alive }
        ensures within { result ≤ sum_by
            (λ position. plain_weight (lines_of slope from 1 more) (slice_get self.now.boxes position)) self.now.alive }
        ensures small { result ≤ MAX_SCORE }
    {
        let mut total = 0;
        for of_segment in 0..self.gutters.len() + 1 {
            total += self.plain_segment(slope, from, more, of_segment);
            if total as u64 >= enough {
                return total;
            }
        }
        total
    }

    /// The plain key of the lines of a slope and some offsets, or 0 where it is that of too little a score.
    pub(crate) fn plain_key(
        &self,
        slope: i8,
        from: i16,
        offsets: u16,
        least: u32,
        deepest: u8,
    ) -> u64
        requires page { self.now.height ≤ MAX_SIDE }
        requires slope { IsSlope slope }
        requires low { LEAST_OFFSET ≤ℤ from }
        requires high { (from +ℤ pos offsets) ≤ℤ pos (self.now.height + OFFSET_MARGIN + 1) }
        requires some { 0 < offsets }
        requires few { offsets ≤ MAX_BLOCK }
        requires deep { deepest ≤ MAX_DEPTH }
        ensures { IsKeyBound self.now least (lines_of slope from offsets deepest) result }
    {
        let score = self.plain_score(slope, from, more_rows(offsets, deepest), u64::MAX);
        if score < least {
            return 0;
        }
        line_key(score, slope, from, 0)
    }
    /// Whether the plain key of the lines of a slope and some offsets is no less than a key. The first segments mostly tell.
    pub(crate) fn plain_reaches(
        &self,
        key: u64,
        slope: i8,
        from: i16,
        offsets: u16,
        deepest: u8,
    ) -> bool
        requires page { self.now.height ≤ MAX_SIDE }
        requires slope { IsSlope slope }
        requires low { LEAST_OFFSET ≤ℤ from }
        requires high { (from +ℤ pos offsets) ≤ℤ pos (self.now.height + OFFSET_MARGIN + 1) }
        requires some { 0 < offsets }
        requires few { offsets ≤ MAX_BLOCK }
        requires deep { deepest ≤ MAX_DEPTH }
        ensures { IsTrue result → key ≤ Plain.plain_key self.now.boxes self.now.alive (lines_of slope from offsets deepest) }
    {
        let enough = key / (1 << 29) + 1;
        let score = self.plain_score(slope, from, more_rows(offsets, deepest), enough);
        score as u64 >= enough
    }
}
