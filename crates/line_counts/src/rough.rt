//! What counts weigh at most for any line of a stretch, and the rough bound of its keys that comes from that.
ghost use Rattle.std.specs.Prelude.{◌≡◌, ◌*◌, ◌<◌, ◌≤◌, pos, ◌+ℤ◌, ℕ, length, slice_index};
ghost use Rattle.line_quality.specs.Scores.{IsScore};
ghost use Rattle.line_counts.specs.Stretches.{IsKeyIn, IsOfPage, IsSharper};
ghost use Rattle.line_counts.specs.Tops.{ArePartCounts, AreBells, WeighAtMost, sum_to};

use crate::counts::Counts;
use crate::greatest::greatest_of_first;
use crate::limits::{BATCH, MAX_PART_COUNT, MAX_PLACES, MAX_TABLE_BOXES, MAX_TOPS};
use crate::parts::bells;
use crate::stretch::Stretch;
use line_quality::{MAX_SCORE, MAX_WEIGHT, line_key};

/// The sum of counts.
fn total(counts: &[u32]) -> u32
    requires { ArePartCounts counts.now }
    ensures value { result ≡ sum_to (λ place. slice_index counts.now place) MAX_PLACES }
    ensures small { result ≤ MAX_PLACES * MAX_PART_COUNT }
{
    let mut total = 0;
    for place in 0..MAX_PLACES {
        total += counts[place];
    }
    total
}

/// What counts would weigh if each box stood on the line: they weigh no more for any line.
pub(crate) fn on_the_line(counts: &[u32]) -> u32
    requires { ArePartCounts counts.now }
    ensures { WeighAtMost counts.now result }
{
    total(counts).saturating_mul(MAX_WEIGHT)
}

/// What the counts of a part weigh at most for a line: no more than two bells, and than if each box stood on the line.
pub(crate) fn part_most(counts: &[u32], bells: &[u32]) -> u32
    requires counts { ArePartCounts counts.now }
    requires bells { AreBells counts.now bells.now }
    ensures { WeighAtMost counts.now result }
{
    let bell = greatest_of_first(bells, MAX_TOPS);
    bell.saturating_mul(2).min(on_the_line(counts))
}

/// What the counts of a part weigh at most for a line. Where that is less than the least anyhow, their bells are not asked for.
fn sums_most(counts: &[u32], least: u32) -> u32
    requires { ArePartCounts counts.now }
    ensures { WeighAtMost counts.now result }
{
    let all = on_the_line(counts);
    if all < least {
        return all;
    }
    part_most(counts, &bells(counts))
}

impl Counts {
    /// What the counts of some part weigh at most for a line of a stretch, one part after the other.
    fn most_of(&self, stretch: &Stretch, least: u32) -> u32
        requires of_page { IsOfPage self.now.height stretch.now }
        requires some { 0 < stretch.now.offsets }
        requires few { stretch.now.offsets ≤ BATCH }
        ensures alive { length self.now.alive ≤ MAX_TABLE_BOXES }
        ensures over { (more depth score in_column : ℕ) → more < stretch.now.offsets → depth ≤ stretch.now.deepest
            → IsScore stretch.now.slope (stretch.now.from +ℤ pos more) depth self.now.boxes self.now.gutters self.now.alive score in_column
            → score ≤ result }
    {
        let cuts = self.cuts(stretch);
        let mut most = 0;
        let mut sums = [0; MAX_PLACES];
        for of_segment in 0..self.gutters.len() + 1 {
            if cuts[of_segment] {
                most = sums_most(&sums, least).max(most);
                sums = [0; MAX_PLACES];
            }
            self.add_counts(sums.as_mut_slice(), stretch, of_segment);
        }
        sums_most(&sums, least).max(most)
    }

    /// A bound of the lines of a stretch that score at least so much, by what counts weigh at most.
    fn rough(&self, stretch: &Stretch, least: u32) -> u64
        requires of_page { IsOfPage self.now.height stretch.now }
        requires some { 0 < stretch.now.offsets }
        requires few { stretch.now.offsets ≤ BATCH }
        ensures { (key : ℕ) → IsKeyIn self.now least stretch.now key → key ≤ result }
    {
        let score = self.most_of(stretch, least);
        if score < least {
            return 0;
        }
        line_key(
            score.min(MAX_SCORE),
            stretch.slope,
            stretch.from,
            stretch.shallowest,
        )
    }

    /// A bound of the lines of a stretch that score at least so much: a rough one where that is less than the one before, and
    /// else their greatest key.
    pub(crate) fn sharper(&self, stretch: &Stretch, least: u32, before: u64) -> u64
        requires of_page { IsOfPage self.now.height stretch.now }
        requires some { 0 < stretch.now.offsets }
        requires few { stretch.now.offsets ≤ BATCH }
        ensures { IsSharper (IsKeyIn self.now least stretch.now) before result }
    {
        let rough = self.rough(stretch, least);
        if rough < before {
            return rough;
        }
        self.greatest(stretch, least)
    }
}
