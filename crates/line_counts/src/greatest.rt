//! The greatest key of a stretch of the grid.
ghost use Rattle.std.specs.Prelude.{◌≡◌, ◌+◌, ◌/◌, ◌^◌, ◌<◌, ◌≤◌, pos, ◌≤ℤ◌, ℕ, max, length, slice_index, IsFalse};
ghost use Rattle.box_search.specs.Search.{IsGreatestKey};
ghost use Rattle.line_quality.specs.Points.{IsSlope, IsOffset, IsDepth};
ghost use Rattle.line_quality.specs.Keys;
ghost use Rattle.line_counts.specs.Stretches.{IsKeyAt, IsKeyIn, IsOfPage, IsGreaterKey, IsRisen, IsBeaten};
ghost use Rattle.line_counts.specs.Tops.{ArePartCounts, AreBells, AreBeaten, WeighAtMost, weighed};

use crate::counts::Counts;
use crate::limits::{BATCH, MAX_PLACES, MAX_TABLE_BOXES};
use crate::parts::bells;
use crate::pieces::{offset_of, part_of};
use crate::rough::{on_the_line, part_most};
use crate::stretch::Stretch;
use crate::tops::line_sums;
use line_quality::{LEAST_OFFSET, MAX_DEPTH, MAX_SCORE, OFFSET_MARGIN, line_key};

/// The score that a line needs so that its key is greater than the best so far, and that it has to have.
fn needed(least: u32, best: u64) -> u64
    ensures { result ≡ max least (best / 2 ^ 29) }
{
    (least as u64).max(best / (1 << 29))
}

/// The greatest of the first numbers, 0 where there is none.
pub(crate) fn greatest_of_first(numbers: &[u32], count: usize) -> u32
    requires { count ≤ length numbers.now }
    ensures { (place : ℕ) → place < count → slice_index numbers.now place ≤ result }
{
    let mut most = 0;
    for place in 0..count {
        most = numbers[place].max(most);
    }
    most
}

/// Where the greatest of the tops of the first offsets is, that is greater than those before it.
fn likeliest(tops: &[u32], offsets: u16) -> u16
    requires some { 0 < offsets }
    requires long { offsets ≤ length tops.now }
    ensures { result < offsets }
{
    let mut place = 0;
    for more in 0..offsets {
        if tops[more as usize] > tops[place as usize] {
            place = more;
        }
    }
    place
}

/// Whether a line that scores at most its top may have enough, and a greater key than the best so far.
fn may_beat(top: u32, slope: i8, offset: i16, depth: u8, least: u32, best: u64) -> bool
    requires slope { IsSlope slope }
    requires offset { IsOffset offset }
    requires depth { IsDepth depth }
    ensures { IsFalse result → (score : ℕ) → score ≤ top → score ≤ MAX_SCORE → least ≤ score
        → (0 < best) × (Keys.line_key score slope offset depth ≤ best) }
{
    top as u64 >= needed(least, best) && line_key(top.min(MAX_SCORE), slope, offset, depth) > best
}

impl Counts {
    /// The key of a line, or 0 where it scores less than the least.
    fn key_at(&self, slope: i8, offset: i16, depth: u8, least: u32) -> u64
        requires slope { IsSlope slope }
        requires low { LEAST_OFFSET ≤ℤ offset }
        requires high { offset ≤ℤ pos (self.now.height + OFFSET_MARGIN) }
        requires depth { depth ≤ MAX_DEPTH }
        ensures { IsGreatestKey (IsKeyAt self.now least slope offset depth) result }
    {
        let score = self.score(slope, offset, depth).score;
        if score < least {
            return 0;
        }
        line_key(score, slope, offset, depth)
    }

    /// The best key so far, or the greater one of a line of a stretch, where that scores at most its top.
    fn better(
        &self,
        stretch: &Stretch,
        more: u16,
        depth: u8,
        top: u32,
        least: u32,
        before: u64,
    ) -> u64
        requires of_page { IsOfPage self.now.height stretch.now }
        requires more { more < stretch.now.offsets }
        requires shallow { stretch.now.shallowest ≤ depth }
        requires deep { depth ≤ stretch.now.deepest }
        requires alive { length self.now.alive ≤ MAX_TABLE_BOXES }
        ensures risen { IsRisen (IsKeyIn self.now least stretch.now) before result }
        ensures beaten { IsBeaten self.now least stretch.now more depth top result }
    {
        let offset = offset_of(stretch, more);
        if !may_beat(top, stretch.slope, offset, depth, least, before) {
            return before;
        }
        self.key_at(stretch.slope, offset, depth, least).max(before)
    }

    /// The best key so far, or a greater one of the lines of one depth of a stretch that score at most their tops. The likeliest one
    /// comes first, since the others are then mostly passed over.
    fn greatest_of(
        &self,
        stretch: &Stretch,
        depth: u8,
        tops: &[u32],
        least: u32,
        before: u64,
    ) -> u64
        requires of_page { IsOfPage self.now.height stretch.now }
        requires some { 0 < stretch.now.offsets }
        requires long { stretch.now.offsets ≤ length tops.now }
        requires shallow { stretch.now.shallowest ≤ depth }
        requires deep { depth ≤ stretch.now.deepest }
        requires alive { length self.now.alive ≤ MAX_TABLE_BOXES }
        ensures risen { IsRisen (IsKeyIn self.now least stretch.now) before result }
        ensures beaten { (more : ℕ) → more < stretch.now.offsets
            → IsBeaten self.now least stretch.now more depth (slice_index tops.now more) result }
    {
        let most = greatest_of_first(tops, stretch.offsets as usize);
        if !may_beat(most, stretch.slope, stretch.from, depth, least, before) {
            return before;
        }
        let first = likeliest(tops, stretch.offsets);
        let mut best = self.better(stretch, first, depth, tops[first as usize], least, before);
        let enough = needed(least, best);
        for more in 0..stretch.offsets {
            let top = tops[more as usize];
            if top as u64 >= enough {
                best = self.better(stretch, more, depth, top, least, best);
            }
        }
        best
    }

    /// The best key so far, or a greater one of the lines of one depth of a stretch that score at most what the counts of a part weigh
    /// for them. The counts weigh no more than the most.
    fn greatest_at(
        &self,
        counts: &[u32],
        bells: &[u32],
        stretch: &Stretch,
        depth: u8,
        most: u32,
        least: u32,
        before: u64,
    ) -> u64
        requires of_page { IsOfPage self.now.height stretch.now }
        requires some { 0 < stretch.now.offsets }
        requires few { stretch.now.offsets ≤ BATCH }
        requires shallow { stretch.now.shallowest ≤ depth }
        requires deep { depth ≤ stretch.now.deepest }
        requires alive { length self.now.alive ≤ MAX_TABLE_BOXES }
        requires counts { ArePartCounts counts.now }
        requires bells { AreBells counts.now bells.now }
        requires over { WeighAtMost counts.now most }
        ensures risen { IsRisen (IsKeyIn self.now least stretch.now) before result }
        ensures beaten { (more : ℕ) → more < stretch.now.offsets
            → IsBeaten self.now least stretch.now more depth (weighed counts.now more depth) result }
    {
        if !may_beat(most, stretch.slope, stretch.from, depth, least, before) {
            return before;
        }
        let sums = line_sums(counts, bells, depth, needed(least, before));
        self.greatest_of(stretch, depth, &sums, least, before)
    }

    /// The best key so far, or a greater one of the lines of a stretch that score at most what the counts of a part weigh for them. The
    /// least depth comes first: no deeper line that scores as much has a greater key.
    fn greatest_by(&self, counts: &[u32], stretch: &Stretch, least: u32, before: u64) -> u64
        requires of_page { IsOfPage self.now.height stretch.now }
        requires some { 0 < stretch.now.offsets }
        requires few { stretch.now.offsets ≤ BATCH }
        requires alive { length self.now.alive ≤ MAX_TABLE_BOXES }
        requires counts { ArePartCounts counts.now }
        ensures risen { IsRisen (IsKeyIn self.now least stretch.now) before result }
        ensures beaten { AreBeaten self.now least stretch.now counts.now result }
    {
        if (on_the_line(counts) as u64) < needed(least, before) {
            return before;
        }
        let bells = bells(counts);
        let most = part_most(counts, &bells);
        let mut best = before;
        for depth in stretch.shallowest..stretch.deepest + 1 {
            best = self.greatest_at(counts, &bells, stretch, depth, most, least, best);
        }
        best
    }

    /// The best key so far, or a greater one of the lines of a piece of a stretch, one part after the other.
    fn greatest_in(&self, stretch: &Stretch, least: u32, before: u64) -> u64
        requires of_page { IsOfPage self.now.height stretch.now }
        requires some { 0 < stretch.now.offsets }
        requires few { stretch.now.offsets ≤ BATCH }
        ensures { IsGreaterKey (IsKeyIn self.now least stretch.now) before result }
    {
        let cuts = self.cuts(stretch);
        let mut best = before;
        let mut sums = [0; MAX_PLACES];
        for of_segment in 0..self.gutters.len() + 1 {
            if cuts[of_segment] {
                best = self.greatest_by(&sums, stretch, least, best);
                sums = [0; MAX_PLACES];
            }
            self.add_counts(sums.as_mut_slice(), stretch, of_segment);
        }
        self.greatest_by(&sums, stretch, least, best)
    }

    /// The greatest key of the lines of a stretch whose score among the living boxes is at least so much, or 0 where
    /// there is none.
    pub fn greatest(&self, stretch: &Stretch, least: u32) -> u64
        requires { IsOfPage self.now.height stretch.now }
        ensures { IsGreatestKey (IsKeyIn self.now least stretch.now) result }
    {
        let mut best = 0;
        let mut done = 0;
        while done < stretch.offsets {
            let part = part_of(stretch, done, &self.gutters);
            best = self.greatest_in(&part, least, best);
            done += part.offsets;
        }
        best
    }
}
