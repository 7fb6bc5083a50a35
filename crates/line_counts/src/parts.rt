//! The counts of the parts into which gutters divide a page: no line of a stretch has a column on both sides of a gutter that all
//! of them cross.
ghost use Rattle.std.specs.Prelude.{◌≡◌, ◌+◌, ◌*◌, ◌<◌, ◌≤◌, pos, ◌+ℤ◌, ◌≤ℤ◌, ℕ, length, slice_index, IsTrue};
ghost use Rattle.line_quality.specs.Points.{IsSlope, Crosses};
ghost use Rattle.line_counts.specs.Stretches.{IsOfPage};
ghost use Rattle.line_counts.specs.Tops.{AreCuts, ArePartCounts, AreBells, count_behind, weighed};

use crate::counts::Counts;
use crate::fit::segment;
use crate::limits::{
    BATCH, MAX_PART_COUNT, MAX_PLACES, MAX_SEGMENTS, MAX_TABLE_GUTTERS, MAX_TOPS, REACH,
};
use crate::stretch::Stretch;
use layout_geom::{Rect, Rects};
use layout_limits::MAX_SIDE;
use line_quality::{LEAST_OFFSET, OFFSET_MARGIN, crosses, middle};

/// The offset of a line that comes so many behind the first of a stretch.
fn offset_behind(from: i16, behind: u16) -> i16
    requires low { LEAST_OFFSET ≤ℤ from }
    requires high { (from +ℤ pos behind) ≤ℤ pos (MAX_SIDE + OFFSET_MARGIN + 1) }
    ensures { result ≡ from +ℤ pos behind }
{
    (from as i32 + behind as i32) as i16
}

/// Whether all lines of a stretch cross a gutter: it does not look at those between the first and one behind the last.
fn crosses_all(stretch: &Stretch, gutter: &Rect) -> bool
    requires slope { IsSlope stretch.now.slope }
    requires low { LEAST_OFFSET ≤ℤ stretch.now.from }
    requires high { (stretch.now.from +ℤ pos stretch.now.offsets) ≤ℤ pos (MAX_SIDE + OFFSET_MARGIN + 1) }
    ensures { IsTrue result → (more : ℕ) → more < stretch.now.offsets
        → Crosses stretch.now.slope (stretch.now.from +ℤ pos more) gutter.now }
{
    crosses(stretch.slope, stretch.from, gutter)
        && crosses(
            stretch.slope,
            offset_behind(stretch.from, stretch.offsets),
            gutter,
        )
}

/// Which segments begin with a gutter that all lines of a stretch cross: another part begins there.
fn cuts(stretch: &Stretch, gutters: &Rects) -> [bool; MAX_SEGMENTS]
    requires slope { IsSlope stretch.now.slope }
    requires low { LEAST_OFFSET ≤ℤ stretch.now.from }
    requires high { (stretch.now.from +ℤ pos stretch.now.offsets) ≤ℤ pos (MAX_SIDE + OFFSET_MARGIN + 1) }
    requires few_gutters { length gutters.now ≤ MAX_TABLE_GUTTERS }
    ensures { AreCuts gutters.now stretch.now result }
{
    let mut cuts = [false; MAX_SEGMENTS];
    for gutter in gutters.as_slice() {
        if crosses_all(stretch, gutter) {
            cuts[segment(gutters, middle(gutter))] = true;
        }
    }
    cuts
}

/// What counts weigh for the line of no depth of a place.
fn bell(counts: &[u32], place: usize) -> u32
    requires counts { ArePartCounts counts.now }
    requires place { place < MAX_TOPS }
    ensures { result ≡ weighed counts.now place 0 }
{
    9 * (counts[place] + counts[place + 8])
        + 16 * (counts[place + 1] + counts[place + 7])
        + 21 * (counts[place + 2] + counts[place + 6])
        + 24 * (counts[place + 3] + counts[place + 5])
        + 25 * counts[place + 4]
}

/// What counts weigh for each line of no depth.
pub(crate) fn bells(counts: &[u32]) -> [u32; MAX_TOPS]
    requires { ArePartCounts counts.now }
    ensures { AreBells counts.now result }
{
    let mut bells = [0; MAX_TOPS];
    for place in 0..MAX_TOPS {
        bells[place] = bell(counts, place);
    }
    bells
}

impl Counts {
    /// Which segments begin with a gutter that all lines of a stretch cross.
    pub(crate) fn cuts(&self, stretch: &Stretch) -> [bool; MAX_SEGMENTS]
        requires { IsOfPage self.now.height stretch.now }
        ensures { AreCuts self.now.gutters stretch.now result }
    {
        cuts(stretch, &self.gutters)
    }

    /// Adds the counts of a segment at the places that weigh something for a stretch.
    pub(crate) fn add_counts(&self, sums: &mut [u32], stretch: &Stretch, of_segment: usize)
        requires of_page { IsOfPage self.now.height stretch.now }
        requires some { 0 < stretch.now.offsets }
        requires few { stretch.now.offsets ≤ BATCH }
        requires long { length sums.old ≡ MAX_PLACES }
        requires segment { of_segment ≤ length self.now.gutters }
        requires room { (place : ℕ) → slice_index sums.old place ≤ MAX_PART_COUNT }
        ensures long { length sums.new ≡ MAX_PLACES }
        ensures more { (place : ℕ) → place < stretch.now.offsets + stretch.now.deepest + 2 * REACH
            → slice_index sums.new place ≡ slice_index sums.old place + count_behind self.now stretch.now place of_segment }
        ensures small { (place : ℕ) → slice_index sums.new place ≤ slice_index sums.old place + 65535 }
    {
        let reach = (stretch.offsets - 1) as u8 + stretch.deepest;
        let row = self.row(stretch.slope, stretch.from, reach, of_segment);
        for place in 0..row.len() {
            sums[place] += row[place] as u32;
        }
    }
}
