//! How much lines of one depth can score at most: what the counts of a part weigh for them.
ghost use Rattle.std.specs.Prelude.{◌≡◌, ◌+◌, ◌*◌, ◌<◌, ◌≤◌, ℕ, length, slice_index};
ghost use Rattle.line_counts.specs.Tops;
ghost use Rattle.line_counts.specs.Tops.{ArePartCounts, AreBells, weighed};

use crate::greatest::greatest_of_first;
use crate::limits::{BATCH, MAX_PLACES, MAX_TOPS, REACH};
use line_quality::{MAX_DEPTH, MAX_WEIGHT, weight_at};

/// What a box weighs less than for a line and for that of its descenders together, by how far it is behind the first place that
/// weighs something for the latter.
fn common_weight(depth: u8, behind: u8) -> u32
    requires depth { depth ≤ MAX_DEPTH }
    requires behind { behind ≤ 2 * REACH }
    ensures { result ≡ Tops.common_weight depth behind }
{
    let from_line = (depth as u32 + behind as u32).abs_diff(REACH as u32);
    let from_descenders = (behind as u32).abs_diff(REACH as u32);
    weight_at(from_line.max(from_descenders))
}

/// What lines and those of their descenders come to.
fn both_bells(bells: &[u32], depth: u8) -> [u32; BATCH as usize]
    requires long { length bells.now ≡ MAX_TOPS }
    requires depth { depth ≤ MAX_DEPTH }
    requires small { (place : ℕ) → slice_index bells.now place ≤ 2000000000 }
    ensures long { length result ≡ BATCH }
    ensures value { (more : ℕ) → more < BATCH → slice_index result more ≡ slice_index bells.now more + slice_index bells.now (more + depth) }
{
    let mut sums = [0; BATCH as usize];
    for more in 0..BATCH as usize {
        sums[more] = bells[more] + bells[more + depth as usize];
    }
    sums
}

/// Lessens the sums by what counts weigh, from a place on.
fn lessen(sums: &mut [u32], counts: &[u32], from: usize, less: u32)
    requires long { length sums.old ≡ BATCH }
    requires counts { ArePartCounts counts.now }
    requires from { from + BATCH ≤ MAX_PLACES }
    requires less { less ≤ MAX_WEIGHT }
    requires enough { (more : ℕ) → more < BATCH → less * slice_index counts.now (from + more) ≤ slice_index sums.old more }
    ensures long { length sums.new ≡ BATCH }
    ensures value { (more : ℕ) → more < BATCH → slice_index sums.new more + less * slice_index counts.now (from + more) ≡ slice_index sums.old more }
{
    for more in 0..BATCH as usize {
        sums[more] -= less * counts[from + more];
    }
}

/// The first bells, one for each line of no depth.
fn first_bells(bells: &[u32]) -> [u32; BATCH as usize]
    requires long { length bells.now ≡ MAX_TOPS }
    ensures long { length result ≡ BATCH }
    ensures value { (more : ℕ) → more < BATCH → slice_index result more ≡ slice_index bells.now more }
{
    let mut first = [0; BATCH as usize];
    for more in 0..BATCH as usize {
        first[more] = bells[more];
    }
    first
}

/// What counts weigh at most for the lines of a depth: as much as for the lines and those of their descenders, but for what weighs
/// something for both. Where all of them weigh less than enough anyhow, that stays in.
pub(crate) fn line_sums(
    counts: &[u32],
    bells: &[u32],
    depth: u8,
    enough: u64,
) -> [u32; BATCH as usize]
    requires counts { ArePartCounts counts.now }
    requires bells { AreBells counts.now bells.now }
    requires depth { depth ≤ MAX_DEPTH }
    ensures long { length result ≡ BATCH }
    ensures over { (more : ℕ) → more < BATCH → weighed counts.now more depth ≤ slice_index result more }
{
    if depth == 0 {
        return first_bells(bells);
    }
    let mut sums = both_bells(bells, depth);
    if (greatest_of_first(&sums, BATCH as usize) as u64) < enough {
        return sums;
    }
    for behind in 0..9 - depth.min(9) {
        lessen(
            sums.as_mut_slice(),
            counts,
            (depth + behind) as usize,
            common_weight(depth, behind),
        );
    }
    sums
}
