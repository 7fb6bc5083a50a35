//! The threshold that parts the gaps of a line.
ghost use Rattle.std.specs.Prelude.{◌≡◌, ◌-◌, ◌<◌, ◌≤◌, length, take, slice_index, sum, IfOk};
ghost use Rattle.std.specs.List.Sorted.{IsNonDecreasing};
ghost use Rattle.word_split.specs.Thresholds.{IsThresholdOf};
ghost use Rattle.word_split.specs.Partings.{IsCut, IsPartingOf, IsBestParting, IsBetter};

use crate::parting::{MAX_MEMBERS, Parting};
use layout_limits::{MAX_SIDE, OutOfMemory};
use std::alloc::Global;

/// Of the best parting so far and one more, the one that separates better, and the earlier of two that do alike.
fn better(best: Option<Parting>, parting: Parting) -> Parting
    ensures { IsBetter best parting result }
{
    match best {
        Some(best) => {
            if parting.separates_better(&best) {
                parting
            } else {
                best
            }
        }
        None => parting,
    }
}

/// The sum of gaps in columns.
fn total(gaps: &[u16]) -> u64
    requires { sum gaps.now ≤ MAX_SIDE }
    ensures { result ≡ sum gaps.now }
{
    gaps.iter().map(|gap| u64::from(*gap)).sum()
}

/// The parting of rising gaps whose first `count` are narrow: the last of these is the threshold, and the next gap is wider. The sum
/// of the narrow ones and that of all are given, in columns.
fn parting_at(rising: &[u16], count: usize, narrow_sum: u64, total: u64) -> Parting
    requires rises { IsNonDecreasing rising.now }
    requires few { length rising.now < MAX_MEMBERS }
    requires slim { sum rising.now ≤ MAX_SIDE }
    requires cut { IsCut rising.now count }
    requires narrow { narrow_sum ≡ sum (take count rising.now) }
    requires total { total ≡ sum rising.now }
    ensures threshold { result.threshold ≡ slice_index rising.now (count - 1) }
    ensures parting { IsPartingOf rising.now result }
{
    Parting {
        threshold: rising[count - 1],
        narrow_count: count as u64,
        narrow_sum,
        wide_count: (rising.len() - count) as u64,
        wide_sum: total - narrow_sum,
    }
}

/// The parting of rising gaps that separates best, and of several the one with the least threshold.
fn best_parting(rising: &[u16]) -> Option<Parting>
    requires rises { IsNonDecreasing rising.now }
    requires few { length rising.now < MAX_MEMBERS }
    requires slim { sum rising.now ≤ MAX_SIDE }
    ensures { IsBestParting rising.now result }
{
    let total = total(rising);
    let mut best = None;
    let mut narrow_sum = 0;
    for count in 1..rising.len() {
        narrow_sum += u64::from(rising[count - 1]);
        if rising[count - 1] < rising[count] {
            let parting = parting_at(rising, count, narrow_sum, total);
            best = Some(better(best, parting));
        }
    }
    best
}

/// The threshold at which a line with these gaps falls into words, in columns, where the text has this median height in rows.
pub(crate) fn threshold_of(
    alloc: Global,
    gaps: &[u16],
    median: u16,
) -> Result<Option<u16>, OutOfMemory>
    requires few { length gaps.now < MAX_MEMBERS }
    requires slim { sum gaps.now ≤ MAX_SIDE }
    ensures { IfOk result (IsThresholdOf gaps.now median) }
{
    let mut rising = Vec::from_slice(alloc, gaps)?;
    rising.sort_unstable();
    let Some(best) = best_parting(&rising) else {
        return Ok(None);
    };
    if best.parts_words(median) {
        Ok(Some(best.threshold))
    } else {
        Ok(None)
    }
}
