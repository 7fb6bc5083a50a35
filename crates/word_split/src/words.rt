//! The words of a line.
ghost use Rattle.std.specs.Prelude.{◌≡◌, ℕ, ◌+◌, ◌<◌, ◌≤◌, length, slice_index, IfOk, IsTrue, ◌↔◌, All};
ghost use Rattle.layout_geom.specs.declared.rect.Rect.{Rect};
ghost use Rattle.layout_geom.specs.Rectangles.{Encloses};
ghost use Rattle.word_split.specs.Members.{IsRound};
ghost use Rattle.word_split.specs.Partings.{IsAbove};
ghost use Rattle.word_split.specs.Words.{IsWord, AreWordsFrom, AreWordsOf};

use crate::gaps::gaps_of;
use crate::line::line_of;
use crate::parting::MAX_MEMBERS;
use crate::threshold::threshold_of;
use layout_geom::{Numbers, Rect, Rects};
use layout_limits::OutOfMemory;
use std::alloc::Global;

/// A word of a line.
#[derive(Clone, Copy)]
struct Word {
    /// The number of the box behind its last.
    end: usize,
    /// The least rectangle round its boxes.
    bbox: Rect,
}

/// Whether a gap is wider than the threshold, where there is one.
fn is_break(threshold: Option<u16>, gap: u16) -> bool
    ensures { IsTrue result ↔ IsAbove threshold gap }
{
    match threshold {
        Some(threshold) => threshold < gap,
        None => false,
    }
}

/// The word that begins at a box.
fn word_at(line: &[Rect], gaps: &[u16], threshold: Option<u16>, first: usize) -> Word
    requires first { first < length line.now }
    requires count { length gaps.now + 1 ≡ length line.now }
    requires contained { (outer : Rect) × All (Encloses outer) line.now }
    ensures { IsWord line.now (λ k. IsAbove threshold (slice_index gaps.now k)) first result.end result.bbox }
{
    let mut bbox = line[first];
    for place in first..gaps.len() {
        if is_break(threshold, gaps[place]) {
            return Word {
                end: place + 1,
                bbox,
            };
        }
        bbox = bbox.hull(&line[place + 1]);
    }
    Word {
        end: line.len(),
        bbox,
    }
}

/// The words that a line falls into, where a gap that is wider than the threshold is between two.
fn split(
    alloc: Global,
    line: &[Rect],
    gaps: &[u16],
    threshold: Option<u16>,
) -> Result<Rects, OutOfMemory>
    requires count { length gaps.now + 1 ≡ length line.now }
    requires contained { (outer : Rect) × All (Encloses outer) line.now }
    ensures { IfOk result (AreWordsFrom line.now (λ k. IsAbove threshold (slice_index gaps.now k)) 0) }
{
    let mut words = Rects::new(alloc);
    let mut first = 0;
    while first < line.len() {
        let word = word_at(line, gaps, threshold, first);
        first = word.end;
        words.push(word.bbox)?;
    }
    Ok(words)
}

/// The words of a line, from left to right: the least rectangle round the boxes of each.
///
/// The members of the line are positions in `boxes`, in any order; `median` is the median height of the page's boxes in
/// rows. The boxes of the members go by `x0`, then `y0`, `x1` and `y1`. The gap before a box is how far it begins right of all
/// boxes before it, in columns. A threshold parts the gaps into narrow ones, of at most so many columns, and wide ones; the
/// one that separates them best (Otsu 1979, over the gaps as they are) is chosen, and the least of several. Where the wide
/// gaps are on the average at least `LEAST_RATIO` times as wide as the narrow ones, and at least `median / LEAST_PART`, the
/// line is split at each wide gap. Otherwise it is one word.
///
/// One rectangle contains the boxes of the members, as the box of a line does. For n members this takes time of n log n
/// steps, and memory for the boxes and for the gaps, twice.
///
/// # Errors
///
/// Want of memory is the one refusal.
pub fn word_boxes(
    alloc: Global,
    boxes: &Rects,
    members: &Numbers,
    median: u16,
) -> Result<Rects, OutOfMemory>
    requires some { 0 < length members.now }
    requires few { length members.now ≤ MAX_MEMBERS }
    requires within { All (λ position. position < length boxes.now) members.now }
    requires contained { (outer : Rect) × IsRound boxes.now members.now outer }
    ensures words { IfOk result (AreWordsOf boxes.now members.now median) }
{
    let line = line_of(alloc, boxes, members)?;
    let gaps = gaps_of(alloc, &line)?;
    let threshold = threshold_of(alloc, &gaps, median)?;
    split(alloc, &line, &gaps, threshold)
}
