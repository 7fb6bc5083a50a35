//! Which layouts can be written.
ghost use Rattle.std.specs.Prelude.{◌≡◌, ◌<◌, ℕ, All, length, slice_index, IsTrue, ◌↔◌};
ghost use Rattle.hocr_writer.specs.Listing.{AreDistinct, NamesLines, SplitListing, IsMark, HasWords, IsWholeLayout, HasEachOnce};

use crate::layout::{Layout, Mark, WordRows};
use layout_geom::{Area, Order};
use line_quality::{LEAST_OFFSET, LEAST_SLOPE, MAX_DEPTH, MAX_OFFSET, MAX_SLOPE};

/// Whether all numbers are below a count.
fn are_below(numbers: &[u32], count: usize) -> bool
    ensures { IsTrue result ↔ All (λ number. number < count) numbers.now }
{
    numbers.iter().all(|number| (*number as usize) < count)
}

/// Whether a number is none of others.
fn is_none_of(number: u32, others: &[u32]) -> bool
    ensures { IsTrue result ↔ All (λ other. other ≡ number → ⊥) others.now }
{
    others.iter().all(|other| *other != number)
}

/// Whether no two numbers are equal.
fn are_distinct(numbers: &[u32]) -> bool
    ensures { IsTrue result ↔ AreDistinct numbers.now }
{
    for (place, number) in numbers.iter().enumerate() {
        if !is_none_of(*number, &numbers[place + 1..]) {
            return false;
        }
    }
    true
}

/// Whether an order has each of so many lines once, or a cycle none but these.
fn names_lines(order: &Order, count: usize) -> bool
    ensures { IsTrue result ↔ NamesLines order.now count }
{
    match order {
        Order::Topological(numbers) => {
            let numbers = numbers.as_slice();
            numbers.len() == count && are_below(numbers, count) && are_distinct(numbers)
        }
        Order::Cycle(numbers) => are_below(numbers.as_slice(), count),
    }
}

/// Whether the areas split a listing of so many lines from its front to its end.
fn split_listing(areas: &[Area], count: usize) -> bool
    ensures { IsTrue result ↔ SplitListing 0 count areas.now }
{
    let mut end = 0;
    for area in areas {
        if area.first as usize != end {
            return false;
        }
        end = area.first as usize + area.count as usize;
    }
    end == count
}

/// Whether the slope, the offset and the depth of a line are those of a grid.
fn is_mark(mark: &Mark) -> bool
    ensures { IsTrue result ↔ IsMark mark.now }
{
    LEAST_SLOPE <= mark.slope
        && mark.slope <= MAX_SLOPE
        && LEAST_OFFSET <= mark.offset
        && mark.offset <= MAX_OFFSET
        && mark.depth <= MAX_DEPTH
}

/// Whether there is one item of words for each of so many lines where they are shown, and none where they are not.
fn has_words(with_words: bool, count: usize, words: &WordRows) -> bool
    ensures { IsTrue result ↔ HasWords with_words count words.now }
{
    if with_words {
        words.len() == count
    } else {
        words.is_empty()
    }
}

impl Layout {
    /// Whether the layout can be written: its order has each line once, or its cycle none but the
    /// lines; its areas split the listing from its front to its end without a gap; each slope is
    /// from `LEAST_SLOPE` to `MAX_SLOPE`, each offset from `LEAST_OFFSET` to `MAX_OFFSET`, and each
    /// depth at most `MAX_DEPTH`; and it has one item of words for each line where they are shown, and
    /// none where they are not.
    ///
    /// Time grows with the square of the number of lines. It takes no memory.
    pub fn is_whole(&self) -> bool
        ensures { IsTrue result ↔ IsWholeLayout self.now }
    {
        let count = self.lines.len();
        names_lines(&self.order, count)
            && split_listing(self.areas.as_slice(), count)
            && self.lines.as_slice().iter().all(is_mark)
            && has_words(self.with_words, count, &self.words)
    }
}
