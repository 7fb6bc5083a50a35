//! The reading order of lines.
ghost use Rattle.std.specs.Prelude.{IfOk};
ghost use Rattle.reading_order.specs.Answers.{IsReadingOrder};

use crate::cycle::least_cycle;
use crate::front::{Front, take_free};
use crate::rows::table_of;
use layout_geom::{Order, Rects};
use layout_limits::OutOfMemory;
use std::alloc::Global;

/// The order in which a person reads the lines of a page, by two rules of Breuel (2003).
///
/// The numbers of the lines are their positions in the list, which may hold any rectangles, equal ones too. Twice the
/// middle row of a line is `y0 + y1`.
///
/// - The above rule: of two lines whose x-ranges overlap, the one with the lesser middle is before the other.
/// - The beside rule: a line is before another that lies right of it (`a.x1 <= b.x0`), except where some line has its
///   middle strictly between theirs and an x-range that overlaps both.
///
/// `Order::Topological` carries the lexicographically least permutation of the numbers in which each line stands behind
/// all that are before it. `Order::Cycle` comes exactly where there is no such permutation. It carries a list of distinct
/// numbers in which each is before the next and the last is before the first: it starts at the least number on any
/// cycle, is a shortest one from there, and the lexicographically least of these.
///
/// For n lines this takes some n*n steps and n*n/8 bytes, however many cycles there are: for 20,000 lines a few seconds and
/// 51 MB.
///
/// # Errors
///
/// Want of memory is the one refusal.
pub fn order_of(alloc: Global, lines: &Rects) -> Result<Order, OutOfMemory>
    ensures order { IfOk result (IsReadingOrder lines.now) }
{
    let count = lines.len();
    let before = table_of(alloc, lines.as_slice())?;
    let Front { order, taken } = take_free(alloc, &before)?;
    if order.len() == count {
        Ok(Order::Topological(order))
    } else {
        Ok(Order::Cycle(least_cycle(alloc, &before, taken)?))
    }
}
