//! The gaps of a line: the white columns between its boxes.
ghost use Rattle.std.specs.Prelude.{◌<◌, ◌≤◌, length, sum, IfOk};
ghost use Rattle.word_split.specs.Gaps.{AreGapsOf};

use layout_geom::Rect;
use layout_limits::{MAX_SIDE, OutOfMemory};
use std::alloc::Global;

/// For each box but the first, how many columns it begins right of all boxes before it, and 0 where it does not.
pub(crate) fn gaps_of(alloc: Global, line: &[Rect]) -> Result<Vec<u16>, OutOfMemory>
    requires { 0 < length line.now }
    ensures gaps { IfOk result (λ gaps. AreGapsOf line.now gaps.items) }
    // They lie side by side on a page.
    ensures slim { IfOk result (λ gaps. sum gaps.items ≤ MAX_SIDE) }
{
    let mut gaps = Vec::new(alloc);
    let mut right = line[0].x1();
    for place in 1..line.len() {
        let next = &line[place];
        gaps.push(next.x0().saturating_sub(right))?;
        right = right.max(next.x1());
    }
    Ok(gaps)
}
