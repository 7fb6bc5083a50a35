//! The greedy cover of the white space of a page.
ghost use Rattle.std.specs.Prelude.{◌≤◌, length, IfOk};
ghost use Rattle.whitespace_cover.specs.Cover.{IsCover, CoverIsUnique};

use crate::bars::bars;
use crate::white::White;
use box_search::Searcher;
use layout_geom::{Rect, Rects};
use layout_limits::{MAX_RECTS, OutOfMemory};
use std::alloc::Global;

/// The greedy cover of the white space of a page, after Breuel (2002): the greatest white rectangle
/// clear of the boxes, then the greatest one clear of the boxes and of the first, and so on, until
/// `count` are found or none is left.
///
/// Each rectangle lies in the page, shares no pixel with a box or with a rectangle before it, and is at
/// least `least` columns wide and `least` rows high. Of rectangles of one area the upper, then the left,
/// then the narrower is taken. `least` is at least 1, `count` at most `MAX_RECTS`, and there are at most 60,000
/// boxes. Every search starts from the whole page, behind bars in place of the boxes. The one refusal is
/// want of memory, after which it may be called again.
pub fn cover<F: Searcher<White>>(
    alloc: Global,
    page: Rect,
    boxes: &Rects,
    least: u16,
    count: u32,
    searcher: &mut F,
) -> Result<Rects, OutOfMemory>
    requires least { 1 ≤ least }
    requires count { count ≤ MAX_RECTS }
    requires boxes { length boxes.now ≤ 60000 }
    requires ready { F.ready searcher.old }
    ensures ready { F.ready searcher.new }
    ensures cover { IfOk result (IsCover page boxes.now least count) }
{
    let obstacles = bars(alloc, boxes, least)?;
    let mut white = White::indexed(alloc, page, obstacles, least)?;
    let mut rects = Rects::new(alloc);
    for _ in 0..count {
        let key = searcher.best(alloc, &white)?;
        let Some(rect) = Rect::of_key(key) else {
            return Ok(rects);
        };
        white.push(rect)?;
        rects.push(rect)?;
    }
    Ok(rects)
}

/// States a law, and does nothing: there is one cover of a page behind these boxes, so that `cover` has
/// one answer.
pub fn cover_is_unique()
    ensures one_cover { CoverIsUnique }
{}
