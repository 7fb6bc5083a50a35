//! The pivot of a rectangle: the obstacle round which it is cut.
ghost use Rattle.std.specs.Prelude.{◌≤◌, ◌^◌, ℕ, ◌<◌, ◌-◌, length, drop, Contains, IfSome, IfNone};
ghost use Rattle.layout_geom.specs.Rectangles.{Overlaps, IsClear};
ghost use Rattle.whitespace_cover.specs.Index.{IsIndexed};
ghost use Rattle.whitespace_cover.specs.Masks.{IsMask, IsClearOfLast};

use crate::cells::{Cells, pivot_in_cells};
use crate::region::Region;
use layout_geom::Rect;
use layout_limits::MAX_SIDE;

/// How many of the last obstacles have a bit in a mask.
const MASKED: usize = 64;

/// What a look at the obstacles answers.
#[derive(Clone, Copy, Debug)]
pub(crate) struct Scan {
    /// The obstacle to cut the rectangle at, if one overlaps it.
    pub(crate) pivot: Option<Rect>,
    /// The mask, less the bits of those that were looked at and do not overlap the rectangle.
    pub(crate) mask: u64,
}

/// The square of the number of pixels of a part of this size, or 0 where the part is not searched,
/// since it is below the least size.
fn effort(least: u16, width: u16, height: u16) -> u64
    requires wide { width ≤ MAX_SIDE }
    requires high { height ≤ MAX_SIDE }
    ensures { result ≤ 2 ^ 52 }
{
    if width < least || height < least {
        return 0;
    }
    let area = width as u64 * height as u64;
    area * area
}

/// The sum of the squares of what is left to search round a pivot.
fn left_to_search(least: u16, rect: &Rect, pivot: &Rect) -> u64 {
    let (width, height) = (rect.width(), rect.height());
    effort(least, pivot.x0().saturating_sub(rect.x0()), height)
        + effort(least, rect.x1().saturating_sub(pivot.x1()), height)
        + effort(least, width, pivot.y0().saturating_sub(rect.y0()))
        + effort(least, width, rect.y1().saturating_sub(pivot.y1()))
}

/// Of the obstacles that overlap a rectangle, the first round which least is left to search.
pub(crate) fn best_pivot(least: u16, obstacles: &[Rect], rect: &Rect) -> Option<Rect>
    ensures some { IfSome result (λ pivot. Contains obstacles.now pivot × Overlaps rect.now pivot) }
    ensures none { IfNone result (IsClear rect.now obstacles.now) }
{
    let mut best = None;
    let mut least_left = u64::MAX;
    for obstacle in obstacles {
        if rect.overlaps(obstacle) {
            let left = left_to_search(least, rect, obstacle);
            if best.is_none() || left < least_left {
                best = Some(*obstacle);
                least_left = left;
            }
        }
    }
    best
}

/// Of the last obstacles whose bits are set in a region's mask, the best pivot of its rectangle.
fn best_masked(least: u16, obstacles: &[Rect], reach: usize, region: &Region) -> Scan
    requires reach { reach ≤ length obstacles.now }
    requires few { reach ≤ MASKED }
    requires mask { IsMask obstacles.now region.now.rect region.now.mask }
    ensures some { IfSome result.pivot (λ pivot. Contains obstacles.now pivot × Overlaps region.now.rect pivot) }
    ensures none { IfNone result.pivot (IsClearOfLast reach region.now.rect obstacles.now) }
    ensures mask { IsMask obstacles.now region.now.rect result.mask }
{
    let rect = &region.rect;
    let (mut pivot, mut mask) = (None, region.mask);
    let mut least_left = u64::MAX;
    let mut rest = region.mask;
    while (rest.trailing_zeros() as usize) < reach {
        let bit = rest.trailing_zeros();
        rest &= !(1u64 << bit);
        let candidate = &obstacles[obstacles.len() - 1 - bit as usize];
        if rect.overlaps(candidate) {
            let left = left_to_search(least, rect, candidate);
            if pivot.is_none() || left < least_left {
                pivot = Some(*candidate);
                least_left = left;
            }
        } else {
            mask &= !(1u64 << bit);
        }
    }
    Scan { pivot, mask }
}

/// The best pivot of a region among the obstacles behind the first `count`: of the last ones, which have bits, and
/// else of the others.
fn best_behind(least: u16, obstacles: &[Rect], count: usize, region: &Region) -> Scan
    requires count { count ≤ length obstacles.now }
    requires mask { IsMask obstacles.now region.now.rect region.now.mask }
    ensures some { IfSome result.pivot (λ pivot. Contains obstacles.now pivot × Overlaps region.now.rect pivot) }
    ensures none { IfNone result.pivot (IsClear region.now.rect (drop count obstacles.now)) }
    ensures mask { IsMask obstacles.now region.now.rect result.mask }
{
    let reach = MASKED.min(obstacles.len() - count);
    let scan = best_masked(least, obstacles, reach, region);
    if scan.pivot.is_some() {
        return scan;
    }
    let others = &obstacles[count..obstacles.len() - reach];
    Scan {
        pivot: best_pivot(least, others, &region.rect),
        mask: scan.mask,
    }
}

/// The obstacle to cut a region's rectangle at. Any that overlaps it would do; this one keeps the search short:
/// the best of those behind the index, and else the best of a cell near the middle.
pub(crate) fn pivot_of(
    least: u16,
    obstacles: &[Rect],
    cells: &Option<Cells>,
    region: &Region,
) -> Scan
    requires index { IsIndexed region.now.rect obstacles.now cells.now }
    requires mask { IsMask obstacles.now region.now.rect region.now.mask }
    ensures some { IfSome result.pivot (λ pivot. Contains obstacles.now pivot × Overlaps region.now.rect pivot) }
    ensures none { IfNone result.pivot (IsClear region.now.rect obstacles.now) }
    ensures mask { IsMask obstacles.now region.now.rect result.mask }
{
    let Some(cells) = cells else {
        return best_behind(least, obstacles, 0, region);
    };
    let scan = best_behind(least, obstacles, cells.count, region);
    if scan.pivot.is_some() {
        return scan;
    }
    Scan {
        pivot: pivot_in_cells(&cells.lists, cells.across, least, &region.rect),
        mask: scan.mask,
    }
}
