//! Bars: rectangles that stand for the boxes of a page in a search, since they leave the same white space.
ghost use Rattle.std.specs.Prelude.{◌≤◌, ◌<◌, ◌+◌, ◌*◌, ◌≡◌, ◌↔◌, ◌++◌, ◌∷◌, [], length, Contains, IfOk, OnOk, IfSome};
ghost use Rattle.std.specs.List.{AllZip};
ghost use Rattle.layout_geom.specs.declared.rect.Rect.{Rect};
ghost use Rattle.layout_geom.specs.Rectangles.{IsClear};
ghost use Rattle.whitespace_cover.specs.Bars.{IsJoint, LeaveSame, IsTurned};

use layout_geom::{Rect, Rects};
use layout_limits::{MAX_SIDE, OutOfMemory};
use std::alloc::Global;

/// The joint of a bar and the next rectangle: in the rows that they share, from the left side of the bar to
/// the right side of both. There is one where fewer columns than the least size are between them, and these
/// rows are at least half of the bar's, rounded down.
///
/// White space of the least size that reached into it would have to fit between the two.
fn join(bar: &Rect, next: &Rect, least: u16) -> Option<Rect>
    ensures { IfSome result (IsJoint least bar.now next.now) }
{
    let top = bar.y0().max(next.y0());
    let bottom = bar.y1().min(next.y1());
    let gap = next.x0().saturating_sub(bar.x1());
    if gap < least && bottom.saturating_sub(top) >= bar.height() / 2 {
        Rect::new(bar.x0(), top, bar.x1().max(next.x1()), bottom)
    } else {
        None
    }
}

/// Puts a rectangle behind the others, unless it lies in a joint that is one of them.
fn put_outside(bars: &mut Vec<Rect>, joint: &Rect, rect: Rect) -> Result<(), OutOfMemory>
    requires { Contains bars.old.items joint.now }
    ensures same { OnOk result ((r : Rect) → IsClear r bars.new.items ↔ IsClear r (bars.old.items ++ rect ∷ [])) }
    ensures kept { OnOk result (Contains bars.new.items joint.now) }
    ensures grown { OnOk result (length bars.old.items ≤ length bars.new.items) }
    ensures few { OnOk result (length bars.new.items ≤ length bars.old.items + 1) }
{
    if !joint.contains(&rect) {
        bars.push(rect)?;
    }
    Ok(())
}

/// Joins a rectangle to the bar of a number where it can, and else makes it a bar of its own. Gives
/// the number of its bar.
fn take_in(
    bars: &mut Vec<Rect>,
    number: usize,
    next: Rect,
    least: u16,
) -> Result<usize, OutOfMemory>
    ensures same { OnOk result (LeaveSame least bars.new.items (bars.old.items ++ next ∷ [])) }
    ensures few { OnOk result (length bars.new.items ≤ length bars.old.items + 2) }
    ensures number { IfOk result (λ number. number < length bars.new.items) }
{
    if number < bars.len() {
        let bar = bars[number];
        if let Some(joint) = join(&bar, &next, least) {
            bars[number] = joint;
            put_outside(bars, &joint, bar)?;
            put_outside(bars, &joint, next)?;
            return Ok(number);
        }
    }
    bars.push(next)?;
    Ok(bars.len() - 1)
}

/// Takes in rectangles in their order. A rectangle is held against the bar that was the last in the row
/// of its middle; `last` keeps the number of this bar for each row.
fn sweep(
    alloc: Global,
    rects: &[Rect],
    last: &mut [usize],
    least: u16,
) -> Result<Vec<Rect>, OutOfMemory>
    requires { length last.old ≡ MAX_SIDE }
    ensures same { IfOk result (λ bars. LeaveSame least bars.items rects.now) }
    ensures few { IfOk result (λ bars. length bars.items ≤ 2 * length rects.now) }
{
    let mut bars = Vec::new(alloc);
    for rect in rects {
        let middle = (rect.y0() as usize + rect.y1() as usize) / 2;
        let number = take_in(&mut bars, last[middle], *rect, least)?;
        let bar = bars[number];
        last[bar.y0() as usize..bar.y1() as usize].fill(number);
    }
    Ok(bars)
}

/// Joins rectangles to bars, from left to right.
fn joined(alloc: Global, mut rects: Vec<Rect>, least: u16) -> Result<Vec<Rect>, OutOfMemory>
    ensures same { IfOk result (λ bars. LeaveSame least bars.items rects.items) }
    ensures few { IfOk result (λ bars. length bars.items ≤ 2 * length rects.items) }
{
    rects.sort_unstable_by_key(|rect| (rect.x0(), rect.y0()));
    let mut last = Vec::from_elem(alloc, usize::MAX, MAX_SIDE as usize)?;
    let bars = sweep(alloc, &rects, &mut last, least)?;
    Ok(bars)
}

/// The rectangle with its columns and rows exchanged.
fn turned(rect: &Rect) -> Rect
    ensures { IsTurned rect.now result }
{
    Rect {
        x0: rect.y0(),
        y0: rect.x0(),
        x1: rect.y1(),
        y1: rect.x1(),
    }
}

/// The rectangles with their columns and rows exchanged.
fn all_turned(alloc: Global, rects: &[Rect]) -> Result<Vec<Rect>, OutOfMemory>
    ensures { IfOk result (λ turned. AllZip IsTurned rects.now turned.items) }
{
    let mut all = Vec::with_capacity(alloc, rects.len())?;
    for rect in rects {
        all.push(turned(rect))?;
    }
    Ok(all)
}

/// Bars in place of boxes: boxes of one line of text become one bar, since no white space of the least
/// size has room between them, and so do those of a column.
///
/// A rectangle of at least `least` columns and rows overlaps a bar exactly where it overlaps a box.
/// Fewer and longer obstacles make a search for white space shorter. The smallest bar comes first.
pub(crate) fn bars(alloc: Global, boxes: &Rects, least: u16) -> Result<Rects, OutOfMemory>
    requires { length boxes.now ≤ 60000 }
    ensures { IfOk result (λ bars. LeaveSame least bars boxes.now) }
{
    let lines = joined(alloc, Vec::from_slice(alloc, boxes.as_slice())?, least)?;
    let columns = joined(alloc, all_turned(alloc, &lines)?, least)?;
    let mut bars = all_turned(alloc, &columns)?;
    bars.sort_unstable_by_key(|bar| bar.area());
    Ok(Rects::from_vec(bars))
}
