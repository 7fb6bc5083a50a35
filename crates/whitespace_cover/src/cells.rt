//! An index of rectangles by cells of 64 by 64 pixels, which finds those that overlap a rectangle.
ghost use Rattle.std.specs.Prelude.{◌≡◌, ℕ, ◌+◌, ◌-◌, ◌*◌, ◌/◌, ◌<◌, ◌≤◌, ◌⊎◌, ◌++◌, ◌∷◌, [], length, All};
ghost use Rattle.std.specs.Prelude.{Any, Contains, IsTrue, IfOk, OnOk, IfSome, IfNone};
ghost use Rattle.layout_geom.specs.declared.rect.Rect.{Rect};
ghost use Rattle.layout_geom.specs.Rectangles.{HasPixel, Overlaps, Encloses, IsClear};
ghost use Rattle.whitespace_cover.specs.Index.{cell_of, list_at, SomeHasPixel, IsIndex, Adds, IsFromMiddle};

use crate::pivot::best_pivot;
use layout_geom::{Rect, Rects};
use layout_limits::{MAX_SIDE, OutOfMemory};
use std::alloc::Global;

/// The columns of a cell, and its rows.
const CELL_SIDE: usize = 64;

/// The most cells in a row of cells, and the most rows of cells.
const MAX_CELLS: usize = MAX_SIDE as usize / CELL_SIDE;

/// An index of the first rectangles of a list, in the cells that a page reaches into.
#[derive(Drop)]
pub(crate) struct Cells {
    /// How many rectangles it knows.
    pub(crate) count: usize,
    /// The cells of a row of cells.
    pub(crate) across: usize,
    /// For each cell, row by row, rectangles that reach into it.
    pub(crate) lists: Vec<Rects>,
}

/// The cell that has the pixels of this column or row.
fn cell(pixel: u16) -> usize
    ensures { result ≡ pixel / CELL_SIDE }
{
    pixel as usize / CELL_SIDE
}

/// Rows of cells that list no rectangle.
fn empty_lists(alloc: Global, across: usize, rows: usize) -> Result<Vec<Rects>, OutOfMemory>
    requires across { across ≤ MAX_CELLS }
    requires rows { rows ≤ MAX_CELLS }
    ensures count { IfOk result (λ lists. length lists.items ≡ rows * across) }
    ensures empty { IfOk result (λ lists. All (λ list. list ≡ []) lists.items) }
{
    let count = rows * across;
    let mut lists = Vec::with_capacity(alloc, count)?;
    for _ in 0..count {
        lists.push(Rects::new(alloc))?;
    }
    Ok(lists)
}

/// Whether one of the rectangles has all pixels of another.
fn some_encloses(rects: &[Rect], part: &Rect) -> bool
    ensures { IsTrue result → Any (λ rect. Encloses rect part.now) rects.now }
{
    for rect in rects {
        if rect.contains(part) {
            return true;
        }
    }
    false
}

/// Lists a rectangle in a cell that it reaches into, unless one that is listed there has all its pixels in
/// the cell.
fn put_in_cell(list: &mut Rects, row: usize, column: usize, rect: &Rect) -> Result<(), OutOfMemory>
    requires row { row < MAX_CELLS }
    requires column { column < MAX_CELLS }
    ensures grown { OnOk result ((list.new ≡ list.old) ⊎ (list.new ≡ list.old ++ rect.now ∷ [])) }
    ensures taken { OnOk result ((x y : ℕ) → HasPixel rect.now x y → x / CELL_SIDE ≡ column → y / CELL_SIDE ≡ row
        → SomeHasPixel list.new x y) }
{
    let (left, top) = ((column * CELL_SIDE) as u16, (row * CELL_SIDE) as u16);
    let inside = Rect::new(
        rect.x0().max(left),
        rect.y0().max(top),
        rect.x1().min(left + CELL_SIDE as u16),
        rect.y1().min(top + CELL_SIDE as u16),
    );
    if let Some(part) = inside {
        if some_encloses(list.as_slice(), &part) {
            return Ok(());
        }
    }
    list.push(*rect)?;
    Ok(())
}

/// Lists a rectangle in the cells of a row that it reaches into, as far as there are.
fn put_in_row(
    lists: &mut [Rects],
    across: usize,
    row: usize,
    rect: &Rect,
) -> Result<(), OutOfMemory>
    requires across { across ≤ MAX_CELLS }
    requires row { row < MAX_CELLS }
    requires there { row * across + across ≤ length lists.old }
    ensures adds { OnOk result (Adds rect.now lists.old lists.new) }
    ensures taken { OnOk result ((x y : ℕ) → HasPixel rect.now x y → x / CELL_SIDE < across → y / CELL_SIDE ≡ row
        → SomeHasPixel (list_at lists.new (cell_of across x y)) x y) }
{
    for column in cell(rect.x0())..across.min(cell(rect.x1() - 1) + 1) {
        put_in_cell(&mut lists[row * across + column], row, column, rect)?;
    }
    Ok(())
}

/// Lists a rectangle in the cells that it reaches into, as far as there are.
fn put(lists: &mut [Rects], across: usize, rows: usize, rect: &Rect) -> Result<(), OutOfMemory>
    requires rows { length lists.old ≡ rows * across }
    requires narrow { across ≤ MAX_CELLS }
    requires few { rows ≤ MAX_CELLS }
    ensures adds { OnOk result (Adds rect.now lists.old lists.new) }
    ensures taken { OnOk result ((x y : ℕ) → HasPixel rect.now x y → x / CELL_SIDE < across → y / CELL_SIDE < rows
        → SomeHasPixel (list_at lists.new (cell_of across x y)) x y) }
{
    for row in cell(rect.y0())..rows.min(cell(rect.y1() - 1) + 1) {
        put_in_row(lists, across, row, rect)?;
    }
    Ok(())
}

/// Lists rectangles in the cells, the last of them first.
fn put_rects(
    lists: &mut [Rects],
    across: usize,
    rows: usize,
    rects: &[Rect],
) -> Result<(), OutOfMemory>
    requires rows { length lists.old ≡ rows * across }
    requires narrow { across ≤ MAX_CELLS }
    requires few { rows ≤ MAX_CELLS }
    requires empty { All (λ list. list ≡ []) lists.old }
    ensures { OnOk result (IsIndex across rows rects.now lists.new) }
{
    for done in 0..rects.len() {
        put(lists, across, rows, &rects[rects.len() - 1 - done])?;
    }
    Ok(())
}

/// The k-th of `count` places from `first` on, taken from the middle outwards.
fn from_middle(first: usize, count: usize, k: usize) -> usize
    requires within { k < count }
    requires small { first + count ≤ MAX_CELLS }
    ensures place { IsFromMiddle first count k result }
    ensures low { first ≤ result }
    ensures high { result < first + count }
{
    let middle = first + count / 2;
    if k % 2 == 0 {
        middle + k / 2
    } else {
        middle - (k + 1) / 2
    }
}

/// The pivot of a rectangle in the first cell of a row that has one, from the middle outwards.
fn pivot_in_row(lists: &[Rects], across: usize, row: usize, least: u16, rect: &Rect) -> Option<Rect>
    requires wide { rect.now.x1 ≤ across * CELL_SIDE }
    requires there { row * across + across ≤ length lists.now }
    ensures some { IfSome result (λ pivot. (cell : ℕ) × Contains (list_at lists.now cell) pivot × Overlaps rect.now pivot) }
    ensures none { IfNone result ((x y : ℕ) → HasPixel rect.now x y → y / CELL_SIDE ≡ row
        → IsClear rect.now (list_at lists.now (cell_of across x y))) }
{
    let first = cell(rect.x0());
    let count = cell(rect.x1() - 1) + 1 - first;
    for k in 0..count {
        let column = from_middle(first, count, k);
        let list = &lists[row * across + column];
        if let Some(pivot) = best_pivot(least, list.as_slice(), rect) {
            return Some(pivot);
        }
    }
    None
}

impl Cells {
    ghost use Rattle.whitespace_cover.specs.Index.{IsIndexOf};

    /// An index of the first rectangles of a list, for the rectangles of a page. Where the list goes from
    /// smaller to larger ones, the cells list fewer.
    pub(crate) fn new(
        alloc: Global,
        page: &Rect,
        rects: &[Rect],
        count: usize,
    ) -> Result<Cells, OutOfMemory>
        requires { count ≤ length rects.now }
        ensures { IfOk result (IsIndexOf page.now rects.now) }
    {
        let (front, _) = rects.split_at(count);
        let across = cell(page.x1() - 1) + 1;
        let rows = cell(page.y1() - 1) + 1;
        let mut lists = empty_lists(alloc, across, rows)?;
        put_rects(&mut lists, across, rows, front)?;
        Ok(Cells {
            count,
            across,
            lists,
        })
    }
}

/// The pivot of a rectangle among those that the cells list: it is looked for from the middle of the
/// rectangle outwards, and taken from the first cell that has one.
pub(crate) fn pivot_in_cells(
    lists: &[Rects],
    across: usize,
    least: u16,
    rect: &Rect,
) -> Option<Rect>
    requires wide { rect.now.x1 ≤ across * CELL_SIDE }
    requires high { (row : ℕ) → row ≤ (rect.now.y1 - 1) / CELL_SIDE → row * across + across ≤ length lists.now }
    ensures some { IfSome result (λ pivot. (cell : ℕ) × Contains (list_at lists.now cell) pivot × Overlaps rect.now pivot) }
    ensures none { IfNone result ((x y : ℕ) → HasPixel rect.now x y → IsClear rect.now (list_at lists.now (cell_of across x y))) }
{
    let first = cell(rect.y0());
    let count = cell(rect.y1() - 1) + 1 - first;
    for k in 0..count {
        let row = from_middle(first, count, k);
        if let Some(pivot) = pivot_in_row(lists, across, row, least, rect) {
            return Some(pivot);
        }
    }
    None
}
