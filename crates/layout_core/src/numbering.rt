//! The text lines of a page in the order of their numbers, and the areas that they form.
ghost use Rattle.std.specs.Prelude.{◌≡◌, ◌≤◌, length, map, IfOk, All};
ghost use Rattle.std.specs.List.{range_with_len};
ghost use Rattle.layout_geom.specs.declared.rect.Rect.{Rect};
ghost use Rattle.layout_geom.specs.Rectangles.{Encloses};
ghost use Rattle.hocr_writer.specs.Listing.{NamesLines, listing};
ghost use Rattle.reading_order.specs.Answers.{IsReadingOrder};
ghost use Rattle.reading_order.specs.Areas.{AreAreasOf};
ghost use Rattle.layout_core.specs.Numbering.{mark_of, box_of, AreInOrder};

use hocr_writer::{Mark, Marks};
use layout_geom::{Areas, Numbers, Order, Rect, Rects};
use layout_limits::OutOfMemory;
use line_search::{Line, Lines};
use reading_order::areas_of;
use std::alloc::Global;

/// What the document shows of a line.
fn mark_of_line(line: &Line) -> Mark
    ensures { result ≡ mark_of line.now }
{
    Mark {
        bbox: line.bbox,
        slope: line.slope,
        offset: line.offset,
        depth: line.depth,
    }
}

fn shown_of(alloc: Global, lines: &[Line]) -> Result<Vec<Mark>, OutOfMemory>
    ensures { IfOk result (λ marks. marks.items ≡ map mark_of lines.now) }
{
    lines.iter().map(mark_of_line).collect(alloc)
}

/// What the document shows of the lines.
pub(crate) fn marks_of(alloc: Global, lines: &Lines) -> Result<Marks, OutOfMemory>
    ensures { IfOk result (λ marks. marks ≡ map mark_of lines.now) }
{
    // `len` tells that there are fewer than 2^32 of them, so that a list can hold what is shown.
    let _count = lines.len();
    let marks = shown_of(alloc, lines.as_slice())?;
    Ok(Marks::from_vec(marks))
}

/// The lines in the order of their numbers: by `y0 + y1`, then by `x0`, and then as they were found.
pub(crate) fn number_lines(found: Lines) -> Result<Lines, OutOfMemory>
    ensures { IfOk result (AreInOrder found) }
{
    let mut lines = found.into_vec();
    lines.sort_by_key(|line| {
        (
            u32::from(line.bbox.y0()) + u32::from(line.bbox.y1()),
            line.bbox.x0(),
        )
    })?;
    Ok(Lines::from_vec(lines))
}

fn sides_of(alloc: Global, marks: &[Mark]) -> Result<Vec<Rect>, OutOfMemory>
    ensures { IfOk result (λ boxes. boxes.items ≡ map box_of marks.now) }
{
    marks.iter().map(|mark| mark.bbox).collect(alloc)
}

/// The boxes of lines.
pub(crate) fn boxes_of(alloc: Global, marks: &Marks) -> Result<Rects, OutOfMemory>
    ensures { IfOk result (λ boxes. boxes ≡ map box_of marks.now) }
{
    // `len` tells that there are fewer than 2^32 of them, so that a list can hold their boxes.
    let _count = marks.len();
    let boxes = sides_of(alloc, marks.as_slice())?;
    Ok(Rects::from_vec(boxes))
}

/// The numbers below a count, as they rise.
fn rising(alloc: Global, count: u32) -> Result<Numbers, OutOfMemory>
    ensures { IfOk result (λ numbers. numbers ≡ range_with_len 0 count) }
{
    let mut numbers = Numbers::new(alloc);
    for number in 0..count {
        numbers.push(number)?;
    }
    Ok(numbers)
}

/// The areas that lines form in the order of their listing.
pub(crate) fn areas_in(
    alloc: Global,
    boxes: &Rects,
    order: &Order,
    median: u16,
) -> Result<Areas, OutOfMemory>
    requires order { IsReadingOrder boxes.now order.now }
    requires contained { (page : Rect) × All (Encloses page) boxes.now }
    ensures { IfOk result (AreAreasOf boxes.now (listing order.now (length boxes.now)) median) }
{
    match order {
        Order::Topological(order) => areas_of(alloc, boxes, order, median),
        Order::Cycle(_) => {
            let listing = rising(alloc, boxes.len() as u32)?;
            areas_of(alloc, boxes, &listing, median)
        }
    }
}
