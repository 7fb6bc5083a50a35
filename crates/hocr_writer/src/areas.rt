//! The areas of a page, with the text lines that stand in them.
ghost use Rattle.std.specs.Prelude.{◌≡◌, ◌+◌, ◌<◌, ◌≤◌, ◌++◌, length, slice_index, OnOk};
ghost use Rattle.hocr_writer.specs.Pieces.{joined_pieces, numbered_pieces};
ghost use Rattle.hocr_writer.specs.Listing.{listing_of, NamesLines, IsWholeLayout};
ghost use Rattle.hocr_writer.specs.Lines.{words_in};
ghost use Rattle.hocr_writer.specs.Document.{placed_line, lines_in, area_line, area_text};

use crate::boxes::put_box_front;
use crate::layout::Layout;
use crate::lines::put_mark;
use crate::text::TextBuffer;
use layout_geom::{Area, Order, Rect};
use layout_limits::OutOfMemory;

// The number of the line at a position of the listing.
fn number_at(layout: &Layout, position: usize) -> usize
    requires names { NamesLines layout.now.order (length layout.now.lines) }
    requires within { position < length (listing_of layout.now) }
    ensures line { result ≡ slice_index (listing_of layout.now) position }
    ensures is_line { result < length layout.now.lines }
{
    match &layout.order {
        Order::Topological(order) => *order.get(position) as usize,
        Order::Cycle(_) => position,
    }
}

// An area begins.
fn put_area_line(
    text: &mut TextBuffer,
    page: u32,
    number: usize,
    bbox: &Rect,
) -> Result<(), OutOfMemory>
    ensures grown { OnOk result (text.new ≡ text.old ++ area_line page number bbox.now) }
{
    put_box_front(
        text,
        b"<div class='ocr_carea' id='area_",
        page,
        number,
        bbox,
    )?;
    text.push(b"'>\n")?;
    Ok(())
}

// The words of the line of a number: none where they are not shown.
fn words_at(layout: &Layout, number: usize) -> &[Rect]
    ensures words { result.now ≡ words_in layout.now number }
{
    match layout.words.as_slice().get(number) {
        Some(words) => words.as_slice(),
        None => &[],
    }
}

// The lines of an area, in the order of the listing.
fn put_lines(text: &mut TextBuffer, layout: &Layout, area: &Area) -> Result<(), OutOfMemory>
    requires names { NamesLines layout.now.order (length layout.now.lines) }
    requires within { area.now.first + area.now.count ≤ length (listing_of layout.now) }
    ensures grown { OnOk result (text.new ≡ text.old
        ++ joined_pieces (numbered_pieces (placed_line layout.now) 0 (lines_in layout.now area.now))) }
{
    let first = area.first as usize;
    for place in 0..area.count as usize {
        let number = number_at(layout, first + place);
        let mark = *layout.lines.get(number);
        put_mark(text, layout.page, number, mark, words_at(layout, number))?;
    }
    Ok(())
}

// An area of a number, with its lines.
fn put_area(
    text: &mut TextBuffer,
    layout: &Layout,
    number: usize,
    area: &Area,
) -> Result<(), OutOfMemory>
    requires names { NamesLines layout.now.order (length layout.now.lines) }
    requires within { area.now.first + area.now.count ≤ length (listing_of layout.now) }
    ensures grown { OnOk result (text.new ≡ text.old ++ area_text layout.now number area.now) }
{
    put_area_line(text, layout.page, number, &area.bbox)?;
    put_lines(text, layout, area)?;
    text.push(b"</div>\n")?;
    Ok(())
}

/// The areas of a page, in the order of the listing and numbered from 0.
pub fn put_areas(text: &mut TextBuffer, layout: &Layout) -> Result<(), OutOfMemory>
    requires { IsWholeLayout layout.now }
    ensures grown { OnOk result (text.new ≡ text.old ++ joined_pieces (numbered_pieces (area_text layout.now) 0 layout.now.areas)) }
{
    for (number, area) in layout.areas.as_slice().iter().enumerate() {
        put_area(text, layout, number, area)?;
    }
    Ok(())
}
