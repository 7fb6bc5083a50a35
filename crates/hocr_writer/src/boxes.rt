//! The lines of boxes: an element of nothing but its box for each box of a list.
ghost use Rattle.std.specs.Prelude.{◌≡◌, ◌++◌, OnOk};
ghost use Rattle.hocr_writer.specs.Pieces.{joined_pieces, numbered_pieces, box_text, numbered_box, box_front};
ghost use Rattle.hocr_writer.specs.Document.{box_line};

use crate::text::TextBuffer;
use layout_geom::{Rect, Rects};
use layout_limits::OutOfMemory;

// The sides of a box, as they stand behind hOCR's `bbox`.
#[tactic(auto, using(crate::proofs::Joined::growing), unfolding(crate::specs::Pieces::box_text))]
fn put_box(text: &mut TextBuffer, bbox: &Rect) -> Result<(), OutOfMemory>
    ensures grown { OnOk result (text.new ≡ text.old ++ box_text bbox.now) }
{
    text.push_number(bbox.x0)?;
    text.push(b" ")?;
    text.push_number(bbox.y0)?;
    text.push(b" ")?;
    text.push_number(bbox.x1)?;
    text.push(b" ")?;
    text.push_number(bbox.y1)?;
    Ok(())
}

/// The end of an `id`, by the number of its element, and the box behind it.
#[tactic(auto, using(crate::proofs::Joined::growing), unfolding(crate::specs::Pieces::numbered_box))]
pub fn put_numbered_box(
    text: &mut TextBuffer,
    number: usize,
    bbox: &Rect,
) -> Result<(), OutOfMemory>
    ensures grown { OnOk result (text.new ≡ text.old ++ numbered_box number bbox.now) }
{
    text.push(b"_")?;
    text.push_number(number)?;
    text.push(b"' title='bbox ")?;
    put_box(text, bbox)?;
    Ok(())
}

/// The front of an element, up to its box. What it opens with ends in the front of its `id`.
#[tactic(auto, using(crate::proofs::Joined::growing), unfolding(crate::specs::Pieces::box_front))]
pub fn put_box_front(
    text: &mut TextBuffer,
    opening: &[u8],
    page: u32,
    number: usize,
    bbox: &Rect,
) -> Result<(), OutOfMemory>
    ensures grown { OnOk result (text.new ≡ text.old ++ box_front opening.now page number bbox.now) }
{
    text.push(opening)?;
    text.push_number(page)?;
    put_numbered_box(text, number, bbox)?;
    Ok(())
}

/// A line for each box, in the order of the list and numbered from 0.
pub fn put_box_lines(
    text: &mut TextBuffer,
    opening: &[u8],
    page: u32,
    boxes: &Rects,
) -> Result<(), OutOfMemory>
    ensures grown { OnOk result (text.new ≡ text.old ++ joined_pieces (numbered_pieces (box_line opening.now page) 0 boxes.now)) }
{
    for (number, bbox) in boxes.as_slice().iter().enumerate() {
        put_box_front(text, opening, page, number, bbox)?;
        text.push(b"'></div>\n")?;
    }
    Ok(())
}
