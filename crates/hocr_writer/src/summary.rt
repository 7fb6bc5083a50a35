//! The summary of a layout: its counts.
ghost use Rattle.std.specs.Prelude.{◌≡◌, ◌++◌, ◌∷◌, [], codes, OnOk, IfOk};
ghost use Rattle.hocr_writer.specs.Pieces.{joined_pieces};
ghost use Rattle.hocr_writer.specs.Summary.{size_line, found_order_line, summary_of};

use crate::layout::Layout;
use crate::order::put_order;
use crate::text::TextBuffer;
use itoa::Integer;
use layout_limits::OutOfMemory;
use std::alloc::Global;

// The size of the page.
#[tactic(auto, using(crate::proofs::Joined::growing), unfolding(crate::specs::Summary::size_line))]
fn put_size_line(text: &mut TextBuffer, layout: &Layout) -> Result<(), OutOfMemory>
    ensures grown { OnOk result (text.new ≡ text.old ++ size_line layout.now) }
{
    text.push(b"page ")?;
    text.push_number(layout.width)?;
    text.push(b" ")?;
    text.push_number(layout.height)?;
    text.push(b"\n")?;
    Ok(())
}

// A count, behind what is counted.
fn put_count_line<I: Integer>(
    text: &mut TextBuffer,
    counted: &[u8],
    count: I,
) -> Result<(), OutOfMemory>
    ensures grown { OnOk result (text.new ≡ text.old ++ joined_pieces (counted.now ∷ I.text count ∷ codes "\n" ∷ [])) }
{
    text.push(counted)?;
    text.push_number(count)?;
    text.push(b"\n")?;
    Ok(())
}

// How the text lines are ordered.
#[tactic(auto, using(crate::proofs::Joined::growing), unfolding(crate::specs::Summary::found_order_line))]
fn put_found_order_line(text: &mut TextBuffer, layout: &Layout) -> Result<(), OutOfMemory>
    ensures grown { OnOk result (text.new ≡ text.old ++ found_order_line layout.now) }
{
    text.push(b"order ")?;
    put_order(text, &layout.order)?;
    text.push(b"\n")?;
    Ok(())
}

// The whole summary.
#[tactic(auto, using(crate::proofs::Joined::growing), unfolding(crate::specs::Summary::summary_of))]
fn put_summary(text: &mut TextBuffer, layout: &Layout) -> Result<(), OutOfMemory>
    ensures grown { OnOk result (text.new ≡ text.old ++ summary_of layout.now) }
{
    put_size_line(text, layout)?;
    put_count_line(text, b"black ", layout.black)?;
    put_count_line(text, b"components ", layout.kept)?;
    put_count_line(text, b"median ", layout.median)?;
    put_count_line(text, b"rectangles ", layout.whites.len())?;
    put_count_line(text, b"gutters ", layout.gutters.len())?;
    put_count_line(text, b"lines ", layout.lines.len())?;
    put_count_line(text, b"areas ", layout.areas.len())?;
    put_found_order_line(text, layout)?;
    Ok(())
}

/// The summary of a layout: nine lines, with the size of the page in pixels, the counts of its black
/// pixels and kept components, their median height in pixels, the counts of the white rectangles, of
/// the gutters, of the text lines and of the areas, and how the lines are ordered. The number of the
/// page and the name of its image do not stand in it.
///
/// The text is ASCII, and each of its lines ends with one line feed.
///
/// # Errors
///
/// Want of memory is the one refusal.
pub fn summary_text(alloc: Global, layout: &Layout) -> Result<Vec<u8>, OutOfMemory>
    ensures text { IfOk result (λ text. text.items ≡ summary_of layout.now) }
{
    let mut text = TextBuffer::new(alloc);
    put_summary(&mut text, layout)?;
    Ok(text.into_bytes())
}
