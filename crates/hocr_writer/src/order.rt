//! How the text lines of a page are ordered: in words, and as a line of the document.
ghost use Rattle.std.specs.Prelude.{◌≡◌, ◌++◌, OnOk};
ghost use Rattle.hocr_writer.specs.Pieces.{joined_pieces, numbered_pieces};
ghost use Rattle.hocr_writer.specs.Document.{cycle_number, cycle_text, order_text, order_line, placed_order};

use crate::layout::Layout;
use crate::text::TextBuffer;
use layout_geom::{Numbers, Order};
use layout_limits::OutOfMemory;

// The numbers of a cycle, each behind a space.
fn put_numbers(text: &mut TextBuffer, numbers: &[u32]) -> Result<(), OutOfMemory>
    ensures grown { OnOk result (text.new ≡ text.old ++ joined_pieces (numbered_pieces cycle_number 0 numbers.now)) }
{
    for number in numbers {
        text.push(b" ")?;
        text.push_number(*number)?;
    }
    Ok(())
}

// A cycle of lines.
fn put_cycle(text: &mut TextBuffer, cycle: &Numbers) -> Result<(), OutOfMemory>
    ensures grown { OnOk result (text.new ≡ text.old ++ cycle_text cycle.now) }
{
    text.push(b"cycle")?;
    put_numbers(text, cycle.as_slice())?;
    Ok(())
}

/// Whether there is an order of the lines, or else the cycle that forbids it.
#[tactic(auto, using(crate::proofs::Joined::growing), unfolding(crate::specs::Document::order_text))]
pub fn put_order(text: &mut TextBuffer, order: &Order) -> Result<(), OutOfMemory>
    ensures grown { OnOk result (text.new ≡ text.old ++ order_text order.now) }
{
    match order {
        Order::Topological(_) => text.push(b"topological"),
        Order::Cycle(cycle) => put_cycle(text, cycle),
    }
}

// How the text lines of a page are ordered, behind the page's number.
#[tactic(auto, using(crate::proofs::Joined::growing), unfolding(crate::specs::Document::order_line))]
fn put_order_line(text: &mut TextBuffer, layout: &Layout) -> Result<(), OutOfMemory>
    ensures grown { OnOk result (text.new ≡ text.old ++ order_line layout.now) }
{
    text.push(b"<meta name='layout-order' content='")?;
    text.push_number(layout.page)?;
    text.push(b" ")?;
    put_order(text, &layout.order)?;
    text.push(b"'>\n")?;
    Ok(())
}

/// How the text lines of each page are ordered, in the order of the pages.
pub fn put_order_lines(text: &mut TextBuffer, layouts: &[Layout]) -> Result<(), OutOfMemory>
    ensures grown { OnOk result (text.new ≡ text.old ++ joined_pieces (numbered_pieces placed_order 0 layouts.now)) }
{
    for layout in layouts {
        put_order_line(text, layout)?;
    }
    Ok(())
}
