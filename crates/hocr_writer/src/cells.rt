//! The cells of a page, each with the path of cuts to it.
ghost use Rattle.std.specs.Prelude.{◌≡◌, ◌++◌, OnOk, map};
ghost use Rattle.hocr_writer.specs.Pieces.{joined_pieces, numbered_pieces};
ghost use Rattle.hocr_writer.specs.Cells.{side_digit, path_text, cell_line};

use crate::boxes::put_box_front;
use crate::text::TextBuffer;
use layout_limits::OutOfMemory;
use xy_cut::{Cell, Cells, Path, Side};

// A side of a cut as a digit.
fn digit(side: Side) -> u8
    ensures { result ≡ side_digit side }
{
    match side {
        Side::Before => b'0',
        Side::After => b'1',
    }
}

// A digit for each side.
fn put_sides(text: &mut TextBuffer, sides: &[Side]) -> Result<(), OutOfMemory>
    ensures grown { OnOk result (text.new ≡ text.old ++ map side_digit sides.now) }
{
    for side in sides {
        text.push(&[digit(*side)])?;
    }
    Ok(())
}

// The path to a cell.
#[tactic(auto, using(crate::proofs::Joined::growing), unfolding(crate::specs::Cells::path_text))]
fn put_path(text: &mut TextBuffer, path: &Path) -> Result<(), OutOfMemory>
    ensures grown { OnOk result (text.new ≡ text.old ++ path_text path.now) }
{
    if path.is_empty() {
        text.push(b"r")
    } else {
        put_sides(text, path.as_slice())
    }
}

// A cell of a number.
fn put_cell(text: &mut TextBuffer, page: u32, number: usize, cell: &Cell) -> Result<(), OutOfMemory>
    ensures grown { OnOk result (text.new ≡ text.old ++ cell_line page number cell.now) }
{
    put_box_front(
        text,
        b"<div class='ocrx_cell' id='cell_",
        page,
        number,
        &cell.bbox,
    )?;
    text.push(b"; x_path ")?;
    put_path(text, &cell.path)?;
    text.push(b"'></div>\n")?;
    Ok(())
}

/// A line for each cell, in the order of the list and numbered from 0.
pub fn put_cells(text: &mut TextBuffer, page: u32, cells: &Cells) -> Result<(), OutOfMemory>
    ensures grown { OnOk result (text.new ≡ text.old ++ joined_pieces (numbered_pieces (cell_line page) 0 cells.now)) }
{
    for (number, cell) in cells.as_slice().iter().enumerate() {
        put_cell(text, page, number, cell)?;
    }
    Ok(())
}
