//! The document of the layouts of an input's pages.
ghost use Rattle.std.specs.Prelude.{◌≡◌, ◌++◌, ◌∷◌, [], All, OnOk, IfOk};
ghost use Rattle.hocr_writer.specs.Pieces.{joined_pieces, numbered_pieces};
ghost use Rattle.hocr_writer.specs.Listing.{IsWholeLayout, AreWholeLayouts};
ghost use Rattle.hocr_writer.specs.Document.{image_text, page_line, white_line, gutter_line, block_line, page_text};
ghost use Rattle.hocr_writer.specs.Document.{shows_words, word_kind, capabilities_line, head_text, placed_page, document_of};

use crate::areas::put_areas;
use crate::boxes::put_box_lines;
use crate::cells::put_cells;
use crate::layout::{Layout, Layouts};
use crate::order::put_order_lines;
use crate::text::TextBuffer;
use layout_geom::Name;
use layout_limits::OutOfMemory;
use std::alloc::Global;
use std::slice;

// The name of an image, where there is one.
#[tactic(auto, using(crate::proofs::Joined::growing), unfolding(crate::specs::Document::image_text))]
fn put_image(text: &mut TextBuffer, image: &Name) -> Result<(), OutOfMemory>
    ensures grown { OnOk result (text.new ≡ text.old ++ image_text image.now) }
{
    if image.is_empty() {
        return Ok(());
    }
    text.push(b"image \"")?;
    text.push(image.as_slice())?;
    text.push(b"\"; ")?;
    Ok(())
}

// The page's element begins.
#[tactic(auto, using(crate::proofs::Joined::growing), unfolding(crate::specs::Document::page_line))]
fn put_page_line(text: &mut TextBuffer, layout: &Layout) -> Result<(), OutOfMemory>
    ensures grown { OnOk result (text.new ≡ text.old ++ page_line layout.now) }
{
    text.push(b"<div class='ocr_page' id='page_")?;
    text.push_number(layout.page)?;
    text.push(b"' title='")?;
    put_image(text, &layout.image)?;
    text.push(b"bbox 0 0 ")?;
    text.push_number(layout.width)?;
    text.push(b" ")?;
    text.push_number(layout.height)?;
    text.push(b"; ppageno ")?;
    text.push_number(layout.page)?;
    text.push(b"; x_black ")?;
    text.push_number(layout.black)?;
    text.push(b"'>\n")?;
    Ok(())
}

// A line for each white rectangle.
fn put_whites(text: &mut TextBuffer, layout: &Layout) -> Result<(), OutOfMemory>
    ensures grown { OnOk result (text.new ≡ text.old
        ++ joined_pieces (numbered_pieces (white_line layout.now.page) 0 layout.now.whites)) }
{
    let opening = b"<div class='ocrx_whitespace' id='white_";
    put_box_lines(text, opening, layout.page, &layout.whites)
}

// A line for each gutter.
fn put_gutters(text: &mut TextBuffer, layout: &Layout) -> Result<(), OutOfMemory>
    ensures grown { OnOk result (text.new ≡ text.old
        ++ joined_pieces (numbered_pieces (gutter_line layout.now.page) 0 layout.now.gutters)) }
{
    let opening = b"<div class='ocr_separator' id='gutter_";
    put_box_lines(text, opening, layout.page, &layout.gutters)
}

// A line for each block.
fn put_blocks(text: &mut TextBuffer, layout: &Layout) -> Result<(), OutOfMemory>
    ensures grown { OnOk result (text.new ≡ text.old
        ++ joined_pieces (numbered_pieces (block_line layout.now.page) 0 layout.now.blocks)) }
{
    let opening = b"<div class='ocrx_block' id='block_";
    put_box_lines(text, opening, layout.page, &layout.blocks)
}

// The kind of the elements of words, where they are shown.
fn word_capability(with_words: bool) -> &'static [u8]
    ensures { result.now ≡ word_kind with_words }
{
    if with_words { b" ocrx_word" } else { b"" }
}

// The kinds of elements that the document has, those of words only where they are shown.
#[tactic(auto, using(crate::proofs::Joined::growing), unfolding(crate::specs::Document::capabilities_line))]
fn put_capabilities(text: &mut TextBuffer, with_words: bool) -> Result<(), OutOfMemory>
    ensures grown { OnOk result (text.new ≡ text.old ++ capabilities_line with_words) }
{
    text.push(b"<meta name='ocr-capabilities' content='ocr_page ocr_carea ocr_line ocr_separator")?;
    text.push(word_capability(with_words))?;
    text.push(b"'>\n")?;
    Ok(())
}

// Whether one of the layouts shows the words of its lines.
fn show_words(layouts: &[Layout]) -> bool
    ensures { result ≡ shows_words layouts.now }
{
    layouts.iter().any(|layout| layout.with_words)
}

// What stands in front of the body.
#[tactic(auto, using(crate::proofs::Joined::growing), unfolding(crate::specs::Document::head_text))]
fn put_head(text: &mut TextBuffer, layouts: &[Layout]) -> Result<(), OutOfMemory>
    ensures grown { OnOk result (text.new ≡ text.old ++ head_text layouts.now) }
{
    text.push(b"<!DOCTYPE html>\n")?;
    text.push(b"<html>\n")?;
    text.push(b"<head>\n")?;
    text.push(b"<title>layout</title>\n")?;
    text.push(b"<meta charset='utf-8'>\n")?;
    text.push(b"<meta name='ocr-system' content='layout'>\n")?;
    put_capabilities(text, show_words(layouts))?;
    put_order_lines(text, layouts)?;
    text.push(b"</head>\n")?;
    Ok(())
}

// The page's element, with all that was found on the page.
#[tactic(auto, using(crate::proofs::Joined::growing), unfolding(crate::specs::Document::page_text))]
fn put_page(text: &mut TextBuffer, layout: &Layout) -> Result<(), OutOfMemory>
    requires { IsWholeLayout layout.now }
    ensures grown { OnOk result (text.new ≡ text.old ++ page_text layout.now) }
{
    put_page_line(text, layout)?;
    put_whites(text, layout)?;
    put_gutters(text, layout)?;
    put_blocks(text, layout)?;
    put_cells(text, layout.page, &layout.cells)?;
    put_areas(text, layout)?;
    text.push(b"</div>\n")?;
    Ok(())
}

// The elements of all pages, in their order.
fn put_pages(text: &mut TextBuffer, layouts: &[Layout]) -> Result<(), OutOfMemory>
    requires { All IsWholeLayout layouts.now }
    ensures grown { OnOk result (text.new ≡ text.old ++ joined_pieces (numbered_pieces placed_page 0 layouts.now)) }
{
    for layout in layouts {
        put_page(text, layout)?;
    }
    Ok(())
}

// The whole document.
#[tactic(auto, using(crate::proofs::Joined::growing), unfolding(crate::specs::Document::document_of))]
fn put_document(text: &mut TextBuffer, layouts: &[Layout]) -> Result<(), OutOfMemory>
    requires { All IsWholeLayout layouts.now }
    ensures grown { OnOk result (text.new ≡ text.old ++ document_of layouts.now) }
{
    put_head(text, layouts)?;
    text.push(b"<body>\n")?;
    put_pages(text, layouts)?;
    text.push(b"</body>\n")?;
    text.push(b"</html>\n")?;
    Ok(())
}

// The whole document, in a vector of its own.
fn document_text(alloc: Global, layouts: &[Layout]) -> Result<Vec<u8>, OutOfMemory>
    requires { All IsWholeLayout layouts.now }
    ensures written { IfOk result (λ text. text.items ≡ document_of layouts.now) }
{
    let mut text = TextBuffer::new(alloc);
    put_document(&mut text, layouts)?;
    Ok(text.into_bytes())
}

/// The document of the layout of an input's one page, in the manner of hOCR 1.2: an HTML file whose
/// `ocr_page` element has the name of the page's image, its box, number and count of black pixels in
/// its title. In it stand the white rectangles, then the gutters, the blocks, the cells and the areas,
/// these in the order of the listing, each with its half-open `bbox` of pixels. A cell has its path as
/// `x_path`: the digit 0 or 1 for each cut, or `r` where there is none. An area holds its lines, each
/// with its `baseline`: the slope, with three decimals, and how far below the bottom edge of the
/// line's box it begins at the left edge. Where the line of its descenders lies below the baseline,
/// `x_depth` says by how many rows. Where the words of the lines are shown, they stand in their
/// lines, each with its `bbox`.
///
/// The text is ASCII where the name of the image is, and each of its lines ends with one line feed.
///
/// # Errors
///
/// Want of memory is the one refusal.
pub fn hocr_text(alloc: Global, layout: &Layout) -> Result<Vec<u8>, OutOfMemory>
    requires { IsWholeLayout layout.now }
    ensures written { IfOk result (λ text. text.items ≡ document_of (layout.now ∷ [])) }
{
    document_text(alloc, slice::from_ref(layout))
}

/// The document of the layouts of an input's pages, as `hocr_text` has it for one page: one head,
/// with one line on the order of the text lines for each page, and one body, with one `ocr_page`
/// element for each page, all in the order of the pages. All layouts show the words of their lines, or none does.
///
/// The text is ASCII where the names of the images are, and each of its lines ends with one line feed.
///
/// # Errors
///
/// Want of memory is the one refusal.
pub fn pages_text(alloc: Global, layouts: &Layouts) -> Result<Vec<u8>, OutOfMemory>
    requires { AreWholeLayouts layouts.now }
    ensures written { IfOk result (λ text. text.items ≡ document_of layouts.now) }
{
    document_text(alloc, layouts.as_slice())
}
