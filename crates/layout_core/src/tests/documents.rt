//! Worked pages and their documents.
use super::blocks::{Block, heading_over_two_columns, page, two_columns};
use super::devices::{in_pieces, run, run_of};
use crate::Program;
use std::alloc::Global;
use std::sync::Wait;
use std::test::Fail;
use std::thread::Threads;

/// What each document begins with, up to the orders of its pages.
const FRONT: &[u8] = b"\
<!DOCTYPE html>\n\
<html>\n\
<head>\n\
<title>layout</title>\n\
<meta charset='utf-8'>\n\
<meta name='ocr-system' content='layout'>\n\
<meta name='ocr-capabilities' content='ocr_page ocr_carea ocr_line ocr_separator'>\n\
";

/// What each document ends with.
const END: &[u8] = b"\
</div>\n\
</body>\n\
</html>\n\
";

const BLANK_PAGE: &[u8] = b"\
<div class='ocr_page' id='page_0' title='bbox 0 0 16 16; ppageno 0; x_black 0'>\n\
<div class='ocrx_whitespace' id='white_0_0' title='bbox 0 0 16 16'></div>\n\
";

/// The body of the document of a block of 3 by 3 in the corner of a page of 16 by 16.
const CORNER_BLOCK: &[u8] = b"\
<div class='ocr_page' id='page_0' title='bbox 0 0 16 16; ppageno 0; x_black 9'>\n\
<div class='ocrx_whitespace' id='white_0_0' title='bbox 3 0 16 16'></div>\n\
";

const PADDING_BITS: &[u8] = b"\
<div class='ocr_page' id='page_0' title='bbox 0 0 9 2; ppageno 0; x_black 0'>\n\
";

const TOUCHING_CORNERS: &[u8] = b"\
<div class='ocr_page' id='page_0' title='bbox 0 0 40 40; ppageno 0; x_black 200'>\n\
<div class='ocrx_whitespace' id='white_0_0' title='bbox 20 0 40 40'></div>\n\
<div class='ocrx_whitespace' id='white_0_1' title='bbox 0 20 20 40'></div>\n\
";

const SPECK: &[u8] = b"\
<div class='ocr_page' id='page_0' title='bbox 0 0 16 16; ppageno 0; x_black 4'>\n\
<div class='ocrx_whitespace' id='white_0_0' title='bbox 0 0 16 16'></div>\n\
";

const THREE_GLYPHS: &[u8] = b"\
<div class='ocr_page' id='page_0' title='bbox 0 0 100 40; ppageno 0; x_black 300'>\n\
<div class='ocrx_whitespace' id='white_0_0' title='bbox 0 20 100 40'></div>\n\
<div class='ocrx_whitespace' id='white_0_1' title='bbox 0 0 100 10'></div>\n\
<div class='ocrx_whitespace' id='white_0_2' title='bbox 60 10 100 20'></div>\n\
<div class='ocrx_whitespace' id='white_0_3' title='bbox 0 10 10 20'></div>\n\
<div class='ocrx_whitespace' id='white_0_4' title='bbox 20 10 30 20'></div>\n\
<div class='ocrx_whitespace' id='white_0_5' title='bbox 40 10 50 20'></div>\n\
<div class='ocr_carea' id='area_0_0' title='bbox 10 10 60 20'>\n\
<span class='ocr_line' id='line_0_0' title='bbox 10 10 60 20; baseline 0.000 0'></span>\n\
</div>\n\
";

const TWO_GLYPHS: &[u8] = b"\
<div class='ocr_page' id='page_0' title='bbox 0 0 100 40; ppageno 0; x_black 200'>\n\
<div class='ocrx_whitespace' id='white_0_0' title='bbox 40 0 100 40'></div>\n\
<div class='ocrx_whitespace' id='white_0_1' title='bbox 0 20 40 40'></div>\n\
<div class='ocrx_whitespace' id='white_0_2' title='bbox 0 0 40 10'></div>\n\
<div class='ocrx_whitespace' id='white_0_3' title='bbox 0 10 10 20'></div>\n\
<div class='ocrx_whitespace' id='white_0_4' title='bbox 20 10 30 20'></div>\n\
";

const TWO_COLUMNS: &[u8] = b"\
<div class='ocr_page' id='page_0' title='bbox 0 0 84 41; ppageno 0; x_black 1800'>\n\
<div class='ocrx_whitespace' id='white_0_0' title='bbox 36 0 48 41'></div>\n\
<div class='ocr_separator' id='gutter_0_0' title='bbox 36 0 48 41'></div>\n\
<div class='ocr_carea' id='area_0_0' title='bbox 2 2 36 36'>\n\
<span class='ocr_line' id='line_0_0' title='bbox 2 2 36 12; baseline 0.000 0'></span>\n\
<span class='ocr_line' id='line_0_2' title='bbox 2 14 36 24; baseline 0.000 0'></span>\n\
<span class='ocr_line' id='line_0_4' title='bbox 2 26 36 36; baseline 0.000 0'></span>\n\
</div>\n\
<div class='ocr_carea' id='area_0_1' title='bbox 48 2 82 36'>\n\
<span class='ocr_line' id='line_0_1' title='bbox 48 2 82 12; baseline 0.000 0'></span>\n\
<span class='ocr_line' id='line_0_3' title='bbox 48 14 82 24; baseline 0.000 0'></span>\n\
<span class='ocr_line' id='line_0_5' title='bbox 48 26 82 36; baseline 0.000 0'></span>\n\
</div>\n\
";

const HEADING_OVER_TWO_COLUMNS: &[u8] = b"\
<div class='ocr_page' id='page_0' title='bbox 0 0 86 53; ppageno 0; x_black 2500'>\n\
<div class='ocrx_whitespace' id='white_0_0' title='bbox 36 12 48 53'></div>\n\
<div class='ocr_separator' id='gutter_0_0' title='bbox 36 12 48 53'></div>\n\
<div class='ocr_carea' id='area_0_0' title='bbox 2 2 84 48'>\n\
<span class='ocr_line' id='line_0_0' title='bbox 2 2 84 12; baseline 0.000 0'></span>\n\
<span class='ocr_line' id='line_0_1' title='bbox 2 14 36 24; baseline 0.000 0'></span>\n\
<span class='ocr_line' id='line_0_3' title='bbox 2 26 36 36; baseline 0.000 0'></span>\n\
<span class='ocr_line' id='line_0_5' title='bbox 2 38 36 48; baseline 0.000 0'></span>\n\
</div>\n\
<div class='ocr_carea' id='area_0_1' title='bbox 48 14 82 48'>\n\
<span class='ocr_line' id='line_0_2' title='bbox 48 14 82 24; baseline 0.000 0'></span>\n\
<span class='ocr_line' id='line_0_4' title='bbox 48 26 82 36; baseline 0.000 0'></span>\n\
<span class='ocr_line' id='line_0_6' title='bbox 48 38 82 48; baseline 0.000 0'></span>\n\
</div>\n\
";

/// The document with these orders and this body.
pub(super) fn document(alloc: Global, orders: &[u8], body: &[u8]) -> Result<Vec<u8>, Fail> {
    let mut text = FRONT.to_vec(alloc)?;
    text.extend_from_slice(orders)?;
    text.extend_from_slice(b"</head>\n<body>\n")?;
    text.extend_from_slice(body)?;
    text.extend_from_slice(END)?;
    Ok(text)
}

/// Whether both programs give an input the document with this body, in any pieces, and by 1, 2 and 7 workers too.
fn gives<R: Threads + Wait + Sync>(
    rt: &R,
    alloc: Global,
    input: &[u8],
    body: &[u8],
) -> Result<bool, Fail> {
    let order = b"<meta name='layout-order' content='0 topological'>\n";
    let text = document(alloc, order, body)?;
    for piece in [1, 16, 4096] {
        let outcome = run(rt, alloc, &[], &in_pieces(input, piece))?;
        if !outcome.is_document(&text) {
            return Ok(false);
        }
    }
    for workers in ["1", "2", "7"] {
        let outcome = run_of(
            rt,
            alloc,
            Program::Shared,
            &["--workers", workers],
            &in_pieces(input, 4096),
        )?;
        if !outcome.is_document(&text) {
            return Ok(false);
        }
    }
    Ok(true)
}

#[test]
fn pages_give_their_documents(rt: HostRuntime) -> Result<(), Fail> {
    let alloc = rt.alloc();
    let corners: &[Block] = &[[0, 0, 10, 10], [10, 10, 20, 20]];
    let three: &[Block] = &[[10, 10, 20, 20], [30, 10, 40, 20], [50, 10, 60, 20]];
    let columns = two_columns(alloc, 2)?;
    let heading = heading_over_two_columns(alloc)?;
    let cases: [(&str, u16, u16, &[Block], &[u8]); 8] = [
        ("blank page", 16, 16, &[], BLANK_PAGE),
        ("corner block", 16, 16, &[[0, 0, 3, 3]], CORNER_BLOCK),
        ("touching corners", 40, 40, corners, TOUCHING_CORNERS),
        ("speck", 16, 16, &[[5, 5, 7, 7]], SPECK),
        ("three glyphs", 100, 40, three, THREE_GLYPHS),
        ("two glyphs", 100, 40, &three[..2], TWO_GLYPHS),
        ("two columns", 84, 41, columns.as_slice(), TWO_COLUMNS),
        (
            "heading over two columns",
            86,
            53,
            heading.as_slice(),
            HEADING_OVER_TWO_COLUMNS,
        ),
    ];
    for (name, width, height, blocks, body) in cases {
        let input = page(alloc, width, height, blocks)?;
        assert!(rt; gives(&rt, alloc, &input, body)?, "{name}");
    }
    Ok(())
}

#[test]
fn three_spellings_of_a_picture_give_one_document(rt: HostRuntime) -> Result<(), Fail> {
    let spellings: [&[u8]; 3] = [
        b"P4\n9 2\n\x00\x7f\x00\x7f",
        b"P4\n9 2\n\0\0\0\0",
        b"P1\n9 2\n000000000\n000000000\n",
    ];
    for input in spellings {
        assert!(rt; gives(&rt, rt.alloc(), input, PADDING_BITS)?, "{input:?}");
    }
    Ok(())
}

#[test]
fn documents_have_slanted_lines_letters_with_tails_and_a_cycle_of_four(
    rt: HostRuntime,
) -> Result<(), Fail> {
    let sinking: &[Block] = &[[0, 20, 10, 30], [500, 25, 510, 35], [1000, 30, 1010, 40]];
    let rising: &[Block] = &[[1000, 20, 1010, 30], [500, 25, 510, 35], [0, 30, 10, 40]];
    let tails: &[Block] = &[
        [10, 10, 20, 30],
        [30, 10, 40, 34],
        [50, 10, 60, 30],
        [70, 10, 80, 34],
        [90, 10, 100, 30],
    ];
    let cycle: &[Block] = &[
        [40, 0, 44, 10],
        [48, 0, 52, 10],
        [56, 0, 60, 10],
        [20, 20, 24, 30],
        [30, 20, 34, 30],
        [41, 20, 45, 30],
        [5, 40, 9, 50],
        [13, 40, 17, 50],
        [21, 40, 25, 50],
        [0, 60, 2, 70],
        [4, 60, 6, 70],
        [8, 60, 10, 70],
    ];
    let cases: [(&[Block], &[u8]); 4] = [
        (
            sinking,
            b"\n<span class='ocr_line' id='line_0_0' title='bbox 0 20 1010 40; baseline 0.010 -10'></span>\n",
        ),
        (
            rising,
            b"\n<span class='ocr_line' id='line_0_0' title='bbox 0 20 1010 40; baseline -0.010 1'></span>\n",
        ),
        (
            tails,
            b"\n<span class='ocr_line' id='line_0_0' title='bbox 10 10 100 34; baseline 0.000 -4; x_depth 4'></span>\n",
        ),
        (
            cycle,
            b"\n<meta name='layout-order' content='0 cycle 0 1 2 3'>\n",
        ),
    ];
    for (blocks, line) in cases {
        let input = page(rt.alloc(), 1010, 70, blocks)?;
        let outcome = run(&rt, rt.alloc(), &[], &in_pieces(&input, 4096))?;
        assert!(rt;
            outcome
                .out
                .as_slice()
                .windows(line.len())
                .any(|part| part == line)
        );
    }
    Ok(())
}
