//! Inputs of several images.
use super::blocks::page;
use super::devices::{in_pieces, run};
use super::documents::document;
use std::test::Fail;

const TWO_ORDERS: &[u8] = b"\
<meta name='layout-order' content='0 topological'>\n\
<meta name='layout-order' content='1 topological'>\n\
";

const ONE_PAGE_TWICE: &[u8] = b"\
<div class='ocr_page' id='page_0' title='bbox 0 0 16 16; ppageno 0; x_black 0'>\n\
<div class='ocrx_whitespace' id='white_0_0' title='bbox 0 0 16 16'></div>\n\
</div>\n\
<div class='ocr_page' id='page_1' title='bbox 0 0 16 16; ppageno 1; x_black 0'>\n\
<div class='ocrx_whitespace' id='white_1_0' title='bbox 0 0 16 16'></div>\n\
";

#[test]
fn one_page_twice_gives_two_pages(rt: HostRuntime) -> Result<(), Fail> {
    let alloc = rt.alloc();
    let mut input = page(alloc, 16, 16, &[])?;
    let again = page(alloc, 16, 16, &[])?;
    input.extend_from_slice(&again)?;
    let text = document(alloc, TWO_ORDERS, ONE_PAGE_TWICE)?;
    for piece in [1, 16, 4096] {
        let outcome = run(&rt, alloc, &[], &in_pieces(&input, piece))?;
        assert!(rt; outcome.is_document(&text), "{piece}");
    }
    Ok(())
}

#[test]
fn an_input_has_256_images_and_no_more(rt: HostRuntime) -> Result<(), Fail> {
    let alloc = rt.alloc();
    let opening: &[u8] = b"<div class='ocr_page' ";
    let mut input = Vec::new(alloc);
    for _ in 0..256 {
        input.extend_from_slice(b"P4\n8 1\n\0")?;
    }
    let outcome = run(&rt, alloc, &[], &in_pieces(&input, 4096))?;
    let text = outcome.out.as_slice();
    let pages = text
        .windows(opening.len())
        .filter(|part| *part == opening)
        .count();
    assert_eq!(rt; outcome.status, 0);
    assert_eq!(rt; pages, 256);
    input.extend_from_slice(b"P4\n8 1\n\0")?;
    let outcome = run(&rt, alloc, &[], &in_pieces(&input, 4096))?;
    assert!(rt; outcome.is_refusal(4, b"limit: over 256 images\n"));
    Ok(())
}
