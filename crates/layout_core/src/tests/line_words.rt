//! The words of lines, where they are shown.
use super::blocks::{Block, heading_over_two_columns, page};
use super::devices::{in_pieces, run};
use std::test::Fail;

#[test]
fn lines_show_their_words_by_their_numbers(rt: HostRuntime) -> Result<(), Fail> {
    let equal_gaps: &[Block] = &[[10, 10, 20, 20], [30, 10, 40, 20], [50, 10, 60, 20]];
    let wide_gap: &[Block] = &[
        [0, 10, 10, 20],
        [12, 10, 22, 20],
        [34, 10, 44, 20],
        [46, 10, 56, 20],
    ];
    let heading = heading_over_two_columns(rt.alloc())?;
    let cases: [(&[Block], &[u8]); 3] = [
        (
            equal_gaps,
            b"\n<span class='ocr_line' id='line_0_0' title='bbox 10 10 60 20; baseline 0.000 0'>\
<span class='ocrx_word' id='word_0_0_0' title='bbox 10 10 60 20'></span></span>\n",
        ),
        (
            wide_gap,
            b"\n<span class='ocr_line' id='line_0_0' title='bbox 0 10 56 20; baseline 0.000 0'>\
<span class='ocrx_word' id='word_0_0_0' title='bbox 0 10 22 20'></span>\
<span class='ocrx_word' id='word_0_0_1' title='bbox 34 10 56 20'></span></span>\n",
        ),
        (
            heading.as_slice(),
            b"\n<span class='ocr_line' id='line_0_3' title='bbox 2 26 36 36; baseline 0.000 0'>\
<span class='ocrx_word' id='word_0_3_0' title='bbox 2 26 36 36'></span></span>\n",
        ),
    ];
    let class: &[u8] = b" ocr_separator ocrx_word'>\n";
    for (blocks, line) in cases {
        let input = page(rt.alloc(), 86, 53, blocks)?;
        let outcome = run(&rt, rt.alloc(), &["--words"], &in_pieces(&input, 4096))?;
        assert!(rt; outcome.shows(line) && outcome.shows(class));
    }
    Ok(())
}
