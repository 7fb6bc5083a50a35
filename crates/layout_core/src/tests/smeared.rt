//! The blocks of a page, where they are shown.
use super::blocks::{Block, page};
use super::devices::{in_pieces, run};
use std::test::Fail;

// Three letters, ten pixels apart, between two rules. The median height is 10, so that 40 columns and 20 rows are filled: the letters grow
// together, since the rules stand above and below the white between them, but not with the rules, for want of black beside that white.
const LETTERS_BETWEEN_RULES: [Block; 5] = [
    [10, 10, 70, 13],
    [10, 20, 20, 30],
    [30, 20, 40, 30],
    [50, 20, 60, 30],
    [10, 32, 70, 35],
];

#[test]
fn pages_show_their_blocks(rt: HostRuntime) -> Result<(), Fail> {
    let input = page(rt.alloc(), 86, 53, &LETTERS_BETWEEN_RULES)?;
    let blocks: &[u8] = b"<div class='ocrx_block' id='block_0_0' title='bbox 10 10 70 13'></div>\n\
<div class='ocrx_block' id='block_0_1' title='bbox 10 20 60 30'></div>\n\
<div class='ocrx_block' id='block_0_2' title='bbox 10 32 70 35'></div>\n";
    let outcome = run(&rt, rt.alloc(), &["--blocks"], &in_pieces(&input, 4096))?;
    assert!(rt; outcome.shows(blocks));
    let outcome = run(&rt, rt.alloc(), &["--xy"], &in_pieces(&input, 4096))?;
    assert!(rt; !outcome.shows(b"ocrx_block"));
    Ok(())
}
