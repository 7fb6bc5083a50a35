//! The cells of pages, where they are shown.
use super::blocks::{Block, heading_over_two_columns, page, two_columns};
use super::devices::{in_pieces, run};
use std::test::Fail;

#[test]
fn pages_show_their_cells_by_their_paths(rt: HostRuntime) -> Result<(), Fail> {
    let columns = two_columns(rt.alloc(), 2)?;
    let heading = heading_over_two_columns(rt.alloc())?;
    let cases: [(&[Block], &[u8]); 2] = [
        (
            columns.as_slice(),
            b"<div class='ocrx_cell' id='cell_0_0' title='bbox 2 2 36 36; x_path 0'></div>\n\
<div class='ocrx_cell' id='cell_0_1' title='bbox 48 2 82 36; x_path 1'></div>\n",
        ),
        (
            heading.as_slice(),
            b"<div class='ocrx_cell' id='cell_0_0' title='bbox 2 2 84 48; x_path r'></div>\n",
        ),
    ];
    for (blocks, cells) in cases {
        let input = page(rt.alloc(), 86, 53, blocks)?;
        let outcome = run(&rt, rt.alloc(), &["--xy"], &in_pieces(&input, 4096))?;
        assert!(rt; outcome.shows(cells));
        let outcome = run(&rt, rt.alloc(), &["--words"], &in_pieces(&input, 4096))?;
        assert!(rt; !outcome.shows(b"ocrx_cell"));
    }
    Ok(())
}
