//! A page that was given its rows is held, as runs.
ghost use Rattle.std.specs.Prelude.{◌≡◌, ◌<◌, ◌+◌, OnOk, length};
ghost use Rattle.packed_rows.specs.Page.{row_len};
ghost use Rattle.page_runs.specs.Packed.{page_of, rows_of};

use crate::{Run, RunPage, given_page_is_held};
use layout_limits::OutOfMemory;
use packed_rows::clear_padding;
use pbm_reader::RowSink;
use std::process::Abort;
use std::test::Fail;

#[test]
fn the_black_pixels_of_a_page_that_was_given(rt: HostRuntime) -> Result<(), Fail> {
    let mut page = RunPage::empty(rt.alloc());
    assert!(rt; !page.is_whole());
    page.begin(16, 2)?;
    page.push_row(&[0x81, 0x40])?;
    page.push_row(&[0x00, 0xC0])?;
    assert!(rt; page.is_whole());
    assert!(rt; page.width() == 16 && page.height() == 2);
    assert_eq!(rt; page.black(), 5);
    for (x, y, black) in [
        (0, 0, true),
        (1, 0, false),
        (7, 0, true),
        (8, 0, false),
        (9, 0, true),
        (7, 1, false),
        (9, 1, true),
    ] {
        assert!(rt; x < page.width() && y < page.height());
        assert!(rt; page.is_black(x, y) == black);
    }
    given_page_is_held();
    Ok(())
}

/// Adds a row whose padding bits are cleared before.
fn push(page: &mut RunPage, bits: &mut [u8]) -> Result<(), OutOfMemory>
    requires more { rows_of page.old < (page_of page.old).height }
    requires len { length bits.old ≡ row_len (page_of page.old).width }
    ensures rows { OnOk result (rows_of page.new ≡ rows_of page.old + 1) }
    ensures width { OnOk result ((page_of page.new).width ≡ (page_of page.old).width) }
    ensures height { OnOk result ((page_of page.new).height ≡ (page_of page.old).height) }
{
    clear_padding(bits, page.width());
    page.push_row(bits)
}

/// The runs of a row are these.
fn has_runs(rt: &impl Abort, runs: &[Run], want: &[[u16; 2]]) {
    assert_eq!(rt; runs.len(), want.len());
    for (run, ends) in runs.iter().zip(want) {
        assert!(rt; run.x0 == ends[0] && run.x1 == ends[1]);
    }
}

/// Runs of short rows; then runs over the bounds of bytes, at the width and to the width, and an empty row.
#[test]
fn rows_have_their_runs(rt: HostRuntime) -> Result<(), Fail> {
    let mut page = RunPage::empty(rt.alloc());
    page.begin(5, 2)?;
    push(&mut page, &mut [0b1101_1000])?;
    push(&mut page, &mut [0b0010_0000])?;
    has_runs(&rt, page.row(0), &[[0, 2], [3, 5]]);
    has_runs(&rt, page.row(1), &[[2, 3]]);

    let mut page = RunPage::empty(rt.alloc());
    page.begin(20, 3)?;
    push(&mut page, &mut [0x0F, 0xF0, 0x3F])?;
    push(&mut page, &mut [0, 0, 0x0F])?;
    push(&mut page, &mut [0xFF, 0xFF, 0xFF])?;
    has_runs(&rt, page.row(0), &[[4, 12], [18, 20]]);
    has_runs(&rt, page.row(1), &[]);
    has_runs(&rt, page.row(2), &[[0, 20]]);
    Ok(())
}

#[test]
fn a_row_of_single_pixels(rt: HostRuntime) -> Result<(), Fail> {
    let mut page = RunPage::empty(rt.alloc());
    page.begin(8192, 1)?;
    push(&mut page, &mut [0xAA; 1024])?;
    assert_eq!(rt; page.row(0).len(), 4096);
    assert_eq!(rt; page.black(), 4096);
    Ok(())
}
