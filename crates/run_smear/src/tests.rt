//! Smears that were drawn by hand.
ghost use Rattle.std.specs.Prelude.{◌≡◌, ◌≤◌, ◌*◌, length, IfOk};
ghost use Rattle.packed_rows.specs.Page.{IsPackedRow, IsPageSize};
ghost use Rattle.page_runs.specs.Packed.{IsWhole, page_of};

use crate::painting::blacken;
use crate::{smear, smear_alone, smear_is_unique};
use layout_limits::{MAX_PIXELS, MAX_SIDE, OutOfMemory};
use packed_rows::{clear_padding, row_len};
use page_runs::{RowSink, RunPage};
use std::alloc::Global;
use std::process::Abort;
use std::test::Fail;

/// A page with black blocks, and the blocks that its smear has more; blocks are `x0 y0 x1 y1`, half open.
struct Case<'a> {
    name: &'a str,
    width: u16,
    height: u16,
    blocks: &'a [[u16; 4]],
    h: u16,
    v: u16,
    filled: &'a [[u16; 4]],
    black: u64,
}

const BRACKETS: [[u16; 4]; 4] = [[0, 0, 8, 1], [0, 2, 3, 4], [5, 2, 8, 4], [0, 5, 8, 6]];

const CASES: [Case; 10] = [
    Case {
        name: "a gap that is short in both directions",
        width: 12,
        height: 6,
        blocks: &BRACKETS,
        h: 2,
        v: 4,
        filled: &[[3, 2, 5, 4]],
        black: 32,
    },
    Case {
        name: "a gap that is too high",
        width: 12,
        height: 6,
        blocks: &BRACKETS,
        h: 2,
        v: 3,
        filled: &[],
        black: 28,
    },
    Case {
        name: "a gap that is too wide",
        width: 12,
        height: 6,
        blocks: &BRACKETS,
        h: 1,
        v: 4,
        filled: &[],
        black: 28,
    },
    Case {
        name: "no columns",
        width: 12,
        height: 6,
        blocks: &BRACKETS,
        h: 0,
        v: 6,
        filled: &[],
        black: 28,
    },
    Case {
        name: "no rows",
        width: 12,
        height: 6,
        blocks: &BRACKETS,
        h: 12,
        v: 0,
        filled: &[],
        black: 28,
    },
    Case {
        name: "stretches at the edges of the page",
        width: 9,
        height: 5,
        blocks: &[[2, 1, 7, 2], [2, 2, 3, 3], [6, 2, 7, 3], [2, 3, 7, 4]],
        h: 65535,
        v: 65535,
        filled: &[[3, 2, 6, 3]],
        black: 15,
    },
    Case {
        name: "a page without black",
        width: 12,
        height: 6,
        blocks: &[],
        h: 5,
        v: 5,
        filled: &[],
        black: 0,
    },
    Case {
        name: "gaps of one smear beside those of the other",
        width: 7,
        height: 3,
        blocks: &[[0, 0, 1, 1], [2, 0, 3, 1], [0, 2, 3, 3]],
        h: 1,
        v: 1,
        filled: &[],
        black: 5,
    },
    Case {
        name: "a great page of few runs",
        width: 8192,
        height: 4096,
        blocks: &[
            [100, 100, 8000, 102],
            [100, 200, 101, 201],
            [103, 200, 104, 201],
            [100, 300, 8000, 302],
        ],
        h: 2,
        v: 200,
        filled: &[[101, 200, 103, 201]],
        black: 31604,
    },
    Case {
        name: "a gap that lies in the rows of two threads",
        width: 200,
        height: 4096,
        blocks: &[
            [10, 1000, 150, 1002],
            [10, 1010, 11, 1040],
            [13, 1010, 14, 1040],
            [10, 1100, 150, 1102],
        ],
        h: 2,
        v: 98,
        filled: &[[11, 1010, 13, 1040]],
        black: 680,
    },
];

/// Draws what a block has of a row.
fn draw(bits: &mut [u8], block: &[u16; 4], y: u16, width: u16)
    requires { width ≤ 8 * length bits.old }
    ensures { length bits.new ≡ length bits.old }
{
    if block[1] <= y && y < block[3] {
        blacken(bits, block[0], block[2].min(width));
    }
}

/// A row of the page with these blocks.
fn row_of(
    alloc: Global,
    blocks: &[[u16; 4]],
    filled: &[[u16; 4]],
    y: u16,
    width: u16,
) -> Result<Vec<u8>, OutOfMemory>
    ensures { IfOk result (λ bits. IsPackedRow width bits.items) }
{
    let mut bits = vec![in alloc; 0u8; row_len(width)]?;
    for block in blocks {
        draw(&mut bits, block, y, width);
    }
    for block in filled {
        draw(&mut bits, block, y, width);
    }
    clear_padding(&mut bits, width);
    Ok(bits)
}

/// The page with these blocks.
fn drawn(
    alloc: Global,
    blocks: &[[u16; 4]],
    filled: &[[u16; 4]],
    width: u16,
    height: u16,
) -> Result<RunPage, OutOfMemory>
    requires { IsPageSize width height }
    ensures whole { IfOk result IsWhole }
    ensures width { IfOk result (λ page. (page_of page).width ≡ width) }
    ensures height { IfOk result (λ page. (page_of page).height ≡ height) }
{
    let mut page = RunPage::empty(alloc);
    page.begin(width, height)?;
    for y in 0..height {
        let bits = row_of(alloc, blocks, filled, y, width)?;
        page.push_row(&bits)?;
    }
    Ok(page)
}

/// Two whole pages have the same runs.
fn same_runs(rt: &impl Abort, one: &RunPage, other: &RunPage)
    requires one { IsWhole one.now }
    requires other { IsWhole other.now }
{
    assert!(rt; one.width() == other.width() && one.height() == other.height());
    for y in 0..one.height() {
        let (runs, others) = (one.row(y), other.row(y));
        assert_eq!(rt; runs.len(), others.len());
        for (run, want) in runs.iter().zip(others) {
            assert!(rt; run.x0 == want.x0 && run.x1 == want.x1);
        }
    }
}

#[test]
fn smears_by_hand(rt: HostRuntime) -> Result<(), Fail> {
    for case in &CASES {
        let (width, height) = (case.width, case.height);
        assert!(rt; 0 < width && 0 < height && width <= MAX_SIDE && height <= MAX_SIDE);
        assert!(rt; u32::from(width) * u32::from(height) <= MAX_PIXELS);
        let page = drawn(rt.alloc(), case.blocks, &[], width, height)?;
        let want = drawn(rt.alloc(), case.blocks, case.filled, width, height)?;
        let alone = smear_alone(rt.alloc(), &page, case.h, case.v)?;
        let shared = smear(&rt, rt.alloc(), &page, case.h, case.v)?;
        assert_eq!(rt; alone.black(), case.black, "{}", case.name);
        assert_eq!(rt; shared.black(), case.black, "{}", case.name);
        same_runs(&rt, &alone, &want);
        same_runs(&rt, &shared, &want);
    }
    Ok(())
}

#[test]
fn the_law_is_stated(_rt: HostRuntime) {
    smear_is_unique();
}
