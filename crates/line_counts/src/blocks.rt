//! The blocks into which halving divides the offsets of a page.
ghost use Rattle.std.specs.Prelude.{◌≡◌, ◌+◌, ◌*◌, ◌<◌, ◌≤◌, pos, ◌+ℤ◌, ◌≤ℤ◌, IfOk};
ghost use Rattle.line_counts.specs.Blocks.{IsBlock, AreBlocks, AreKeyBounds};

use crate::block::Block;
use crate::counts::Counts;
use crate::fit::slope;
use crate::limits::SLOPES;
use layout_limits::{MAX_SIDE, OutOfMemory};
use line_quality::{LEAST_OFFSET, MAX_DEPTH, OFFSET_MARGIN};
use std::alloc::Global;

/// The most offsets of a block.
pub(crate) const MAX_BLOCK: u16 = 64;

/// Where the block of a row ends: ranges of rows are halved until they have at most 64, as a search halves its offsets.
fn block_end(row: u32, rows: u32) -> u32
    requires within { row < rows }
    requires few { rows ≤ 20000 }
    ensures behind { row < result }
    ensures inside { result ≤ rows }
    ensures few { result ≤ row + MAX_BLOCK }
{
    let (mut low, mut high) = (0, rows);
    for _ in 0..15 {
        let middle = (low + high) / 2;
        if high - low > MAX_BLOCK as u32 && row < middle {
            high = middle;
        } else if high - low > MAX_BLOCK as u32 {
            low = middle;
        }
    }
    high.min(row + MAX_BLOCK as u32)
}

/// The plain keys of all slopes for the lines of some offsets.
fn plain_keys(counts: &Counts, from: i16, offsets: u16, least: u32, deepest: u8) -> [u64; SLOPES]
    requires page { counts.now.height ≤ MAX_SIDE }
    requires low { LEAST_OFFSET ≤ℤ from }
    requires high { (from +ℤ pos offsets) ≤ℤ pos (counts.now.height + OFFSET_MARGIN + 1) }
    requires some { 0 < offsets }
    requires few { offsets ≤ MAX_BLOCK }
    requires deep { deepest ≤ MAX_DEPTH }
    ensures { AreKeyBounds counts.now least deepest from offsets result }
{
    let mut keys = [0; SLOPES];
    for number in 0..SLOPES {
        keys[number] = counts.plain_key(slope(number), from, offsets, least, deepest);
    }
    keys
}

/// The block of some rows, from 300 above the page on, with plain keys.
fn block_of(counts: &Counts, row: u32, end: u32, least: u32, deepest: u8) -> Block
    requires some { row < end }
    requires few { end ≤ row + MAX_BLOCK }
    requires inside { end ≤ counts.now.height + 2 * OFFSET_MARGIN + 1 }
    requires page { counts.now.height ≤ MAX_SIDE }
    requires deep { deepest ≤ MAX_DEPTH }
    ensures block { IsBlock counts.now least deepest result }
    ensures from { result.from ≡ pos row +ℤ LEAST_OFFSET }
    ensures offsets { row + result.offsets ≡ end }
{
    let from = (row as i32 + LEAST_OFFSET as i32) as i16;
    let offsets = (end - row) as u16;
    Block::new(
        from,
        offsets,
        plain_keys(counts, from, offsets, least, deepest),
    )
}

/// The blocks of a page, with plain keys.
pub(crate) fn all_blocks(
    alloc: Global,
    counts: &Counts,
    least: u32,
    deepest: u8,
) -> Result<Vec<Block>, OutOfMemory>
    requires { deepest ≤ MAX_DEPTH }
    ensures { IfOk result (λ blocks. AreBlocks counts.now least deepest blocks.items) }
{
    let rows = counts.height() as u32 + 2 * OFFSET_MARGIN as u32 + 1;
    let mut blocks = Vec::new(alloc);
    let mut row = 0;
    while row < rows {
        let end = block_end(row, rows);
        blocks.push(block_of(counts, row, end, least, deepest))?;
        row = end;
    }
    Ok(blocks)
}
