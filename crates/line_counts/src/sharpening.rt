//! Keys of blocks that are made less, until they are exact.
ghost use Rattle.std.specs.Prelude.{◌<◌, ◌≤◌, length};
ghost use Rattle.line_counts.specs.Blocks.{IsBlock, IsRenewed};

use crate::block::Block;
use crate::counts::Counts;
use crate::fit::slope;
use crate::limits::SLOPES;
use crate::stretch::Stretch;
use line_quality::MAX_DEPTH;

/// The place of the block that has the greatest key, or 0 where there is none.
pub(crate) fn greatest_block(blocks: &[Block]) -> usize
    ensures { 0 < length blocks.now → result < length blocks.now }
{
    let mut best = 0;
    for place in 0..blocks.len() {
        if blocks[place].greatest > blocks[best].greatest {
            best = place;
        }
    }
    best
}

/// The block with a lesser key of the slope of a number, or the exact one.
pub(crate) fn sharpened(
    counts: &Counts,
    block: &Block,
    number: usize,
    least: u32,
    deepest: u8,
) -> Block
    requires number { number < SLOPES }
    requires deep { deepest ≤ MAX_DEPTH }
    requires block { IsBlock counts.now least deepest block.now }
    ensures { IsRenewed counts.now least deepest block.now result }
{
    let lines = Stretch {
        slope: slope(number),
        from: block.from,
        offsets: block.offsets,
        shallowest: 0,
        deepest,
    };
    let mut keys = block.keys;
    keys[number] = counts.sharper(&lines, least, keys[number]);
    Block::new(block.from, block.offsets, keys)
}
