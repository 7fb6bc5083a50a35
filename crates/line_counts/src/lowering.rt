//! The keys of blocks as the members of a line go.
ghost use Rattle.std.specs.Prelude.{◌≡◌, ◌+◌, ◌*◌, ◌<◌, ◌≤◌, ◌≤ℤ◌, IsTrue, length, All};
ghost use Rattle.line_counts.specs.Fits.{slope_of};
ghost use Rattle.line_counts.specs.Blocks.{Misses, WasBlock, WereBlocks, AreBlocks, IsRenewed, IsHull, IsKeyBound, AreKeyBounds, lines_of};

use crate::block::Block;
use crate::counts::Counts;
use crate::fit::{first_place, slope};
use crate::limits::{REACH, SLOPES};
use crate::plain::more_rows;
use crate::span::{Span, hull_of, spans_of};
use line_quality::{LEAST_OFFSET, MAX_DEPTH};

/// Whether no place in the span weighs anything for a line of the span's slope whose offset is this one, or one of so many rows more.
fn misses(span: Span, from: i16, more: u8) -> bool
    requires { LEAST_OFFSET ≤ℤ from }
    ensures { IsTrue result → Misses span from more }
{
    let first = first_place(from);
    span.last < first || first + 2 * REACH as usize + (more as usize) < span.first
}

/// The key of a block and a slope after the members went that stand in the spans: the lesser of the one before and the plain key, or
/// the one before where no member weighs anything or the plain key is no less.
fn lower_key(
    counts: &Counts,
    block: &Block,
    number: usize,
    spans: &[Span],
    least: u32,
    deepest: u8,
) -> u64
    requires number { number < SLOPES }
    requires deep { deepest ≤ MAX_DEPTH }
    requires before { WasBlock counts.now least deepest spans.now block.now }
    ensures { IsKeyBound counts.now least (lines_of (slope_of number) block.now.from block.now.offsets deepest) result }
{
    let key = block.keys[number];
    if misses(spans[number], block.from, more_rows(block.offsets, deepest)) {
        return key;
    }
    let slope = slope(number);
    if counts.plain_reaches(key, slope, block.from, block.offsets, deepest) {
        return key;
    }
    key.min(counts.plain_key(slope, block.from, block.offsets, least, deepest))
}

/// The keys of a block after the members went that stand in the spans of all slopes.
fn lower_keys(
    counts: &Counts,
    block: &Block,
    spans: &[Span],
    least: u32,
    deepest: u8,
) -> [u64; SLOPES]
    requires deep { deepest ≤ MAX_DEPTH }
    requires before { WasBlock counts.now least deepest spans.now block.now }
    ensures { AreKeyBounds counts.now least deepest block.now.from block.now.offsets result }
{
    let mut keys = [0; SLOPES];
    for number in 0..SLOPES {
        keys[number] = lower_key(counts, block, number, spans, least, deepest);
    }
    keys
}

/// The block after the members went, with its keys lowered where the hull of the spans may touch it.
fn lowered(
    counts: &Counts,
    block: &Block,
    spans: &[Span],
    hull: Span,
    least: u32,
    deepest: u8,
) -> Block
    requires deep { deepest ≤ MAX_DEPTH }
    requires hull { IsHull spans.now hull }
    requires before { WasBlock counts.now least deepest spans.now block.now }
    ensures { IsRenewed counts.now least deepest block.now result }
{
    if misses(hull, block.from, more_rows(block.offsets, deepest)) {
        return *block;
    }
    let keys = lower_keys(counts, block, spans, least, deepest);
    Block::new(block.from, block.offsets, keys)
}

/// Lowers the keys of all blocks after the members of a line went.
pub(crate) fn lower_blocks(
    blocks: &mut [Block],
    counts: &Counts,
    least: u32,
    deepest: u8,
    members: &[u32],
)
    requires within { All (λ position. position < length counts.now.boxes) members.now }
    requires before { WereBlocks counts.now least deepest members.now blocks.old }
    ensures blocks { AreBlocks counts.now least deepest blocks.new }
    ensures long { length blocks.new ≡ length blocks.old }
{
    let spans = spans_of(counts.boxes(), members);
    let hull = hull_of(&spans);
    for place in 0..blocks.len() {
        blocks[place] = lowered(counts, &blocks[place], &spans, hull, least, deepest);
    }
}
