//! Bounds of shapes of the grid: of the part that a shape has in a block, by the keys of the block, or by all its lines.
ghost use Rattle.std.specs.Prelude.{◌≡◌, ◌+◌, ◌<◌, ◌≤◌, ◌↔◌, pos};
ghost use Rattle.std.specs.Prelude.{negsuc, ◌+ℤ◌, ◌≤ℤ◌, ◌<ℤ◌, IsTrue, ℤ};
ghost use Rattle.std.specs.Int.{int_min, int_max};
ghost use Rattle.line_counts.specs.Fits.{slope_of};
ghost use Rattle.line_counts.specs.Shapes.{IsInGrid, IsSingle};
ghost use Rattle.line_counts.specs.Plain.{plain_key};
ghost use Rattle.line_counts.specs.Blocks.{IsBlock, HasOffset, HasWhole, HasAll, IsKeyWhere, IsRaisedBound, AreCommon};

use crate::block::Block;
use crate::counts::Counts;
use crate::fit::slope;
use crate::limits::SLOPES;
use crate::stretch::Stretch;
use box_search::Shape;
use layout_limits::MAX_SIDE;
use line_quality::{LEAST_OFFSET, LEAST_SLOPE, MAX_DEPTH, MAX_SLOPE, OFFSET_MARGIN};

/// Neighbouring offsets: the first, and the one behind the last.
#[derive(Clone, Copy)]
pub(crate) struct Offsets {
    pub(crate) from: i32,
    pub(crate) to: i32,
}

/// Whether a range has one number.
fn has_one(low: i32, high: i32) -> bool
    requires low { negsuc 9999 ≤ℤ low }
    requires some { low <ℤ high }
    requires high { high ≤ℤ pos 9999 }
    ensures { IsTrue result ↔ (high ≡ low +ℤ pos 1) }
{
    high - low == 1
}

/// Whether a shape of the grid has one line.
pub fn is_single(shape: &Shape) -> bool
    requires { IsInGrid MAX_SIDE MAX_DEPTH shape.now }
    ensures { IsTrue result ↔ IsSingle shape.now }
{
    has_one(shape.a0, shape.a1) && has_one(shape.b0, shape.b1) && has_one(shape.c0, shape.c1)
}

/// The number of a slope, or of the one behind the last.
fn number_of(slope: i32) -> usize
    requires low { LEAST_SLOPE ≤ℤ slope }
    requires high { slope ≤ℤ (MAX_SLOPE +ℤ pos 1) }
    ensures value { slope_of result ≡ slope }
    ensures few { result ≤ SLOPES }
{
    (slope - LEAST_SLOPE as i32) as usize
}

/// The offsets that a shape and a block have in common: none where the first is not before the one behind the last.
fn common(shape: &Shape, block: &Block) -> Offsets
    requires shape { IsInGrid MAX_SIDE MAX_DEPTH shape.now }
    requires low { LEAST_OFFSET ≤ℤ block.now.from }
    requires high { (block.now.from +ℤ pos block.now.offsets) ≤ℤ pos (MAX_SIDE + OFFSET_MARGIN + 1) }
    ensures { AreCommon shape.now block.now result }
{
    Offsets {
        from: shape.b0.max(block.from as i32),
        to: shape.b1.min(block.from as i32 + block.offsets as i32),
    }
}

/// The lines of a shape that have a slope and some of its offsets.
pub(crate) fn part_of(shape: &Shape, slope: i8, offsets: Offsets) -> Stretch
    requires shape { IsInGrid MAX_SIDE MAX_DEPTH shape.now }
    requires low { LEAST_OFFSET ≤ℤ offsets.from }
    requires some { offsets.from <ℤ offsets.to }
    requires high { offsets.to ≤ℤ pos (MAX_SIDE + OFFSET_MARGIN + 1) }
    ensures slope { result.slope ≡ slope }
    ensures from { result.from ≡ offsets.from }
    ensures offsets { (result.from +ℤ pos result.offsets) ≡ offsets.to }
    ensures shallowest { pos result.shallowest ≡ shape.now.c0 }
    ensures deepest { pos (result.deepest + 1) ≡ shape.now.c1 }
{
    Stretch {
        slope,
        from: offsets.from as i16,
        offsets: (offsets.to - offsets.from) as u16,
        shallowest: shape.c0 as u8,
        deepest: (shape.c1 - 1) as u8,
    }
}

/// Whether a shape has all offsets of a block.
fn has_offsets(shape: &Shape, block: &Block) -> bool
    requires shape { IsInGrid MAX_SIDE MAX_DEPTH shape.now }
    requires low { LEAST_OFFSET ≤ℤ block.now.from }
    requires high { (block.now.from +ℤ pos block.now.offsets) ≤ℤ pos (MAX_SIDE + OFFSET_MARGIN + 1) }
    ensures { IsTrue result → (shape.now.b0 ≤ℤ block.now.from) × ((block.now.from +ℤ pos block.now.offsets) ≤ℤ shape.now.b1) }
{
    shape.b0 <= block.from as i32 && block.from as i32 + block.offsets as i32 <= shape.b1
}

/// Whether a shape has all depths down to the deepest.
fn has_depths(shape: &Shape, deepest: u8) -> bool
    requires { IsInGrid MAX_SIDE MAX_DEPTH shape.now }
    ensures { IsTrue result → (shape.now.c0 ≤ℤ pos 0) × (pos (deepest + 1) ≤ℤ shape.now.c1) }
{
    shape.c0 <= 0 && deepest as i32 + 1 <= shape.c1
}

/// Whether a shape has all offsets of a block, and all depths.
fn has_whole(shape: &Shape, block: &Block, deepest: u8) -> bool
    requires shape { IsInGrid MAX_SIDE MAX_DEPTH shape.now }
    requires low { LEAST_OFFSET ≤ℤ block.now.from }
    requires high { (block.now.from +ℤ pos block.now.offsets) ≤ℤ pos (MAX_SIDE + OFFSET_MARGIN + 1) }
    ensures { IsTrue result → HasWhole shape.now block.now deepest }
{
    has_offsets(shape, block) && has_depths(shape, deepest)
}

/// Whether a shape has all slopes.
fn has_slopes(shape: &Shape) -> bool
    requires { IsInGrid MAX_SIDE MAX_DEPTH shape.now }
    ensures { IsTrue result → (shape.now.a0 ≤ℤ LEAST_SLOPE) × ((MAX_SLOPE +ℤ pos 1) ≤ℤ shape.now.a1) }
{
    shape.a0 <= LEAST_SLOPE as i32 && MAX_SLOPE as i32 + 1 <= shape.a1
}

/// Whether a shape has all lines of a block.
fn has_all(shape: &Shape, block: &Block, deepest: u8) -> bool
    requires shape { IsInGrid MAX_SIDE MAX_DEPTH shape.now }
    requires low { LEAST_OFFSET ≤ℤ block.now.from }
    requires high { (block.now.from +ℤ pos block.now.offsets) ≤ℤ pos (MAX_SIDE + OFFSET_MARGIN + 1) }
    ensures { IsTrue result → HasAll shape.now block.now deepest }
{
    has_slopes(shape) && has_whole(shape, block, deepest)
}

impl Counts {
    /// The bound so far, or a greater one of the lines of a shape that have the slope of a number and an offset of a block.
    fn bound_at(
        &self,
        shape: &Shape,
        block: &Block,
        number: usize,
        deepest: u8,
        least: u32,
        before: u64,
    ) -> u64
        requires shape { IsInGrid self.now.height deepest shape.now }
        requires block { IsBlock self.now least deepest block.now }
        requires common { int_max shape.now.b0 block.now.from <ℤ int_min shape.now.b1 (block.now.from +ℤ pos block.now.offsets) }
        requires number { number < SLOPES }
        requires first { shape.now.a0 ≤ℤ slope_of number }
        requires last { slope_of number <ℤ shape.now.a1 }
        ensures { IsRaisedBound
            (IsKeyWhere self.now least shape.now (λ slope offset. (slope ≡ slope_of number) × HasOffset offset block.now))
            (plain_key self.now.boxes self.now.alive shape.now) before result }
    {
        let key = block.keys[number];
        if key <= before {
            return before;
        }
        if has_whole(shape, block, deepest) {
            return key;
        }
        self.greatest(&part_of(shape, slope(number), common(shape, block)), least)
            .max(before)
    }

    /// The bound so far, or a greater one of the lines of a shape that have an offset of a block.
    pub(crate) fn bound_in(
        &self,
        shape: &Shape,
        block: &Block,
        deepest: u8,
        least: u32,
        before: u64,
    ) -> u64
        requires shape { IsInGrid self.now.height deepest shape.now }
        requires block { IsBlock self.now least deepest block.now }
        ensures { IsRaisedBound (IsKeyWhere self.now least shape.now (λ slope offset. HasOffset offset block.now))
            (plain_key self.now.boxes self.now.alive shape.now) before result }
    {
        if block.greatest <= before {
            return before;
        }
        let offsets = common(shape, block);
        if offsets.to <= offsets.from {
            return before;
        }
        if has_all(shape, block, deepest) {
            return block.greatest;
        }
        let mut best = before;
        for number in number_of(shape.a0)..number_of(shape.a1) {
            best = self.bound_at(shape, block, number, deepest, least, best);
        }
        best
    }
}
