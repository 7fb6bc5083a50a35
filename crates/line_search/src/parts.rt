//! The two parts of a shape.
ghost use Rattle.std.specs.Prelude.{◌≡◌, ◌++◌, ◌+ℤ◌, ◌≤ℤ◌, ◌<ℤ◌, pos, negsuc, IfOk};
ghost use Rattle.std.specs.Option.{option_to_list};
ghost use Rattle.line_counts.specs.Shapes.{IsInGrid, IsSingle};
ghost use Rattle.line_search.specs.Parts;
ghost use Rattle.line_search.specs.Parts.{AreHalves, IsLong};

use crate::span::Span;
use box_search::{Node, Shape};
use layout_limits::{MAX_SIDE, OutOfMemory};
use line_quality::MAX_DEPTH;
use std::alloc::Global;

/// The middle of a range, rounded towards the lesser number.
fn half(low: i16, high: i16) -> i32
    ensures { result ≡ Parts.half low high }
{
    (low as i32 + high as i32).div_euclid(2)
}

/// The ranges of a shape.
#[derive(Clone, Copy, Debug, PartialEq, Eq)]
pub(crate) enum Range {
    /// That of the slopes.
    Slopes,
    /// That of the offsets.
    Offsets,
    /// That of the depths.
    Depths,
}

/// How much a cut of a range that reaches over so many rows gains: nothing where it has one number alone.
fn gain(low: i32, high: i32, rows: i32) -> i32
    requires low { negsuc 9999 ≤ℤ low }
    requires some { low <ℤ high }
    requires high { high ≤ℤ pos 9999 }
    ensures none { high ≤ℤ (low +ℤ pos 1) → result ≡ pos 0 }
    ensures some { (low +ℤ pos 2) ≤ℤ high → pos 1 ≤ℤ result }
{
    if high - low > 1 { rows.max(1) } else { 0 }
}

/// The range of a shape that reaches over the most rows, where the farthest middle of a box is `widest` columns
/// from the left.
pub(crate) fn longest(shape: &Shape, widest: u16) -> Range
    requires in_grid { IsInGrid MAX_SIDE MAX_DEPTH shape.now }
    requires wide { IsSingle shape.now → ⊥ }
    ensures { IsLong shape.now result }
{
    let reach = (shape.a1 - shape.a0) * widest as i32 / 1000;
    let by_slopes = gain(shape.a0, shape.a1, reach);
    let by_offsets = gain(shape.b0, shape.b1, shape.b1 - shape.b0);
    let by_depths = gain(shape.c0, shape.c1, shape.c1 - shape.c0);
    if by_offsets >= by_slopes && by_offsets >= by_depths {
        Range::Offsets
    } else if by_slopes >= by_depths {
        Range::Slopes
    } else {
        Range::Depths
    }
}

/// The most offsets of a block of a table of keys.
const BLOCK: i32 = 64;

/// How many numbers a range has.
fn count(low: i32, high: i32) -> i32
    requires low { negsuc 9999 ≤ℤ low }
    requires some { low <ℤ high }
    requires high { high ≤ℤ pos 9999 }
    ensures { (low +ℤ result) ≡ high }
{
    high - low
}

/// The range of a shape that is cut where a table has keys of whole blocks: the offsets down to a block, then the slopes
/// down to one, then the longer of offsets and depths.
pub(crate) fn by_blocks(shape: &Shape) -> Range
    requires in_grid { IsInGrid MAX_SIDE MAX_DEPTH shape.now }
    requires wide { IsSingle shape.now → ⊥ }
    ensures { IsLong shape.now result }
{
    let offsets = count(shape.b0, shape.b1);
    let depths = count(shape.c0, shape.c1);
    if offsets > BLOCK {
        Range::Offsets
    } else if count(shape.a0, shape.a1) > 1 {
        Range::Slopes
    } else if offsets >= depths {
        Range::Offsets
    } else {
        Range::Depths
    }
}

/// The two parts of a shape, which is cut at the middle of a range.
pub(crate) fn halves(shape: &Shape, range: Range) -> (Shape, Shape)
    requires in_grid { IsInGrid MAX_SIDE MAX_DEPTH shape.now }
    requires long { IsLong shape.now range }
    ensures { AreHalves shape.now result.0 result.1 }
{
    match range {
        Range::Slopes => {
            let middle = half(shape.a0 as i16, shape.a1 as i16);
            (
                Shape {
                    a1: middle,
                    ..*shape
                },
                Shape {
                    a0: middle,
                    ..*shape
                },
            )
        }
        Range::Offsets => {
            let middle = half(shape.b0 as i16, shape.b1 as i16);
            (
                Shape {
                    b1: middle,
                    ..*shape
                },
                Shape {
                    b0: middle,
                    ..*shape
                },
            )
        }
        Range::Depths => {
            let middle = half(shape.c0 as i16, shape.c1 as i16);
            (
                Shape {
                    c1: middle,
                    ..*shape
                },
                Shape {
                    c0: middle,
                    ..*shape
                },
            )
        }
    }
}

/// The nodes that are there, in order.
pub(crate) fn listed(
    alloc: Global,
    lower: Option<Node<Span>>,
    upper: Option<Node<Span>>,
) -> Result<Vec<Node<Span>>, OutOfMemory>
    ensures { IfOk result (λ nodes. nodes.items ≡ option_to_list lower ++ option_to_list upper) }
{
    let mut nodes = Vec::with_capacity(alloc, 2)?;
    if let Some(node) = lower {
        nodes.push(node)?;
    }
    if let Some(node) = upper {
        nodes.push(node)?;
    }
    Ok(nodes)
}
