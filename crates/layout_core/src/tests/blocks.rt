//! Pages of a few black blocks.
use std::alloc::Global;
use std::test::Fail;

/// The half-open sides of a block: x0, y0, x1, y1.
pub(super) type Block = [u16; 4];

/// A page in raw PBM, of which just the pixels of the blocks are black.
pub(super) fn page(
    alloc: Global,
    width: u16,
    height: u16,
    blocks: &[Block],
) -> Result<Vec<u8>, Fail> {
    let mut input = format!(in alloc; "P4\n{width} {height}\n")?.into_bytes();
    for y in 0..height {
        for byte in 0..width.div_ceil(8) {
            input.push(packed(blocks, byte, y))?;
        }
    }
    Ok(input)
}

/// A byte of a row: eight pixels.
fn packed(blocks: &[Block], byte: u16, y: u16) -> u8 {
    let mut bits = 0u8;
    for place in 0..8u32 {
        if is_black(blocks, byte as u32 * 8 + place, y) {
            bits |= 0x80 >> place;
        }
    }
    bits
}

fn is_black(blocks: &[Block], x: u32, y: u16) -> bool {
    for [x0, y0, x1, y1] in blocks {
        if *x0 as u32 <= x && x < *x1 as u32 && *y0 <= y && y < *y1 {
            return true;
        }
    }
    false
}

/// Two columns, three rows of three blocks 10 by 10 in each, from a row on.
pub(super) fn two_columns(alloc: Global, top: u16) -> Result<Vec<Block>, Fail> {
    let mut blocks = Vec::new(alloc);
    for row in 0..3u16 {
        for x in [2u16, 14, 26, 48, 60, 72] {
            let y = top % 1000 + row * 12;
            blocks.push([x, y, x + 10, y + 10])?;
        }
    }
    Ok(blocks)
}

/// The same under a heading of seven blocks.
pub(super) fn heading_over_two_columns(alloc: Global) -> Result<Vec<Block>, Fail> {
    let mut blocks = two_columns(alloc, 14)?;
    for place in 0..7u16 {
        blocks.push([2 + place * 12, 2, 12 + place * 12, 12])?;
    }
    Ok(blocks)
}
