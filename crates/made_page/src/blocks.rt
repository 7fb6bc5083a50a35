//! The blocks of the page of a seed.
ghost use Rattle.std.specs.Prelude.{◌≡◌, ◌≤◌, ◌<◌, ◌*◌, ◌+◌, ◌++◌, ◌-◌, ℕ, OnOk, IfOk};
ghost use Rattle.made_page.specs.Draws.{state_behind, state_after};
ghost use Rattle.made_page.specs.Blocks.{block_at, glyph, speck, foot_of, glyphs_of, specks_of, blocks_of};

use crate::block::Block;
use crate::draws::Draws;
use layout_limits::OutOfMemory;
use std::alloc::Global;

/// How many rows of glyphs there are.
const ROWS: u16 = 44;

/// How many columns a row has.
const COLUMNS: u16 = 2;

/// How many glyphs a column has in a row.
const PLACES: u16 = 22;

/// How many glyphs there are.
const GLYPHS: u16 = ROWS * COLUMNS * PLACES;

/// The foot of the first row in pixels from the page's upper edge.
const FIRST_FOOT: u16 = 200;

/// From the foot of a row to that of the next, in pixels.
const ROW_STEP: u16 = 72;

/// The left edge of the first column in pixels.
const FIRST_LEFT: u16 = 200;

/// From the left edge of a column to that of the next, in pixels.
const COLUMN_STEP: u16 = 1112;

/// From the left edge of a glyph to that of the next, in pixels.
const GLYPH_STEP: u16 = 44;

/// The least width and the least height of a glyph in pixels.
const LEAST_SIDE: u16 = 24;

/// How many widths a glyph may have.
const WIDTHS: u64 = 9;

/// How many heights a glyph may have.
const HEIGHTS: u64 = 13;

/// The left edge of the specks in pixels, between the columns.
const SPECK_LEFT: u16 = 1230;

/// The width and the height of a speck in pixels.
const SPECK_SIDE: u16 = 2;

/// The foot of a row of glyphs.
fn foot_of(row: u16) -> u16
    requires { row < ROWS }
    ensures { result ≡ foot_of row }
{
    FIRST_FOOT + ROW_STEP * row
}

/// The block of this width and height, from its left edge and its foot.
fn block_at(left: u16, foot: u16, width: u16, height: u16) -> Block
    requires wide { left + width < 65536 }
    requires high { height ≤ foot }
    ensures { result ≡ block_at left foot width height }
{
    Block {
        left,
        right: left + width,
        top: foot - height,
        foot,
    }
}

/// The next glyph, which has this number: its width is drawn, and then its height.
fn draw_glyph(draws: &mut Draws, number: u16) -> Block
    requires { number < GLYPHS }
    ensures state { draws.new.state ≡ state_behind (state_behind draws.old.state) }
    ensures glyph { (seed : ℕ) → draws.old.state ≡ state_after seed (2 * number) → result ≡ glyph seed number }
{
    let column = number / PLACES % COLUMNS;
    let left = FIRST_LEFT + COLUMN_STEP * column + GLYPH_STEP * (number % PLACES);
    let width = LEAST_SIDE + (draws.draw() % WIDTHS) as u16;
    let height = LEAST_SIDE + (draws.draw() % HEIGHTS) as u16;
    let foot = foot_of(number / (COLUMNS * PLACES));
    block_at(left, foot, width, height)
}

/// The speck of a row.
fn speck(row: u16) -> Block
    requires { row < ROWS }
    ensures { result ≡ speck row }
{
    block_at(SPECK_LEFT, foot_of(row), SPECK_SIDE, SPECK_SIDE)
}

/// Puts the glyphs behind the blocks.
fn push_glyphs(blocks: &mut Vec<Block>, seed: u64) -> Result<(), OutOfMemory>
    ensures { OnOk result (blocks.new.items ≡ blocks.old.items ++ glyphs_of seed GLYPHS) }
{
    let mut draws = Draws { state: seed };
    for number in 0..GLYPHS {
        blocks.push(draw_glyph(&mut draws, number))?;
    }
    Ok(())
}

/// Puts the specks behind the blocks.
fn push_specks(blocks: &mut Vec<Block>) -> Result<(), OutOfMemory>
    ensures { OnOk result (blocks.new.items ≡ blocks.old.items ++ specks_of ROWS) }
{
    for row in 0..ROWS {
        blocks.push(speck(row))?;
    }
    Ok(())
}

/// The blocks of the page of a seed.
pub fn blocks_of(alloc: Global, seed: u64) -> Result<Vec<Block>, OutOfMemory>
    ensures { IfOk result (λ blocks. blocks.items ≡ blocks_of seed) }
{
    let mut blocks = Vec::new(alloc);
    push_glyphs(&mut blocks, seed)?;
    push_specks(&mut blocks)?;
    Ok(blocks)
}
