//! Blocks are painted on a white page.
ghost use Rattle.std.specs.Prelude.{◌≡◌, ◌≢◌, ◌≤◌, ◌<◌, ◌*◌, ◌/◌, ℕ, All, length, OnOk, IfOk, nat_lt, nat_le, ◌&&◌, if◌then◌else◌};
ghost use Rattle.std.specs.List.{list_any};
ghost use Rattle.packed_rows.specs.Page.{pixel};
ghost use Rattle.page_runs.specs.Packed.{Holds, IsWhole};
ghost use Rattle.made_page.specs.Made.{has_place, page_of_blocks};

use crate::block::Block;
use layout_limits::OutOfMemory;
use packed_rows::{set_pixel, whiten};
use page_runs::{RowSink, RunPage, given_page_is_held};
use std::alloc::Global;

/// The width of a made page in pixels.
const WIDTH: u16 = 2480;

/// The height of a made page in pixels.
const HEIGHT: u16 = 3508;

/// The bytes of a packed row.
const ROW_LEN: usize = (WIDTH as usize + 7) / 8;

/// Makes the pixels of a packed row black from a column to the one before another.
fn put_stretch(bits: &mut [u8], left: u16, right: u16)
    requires { right ≤ 8 * length bits.old }
    ensures len { length bits.new ≡ length bits.old }
    ensures pixels { (k : ℕ) → pixel bits.new k ≡ (if nat_le left k && nat_lt k right then 1 else pixel bits.old k) }
{
    for x in left..right {
        set_pixel(bits, x);
    }
}

/// Paints what the block has of a row.
fn put_block(bits: &mut [u8], block: &Block, y: u16)
    requires { block.now.right ≤ 8 * length bits.old }
    ensures len { length bits.new ≡ length bits.old }
    ensures pixels { (k : ℕ) → pixel bits.new k ≡ (if has_place k y block.now then 1 else pixel bits.old k) }
{
    if block.top <= y && y < block.foot {
        put_stretch(bits, block.left, block.right);
    }
}

/// Paints what the blocks have of a row, on white.
fn put_row(bits: &mut [u8], blocks: &[Block], y: u16)
    requires { All (λ block. block.right ≤ 8 * length bits.old) blocks.now }
    ensures len { length bits.new ≡ length bits.old }
    ensures pixels { (k : ℕ) → pixel bits.new k ≡ (if list_any (has_place k y) blocks.now then 1 else 0) }
{
    whiten(bits);
    for block in blocks {
        put_block(bits, block, y);
    }
}

/// The page of the blocks.
pub fn paint(alloc: Global, blocks: &[Block]) -> Result<RunPage, OutOfMemory>
    requires { All (λ block. block.right ≤ WIDTH) blocks.now }
    ensures whole { IfOk result IsWhole }
    ensures held { IfOk result (λ page. Holds page (page_of_blocks blocks.now)) }
{
    // The law of a page that got its rows.
    given_page_is_held();
    let mut page = RunPage::empty(alloc);
    page.begin(WIDTH, HEIGHT)?;
    let mut bits = [0u8; ROW_LEN];
    for y in 0..HEIGHT {
        put_row(&mut bits, blocks, y);
        page.push_row(&bits)?;
    }
    Ok(page)
}
