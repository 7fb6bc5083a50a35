//! The page of a seed.
ghost use Rattle.std.specs.Prelude.{IfOk};
ghost use Rattle.page_runs.specs.Packed.{Holds, IsWhole};
ghost use Rattle.made_page.specs.Made.{made_page};

use crate::blocks::blocks_of;
use crate::painting::paint;
use layout_limits::OutOfMemory;
use page_runs::RunPage;
use std::alloc::Global;

/// The page of a seed, 2480 wide and 3508 high: 44 rows of glyphs, each a solid block from 24 to 32
/// wide and from 24 to 36 high, in two columns of 22, with a speck of 2 by 2 between the columns in
/// each row. Widths and heights are drawn from the seed, so each seed has one page.
///
/// It takes memory for the page and for a list of its 1980 blocks.
///
/// # Errors
///
/// Want of memory is the one refusal.
pub fn make_page(alloc: Global, seed: u64) -> Result<RunPage, OutOfMemory>
    ensures whole { IfOk result IsWhole }
    ensures held { IfOk result (λ page. Holds page (made_page seed)) }
{
    let blocks = blocks_of(alloc, seed)?;
    paint(alloc, &blocks)
}
