//! The smear of a page.
ghost use Rattle.std.specs.Prelude.{IfOk};
ghost use Rattle.page_runs.specs.Packed.{IsWhole, page_of};
ghost use Rattle.run_smear.specs.Smear.{IsSmearOf};

use crate::band::smear_rows;
use layout_limits::OutOfMemory;
use page_runs::RunPage;
use std::alloc::Global;

/// The smear of a page: the page of the same size whose black places are black in the row smear and in the column smear of
/// the page. The row smear fills each white stretch of a row that has at most `h` columns and a black place directly before
/// and behind it, the column smear the same of columns, of at most `v` rows. A stretch at the edge of the page stays white.
///
/// # Errors
///
/// Want of memory is the one refusal.
pub fn smear_alone(alloc: Global, page: &RunPage, h: u16, v: u16) -> Result<RunPage, OutOfMemory>
    requires { IsWhole page.now }
    ensures whole { IfOk result IsWhole }
    ensures smear { IfOk result (λ smear. IsSmearOf (page_of page.now) h v (page_of smear)) }
{
    smear_rows(alloc, page, h, v, 0, page.height())
}
