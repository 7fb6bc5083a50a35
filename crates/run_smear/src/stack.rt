//! Two pages of one width, one below the other.
ghost use Rattle.std.specs.Prelude.{◌≡◌, ◌≤◌, ◌+◌, length, IfOk, OnOk};
ghost use Rattle.packed_rows.specs.Page.{IsPageSize, row_len};
ghost use Rattle.page_runs.specs.Packed.{IsWhole, page_of, rows_of};
ghost use Rattle.run_smear.specs.Stacked.{HasMore, IsStack};

use crate::row::paint_row_smear;
use layout_limits::OutOfMemory;
use packed_rows::row_len;
use page_runs::{RowSink, RunPage};
use std::alloc::Global;

/// Gives a page all rows of another of its width. The packed row is overwritten.
fn push_rows(page: &mut RunPage, more: &RunPage, bits: &mut [u8]) -> Result<(), OutOfMemory>
    requires more { IsWhole more.now }
    requires width { (page_of more.now).width ≡ (page_of page.old).width }
    requires room { rows_of page.old + (page_of more.now).height ≤ (page_of page.old).height }
    requires len { length bits.old ≡ row_len (page_of more.now).width }
    ensures len { length bits.new ≡ length bits.old }
    ensures more { OnOk result (HasMore page.old (page_of more.now) (page_of more.now).height page.new) }
{
    for y in 0..more.height() {
        paint_row_smear(bits, more.row(y), 0);
        page.push_row(bits)?;
    }
    Ok(())
}

/// The page of this width that has the rows of one page, and below them those of another.
pub(crate) fn stacked(
    alloc: Global,
    width: u16,
    upper: &RunPage,
    lower: &RunPage,
) -> Result<RunPage, OutOfMemory>
    requires upper { IsWhole upper.now }
    requires lower { IsWhole lower.now }
    requires upper_width { (page_of upper.now).width ≡ width }
    requires lower_width { (page_of lower.now).width ≡ width }
    requires size { IsPageSize width ((page_of upper.now).height + (page_of lower.now).height) }
    ensures whole { IfOk result IsWhole }
    ensures stack { IfOk result (λ page. IsStack (page_of upper.now) (page_of lower.now) (page_of page)) }
{
    let mut page = RunPage::empty(alloc);
    page.begin(width, upper.height() + lower.height())?;
    let mut bits = vec![in alloc; 0u8; row_len(width)]?;
    push_rows(&mut page, upper, &mut bits)?;
    push_rows(&mut page, lower, &mut bits)?;
    Ok(page)
}
