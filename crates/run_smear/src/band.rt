//! Rows of the smear of a page.
ghost use Rattle.std.specs.Prelude.{◌≡◌, ◌<◌, ◌≤◌, ◌+◌, ◌-◌, length, OnOk, IfOk};
ghost use Rattle.packed_rows.specs.Page.{IsPackedRow, row_len};
ghost use Rattle.page_runs.specs.Packed.{IsWhole, page_of};
ghost use Rattle.run_smear.specs.Painted.{IsPainted};
ghost use Rattle.run_smear.specs.Ready.{IsReady};
ghost use Rattle.run_smear.specs.Smear.{IsBandOf, IsInColumnSmear, IsInSmear};

use crate::columns::sweep_rows;
use crate::fills::{Fill, forget_done, list_near, paint_fills};
use crate::painting::keep_common;
use crate::row::paint_row_smear;
use layout_limits::OutOfMemory;
use packed_rows::row_len;
use page_runs::{RowSink, RunPage};
use std::alloc::Global;

/// For how many rows the fills that they have a part of are listed at a time.
const ROWS_AHEAD: u16 = 16;

/// How long a white stretch may be that is filled.
#[derive(Clone, Copy)]
struct Thresholds {
    /// In columns.
    columns: u16,
    /// In rows.
    rows: u16,
}

/// A sweep over the rows of a page from the top.
#[derive(Drop)]
struct Sweep {
    /// The row that comes next.
    next: u16,
    /// For each column the row behind its last black one, and 0 where it has none.
    behind: Vec<u16>,
    /// The stretches of columns that are filled, but for those that were passed.
    fills: Vec<Fill>,
    /// Of these the ones that begin above the row `until`.
    near: Vec<Fill>,
    /// The row up to which, it excluded, rows can be painted.
    until: u16,
}

/// Sweeps on, where row y cannot be painted yet, as far as stretches reach that it and some rows below it have a part of.
fn look_ahead(page: &RunPage, sweep: &mut Sweep, y: u16, most: u16) -> Result<(), OutOfMemory>
    requires whole { IsWhole page.now }
    requires row { y < (page_of page.now).height }
    requires ready { IsReady (page_of page.now) most y sweep.old }
    ensures ready { OnOk result (IsReady (page_of page.now) most y sweep.new) }
    ensures ahead { OnOk result (y < sweep.new.until) }
{
    if y < sweep.until {
        return Ok(());
    }
    let until = page.height().min(y.saturating_add(ROWS_AHEAD));
    let to = page.height().min(until.saturating_add(most));
    sweep_rows(
        page,
        &mut sweep.behind,
        &mut sweep.fills,
        sweep.next,
        to,
        most,
    )?;
    sweep.next = to;
    forget_done(&mut sweep.fills, y);
    list_near(&mut sweep.near, &sweep.fills, until)?;
    sweep.until = until;
    Ok(())
}

/// Paints the column smear of row y.
fn paint_column_smear(
    bits: &mut [u8],
    page: &RunPage,
    sweep: &mut Sweep,
    y: u16,
    most: u16,
) -> Result<(), OutOfMemory>
    requires whole { IsWhole page.now }
    requires row { y < (page_of page.now).height }
    requires len { length bits.old ≡ row_len (page_of page.now).width }
    requires ready { IsReady (page_of page.now) most y sweep.old }
    ensures len { length bits.new ≡ length bits.old }
    ensures ready { OnOk result (IsReady (page_of page.now) most (y + 1) sweep.new) }
    ensures painted { OnOk result (IsPainted (λ x. IsInColumnSmear (page_of page.now) most x y) bits.new) }
{
    look_ahead(page, sweep, y, most)?;
    paint_row_smear(bits, page.row(y), 0);
    paint_fills(bits, &sweep.near, y);
    Ok(())
}

/// Paints row y of the smear. The other row is overwritten.
fn paint_smear(
    bits: &mut [u8],
    other: &mut [u8],
    page: &RunPage,
    sweep: &mut Sweep,
    y: u16,
    most: Thresholds,
) -> Result<(), OutOfMemory>
    requires whole { IsWhole page.now }
    requires row { y < (page_of page.now).height }
    requires len { length bits.old ≡ row_len (page_of page.now).width }
    requires other_len { length other.old ≡ row_len (page_of page.now).width }
    requires ready { IsReady (page_of page.now) most.rows y sweep.old }
    ensures ready { OnOk result (IsReady (page_of page.now) most.rows (y + 1) sweep.new) }
    ensures packed { OnOk result (IsPackedRow (page_of page.now).width bits.new) }
    ensures painted { OnOk result (IsPainted (λ x. IsInSmear (page_of page.now) most.columns most.rows x y) bits.new) }
{
    paint_column_smear(other, page, sweep, y, most.rows)?;
    paint_row_smear(bits, page.row(y), most.columns);
    keep_common(bits, other);
    Ok(())
}

/// The rows of the smear from one of the page up to another, which is excluded, as a page.
pub(crate) fn smear_rows(
    alloc: Global,
    page: &RunPage,
    h: u16,
    v: u16,
    from: u16,
    to: u16,
) -> Result<RunPage, OutOfMemory>
    requires whole { IsWhole page.now }
    requires some { from < to }
    requires rows { to ≤ (page_of page.now).height }
    ensures whole { IfOk result IsWhole }
    ensures band { IfOk result (λ band. IsBandOf (page_of page.now) h v from to (page_of band)) }
{
    let width = page.width();
    let mut band = RunPage::empty(alloc);
    band.begin(width, to - from)?;
    let mut sweep = Sweep {
        next: from.saturating_sub(v),
        behind: vec![in alloc; 0u16; usize::from(width)]?,
        fills: Vec::new(alloc),
        near: Vec::new(alloc),
        until: from,
    };
    let most = Thresholds {
        columns: h,
        rows: v,
    };
    let mut bits = vec![in alloc; 0u8; row_len(width)]?;
    let mut other = vec![in alloc; 0u8; row_len(width)]?;
    for y in from..to {
        paint_smear(&mut bits, &mut other, page, &mut sweep, y, most)?;
        band.push_row(&bits)?;
    }
    Ok(band)
}
