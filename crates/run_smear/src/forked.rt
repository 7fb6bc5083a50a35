//! The smear of a page, with its rows shared out over threads.
ghost use Rattle.std.specs.Prelude.{◌<◌, ◌≤◌, IfOk};
ghost use Rattle.std.specs.Thread.{IsSync};
ghost use Rattle.page_runs.specs.Packed.{IsWhole, page_of};
ghost use Rattle.run_smear.specs.Smear.{IsBandOf, IsSmearOf};

use crate::band::smear_rows;
use crate::stack::stacked;
use layout_limits::OutOfMemory;
use page_runs::RunPage;
use std::alloc::Global;
use std::thread::{Threads, join};

/// How many rows are smeared on one thread: to begin a thread, and to put what it gives below other rows, costs more than
/// to smear so few.
const FEW_ROWS: u16 = 512;

/// Rows of a page.
#[derive(Clone, Copy)]
struct Rows {
    /// The first.
    from: u16,
    /// The row under the last.
    to: u16,
}

/// These rows of the smear, as a page. Each part of many rows is smeared in halves at a time. Where a half would have fewer
/// than `v` rows, the rows above it, which it has to look at, would be most of its work.
fn rows_apart<R: Threads + Sync>(
    rt: &R,
    alloc: Global,
    page: &RunPage,
    h: u16,
    v: u16,
    rows: Rows,
) -> Result<RunPage, OutOfMemory>
    requires whole { IsWhole page.now }
    requires some { rows.from < rows.to }
    requires rows { rows.to ≤ (page_of page.now).height }
    ensures whole { IfOk result IsWhole }
    ensures band { IfOk result (λ band. IsBandOf (page_of page.now) h v rows.from rows.to (page_of band)) }
{
    let half = (rows.to - rows.from) / 2;
    if half < FEW_ROWS || half < v {
        return smear_rows(alloc, page, h, v, rows.from, rows.to);
    }
    let middle = rows.from + half;
    let (upper, lower) = join(
        rt,
        || -> Result<RunPage, OutOfMemory>
            requires { IsSync R.row × IsWhole page.now × (rows.from < middle) × (middle ≤ (page_of page.now).height) }
            ensures whole { IfOk result IsWhole }
            ensures band { IfOk result (λ band. IsBandOf (page_of page.entry.now) h v rows.from middle (page_of band)) }
        {
            let rows = Rows {
                from: rows.from,
                to: middle,
            };
            rows_apart(rt, alloc, page, h, v, rows)
        },
        || -> Result<RunPage, OutOfMemory>
            requires { IsSync R.row × IsWhole page.now × (middle < rows.to) × (rows.to ≤ (page_of page.now).height) }
            ensures whole { IfOk result IsWhole }
            ensures band { IfOk result (λ band. IsBandOf (page_of page.entry.now) h v middle rows.to (page_of band)) }
        {
            let rows = Rows {
                from: middle,
                to: rows.to,
            };
            rows_apart(rt, alloc, page, h, v, rows)
        },
    );
    stacked(alloc, page.width(), &upper?, &lower?)
}

/// The smear of a page, as `smear_alone` gives it. Parts of many rows are worked on at a time, where threads can be made
/// for them.
///
/// # Errors
///
/// Want of memory is the one refusal.
pub fn smear<R: Threads + Sync>(
    rt: &R,
    alloc: Global,
    page: &RunPage,
    h: u16,
    v: u16,
) -> Result<RunPage, OutOfMemory>
    requires { IsWhole page.now }
    ensures whole { IfOk result IsWhole }
    ensures smear { IfOk result (λ smear. IsSmearOf (page_of page.now) h v (page_of smear)) }
{
    let rows = Rows {
        from: 0,
        to: page.height(),
    };
    rows_apart(rt, alloc, page, h, v, rows)
}
