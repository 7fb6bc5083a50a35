//! The sweep over the rows of a page, which finds the stretches of columns that are filled.
ghost use Rattle.std.specs.Prelude.{◌≡◌, ◌<◌, ◌≤◌, ℕ, IsTrue, length, slice_index, OnOk};
ghost use Rattle.page_runs.specs.Packed.{IsWhole, page_of};
ghost use Rattle.page_runs.specs.Runs.{AreApart};
ghost use Rattle.run_smear.specs.Painted.{IsBetween};
ghost use Rattle.run_smear.specs.Columns.{AreWithin, Closes, IsInRuns, IsSwept};

use crate::fills::{Fill, add_fill};
use layout_limits::{MAX_SIDE, OutOfMemory};
use page_runs::{Run, RunPage};

/// How many columns of a run are looked at together: a run is black in the row above in most of its columns, but seldom in all.
const COLUMNS_AT_A_TIME: u16 = 32;

/// Ends the gap of a column at row y, which is black there, and fills it where it has at most so many rows.
fn close_column(
    behind: &mut [u16],
    fills: &mut Vec<Fill>,
    x: u16,
    y: u16,
    most: u16,
) -> Result<(), OutOfMemory>
    requires column { x < length behind.old }
    requires columns { x < MAX_SIDE }
    requires row { y < MAX_SIDE }
    ensures closes { OnOk result (Closes (λ k. k ≡ x) y most behind.old behind.new fills.old.items fills.new.items) }
    ensures slim { OnOk result ((width : ℕ) → x < width → AreWithin width fills.old.items → AreWithin width fills.new.items) }
{
    let top = behind[usize::from(x)];
    behind[usize::from(x)] = y + 1;
    if 0 < top && top < y && y - top <= most {
        add_fill(fills, x, top, y)?;
    }
    Ok(())
}

/// Whether all columns from one up to another, which is excluded, have this row behind their last black one.
fn are_behind(behind: &[u16], from: usize, to: usize, row: u16) -> bool
    requires { to ≤ length behind.now }
    ensures { IsTrue result → (k : ℕ) → IsBetween from to k → slice_index behind.now k ≡ row }
{
    // All are looked at, so that several can be at a time.
    let mut others = 0_usize;
    for x in from..to {
        if behind[x] != row {
            others += 1;
        }
    }
    others == 0
}

/// Gives all columns from one up to another, which is excluded, this row behind their last black one.
fn set_behind(behind: &mut [u16], from: usize, to: usize, row: u16)
    requires { to ≤ length behind.old }
    ensures len { length behind.new ≡ length behind.old }
    ensures set { (k : ℕ) → IsBetween from to k → slice_index behind.new k ≡ row }
    ensures same { (k : ℕ) → ¬ IsBetween from to k → slice_index behind.new k ≡ slice_index behind.old k }
{
    for x in from..to {
        behind[x] = row;
    }
}

/// Ends the gaps of the columns from one up to another, which is excluded, in row y. Where all are black in the row above it
/// too, there is none.
fn close_columns(
    behind: &mut [u16],
    fills: &mut Vec<Fill>,
    from: u16,
    to: u16,
    y: u16,
    most: u16,
) -> Result<(), OutOfMemory>
    requires columns { to ≤ length behind.old }
    requires small { to ≤ MAX_SIDE }
    requires row { y < MAX_SIDE }
    ensures closes { OnOk result (Closes (IsBetween from to) y most behind.old behind.new fills.old.items fills.new.items) }
    ensures slim { OnOk result ((width : ℕ) → to ≤ width → AreWithin width fills.old.items → AreWithin width fills.new.items) }
{
    if are_behind(behind, usize::from(from), usize::from(to), y) {
        set_behind(behind, usize::from(from), usize::from(to), y + 1);
        return Ok(());
    }
    for x in from..to {
        close_column(behind, fills, x, y, most)?;
    }
    Ok(())
}

/// Ends the gaps of the columns of a run in row y.
fn close_run(
    behind: &mut [u16],
    fills: &mut Vec<Fill>,
    run: Run,
    y: u16,
    most: u16,
) -> Result<(), OutOfMemory>
    requires columns { run.x1 ≤ length behind.old }
    requires small { run.x1 ≤ MAX_SIDE }
    requires row { y < MAX_SIDE }
    ensures closes { OnOk result (Closes (IsBetween run.x0 run.x1) y most behind.old behind.new fills.old.items fills.new.items) }
    ensures slim { OnOk result ((width : ℕ) → run.x1 ≤ width → AreWithin width fills.old.items → AreWithin width fills.new.items) }
{
    let mut from = run.x0;
    while from < run.x1 {
        let to = run.x1.min(from + COLUMNS_AT_A_TIME);
        close_columns(behind, fills, from, to, y, most)?;
        from = to;
    }
    Ok(())
}

/// Ends the gaps of the columns that are black in row y, which has these runs.
fn close_row(
    behind: &mut [u16],
    fills: &mut Vec<Fill>,
    runs: &[Run],
    y: u16,
    most: u16,
) -> Result<(), OutOfMemory>
    requires apart { AreApart (length behind.old) runs.now }
    requires small { length behind.old ≤ MAX_SIDE }
    requires row { y < MAX_SIDE }
    ensures closes { OnOk result (Closes (IsInRuns runs.now (length runs.now)) y most behind.old behind.new fills.old.items fills.new.items) }
    ensures slim { AreWithin (length behind.old) fills.old.items → OnOk result (AreWithin (length behind.old) fills.new.items) }
{
    for place in 0..runs.len() {
        close_run(behind, fills, runs[place], y, most)?;
    }
    Ok(())
}

/// Sweeps on over rows of a page, up to one that is excluded.
pub(crate) fn sweep_rows(
    page: &RunPage,
    behind: &mut [u16],
    fills: &mut Vec<Fill>,
    from: u16,
    to: u16,
    most: u16,
) -> Result<(), OutOfMemory>
    requires whole { IsWhole page.now }
    requires order { from ≤ to }
    requires rows { to ≤ (page_of page.now).height }
    requires columns { length behind.old ≡ (page_of page.now).width }
    ensures swept { (first low : ℕ) → first ≤ from → IsSwept (page_of page.now) most first low from behind.old fills.old.items
        → OnOk result (IsSwept (page_of page.now) most first low to behind.new fills.new.items) }
    ensures slim { AreWithin (length behind.old) fills.old.items → OnOk result (AreWithin (length behind.old) fills.new.items) }
{
    // A page's limits are known to the proof once its sizes were asked for.
    let _width = page.width();
    let _height = page.height();
    for y in from..to {
        close_row(behind, fills, page.row(y), y, most)?;
    }
    Ok(())
}
