//! A run of a page with its place.
ghost use Rattle.std.specs.Prelude.{◌≡◌, ◌<◌, ◌≤◌, length};
ghost use Rattle.page_runs.specs.Runs.{run_at};
ghost use Rattle.components.specs.Runs.{placed};

use layout_limits::MAX_SIDE;
use page_runs::Run;

/// Black pixels of one row, from `x0` up to but not including `x1`, as many as follow one another.
#[derive(Clone, Copy)]
pub struct PlacedRun {
    /// The row, from 0 at the top.
    pub row: u16,
    /// The first column.
    pub x0: u16,
    /// The column behind the last.
    pub x1: u16,
}

/// One of the runs of a row, with the row.
pub(crate) fn placed_run(runs: &[Run], row: u16, place: usize) -> PlacedRun
    requires { place < length runs.now }
    ensures { result ≡ placed row (run_at runs.now place) }
{
    let run = runs[place];
    PlacedRun {
        row,
        x0: run.x0,
        x1: run.x1,
    }
}
