//! The search for the first run of a row that reaches a column.
ghost use Rattle.std.specs.Prelude.{◌<◌, ◌≤◌, ℕ, length};
ghost use Rattle.components.specs.Reaching.{IsFirstReaching};

use page_runs::Run;

/// The first of the runs from `from` on that ends at this column or right of it, or their number where none does.
pub(crate) fn first_reaching(runs: &[Run], from: usize, x: u16) -> usize
    requires { from ≤ length runs.now }
    ensures { IsFirstReaching runs.now from x result }
{
    for place in from..runs.len() {
        if x <= runs[place].x1 {
            return place;
        }
    }
    runs.len()
}
