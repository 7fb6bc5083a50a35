//! The row smear of one row, painted from its runs.
ghost use Rattle.std.specs.Prelude.{◌≡◌, ◌<◌, ◌*◌, ℕ, length};
ghost use Rattle.packed_rows.specs.Page.{Page};
ghost use Rattle.page_runs.specs.Runs.{AreApart, AreRunsOf};
ghost use Rattle.run_smear.specs.Painted.{IsClosedEnd, IsPainted};
ghost use Rattle.run_smear.specs.Smear.{IsInRowSmear};

use crate::painting::blacken;
use packed_rows::whiten;
use page_runs::Run;

/// Where the run at this place ends: at the next one, if the gap between them has at most so many columns.
fn closed_end(runs: &[Run], place: usize, most: u16) -> u16
    requires { place < length runs.now }
    ensures { IsClosedEnd runs.now place most result }
{
    let end = runs[place].x1;
    if place + 1 < runs.len() {
        let next = runs[place + 1].x0;
        if next <= end.saturating_add(most) {
            return next;
        }
    }
    end
}

/// Paints the smear of a row, of which these are the runs: the gaps of at most so many columns between them are filled.
pub(crate) fn paint_row_smear(bits: &mut [u8], runs: &[Run], most: u16)
    requires { AreApart (length bits.old * 8) runs.now }
    ensures len { length bits.new ≡ length bits.old }
    ensures painted { (page : Page) (y : ℕ) → AreRunsOf page y runs.now → IsPainted (λ x. IsInRowSmear page most x y) bits.new }
{
    whiten(bits);
    for place in 0..runs.len() {
        blacken(bits, runs[place].x0, closed_end(runs, place, most));
    }
}
