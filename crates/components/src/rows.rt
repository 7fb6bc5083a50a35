//! The runs of a page put into groups, row by row.
ghost use Rattle.std.specs.Prelude.{◌≡◌, ◌<◌, ◌≤◌, ◌+◌, ◌*◌, ◌^◌, ℕ, List, [], ◌∷◌, ◌++◌, OnOk, IfOk, length, slice_index};
ghost use Rattle.page_runs.specs.Page.{Page};
ghost use Rattle.page_runs.specs.Packed.{IsWhole, page_of};
ghost use Rattle.page_runs.specs.Runs.{AreApart, AreRunsOf, run_at};
ghost use Rattle.components.specs.Around.{IsSmallRun};
ghost use Rattle.components.specs.Groups.{DoPointBack, Member, ArePartition, CanPut, CanJoin, AreAllJoined, IsDoneAbove, IsDone};

use crate::groups::{Group, add, begin, join, root_of};
use crate::placed_run::{PlacedRun, placed_run};
use crate::reaching::first_reaching;
use layout_limits::{MAX_SIDE, OutOfMemory};
use page_runs::{Run, RunPage};
use std::alloc::Global;

/// Makes one group of this one, which has the run, and those of the runs of the row above that touch it, from `from` on.
fn join_touching(
    groups: &mut Vec<Group>,
    above: &[u32],
    up: &[Run],
    from: usize,
    run: PlacedRun,
    group: u32,
)
    requires group { group < length groups.old.items }
    requires len { length above.now ≡ length up.now }
    requires above { (i : ℕ) → i < length above.now → slice_index above.now i < length groups.old.items }
    requires back { DoPointBack groups.old.items }
    ensures back { DoPointBack groups.new.items }
    ensures len { length groups.new.items ≡ length groups.old.items }
    ensures joined { (page : Page) (members : List Member) (root : ℕ → ℕ)
        → CanJoin page members up.now above.now from run group groups.old.items root
        → AreAllJoined page members up.now above.now from (length up.now) run group root groups.new.items }
{
    for i in from..up.len() {
        if run.x1 < up[i].x0 {
            return;
        }
        join(groups, group, above[i]);
    }
}

/// Puts a run into the group of the runs of the row above that touch it, or into a new one where none does. `near` is
/// the first of that row that ends at the run's first column or right of it.
fn put_run(
    groups: &mut Vec<Group>,
    above: &[u32],
    up: &[Run],
    near: usize,
    run: PlacedRun,
) -> Result<u32, OutOfMemory>
    requires small { IsSmallRun run }
    requires few { length groups.old.items + 1 < 2 ^ 32 }
    requires near { near ≤ length up.now }
    requires len { length above.now ≡ length up.now }
    requires above { (i : ℕ) → i < length above.now → slice_index above.now i < length groups.old.items }
    requires back { DoPointBack groups.old.items }
    ensures back { OnOk result (DoPointBack groups.new.items) }
    ensures more { OnOk result (length groups.old.items ≤ length groups.new.items) }
    ensures few { OnOk result (length groups.new.items ≤ length groups.old.items + 1) }
    ensures group { IfOk result (λ group. group < length groups.new.items) }
    ensures put { (page : Page) (members : List Member) → CanPut page members up.now above.now near run groups.old.items
        → IfOk result (λ group. ArePartition page (members ++ (record { run = run; group = group }) ∷ []) groups.new.items) }
{
    if near == up.len() || run.x1 < up[near].x0 {
        return begin(groups, run);
    }
    let group = root_of(groups, above[near]);
    add(groups, group, run);
    join_touching(groups, above, up, near + 1, run, group);
    Ok(group)
}

/// Puts the runs of a row into groups, and answers the group of each. The runs of the row above have these groups.
fn put_row(
    alloc: Global,
    groups: &mut Vec<Group>,
    above: &[u32],
    up: &[Run],
    row: &[Run],
    y: u16,
) -> Result<Vec<u32>, OutOfMemory>
    requires row { y < MAX_SIDE }
    requires apart { AreApart MAX_SIDE row.now }
    requires few { length groups.old.items + length row.now < 2 ^ 32 }
    requires len { length above.now ≡ length up.now }
    requires above { (i : ℕ) → i < length above.now → slice_index above.now i < length groups.old.items }
    requires back { DoPointBack groups.old.items }
    ensures back { OnOk result (DoPointBack groups.new.items) }
    ensures few { OnOk result (length groups.new.items ≤ length groups.old.items + length row.now) }
    ensures len { IfOk result (λ here. length here.items ≡ length row.now) }
    ensures here { IfOk result (λ here. (i : ℕ) → i < length here.items → slice_index here.items i < length groups.new.items) }
    ensures put { (page : Page) → AreRunsOf page y row.now → y < page.height → IsDoneAbove page y up.now above.now groups.old.items
        → IfOk result (λ here. IsDoneAbove page (y + 1) row.now here.items groups.new.items) }
{
    let mut here = Vec::with_capacity(alloc, row.len())?;
    let mut near = 0;
    for place in 0..row.len() {
        let run = placed_run(row, y, place);
        near = first_reaching(up, near, run.x0);
        let group = put_run(groups, above, up, near, run)?;
        here.push(group)?;
    }
    Ok(here)
}

/// The groups of all runs of a page. Runs that are connected have one root.
pub(crate) fn group_runs(alloc: Global, page: &RunPage) -> Result<Vec<Group>, OutOfMemory>
    requires { IsWhole page.now }
    ensures done { IfOk result (λ groups. IsDone (page_of page.now) groups.items) }
    ensures few { IfOk result (λ groups. length groups.items ≤ MAX_SIDE * MAX_SIDE) }
{
    // A page's limits are known to the proof once its height was asked for.
    let _size = page.height();
    let mut groups = Vec::new(alloc);
    let mut above = Vec::new(alloc);
    let mut up: &[Run] = &[];
    for y in 0..page.height() {
        let row = page.row(y);
        above = put_row(alloc, &mut groups, &above, up, row, y)?;
        up = row;
    }
    Ok(groups)
}
