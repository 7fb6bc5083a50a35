//! The least cycle: from the least number on any cycle, a shortest one, and the first of these in a dictionary.
ghost use Rattle.std.specs.Prelude.{◌≡◌, ℕ, ◌<◌, ◌≤◌, ◌^◌, List, length, true, false, slice_index_or, IfOk, All};
ghost use Rattle.reading_order.specs.Tables.{Marks};
ghost use Rattle.reading_order.specs.Steps.{AreSteps, AreAtLeast, HasNext, IsLeastNext};
ghost use Rattle.reading_order.specs.Cycles.{IsCycle, IsLeastCycle, AreOnNone};
ghost use Rattle.reading_order.specs.Groups.{AreClosed, AreFlaggedOrOnRings};

use crate::groups::flag_groups;
use crate::steps::steps_to;
use crate::table::Table;
use layout_geom::Numbers;
use layout_limits::OutOfMemory;
use std::alloc::Global;

/// The least number of steps from what comes next, or the number of rows where none leads to the target.
fn least_steps(before: &Table, from: usize, steps: &[usize]) -> usize
    requires from { from < before.now.side }
    requires count { length steps.now ≡ before.now.side }
    ensures low { result ≤ before.now.side }
    ensures least { AreAtLeast (Marks before.now) before.now.side steps.now from result }
    ensures found { result < before.now.side → HasNext (Marks before.now) before.now.side steps.now from result }
{
    let mut least = before.side();
    for next in 0..before.side() {
        if steps[next] < least && before.get(from, next) {
            least = steps[next];
        }
    }
    least
}

/// The least number that comes next and is a number of steps away.
fn least_next(before: &Table, from: usize, steps: &[usize], away: usize) -> usize
    requires from { from < before.now.side }
    requires count { length steps.now ≡ before.now.side }
    requires next { HasNext (Marks before.now) before.now.side steps.now from away }
    ensures { IsLeastNext (Marks before.now) before.now.side steps.now from away result }
{
    for next in 0..before.side() {
        if steps[next] == away && before.get(from, next) {
            return next;
        }
    }
    unreachable!()
}

/// The first shortest cycle from a start.
fn cycle_through(
    alloc: Global,
    before: &Table,
    start: usize,
    steps: &[usize],
    whole: usize,
) -> Result<Numbers, OutOfMemory>
    requires small { before.now.side < 2 ^ 32 }
    requires start { start < before.now.side }
    requires steps { AreSteps (Marks before.now) before.now.side start steps.now }
    requires whole { whole < before.now.side }
    requires least { AreAtLeast (Marks before.now) before.now.side steps.now start whole }
    requires next { HasNext (Marks before.now) before.now.side steps.now start whole }
    requires first { (cycle : List ℕ) → IsCycle (Marks before.now) before.now.side cycle → All (λ x. start ≤ x) cycle }
    ensures { IfOk result (IsLeastCycle (Marks before.now) before.now.side) }
{
    let mut cycle = Numbers::new(alloc);
    cycle.push(start as u32)?;
    let mut last = start;
    for passed in 0..whole {
        last = least_next(before, last, steps, whole - passed);
        cycle.push(last as u32)?;
    }
    Ok(cycle)
}

/// The least number that is not flagged.
fn least_unflagged(flags: &[bool]) -> usize
    requires some { (x : ℕ) × (x < length flags.now) × (slice_index_or flags.now x false ≡ false) }
    ensures low { result < length flags.now }
    ensures off { slice_index_or flags.now result false ≡ false }
    ensures least { (x : ℕ) → x < result → slice_index_or flags.now x false ≡ true }
{
    for number in 0..flags.len() {
        if !flags[number] {
            return number;
        }
    }
    unreachable!()
}

/// The least cycle, where exactly the numbers on no cycle are flagged: it starts at the least number that is not.
fn cycle_among(alloc: Global, before: &Table, on_none: &[bool]) -> Result<Numbers, OutOfMemory>
    requires small { before.now.side < 2 ^ 32 }
    requires count { length on_none.now ≡ before.now.side }
    requires none { AreOnNone (Marks before.now) before.now.side on_none.now }
    requires rings { AreFlaggedOrOnRings before.now on_none.now }
    requires cycle { (cycle : List ℕ) × IsCycle (Marks before.now) before.now.side cycle }
    ensures { IfOk result (IsLeastCycle (Marks before.now) before.now.side) }
{
    let start = least_unflagged(on_none);
    let steps = steps_to(alloc, before, start)?;
    let whole = least_steps(before, start, &steps);
    cycle_through(alloc, before, start, &steps, whole)
}

/// The least cycle, where the numbers that were taken are on none.
pub(crate) fn least_cycle(
    alloc: Global,
    before: &Table,
    taken: Vec<bool>,
) -> Result<Numbers, OutOfMemory>
    requires small { before.now.side < 2 ^ 32 }
    requires count { length taken.items ≡ before.now.side }
    requires closed { AreClosed before.now taken.items }
    requires none { AreOnNone (Marks before.now) before.now.side taken.items }
    requires cycle { (cycle : List ℕ) × IsCycle (Marks before.now) before.now.side cycle }
    ensures { IfOk result (IsLeastCycle (Marks before.now) before.now.side) }
{
    let mut on_none = taken;
    flag_groups(alloc, before, &mut on_none)?;
    cycle_among(alloc, before, &on_none)
}
