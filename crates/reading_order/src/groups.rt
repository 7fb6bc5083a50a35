//! Finds numbers that are on no cycle: a search back, depth first, that gathers numbers which are on one cycle into groups.
ghost use Rattle.std.specs.Prelude.{◌≡◌, ℕ, ◌+◌, ◌*◌, ◌<◌, ◌≤◌, ◌^◌, length, Bool, true, false, slice_index, slice_index_or, IfOk, OnOk, IfSome, IfNone};
ghost use Rattle.reading_order.specs.Tables.{Marks};
ghost use Rattle.reading_order.specs.Cycles.{AreOnNone};
ghost use Rattle.reading_order.specs.Groups.{AreLevels, IsNoneLower, IsLookedWhole, IsBeforeGroup, IsMetNext, IsFirstAt, IsNoneAt, IsLoneAt, AreSeveralAt, AreMoved};
ghost use Rattle.reading_order.specs.Groups.{AreSettled, IsChained, AreGathered, IsFlaggedOrOnRing, AreFlaggedOrOnRings, AreClosed, IsValueOf, count_unmet};

use crate::table::Table;
use layout_limits::OutOfMemory;
use std::alloc::Global;

/// The level of the numbers whose group is closed: all that is before them is closed too.
const CLOSED: usize = usize::MAX;

/// The next number that is before another and stands lower, where those below `looked` are known not to.
fn next_lower(before: &Table, levels: &[usize], number: usize, looked: &mut usize) -> Option<usize>
    requires number { number < before.now.side }
    requires count { length levels.now ≡ before.now.side }
    requires low { looked.old ≤ before.now.side }
    requires none { IsNoneLower before.now levels.now number looked.old }
    ensures low { looked.new ≤ before.now.side }
    ensures none { IsNoneLower before.now levels.now number looked.new }
    ensures found { IfSome result (λ earlier. earlier < before.now.side) }
    ensures lower { IfSome result (λ earlier. slice_index levels.now earlier < slice_index levels.now number) }
    ensures marks { IfSome result (λ earlier. Marks before.now earlier number) }
    ensures whole { IfNone result (looked.new ≡ before.now.side) }
{
    for earlier in *looked..before.side() {
        if levels[earlier] < levels[number] && before.get(earlier, number) {
            *looked = earlier;
            return Some(earlier);
        }
    }
    *looked = before.side();
    None
}

/// A number that is before one of the last group and stands lower.
fn lower_than_group(
    before: &Table,
    levels: &[usize],
    looked: &mut [usize],
    depth: usize,
) -> Option<usize>
    requires some { 0 < depth }
    requires deep { depth < 2 ^ 40 }
    requires levels { AreLevels before.now levels.now looked.old depth }
    ensures levels { AreLevels before.now levels.now looked.new depth }
    ensures found { IfSome result (λ earlier. earlier < before.now.side) }
    ensures lower { IfSome result (λ earlier. slice_index levels.now earlier < depth) }
    ensures group { IfSome result (IsBeforeGroup before.now levels.now depth) }
    ensures whole { IfNone result (IsLookedWhole before.now levels.now looked.new depth) }
{
    for number in 0..before.side() {
        if levels[number] == depth {
            let place = &mut looked[number];
            if let Some(earlier) = next_lower(before, levels, number, place) {
                return Some(earlier);
            }
        }
    }
    None
}

/// The first number at a level, from a place on.
fn first_at(levels: &[usize], level: usize, from: usize) -> Option<usize>
    ensures found { IfSome result (IsFirstAt levels.now level from) }
    ensures none { IfNone result (IsNoneAt levels.now level from) }
{
    for number in from..levels.len() {
        if levels[number] == level {
            return Some(number);
        }
    }
    None
}

/// The number at a level, where it is the only one there.
fn only_at(levels: &[usize], level: usize) -> Option<usize>
    ensures lone { IfSome result (IsLoneAt levels.now level) }
    ensures several { IfNone result (AreSeveralAt levels.now level) }
{
    let number = first_at(levels, level, 0)?;
    match first_at(levels, level, number + 1) {
        Some(other) => None,
        None => Some(number),
    }
}

/// Moves all numbers from one level to another one to a level.
fn move_levels(levels: &mut [usize], least: usize, most: usize, level: usize)
    ensures { AreMoved levels.old levels.new least most level (length levels.old) }
{
    for number in 0..levels.len() {
        if least <= levels[number] && levels[number] <= most {
            levels[number] = level;
        }
    }
}

/// Flags the last group where it is one number that is not before itself.
fn flag_lone(before: &Table, levels: &[usize], depth: usize, flags: &mut [bool])
    requires levels { length levels.now ≡ before.now.side }
    requires count { length flags.old ≡ before.now.side }
    requires settled { AreSettled before.now levels.now depth }
    requires some { 0 < depth }
    requires chained { IsChained before.now levels.now depth }
    requires none { AreOnNone (Marks before.now) before.now.side flags.old }
    ensures count { length flags.new ≡ before.now.side }
    ensures none { AreOnNone (Marks before.now) before.now.side flags.new }
    ensures grows { (x : ℕ) → x < before.now.side → slice_index_or flags.old x false ≡ true
        → slice_index_or flags.new x false ≡ true }
    ensures rings { (x : ℕ) → x < before.now.side → slice_index levels.now x ≡ depth → IsFlaggedOrOnRing before.now flags.new x }
{
    if let Some(number) = only_at(levels, depth) {
        if !before.get(number, number) {
            flags[number] = true;
        }
    }
}

/// A value for each number that is flagged, and 0 for the others.
fn values_of(alloc: Global, flags: &[bool], value: usize) -> Result<Vec<usize>, OutOfMemory>
    ensures { IfOk result (λ values. IsValueOf flags.now value values.items (length flags.now)) }
{
    let mut values = vec![in alloc; 0usize; flags.len()]?;
    for number in 0..flags.len() {
        if flags[number] {
            values[number] = value;
        }
    }
    Ok(values)
}

/// The number that the search meets next: one that is before the last group and stands lower, or the first that was not
/// met where the path is empty.
fn next_met(before: &Table, levels: &[usize], looked: &mut [usize], depth: usize) -> Option<usize>
    requires deep { depth < 2 ^ 40 }
    requires levels { AreLevels before.now levels.now looked.old depth }
    ensures levels { AreLevels before.now levels.now looked.new depth }
    ensures found { IfSome result (λ number. number < before.now.side) }
    ensures next { IfSome result (IsMetNext before.now levels.now depth) }
    ensures end { IfNone result (depth ≡ 0 → IsNoneAt levels.now 0 0) }
    ensures whole { IfNone result (0 < depth → IsLookedWhole before.now levels.now looked.new depth) }
{
    if depth == 0 {
        first_at(levels, 0, 0)
    } else {
        lower_than_group(before, levels, looked, depth)
    }
}

/// Goes one number on, and answers the depth then. None where the path is empty and all numbers were met.
fn turn(
    before: &Table,
    levels: &mut [usize],
    looked: &mut [usize],
    depth: usize,
    flags: &mut [bool],
) -> Option<usize>
    requires deep { depth < 2 ^ 40 }
    requires count { length flags.old ≡ before.now.side }
    requires levels { AreLevels before.now levels.old looked.old depth }
    requires none { AreOnNone (Marks before.now) before.now.side flags.old }
    requires gathered { AreGathered before.now levels.old flags.old depth }
    ensures count { length flags.new ≡ before.now.side }
    ensures none { AreOnNone (Marks before.now) before.now.side flags.new }
    ensures gathered { IfSome result (AreGathered before.now levels.new flags.new) }
    ensures less { IfSome result (λ next. 2 * count_unmet levels.new + next < 2 * count_unmet levels.old + depth) }
    ensures rings { IfNone result (AreFlaggedOrOnRings before.now flags.new) }
    ensures deep { IfSome result (λ next. next ≤ depth + 1) }
    ensures levels { IfSome result (λ next. AreLevels before.now levels.new looked.new next) }
{
    if let Some(number) = next_met(before, levels, looked, depth) {
        let level = levels[number];
        if level == 0 {
            levels[number] = depth + 1;
            return Some(depth + 1);
        }
        move_levels(levels, level, depth, level);
        return Some(level);
    }
    if depth == 0 {
        return None;
    }
    flag_lone(before, levels, depth, flags);
    move_levels(levels, depth, depth, CLOSED);
    Some(depth - 1)
}

/// Flags further numbers that are on no cycle: all of them.
///
/// The groups stand on a path, one at each level from 1 to the depth, and each is behind the one that follows it. A
/// number that is before one of the last group comes next: it is a group of its own where it was not met yet, and joins
/// all groups from its own to the last one where it is on the path. Where there is no such number, the last group has
/// all numbers that are on cycles with its own, and is closed. Each number is met once, and its group is joined to a lower
/// one or closed once, so that 2*n turns are enough for n numbers; each takes some n steps, and all of them look at an
/// entry of the table once.
pub(crate) fn flag_groups(
    alloc: Global,
    before: &Table,
    flags: &mut [bool],
) -> Result<(), OutOfMemory>
    requires small { before.now.side < 2 ^ 32 }
    requires count { length flags.old ≡ before.now.side }
    requires closed { AreClosed before.now flags.old }
    requires none { AreOnNone (Marks before.now) before.now.side flags.old }
    ensures count { OnOk result (length flags.new ≡ before.now.side) }
    ensures none { OnOk result (AreOnNone (Marks before.now) before.now.side flags.new) }
    ensures rings { OnOk result (AreFlaggedOrOnRings before.now flags.new) }
{
    let side = before.side();
    let mut levels = values_of(alloc, flags, CLOSED)?;
    let mut looked = values_of(alloc, flags, side)?;
    let mut depth = 0;
    for passed in 0..2 * side {
        let Some(next) = turn(before, &mut levels, &mut looked, depth, flags) else {
            return Ok(());
        };
        depth = next;
    }
    Ok(())
}
