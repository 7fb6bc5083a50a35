//! Takes numbers one by one, each the least one that is behind none that is left: a topological order, as far as it goes.
ghost use Rattle.std.specs.Prelude.{◌≡◌, ℕ, ◌<◌, ◌≤◌, ◌^◌, List, length, Bool, true, false, IfOk, MatchOption, IfSome, IfNone, MatchBool};
ghost use Rattle.reading_order.specs.Tables.{Marks};
ghost use Rattle.reading_order.specs.Fronts.{IsFront, IsTakenOrBlocked, IsGreedy};
ghost use Rattle.reading_order.specs.Looking.{AreLooked, AreFlags, IsClearUpTo, IsHeld, IsNotFree, IsLeastFreeNumber};

use crate::table::Table;
use layout_geom::Numbers;
use layout_limits::OutOfMemory;
use std::alloc::Global;

/// Numbers that were taken.
#[derive(Drop)]
pub(crate) struct Front {
    /// In the order in which they were taken.
    pub(crate) order: Numbers,
    /// For each number, whether it was taken.
    pub(crate) taken: Vec<bool>,
}

/// Whether all that are before a number are taken, where those below `looked` are known to be.
fn is_free(before: &Table, taken: &[bool], number: usize, looked: &mut usize) -> bool
    requires number { number < before.now.side }
    requires flags { length taken.now ≡ before.now.side }
    requires low { looked.old ≤ before.now.side }
    requires clear { IsClearUpTo before.now taken.now number looked.old }
    ensures low { looked.new ≤ before.now.side }
    ensures clear { IsClearUpTo before.now taken.now number looked.new }
    ensures free { MatchBool result (looked.new ≡ before.now.side) (IsHeld before.now taken.now number) }
{
    for earlier in *looked..before.side() {
        if !taken[earlier] && before.get(earlier, number) {
            *looked = earlier;
            return false;
        }
    }
    *looked = before.side();
    true
}

/// The least number that is free to be taken.
fn least_free_number(before: &Table, taken: &[bool], looked: &mut [usize]) -> Option<usize>
    requires flags { length taken.now ≡ before.now.side }
    requires looked { AreLooked before.now taken.now looked.old }
    ensures looked { AreLooked before.now taken.now looked.new }
    ensures least { IfSome result (IsLeastFreeNumber before.now taken.now) }
    ensures none { IfNone result ((x : ℕ) → x < before.now.side → IsNotFree before.now taken.now x) }
{
    for number in 0..before.side() {
        if !taken[number] {
            let place = &mut looked[number];
            if is_free(before, taken, number, place) {
                return Some(number);
            }
        }
    }
    None
}

/// Takes the least free number again and again, until none is free.
///
/// `looked` says of each number below which one all that are before it are known to be taken. It only rises, so that
/// looking costs n*n steps in all for n numbers.
pub(crate) fn take_free(alloc: Global, before: &Table) -> Result<Front, OutOfMemory>
    requires { before.now.side < 2 ^ 32 }
    ensures greedy { IfOk result (λ front. IsGreedy (Marks before.now) before.now.side front.order) }
    ensures flags { IfOk result (λ front. AreFlags before.now.side front.taken.items front.order) }
    ensures count { IfOk result (λ front. length front.taken.items ≡ before.now.side) }
{
    let side = before.side();
    let mut taken = vec![in alloc; false; side]?;
    let mut looked = vec![in alloc; 0usize; side]?;
    let mut order = Numbers::new(alloc);
    for count in 0..side {
        let Some(number) = least_free_number(before, &taken, &mut looked) else {
            return Ok(Front { order, taken });
        };
        taken[number] = true;
        order.push(number as u32)?;
    }
    Ok(Front { order, taken })
}
