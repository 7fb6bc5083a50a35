//! The least number of steps from each number to one of them: a breadth-first search back from that number.
ghost use Rattle.std.specs.Prelude.{◌≡◌, ℕ, ◌<◌, ◌≤◌, length, IfOk, OnOk, All};
ghost use Rattle.reading_order.specs.Tables.{Marks};
ghost use Rattle.reading_order.specs.Steps.{AreSteps};
ghost use Rattle.reading_order.specs.Waves.{IsWave, ExtendsWave};

use crate::table::Table;
use layout_limits::OutOfMemory;
use std::alloc::Global;

/// Gives the step to the numbers before one that have none yet, and adds them to the next wave.
fn step_back(
    before: &Table,
    later: usize,
    step: usize,
    steps: &mut [usize],
    next: &mut Vec<usize>,
) -> Result<(), OutOfMemory>
    requires later { later < before.now.side }
    requires count { length steps.old ≡ before.now.side }
    requires step { step < before.now.side }
    ensures { OnOk result (ExtendsWave before.now later step steps.old steps.new next.old.items next.new.items before.now.side) }
{
    for number in 0..before.side() {
        if steps[number] == before.side() && before.get(number, later) {
            steps[number] = step;
            next.push(number)?;
        }
    }
    Ok(())
}

/// Gives the step to the numbers that have none yet and are before one of the wave. They are the next wave.
fn next_wave(
    alloc: Global,
    before: &Table,
    wave: &[usize],
    step: usize,
    steps: &mut [usize],
) -> Result<Vec<usize>, OutOfMemory>
    requires wave { All (λ y. y < before.now.side) wave.now }
    requires count { length steps.old ≡ before.now.side }
    requires step { step < before.now.side }
    ensures { IfOk result (λ next. IsWave before.now wave.now step steps.old steps.new next.items before.now.side) }
{
    let mut next = Vec::new(alloc);
    for later in wave {
        step_back(before, *later, step, steps, &mut next)?;
    }
    Ok(next)
}

/// The least number of steps from each number to the target, and the number of rows where none lead there.
pub(crate) fn steps_to(
    alloc: Global,
    before: &Table,
    target: usize,
) -> Result<Vec<usize>, OutOfMemory>
    requires { target < before.now.side }
    ensures { IfOk result (λ steps. AreSteps (Marks before.now) before.now.side target steps.items) }
{
    let side = before.side();
    let mut steps = vec![in alloc; side; side]?;
    steps[target] = 0;
    let mut wave = Vec::new(alloc);
    wave.push(target)?;
    for step in 1..side {
        if wave.is_empty() {
            return Ok(steps);
        }
        wave = next_wave(alloc, before, &wave, step, &mut steps)?;
    }
    Ok(steps)
}
