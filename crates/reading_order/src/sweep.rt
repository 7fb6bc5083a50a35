//! The levels of lines from one end of the page to the other, and the lines in the order of their levels.
ghost use Rattle.std.specs.Prelude.{◌≡◌, ℕ, ◌-◌, ◌<◌, ◌≤◌, length, IfOk, map};
ghost use Rattle.layout_geom.specs.declared.rect.Rect.{Rect};
ghost use Rattle.reading_order.specs.Rules.{twice_middle_of};
ghost use Rattle.reading_order.specs.Reach.{AreInOrder};
ghost use Rattle.reading_order.specs.Sweeps.{level_from_below, IsSweep};

use crate::rules::twice_middle;
use layout_geom::Rect;
use layout_limits::{MAX_SIDE, OutOfMemory};
use std::alloc::Global;

/// The number of a line and its level.
#[derive(Clone, Copy)]
struct Place {
    level: u16,
    number: usize,
}

/// The numbers of the levels, in the order in which they rise.
fn numbers_by(alloc: Global, levels: &[u16]) -> Result<Vec<usize>, OutOfMemory>
    ensures { IfOk result (λ order. AreInOrder (length levels.now) levels.now order.items) }
{
    let mut places = Vec::new(alloc);
    for (number, level) in levels.iter().enumerate() {
        places.push(Place {
            level: *level,
            number,
        })?;
    }
    places.sort_by_key(|place| place.level)?;
    let mut order = Vec::new(alloc);
    for place in &places {
        order.push(place.number)?;
    }
    Ok(order)
}

/// The levels of lines in one direction, and the numbers of the lines in the order of their levels.
#[derive(Drop)]
pub(crate) struct Sweep {
    pub(crate) levels: Vec<u16>,
    pub(crate) order: Vec<usize>,
}

/// From the top of the page to its bottom.
pub(crate) fn sweep_down(alloc: Global, lines: &[Rect]) -> Result<Sweep, OutOfMemory>
    ensures { IfOk result (IsSweep twice_middle_of lines.now) }
{
    let mut levels = Vec::new(alloc);
    for line in lines {
        levels.push(twice_middle(line))?;
    }
    let order = numbers_by(alloc, &levels)?;
    Ok(Sweep { levels, order })
}

/// From the bottom of the page to its top.
pub(crate) fn sweep_up(alloc: Global, lines: &[Rect]) -> Result<Sweep, OutOfMemory>
    ensures { IfOk result (IsSweep level_from_below lines.now) }
{
    let mut levels = Vec::new(alloc);
    for line in lines {
        levels.push(2 * MAX_SIDE - twice_middle(line))?;
    }
    let order = numbers_by(alloc, &levels)?;
    Ok(Sweep { levels, order })
}
