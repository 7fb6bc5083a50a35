//! The table of all lines, row by row: the row of a line says which lines are read before it.
ghost use Rattle.std.specs.Prelude.{◌≡◌, ℕ, ◌<◌, ◌≤◌, ◌^◌, length, Bool, false, IfOk, List, ◌↔◌, IsTrue};
ghost use Rattle.layout_geom.specs.declared.rect.Rect.{Rect};
ghost use Rattle.reading_order.specs.Rules.{twice_middle_of, IsBefore};
ghost use Rattle.reading_order.specs.Tables.{is_marked, Marks};
ghost use Rattle.reading_order.specs.Shown.{IsRowShown, IsShown};
ghost use Rattle.reading_order.specs.Sweeps.{level_from_below, IsSweep, AreRowReaches};

use crate::reach::fill_reaches;
use crate::rules::precedes_by;
use crate::sweep::{Sweep, sweep_down, sweep_up};
use crate::table::Table;
use layout_geom::Rect;
use layout_limits::OutOfMemory;
use std::alloc::Global;

/// Finds how far to the left the lines between one line and each other reach.
fn find_reaches(lines: &[Rect], down: &Sweep, up: &Sweep, later: usize, reaches: &mut [u16])
    requires down { IsSweep twice_middle_of lines.now down.now }
    requires up { IsSweep level_from_below lines.now up.now }
    requires later { later < length lines.now }
    requires count { length reaches.old ≡ length lines.now }
    ensures count { length reaches.new ≡ length lines.now }
    ensures reaches { AreRowReaches lines.now later reaches.new }
{
    let edge = lines[later].x0();
    fill_reaches(
        lines,
        &down.levels,
        &down.order,
        down.levels[later],
        edge,
        reaches,
    );
    fill_reaches(
        lines,
        &up.levels,
        &up.order,
        up.levels[later],
        edge,
        reaches,
    );
}

/// Whether a line is read before another.
fn is_before(lines: &[Rect], reaches: &[u16], earlier: usize, later: usize) -> bool
    requires earlier { earlier < length lines.now }
    requires later { later < length lines.now }
    requires count { length reaches.now ≡ length lines.now }
    requires reaches { AreRowReaches lines.now later reaches.now }
    ensures { IsTrue result ↔ IsBefore lines.now earlier later }
{
    precedes_by(&lines[earlier], &lines[later], reaches[earlier])
}

/// Marks the lines that are read before one line.
fn mark_row(table: &mut Table, lines: &[Rect], reaches: &[u16], later: usize)
    requires side { table.old.side ≡ length lines.now }
    requires later { later < length lines.now }
    requires count { length reaches.now ≡ length lines.now }
    requires reaches { AreRowReaches lines.now later reaches.now }
    requires blank { (a : ℕ) → a < length lines.now → is_marked table.old a later ≡ false }
    ensures { IsRowShown lines.now table.old table.new later (length lines.now) }
{
    for earlier in 0..lines.len() {
        if is_before(lines, reaches, earlier, later) {
            table.mark(earlier, later);
        }
    }
}

/// Which lines are read before which, in n*n steps for n lines.
pub(crate) fn table_of(alloc: Global, lines: &[Rect]) -> Result<Table, OutOfMemory>
    requires { length lines.now < 2 ^ 32 }
    ensures side { IfOk result (λ table. table.side ≡ length lines.now) }
    ensures shown { IfOk result (λ table. IsShown lines.now table (length lines.now)) }
{
    let down = sweep_down(alloc, lines)?;
    let up = sweep_up(alloc, lines)?;
    let mut reaches = vec![in alloc; 0u16; lines.len()]?;
    let mut table = Table::new(alloc, lines.len())?;
    for later in 0..lines.len() {
        find_reaches(lines, &down, &up, later, &mut reaches);
        mark_row(&mut table, lines, &reaches, later);
    }
    Ok(table)
}
