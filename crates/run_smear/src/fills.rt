//! The stretches of columns that are filled.
ghost use Rattle.std.specs.Prelude.{◌≡◌, ◌<◌, ◌≤◌, ◌*◌, ℕ, length, OnOk};
ghost use Rattle.run_smear.specs.Painted.{GotBlack};
ghost use Rattle.run_smear.specs.Columns.{AddsFill, AreNear, AreWithin, HasFill, IsFilledAt};

use crate::painting::blacken;
use layout_limits::OutOfMemory;

/// White rows between black ones that are filled, in neighbouring columns.
#[derive(Clone, Copy)]
pub(crate) struct Fill {
    /// The first column.
    pub(crate) x0: u16,
    /// The column behind the last.
    pub(crate) x1: u16,
    /// The first row.
    pub(crate) top: u16,
    /// The row under the last.
    pub(crate) foot: u16,
}

/// Adds rows of a column, to the last fill where that has the same rows of the column before.
pub(crate) fn add_fill(
    fills: &mut Vec<Fill>,
    x: u16,
    top: u16,
    foot: u16,
) -> Result<(), OutOfMemory>
    requires { x < 65535 }
    ensures adds { OnOk result (AddsFill x top foot fills.old.items fills.new.items) }
    ensures slim { OnOk result ((width : ℕ) → x < width → AreWithin width fills.old.items → AreWithin width fills.new.items) }
{
    let len = fills.len();
    if len > 0 {
        let last = fills[len - 1];
        if last.x1 == x && last.top == top && last.foot == foot {
            fills[len - 1] = Fill {
                x0: last.x0.min(x),
                x1: x + 1,
                top,
                foot,
            };
            return Ok(());
        }
    }
    fills.push(Fill {
        x0: x,
        x1: x + 1,
        top,
        foot,
    })?;
    Ok(())
}

/// Forgets the fills that have no row below this one.
pub(crate) fn forget_done(fills: &mut Vec<Fill>, y: u16)
    ensures kept { (k top foot : ℕ) → HasFill fills.old.items k top foot → y < foot → HasFill fills.new.items k top foot }
    ensures only { (k top foot : ℕ) → HasFill fills.new.items k top foot → HasFill fills.old.items k top foot }
    ensures slim { (width : ℕ) → AreWithin width fills.old.items → AreWithin width fills.new.items }
{
    fills.retain(|fill| y < fill.foot);
}

/// Lists the fills that begin above a row.
pub(crate) fn list_near(near: &mut Vec<Fill>, fills: &[Fill], until: u16) -> Result<(), OutOfMemory>
    ensures { OnOk result (AreNear fills.now (length fills.now) until near.new.items) }
{
    near.clear();
    for fill in fills {
        if fill.top < until {
            near.push(*fill)?;
        }
    }
    Ok(())
}

/// Makes the pixels of a packed row black that fills have in it.
pub(crate) fn paint_fills(bits: &mut [u8], fills: &[Fill], y: u16)
    requires { AreWithin (length bits.old * 8) fills.now }
    ensures { GotBlack (λ k. IsFilledAt fills.now (length fills.now) k y) bits.old bits.new }
{
    for fill in fills {
        if fill.top <= y && y < fill.foot {
            blacken(bits, fill.x0, fill.x1);
        }
    }
}
