//! The two rules of reading order, asked of two lines.
ghost use Rattle.std.specs.Prelude.{◌≡◌, IsTrue, ◌↔◌};
ghost use Rattle.layout_geom.specs.declared.rect.Rect.{Rect};
ghost use Rattle.reading_order.specs.Rules.{twice_middle_of, OverlapsInX};
ghost use Rattle.reading_order.specs.Sweeps.{PrecedesBy};

use layout_geom::Rect;

/// Twice the middle row of a line.
pub(crate) fn twice_middle(line: &Rect) -> u16
    ensures { result ≡ twice_middle_of line.now }
{
    line.y0() + line.y1()
}

/// Whether the x-ranges of two lines overlap.
pub(crate) fn overlap_in_x(first: &Rect, second: &Rect) -> bool
    ensures { IsTrue result ↔ OverlapsInX first.now second.now }
{
    first.x0() < second.x1() && second.x0() < first.x1()
}

/// Whether a line is read before another, where the lines that could part them reach this far to the left.
pub(crate) fn precedes_by(first: &Rect, second: &Rect, reach: u16) -> bool
    ensures { IsTrue result ↔ PrecedesBy first.now second.now reach }
{
    if overlap_in_x(first, second) && twice_middle(first) < twice_middle(second) {
        return true;
    }
    first.x1() <= second.x0()
        && (twice_middle(first) == twice_middle(second) || first.x1() <= reach)
}
