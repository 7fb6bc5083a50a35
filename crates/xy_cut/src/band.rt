//! White bands between boxes.
ghost use Rattle.std.specs.Prelude.{◌≡◌, ◌-◌, ◌+◌, ◌≤◌, IsTrue, ◌↔◌};
ghost use Rattle.xy_cut.specs.Bands.{width_of, is_on};
ghost use Rattle.xy_cut.specs.Widest.{IsWider};

use crate::axis::Axis;
use crate::cell::Side;
use layout_geom::Rect;

/// A band between boxes, from `low` to `high` along an axis, in columns or rows.
#[derive(Clone, Copy, Debug, PartialEq, Eq)]
pub(crate) struct Band {
    pub(crate) axis: Axis,
    /// The first column or row.
    pub(crate) low: u16,
    /// The one behind the last.
    pub(crate) high: u16,
}

impl Band {
    /// The number of columns or rows, 0 where it ends before it begins.
    pub(crate) fn width(&self) -> u16
        ensures value { result ≡ width_of self.now }
    {
        self.high.saturating_sub(self.low)
    }

    /// Whether a box lies on a side of the band.
    pub(crate) fn has_on(&self, side: Side, rect: &Rect) -> bool
        ensures value { result ≡ is_on self.now side rect.now }
    {
        let end = self.axis.end(rect);
        match side {
            Side::Before => end <= self.low,
            Side::After => self.low < end,
        }
    }
}

/// Of the widest band so far and one more, the wider one, and the former of two as wide.
pub(crate) fn wider(widest: Option<Band>, band: Band) -> Band
    ensures { IsWider widest band result }
{
    match widest {
        Some(widest) if band.width() <= widest.width() => widest,
        _ => band,
    }
}
