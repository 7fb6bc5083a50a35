//! The two ways across a page, and where a box begins and ends along each.
ghost use Rattle.std.specs.Prelude.{◌≡◌};
ghost use Rattle.xy_cut.specs.Bands.{start_of, end_of};

use layout_geom::Rect;

/// A way across a page.
#[derive(Clone, Copy, Debug, PartialEq, Eq)]
pub(crate) enum Axis {
    /// From left to right, in columns.
    Across,
    /// From the top down, in rows.
    Down,
}

impl Axis {
    /// The first column or row of a box.
    pub(crate) fn start(&self, rect: &Rect) -> u16
        ensures value { result ≡ start_of self.now rect.now }
    {
        match self {
            Axis::Across => rect.x0(),
            Axis::Down => rect.y0(),
        }
    }

    /// The column or row behind its last.
    pub(crate) fn end(&self, rect: &Rect) -> u16
        ensures value { result ≡ end_of self.now rect.now }
    {
        match self {
            Axis::Across => rect.x1(),
            Axis::Down => rect.y1(),
        }
    }
}
