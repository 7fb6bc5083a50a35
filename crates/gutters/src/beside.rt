//! Which boxes of characters stand beside a rectangle of white space.
ghost use Rattle.std.specs.Prelude.{◌≡◌, ◌*◌, ◌≤◌, IsTrue, ◌↔◌};
ghost use Rattle.gutters.specs.Beside.{EndsNear, SharesRow, StandsLeft, StandsRight};
ghost use Rattle.gutters.specs.Beside.{stands_left as left_test, stands_right as right_test, stands_beside as beside_test};

use components::is_char_sized;
use layout_geom::Rect;

/// The greatest distance between a gutter and a box beside it, as so many median heights.
pub const MAX_GAP_IN_MEDIANS: u32 = 2;

/// Whether some row of pixels goes through both.
fn shares_row(first: &Rect, second: &Rect) -> bool
    ensures { IsTrue result ↔ SharesRow first.now second.now }
{
    first.y0() < second.y1() && second.y0() < first.y1()
}

/// Whether a distance in pixels is at most `MAX_GAP_IN_MEDIANS` times the median height.
fn is_near(distance: u16, median: u16) -> bool
    ensures { IsTrue result ↔ (distance ≤ MAX_GAP_IN_MEDIANS * median) }
{
    u32::from(distance) <= MAX_GAP_IN_MEDIANS * u32::from(median)
}

/// Whether the first rectangle ends at most `MAX_GAP_IN_MEDIANS` times the median height, in pixels, left of the second,
/// and some row of pixels goes through both.
fn ends_near(left: &Rect, right: &Rect, median: u16) -> bool
    ensures { IsTrue result ↔ EndsNear left.now right.now median }
{
    left.x1() <= right.x0() && is_near(right.x0() - left.x1(), median) && shares_row(left, right)
}

/// Whether the box has about the size of a character and stands on the left of the rectangle: it
/// ends at most `MAX_GAP_IN_MEDIANS` times the median height, in pixels, left of it, and some row of
/// pixels goes through both.
pub fn stands_left(rect: &Rect, median: u16, char_box: &Rect) -> bool
    ensures facts { IsTrue result ↔ StandsLeft rect.now median char_box.now }
    ensures test { result ≡ left_test rect.now median char_box.now }
{
    ends_near(char_box, rect, median) && is_char_sized(char_box, median)
}

/// Whether the box has about the size of a character and stands on the right of the rectangle: it
/// begins at most `MAX_GAP_IN_MEDIANS` times the median height, in pixels, right of it, and some row of
/// pixels goes through both.
pub fn stands_right(rect: &Rect, median: u16, char_box: &Rect) -> bool
    ensures facts { IsTrue result ↔ StandsRight rect.now median char_box.now }
    ensures test { result ≡ right_test rect.now median char_box.now }
{
    ends_near(rect, char_box, median) && is_char_sized(char_box, median)
}

/// A side of a rectangle.
#[derive(Clone, Copy)]
pub(crate) enum Side {
    /// Before its first column.
    Left,
    /// Behind its last.
    Right,
}

/// Whether the box has about the size of a character and stands on this side of the rectangle, as `stands_left` and
/// `stands_right` say.
pub(crate) fn stands_beside(side: Side, rect: &Rect, median: u16, char_box: &Rect) -> bool
    ensures { result ≡ beside_test side rect.now median char_box.now }
{
    match side {
        Side::Left => stands_left(rect, median, char_box),
        Side::Right => stands_right(rect, median, char_box),
    }
}
