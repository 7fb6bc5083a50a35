//! The boxes of the members of a line, from left to right.
ghost use Rattle.std.specs.Prelude.{◌<◌, length, All, IfOk};
ghost use Rattle.word_split.specs.Members.{AreMembers, IsLine};

use layout_geom::{Numbers, Rect, Rects};
use layout_limits::OutOfMemory;
use std::alloc::Global;

/// The boxes of the members, in the order of these.
fn members_of(alloc: Global, boxes: &Rects, members: &Numbers) -> Result<Vec<Rect>, OutOfMemory>
    requires { All (λ position. position < length boxes.now) members.now }
    ensures { IfOk result (λ given. AreMembers boxes.now members.now given.items) }
{
    let mut given = Vec::new(alloc);
    for position in members.as_slice() {
        given.push(*boxes.get(*position as usize))?;
    }
    Ok(given)
}

/// The boxes of the members by `x0`, then `y0`, `x1` and `y1`.
pub(crate) fn line_of(
    alloc: Global,
    boxes: &Rects,
    members: &Numbers,
) -> Result<Vec<Rect>, OutOfMemory>
    requires { All (λ position. position < length boxes.now) members.now }
    ensures { IfOk result (λ line. IsLine boxes.now members.now line.items) }
{
    let mut line = members_of(alloc, boxes, members)?;
    line.sort_unstable_by_key(|rect| (rect.x0(), rect.y0(), rect.x1(), rect.y1()));
    Ok(line)
}
