//! How far to the left the lines between one line and the others reach, found in one pass in the order of their levels.
ghost use Rattle.std.specs.Prelude.{◌≡◌, ℕ, ◌<◌, ◌≤◌, length, slice_index, if◌then◌else◌, nat_lt, min};
ghost use Rattle.layout_geom.specs.declared.rect.Rect.{Rect};
ghost use Rattle.reading_order.specs.Reach.{AreInOrder, AreReaches};

use layout_geom::Rect;
use layout_limits::MAX_SIDE;

/// What was met on the way from one line to the others, in the order of their levels.
#[derive(Drop)]
struct Walk {
    /// The level of the last line that was met.
    level: u16,
    /// The least left side of those met at lesser levels.
    before: u16,
    /// The least left side of all that were met.
    within: u16,
}

impl Walk {
    /// Meets a line, and says how far to the left those at lesser levels reach.
    ///
    /// A line that ends at the edge or left of it counts for nothing.
    fn meet(&mut self, level: u16, line: &Rect, edge: u16) -> u16
        ensures reach { result ≡ (if nat_lt self.old.level level then self.old.within else self.old.before) }
        ensures level { self.new.level ≡ level }
        ensures before { self.new.before ≡ result }
        ensures within { self.new.within ≡ (if nat_lt edge line.now.x1 then min self.old.within line.now.x0 else self.old.within) }
    {
        if self.level < level {
            self.before = self.within;
        }
        self.level = level;
        if edge < line.x1() {
            self.within = self.within.min(line.x0());
        }
        self.before
    }
}

/// Notes for each line above a level how far to the left the lines between reach that end right of an edge.
pub(crate) fn fill_reaches(
    lines: &[Rect],
    levels: &[u16],
    order: &[usize],
    from: u16,
    edge: u16,
    reaches: &mut [u16],
)
    requires levels { length levels.now ≡ length lines.now }
    requires order { AreInOrder (length lines.now) levels.now order.now }
    requires count { length reaches.old ≡ length lines.now }
    ensures { AreReaches lines.now levels.now from edge reaches.old reaches.new }
{
    let mut walk = Walk {
        level: from,
        before: MAX_SIDE,
        within: MAX_SIDE,
    };
    for number in order {
        let level = levels[*number];
        if from < level {
            reaches[*number] = walk.meet(level, &lines[*number], edge);
        }
    }
}
