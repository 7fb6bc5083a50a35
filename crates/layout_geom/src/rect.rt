//! A rectangle of pixels: its measures, its relations to others, its key, and its cut round a pivot.
ghost use Rattle.layout_geom.specs.Sides.{AreSides};

use layout_limits::{MAX_PIXELS, MAX_SIDE};

/// The greatest column of a pixel, and the greatest row.
const LAST: u16 = MAX_SIDE - 1;

/// A half-open rectangle of pixels, which has the pixels `(x, y)` with `x0 <= x < x1` and
/// `y0 <= y < y1`. It has at least one pixel and at most `layout_limits::MAX_PIXELS`, and ends
/// within `layout_limits::MAX_SIDE` columns and as many rows.
#[derive(Clone, Copy, Debug, PartialEq, Eq)]
pub struct Rect {
    /// The first column.
    pub x0: u16,
    /// The first row.
    pub y0: u16,
    /// The column behind the last.
    pub x1: u16,
    /// The row below the last.
    pub y1: u16,
    pub ghost sides: { AreSides x0 y0 x1 y1 },
}

impl Rect {
    ghost use Rattle.std.specs.Prelude.{◌≡◌, ◌≢◌, ℕ, ◌<◌, ◌≤◌, ◌^◌, Some, IfSome, IsSome, IfNone, IsTrue, ◌↔◌, Any};
    ghost use Rattle.layout_geom.specs.Sides.{AreSides};
    ghost use Rattle.layout_geom.specs.declared.rect.Rect.{Rect};
    ghost use Rattle.layout_geom.specs.Rectangles.{width_of, height_of, area_of, Overlaps, SharesPixel, Encloses, HasPixelsOf, HasSides};
    ghost use Rattle.layout_geom.specs.Rectangles.{hull_area, IsHull, IsPart, IsCut, HoldsIn};
    ghost use Rattle.layout_geom.specs.Keys.{rect_key, Outranks};

    /// The rectangle of these sides. It is `None` exactly where they are no sides of a rectangle:
    /// where one does not come before its opposite or ends behind `layout_limits::MAX_SIDE`, or where
    /// they enclose more than `layout_limits::MAX_PIXELS` pixels.
    pub fn new(x0: u16, y0: u16, x1: u16, y1: u16) -> Option<Rect>
        ensures some { IfSome result (λ r. HasSides r x0 y0 x1 y1) }
        ensures exactly { IsSome result ↔ AreSides x0 y0 x1 y1 }
    {
        if x0 < x1
            && y0 < y1
            && x1 <= MAX_SIDE
            && y1 <= MAX_SIDE
            && (x1 - x0) as u32 * (y1 - y0) as u32 <= MAX_PIXELS
        {
            Some(Rect { x0, y0, x1, y1 })
        } else {
            None
        }
    }

    /// The first column.
    pub fn x0(&self) -> u16
        ensures value { result ≡ self.now.x0 }
    {
        self.x0
    }

    /// The first row.
    pub fn y0(&self) -> u16
        ensures value { result ≡ self.now.y0 }
    {
        self.y0
    }

    /// The column behind the last.
    pub fn x1(&self) -> u16
        ensures value { result ≡ self.now.x1 }
    {
        self.x1
    }

    /// The row below the last.
    pub fn y1(&self) -> u16
        ensures value { result ≡ self.now.y1 }
    {
        self.y1
    }

    /// The number of columns.
    pub fn width(&self) -> u16
        ensures value { result ≡ width_of self.now }
    {
        self.x1 - self.x0
    }

    /// The number of rows.
    pub fn height(&self) -> u16
        ensures value { result ≡ height_of self.now }
    {
        self.y1 - self.y0
    }

    /// The number of pixels.
    pub fn area(&self) -> u32
        ensures value { result ≡ area_of self.now }
    {
        self.width() as u32 * self.height() as u32
    }

    /// Whether the two share a pixel.
    pub fn overlaps(&self, other: &Rect) -> bool
        ensures sides { IsTrue result ↔ Overlaps self.now other.now }
        ensures pixel { IsTrue result ↔ SharesPixel self.now other.now }
    {
        self.x0 < other.x1 && other.x0 < self.x1 && self.y0 < other.y1 && other.y0 < self.y1
    }

    /// Whether this rectangle has every pixel of the other.
    pub fn contains(&self, other: &Rect) -> bool
        ensures sides { IsTrue result ↔ Encloses self.now other.now }
        ensures pixels { IsTrue result ↔ HasPixelsOf self.now other.now }
    {
        self.x0 <= other.x0 && self.y0 <= other.y0 && other.x1 <= self.x1 && other.y1 <= self.y1
    }

    /// The least rectangle round both, which may have at most `layout_limits::MAX_PIXELS` pixels.
    pub fn hull(&self, other: &Rect) -> Rect
        requires { hull_area self.now other.now ≤ MAX_PIXELS }
        ensures sides { IsHull self.now other.now result }
        ensures first { Encloses result self.now }
        ensures second { Encloses result other.now }
        ensures least { (outer : Rect) → Encloses outer self.now → Encloses outer other.now → Encloses outer result }
    {
        Rect {
            x0: self.x0.min(other.x0),
            y0: self.y0.min(other.y0),
            x1: self.x1.max(other.x1),
            y1: self.y1.max(other.y1),
        }
    }

    /// A number that no other rectangle has, greater for the rectangle that a search for white
    /// space prefers: that of the greater area, then of the lesser `y0`, the lesser `x0` and the
    /// lesser width.
    pub fn key(&self) -> u64
        ensures value { result ≡ rect_key self.now }
        ensures positive { 1 ≤ result }
        ensures small { result < 2 ^ 64 }

        // No other rectangle has the key.
        ensures only { (other : Rect) → rect_key other ≡ result → other ≡ self.now }
        ensures ranked { (other : Rect) → Outranks self.now other → rect_key other < result }
        // So the key of a rectangle bounds the keys of all that it encloses.
        ensures inside { (inner : Rect) → Encloses self.now inner → inner ≢ self.now → rect_key inner < result }
    {
        (self.area() as u64 - 1) * (1 << 39)
            + (LAST - self.y0) as u64 * (1 << 26)
            + (LAST - self.x0) as u64 * (1 << 13)
            + (MAX_SIDE - self.width()) as u64
    }

    /// The rectangle that has the key. It is `None` exactly where no rectangle has it.
    pub fn of_key(key: u64) -> Option<Rect>
        ensures some { IfSome result (λ r. rect_key r ≡ key) }
        ensures none { IfNone result ((r : Rect) → rect_key r ≡ key → ⊥) }
        ensures back { (r : Rect) → rect_key r ≡ key → result ≡ Some r }
    {
        let width = MAX_SIDE - (key % (1 << 13)) as u16;
        let x0 = LAST - (key / (1 << 13) % (1 << 13)) as u16;
        let y0 = LAST - (key / (1 << 26) % (1 << 13)) as u16;
        let area = (key / (1 << 39)) as u32 + 1;
        if area % width as u32 != 0 {
            return None;
        }
        let y1 = y0 as u32 + area / width as u32;
        if y1 > MAX_SIDE as u32 {
            return None;
        }
        Rect::new(x0, y0, x0 + width, y1 as u16)
    }

    /// The part of this rectangle that has these sides, or `None` where it is empty.
    fn part(&self, x0: u16, y0: u16, x1: u16, y1: u16) -> Option<Rect>
        requires left { self.now.x0 ≤ x0 }
        requires top { self.now.y0 ≤ y0 }
        requires right { x1 ≤ self.now.x1 }
        requires bottom { y1 ≤ self.now.y1 }
        ensures { IsPart x0 y0 x1 y1 result }
    {
        Rect::new(x0, y0, x1, y1)
    }

    /// What is left of the pivot, right of it, above and below it, each as large as it can be:
    /// the step of Breuel's search for white space (2002), where the pivot is an obstacle. A part
    /// is `None` exactly where it is empty.
    pub fn cut4(&self, pivot: &Rect) -> [Option<Rect>; 4]
        requires { Overlaps self.now pivot.now }
        ensures cut { IsCut self.now pivot.now result }
        // What this rectangle encloses and the pivot does not overlap lies in a part.
        ensures covering { (inner : Rect) → Encloses self.now inner → (Overlaps inner pivot.now → ⊥) → Any (HoldsIn inner) result }
    {
        [
            self.part(self.x0, self.y0, pivot.x0, self.y1),
            self.part(pivot.x1, self.y0, self.x1, self.y1),
            self.part(self.x0, self.y0, self.x1, pivot.y0),
            self.part(self.x0, pivot.y1, self.x1, self.y1),
        ]
    }
}
