//! The plain program: it lists every rectangle of a page of at most 8 by 8. And boxes by chance.
ghost use Rattle.std.specs.Prelude.{◌<◌, ◌≤◌};

/// The sides `x0`, `y0`, `x1`, `y1` of a rectangle.
pub(crate) type Sides = (u16, u16, u16, u16);

/// The area of a rectangle, and its `y0`, `x0` and width with the sign turned: the greater is preferred.
fn rank_of(sides: Sides) -> (i64, i64, i64, i64) {
    let (x0, y0, x1, y1) = sides;
    let (width, height) = (x1 as i64 - x0 as i64, y1 as i64 - y0 as i64);
    (width * height, -(y0 as i64), -(x0 as i64), -width)
}

/// Whether a rectangle lies in the page, shares no pixel with an obstacle, and has the least size.
fn is_white(sides: Sides, page: Sides, obstacles: &[Sides], least: u16) -> bool {
    let (x0, y0, x1, y1) = sides;
    for y in y0..y1 {
        for x in x0..x1 {
            let covers = |s: &Sides| s.0 <= x && x < s.2 && s.1 <= y && y < s.3;
            if !covers(&page) || obstacles.iter().any(covers) {
                return false;
            }
        }
    }
    least <= x1.saturating_sub(x0) && least <= y1.saturating_sub(y0)
}

/// The preferred one of all white rectangles.
pub(crate) fn best_of_all(page: Sides, obstacles: &[Sides], least: u16) -> Option<Sides> {
    let mut best: Option<Sides> = None;
    for y0 in 0..8 {
        for x0 in 0..8 {
            for y1 in y0 + 1..9 {
                for x1 in x0 + 1..9 {
                    let sides = (x0, y0, x1, y1);
                    if is_white(sides, page, obstacles, least)
                        && best.is_none_or(|other| rank_of(other) < rank_of(sides))
                    {
                        best = Some(sides);
                    }
                }
            }
        }
    }
    best
}

/// A box by chance that begins before `page` and has at most `most` columns and rows.
pub(crate) fn chance_box(number: u64, page: u64, most: u64) -> Sides
    requires page { 0 < page }
    requires most { 0 < most }
    requires most_page { page ≤ 1000 }
    requires small { most ≤ 1000 }
{
    let (x0, y0) = ((number >> 50) % page, (number >> 40) % page);
    let (x1, y1) = (
        x0 + (number >> 30) % most + 1,
        y0 + (number >> 20) % most + 1,
    );
    (x0 as u16, y0 as u16, x1 as u16, y1 as u16)
}
