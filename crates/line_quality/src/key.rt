//! The order of the lines of the grid, as a number.
ghost use Rattle.std.specs.Prelude.{◌≡◌, ◌<◌, ◌≤◌, ℕ, ℤ};
ghost use Rattle.line_quality.specs.Points.{IsSlope, IsOffset, IsDepth};
ghost use Rattle.line_quality.specs.Keys;
ghost use Rattle.line_quality.specs.Keys.{Scored, scored, IsOfGrid, IsLineKey, IsBeaten, key_of};

use crate::limits::{MAX_DEPTH, MAX_RANK, MAX_SCORE, OFFSET_MARGIN};

/// The place of a slope in the order that lines of equal score go by: 0, 1, -1, 2, -2 and so on.
fn rank(slope: i8) -> u32
    requires { IsSlope slope }
    ensures value { result ≡ Keys.rank slope }
    ensures small { result ≤ MAX_RANK }
{
    let steps = slope.unsigned_abs() as u32;
    if slope > 0 { 2 * steps - 1 } else { 2 * steps }
}

/// The key of a line, which no other line of the grid has: the greater score wins, then the lesser depth, then the
/// slope nearer to 0, then the positive slope, then the lesser offset.
pub fn line_key(score: u32, slope: i8, offset: i16, depth: u8) -> u64
    requires score { score ≤ MAX_SCORE }
    requires slope { IsSlope slope }
    requires offset { IsOffset offset }
    requires depth { IsDepth depth }
    ensures value { result ≡ Keys.line_key score slope offset depth }
    ensures key { IsLineKey result }
    ensures positive { 1 ≤ result }

    // Each line with less to say for it has a lesser key, and no other line has this one.
    ensures ranked { (other : Scored) → IsOfGrid other → IsBeaten other (scored score slope offset depth) → key_of other < result }
    ensures only { (other : Scored) → IsOfGrid other → key_of other ≡ result → other ≡ scored score slope offset depth }
{
    score as u64 * (1 << 29)
        + (MAX_DEPTH - depth) as u64 * (1 << 23)
        + (MAX_RANK - rank(slope)) as u64 * (1 << 16)
        + (65_535 - (offset as i32 + OFFSET_MARGIN as i32) as u64)
}

/// The slope, the offset and the depth of the line that has the key.
pub fn point_of(key: u64) -> (i8, i16, u8)
    requires { IsLineKey key }
    ensures { (line : Scored) → IsOfGrid line → key_of line ≡ key
        → (line.slope ≡ result.0) × (line.offset ≡ result.1) × (line.depth ≡ result.2) }
{
    let place = 65_535 - key % (1 << 16);
    let rank = MAX_RANK as u64 - key / (1 << 16) % (1 << 7);
    let depth = MAX_DEPTH as u64 - key / (1 << 23) % (1 << 6);
    let steps = ((rank + 1) / 2) as i8;
    let slope = if rank % 2 == 1 { steps } else { -steps };
    (slope, place as i16 - OFFSET_MARGIN as i16, depth as u8)
}
