//! The node of a rectangle, and its cut round a pivot.
ghost use Rattle.std.specs.Prelude.{◌≡◌, ◌≤◌, List, Option, map, IsTrue, ◌↔◌, All, Any, IfOk, nat_le, ◌&&◌};
ghost use Rattle.layout_geom.specs.declared.rect.Rect.{Rect};
ghost use Rattle.layout_geom.specs.Rectangles.{width_of, height_of, Overlaps, Encloses, IsCut};
ghost use Rattle.box_search.specs.declared.space.Node.{Node};
ghost use Rattle.whitespace_cover.specs.Admissible.{IsRoomy};
ghost use Rattle.whitespace_cover.specs.declared.region.Region.{Region};
ghost use Rattle.whitespace_cover.specs.Regions.{IsRectNode, roomy_parts};

use box_search::{Node, Shape};
use layout_geom::Rect;
use layout_limits::OutOfMemory;
use std::alloc::Global;

/// What a node of the white space carries: the rectangle that is searched, and which obstacles a step need not look at.
#[derive(Clone, Copy, Debug)]
pub struct Region {
    /// The rectangle that is searched.
    pub rect: Rect,
    /// In a node that fits: where bit k is clear, the k-th obstacle from the end, counted from 0, does not overlap it.
    pub mask: u64,
}

/// Whether a rectangle is at least as wide and as high as the least size.
pub(crate) fn is_roomy(least: u16, rect: &Rect) -> bool
    ensures value { result ≡ (nat_le least (width_of rect.now) && nat_le least (height_of rect.now)) }
    ensures roomy { IsTrue result ↔ IsRoomy least rect.now }
{
    least <= rect.width() && least <= rect.height()
}

/// The node of a rectangle.
pub(crate) fn node_of(rect: Rect, mask: u64) -> Node<Region>
    ensures outline { IsRectNode result }
    ensures rect { result.work.rect ≡ rect }
    ensures mask { result.work.mask ≡ mask }
{
    Node {
        shape: Shape {
            a0: rect.x0() as i32,
            a1: rect.x1() as i32,
            b0: rect.y0() as i32,
            b1: rect.y1() as i32,
            c0: 0,
            c1: 1,
        },
        bound: rect.key(),
        work: Region { rect, mask },
    }
}

/// The nodes of the parts of a rectangle round a pivot that have the least size. What does not overlap the rectangle
/// overlaps none of its parts, so these have its mask.
pub(crate) fn parts(
    alloc: Global,
    least: u16,
    rect: &Rect,
    pivot: &Rect,
    mask: u64,
) -> Result<Vec<Node<Region>>, OutOfMemory>
    requires { Overlaps rect.now pivot.now }
    ensures rects { IfOk result (λ nodes. (parts : List (Option Rect)) × IsCut rect.now pivot.now parts
        × (map (λ (node : Node Region). node.work.rect) nodes.items ≡ roomy_parts least parts)) }
    ensures nodes { IfOk result (λ nodes. All IsRectNode nodes.items) }
    ensures masks { IfOk result (λ nodes. All (λ (node : Node Region). node.work.mask ≡ mask) nodes.items) }
    ensures covering { IfOk result (λ nodes. (inner : Rect) → Encloses rect.now inner → (Overlaps inner pivot.now → ⊥)
        → IsRoomy least inner → Any (λ (node : Node Region). Encloses node.work.rect inner) nodes.items) }
{
    let mut nodes = Vec::with_capacity(alloc, 4)?;
    for part in &rect.cut4(pivot) {
        if let Some(inner) = part {
            if is_roomy(least, inner) {
                nodes.push(node_of(*inner, mask))?;
            }
        }
    }
    Ok(nodes)
}
