//! The kept components of a page, and the size of a character.
ghost use Rattle.std.specs.Prelude.{◌≡◌, ◌<◌, ◌≤◌, OnOk, IfOk, IfErr, IsTrue, ◌↔◌, map};
ghost use Rattle.page_runs.specs.Page.{Page};
ghost use Rattle.page_runs.specs.Packed.{Holds, IsWhole};
ghost use Rattle.layout_geom.specs.Rectangles.{height_of};
ghost use Rattle.components.specs.Kept.{IsKeptOf, IsFaultOf, IsLowerMedian, IsCharSized, is_char_sized as char_test, KeptIsUnique};

use crate::scan::kept_boxes;
use layout_geom::{Rect, Rects};
use layout_limits::OutOfMemory;
use page_runs::RunPage;
use std::alloc::Global;

/// The most components that may be kept of a page.
pub const MAX_KEPT: usize = 60_000;

/// The median height is at most this many times the height of a character.
pub const MAX_MEDIAN_IN_HEIGHTS: u32 = 2;

/// A character is at most this many median heights high.
pub const MAX_HEIGHT_IN_MEDIANS: u32 = 3;

/// A character is at most this many median heights wide.
pub const MAX_WIDTH_IN_MEDIANS: u32 = 6;

/// The components of a page that are kept: those that are more than `MAX_NOISE` pixels wide or more
/// than `MAX_NOISE` pixels high.
#[derive(Drop)]
pub struct Kept {
    /// The least rectangle round each in pixels of the page, by `y0`, then `x0`, `y1` and `x1`; equal
    /// ones are repeated.
    pub boxes: Rects,
    /// The lower median of their heights in pixels, or 0 where there is none.
    pub median: u16,
}

/// Why a page has no list of kept components.
#[derive(Debug, Drop)]
pub enum CompFault {
    /// More than `MAX_KEPT` components are kept, and so many.
    TooMany { count: u32 },
    /// There is no memory.
    Memory,
}

impl From<OutOfMemory> for CompFault {
    ghost use Rattle.std.specs.Prelude.{◌≡◌};
    ghost use Rattle.components.specs.declared.kept.CompFault.TheVariants as faults;

    ghost from_gives = { λ _ fault. fault ≡ faults.Memory };

    fn from(_: OutOfMemory) -> CompFault {
        CompFault::Memory
    }
}

/// The heights of the boxes in pixels, in their order.
fn heights_of(alloc: Global, boxes: &[Rect]) -> Result<Vec<u16>, OutOfMemory>
    ensures { IfOk result (λ heights. heights.items ≡ map height_of boxes.now) }
{
    boxes.iter().map(|rect| rect.height()).collect(alloc)
}

/// The lower median of the heights in pixels, or 0 where there is no box.
fn median_height(alloc: Global, boxes: &[Rect]) -> Result<u16, OutOfMemory>
    ensures { IfOk result (IsLowerMedian (map height_of boxes.now)) }
{
    let mut heights = heights_of(alloc, boxes)?;
    heights.sort()?;
    if heights.is_empty() {
        return Ok(0);
    }
    Ok(heights[(heights.len() - 1) / 2])
}

/// The kept components of a whole page. Two black pixels are connected where a path of black
/// pixels leads from one to the other, each an 8-neighbour of the one before; a component is a class
/// of connected pixels, and its box the least rectangle round it. A component whose box is at most
/// `MAX_NOISE` pixels wide and high is noise, and not kept.
///
/// # Errors
///
/// More than `MAX_KEPT` components are kept, or there is no memory.
///
/// Time grows with the rows of the page and with its runs of black pixels. Memory is taken for a group for each run that
/// touches none of the row above, for a number for each run of two rows, and for sorting.
pub fn components(alloc: Global, page: &RunPage) -> Result<Kept, CompFault>
    requires { IsWhole page.now }
    // The page is each one whose pixels these are.
    ensures kept { (held : Page) → Holds page.now held → IfOk result (IsKeptOf held) }
    ensures fault { (held : Page) → Holds page.now held → IfErr result (IsFaultOf held) }
{
    let mut boxes = kept_boxes(alloc, page)?;
    if boxes.len() > MAX_KEPT {
        return Err(CompFault::TooMany {
            count: boxes.len() as u32,
        });
    }
    boxes.sort_by_key(|rect| (rect.y0(), rect.x0(), rect.y1(), rect.x1()))?;
    let median = median_height(alloc, &boxes)?;
    Ok(Kept {
        boxes: Rects::from_vec(boxes),
        median,
    })
}

/// Whether a box has about the size of a character, by the median height in pixels: that is at most
/// `MAX_MEDIAN_IN_HEIGHTS` times the box's height, the box is at most `MAX_HEIGHT_IN_MEDIANS` times as
/// high as the median, and at most `MAX_WIDTH_IN_MEDIANS` times as wide.
pub fn is_char_sized(rect: &Rect, median: u16) -> bool
    ensures facts { IsTrue result ↔ IsCharSized rect.now median }
    ensures test { result ≡ char_test rect.now median }
{
    let height = u32::from(rect.height());
    let width = u32::from(rect.width());
    let median = u32::from(median);
    median <= MAX_MEDIAN_IN_HEIGHTS * height
        && height <= MAX_HEIGHT_IN_MEDIANS * median
        && width <= MAX_WIDTH_IN_MEDIANS * median
}

/// States a law, and does nothing: a page has one list of kept boxes and one number of kept
/// components, so that `components` has one answer.
pub fn kept_is_unique()
    ensures { KeptIsUnique }
{}
