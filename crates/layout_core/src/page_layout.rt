//! The layout of a page.
ghost use Rattle.std.specs.Prelude.{◌≡◌, ◌≤◌, IfOk, IfErr};
ghost use Rattle.page_runs.specs.Page.{Page};
ghost use Rattle.page_runs.specs.Packed.{Holds, IsWhole, page_of};
ghost use Rattle.layout_geom.specs.Rectangles.{HasSides};
ghost use Rattle.layout_core.specs.Layouts.{IsLayout, IsLayoutAs, IsCoreFault};

use crate::blocks::shown_blocks;
use crate::cells::shown_cells;
use crate::job::Ways;
use crate::numbering::{areas_in, boxes_of, marks_of, number_lines};
use crate::tasks::PageTasks;
use crate::words::shown_words;
use box_search::Searcher;
use command_words::Plan;
use components::{CompFault, components};
use gutters::gutters;
use hocr_writer::Layout;
use layout_geom::{Name, Rect};
use layout_limits::OutOfMemory;
use line_search::{Grid, lines};
use page_runs::RunPage;
use reading_order::order_of;
use std::alloc::Global;
use whitespace_cover::{White, cover};

/// The least width and height of a white rectangle in pixels, where the median height is less.
pub const LEAST_SIZE: u16 = 8;

/// Why a page has no layout.
#[derive(Debug, Clone, Copy, PartialEq, Eq, Drop)]
pub enum CoreFault {
    /// More than 60,000 components are kept, or there are more than 60,000 blocks, and so many.
    TooMany { count: u32 },
    /// Memory was refused.
    Memory,
}

impl From<CompFault> for CoreFault {
    ghost use Rattle.std.specs.Prelude.{◌≡◌};
    ghost use Rattle.layout_core.specs.Found.{core_fault_of};

    ghost from_gives = { λ fault core. core ≡ core_fault_of fault };

    fn from(fault: CompFault) -> CoreFault {
        match fault {
            CompFault::TooMany { count } => CoreFault::TooMany { count },
            CompFault::Memory => CoreFault::Memory,
        }
    }
}

impl From<OutOfMemory> for CoreFault {
    ghost use Rattle.std.specs.Prelude.{◌≡◌};
    ghost use Rattle.layout_core.specs.declared.page_layout.CoreFault.TheVariants.{Memory};

    ghost from_gives = { λ _ core. core ≡ Memory };

    fn from(_: OutOfMemory) -> CoreFault {
        CoreFault::Memory
    }
}

/// The rectangle of a whole page.
fn page_rect(page: &RunPage) -> Rect
    requires { IsWhole page.now }
    ensures { HasSides result 0 0 (page_of page.now).width (page_of page.now).height }
{
    Rect::new(0, 0, page.width(), page.height()).unwrap()
}

/// The name of an image, in a list of its own.
fn copy_of(alloc: Global, name: &Name) -> Result<Name, OutOfMemory>
    ensures { IfOk result (λ copy. copy ≡ name.now) }
{
    // `len` tells that it has fewer than 2^32 bytes, so that a list can hold the copy.
    let _count = name.len();
    let copy = name.as_slice().to_vec(alloc)?;
    Ok(Name::from_vec(copy))
}

/// The layout of a page by a plan, by any ways to find its parts: its black pixels, its kept components
/// and their median height, the greedy cover of its white space (Breuel 2002) by at most as many rectangles as planned, each at
/// least as wide and as high as the median height and as 8 pixels, the gutters among them, the greedy lines of its text, the order
/// in which they are read (Breuel 2003), the areas that they form, and, where the plan shows them, the words of each line,
/// the cells of the components (Nagy and Seth 1984) and the blocks of the page (Wong, Casey and Wahl 1982).
///
/// It refuses a page of which more than 60,000 components are kept, one with more than 60,000 blocks, where the plan shows them,
/// and for want of memory.
pub fn layout_of<F: Searcher<White>, G: Searcher<Grid>, T: PageTasks>(
    alloc: Global,
    page: &RunPage,
    plan: &Plan,
    ways: &mut Ways<F, G, T>,
) -> Result<Layout, CoreFault>
    requires ready { F.ready ways.old.whites × G.ready ways.old.lines × T.ready ways.old.tasks }
    requires whole { IsWhole page.now }
    requires some { 1 ≤ plan.now.rects }
    requires few { plan.now.rects ≤ 256 }
    ensures ready { F.ready ways.new.whites × G.ready ways.new.lines × T.ready ways.new.tasks }
    // The page is each one whose pixels these are.
    ensures layout { (held : Page) → Holds page.now held → IfOk result (IsLayout plan.now held) }
    ensures fault { (held : Page) → Holds page.now held → IfErr result (IsCoreFault plan.now held) }
{
    let kept = components(alloc, page)?;
    let least = kept.median.max(LEAST_SIZE);
    let whole = page_rect(page);
    let whites = cover(
        alloc,
        whole,
        &kept.boxes,
        least,
        plan.rects as u32,
        &mut ways.whites,
    )?;
    let gutters = gutters(alloc, &whites, &kept)?;
    let found = lines(alloc, &kept, &gutters, page.height(), &mut ways.lines)?;
    let numbered = number_lines(found)?;
    let lines = marks_of(alloc, &numbered)?;
    let words = shown_words(alloc, plan.words, &kept, &numbered)?;
    let cells = shown_cells(alloc, plan.xy, &kept, &ways.tasks)?;
    let blocks = shown_blocks(alloc, plan.blocks, page, kept.median, &ways.tasks)?;
    let boxes = boxes_of(alloc, &lines)?;
    let order = order_of(alloc, &boxes)?;
    let areas = areas_in(alloc, &boxes, &order, kept.median)?;
    let image = copy_of(alloc, &plan.image)?;
    Ok(Layout {
        page: 0,
        width: page.width(),
        height: page.height(),
        black: page.black(),
        kept: kept.boxes.len() as u32,
        median: kept.median,
        image,
        whites,
        gutters,
        blocks,
        lines,
        order,
        areas,
        with_words: plan.words,
        words,
        cells,
    })
}

/// The layout of a page by a plan, as `layout_of` has it, with the number that the page has in its input.
pub(crate) fn numbered_layout<F: Searcher<White>, G: Searcher<Grid>, T: PageTasks>(
    alloc: Global,
    page: &RunPage,
    number: u32,
    plan: &Plan,
    ways: &mut Ways<F, G, T>,
) -> Result<Layout, CoreFault>
    requires ready { F.ready ways.old.whites × G.ready ways.old.lines × T.ready ways.old.tasks }
    requires whole { IsWhole page.now }
    requires some { 1 ≤ plan.now.rects }
    requires few { plan.now.rects ≤ 256 }
    ensures ready { F.ready ways.new.whites × G.ready ways.new.lines × T.ready ways.new.tasks }
    ensures layout { (held : Page) → Holds page.now held → IfOk result (IsLayoutAs number plan.now held) }
    ensures fault { (held : Page) → Holds page.now held → IfErr result (IsCoreFault plan.now held) }
{
    let mut layout = layout_of(alloc, page, plan, ways)?;
    layout.page = number;
    Ok(layout)
}
