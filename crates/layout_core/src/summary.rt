//! The summary of the page that is made from a seed.
ghost use Rattle.std.specs.Prelude.{◌≡◌, ◌≤◌, false, IfOk, IfErr};
ghost use Rattle.made_page.specs.Made.{made_page};
ghost use Rattle.layout_core.specs.Layouts.{IsLayout};
ghost use Rattle.layout_core.specs.Run.{IsSummaryOf};
ghost use Rattle.layout_core.specs.declared.refusal.Refusal.{Refusal};

use crate::job::Ways;
use crate::page_layout::{CoreFault, layout_of};
use crate::refusal::Refusal;
use crate::tasks::PageTasks;
use box_search::Searcher;
use command_words::Plan;
use hocr_writer::{Layout, summary_text};
use layout_limits::OutOfMemory;
use line_search::Grid;
use made_page::{made_page_has_few_components, make_page};
use std::alloc::Global;
use whitespace_cover::White;

/// The layout, by the plan, of the page of a seed, with any ways. The one refusal is want of memory: the page has
/// far less than 60,000 components, whatever the seed is.
fn made_layout<F: Searcher<White>, G: Searcher<Grid>, T: PageTasks>(
    alloc: Global,
    plan: &Plan,
    seed: u64,
    ways: &mut Ways<F, G, T>,
) -> Result<Layout, OutOfMemory>
    requires ready { F.ready ways.old.whites × G.ready ways.old.lines × T.ready ways.old.tasks }
    requires some { 1 ≤ plan.now.rects }
    requires few { plan.now.rects ≤ 256 }
    requires no_blocks { plan.now.blocks ≡ false }
    ensures { IfOk result (IsLayout plan.now (made_page seed)) }
{
    made_page_has_few_components();
    let page = make_page(alloc, seed)?;
    match layout_of(alloc, &page, plan, ways) {
        Ok(layout) => Ok(layout),
        Err(fault) => match fault {
            CoreFault::TooMany { .. } => unreachable!(),
            CoreFault::Memory => Err(OutOfMemory),
        },
    }
}

/// Makes the page of a seed, and answers the summary of its layout by the plan. The one refusal is want of memory.
pub(crate) fn make_summary<F: Searcher<White>, G: Searcher<Grid>, T: PageTasks>(
    alloc: Global,
    plan: &Plan,
    seed: u64,
    ways: &mut Ways<F, G, T>,
) -> Result<Vec<u8>, Refusal>
    requires ready { F.ready ways.old.whites × G.ready ways.old.lines × T.ready ways.old.tasks }
    requires some { 1 ≤ plan.now.rects }
    requires few { plan.now.rects ≤ 256 }
    requires no_blocks { plan.now.blocks ≡ false }
    ensures summary { IfOk result (λ text. IsSummaryOf plan.now seed text.items) }
    ensures refused { IfErr result (λ refusal. refusal ≡ Refusal.Memory) }
{
    let layout = made_layout(alloc, plan, seed, ways)?;
    Ok(summary_text(alloc, &layout)?)
}
