//! The document of the pages that a source spells.
ghost use Rattle.std.specs.Prelude.{◌≡◌, ◌≤◌, true, false, IfOk, IfErr};
ghost use Rattle.std.specs.Io.KnownBytes.{IsAtEnd};
ghost use Rattle.layout_core.specs.Reading.{AnswersNext, GoesOn};
ghost use Rattle.layout_core.specs.Run.{ReadsDocument, ReadsLayouts};
ghost use Rattle.layout_core.specs.Status.{AnswersPages};

use crate::job::Ways;
use crate::page_layout::numbered_layout;
use crate::refusal::Refusal;
use crate::tasks::PageTasks;
use box_search::Searcher;
use command_words::Plan;
use components::kept_is_unique;
use hocr_writer::{Layouts, pages_text};
use layout_outside::Source;
use line_search::Grid;
use page_runs::{RunPage, given_page_is_held};
use pbm_reader::{Images, each_input_is_judged};
use run_smear::smear_is_unique;
use std::alloc::Global;
use whitespace_cover::White;

/// Reads the next page, or answers `None` where the input ends behind a page.
fn next_page<S: Source>(
    alloc: Global,
    images: &mut Images,
    src: &mut S,
) -> Result<Option<RunPage>, Refusal>
    requires { GoesOn images.old (S.view src.old) }
    ensures { AnswersNext images.old images.new (S.view src.old) (S.view src.new) result }
{
    // The laws of the format, of a page that was read, and of a page's components and smear.
    each_input_is_judged();
    given_page_is_held();
    kept_is_unique();
    smear_is_unique();
    let mut page = RunPage::empty(alloc);
    match images.next(alloc, src, &mut page)? {
        Some(_) => Ok(Some(page)),
        None => Ok(None),
    }
}

/// Reads the pages of the input to its end, and answers their layouts by the plan. The rows of one page are held at a time.
fn read_layouts<F: Searcher<White>, G: Searcher<Grid>, T: PageTasks, S: Source>(
    alloc: Global,
    plan: &Plan,
    ways: &mut Ways<F, G, T>,
    src: &mut S,
) -> Result<Layouts, Refusal>
    requires ready { F.ready ways.old.whites × G.ready ways.old.lines × T.ready ways.old.tasks }
    requires some { 1 ≤ plan.now.rects }
    requires few { plan.now.rects ≤ 256 }
    ensures { AnswersPages plan.now (S.view src.old) (S.view src.new) result (ReadsLayouts plan.now (S.view src.old) (S.view src.new)) }
{
    let mut images = Images::new(alloc)?;
    let mut layouts = Layouts::new(alloc);
    while let Some(page) = next_page(alloc, &mut images, src)? {
        let number = images.count() - 1;
        let layout = numbered_layout(alloc, &page, number, plan, ways)?;
        layouts.push(layout)?;
    }
    Ok(layouts)
}

/// Reads the pages of the input to its end, and answers the document of their layouts by the plan.
pub(crate) fn read_document<F: Searcher<White>, G: Searcher<Grid>, T: PageTasks, S: Source>(
    alloc: Global,
    plan: &Plan,
    ways: &mut Ways<F, G, T>,
    src: &mut S,
) -> Result<Vec<u8>, Refusal>
    requires ready { F.ready ways.old.whites × G.ready ways.old.lines × T.ready ways.old.tasks }
    requires some { 1 ≤ plan.now.rects }
    requires few { plan.now.rects ≤ 256 }
    ensures { AnswersPages plan.now (S.view src.old) (S.view src.new) result
        (λ text. ReadsDocument plan.now (S.view src.old) (S.view src.new) text.items) }
{
    let layouts = read_layouts(alloc, plan, ways, src)?;
    Ok(pages_text(alloc, &layouts)?)
}
