//! A run whose words have a plan, by any ways.
ghost use Rattle.std.specs.Prelude.{◌≡◌, ◌≤◌, IfOk, IfErr, map, string_bytes};
ghost use Rattle.command_words.specs.Plans.{HasPlan};
ghost use Rattle.layout_core.specs.Status.{Finishes, Runs, change};
ghost use Rattle.layout_core.specs.Words.{RefusesWords};

use crate::document::read_document;
use crate::refusal::{Refusal, refuse};
use crate::summary::make_summary;
use crate::tasks::PageTasks;
use box_search::Searcher;
use command_words::{Plan, Program, WordFault, words_have_one_plan, words_of};
use components::kept_is_unique;
use layout_outside::{Sink, Source, put_all};
use line_search::Grid;
use pbm_reader::each_input_is_judged;
use run_smear::smear_is_unique;
use std::alloc::Global;
use whitespace_cover::White;

/// What a run shall do: the words of its command line, and their plan.
#[derive(Drop)]
pub(crate) struct Job<'a> {
    /// The program whose words they are.
    pub program: Program,
    /// The words behind the program's name.
    pub words: &'a [String],
    /// The plan of the words.
    pub plan: Plan,
}

/// The streams of a run.
#[derive(Drop)]
pub(crate) struct Streams<'a, S: Source, K: Sink, E: Sink> {
    /// Where the pages come from.
    pub source: &'a mut S,
    /// Where the document or the summary goes.
    pub out: &'a mut K,
    /// Where the line of a refusal goes.
    pub err: &'a mut E,
}

/// The ways to find the parts of a layout.
#[derive(Drop)]
pub struct Ways<F: Searcher<White>, G: Searcher<Grid>, T: PageTasks> {
    /// Searches for white rectangles.
    pub whites: F,
    /// Searches for text lines.
    pub lines: G,
    /// Does what is no search.
    pub tasks: T,
}

/// The plan of the words behind a program's name, or the refusal of words that have none.
pub(crate) fn plan_of(alloc: Global, words: &[String], program: Program) -> Result<Plan, Refusal>
    ensures plan { IfOk result (HasPlan program (map string_bytes words.now)) }
    ensures rects { IfOk result (λ plan. (1 ≤ plan.rects) × (plan.rects ≤ 256)) }
    ensures workers { IfOk result (λ plan. (1 ≤ plan.workers) × (plan.workers ≤ 64)) }
    ensures refused { IfErr result (RefusesWords program (map string_bytes words.now)) }
{
    match words_of(alloc, words, program) {
        Ok(plan) => Ok(plan),
        Err(fault) => match fault {
            WordFault::Usage => Err(Refusal::Usage(program)),
            WordFault::Memory => Err(Refusal::Memory),
        },
    }
}

/// Writes the text to `out`, or the line of a refusal to `err`, and answers the status of the run.
fn finish<K: Sink, E: Sink>(text: Result<Vec<u8>, Refusal>, out: &mut K, err: &mut E) -> u8
    ensures { Finishes (err.new ≡ err.old) (out.new ≡ out.old) (K.view out.old) (K.view out.new) (E.view err.old) (E.view err.new)
        text (λ text. text.items) result }
{
    match text {
        Ok(text) => match put_all(out, &text) {
            Ok(()) => 0,
            Err(_) => refuse(err, Refusal::WriteFault),
        },
        Err(refusal) => refuse(err, refusal),
    }
}

/// Does what the job's plan says: reads the pages of the source and writes the document of their layouts to `out`, or makes the
/// page of a seed and writes the summary of its layout. It answers the status of the run, which is not 2.
pub(crate) fn lay_out<
    F: Searcher<White>,
    G: Searcher<Grid>,
    T: PageTasks,
    S: Source,
    K: Sink,
    E: Sink,
>(alloc: Global, job: &Job<'_>, ways: &mut Ways<F, G, T>, streams: Streams<'_, S, K, E>) -> u8
    requires planned { HasPlan job.now.program (map string_bytes job.now.words.now) job.now.plan }
    requires ready { F.ready ways.old.whites × G.ready ways.old.lines × T.ready ways.old.tasks }
    requires some { 1 ≤ job.now.plan.rects }
    requires few { job.now.plan.rects ≤ 256 }
    ensures { Runs job.now.program (map string_bytes job.now.words.now)
        (change S.view streams.entry.source.now streams.exit.0.now)
        (change K.view streams.entry.out.now streams.exit.1.0.now)
        (change E.view streams.entry.err.now streams.exit.1.1.0.now)
        result }
{
    // The laws of the words, of the format, and of a page's components and smear.
    words_have_one_plan();
    each_input_is_judged();
    kept_is_unique();
    smear_is_unique();
    let Streams { source, out, err } = streams;
    match job.plan.make {
        Some(seed) => {
            let text = make_summary(alloc, &job.plan, seed, ways);
            return finish(text, out, err);
        }
        None => {}
    }
    let text = read_document(alloc, &job.plan, ways, source);
    finish(text, out, err)
}
