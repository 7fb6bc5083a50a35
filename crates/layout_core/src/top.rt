//! The whole run on one thread.
ghost use Rattle.std.specs.Prelude.{map, string_bytes};
ghost use Rattle.layout_core.specs.Status.{Runs, change};

use crate::job::{Job, Streams, Ways, lay_out, plan_of};
use crate::refusal::refuse;
use crate::tasks::OneThread;
use box_search::Alone;
use command_words::Program;
use layout_outside::{Sink, Source};
use std::alloc::Global;

/// Does what the words of `layout1` plan: reads the pages of the source and writes their document to `out`, or, with a seed,
/// makes a page and writes its summary. It answers the status of the run:
///
/// - 0: the input was read to its end, and the document of its pages was written whole; or the made page's summary was;
/// - 2: the words have no plan; nothing was read;
/// - 3: the input spells no pages in Netpbm's PBM;
/// - 4: a header, sizes, the input or the number of its images are beyond the limits, or more than 60,000 components of
///   a page are kept;
/// - 5: a read failed before the bytes that were taken decided what is to be refused;
/// - 6: a write to `out` failed, and a proper front of the document or summary was written;
/// - 7: memory was refused.
///
/// The images of an input are judged in their order, each by its bytes and then by its components: the first that is refused
/// counts. On 2 to 5 and 7 nothing was written to `out`. On 2 to 7 one line that says why was written to
/// `err`, or a front of it where a write to `err` failed; this takes no memory.
pub fn layout_alone<S: Source, K: Sink, E: Sink>(
    alloc: Global,
    words: &[String],
    src: &mut S,
    out: &mut K,
    err: &mut E,
) -> u8
    // The headline, and all else that a run promises, a fact for each status: `IsRun`.
    ensures { Runs Program.Alone (map string_bytes words.now)
        (change S.view src.old src.new) (change K.view out.old out.new) (change E.view err.old err.new) result }
{
    let plan = match plan_of(alloc, words, Program::Alone) {
        Ok(plan) => plan,
        Err(refusal) => return refuse(err, refusal),
    };
    let job = Job {
        program: Program::Alone,
        words,
        plan,
    };
    let mut ways = Ways {
        whites: Alone,
        lines: Alone,
        tasks: OneThread,
    };
    let streams = Streams {
        source: src,
        out,
        err,
    };
    lay_out(alloc, &job, &mut ways, streams)
}
