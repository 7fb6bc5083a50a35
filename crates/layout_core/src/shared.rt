//! The whole run by several workers.
ghost use Rattle.std.specs.Prelude.{◌≤◌, IfOk, map, string_bytes};
ghost use Rattle.box_search.specs.Search.{IsGreatestKey};
ghost use Rattle.whitespace_cover.specs.Problem.{white_numbers, IsWhiteKey};
ghost use Rattle.line_search.specs.Problem.{grid_numbers, IsGridKey};
ghost use Rattle.layout_core.specs.Status.{Runs, change};

use crate::job::{Job, Streams, Ways, lay_out, plan_of};
use crate::long_search::{FIRST_HEAD_START, best_of};
use crate::refusal::refuse;
use crate::tasks::ManyThreads;
use box_search::FromFn;
use command_words::Program;
use layout_limits::{MAX_WORKERS, OutOfMemory};
use layout_outside::{Sink, Source};
use lease_workers::Gate;
use line_search::Grid;
use std::alloc::Global;
use std::cell::Cell;
use std::sync::Wait;
use std::thread::Threads;
use whitespace_cover::White;

/// Does what the words of `layout` plan, by as many workers as they ask for. What it reads, writes and answers is just what
/// `layout_alone` does with the same rectangles and the same image: no clause has the number of workers or the schedule in
/// it, so the bytes of two runs with status 0 on one input are equal.
///
/// A search begins on this thread, and asks for workers where it takes many boxes. Each worker passes the gate before each
/// of its turns. The run may wait; what it promises holds if it returns.
pub fn layout_shared<R: Threads + Wait + Sync, S: Source, K: Sink, E: Sink, G: Gate>(
    rt: &R,
    alloc: Global,
    words: &[String],
    src: &mut S,
    out: &mut K,
    err: &mut E,
    gate: &G,
) -> u8
    // The headline, and all else that a run promises, a fact for each status: `IsRun`.
    ensures { Runs Program.Shared (map string_bytes words.now)
        (change S.view src.old src.new) (change K.view out.old out.new) (change E.view err.old err.new) result }
{
    let plan = match plan_of(alloc, words, Program::Shared) {
        Ok(plan) => plan,
        Err(refusal) => return refuse(err, refusal),
    };
    let count = u32::from(plan.workers);
    let head_start = Cell::new(FIRST_HEAD_START);
    let whites = FromFn {
        search: |white: &White| -> Result<u64, OutOfMemory>
            requires { (1 ≤ count) × (count ≤ MAX_WORKERS) }
            ensures { IfOk result (IsGreatestKey (IsWhiteKey (white_numbers white.now))) }
        { best_of(alloc, rt, white, count, gate, &head_start) },
    };
    let lines = FromFn {
        search: |grid: &Grid| -> Result<u64, OutOfMemory>
            requires { (1 ≤ count) × (count ≤ MAX_WORKERS) }
            ensures { IfOk result (IsGreatestKey (IsGridKey (grid_numbers grid.now))) }
        { best_of(alloc, rt, grid, count, gate, &head_start) },
    };
    let job = Job {
        program: Program::Shared,
        words,
        plan,
    };
    let tasks = ManyThreads { rt, workers: count };
    let mut ways = Ways {
        whites,
        lines,
        tasks,
    };
    let streams = Streams {
        source: src,
        out,
        err,
    };
    lay_out(alloc, &job, &mut ways, streams)
}
