//! Prints the layout of the page on the standard input, found by several workers.
#![tactic(auto)]

ghost use Rattle.std.specs.Prelude.{IfOk, IfErr, map, string_bytes};
ghost use Rattle.std.specs.IoError.{error_kind};
ghost use Rattle.command_words.specs.declared.plan.Program.{Program};
ghost use Rattle.layout_core.specs.Status.{Runs, change};
ghost use Rattle.layout_core.specs.Words.{RunsUnread};

use layout_core::{Program, layout_shared, refusal_of_unreadable, refuse, words_given};
use layout_outside::{Sink, Source, StdSink, StdSource};
use lease_workers::OpenGate;
use std::alloc::Global;
use std::io;
use std::process::ExitCode;
use std::sync::Wait;
use std::thread::Threads;

/// Runs with these words, and answers the status.
fn run<R: Threads + Wait + Sync, S: Source, K: Sink, E: Sink>(
    rt: &R,
    alloc: Global,
    words: io::Result<Vec<String>>,
    src: &mut S,
    out: &mut K,
    err: &mut E,
) -> u8
    // With words that were read, all that the shared run promises, the headline among it.
    ensures readable { IfOk words (λ words. Runs Program.Shared (map string_bytes words.items)
        (change S.view src.old src.new) (change K.view out.old out.new) (change E.view err.old err.new) result) }
    // Where the words could not be read, 2 or 7 and its line, each for its cause.
    ensures unreadable { IfErr words (λ fault. RunsUnread Program.Shared (error_kind fault)
        (change S.view src.old src.new) (change K.view out.old out.new) (change E.view err.old err.new) result) }
{
    match words {
        Ok(words) => layout_shared(rt, alloc, &words, src, out, err, &OpenGate),
        Err(fault) => refuse(err, refusal_of_unreadable(Program::Shared, &fault)),
    }
}

fn main(rt: HostRuntime) -> ExitCode {
    let mut src = StdSource::new(rt.stdin());
    let mut out = StdSink::new(rt.stdout());
    let mut err = StdSink::new(rt.stderr());
    let words = words_given(&rt);
    ExitCode::from(run(&rt, rt.alloc(), words, &mut src, &mut out, &mut err))
}
