//! Prints the layout of the page on the standard input.
#![tactic(auto)]

ghost use Rattle.std.specs.Prelude.{IfOk, IfErr, map, string_bytes};
ghost use Rattle.std.specs.IoError.{error_kind};
ghost use Rattle.command_words.specs.declared.plan.Program.{Program};
ghost use Rattle.layout_core.specs.Status.{Runs, change};
ghost use Rattle.layout_core.specs.Words.{RunsUnread};

use layout_core::{Program, layout_alone, refusal_of_unreadable, refuse, words_given};
use layout_outside::{Sink, Source, StdSink, StdSource};
use std::alloc::Global;
use std::io;
use std::process::ExitCode;

/// Runs with these words, and answers the status.
fn run<S: Source, K: Sink, E: Sink>(
    alloc: Global,
    words: io::Result<Vec<String>>,
    src: &mut S,
    out: &mut K,
    err: &mut E,
) -> u8
    // With words that were read, all that the run on one thread promises, the headline among it.
    ensures readable { IfOk words (λ words. Runs Program.Alone (map string_bytes words.items)
        (change S.view src.old src.new) (change K.view out.old out.new) (change E.view err.old err.new) result) }
    // Where the words could not be read, 2 or 7 and its line, each for its cause.
    ensures unreadable { IfErr words (λ fault. RunsUnread Program.Alone (error_kind fault)
        (change S.view src.old src.new) (change K.view out.old out.new) (change E.view err.old err.new) result) }
{
    match words {
        Ok(words) => layout_alone(alloc, &words, src, out, err),
        Err(fault) => refuse(err, refusal_of_unreadable(Program::Alone, &fault)),
    }
}

fn main(rt: HostRuntime) -> ExitCode {
    let mut src = StdSource::new(rt.stdin());
    let mut out = StdSink::new(rt.stdout());
    let mut err = StdSink::new(rt.stderr());
    let words = words_given(&rt);
    ExitCode::from(run(rt.alloc(), words, &mut src, &mut out, &mut err))
}
