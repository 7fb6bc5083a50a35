//! Runs of both programs over memory.
ghost use Rattle.std.specs.Prelude.{◌≡◌, ◌<◌};

use crate::{Program, layout_alone, layout_shared};
use layout_outside::{MemSink, MemSource};
use lease_workers::OpenGate;
use std::alloc::Global;
use std::sync::Wait;
use std::test::Fail;
use std::thread::Threads;

/// How a run ended, and what it wrote.
#[derive(Drop)]
pub(super) struct Outcome {
    pub status: u8,
    pub out: MemSink,
    pub err: MemSink,
    pub reads: u64,
}

impl Outcome {
    /// Whether another run ended in the same way, and wrote the same.
    fn is_as(&self, other: &Outcome) -> bool {
        self.status == other.status
            && self.reads == other.reads
            && self.out.as_slice() == other.out.as_slice()
            && self.err.as_slice() == other.err.as_slice()
    }

    /// Whether the run wrote this document and told nothing.
    pub(super) fn is_document(&self, text: &[u8]) -> bool {
        self.status == 0 && self.err.calls == 0 && self.out.as_slice() == text
    }

    /// Whether this stands in what the run wrote.
    pub(super) fn shows(&self, part: &[u8]) -> bool {
        if part.is_empty() {
            return true;
        }
        let text = self.out.as_slice();
        text.windows(part.len()).any(|window| window == part)
    }

    /// Whether the run ended with this status and this line, and wrote no document.
    pub(super) fn is_refusal(&self, status: u8, line: &[u8]) -> bool {
        self.status == status && self.err.as_slice() == line && self.out.calls == 0
    }
}

/// The input of a run, and its devices: they move at most a piece in a call, and the source fails at the calls with these numbers.
#[derive(Clone, Copy)]
pub(super) struct Given<'a> {
    pub input: &'a [u8],
    pub piece: usize,
    pub read_fails: &'a [u64],
}

impl Given<'_> {
    fn source(&self, alloc: Global) -> Result<MemSource, Fail>
        requires { 0 < self.now.piece }
    {
        let fails = self.read_fails.to_vec(alloc)?;
        Ok(MemSource::new(self.input.to_vec(alloc)?, self.piece, fails))
    }

    fn out(&self, alloc: Global) -> Result<MemSink, Fail>
        requires { 0 < self.now.piece }
    {
        Ok(MemSink::with_room(alloc, 65_536, self.piece, Vec::new(alloc))?)
    }

    fn err(&self, alloc: Global) -> Result<MemSink, Fail>
        requires { 0 < self.now.piece }
    {
        Ok(MemSink::with_room(alloc, 128, self.piece, Vec::new(alloc))?)
    }
}

/// An input in pieces, through devices that do not fail.
pub(super) fn in_pieces(input: &[u8], piece: usize) -> Given<'_>
    ensures { result.piece ≡ piece }
{
    Given {
        input,
        piece,
        read_fails: &[],
    }
}

/// The run of a program.
pub(super) fn run_of<R: Threads + Wait + Sync>(
    rt: &R,
    alloc: Global,
    program: Program,
    words: &[&str],
    given: &Given<'_>,
) -> Result<Outcome, Fail>
    requires { 0 < given.now.piece }
{
    let words = strings(alloc, words)?;
    let mut src = given.source(alloc)?;
    let mut out = given.out(alloc)?;
    let mut err = given.err(alloc)?;
    let status = match program {
        Program::Alone => layout_alone(alloc, &words, &mut src, &mut out, &mut err),
        Program::Shared => {
            layout_shared(rt, alloc, &words, &mut src, &mut out, &mut err, &OpenGate)
        }
    };
    let reads = src.calls;
    Ok(Outcome {
        status,
        out,
        err,
        reads,
    })
}

/// A run of each program, which end in the same way.
pub(super) fn run<R: Threads + Wait + Sync>(
    rt: &R,
    alloc: Global,
    words: &[&str],
    given: &Given<'_>,
) -> Result<Outcome, Fail>
    requires { 0 < given.now.piece }
{
    let alone = run_of(rt, alloc, Program::Alone, words, given)?;
    let shared = run_of(rt, alloc, Program::Shared, words, given)?;
    if alone.is_as(&shared) {
        Ok(alone)
    } else {
        Err("the programs differ")?
    }
}

fn strings(alloc: Global, words: &[&str]) -> Result<Vec<String>, Fail> {
    let mut strings = Vec::new(alloc);
    for word in words {
        strings.push(String::from_str(alloc, *word)?)?;
    }
    Ok(strings)
}
