//! Runs of both programs over devices that fail or lack room, and over inputs that were cut off.
ghost use Rattle.std.specs.Prelude.{◌<◌};

use layout_core::{Program, layout_alone, layout_shared};
use layout_outside::{MemSink, MemSource, Sink, Source, StdSink, StdSource};
use lease_workers::OpenGate;
use std::alloc::Global;
use std::io;
use std::io::{Read, Write};
use std::sync::Wait;
use std::test::Fail;
use std::thread::Threads;

/// The status of a run of a program without words.
fn status_of<R: Threads + Wait + Sync, S: Source, K: Sink, E: Sink>(
    rt: &R,
    alloc: Global,
    program: Program,
    src: &mut S,
    out: &mut K,
    err: &mut E,
) -> u8 {
    match program {
        Program::Alone => layout_alone(alloc, &[], src, out, err),
        Program::Shared => layout_shared(rt, alloc, &[], src, out, err, &OpenGate),
    }
}

/// A device over memory: the most bytes that a call moves, and the number of the call that fails.
#[derive(Clone, Copy)]
struct Device {
    piece: usize,
    fails: Option<u64>,
    ghost takes_some: { 0 < piece },
}

impl Device {
    fn of(piece: usize, fails: Option<u64>) -> Device
        requires { 0 < piece }
    {
        Device { piece, fails }
    }

    fn failing(&self, alloc: Global) -> Result<Vec<u64>, Fail> {
        let mut fails = Vec::new(alloc);
        if let Some(call) = self.fails {
            fails.push(call)?;
        }
        Ok(fails)
    }

    fn source(&self, alloc: Global, input: &[u8]) -> Result<MemSource, Fail> {
        let fails = self.failing(alloc)?;
        Ok(MemSource::new(input.to_vec(alloc)?, self.piece, fails))
    }

    fn sink(&self, alloc: Global, room: usize) -> Result<MemSink, Fail> {
        let fails = self.failing(alloc)?;
        Ok(MemSink::with_room(alloc, room, self.piece, fails)?)
    }
}

/// What a run is given. `room` is that of `out`, in bytes.
#[derive(Clone, Copy)]
struct Given<'a> {
    input: &'a [u8],
    source: Device,
    out: Device,
    room: usize,
    err: Device,
}

impl Given<'_> {
    /// The input through devices that do not fail, have room and move a byte in a read and a text in a write.
    fn of(input: &[u8]) -> Given<'_> {
        Given {
            input,
            source: Device::of(1, None),
            out: Device::of(4096, None),
            room: 4096,
            err: Device::of(80, None),
        }
    }
}

/// How a run ended.
#[derive(Drop)]
struct Outcome {
    status: u8,
    out: MemSink,
    err: MemSink,
    reads: u64,
}

impl Outcome {
    /// Whether the run ended with this status, this line and this text.
    fn is(&self, status: u8, line: &[u8], text: &[u8]) -> bool {
        self.status == status && self.err.as_slice() == line && self.out.as_slice() == text
    }
}

fn run_of<R: Threads + Wait + Sync>(
    rt: &R,
    alloc: Global,
    program: Program,
    given: &Given<'_>,
) -> Result<Outcome, Fail> {
    let mut src = given.source.source(alloc, given.input)?;
    let mut out = given.out.sink(alloc, given.room)?;
    let mut err = given.err.sink(alloc, 80)?;
    let status = status_of(rt, alloc, program, &mut src, &mut out, &mut err);
    let reads = src.calls;
    Ok(Outcome {
        status,
        out,
        err,
        reads,
    })
}

/// A run of each program, which end in the same way after as many reads.
fn run<R: Threads + Wait + Sync>(
    rt: &R,
    alloc: Global,
    given: &Given<'_>,
) -> Result<Outcome, Fail> {
    let alone = run_of(rt, alloc, Program::Alone, given)?;
    let shared = run_of(rt, alloc, Program::Shared, given)?;
    let text = shared.out.as_slice();
    if alone.reads == shared.reads && alone.is(shared.status, shared.err.as_slice(), text) {
        Ok(alone)
    } else {
        Err("the programs differ")?
    }
}

/// The packed row of the three glyphs: black are the pixels 10 to 19, 30 to 39 and 50 to 59.
const GLYPHS: [u8; 13] = [0, 0x3f, 0xf0, 0x03, 0xff, 0, 0x3f, 0xf0, 0, 0, 0, 0, 0];

/// A page of 100 by 40 pixels with three blocks of 10 by 10 beside one another: 530 bytes.
fn three_glyphs(alloc: Global) -> Result<Vec<u8>, Fail> {
    let mut input = b"P4\n100 40\n".to_vec(alloc)?;
    for y in 0..40 {
        let row = if y >= 10 && y < 20 { GLYPHS } else { [0; 13] };
        input.extend_from_slice(&row)?;
    }
    Ok(input)
}

#[test]
fn each_read_of_three_glyphs_fails_in_turn(rt: HostRuntime) -> Result<(), Fail> {
    let input = three_glyphs(rt.alloc())?;
    for call in 0..531u64 {
        let given = Given {
            source: Device::of(1, Some(call)),
            ..Given::of(&input)
        };
        let outcome = run(&rt, rt.alloc(), &given)?;
        assert!(rt; outcome.is(5, b"read failed\n", b""), "call {call}");
        assert_eq!(rt; outcome.reads, call + 1);
    }
    let given = Given {
        source: Device::of(1, Some(531)),
        ..Given::of(&input)
    };
    let outcome = run(&rt, rt.alloc(), &given)?;
    assert_eq!(rt; (outcome.status, outcome.reads), (0, 531));
    Ok(())
}

#[test]
fn each_write_of_three_glyphs_fails_in_turn(rt: HostRuntime) -> Result<(), Fail> {
    let input = three_glyphs(rt.alloc())?;
    let whole = run(&rt, rt.alloc(), &Given::of(&input))?;
    let text = whole.out.as_slice();
    assert_eq!(rt; (whole.status, text.len()), (0, 985));
    for call in 0..62usize {
        let given = Given {
            out: Device::of(16, Some(call as u64)),
            ..Given::of(&input)
        };
        let outcome = run(&rt, rt.alloc(), &given)?;
        let front = outcome.out.as_slice();
        assert!(rt; outcome.is(6, b"write failed\n", front), "call {call}");
        assert!(rt; text.starts_with(front), "call {call}");
        assert_eq!(rt; front.len(), 16 * call);
    }
    let given = Given {
        out: Device::of(16, Some(62)),
        ..Given::of(&input)
    };
    let outcome = run(&rt, rt.alloc(), &given)?;
    assert!(rt; outcome.is(0, b"", text));
    assert_eq!(rt; outcome.out.calls, 62);
    Ok(())
}

#[test]
fn three_glyphs_cut_off_at_each_byte(rt: HostRuntime) -> Result<(), Fail> {
    let input = three_glyphs(rt.alloc())?;
    assert_eq!(rt; input.len(), 530);
    for at in 0..input.len() {
        let outcome = run(&rt, rt.alloc(), &Given::of(&input[..at]))?;
        let fault = if at < 2 { "magic" } else { "truncated" };
        let line = format!(in rt.alloc(); "bad page: {fault} at {at}\n")?;
        assert!(rt; outcome.is(3, line.as_bytes(), b""), "{at}");
        assert_eq!(rt; outcome.reads, at as u64 + 1);
    }
    Ok(())
}

/// The first 100 bytes of a document.
const FRONT: &[u8] = b"<!DOCTYPE html>\n<html>\n<head>\n<title>layout</title>\n\
<meta charset='utf-8'>\n<meta name='ocr-system' c";

#[test]
fn devices_that_fail_once_or_lack_room(rt: HostRuntime) -> Result<(), Fail> {
    let input = three_glyphs(rt.alloc())?;
    let (empty, grey, glyphs) = (Given::of(b""), Given::of(b"P5"), Given::of(&input));
    let at_once = Device::of(4, Some(0));
    let late_read = Given {
        source: Device::of(1, Some(2)),
        ..grey
    };
    let lost = Given {
        err: at_once,
        ..empty
    };
    let cut = Given {
        err: Device::of(4, Some(2)),
        ..empty
    };
    let small = Given {
        out: Device::of(50, None),
        room: 100,
        ..glyphs
    };
    let unread = Given {
        source: at_once,
        out: at_once,
        err: at_once,
        ..glyphs
    };
    let unwritten = Given {
        out: at_once,
        err: at_once,
        ..glyphs
    };
    let cases: [(&str, Given<'_>, u8, &[u8], &[u8], u64); 6] = [
        (
            "no read behind a fault",
            late_read,
            3,
            b"bad page: magic at 1\n",
            b"",
            2,
        ),
        ("a line that is lost", lost, 3, b"", b"", 1),
        ("a line that is cut", cut, 3, b"bad page", b"", 1),
        (
            "room for 100 bytes",
            small,
            6,
            b"write failed\n",
            FRONT,
            531,
        ),
        ("no read, no line", unread, 5, b"", b"", 1),
        ("no write, no line", unwritten, 6, b"", b"", 531),
    ];
    for (name, given, status, line, text, reads) in cases {
        let outcome = run(&rt, rt.alloc(), &given)?;
        assert!(rt; outcome.is(status, line, text), "{name}");
        assert_eq!(rt; outcome.reads, reads, "{name}");
    }
    Ok(())
}

/// A reader of std whose first read fails, and which then has the bytes.
#[derive(Drop)]
struct FailsOnce<'a> {
    failed: bool,
    left: &'a [u8],
}

impl Read for FailsOnce<'_> {
    fn read(&mut self, buf: &mut [u8]) -> io::Result<usize> {
        if self.failed {
            return self.left.read(buf);
        }
        self.failed = true;
        Err(io::Error::from(io::ErrorKind::Interrupted))
    }
}

/// A writer of std that takes nothing.
#[derive(Drop)]
struct TakesNothing;

impl Write for TakesNothing {
    fn write(&mut self, _buf: &[u8]) -> io::Result<usize> {
        Ok(0)
    }

    fn flush(&mut self) -> io::Result<()> {
        Ok(())
    }
}

#[test]
fn a_std_reader_that_fails_once_and_a_std_writer_that_takes_nothing(
    rt: HostRuntime,
) -> Result<(), Fail> {
    let input = three_glyphs(rt.alloc())?;
    let device = Device::of(4096, None);
    for program in [Program::Alone, Program::Shared] {
        let mut src = StdSource::new(FailsOnce {
            failed: false,
            left: &input,
        });
        let mut out = device.sink(rt.alloc(), 4096)?;
        let mut err = device.sink(rt.alloc(), 80)?;
        let status = status_of(&rt, rt.alloc(), program, &mut src, &mut out, &mut err);
        assert_eq!(rt; (status, src.faults, out.calls), (5, 1, 0));
        assert_eq!(rt; err.as_slice(), b"read failed\n".as_slice());

        let mut src = device.source(rt.alloc(), &input)?;
        let mut out = StdSink::new(TakesNothing);
        let mut err = device.sink(rt.alloc(), 80)?;
        let status = status_of(&rt, rt.alloc(), program, &mut src, &mut out, &mut err);
        assert_eq!(rt; (status, out.faults), (6, 1));
        assert_eq!(rt; err.as_slice(), b"write failed\n".as_slice());
    }
    Ok(())
}
