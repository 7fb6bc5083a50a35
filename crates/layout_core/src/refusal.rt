//! How a run ends without a document: its status, and its line on `err`.
ghost use Rattle.std.specs.Prelude.{◌≡◌, ◌++◌, ◌≤◌, length, codes, decimal};
ghost use Rattle.layout_outside.specs.Written.{WritesText};
ghost use Rattle.std.specs.IoError.{error_kind};
ghost use Rattle.layout_core.specs.RefusalLines.{usage_of, place_line, size_limit_line, fault_line, refusal_line};
ghost use Rattle.layout_core.specs.Status.{fault_status, status_of};
ghost use Rattle.layout_core.specs.Words.{IsUnreadable};

use crate::page_layout::CoreFault;
use arrayvec::ArrayString;
use command_words::Program;
use itoa::Buffer;
use layout_limits::OutOfMemory;
use layout_outside::{Sink, put_all};
use pbm_reader::PageFault;
use std::io;
use std::io::ErrorKind;

/// A line that takes no memory: the longest has 97 bytes.
pub type Line = ArrayString<128>;

/// Why a run ended without a document.
#[derive(Debug, Clone, Copy, PartialEq, Eq, Drop)]
pub enum Refusal {
    /// The words of the program's command line have no plan.
    Usage(Program),
    /// A page was not read.
    Page(PageFault),
    /// More than 60,000 components of a page are kept, and so many.
    TooMany { count: u32 },
    /// A write to `out` failed.
    WriteFault,
    /// Memory was refused.
    Memory,
}

impl From<PageFault> for Refusal {
    ghost use Rattle.std.specs.Prelude.{◌≡◌};
    ghost use Rattle.layout_core.specs.declared.refusal.Refusal.TheVariants.{Page};

    ghost from_gives = { λ fault refusal. refusal ≡ Page fault };

    fn from(fault: PageFault) -> Refusal {
        Refusal::Page(fault)
    }
}

impl From<CoreFault> for Refusal {
    ghost use Rattle.std.specs.Prelude.{◌≡◌};
    ghost use Rattle.layout_core.specs.Refused.{refusal_of};

    ghost from_gives = { λ fault refusal. refusal ≡ refusal_of fault };

    fn from(fault: CoreFault) -> Refusal {
        match fault {
            CoreFault::TooMany { count } => Refusal::TooMany { count },
            CoreFault::Memory => Refusal::Memory,
        }
    }
}

impl From<OutOfMemory> for Refusal {
    ghost use Rattle.std.specs.Prelude.{◌≡◌};
    ghost use Rattle.layout_core.specs.declared.refusal.Refusal.TheVariants.{Memory};

    ghost from_gives = { λ _ refusal. refusal ≡ Memory };

    fn from(_: OutOfMemory) -> Refusal {
        Refusal::Memory
    }
}

impl Refusal {
    /// The status of the run.
    pub fn status(&self) -> u8
        ensures { result ≡ status_of self.now }
    {
        match self {
            Refusal::Usage(_) => 2,
            Refusal::Page(fault) => status_of_fault(fault),
            Refusal::TooMany { .. } => 4,
            Refusal::WriteFault => 6,
            Refusal::Memory => 7,
        }
    }

    /// The line that says why, with a line feed at its end.
    #[tactic(auto, unfolding(crate::specs::RefusalLines::refusal_line))]
    pub fn line(&self) -> Line
        ensures { result.bytes ≡ refusal_line self.now }
    {
        match self {
            Refusal::Usage(program) => line_of_usage(*program),
            Refusal::Page(fault) => line_of_fault(fault),
            Refusal::TooMany { count } => line_of_count(*count),
            Refusal::WriteFault => line_from("write failed\n"),
            Refusal::Memory => line_from("out of memory\n"),
        }
    }
}

/// Writes the refusal's line, and answers its status. A fault of the sink changes no status.
pub fn refuse<E: Sink>(err: &mut E, refusal: Refusal) -> u8
    ensures status { result ≡ status_of refusal }
    ensures line { WritesText (E.view err.old) (E.view err.new) (refusal_line refusal) }
{
    let line = refusal.line();
    let _ = put_all(err, line.as_str().as_bytes());
    refusal.status()
}

/// The refusal of words that could not be read: want of memory, or else a word that is no text, and so has no plan.
pub fn refusal_of_unreadable(program: Program, fault: &io::Error) -> Refusal
    ensures { IsUnreadable program (error_kind fault.now) result }
{
    match fault.kind() {
        ErrorKind::OutOfMemory => Refusal::Memory,
        _ => Refusal::Usage(program),
    }
}

/// The status of a page that was not read.
fn status_of_fault(fault: &PageFault) -> u8
    ensures { result ≡ fault_status fault.now }
{
    match fault {
        PageFault::Magic { .. }
        | PageFault::Header { .. }
        | PageFault::ZeroSize
        | PageFault::Truncated { .. }
        | PageFault::Pixel { .. }
        | PageFault::Trailing { .. } => 3,
        PageFault::HeaderTooLong
        | PageFault::TooLarge { .. }
        | PageFault::InputTooLong
        | PageFault::TooManyImages => 4,
        PageFault::ReadFault => 5,
        PageFault::Memory => 7,
    }
}

/// The line of a page that was not read.
fn line_of_fault(fault: &PageFault) -> Line
    ensures { result.bytes ≡ fault_line fault.now }
{
    match fault {
        PageFault::Magic { at } => line_of_place("magic", *at),
        PageFault::Header { at } => line_of_place("header", *at),
        PageFault::HeaderTooLong => line_from("limit: header over 65536 bytes\n"),
        PageFault::ZeroSize => line_from("bad page: zero size\n"),
        PageFault::TooLarge { width, height } => line_of_size(*width, *height),
        PageFault::Truncated { at } => line_of_place("truncated", *at),
        PageFault::Pixel { at } => line_of_place("pixel", *at),
        PageFault::Trailing { at } => line_of_place("trailing", *at),
        PageFault::InputTooLong => line_from("limit: input over 268435456 bytes\n"),
        PageFault::TooManyImages => line_from("limit: over 256 images\n"),
        PageFault::ReadFault => line_from("read failed\n"),
        PageFault::Memory => line_from("out of memory\n"),
    }
}

/// A line that is always the same.
fn line_from(text: &str) -> Line
    requires { length text.now ≤ 128 }
    ensures { result.bytes ≡ text.now }
{
    let mut line = Line::new();
    line.push_str(text);
    line
}

/// The line that says what is wrong with a page, and at which byte.
fn line_of_place(what: &str, at: u64) -> Line
    requires { length what.now ≤ 9 }
    ensures { result.bytes ≡ place_line what.now at }
{
    let mut buffer = Buffer::new();
    let mut line = Line::new();
    line.push_str("bad page: ");
    line.push_str(what);
    line.push_str(" at ");
    line.push_str(buffer.format(at));
    line.push_str("\n");
    line
}

/// The line that tells which words a program takes.
fn line_of_usage(program: Program) -> Line
    ensures { result.bytes ≡ usage_of program }
{
    match program {
        Program::Alone => line_from(
            "usage: layout1 [--rects N] [--image NAME] [--make SEED] [--words] [--blocks] [--xy]\n",
        ),
        Program::Shared => {
            line_from(
                "usage: layout [--workers N] [--rects N] [--image NAME] [--make SEED] [--words] [--blocks] [--xy]\n",
            )
        },
    }
}

/// The line that tells the sizes of a page that is too large.
fn line_of_size(width: u32, height: u32) -> Line
    ensures { result.bytes ≡ size_limit_line width height }
{
    let mut buffer = Buffer::new();
    let mut line = Line::new();
    line.push_str("limit: size ");
    line.push_str(buffer.format(width));
    line.push_str(" by ");
    line.push_str(buffer.format(height));
    line.push_str("\n");
    line
}

/// The line that counts the components of a page that has too many.
fn line_of_count(count: u32) -> Line
    ensures { result.bytes ≡ codes "limit: " ++ decimal count ++ codes " components\n" }
{
    let mut buffer = Buffer::new();
    let mut line = Line::new();
    line.push_str("limit: ");
    line.push_str(buffer.format(count));
    line.push_str(" components\n");
    line
}
