//! Pages read into a sink of the tests, which keeps the rows and can refuse one.
ghost use Rattle.std.specs.Prelude.{◌≡◌, ◌-◌, ◌<◌, ◌≤◌};

mod judge;
mod several;
mod spaces;

use crate::PageFault::{Trailing, Truncated};
use crate::{
    PageFault, RowSink, Size, each_input_is_judged, equal_pictures_are_one_page, read_page,
};
use judge::judged;
use layout_limits::OutOfMemory;
use layout_outside::MemSource;
use spaces::Spaces;
use std::alloc::Global;
use std::test::Fail;

// Keeps the bytes of the rows, and refuses the row of this number.
#[derive(Drop)]
struct Rows {
    width: u16,
    left: u16,
    given: u16,
    refuses: u16,
    bytes: Vec<u8>,
}

impl Rows {
    fn new(alloc: Global, refuses: u16) -> Rows {
        Rows {
            width: 0,
            left: 0,
            given: 0,
            refuses,
            bytes: Vec::new(alloc),
        }
    }
}

impl RowSink for Rows {
    ghost use Rattle.std.specs.Prelude.{◌≡◌, ℕ, List};

    ghost width_of = { λ s. s.width };

    ghost rows_left = { λ s. s.left };

    ghost begun = { λ _ width height new. (new.width ≡ width) × (new.left ≡ height) };

    ghost given = { λ _ _ _. Unit {0} };

    ghost unchanged = { λ old new. (new.width ≡ old.width) × (new.left ≡ old.left) };

    fn begin(&mut self, width: u16, height: u16) -> Result<(), OutOfMemory> {
        self.width = width;
        self.left = height;
        self.given = 0;
        Ok(())
    }

    fn row(&mut self, bits: &[u8]) -> Result<(), OutOfMemory> {
        if self.given == self.refuses {
            return Err(OutOfMemory);
        }
        self.bytes.extend_from_slice(bits)?;
        self.given = self.given.saturating_add(1);
        self.left -= 1;
        Ok(())
    }
}

// What a reading of these bytes answered, the rows that it gave, and how many reads it made.
#[derive(Drop)]
struct Outcome {
    result: Result<Size, PageFault>,
    rows: Rows,
    reads: u64,
}

fn read(alloc: Global, input: &[u8], piece: usize, refuses: u16) -> Result<Outcome, Fail>
    requires { 0 < piece }
{
    let mut src = MemSource::new(input.to_vec(alloc)?, piece, Vec::new(alloc));
    let mut rows = Rows::new(alloc, refuses);
    let result = read_page(alloc, &mut src, &mut rows);
    let reads = src.calls;
    Ok(Outcome {
        result,
        rows,
        reads,
    })
}

fn size(width: u16, height: u16) -> Result<Size, PageFault> {
    Ok(Size { width, height })
}

// Inputs that spell a page, its sides, and the bytes of its rows.
const PAGES: [(&[u8], u16, u16, &[u8]); 13] = [
    (
        b"P4\n9 3\n\x01\xff\x80\x7f\xff\x80",
        9,
        3,
        b"\x01\x80\x80\0\xff\x80",
    ),
    // one white pixel
    (b"P1\n1 1\n0\n", 1, 1, b"\0"),
    // plain PBM with comments
    (
        b"P1\r\n#c\r\n3#w\n2\r\n101\n0 1#x\n0\njunk",
        3,
        2,
        b"\xa0\x40",
    ),
    // the header that GIMP writes, in both forms
    (
        b"P4\n# CREATOR: GIMP PNM Filter Version 1.1\n8 1\n\xaa",
        8,
        1,
        b"\xaa",
    ),
    (
        b"P1\n# Created by GIMP version 2.10.34 PNM plug-in\n8 1\n10101010\n",
        8,
        1,
        b"\xaa",
    ),
    // Netpbm's own plain files, and the example of its manual page
    (b"P1\n10 1\n0110011001\n", 10, 1, b"\x66\x40"),
    (
        b"P1\n# feep.pbm\n6 2\n0 1 1 1 1 0\n0 1 0 0 0 0\n",
        6,
        2,
        b"\x78\x40",
    ),
    // lines that end as on Windows
    (b"P1\r\n2 2\r\n0 1\r\n1 0\r\n", 2, 2, b"\x40\x80"),
    // the carriage return ends the header, and the line feed is raster
    (b"P4\n8 1\r\n", 8, 1, b"\n"),
    (b"P4 0008\t#\r01 \xff", 8, 1, b"\xff"),
    // no white byte has to stand between pixels, and a comment may
    (b"P1 3 1\n#1\n01#\r1", 3, 1, b"\x60"),
    (b"P1 1 1 1", 1, 1, b"\x80"),
    (b"P1 1 1 1 #", 1, 1, b"\x80"),
];

#[test]
fn pages_give_their_rows_with_their_padding_cleared(rt: HostRuntime) -> Result<(), Fail> {
    for piece in [1, 3, 100] {
        for (input, width, height, bytes) in PAGES {
            let outcome = read(rt.alloc(), input, piece, u16::MAX)?;
            assert_eq!(rt;
                outcome.result,
                size(width, height),
                "{input:?}, piece {piece}"
            );
            assert_eq!(rt;
                outcome.rows.bytes.as_slice(),
                bytes,
                "{input:?}, piece {piece}"
            );
        }
    }
    Ok(())
}

// Inputs, their faults, and the read that decides each where a read gives one byte.
const FAULTS: [(&[u8], PageFault, u64); 31] = [
    (b"", PageFault::Magic { at: 0 }, 1),
    (b"Q4", PageFault::Magic { at: 0 }, 1),
    (b"P", PageFault::Magic { at: 1 }, 2),
    (b"P5 1 1\n", PageFault::Magic { at: 1 }, 2),
    (b"P4", PageFault::Truncated { at: 2 }, 3),
    (b"P48 1\n", PageFault::Header { at: 2 }, 3),
    (b"P4\n16", PageFault::Truncated { at: 5 }, 6),
    (b"P4\n16 x", PageFault::Header { at: 6 }, 7),
    (b"P4\n8 1#c\n\0", PageFault::Header { at: 6 }, 7),
    (b"P4\n#c", PageFault::Truncated { at: 5 }, 6),
    (b"P4\n#c\n#8 1\n", PageFault::Truncated { at: 11 }, 12),
    (b"P1\n#c\n\x0b1 1\n", PageFault::Header { at: 6 }, 7),
    (b"P4\n0 99999\n\0", PageFault::ZeroSize, 11),
    (b"P4\n99999 0\n\0", PageFault::ZeroSize, 11),
    (b"P1\n000 1\n", PageFault::ZeroSize, 9),
    (
        b"P4\n8193 1\n\0",
        PageFault::TooLarge {
            width: 8193,
            height: 1,
        },
        10,
    ),
    (
        b"P4\n1 8193\n\0",
        PageFault::TooLarge {
            width: 1,
            height: 8193,
        },
        10,
    ),
    (
        b"P1\n8192 4097\n0",
        PageFault::TooLarge {
            width: 8192,
            height: 4097,
        },
        13,
    ),
    (
        b"P4\n99999999999 1\n",
        PageFault::TooLarge {
            width: 999_999_999,
            height: 1,
        },
        17,
    ),
    (
        b"P4\n1 4294967297\n",
        PageFault::TooLarge {
            width: 1,
            height: 999_999_999,
        },
        16,
    ),
    (b"P4\n16 2\n\0\0\0", PageFault::Truncated { at: 11 }, 12),
    (b"P4\n8 1\n\0\0", PageFault::Trailing { at: 8 }, 9),
    (b"P4\n8 1\n\0\n", PageFault::Trailing { at: 8 }, 9),
    (b"P4\n8 1\n\0P4\n8 1\n\0", PageFault::Trailing { at: 8 }, 9),
    (b"P1\n2 1\n0#1", PageFault::Truncated { at: 10 }, 11),
    (b"P1\n2 1\n0x", PageFault::Pixel { at: 8 }, 9),
    (b"P1\n2 1\n#\n\n0\0", PageFault::Pixel { at: 11 }, 12),
    (b"P1\n1 1\n01", PageFault::Trailing { at: 8 }, 9),
    (b"P1\n1 1\n0#", PageFault::Trailing { at: 8 }, 9),
    (b"P1\n1 1\n#0", PageFault::Truncated { at: 9 }, 10),
    (b"P1\n1 1#\n0", PageFault::Header { at: 6 }, 7),
];

#[test]
fn faults_of_headers_and_rasters_have_their_places(rt: HostRuntime) -> Result<(), Fail> {
    // No read is made once a fault is decided.
    for (input, fault, reads) in FAULTS {
        let outcome = read(rt.alloc(), input, 1, u16::MAX)?;
        assert_eq!(rt; outcome.result, Err(fault), "{input:?}");
        assert_eq!(rt; outcome.reads, reads, "{input:?}");
        let outcome = read(rt.alloc(), input, 100, u16::MAX)?;
        assert_eq!(rt; outcome.result, Err(fault), "{input:?}");
    }
    Ok(())
}

#[test]
fn no_read_is_made_behind_a_decided_fault(rt: HostRuntime) -> Result<(), Fail> {
    // The front of an input that goes on with spaces, the most bytes of a read, and the read that decides the fault.
    let cases: [(&[u8], usize, PageFault, u64); 2] = [
        (b"P4", 1, PageFault::HeaderTooLong, 65_537),
        (b"P1 1 1\n0", usize::MAX, PageFault::InputTooLong, 8_193),
    ];
    for (front, piece, fault, reads) in cases {
        let mut src = Spaces::new(front.to_vec(rt.alloc())?, u64::MAX, piece);
        let mut rows = Rows::new(rt.alloc(), u16::MAX);
        let result = read_page(rt.alloc(), &mut src, &mut rows);
        assert_eq!(rt; result, Err(fault), "{front:?}");
        assert_eq!(rt; src.calls, reads, "{front:?}");
    }
    Ok(())
}

// Inputs that are refused, the fault, and the bytes of the rows given before it.
const TOPS: [(&[u8], PageFault, &[u8]); 5] = [
    (b"P4\n8 3\n\x01\x02", Truncated { at: 9 }, b"\x01\x02"),
    (b"P4\n16 2\n\x01\x02\x03", Truncated { at: 11 }, b"\x01\x02"),
    (b"P4\n8 1\n\x01\x02", Trailing { at: 8 }, b"\x01"),
    (b"P1\n2 2\n110x", PageFault::Pixel { at: 10 }, b"\xc0"),
    (b"P1\n2 2\n1101x", Trailing { at: 11 }, b"\xc0\x40"),
];

// Inputs, the row that the sink refuses, and the bytes of the rows given before it.
const REFUSED_ROWS: [(&[u8], u16, &[u8]); 2] = [
    (b"P4\n8 3\n\x01\x02\x03", 2, b"\x01\x02"),
    (b"P1\n2 2\n1101 x", 1, b"\xc0"),
];

#[test]
fn a_fault_leaves_the_top_rows(rt: HostRuntime) -> Result<(), Fail> {
    for (input, fault, bytes) in TOPS {
        let outcome = read(rt.alloc(), input, 1, u16::MAX)?;
        assert_eq!(rt; outcome.result, Err(fault), "{input:?}");
        assert_eq!(rt; outcome.rows.bytes.as_slice(), bytes, "{input:?}");
    }
    for (input, refuses, bytes) in REFUSED_ROWS {
        let outcome = read(rt.alloc(), input, 1, refuses)?;
        assert_eq!(rt; outcome.result, Err(PageFault::Memory), "{input:?}");
        assert_eq!(rt; outcome.rows.bytes.as_slice(), bytes, "{input:?}");
    }
    Ok(())
}

// `P4`, so many spaces, and then these bytes.
fn spaced(alloc: Global, spaces: usize, rest: &[u8]) -> Result<Vec<u8>, Fail> {
    let mut input = b"P4".to_vec(alloc)?;
    for _ in 0..spaces {
        input.push(b' ')?;
    }
    input.extend_from_slice(rest)?;
    Ok(input)
}

#[test]
fn headers_end_within_65536_bytes(rt: HostRuntime) -> Result<(), Fail> {
    let cases: [(usize, &[u8], Result<Size, PageFault>); 6] = [
        (65_530, b"8 1\n\0", size(8, 1)),
        (65_531, b"8 1\n\0", Err(PageFault::HeaderTooLong)),
        (65_534, b"8 1\n", Err(PageFault::HeaderTooLong)),
        (65_534, b"", Err(PageFault::Truncated { at: 65_536 })),
        (65_533, b"x", Err(PageFault::Header { at: 65_535 })),
        (65_534, b"x", Err(PageFault::HeaderTooLong)),
    ];
    for (spaces, rest, result) in cases {
        let outcome = read(
            rt.alloc(),
            &spaced(rt.alloc(), spaces, rest)?,
            4096,
            u16::MAX,
        )?;
        assert_eq!(rt; outcome.result, result, "{spaces} spaces, {rest:?}");
    }
    Ok(())
}

#[test]
fn the_greatest_page_is_read(rt: HostRuntime) -> Result<(), Fail> {
    let mut input = b"P4\n8192 4096\n".to_vec(rt.alloc())?;
    input.resize(input.len() + 4_194_304, 0)?;
    let outcome = read(rt.alloc(), &input, 65_536, u16::MAX)?;
    assert_eq!(rt; outcome.result, size(8192, 4096));
    assert_eq!(rt; outcome.rows.bytes.len(), 4_194_304);
    Ok(())
}

#[test]
fn inputs_end_within_268435456_bytes(rt: HostRuntime) -> Result<(), Fail> {
    let cases: [(&[u8], u64, Result<Size, PageFault>); 3] = [
        (b"P1\n1 1\n0", 268_435_456, size(1, 1)),
        (b"P1\n1 1\n0", 268_435_457, Err(PageFault::InputTooLong)),
        (
            b"P1\n1 1\n",
            268_435_456,
            Err(PageFault::Truncated { at: 268_435_456 }),
        ),
    ];
    for (front, len, result) in cases {
        let mut src = Spaces::new(front.to_vec(rt.alloc())?, len, usize::MAX);
        let mut rows = Rows::new(rt.alloc(), u16::MAX);
        assert_eq!(rt;
            read_page(rt.alloc(), &mut src, &mut rows),
            result,
            "{front:?}, {len}"
        );
    }
    Ok(())
}

// Reads the bytes, and compares the answer with that of the plain program.
fn same_as_judged(alloc: Global, input: &[u8]) -> Result<bool, Fail> {
    let outcome = read(alloc, input, 3, u16::MAX)?;
    Ok(outcome.result == judged(input))
}

#[test]
fn every_prefix_and_every_changed_byte_is_judged_as_the_plain_program_does(
    rt: HostRuntime,
) -> Result<(), Fail> {
    let inputs: [&[u8]; 2] = [b"P1\r#c\n2 #\r1\n0#x\n1\rj", b"P4\n9 1\n\0\x7f"];
    for input in inputs {
        for len in 0..input.len() {
            assert!(rt;
                same_as_judged(rt.alloc(), &input[..len])?,
                "{input:?}, {len} bytes"
            );
        }
        for at in 0..input.len() {
            for byte in 0..=u8::MAX {
                let mut changed = input.to_vec(rt.alloc())?;
                if at < changed.len() {
                    changed[at] = byte;
                }
                assert!(rt;
                    same_as_judged(rt.alloc(), &changed)?,
                    "{input:?}, {byte} at {at}"
                );
            }
        }
    }
    Ok(())
}

#[test]
fn the_laws_can_be_called() {
    each_input_is_judged();
    equal_pictures_are_one_page();
}

/// A raster of 200 rows of 1,000 bytes, of which the sink refuses the fourth.
#[test]
fn a_row_that_is_refused_ends_the_reading_soon(rt: HostRuntime) -> Result<(), Fail> {
    let mut input = b"P4\n8000 200\n".to_vec(rt.alloc())?;
    input.resize(200_012, 0x55)?;
    let mut src = MemSource::new(input, 1, Vec::new(rt.alloc()));
    let mut rows = Rows::new(rt.alloc(), 3);
    let result = read_page(rt.alloc(), &mut src, &mut rows);
    assert!(rt; matches!(result, Err(PageFault::Memory)));
    assert_eq!(rt; rows.given, 3);
    assert!(rt; src.at <= 12 + 4_000 + 65_536);
    Ok(())
}
