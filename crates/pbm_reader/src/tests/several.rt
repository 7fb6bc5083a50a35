//! Several images in one input, read into the sink of the tests.
ghost use Rattle.std.specs.Prelude.{◌≡◌, ◌<◌, true, false};
ghost use Rattle.std.specs.Io.KnownBytes.{IsAtEnd};

use super::spaces::Spaces;
use super::{Rows, size};
use crate::PageFault::{Header, Magic, TooLarge, Trailing, Truncated};
use crate::{Images, PageFault, Size};
use layout_outside::{MemSource, Source};
use std::alloc::Global;
use std::process::Abort;
use std::test::Fail;

// A reader of images with its source and sink.
#[derive(Drop)]
struct Reading {
    images: Images,
    src: MemSource,
    rows: Rows,
    ghost images_alone: { images.gave_byte ≡ false },
    ghost ended: { images.has_ended ≡ true → IsAtEnd (⟦<MemSource as Source>⟧.view src).left },
}

fn reader_of(alloc: Global, input: &[u8], piece: usize, fails: &[u64]) -> Result<Reading, Fail>
    requires { 0 < piece }
{
    Ok(Reading {
        images: Images::new(alloc)?,
        src: MemSource::new(input.to_vec(alloc)?, piece, fails.to_vec(alloc)?),
        rows: Rows::new(alloc, u16::MAX),
    })
}

impl Reading {
    // The answer of the last call that an open reader takes, 257 calls at most.
    fn read(&mut self, alloc: Global) -> Result<Option<Size>, PageFault> {
        let mut last = Ok(None);
        for _ in 0..257 {
            if !self.images.is_open() {
                return last;
            }
            last = self.images.next(alloc, &mut self.src, &mut self.rows);
        }
        last
    }
}

// Inputs, how many images they have, and the bytes of their rows.
const INPUTS: [(&[u8], u32, &[u8]); 3] = [
    (
        b"P4\n9 3\n\x01\xff\x80\x7f\xff\x80P4\n8 1\n\xaa",
        2,
        b"\x01\x80\x80\0\xff\x80\xaa",
    ),
    // each image has a header of its own, with its comments
    (b"P4 #1\n8 1\n\x01P4\n#2\n1 2 \x80\xff", 2, b"\x01\x80\x80"),
    // a plain image is read to the end of the input
    (b"P1\n1 1\n0\nP4\n8 1\n\0", 1, b"\0"),
];

// Inputs that are refused, how many whole images they begin with, the bytes of the rows that are given, and the fault.
const REFUSED: [(&[u8], u32, &[u8], PageFault); 14] = [
    // a plain image stands alone
    (b"P1\n1 1\n0P4", 0, b"\0", Trailing { at: 8 }),
    (b"P4\n8 1\n\0P1\n1 1\n0", 1, b"\0", Magic { at: 9 }),
    (b"", 0, b"", Magic { at: 0 }),
    (b"P4", 0, b"", Truncated { at: 2 }),
    // offsets count from the front of the input
    (b"P4\n8 1\n\0\0", 1, b"\0", Magic { at: 8 }),
    (b"P4\n8 1\n\0\n", 1, b"\0", Magic { at: 8 }),
    (b"P4\n8 1\n\0P", 1, b"\0", Magic { at: 9 }),
    (b"P4\n8 1\n\0P5", 1, b"\0", Magic { at: 9 }),
    (b"P4\n8 1\n\0P4", 1, b"\0", Truncated { at: 10 }),
    (
        b"P4\n8 1\n\0P4\n16 2\n\x01\x02\x03",
        1,
        b"\0\x01\x02",
        Truncated { at: 19 },
    ),
    (b"P4\n8 1\n\0P4\n8 x", 1, b"\0", Header { at: 13 }),
    (b"P4\n8 1\n\0P4\n0 1\n", 1, b"\0", PageFault::ZeroSize),
    (
        b"P4\n8 1\n\0P4\n8193 1\n",
        1,
        b"\0",
        TooLarge {
            width: 8193,
            height: 1,
        },
    ),
    (
        b"P4\n8 1\n\0P4\n8 1\n\0P4\n8 1#",
        2,
        b"\0\0",
        Header { at: 22 },
    ),
];

// Reads an input in pieces of each of three sizes.
fn read_in_pieces(
    rt: &impl Abort,
    alloc: Global,
    input: &[u8],
    count: u32,
    bytes: &[u8],
    last: Result<Option<Size>, PageFault>,
) -> Result<(), Fail> {
    for piece in [1, 3, 65_536] {
        let mut reading = reader_of(alloc, input, piece, &[])?;
        let answer = reading.read(alloc);
        assert_eq!(rt; answer, last, "{input:?}, piece {piece}");
        assert_eq!(rt; reading.images.count(), count, "{input:?}, piece {piece}");
        assert_eq!(rt;
            reading.rows.bytes.as_slice(),
            bytes,
            "{input:?}, piece {piece}"
        );
    }
    Ok(())
}

#[test]
fn images_are_given_one_after_the_other(rt: HostRuntime) -> Result<(), Fail> {
    for (input, count, bytes) in INPUTS {
        read_in_pieces(&rt, rt.alloc(), input, count, bytes, Ok(None))?;
    }
    for (input, count, bytes, fault) in REFUSED {
        read_in_pieces(&rt, rt.alloc(), input, count, bytes, Err(fault))?;
    }
    Ok(())
}

#[test]
fn an_input_has_256_images_at_most(rt: HostRuntime) -> Result<(), Fail> {
    let cases: [(usize, &[u8], Result<Option<Size>, PageFault>); 3] = [
        (256, b"", Ok(None)),
        (257, b"", Err(PageFault::TooManyImages)),
        (256, b" ", Err(PageFault::TooManyImages)),
    ];
    for (images, rest, last) in cases {
        let mut input = Vec::new(rt.alloc());
        for _ in 0..images {
            input.extend_from_slice(b"P4\n8 1\n\0")?;
        }
        input.extend_from_slice(rest)?;
        let mut reading = reader_of(rt.alloc(), &input, 4096, &[])?;
        let answer = reading.read(rt.alloc());
        assert_eq!(rt; answer, last, "{images}, {rest:?}");
        assert_eq!(rt; reading.images.count(), 256, "{images}, {rest:?}");
    }
    Ok(())
}

// The most bytes of a read, the reads that fail, how many images were whole, and how many reads there were.
const READS: [(usize, &[u64], u32, Result<Option<Size>, PageFault>, u64); 6] = [
    // what is held settles the second image
    (65_536, &[], 2, Ok(None), 2),
    (8, &[], 2, Ok(None), 3),
    // a read fails behind an image, in an image, and at the front
    (8, &[1], 1, Err(PageFault::ReadFault), 2),
    (9, &[1], 1, Err(PageFault::ReadFault), 2),
    (8, &[2], 2, Err(PageFault::ReadFault), 3),
    (8, &[0], 0, Err(PageFault::ReadFault), 1),
];

#[test]
fn no_more_is_read_than_the_answers_want(rt: HostRuntime) -> Result<(), Fail> {
    for (piece, fails, count, last, reads) in READS {
        let mut reading = reader_of(rt.alloc(), b"P4\n8 1\n\0P4\n8 1\n\0", piece, fails)?;
        let answer = reading.read(rt.alloc());
        assert_eq!(rt; answer, last, "{piece}, {fails:?}");
        assert_eq!(rt; reading.images.count(), count, "{piece}, {fails:?}");
        assert_eq!(rt; reading.src.calls, reads, "{piece}, {fails:?}");
    }
    Ok(())
}

// A reader that gives single bytes of its source.
#[derive(Drop)]
struct Bytes {
    images: Images,
    src: MemSource,
    ghost ended: { images.has_ended ≡ true → IsAtEnd (⟦<MemSource as Source>⟧.view src).left },
}

impl Bytes {
    // The bytes that an open reader gives, 100 calls at most.
    fn read(&mut self, alloc: Global) -> Result<Vec<u8>, Fail> {
        let mut bytes = Vec::new(alloc);
        for _ in 0..100 {
            if !self.images.is_open() {
                return Ok(bytes);
            }
            if let Ok(Some(byte)) = self.images.byte(&mut self.src) {
                bytes.push(byte)?;
            }
        }
        Ok(bytes)
    }
}

#[test]
fn bytes_go_on_behind_an_image(rt: HostRuntime) -> Result<(), Fail> {
    for piece in [1, 3, 65_536] {
        let input = b"P4\n8 1\n\0layout-cuts 1\n";
        let mut src = MemSource::new(input.to_vec(rt.alloc())?, piece, Vec::new(rt.alloc()));
        let mut rows = Rows::new(rt.alloc(), u16::MAX);
        let mut images = Images::new(rt.alloc())?;
        let first = images.next(rt.alloc(), &mut src, &mut rows);
        assert_eq!(rt; first, size(8, 1).map(Some));
        let mut rest = Bytes { images, src };
        let bytes = rest.read(rt.alloc())?;
        assert_eq!(rt;
            bytes.as_slice(),
            b"layout-cuts 1\n".as_slice(),
            "piece {piece}"
        );
        assert_eq!(rt; rest.images.count(), 1);
        assert!(rt; !rest.images.is_open());
    }
    Ok(())
}

#[test]
fn an_input_of_images_ends_within_268435456_bytes(rt: HostRuntime) -> Result<(), Fail> {
    let cases: [(&[u8], u64, Result<Option<Size>, PageFault>); 4] = [
        (b"P1\n1 1\n0", 268_435_456, size(1, 1).map(Some)),
        (b"P1\n1 1\n0", 268_435_457, Err(PageFault::InputTooLong)),
        (
            b"P1\n1 1\n",
            268_435_456,
            Err(PageFault::Truncated { at: 268_435_456 }),
        ),
        (b"P1\n1 1\n", 268_435_457, Err(PageFault::InputTooLong)),
    ];
    for (front, len, result) in cases {
        let mut src = Spaces::new(front.to_vec(rt.alloc())?, len, usize::MAX);
        let mut rows = Rows::new(rt.alloc(), u16::MAX);
        let mut images = Images::new(rt.alloc())?;
        let answer = images.next(rt.alloc(), &mut src, &mut rows);
        assert_eq!(rt; answer, result, "{front:?}, {len}");
    }
    Ok(())
}
