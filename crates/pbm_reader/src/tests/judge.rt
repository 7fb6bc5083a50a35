//! A plain program that judges a short input as a whole: what the header and the raster are made of,
//! one part after the other, with no limit but those of the sizes.
ghost use Rattle.std.specs.Prelude.{◌≡◌, ◌≤◌, length, IfOk};

use crate::{PageFault, Size};

// What a part of an input is, and where it ends.
#[derive(Drop)]
struct Part {
    value: u64,
    end: usize,
}

fn is_white(byte: u8) -> bool {
    byte == b' ' || byte == b'\t' || byte == b'\r' || byte == b'\n'
}

// Where white bytes and comments from here on end, or the fault where a comment has no end.
fn blank_end(input: &[u8], start: usize) -> Result<usize, PageFault> {
    let mut in_comment = false;
    for at in start..input.len() {
        let byte = input[at];
        if in_comment {
            in_comment = byte != b'\r' && byte != b'\n';
        } else if byte == b'#' {
            in_comment = true;
        } else if !is_white(byte) {
            return Ok(at);
        }
    }
    Err(PageFault::Truncated {
        at: input.len() as u64,
    })
}

// A number, behind one or more white bytes and comments.
fn number(input: &[u8], start: usize) -> Result<Part, PageFault> {
    let first = blank_end(input, start)?;
    let mut value: u64 = 0;
    for at in first..input.len() {
        let byte = input[at];
        if !byte.is_ascii_digit() {
            if at == start || at == first {
                return Err(PageFault::Header { at: at as u64 });
            }
            return Ok(Part { value, end: at });
        }
        if first == start {
            return Err(PageFault::Header { at: at as u64 });
        }
        value = value
            .saturating_mul(10)
            .saturating_add(u64::from(byte - b'0'));
    }
    Err(PageFault::Truncated {
        at: input.len() as u64,
    })
}

// The sizes that a page can have.
fn page_size(width: u64, height: u64) -> Result<Size, PageFault> {
    if width == 0 || height == 0 {
        return Err(PageFault::ZeroSize);
    }
    if width > 8192 || height > 8192 || width * height > 33_554_432 {
        return Err(PageFault::TooLarge {
            width: width.min(999_999_999) as u32,
            height: height.min(999_999_999) as u32,
        });
    }
    Ok(Size {
        width: width as u16,
        height: height as u16,
    })
}

// Where so many pixels end.
fn pixels_end(input: &[u8], start: usize, count: u64) -> Result<usize, PageFault> {
    let mut at = start;
    for _ in 0..count {
        let place = blank_end(input, at)?;
        if place >= input.len() || (input[place] != b'0' && input[place] != b'1') {
            return Err(PageFault::Pixel { at: place as u64 });
        }
        at = place.saturating_add(1);
    }
    Ok(at)
}

pub fn judged(input: &[u8]) -> Result<Size, PageFault> {
    if input.first() != Some(&b'P') {
        return Err(PageFault::Magic { at: 0 });
    }
    let is_plain = input.get(1) == Some(&b'1');
    if !is_plain && input.get(1) != Some(&b'4') {
        return Err(PageFault::Magic { at: 1 });
    }
    let width = number(input, 2)?;
    let height = number(input, width.end)?;
    match input.get(height.end) {
        Some(byte) if is_white(*byte) => {}
        _ => {
            return Err(PageFault::Header {
                at: height.end as u64,
            });
        }
    }
    let size = page_size(width.value, height.value)?;
    let raster = height.end.saturating_add(1);
    let total = input.len() as u64;
    if is_plain {
        let end = pixels_end(
            input,
            raster,
            u64::from(size.width) * u64::from(size.height),
        )?;
        match input.get(end) {
            Some(byte) if !is_white(*byte) => Err(PageFault::Trailing { at: end as u64 }),
            _ => Ok(size),
        }
    } else {
        let row = (u64::from(size.width) + 7) / 8;
        let end = (raster as u64).saturating_add(row * u64::from(size.height));
        if total < end {
            Err(PageFault::Truncated { at: total })
        } else if total > end {
            Err(PageFault::Trailing { at: end })
        } else {
            Ok(size)
        }
    }
}
