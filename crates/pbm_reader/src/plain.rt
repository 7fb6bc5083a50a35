//! A row of a plain raster, in which a pixel is a character.
ghost use Rattle.std.specs.Prelude.{◌≡◌, ◌≤◌, ◌<◌, ◌+◌, ◌/◌, ◌==◌, ℕ, List, [], ◌∷◌, length, IfOk, IfErr, OnOk, OnErr, if◌then◌else◌};
ghost use Rattle.pbm_reader.specs.Page.{pixel, row_len};
ghost use Rattle.pbm_reader.specs.Reading.{HasReadCause};
ghost use Rattle.pbm_reader.specs.Plain.{pixel_step, bit_of, PixelsFail, TookPixels, TookRow};

use crate::fault::PageFault;
use crate::feed::Feed;
use crate::form::{is_line_end, is_white};
use crate::limits::MAX_INPUT;
use layout_outside::Source;
use packed_rows::{set_pixel, whiten};

/// A pixel, and the offset behind its character.
#[derive(Debug, Clone, Copy, PartialEq, Eq, Drop)]
pub struct Pixel {
    pub is_black: bool,
    pub end: u64,
}

/// What a byte before a pixel, or that of the pixel, is.
#[derive(Debug, Clone, Copy, PartialEq, Eq, Drop)]
pub enum PixelStep {
    /// A white byte, or one of a comment, and whether the comment goes on behind it.
    Blank(bool),
    /// The character of a pixel, and whether this is black.
    Found(bool),
    /// A byte that cannot stand here.
    Wrong,
}

/// What the byte is, in a comment or outside of comments.
fn pixel_step(in_comment: bool, byte: u8) -> PixelStep
    ensures { result ≡ pixel_step in_comment byte }
{
    if in_comment {
        return PixelStep::Blank(!is_line_end(byte));
    }
    match byte {
        b'0' => PixelStep::Found(false),
        b'1' => PixelStep::Found(true),
        b'#' => PixelStep::Blank(true),
        _ if is_white(byte) => PixelStep::Blank(false),
        _ => PixelStep::Wrong,
    }
}

/// Reads the next pixel, before which white bytes and comments may stand, from this offset on.
fn next_pixel<S: Source>(feed: &mut Feed<'_, S>, start: u64) -> Result<Pixel, PageFault>
    requires low { start ≤ MAX_INPUT }
    ensures pixel { IfOk result (λ pixel. TookPixels feed.old.source
        feed.new.source start pixel.end (bit_of pixel.is_black ∷ [])) }
    ensures fault { IfErr result (PixelsFail feed.old.source feed.new.source start 1) }
    ensures drained { result ≡ Err PageFault.ReadFault → feed.new.unread ≡ [] }
    ensures same { feed.new.borrow ≡ feed.old.borrow }
    ensures cause { HasReadCause feed.old.source feed.new.source result }
{
    let mut in_comment = false;
    for at in start..MAX_INPUT {
        let Some(byte) = feed.next_byte()? else {
            return Err(PageFault::Truncated { at });
        };
        match pixel_step(in_comment, byte) {
            PixelStep::Blank(goes_on) => in_comment = goes_on,
            PixelStep::Found(is_black) => {
                return Ok(Pixel {
                    is_black,
                    end: at + 1,
                });
            }
            PixelStep::Wrong => return Err(PageFault::Pixel { at }),
        }
    }
    match feed.next_byte()? {
        Some(_) => Err(PageFault::InputTooLong),
        None => Err(PageFault::Truncated { at: MAX_INPUT }),
    }
}

/// Gives a white pixel of a packed row its value.
fn put_pixel(row: &mut [u8], x: u16, is_black: bool)
    requires within { x / 8 < length row.old }
    requires white { pixel row.old x ≡ 0 }
    ensures len { length row.new ≡ length row.old }
    ensures pixels { (k : ℕ) → pixel row.new k ≡ (if k == x then bit_of is_black else pixel row.old k) }
{
    if is_black {
        set_pixel(row, x);
    }
}

/// Reads the pixels of a row, which begin at this offset, packs them, and answers the offset of
/// their end.
pub(crate) fn fill_pixels<S: Source>(
    feed: &mut Feed<'_, S>,
    row: &mut [u8],
    width: u16,
    start: u64,
) -> Result<u64, PageFault>
    requires low { start ≤ MAX_INPUT }
    requires len { length row.old ≡ row_len width }
    ensures ok { IfOk result (λ end. TookRow feed.old.source
        feed.new.source start end width row.new) }
    ensures fault { IfErr result (PixelsFail feed.old.source
        feed.new.source start width) }
    ensures len { length row.new ≡ length row.old }
    ensures drained { result ≡ Err PageFault.ReadFault → feed.new.unread ≡ [] }
    ensures same { feed.new.borrow ≡ feed.old.borrow }
    ensures cause { HasReadCause feed.old.source feed.new.source result }
{
    whiten(row);
    let mut at = start;
    for x in 0..width {
        let pixel = next_pixel(feed, at)?;
        put_pixel(row, x, pixel.is_black);
        at = pixel.end;
    }
    Ok(at)
}
