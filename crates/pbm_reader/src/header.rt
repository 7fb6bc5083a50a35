//! The header of a page.
ghost use Rattle.std.specs.Prelude.{◌≡◌, ◌≤◌, ◌<◌, ◌⊎◌, ◌+◌, ◌^◌, List, [], ◌++◌, length, ℕ, IfOk, IfErr, IfSome, IfNone};
ghost use Rattle.pbm_reader.specs.Page.{IsPageSize};
ghost use Rattle.pbm_reader.specs.Reading.{HasReadCause, Refuses};
ghost use Rattle.layout_outside.specs.Views.{SourceView};
ghost use Rattle.layout_outside.specs.Taken.{HasEnded, Took, TookAll};
ghost use Rattle.pbm_reader.specs.Spelling.{magic};
ghost use Rattle.pbm_reader.specs.Header.{wrong_byte, missing_byte, IsOfHeader, NameFails, TookHeader};
ghost use Rattle.pbm_reader.specs.Fault.{HasLowPlace, IsSizeFault};
ghost use Rattle.pbm_reader.specs.Images.{AreUndecided};
ghost use Rattle.pbm_reader.specs.Held.{IsNamePart, StaysInside, TookHeld, TookHeldSizes};

use crate::fault::{PageFault, Size};
use crate::feed::Feed;
use crate::form::{Form, form_of};
use crate::limits::MAX_HEADER;
use crate::state::{HeaderState, next_state};
use layout_limits::{MAX_PIXELS, MAX_SIDE};
use layout_outside::Source;

/// A header that a page can have, and how many bytes it takes.
#[derive(Debug, Clone, Copy, PartialEq, Eq, Drop)]
pub struct Header {
    pub form: Form,
    pub size: Size,
    /// In bytes.
    pub len: u64,
}

/// The fault where a header is read so far and has no such byte at this offset.
fn wrong_byte(state: HeaderState, at: u64) -> PageFault
    ensures { result ≡ wrong_byte state at }
{
    match state {
        HeaderState::Magic | HeaderState::Kind => PageFault::Magic { at },
        _ => PageFault::Header { at },
    }
}

/// The fault where the input ends at this offset.
fn missing_byte(state: HeaderState, at: u64) -> PageFault
    ensures { result ≡ missing_byte state at }
{
    match state {
        HeaderState::Magic | HeaderState::Kind => PageFault::Magic { at },
        _ => PageFault::Truncated { at },
    }
}

/// Reads the name of a form, or none where the input ends before it.
pub(crate) fn read_name<S: Source>(feed: &mut Feed<'_, S>) -> Result<Option<Form>, PageFault>
    ensures name { IfOk result (λ name. IfSome name (λ form. Took feed.old.source feed.new.source (magic form))) }
    ensures end { IfOk result (λ name. IfNone name (TookAll feed.old.source feed.new.source [])) }
    ensures fault { IfErr result (NameFails feed.old.source feed.new.source) }
    ensures low { IfErr result HasLowPlace }
    // Where the name is held whole, or is wrong there, nothing is read.
    ensures held { IfOk result (λ name. IfSome name (λ form. TookHeld feed.old feed.new (magic form) ⊎ IsNamePart feed.old.unread)) }
    ensures none { IfOk result (λ name. IfNone name (IsNamePart feed.old.unread)) }
    ensures stays { IfErr result (λ fault. StaysInside feed.old feed.new (length feed.old.unread) fault ⊎ IsNamePart feed.old.unread) }
    ensures drained { result ≡ Err PageFault.ReadFault → feed.new.unread ≡ [] }
    ensures same { feed.new.borrow ≡ feed.old.borrow }
    ensures cause { HasReadCause feed.old.source feed.new.source result }
{
    let Some(letter) = feed.next_byte()? else {
        return Ok(None);
    };
    if letter != b'P' {
        return Err(PageFault::Magic { at: 0 });
    }
    let Some(digit) = feed.next_byte()? else {
        return Err(PageFault::Magic { at: 1 });
    };
    match form_of(digit) {
        Some(form) => Ok(Some(form)),
        None => Err(PageFault::Magic { at: 1 }),
    }
}

/// The size of a page with these sides, or why no page has them.
fn page_size(width: u32, height: u32) -> Result<Size, PageFault>
    ensures size { IfOk result (λ size. IsPageSize width height × (size.width ≡ width) × (size.height ≡ height)) }
    ensures fault { IfErr result (IsSizeFault width height) }
{
    if width == 0 || height == 0 {
        return Err(PageFault::ZeroSize);
    }
    if width > u32::from(MAX_SIDE) || height > u32::from(MAX_SIDE) || width * height > MAX_PIXELS {
        return Err(PageFault::TooLarge { width, height });
    }
    Ok(Size {
        width: width as u16,
        height: height as u16,
    })
}

/// Reads a header, behind the name of its form, with sizes that a page can have.
pub(crate) fn read_sizes<S: Source>(feed: &mut Feed<'_, S>, form: Form) -> Result<Header, PageFault>
    ensures header { IfOk result (λ header. (first : SourceView) → Took first feed.old.source (magic form)
        → TookHeader first feed.new.source header) }
    ensures fault { IfErr result (λ fault. (first : SourceView) → Took first feed.old.source (magic form)
        → Refuses first feed.new.source fault) }
    ensures cut { result ≡ Err PageFault.ReadFault → (first : SourceView) → Took first feed.old.source (magic form)
        → (taken : List ℕ) × Took first feed.new.source taken × AreUndecided taken }
    ensures of_header { IfErr result IsOfHeader }
    ensures ended { (at : ℕ) → result ≡ Err (PageFault.Truncated at) → HasEnded feed.new.source }
    ensures form { IfOk result (λ header. header.form ≡ form) }
    // Where what is held has the header whole, or decides a fault, nothing is read.
    ensures held { IfOk result (λ header. TookHeldSizes feed.old feed.new form header ⊎ AreUndecided (magic form ++ feed.old.unread)) }
    ensures stays { IfErr result (λ fault. StaysInside feed.old feed.new (2 + length feed.old.unread) fault
        ⊎ AreUndecided (magic form ++ feed.old.unread)) }
    ensures drained { result ≡ Err PageFault.ReadFault → feed.new.unread ≡ [] }
    ensures same { feed.new.borrow ≡ feed.old.borrow }
    ensures cause { HasReadCause feed.old.source feed.new.source result }
{
    let mut state = HeaderState::Named(form);
    for at in 2..MAX_HEADER {
        let Some(byte) = feed.next_byte()? else {
            return Err(missing_byte(state, at));
        };
        let Some(next) = next_state(state, byte) else {
            return Err(wrong_byte(state, at));
        };
        if let HeaderState::Whole(_, width, height) = next {
            let size = page_size(width, height)?;
            return Ok(Header {
                form,
                size,
                len: at + 1,
            });
        }
        state = next;
    }
    match feed.next_byte()? {
        Some(_) => Err(PageFault::HeaderTooLong),
        None => Err(PageFault::Truncated { at: MAX_HEADER }),
    }
}
