//! What stands behind the raster of a page.
ghost use Rattle.std.specs.Prelude.{◌≡◌, ◌≤◌, ◌↔◌, [], ◌∷◌, IsTrue, IfOk, IfErr};
ghost use Rattle.pbm_reader.specs.Spelling.{MayFollow};
ghost use Rattle.pbm_reader.specs.Reading.{HasReadCause};
ghost use Rattle.pbm_reader.specs.Tail.{RestFails, TailFails, TookRest, TookTail};

use crate::fault::PageFault;
use crate::feed::Feed;
use crate::form::{Form, is_white};
use crate::limits::MAX_INPUT;
use layout_outside::Source;

/// Reads the rest of an input, from this offset on, to its end, drops it, and answers the offset of
/// its end.
fn skip_rest<S: Source>(feed: &mut Feed<'_, S>, start: u64) -> Result<u64, PageFault>
    requires low { start ≤ MAX_INPUT }
    ensures ok { IfOk result (TookRest feed.old.source feed.new.source start) }
    ensures fault { IfErr result (RestFails feed.old.source feed.new.source start) }
    ensures drained { result ≡ Err PageFault.ReadFault → feed.new.unread ≡ [] }
    ensures same { feed.new.borrow ≡ feed.old.borrow }
    ensures cause { HasReadCause feed.old.source feed.new.source result }
{
    let mut left = MAX_INPUT - start;
    loop {
        let count = feed.drop_bytes()? as u64;
        if count == 0 {
            return Ok(MAX_INPUT - left);
        }
        if count > left {
            return Err(PageFault::InputTooLong);
        }
        left -= count;
    }
}

/// Whether the byte may stand behind a raster of this form.
fn may_follow(form: Form, byte: u8) -> bool
    ensures { IsTrue result ↔ MayFollow form (byte ∷ []) }
{
    match form {
        Form::Plain => is_white(byte),
        Form::Raw => false,
    }
}

/// Reads what stands behind a raster, which ends at this offset, to the end of the input, and answers
/// the offset of this.
pub(crate) fn read_tail<S: Source>(
    feed: &mut Feed<'_, S>,
    form: Form,
    start: u64,
) -> Result<u64, PageFault>
    requires low { start ≤ MAX_INPUT }
    ensures ok { IfOk result (TookTail feed.old.source feed.new.source form start) }
    ensures fault { IfErr result (TailFails feed.old.source feed.new.source form start) }
    ensures drained { result ≡ Err PageFault.ReadFault → feed.new.unread ≡ [] }
    ensures same { feed.new.borrow ≡ feed.old.borrow }
    ensures cause { HasReadCause feed.old.source feed.new.source result }
{
    let Some(byte) = feed.next_byte()? else {
        return Ok(start);
    };
    if start == MAX_INPUT {
        return Err(PageFault::InputTooLong);
    }
    if !may_follow(form, byte) {
        return Err(PageFault::Trailing { at: start });
    }
    skip_rest(feed, start + 1)
}
