//! What an answer says that was read within the limit of an input: of the whole input, unless it
//! stands at the limit and the input goes on.
ghost use Rattle.std.specs.Prelude.{◌≡◌, ◌≤◌, ◌<◌, ◌+◌, ◌-◌, ◌⊎◌, ◌↔◌, ℕ, true, false, List, [], ◌∷◌, length, Some, None, Ok, Err};
ghost use Rattle.std.specs.Prelude.{IfOk, IfErr, IfSome, IfNone, OnErr, IsTrue, IsFalse};
ghost use Rattle.layout_outside.specs.Taken.{HasEnded, HasSourceCause, Took};
ghost use Rattle.pbm_reader.specs.declared.limits.TheConstants.{MAX_INPUT};
ghost use Rattle.pbm_reader.specs.declared.image.Image.{Image};
ghost use Rattle.pbm_reader.specs.declared.fault.PageFault.TheVariants.{InputTooLong};
ghost use Rattle.pbm_reader.specs.Fault.{HasLowPlace};
ghost use Rattle.pbm_reader.specs.Feed.{is_limited, whole};
ghost use Rattle.pbm_reader.specs.Reading.{HasReadCause};
ghost use Rattle.pbm_reader.specs.Reader.{counted_from, MayBegin, ReadsWithin, StandsAtEnd};
ghost use Rattle.pbm_reader.specs.Images.{AreUndecided};

use crate::fault::PageFault;
use crate::feed::Piece;
use crate::form::Form;
use crate::image::{Image, read_of_piece};
use crate::limits::MAX_INPUT;
use crate::row_sink::RowSink;
use layout_outside::{Failed, Source};
use std::alloc::Global;

/// An image of an input or its end, or why there is neither.
type Answer = Result<Option<Image>, PageFault>;

/// The answer where the image and what is unread behind it are within so many bytes, which no source
/// that tells its bytes goes past. Behind another answer nothing stays unread.
fn within(answer: Answer, piece: &mut Piece, left: u64) -> Answer
    ensures image { IfOk result (λ read. IfSome read (λ image. (answer ≡ Ok (Some image)) × (piece.new.unread ≡ piece.old.unread)
        × (image.len + length piece.new.unread ≤ left))) }
    ensures none { IfOk result (λ read. IfNone read ((answer ≡ Ok None) × (piece.new.unread ≡ []))) }
    ensures fault { IfErr result (λ fault. (piece.new.unread ≡ []) × ((answer ≡ Err fault)
        ⊎ ((fault ≡ InputTooLong) × ((image : Image) × (answer ≡ Ok (Some image)) × (left < image.len + length piece.old.unread))))) }
    ensures room { piece.new.room ≡ piece.old.room }
    ensures space { piece.new.space ≡ piece.old.space }
{
    if let Ok(Some(image)) = answer {
        if image.len <= left && piece.len() as u64 <= left - image.len {
            return answer;
        }
    }
    piece.clear();
    match answer {
        Ok(Some(_)) => Err(PageFault::InputTooLong),
        answer => answer,
    }
}

/// Reads the next image of a source behind the unread bytes of a piece, within the limit of an input
/// of which so many bytes were judged.
pub(crate) fn read_within<S: Source, R: RowSink>(
    alloc: Global,
    src: &mut S,
    piece: &mut Piece,
    judged: u64,
    is_first: bool,
    rows: &mut R,
) -> Answer
    requires space { 0 < piece.old.space }
    requires low { judged + length piece.old.unread ≤ MAX_INPUT }
    ensures reads { ReadsWithin R.begun R.given R.unchanged is_first (MAX_INPUT - judged) piece.old piece.new
        (S.view src.old) (S.view src.new) rows.old rows.new result }
    // Where what is held has the image whole, or decides a fault, nothing is read.
    ensures held { is_first ≡ false → ((src.new ≡ src.old) × (StandsAtEnd (MAX_INPUT - judged) result → ⊥))
        ⊎ (AreUndecided piece.old.unread × MayBegin is_first piece.old.unread) }
    ensures limited { is_limited piece.new.room ≡ true }
    ensures space { piece.new.space ≡ piece.old.space }
    ensures cause { HasReadCause (S.view src.old) (S.view src.new) result }
{
    let left = MAX_INPUT - judged;
    piece.limit(left - piece.len() as u64);
    let answer = read_of_piece(alloc, src, piece, is_first, rows);
    within(answer, piece, left)
}

/// Whether the answer stands at the end of what may be read, so many bytes, and would be another if
/// the input went on.
fn stands_at_end(answer: &Answer, left: u64) -> bool
    ensures { IsTrue result ↔ StandsAtEnd left answer.now }
{
    match answer {
        Ok(None) => true,
        Ok(Some(image)) => matches!(image.form, Form::Plain),
        Err(PageFault::Truncated { at } | PageFault::Magic { at }) => *at == left,
        Err(_) => false,
    }
}

/// Whether the input goes on behind an answer that stands at the end of what may be read.
pub(crate) fn goes_past<S: Source>(
    piece: &mut Piece,
    src: &mut S,
    answer: &Answer,
    left: u64,
) -> Result<bool, Failed>
    requires space { 0 < piece.old.space }
    requires limited { is_limited piece.old.room ≡ true }
    ensures more { IfOk result (λ more. IsTrue more → StandsAtEnd left answer.now
        × ((byte : ℕ) × Took (S.view src.old) (S.view src.new) (byte ∷ []))) }
    ensures none { IfOk result (λ more. IsFalse more → Took (S.view src.old) (S.view src.new) []) }
    ensures ended { IfOk result (λ more. IsFalse more → StandsAtEnd left answer.now → HasEnded (whole piece.old (S.view src.old))
        → HasEnded (S.view src.new)) }
    ensures err { OnErr result (StandsAtEnd left answer.now × Took (S.view src.old) (S.view src.new) []) }
    ensures quiet { (StandsAtEnd left answer.now → ⊥) → src.new ≡ src.old }
    ensures unread { piece.new.unread ≡ piece.old.unread }
    ensures space { piece.new.space ≡ piece.old.space }
    ensures cause { HasSourceCause (S.view src.old) (S.view src.new) result }
{
    if !stands_at_end(answer, left) || !piece.is_spent() {
        return Ok(false);
    }
    piece.goes_on(src)
}

/// The answer, with the offset of its fault counted from so many bytes further to the front.
pub(crate) fn counted_from(len: u64, answer: Answer) -> Answer
    requires place { IfErr answer HasLowPlace }
    requires len { len ≤ MAX_INPUT }
    ensures { result ≡ counted_from len answer }
{
    match answer {
        Ok(read) => Ok(read),
        Err(fault) => Err(fault.behind(len)),
    }
}
