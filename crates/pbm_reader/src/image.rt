//! One image of an input that may have several.
ghost use Rattle.std.specs.Prelude.{◌≡◌, ◌≤◌, ◌⊎◌, ◌+◌, false, List, [], ◌++◌, length, IfOk, IfErr, IfSome, IfNone, OnErr};
ghost use Rattle.layout_outside.specs.Views.{SourceView};
ghost use Rattle.layout_outside.specs.Taken.{Took, TookAll};
ghost use Rattle.pbm_reader.specs.Spelling.{magic};
ghost use Rattle.pbm_reader.specs.Fault.{HasLowPlace};
ghost use Rattle.pbm_reader.specs.Given.{AfterFault};
ghost use Rattle.pbm_reader.specs.Tail.{TookBehind, BehindFails};
ghost use Rattle.pbm_reader.specs.Feed.{is_limited, unseen, whole};
ghost use Rattle.pbm_reader.specs.Reading.{HasReadCause};
ghost use Rattle.pbm_reader.specs.Reader.{ImageFails, MayBe, MayBegin, TookImage};
ghost use Rattle.pbm_reader.specs.Images.{AreUndecided};
ghost use Rattle.pbm_reader.specs.Held.{IsNamePart, IsOfHeld, ReadsNothing, StaysInside, TookHeld};
ghost use Rattle.pbm_reader.specs.declared.form.Form.TheVariants.{Raw};

use crate::fault::{PageFault, Size};
use crate::feed::{Feed, Piece};
use crate::form::Form;
use crate::header::read_name;
use crate::limits::MAX_INPUT;
use crate::row_sink::RowSink;
use crate::rows::read_rows;
use crate::tail::read_tail;
use layout_outside::Source;
use std::alloc::Global;
use std::mem;

/// An image that was read, and how many bytes it takes.
#[derive(Debug, Clone, Copy, PartialEq, Eq, Drop)]
pub struct Image {
    pub form: Form,
    pub size: Size,
    /// In bytes, up to the end of the input where the image is plain.
    pub len: u64,
}

/// Reads the name of an image's form. The input may end before it only where it is not the first.
fn read_image_name<S: Source>(
    feed: &mut Feed<'_, S>,
    is_first: bool,
) -> Result<Option<Form>, PageFault>
    ensures name { IfOk result (λ name. IfSome name (λ form. Took feed.old.source feed.new.source (magic form) × MayBe is_first form)) }
    ensures end { IfOk result (λ name. IfNone name (TookAll feed.old.source feed.new.source [] × (is_first ≡ false))) }
    ensures fault { IfErr result (ImageFails is_first feed.old.source feed.new.source) }
    ensures low { IfErr result HasLowPlace }
    ensures held { IfOk result (λ name. IfSome name (λ form. TookHeld feed.old feed.new (magic form) ⊎ IsNamePart feed.old.unread)) }
    ensures none { IfOk result (λ name. IfNone name (IsNamePart feed.old.unread)) }
    ensures stays { IfErr result (λ fault. StaysInside feed.old feed.new (length feed.old.unread) fault ⊎ IsNamePart feed.old.unread) }
    ensures drained { result ≡ Err PageFault.ReadFault → feed.new.unread ≡ [] }
    ensures same { feed.new.borrow ≡ feed.old.borrow }
    ensures cause { HasReadCause feed.old.source feed.new.source result }
{
    match read_name(feed)? {
        None if is_first => Err(PageFault::Magic { at: 0 }),
        Some(Form::Plain) if !is_first => Err(PageFault::Magic { at: 1 }),
        name => Ok(name),
    }
}

/// Reads what belongs to an image behind its raster, and answers the offset of its end: behind a raw
/// raster nothing, behind a plain one all of the input.
fn read_behind<S: Source>(feed: &mut Feed<'_, S>, form: Form, start: u64) -> Result<u64, PageFault>
    requires low { start ≤ MAX_INPUT }
    ensures ok { IfOk result (TookBehind feed.old.source feed.new.source form start) }
    ensures fault { IfErr result (BehindFails feed.old.source feed.new.source form start) }
    ensures nothing { form ≡ Raw → (feed.new ≡ feed.old) × OnErr result ⊥ }
    ensures drained { result ≡ Err PageFault.ReadFault → feed.new.unread ≡ [] }
    ensures same { feed.new.borrow ≡ feed.old.borrow }
    ensures cause { HasReadCause feed.old.source feed.new.source result }
{
    match form {
        Form::Plain => read_tail(feed, form, start),
        Form::Raw => Ok(start),
    }
}

/// Reads an image, behind the name of its form, and gives its rows to the sink.
fn read_named<S: Source, R: RowSink>(
    alloc: Global,
    feed: &mut Feed<'_, S>,
    form: Form,
    is_first: bool,
    rows: &mut R,
) -> Result<Image, PageFault>
    requires place { MayBe is_first form }
    ensures image { IfOk result (λ image. (first : SourceView) → Took first feed.old.source (magic form)
        → TookImage R.begun R.given first feed.new.source rows.old rows.new image) }
    ensures form { IfOk result (λ image. image.form ≡ form) }
    ensures fault { IfErr result (λ fault. (first : SourceView) → Took first feed.old.source (magic form)
        → ImageFails is_first first feed.new.source fault) }
    ensures low { IfErr result HasLowPlace }
    ensures top { IfErr result (λ fault. (first : SourceView) → Took first feed.old.source (magic form)
        → AfterFault R.begun R.given R.unchanged first feed.new.source rows.old rows.new fault) }
    ensures held { form ≡ Raw → ReadsNothing feed.old feed.new (2 + length feed.old.unread) result
        ⊎ AreUndecided (magic form ++ feed.old.unread) }
    ensures drained { result ≡ Err PageFault.ReadFault → feed.new.unread ≡ [] }
    ensures same { feed.new.borrow ≡ feed.old.borrow }
    ensures cause { HasReadCause feed.old.source feed.new.source result }
{
    let read = read_rows(alloc, feed, form, rows)?;
    let len = read_behind(feed, form, read.end)?;
    Ok(Image {
        form,
        size: read.header.size,
        len,
    })
}

/// Reads the next image and gives its rows to the sink, or answers none where the input ends. It does
/// not end before the first image.
pub(crate) fn read_image<S: Source, R: RowSink>(
    alloc: Global,
    feed: &mut Feed<'_, S>,
    is_first: bool,
    rows: &mut R,
) -> Result<Option<Image>, PageFault>
    ensures image { IfOk result (λ read. IfSome read (λ image. MayBe is_first image.form
        × TookImage R.begun R.given feed.old.source feed.new.source rows.old rows.new image)) }
    ensures end { IfOk result (λ read. IfNone read (TookAll feed.old.source feed.new.source []
        × (is_first ≡ false) × (rows.new ≡ rows.old))) }
    ensures fault { IfErr result (ImageFails is_first feed.old.source feed.new.source) }
    ensures low { IfErr result HasLowPlace }
    ensures top { IfErr result (AfterFault R.begun R.given R.unchanged feed.old.source feed.new.source rows.old rows.new) }
    // Where what is held has the image whole, or decides a fault, nothing is read.
    ensures held { is_first ≡ false → ((feed.new.own ≡ feed.old.own) × IsOfHeld (length feed.old.unread) result)
        ⊎ (AreUndecided feed.old.unread × MayBegin is_first feed.old.unread) }
    ensures drained { result ≡ Err PageFault.ReadFault → feed.new.unread ≡ [] }
    ensures same { feed.new.borrow ≡ feed.old.borrow }
    ensures cause { HasReadCause feed.old.source feed.new.source result }
{
    let Some(form) = read_image_name(feed, is_first)? else {
        return Ok(None);
    };
    let image = read_named(alloc, feed, form, is_first, rows)?;
    Ok(Some(image))
}

/// Reads the next image of a source behind the unread bytes of a piece, within what the piece may
/// read.
pub(crate) fn read_of_piece<S: Source, R: RowSink>(
    alloc: Global,
    src: &mut S,
    piece: &mut Piece,
    is_first: bool,
    rows: &mut R,
) -> Result<Option<Image>, PageFault>
    ensures image { IfOk result (λ read. IfSome read (λ image. MayBe is_first image.form
        × TookImage R.begun R.given (whole piece.old (S.view src.old)) (whole piece.new (S.view src.new)) rows.old rows.new image)) }
    ensures end { IfOk result (λ read. IfNone read (TookAll (whole piece.old (S.view src.old)) (whole piece.new (S.view src.new)) []
        × (is_first ≡ false) × (rows.new ≡ rows.old))) }
    ensures fault { IfErr result (ImageFails is_first (whole piece.old (S.view src.old)) (whole piece.new (S.view src.new))) }
    ensures low { IfErr result HasLowPlace }
    ensures top { IfErr result (AfterFault R.begun R.given R.unchanged (whole piece.old (S.view src.old))
        (whole piece.new (S.view src.new)) rows.old rows.new) }
    ensures held { is_first ≡ false → ((src.new ≡ src.old) × IsOfHeld (length piece.old.unread) result)
        ⊎ (AreUndecided piece.old.unread × MayBegin is_first piece.old.unread) }
    ensures drained { result ≡ Err PageFault.ReadFault → piece.new.unread ≡ [] }
    ensures unseen { unseen piece.new.room (S.view src.new) ≡ unseen piece.old.room (S.view src.old) }
    ensures limited { is_limited piece.new.room ≡ is_limited piece.old.room }
    ensures space { piece.new.space ≡ piece.old.space }
    ensures cause { HasReadCause (S.view src.old) (S.view src.new) result }
{
    let own = mem::replace(piece, Piece::closed(alloc));
    let mut feed = Feed::new(src, own);
    let result = read_image(alloc, &mut feed, is_first, rows);
    feed.close(piece);
    result
}
