//! Several images in one input, one behind the other.
ghost use Rattle.std.specs.Prelude.{◌≡◌, ◌≤◌, ◌<◌, ◌+◌, ◌==◌, ◌⊎◌, ℕ, Bool, true, false, List, [], ◌∷◌, ◌++◌, length, Some, None, Ok, Err};
ghost use Rattle.std.specs.Prelude.{IfOk, IfErr, IfSome, IfNone, OnErr, OnOk, IsOkUnless, IsTrue, IsFalse};
ghost use Rattle.std.specs.Io.KnownBytes.{prepend_known, IsAtEnd};
ghost use Rattle.layout_outside.specs.Causes.{Rose};
ghost use Rattle.layout_outside.specs.Taken.{HasEnded, HasSourceCause, Took};
ghost use Rattle.pbm_reader.specs.declared.limits.TheConstants.{MAX_IMAGES, MAX_INPUT};
ghost use Rattle.pbm_reader.specs.declared.fault.PageFault.{PageFault};
ghost use Rattle.pbm_reader.specs.Images.{behind_bytes, ArePages, HasPagesFault};
ghost use Rattle.pbm_reader.specs.Reading.{AnswersFault, HasReadCause};
ghost use Rattle.pbm_reader.specs.Reader.{coming, is_given, SettlesNext, DecidesNoFault, AfterNextFault, EndsBehind, EndsHere, GivesImage, HasSamePlace, ImagesView, IsGivenUnlessMemory, IsNextImage, Judges, RefusesByte, RefusesNext, TakesImage, TellsEnd, WereImages};

use crate::answer::{counted_from, goes_past, read_within};
use crate::fault::{PageFault, Size};
use crate::feed::Piece;
use crate::form::Form;
use crate::image::Image;
use crate::limits::{MAX_IMAGES, MAX_INPUT};
use crate::row_sink::RowSink;
use layout_limits::OutOfMemory;
use layout_outside::{Failed, Source};
use std::alloc::Global;
use std::marker::Model;

/// The images of an input one after the other: one in the plain form, or up to `MAX_IMAGES` in the raw
/// form, `MAX_INPUT` bytes in all. The source comes with each call; between calls the reader holds
/// what it read of it and has not judged.
#[derive(Drop)]
pub struct Images {
    piece: Piece,
    judged: u64,
    count: u32,
    is_open: bool,
    gave_byte: bool,
    has_ended: bool,
}

impl Model for Images {
    ghost Value = { ImagesView };

    ghost view = { λ r. record {
      judged = r.judged;
      count = r.count;
      held = r.piece.unread;
      is_open = r.is_open;
      gave_byte = r.gave_byte;
      has_ended = r.has_ended;
    } };

    // what is held stands within the limit, and an end was answered behind an image alone
    ghost invariant = { λ r. (r.judged + length r.piece.unread ≤ MAX_INPUT) × (r.count ≤ MAX_IMAGES) × (0 < r.piece.space)
        × (r.has_ended ≡ true → r.piece.unread ≡ []) × (r.has_ended ≡ true → r.gave_byte ≡ false → 0 < r.count) };
}

impl Images {
    /// A reader before the first byte. Memory is taken for one piece of the input.
    pub fn new(alloc: Global) -> Result<Images, OutOfMemory>
        ensures { IfOk result
            (λ reader. reader ≡ record { judged = 0; count = 0; held = []; is_open = true; gave_byte = false; has_ended = false }) }
    {
        Ok(Images {
            piece: Piece::new(alloc)?,
            judged: 0,
            count: 0,
            is_open: true,
            gave_byte: false,
            has_ended: false,
        })
    }

    /// Whether the reader may be called again. It is closed by a `None` and by any `Err`.
    pub fn is_open(&self) -> bool
        ensures { result ≡ self.now.is_open }
    {
        self.is_open
    }

    /// How many whole images were given.
    pub fn count(&self) -> u32
        ensures { result ≡ self.now.count }
    {
        self.count
    }

    /// Gives the rows of the next image to the sink as `read_page` does, and answers its size, or `None`
    /// at the end of the input behind an image. Of a raw image it judges the last byte and none behind
    /// it; a plain one it reads to the end of the input. Offsets count from the front of the input.
    /// Memory is taken for one row.
    pub fn next<S: Source, R: RowSink>(
        &mut self,
        alloc: Global,
        src: &mut S,
        rows: &mut R,
    ) -> Result<Option<Size>, PageFault>
        requires open { self.old.is_open ≡ true }
        requires images { self.old.gave_byte ≡ false }
        requires end { self.old.has_ended ≡ true → IsAtEnd (S.view src.old).left }
        // An image comes next; it is judged and counted, and the sink was given its page.
        ensures image { IfOk result (λ next. IfSome next (GivesImage R.begun R.given self.old self.new (S.view src.old) (S.view src.new)
            rows.old rows.new)) }
        // The input ends behind an image.
        ensures none { IfOk result (λ next. IfNone next (EndsBehind self.old self.new (S.view src.old) (S.view src.new) × (rows.new ≡ rows.old))) }
        // What comes has just this fault behind the images before it; or a read failed, and the bytes taken begin no whole image and
        // decide no fault.
        ensures fault { IfErr result (RefusesNext self.old self.new (S.view src.old) (S.view src.new)) }
        // After a fault the sink was given nothing, or top rows that the bytes before the fault spell whole.
        ensures top { IfErr result (AfterNextFault R.begun R.given R.unchanged self.old self.new (S.view src.old) (S.view src.new)
            rows.old rows.new) }
        // Where the end was answered nothing is read, and it is answered again. Nor is anything read where a byte is held behind as many
        // images as there may be.
        ensures quiet { (self.old.has_ended ≡ true) ⊎ ((self.old.count ≡ MAX_IMAGES) × (0 < length self.old.held)) → src.new ≡ src.old }
        // Behind an image nothing is read either where what is held begins with the next one whole, or decides a fault.
        ensures settled { 0 < self.old.count → SettlesNext self.old.count self.old.judged self.old.held → src.new ≡ src.old }
        ensures ended { self.old.has_ended ≡ true → result ≡ Ok None }
        ensures open { self.new.is_open ≡ is_given result }
        ensures called { self.new.gave_byte ≡ false }
        ensures count { is_given result ≡ false → self.new.count ≡ self.old.count }
        ensures end { TellsEnd self.old self.new (S.view src.new) }
        ensures cause { HasReadCause (S.view src.old) (S.view src.new) result }
        // Where an image comes next and no read failed it is given, unless memory is refused.
        ensures given { (bytes : List ℕ) → coming self.old (S.view src.old) ≡ Some bytes → IsNextImage self.old.count self.old.judged bytes
            → ¬ Rose (S.view src.old).faults (S.view src.new).faults → IsGivenUnlessMemory result }
        // Where nothing comes no image is given.
        ensures ends { coming self.old (S.view src.old) ≡ Some [] → IfOk result (λ next. next ≡ None) }
        // Where the input spells a list of pages and no read failed, the answer is no fault unless memory is refused.
        ensures complete { (images bytes : List ℕ) → WereImages self.old.count self.old.judged images
            → coming self.old (S.view src.old) ≡ Some bytes → ArePages (images ++ bytes)
            → ¬ Rose (S.view src.old).faults (S.view src.new).faults → IsOkUnless result PageFault.Memory }
        // Where it has a fault, no image comes next and no read failed, that fault is answered unless memory is refused.
        ensures faulty { (images bytes : List ℕ) (fault : PageFault) → WereImages self.old.count self.old.judged images
            → coming self.old (S.view src.old) ≡ Some bytes → HasPagesFault (images ++ bytes) fault
            → ¬ IsNextImage self.old.count self.old.judged bytes → ¬ Rose (S.view src.old).faults (S.view src.new).faults
            → AnswersFault fault result }
    {
        let result = self.next_size(alloc, src, rows);
        self.is_open = matches!(result, Ok(Some(_)));
        result
    }

    /// The next image within the limits of an input.
    fn next_size<S: Source, R: RowSink>(
        &mut self,
        alloc: Global,
        src: &mut S,
        rows: &mut R,
    ) -> Result<Option<Size>, PageFault>
        requires images { self.old.gave_byte ≡ false }
        requires end { self.old.has_ended ≡ true → IsAtEnd (S.view src.old).left }
        ensures image { IfOk result (λ next. IfSome next (GivesImage R.begun R.given self.old self.new (S.view src.old) (S.view src.new)
            rows.old rows.new)) }
        ensures none { IfOk result (λ next. IfNone next (EndsBehind self.old self.new (S.view src.old) (S.view src.new) × (rows.new ≡ rows.old))) }
        ensures fault { IfErr result (RefusesNext self.old self.new (S.view src.old) (S.view src.new)) }
        ensures top { IfErr result (AfterNextFault R.begun R.given R.unchanged self.old self.new (S.view src.old) (S.view src.new)
            rows.old rows.new) }
        ensures quiet { (self.old.has_ended ≡ true) ⊎ ((self.old.count ≡ MAX_IMAGES) × (0 < length self.old.held)) → src.new ≡ src.old }
        ensures settled { 0 < self.old.count → SettlesNext self.old.count self.old.judged self.old.held → src.new ≡ src.old }
        ensures ended { self.old.has_ended ≡ true → result ≡ Ok None }
        ensures called { self.new.gave_byte ≡ false }
        ensures count { is_given result ≡ false → self.new.count ≡ self.old.count }
        ensures end { TellsEnd self.old self.new (S.view src.new) }
        ensures cause { HasReadCause (S.view src.old) (S.view src.new) result }
        ensures bounds { (self.old.count ≤ MAX_IMAGES) × (self.old.judged ≤ MAX_INPUT) }
    {
        if self.has_ended {
            return Ok(None);
        }
        if self.count == MAX_IMAGES {
            self.end_of_images(src)?;
            return Ok(None);
        }
        let Some(image) = self.take_image(alloc, src, rows)? else {
            self.has_ended = true;
            return Ok(None);
        };
        self.judged += image.len;
        self.count += 1;
        self.has_ended = matches!(image.form, Form::Plain);
        Ok(Some(image.size))
    }

    /// Reads the end of the input behind as many images as there may be.
    fn end_of_images<S: Source>(&mut self, src: &mut S) -> Result<(), PageFault>
        requires open { self.old.has_ended ≡ false }
        requires full { self.old.count ≡ MAX_IMAGES }
        ensures end { OnOk result (IsAtEnd (coming self.old (S.view src.old)) × HasEnded (S.view src.new) × (self.new.has_ended ≡ true)) }
        ensures took { OnOk result (coming self.old (S.view src.old) ≡ coming self.new (S.view src.new)) }
        ensures fault { IfErr result (RefusesNext self.old self.new (S.view src.old) (S.view src.new)) }
        ensures no_place { IfErr result (λ fault. (len : ℕ) → fault ≡ behind_bytes len fault) }
        ensures quiet { 0 < length self.old.held → src.new ≡ src.old }
        ensures open { OnErr result (self.new.has_ended ≡ false) }
        ensures same { HasSamePlace self.old self.new }
        ensures cause { HasReadCause (S.view src.old) (S.view src.new) result }
    {
        let is_full = self.judged == MAX_INPUT;
        if self.ends_here(src)? {
            return Ok(());
        }
        if is_full {
            return Err(PageFault::InputTooLong);
        }
        Err(PageFault::TooManyImages)
    }

    /// Takes the next image, with what belongs to it, out of what is held or read within the limit.
    fn take_image<S: Source, R: RowSink>(
        &mut self,
        alloc: Global,
        src: &mut S,
        rows: &mut R,
    ) -> Result<Option<Image>, PageFault>
        requires open { self.old.has_ended ≡ false }
        requires few { self.old.count < MAX_IMAGES }
        ensures image { IfOk result (λ read. IfSome read (TakesImage R.begun R.given self.old self.new (S.view src.old) (S.view src.new)
            rows.old rows.new)) }
        ensures none { IfOk result (λ read. IfNone read (EndsHere self.old self.new (S.view src.old) (S.view src.new)
            × (0 < self.old.count) × (rows.new ≡ rows.old))) }
        ensures fault { IfErr result (RefusesNext self.old self.new (S.view src.old) (S.view src.new)) }
        ensures top { IfErr result (AfterNextFault R.begun R.given R.unchanged self.old self.new (S.view src.old) (S.view src.new)
            rows.old rows.new) }
        ensures settled { 0 < self.old.count → (src.new ≡ src.old) ⊎ (DecidesNoFault self.old.count self.old.judged self.old.held
            × (IsNextImage self.old.count self.old.judged self.old.held → ⊥)) }
        ensures open { self.new.has_ended ≡ false }
        ensures same { HasSamePlace self.old self.new }
        ensures cause { HasReadCause (S.view src.old) (S.view src.new) result }
    {
        let is_first = self.count == 0;
        let answer = read_within(alloc, src, &mut self.piece, self.judged, is_first, rows);
        if goes_past(&mut self.piece, src, &answer, MAX_INPUT - self.judged)? {
            return Err(PageFault::InputTooLong);
        }
        counted_from(self.judged, answer)
    }

    /// Gives the next byte that was not judged, or `None` at the end of the input.
    pub fn byte<S: Source>(&mut self, src: &mut S) -> Result<Option<u8>, PageFault>
        requires open { self.old.is_open ≡ true }
        requires end { self.old.has_ended ≡ true → IsAtEnd (S.view src.old).left }
        // The byte is the next one, and is judged from now on.
        ensures byte { IfOk result (λ next. IfSome next (λ byte. Judges self.old self.new (S.view src.old) (S.view src.new) (byte ∷ []))) }
        ensures none { IfOk result (λ next. IfNone next (IsAtEnd (coming self.old (S.view src.old)) × (self.new.has_ended ≡ true))) }
        ensures fault { IfErr result (RefusesByte self.old self.new (S.view src.old) (S.view src.new)) }
        // Where a byte is held or the end was answered nothing is read.
        ensures quiet { (0 < length self.old.held) ⊎ (self.old.has_ended ≡ true) → src.new ≡ src.old }
        ensures open { self.new.is_open ≡ is_given result }
        ensures called { self.new.gave_byte ≡ true }
        ensures count { self.new.count ≡ self.old.count }
        ensures end { TellsEnd self.old self.new (S.view src.new) }
        ensures cause { HasReadCause (S.view src.old) (S.view src.new) result }
    {
        self.gave_byte = true;
        self.is_open = false;
        if self.has_ended {
            return Ok(None);
        }
        if self.judged == MAX_INPUT {
            return if self.ends_here(src)? {
                Ok(None)
            } else {
                Err(PageFault::InputTooLong)
            };
        }
        let next = self.take_byte(src)?;
        match next {
            Some(_) => {
                self.judged += 1;
                self.is_open = true;
            }
            None => self.has_ended = true,
        }
        Ok(next)
    }

    /// Takes the next byte, which stands within the limit, out of what is held or read.
    fn take_byte<S: Source>(&mut self, src: &mut S) -> Result<Option<u8>, Failed>
        requires low { self.old.judged < MAX_INPUT }
        requires open { self.old.has_ended ≡ false }
        ensures byte { IfOk result (λ next. IfSome next (λ byte.
            coming self.old (S.view src.old) ≡ prepend_known (byte ∷ []) (coming self.new (S.view src.new)))) }
        ensures fits { IfOk result (λ next. IfSome next (λ _. self.new.judged + length self.new.held < MAX_INPUT)) }
        ensures none { IfOk result (λ next. IfNone next (EndsHere self.old self.new (S.view src.old) (S.view src.new))) }
        ensures err { OnErr result (coming self.old (S.view src.old) ≡ coming self.new (S.view src.new)) }
        ensures quiet { 0 < length self.old.held → src.new ≡ src.old }
        ensures open { self.new.has_ended ≡ false }
        ensures same { HasSamePlace self.old self.new }
        ensures cause { HasSourceCause (S.view src.old) (S.view src.new) result }
    {
        let room = MAX_INPUT - self.judged - self.piece.len() as u64;
        self.piece.limit(room);
        self.piece.next_byte(src)
    }

    /// Whether the input ends here. A byte that is read for it is dropped.
    fn ends_here<S: Source>(&mut self, src: &mut S) -> Result<bool, Failed>
        requires open { self.old.has_ended ≡ false }
        requires called { (self.old.gave_byte ≡ true) ⊎ (0 < self.old.count) }
        ensures end { IfOk result (λ ends. IsTrue ends → IsAtEnd (coming self.old (S.view src.old)) × HasEnded (S.view src.new)) }
        ensures took { IfOk result (λ ends. IsTrue ends → coming self.old (S.view src.old) ≡ coming self.new (S.view src.new)) }
        ensures more { IfOk result (λ ends. IsFalse ends → IfSome (coming self.old (S.view src.old)) (λ bytes. 0 < length bytes)) }
        ensures err { OnErr result ((coming self.old (S.view src.old) ≡ coming self.new (S.view src.new)) × (self.new.has_ended ≡ false)) }
        ensures none { OnErr result (self.new.held ≡ []) }
        ensures ended { IfOk result (λ ends. self.new.has_ended ≡ ends) }
        ensures quiet { 0 < length self.old.held → src.new ≡ src.old }
        ensures same { HasSamePlace self.old self.new }
        ensures cause { HasSourceCause (S.view src.old) (S.view src.new) result }
    {
        let goes_on = self.piece.goes_on(src)?;
        self.has_ended = !goes_on;
        Ok(!goes_on)
    }
}
