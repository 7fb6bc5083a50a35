//! The bytes of the input one after the other, in whatever pieces the source hands them out.
ghost use Rattle.std.specs.Prelude.{◌≡◌, ◌<◌, ◌≤◌, ◌⊎◌, ◌-◌, ◌+◌, ℕ, false, List, [], ◌∷◌, ◌++◌, length, Some, None};
ghost use Rattle.std.specs.Prelude.{take, drop, min, IfSome, IfNone, IfOk, OnOk, OnErr, IsTrue, IsFalse, ◌↔◌, vec_len};
ghost use Rattle.layout_outside.specs.Taken.{HasEnded, HasSourceCause, Took, TookAll, TookPart};
ghost use Rattle.layout_outside.specs.Views.{IsRead};
ghost use Rattle.pbm_reader.specs.Feed.{FeedView, PieceView, fed, is_limited, seen, unseen, whole, with_unread};
ghost use Rattle.pbm_reader.specs.Held.{TookHeld};

use crate::limits::MAX_PIECE;
use layout_limits::OutOfMemory;
use layout_outside::{Failed, Source};
use std::alloc::Global;
use std::marker::Model;

/// Reads bytes to the front of a buffer, no more than so many.
fn read_within<S: Source>(src: &mut S, bytes: &mut [u8], room: u64) -> Result<usize, Failed>
    requires some { 0 < length bytes.old }
    requires room { 0 < room }
    ensures read { IsRead (S.view src.old) (S.view src.new) bytes.new result }
    ensures fits { IfOk result (λ count. count ≤ room) }
{
    let len = room.min(bytes.len() as u64) as usize;
    src.read(&mut bytes[..len])
}

/// The unread bytes of a piece of the input. It can outlive the call that read it.
#[derive(Drop)]
pub struct Piece {
    bytes: Vec<u8>,
    at: usize,
    end: usize,
    // How many bytes may still be read, where that is limited.
    room: Option<u64>,
}

impl Model for Piece {
    ghost Value = { PieceView };

    ghost view = { λ p. record { unread = take (p.end - p.at) (drop p.at p.bytes.items); room = p.room; space = vec_len p.bytes } };

    // a piece without bytes of its own reads nothing
    ghost invariant = { λ p. (p.at ≤ p.end) × (p.end ≤ vec_len p.bytes) × ((0 < vec_len p.bytes) ⊎ (p.room ≡ Some 0)) };
}

impl Piece {
    /// A piece with nothing unread, and with no limit to what may be read.
    pub fn new(alloc: Global) -> Result<Piece, OutOfMemory>
        ensures unread { IfOk result (λ piece. piece.unread ≡ []) }
        ensures room { IfOk result (λ piece. piece.room ≡ None) }
        ensures space { IfOk result (λ piece. 0 < piece.space) }
    {
        let bytes = vec![in alloc; 0; MAX_PIECE]?;
        Ok(Piece {
            bytes,
            at: 0,
            end: 0,
            room: None,
        })
    }

    /// A piece with nothing unread, which reads nothing and takes no memory.
    pub fn closed(alloc: Global) -> Piece
        ensures { result.unread ≡ [] }
    {
        Piece {
            bytes: Vec::new(alloc),
            at: 0,
            end: 0,
            room: Some(0),
        }
    }

    /// Limits what may be read to so many bytes.
    pub fn limit(&mut self, room: u64)
        requires { 0 < self.old.space }
        ensures room { self.new.room ≡ Some room }
        ensures unread { self.new.unread ≡ self.old.unread }
        ensures space { self.new.space ≡ self.old.space }
    {
        self.room = Some(room);
    }

    /// How many bytes are unread.
    pub fn len(&self) -> usize
        ensures { result ≡ length self.now.unread }
    {
        self.end - self.at
    }

    fn is_empty(&self) -> bool
        ensures { IsTrue result ↔ (self.now.unread ≡ []) }
    {
        self.at == self.end
    }

    /// The next unread byte.
    fn pop(&mut self) -> Option<u8>
        ensures some { IfSome result (λ byte. self.old.unread ≡ byte ∷ self.new.unread) }
        ensures none { IfNone result ((self.old.unread ≡ []) × (self.new.unread ≡ [])) }
        ensures room { self.new.room ≡ self.old.room }
        ensures space { self.new.space ≡ self.old.space }
    {
        if self.at == self.end {
            return None;
        }
        let byte = self.bytes[self.at];
        self.at += 1;
        Some(byte)
    }

    /// Moves unread bytes to the front of a buffer, as many as there are and fit, and says how many.
    fn copy_to(&mut self, buf: &mut [u8]) -> usize
        ensures count { result ≡ min (length self.old.unread) (length buf.old) }
        ensures bytes { self.old.unread ≡ take result buf.new ++ self.new.unread }
        ensures room { self.new.room ≡ self.old.room }
        ensures space { self.new.space ≡ self.old.space }
    {
        let count = (self.end - self.at).min(buf.len());
        let end = self.at + count;
        buf[..count].copy_from_slice(&self.bytes[self.at..end]);
        self.at = end;
        count
    }

    /// Drops the unread bytes, and says how many there were.
    pub fn clear(&mut self) -> usize
        ensures count { result ≡ length self.old.unread }
        ensures empty { self.new.unread ≡ [] }
        ensures room { self.new.room ≡ self.old.room }
        ensures space { self.new.space ≡ self.old.space }
    {
        let count = self.end - self.at;
        self.at = self.end;
        count
    }

    /// Reads the next piece, in the place of the last. Where nothing may be read it does nothing.
    fn refill<S: Source>(&mut self, src: &mut S) -> Result<(), Failed>
        ensures bytes { OnOk result (Took (seen self.old.room (S.view src.old)) (seen self.new.room (S.view src.new)) self.new.unread) }
        ensures end { OnOk result (self.new.unread ≡ [] → HasEnded (seen self.new.room (S.view src.new))) }
        ensures empty { OnErr result (self.new.unread ≡ []) }
        ensures err { OnErr result (Took (seen self.old.room (S.view src.old)) (seen self.new.room (S.view src.new)) []) }
        ensures none { OnOk result (self.new.unread ≡ [] → self.new.room ≡ self.old.room) }
        ensures fits { OnOk result ((room : ℕ) → self.old.room ≡ Some room → length self.new.unread ≤ room) }
        ensures unseen { unseen self.new.room (S.view src.new) ≡ unseen self.old.room (S.view src.old) }
        ensures limited { is_limited self.new.room ≡ is_limited self.old.room }
        ensures space { self.new.space ≡ self.old.space }
        ensures cause { HasSourceCause (S.view src.old) (S.view src.new) result }
    {
        self.at = 0;
        self.end = 0;
        match self.room {
            None => self.end = src.read(&mut self.bytes)?,
            Some(0) => {}
            Some(room) => {
                self.end = read_within(src, &mut self.bytes, room)?;
                self.room = Some(room - self.end as u64);
            }
        }
        Ok(())
    }
}

impl Piece {
    /// The next byte, or none at the end of what may be read. Where a byte is unread nothing is read.
    pub fn next_byte<S: Source>(&mut self, src: &mut S) -> Result<Option<u8>, Failed>
        ensures byte { IfOk result (λ next. IfSome next (λ byte.
            Took (whole self.old (S.view src.old)) (whole self.new (S.view src.new)) (byte ∷ []))) }
        ensures end { IfOk result (λ next. IfNone next (TookAll (whole self.old (S.view src.old)) (whole self.new (S.view src.new)) [])) }
        ensures none { IfOk result (λ next. IfNone next ((self.new.room ≡ self.old.room) × (self.old.unread ≡ []))) }
        ensures err { OnErr result (Took (whole self.old (S.view src.old)) (whole self.new (S.view src.new)) []) }
        ensures drained { OnErr result (self.new.unread ≡ []) }
        ensures spent { OnErr result (self.old.unread ≡ []) }
        ensures held { 0 < length self.old.unread → (src.new ≡ src.old)
            × IfOk result (λ next. IfSome next (λ byte. self.old.unread ≡ byte ∷ self.new.unread)) }
        ensures fits { IfOk result (λ next. IfSome next (λ _. (room : ℕ) → self.old.room ≡ Some room
            → length self.new.unread + 1 ≤ length self.old.unread + room)) }
        ensures unseen { unseen self.new.room (S.view src.new) ≡ unseen self.old.room (S.view src.old) }
        ensures limited { is_limited self.new.room ≡ is_limited self.old.room }
        ensures space { self.new.space ≡ self.old.space }
        ensures cause { HasSourceCause (S.view src.old) (S.view src.new) result }
    {
        if let Some(byte) = self.pop() {
            return Ok(Some(byte));
        }
        self.refill(src)?;
        Ok(self.pop())
    }

    /// Whether all that may be read was read, and nothing of it is unread.
    pub fn is_spent(&self) -> bool
        ensures { IsTrue result ↔ (self.now.unread ≡ []) × (self.now.room ≡ Some 0) }
    {
        self.is_empty() && self.room == Some(0)
    }

    /// Whether a byte comes next, behind what may be read too. One that is read for it is dropped.
    pub fn goes_on<S: Source>(&mut self, src: &mut S) -> Result<bool, Failed>
        requires { 0 < self.old.space }
        ensures more { IfOk result (λ more. IsTrue more → (0 < length self.old.unread)
            ⊎ ((byte : ℕ) × Took (S.view src.old) (S.view src.new) (byte ∷ []))) }
        ensures end { IfOk result (λ more. IsFalse more → TookAll (S.view src.old) (S.view src.new) [] × (self.old.unread ≡ [])) }
        ensures err { OnErr result (Took (S.view src.old) (S.view src.new) [] × (self.old.unread ≡ [])) }
        ensures quiet { 0 < length self.old.unread → src.new ≡ src.old }
        ensures unread { self.new.unread ≡ self.old.unread }
        ensures space { self.new.space ≡ self.old.space }
        ensures cause { HasSourceCause (S.view src.old) (S.view src.new) result }
    {
        if !self.is_empty() {
            return Ok(true);
        }
        self.limit(1);
        let next = self.next_byte(src)?;
        Ok(next.is_some())
    }
}

/// A source within a call, and the piece that was read of it last.
#[derive(Drop)]
pub struct Feed<'s, S: Source> {
    src: &'s mut S,
    piece: Piece,
}

impl<'s, S: Source> Model for Feed<'s, S> {
    ghost Value = { FeedView S };

    ghost view = { λ f. fed f.src.ghost_name f.src.now (S.view f.src.now) f.piece };
}

impl<'s, S: Source> Feed<'s, S> {
    /// A feed of a source, of which this piece is unread.
    pub fn new(src: &'s mut S, piece: Piece) -> Feed<'s, S>
        ensures { result ≡ fed src.entry.ghost_name src.old (S.view src.old) piece }
    {
        Feed { src, piece }
    }

    /// Gives the source back, and drops what is unread.
    pub fn into_source(self) -> &'s mut S
        ensures source { self.entry.borrow.is_limited ≡ false → self.entry.source ≡ with_unread self.entry.unread (S.view result.now) }
        ensures borrow { result.ghost_name ≡ self.entry.borrow.name }
    {
        self.src
    }

    /// Gives the source back, and the piece with what is unread to the place of another.
    pub fn close(self, piece: &mut Piece) -> &'s mut S
        ensures feed { self.entry ≡ fed result.ghost_name result.now (S.view result.now) piece.new }
    {
        *piece = self.piece;
        self.src
    }

    /// The next byte, or none at the end of the input.
    pub fn next_byte(&mut self) -> Result<Option<u8>, Failed>
        ensures byte { IfOk result (λ next. IfSome next (λ byte. Took self.old.source self.new.source (byte ∷ []))) }
        ensures end { IfOk result (λ next. IfNone next (TookAll self.old.source self.new.source [])) }
        ensures err { OnErr result (Took self.old.source self.new.source []) }
        ensures drained { OnErr result (self.new.unread ≡ []) }
        // Where a byte is unread nothing is read.
        ensures held { IfOk result (λ next. IfSome next (λ byte. TookHeld self.old self.new (byte ∷ []) ⊎ (self.old.unread ≡ []))) }
        ensures none { IfOk result (λ next. IfNone next (self.old.unread ≡ [])) }
        ensures spent { OnErr result (self.old.unread ≡ []) }
        ensures same { self.new.borrow ≡ self.old.borrow }
        ensures cause { HasSourceCause self.old.source self.new.source result }
    {
        self.piece.next_byte(self.src)
    }

    /// Moves the next bytes to the front of a buffer, and says how many. None is the end of the input.
    fn next_bytes(&mut self, buf: &mut [u8]) -> Result<usize, Failed>
        requires { 0 < length buf.old }
        ensures bound { IfOk result (λ count. count ≤ length buf.new) }
        ensures bytes { IfOk result (λ count. Took self.old.source self.new.source (take count buf.new)) }
        ensures end { IfOk result (λ count. count ≡ 0 → HasEnded self.new.source) }
        ensures err { OnErr result (Took self.old.source self.new.source []) }
        ensures drained { OnErr result (self.new.unread ≡ []) }
        ensures held { 0 < length self.old.unread → (self.new.own ≡ self.old.own) × OnErr result ⊥
            × IfOk result (λ count. (0 < count) × (length self.old.unread ≡ count + length self.new.unread)) }
        ensures same { self.new.borrow ≡ self.old.borrow }
        ensures cause { HasSourceCause self.old.source self.new.source result }
    {
        if self.piece.is_empty() {
            self.piece.refill(self.src)?;
        }
        Ok(self.piece.copy_to(buf))
    }

    /// Drops the next bytes, as many as are at hand, and says how many. None is the end of the input.
    pub fn drop_bytes(&mut self) -> Result<usize, Failed>
        ensures bytes { IfOk result (λ count. (bytes : List ℕ) × (count ≡ length bytes)
            × Took self.old.source self.new.source bytes) }
        ensures end { IfOk result (λ count. count ≡ 0 → HasEnded self.new.source) }
        ensures err { OnErr result (Took self.old.source self.new.source []) }
        ensures drained { OnErr result (self.new.unread ≡ []) }
        ensures same { self.new.borrow ≡ self.old.borrow }
        ensures cause { HasSourceCause self.old.source self.new.source result }
    {
        if self.piece.is_empty() {
            self.piece.refill(self.src)?;
        }
        Ok(self.piece.clear())
    }

    /// Fills a buffer with the next bytes, and says how many there were: fewer only at the end.
    pub fn fill(&mut self, buf: &mut [u8]) -> Result<usize, Failed>
        ensures bound { IfOk result (λ count. count ≤ length buf.new) }
        ensures bytes { IfOk result (λ count. Took self.old.source self.new.source (take count buf.new)) }
        ensures end { IfOk result (λ count. count < length buf.new → HasEnded self.new.source) }
        ensures err { OnErr result (TookPart self.old.source self.new.source (length buf.old)) }
        ensures drained { OnErr result (self.new.unread ≡ []) }
        // Where the buffer can be filled with what is unread nothing is read.
        ensures held { length buf.old ≤ length self.old.unread → (self.new.own ≡ self.old.own) × OnErr result ⊥
            × IfOk result (λ count. (count ≡ length buf.old) × (length self.old.unread ≡ count + length self.new.unread)) }
        ensures same { self.new.borrow ≡ self.old.borrow }
        ensures cause { HasSourceCause self.old.source self.new.source result }
    {
        let mut at = 0;
        while at < buf.len() {
            let count = self.next_bytes(&mut buf[at..])?;
            if count == 0 {
                return Ok(at);
            }
            at += count;
        }
        Ok(at)
    }
}
