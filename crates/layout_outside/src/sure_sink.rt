//! A sink over memory that never fails, since it is given no more than the room that was made for it.
ghost use Rattle.std.specs.Prelude.{◌≡◌, ◌+◌, ◌<◌, ◌≤◌, ◌++◌, [], length, take, min, max, IsOk, IfOk, vec_len, vec_capacity};

use crate::memory::append_reserved;
use layout_limits::OutOfMemory;
use std::alloc::Global;

/// Keeps what is written, within room that was made before, and never fails.
///
/// It is no `Sink`: its caller owes that the text fits the room that is left.
#[derive(Debug, Drop)]
pub struct SureSink {
    /// What was written. Its capacity is the room.
    pub bytes: Vec<u8>,
    /// The most bytes that one write takes, at least 1.
    pub piece: usize,
    ghost takes_some: { 0 < piece },
}

impl SureSink {
    /// An empty sink with room for this many bytes, which takes all of a text in one write. It fails only for want of memory.
    pub fn with_room(alloc: Global, room: usize) -> Result<SureSink, OutOfMemory>
        ensures written { IfOk result (λ sink. sink.bytes.items ≡ []) }
        ensures capacity { IfOk result (λ sink. vec_capacity sink.bytes ≡ room) }
        ensures piece { IfOk result (λ sink. sink.piece ≡ max room 1) }
        ensures no_room { room ≡ 0 → IsOk result }
    {
        let bytes = Vec::with_capacity(alloc, room)?;
        let piece = room.max(1);
        Ok(SureSink { bytes, piece })
    }

    /// Takes bytes from the front of a text that fits the room, a piece at most, and says how many. It takes no memory.
    pub fn write(&mut self, text: &[u8]) -> usize
        requires { vec_len self.old.bytes + length text.now ≤ vec_capacity self.old.bytes }
        ensures count { result ≡ min self.old.piece (length text.now) }
        ensures appends { self.new.bytes.items ≡ self.old.bytes.items ++ take result text.now }
        ensures capacity { vec_capacity self.new.bytes ≡ vec_capacity self.old.bytes }
        ensures piece { self.new.piece ≡ self.old.piece }
    {
        let count = self.piece.min(text.len());
        append_reserved(&mut self.bytes, &text[..count]);
        count
    }

    /// Writes the whole of a text that fits the room. It takes no memory.
    pub fn put_all_sure(&mut self, text: &[u8])
        requires { vec_len self.old.bytes + length text.now ≤ vec_capacity self.old.bytes }
        ensures appends { self.new.bytes.items ≡ self.old.bytes.items ++ text.now }
        ensures capacity { vec_capacity self.new.bytes ≡ vec_capacity self.old.bytes }
        ensures piece { self.new.piece ≡ self.old.piece }
    {
        let mut at = 0;
        while at < text.len() {
            at += self.write(&text[at..]);
        }
    }
}
