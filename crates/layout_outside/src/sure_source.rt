//! A source over memory that never fails.
ghost use Rattle.std.specs.Prelude.{◌≡◌, ◌+◌, ◌-◌, ◌<◌, ◌≤◌, length, drop, min, Some, IsOk, IfOk, false, vec_len};
ghost use Rattle.layout_outside.specs.Views.{IsRead};

use crate::device::{Failed, Source};
use crate::memory::hand_out;

/// Hands out bytes of memory in order, and never fails. To contracts its count of faults is 0.
#[derive(Debug, Drop)]
pub struct SureSource {
    /// All bytes, those that were handed out too.
    pub bytes: Vec<u8>,
    /// How many of them were handed out.
    pub at: usize,
    /// The most bytes that one call hands out, at least 1.
    pub piece: usize,
    /// The last call answered the end.
    pub ended: bool,
    ghost within: { at ≤ vec_len bytes },
    ghost takes_some: { 0 < piece },
}

impl SureSource {
    /// A source of these bytes, of which none was handed out yet.
    pub fn new(bytes: Vec<u8>, piece: usize) -> SureSource
        requires { 0 < piece }
        ensures left { (⟦<SureSource as Source>⟧.view result).left ≡ Some bytes.items }
        ensures sure { (⟦<SureSource as Source>⟧.view result).faults ≡ 0 }
        ensures given { (result.bytes ≡ bytes) × (result.piece ≡ piece) }
        ensures unused { (result.at ≡ 0) × (result.ended ≡ false) }
    {
        SureSource {
            bytes,
            at: 0,
            piece,
            ended: false,
        }
    }
}

impl Source for SureSource {
    ghost use Rattle.layout_outside.specs.SureSource.{sure_view};

    ghost view = { sure_view };

    /// Hands out as many bytes as the piece, what is left and the buffer allow.
    fn read(&mut self, buf: &mut [u8]) -> Result<usize, Failed>
        requires { 0 < length buf.old }
        ensures reads { IsRead (sure_view self.old) (sure_view self.new) buf.new result }
        ensures sure { IsOk result }
        ensures count { IfOk result (λ count. count
            ≡ min (min (vec_len self.old.bytes - self.old.at) self.old.piece) (length buf.new)) }
        ensures moves { IfOk result (λ count. self.new.at ≡ self.old.at + count) }
        ensures given { (self.new.bytes.items ≡ self.old.bytes.items) × (self.new.piece ≡ self.old.piece) }

        // The buffer changes only where bytes were put.
        ensures rest { IfOk result (λ count. drop count buf.new ≡ drop count buf.old) }
    {
        let count = hand_out(&self.bytes, self.at, self.piece, buf);
        self.at += count;
        self.ended = count == 0;
        Ok(count)
    }
}
