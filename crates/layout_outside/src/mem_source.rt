//! A source over memory, which fails at the calls that it is told to fail at.
ghost use Rattle.std.specs.Prelude.{◌≡◌, ◌+◌, ◌-◌, ◌<◌, ◌≤◌, ◌↔◌, length, drop, min, false, Contains, vec_len};
ghost use Rattle.std.specs.Prelude.{Some, IfOk, OnOk, IsErr, OnErr};
ghost use Rattle.layout_outside.specs.Causes.{next_count};
ghost use Rattle.layout_outside.specs.Views.{IsRead};

use crate::device::{Failed, Source};
use crate::memory::hand_out;

/// Hands out bytes of memory in order, and fails at the calls that it is told.
///
/// Its calls are numbered from 0. Each count stands still at the last value of its type.
#[derive(Debug, Drop)]
pub struct MemSource {
    /// All bytes, those that were handed out too.
    pub bytes: Vec<u8>,
    /// How many of them were handed out.
    pub at: usize,
    /// The most bytes that one call hands out, at least 1.
    pub piece: usize,
    /// How many calls there were.
    pub calls: u64,
    /// The numbers of the calls that fail.
    pub fails: Vec<u64>,
    /// How many calls failed.
    pub faults: u64,
    /// The last call that did not fail answered the end.
    pub ended: bool,
    ghost within: { at ≤ vec_len bytes },
    ghost takes_some: { 0 < piece },
}

impl MemSource {
    /// A source of these bytes, of which none was handed out yet.
    pub fn new(bytes: Vec<u8>, piece: usize, fails: Vec<u64>) -> MemSource
        requires { 0 < piece }
        ensures left { (⟦<MemSource as Source>⟧.view result).left ≡ Some bytes.items }
        ensures given { (result.bytes ≡ bytes) × (result.piece ≡ piece) × (result.fails ≡ fails) }
        ensures unused { (result.at ≡ 0) × (result.calls ≡ 0) × (result.faults ≡ 0) × (result.ended ≡ false) }
    {
        MemSource {
            bytes,
            at: 0,
            piece,
            calls: 0,
            fails,
            faults: 0,
            ended: false,
        }
    }
}

impl Source for MemSource {
    ghost use Rattle.layout_outside.specs.MemSource.{source_view};

    ghost view = { source_view };

    /// Hands out as many bytes as the piece, what is left and the buffer allow.
    fn read(&mut self, buf: &mut [u8]) -> Result<usize, Failed>
        requires { 0 < length buf.old }
        ensures reads { IsRead (source_view self.old) (source_view self.new) buf.new result }

        // It fails at the calls that it is told, and at no other.
        ensures fails { IsErr result ↔ Contains self.old.fails.items self.old.calls }
        ensures count { IfOk result (λ count. count
            ≡ min (min (vec_len self.old.bytes - self.old.at) self.old.piece) (length buf.new)) }

        ensures moves { IfOk result (λ count. self.new.at ≡ self.old.at + count) }
        ensures stands { OnErr result (self.new.at ≡ self.old.at) }
        ensures called { self.new.calls ≡ next_count self.old.calls }
        ensures counted { OnErr result (self.new.faults ≡ next_count self.old.faults) }
        ensures uncounted { OnOk result (self.new.faults ≡ self.old.faults) }
        ensures given { (self.new.bytes.items ≡ self.old.bytes.items)
            × (self.new.piece ≡ self.old.piece) × (self.new.fails.items ≡ self.old.fails.items) }

        // The buffer changes only where bytes were put.
        ensures rest { IfOk result (λ count. drop count buf.new ≡ drop count buf.old) }
        ensures untouched { OnErr result (buf.new ≡ buf.old) }
    {
        let call = self.calls;
        self.calls = self.calls.saturating_add(1);
        if self.fails.contains(&call) {
            self.faults = self.faults.saturating_add(1);
            return Err(Failed);
        }
        let count = hand_out(&self.bytes, self.at, self.piece, buf);
        self.at += count;
        self.ended = count == 0;
        Ok(count)
    }
}
