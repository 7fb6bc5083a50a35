//! A sink over memory, with room made before, which fails at the calls that it is told to fail at.
ghost use Rattle.std.specs.Prelude.{◌≡◌, ◌-◌, ◌<◌, ◌≤◌, ◌↔◌, ◌⊎◌, [], length, min, Contains, vec_len, vec_capacity};
ghost use Rattle.std.specs.Prelude.{Some, IsOk, IfOk, OnOk, IsErr, OnErr};
ghost use Rattle.layout_outside.specs.Causes.{next_count};
ghost use Rattle.layout_outside.specs.Views.{IsWrite};

use crate::device::{Failed, Sink};
use crate::memory::append_reserved;
use layout_limits::OutOfMemory;
use std::alloc::Global;

/// Keeps what is written, within room that was made before.
///
/// Its calls are numbered from 0. Each count stands still at the last value of its type.
#[derive(Debug, Drop)]
pub struct MemSink {
    /// What was written.
    pub bytes: Vec<u8>,
    /// The most bytes that it keeps.
    pub room: usize,
    /// The most bytes that one call takes, at least 1.
    pub piece: usize,
    /// How many calls there were.
    pub calls: u64,
    /// The numbers of the calls that fail.
    pub fails: Vec<u64>,
    /// How many calls failed, for want of room too.
    pub faults: u64,
    ghost within: { vec_len bytes ≤ room },
    ghost made: { room ≤ vec_capacity bytes },
    ghost takes_some: { 0 < piece },
}

impl MemSink {
    /// An empty sink with room for this many bytes. It fails only for want of memory.
    pub fn with_room(
        alloc: Global,
        room: usize,
        piece: usize,
        fails: Vec<u64>,
    ) -> Result<MemSink, OutOfMemory>
        requires { 0 < piece }
        ensures written { IfOk result (λ sink. (⟦<MemSink as Sink>⟧.view sink).written ≡ Some []) }
        ensures given { IfOk result (λ sink.
            (sink.room ≡ room) × (sink.piece ≡ piece) × (sink.fails ≡ fails)) }
        ensures unused { IfOk result (λ sink. (sink.calls ≡ 0) × (sink.faults ≡ 0)) }
        ensures capacity { IfOk result (λ sink. vec_capacity sink.bytes ≡ room) }
        ensures no_room { room ≡ 0 → IsOk result }
    {
        let bytes = Vec::with_capacity(alloc, room)?;
        Ok(MemSink {
            bytes,
            room,
            piece,
            calls: 0,
            fails,
            faults: 0,
        })
    }

    /// What was written.
    pub fn as_slice(&self) -> &[u8]
        ensures { (⟦<MemSink as Sink>⟧.view self.now).written ≡ Some result.now }
    {
        self.bytes.as_slice()
    }
}

impl Sink for MemSink {
    ghost use Rattle.layout_outside.specs.MemSink.{sink_view};

    ghost view = { sink_view };

    /// Takes as many bytes as the piece, the room left and the text offered allow.
    fn write(&mut self, piece: &[u8]) -> Result<usize, Failed>
        requires { 0 < length piece.now }
        ensures writes { IsWrite (sink_view self.old) (sink_view self.new) piece.now result }

        // It fails at the calls that it is told and where no room is left, and at no other.
        ensures fails { IsErr result ↔ (Contains self.old.fails.items self.old.calls
            ⊎ (self.old.room ≡ vec_len self.old.bytes)) }
        ensures count { IfOk result (λ count. count
            ≡ min (min (self.old.room - vec_len self.old.bytes) self.old.piece) (length piece.now)) }

        ensures called { self.new.calls ≡ next_count self.old.calls }
        ensures counted { OnErr result (self.new.faults ≡ next_count self.old.faults) }
        ensures uncounted { OnOk result (self.new.faults ≡ self.old.faults) }
        ensures given { (self.new.room ≡ self.old.room)
            × (self.new.piece ≡ self.old.piece) × (self.new.fails.items ≡ self.old.fails.items) }

        // It takes no memory.
        ensures capacity { vec_capacity self.new.bytes ≡ vec_capacity self.old.bytes }
    {
        let call = self.calls;
        self.calls = self.calls.saturating_add(1);
        let room = self.room - self.bytes.len();
        if room == 0 || self.fails.contains(&call) {
            self.faults = self.faults.saturating_add(1);
            return Err(Failed);
        }
        let count = room.min(self.piece).min(piece.len());
        append_reserved(&mut self.bytes, &piece[..count]);
        Ok(count)
    }
}
