//! A text that grows at its end, by pieces and by numbers.
ghost use Rattle.std.specs.Prelude.{◌≡◌, ◌++◌, [], OnOk, OnErr};

use itoa::{Buffer, Integer};
use layout_limits::OutOfMemory;
use std::alloc::Global;
use std::marker::Model;

/// Bytes that grow at their end. Contracts see the list of the bytes.
#[derive(Drop)]
pub struct TextBuffer {
    bytes: Vec<u8>,
}

impl Model for TextBuffer {
    ghost use Rattle.std.specs.Prelude.{List, ℕ};

    ghost Value = { List ℕ };

    ghost view = { λ text. text.bytes.items };
}

impl TextBuffer {
    /// The empty text, which takes no memory.
    pub fn new(alloc: Global) -> TextBuffer
        ensures empty { result ≡ [] }
    {
        TextBuffer {
            bytes: Vec::new(alloc),
        }
    }

    /// Puts the piece at the end.
    pub fn push(&mut self, piece: &[u8]) -> Result<(), OutOfMemory>
        ensures grown { OnOk result (self.new ≡ self.old ++ piece.now) }
        ensures unchanged { OnErr result (self.new ≡ self.old) }
    {
        self.bytes.extend_from_slice(piece)
    }

    /// Puts the number at the end, in decimal digits without leading zeros.
    pub fn push_number<I: Integer>(&mut self, number: I) -> Result<(), OutOfMemory>
        ensures grown { OnOk result (self.new ≡ self.old ++ I.text number) }
        ensures unchanged { OnErr result (self.new ≡ self.old) }
    {
        let mut buffer = Buffer::new();
        self.push(buffer.format(number).as_bytes())
    }

    /// The bytes themselves, which takes no memory.
    pub fn into_bytes(self) -> Vec<u8>
        ensures same { result.items ≡ self }
    {
        self.bytes
    }
}
