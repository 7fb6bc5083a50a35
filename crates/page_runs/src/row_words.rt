//! A row of packed bytes as words of eight, in which a pixel of a colour is found in a few steps.
ghost use Rattle.std.specs.Prelude.{◌≡◌, ◌<◌, ◌≤◌, ◌+◌, ◌-◌, ◌*◌, ◌↔◌, ℕ, length};
ghost use Rattle.std.specs.Int.{bit_at};
ghost use Rattle.packed_rows.specs.Page.{pixel};

/// The bytes of a word.
pub(crate) const WORD_BYTES: usize = 8;

/// The pixels of a word.
pub(crate) const WORD_PIXELS: u16 = 64;

/// A pixel of a packed row that is black.
pub(crate) const BLACK: u8 = 1;

/// A pixel of a packed row that is white.
pub(crate) const WHITE: u8 = 0;

/// The word of fewer than eight bytes, with white behind them.
fn padded_word(rest: &[u8]) -> u64
    requires { length rest.now < WORD_BYTES }
    ensures { (k : ℕ) → k < WORD_PIXELS → bit_at result (63 - k) ≡ pixel rest.now k }
{
    let mut bytes = [0; WORD_BYTES];
    bytes[..rest.len()].copy_from_slice(rest);
    u64::from_be_bytes(bytes)
}

/// The eight bytes of a row from this one on, whose first pixel is the word's highest bit. Behind the row
/// all is white.
pub(crate) fn word_at(bits: &[u8], byte: usize) -> u64
    requires { byte < length bits.now }
    ensures { (k : ℕ) → k < WORD_PIXELS → bit_at result (63 - k) ≡ pixel bits.now (byte * 8 + k) }
{
    let rest = &bits[byte..];
    match rest.first_chunk::<WORD_BYTES>() {
        Some(bytes) => u64::from_be_bytes(*bytes),
        None => padded_word(rest),
    }
}

/// The word whose ones are the pixels of this colour.
fn pixels_of(word: u64, colour: u8) -> u64
    requires { colour ≤ 1 }
    ensures { (i : ℕ) → i < WORD_PIXELS → (bit_at result i ≡ 1) ↔ (bit_at word i ≡ colour) }
{
    if colour == BLACK { word } else { !word }
}

/// The first byte from `from` on, in steps of a word, whose word is not white, or one behind the row.
pub(crate) fn behind_white(bits: &[u8], from: usize) -> usize
    requires within { from < length bits.now + WORD_BYTES }
    ensures not_before { from ≤ result }
    ensures bound { result < length bits.now + WORD_BYTES }
    ensures white { (k : ℕ) → from * 8 ≤ k → k < result * 8 → pixel bits.now k ≡ 0 }
{
    let mut byte = from;
    while byte < bits.len() && word_at(bits, byte) == 0 {
        byte += WORD_BYTES;
    }
    byte
}

/// The place of the first pixel of this colour in a word, from a place on, or `WORD_PIXELS` where there is
/// none.
pub(crate) fn first_in_word(word: u64, from: u16, colour: u8) -> u16
    requires from { from < WORD_PIXELS }
    requires colour { colour ≤ 1 }
    ensures not_before { from ≤ result }
    ensures within { result ≤ WORD_PIXELS }
    ensures other { (k : ℕ) → from ≤ k → k < result → bit_at word (63 - k) ≡ 1 - colour }
    ensures found { result < WORD_PIXELS → bit_at word (63 - result) ≡ colour }
{
    let ahead = pixels_of(word, colour) & (u64::MAX >> from);
    ahead.leading_zeros() as u16
}
