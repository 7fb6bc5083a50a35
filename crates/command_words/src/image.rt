//! The image's name.
ghost use Rattle.std.specs.Prelude.{◌≡◌, ◌↔◌, ◌≤◌, IsTrue, List, ℕ, All, IfOk, IfErr, length};
ghost use Rattle.command_words.specs.Givens.{text_of};
ghost use Rattle.command_words.specs.Values.{IsNameByte, IsImageName, IsImageOf};

use crate::plan::{MAX_NAME_BYTES, WordFault};
use layout_geom::Name;
use std::alloc::Global;

/// Whether a byte may stand in an image's name: printable ASCII, and none of those that HTML or the
/// text of a property give a meaning.
fn is_name_byte(byte: u8) -> bool
    ensures allowed { IsTrue result ↔ IsNameByte byte }
{
    (b' '..=b'~').contains(&byte)
        && !matches!(byte, b'"' | b'\'' | b'<' | b'>' | b'&' | b';' | b'\\')
}

/// Whether a text is an image's name.
fn is_image_name(text: &str) -> bool
    ensures allowed { IsTrue result ↔ IsImageName text.now }
{
    !text.is_empty() && text.len() <= MAX_NAME_BYTES && text.bytes().all(is_name_byte)
}

/// The image's name: the value of its option, and the empty name where that is not given.
pub fn image_or_none(alloc: Global, text: Option<&str>) -> Result<Name, WordFault>
    ensures name { IfOk result (IsImageOf (text_of text.entry)) }
    ensures letters { IfOk result (λ name. (length name ≤ MAX_NAME_BYTES) × All IsNameByte name) }
    ensures usage { IfErr result (λ fault. fault ≡ WordFault.Usage → (name : List ℕ) → ¬ IsImageOf (text_of text.entry) name) }
{
    let Some(text) = text else {
        return Ok(Name::new(alloc));
    };
    if !is_image_name(text) {
        return Err(WordFault::Usage);
    }
    let bytes = text.as_bytes().to_vec(alloc)?;
    Ok(Name::from_vec(bytes))
}
