//! The words as `clap` is given them.
ghost use Rattle.std.specs.Prelude.{◌≡◌, ◌↔◌, ◌||◌, IfOk, IfErr, IsTrue, map, string_bytes, true, false};
ghost use Rattle.std.specs.List.{Any, list_any};
ghost use Rattle.command_words.specs.Givens.{texts_of};
ghost use Rattle.command_words.specs.Strays.{is_stray, gives_value, is_refused, told_word};

use crate::plan::WordFault;
use layout_limits::OutOfMemory;
use std::alloc::Global;

/// Whether a word begins with one hyphen and no second, or is two hyphens and no more. `clap` gives
/// such words a meaning, and a plan has none of them.
fn is_stray_word(word: &str) -> bool
    ensures stray { IsTrue result ↔ (is_stray word.now ≡ true) }
{
    match word.as_bytes() {
        [b'-', b'-', rest @ ..] => rest.is_empty(),
        [b'-', ..] => true,
        _ => false,
    }
}

/// Whether a word gives a flag a value.
fn is_valued(word: &str) -> bool
    ensures value { result ≡ gives_value word.now }
{
    let bytes = word.as_bytes();
    bytes.starts_with(b"--words=") || bytes.starts_with(b"--blocks=") || bytes.starts_with(b"--xy=")
}

/// Whether a word stands in no plan, though `clap` may take it.
fn is_refused_word(word: &str) -> bool
    ensures refused { IsTrue result ↔ (is_refused word.now ≡ true) }
{
    is_stray_word(word) || is_valued(word)
}

/// Whether one of the words stands in no plan, though `clap` may take it.
fn has_refused(words: &[String]) -> bool
    ensures refused { IsTrue result ↔ Any (λ word. is_refused (string_bytes word) ≡ true) words.now }
{
    words.iter().any(|word| is_refused_word(word.as_str()))
}

/// A word as `clap` is given it: a flag has an empty value.
fn told(word: &str) -> &str
    ensures told { result.now ≡ told_word word.now }
{
    match word {
        "--words" => "--words=",
        "--blocks" => "--blocks=",
        "--xy" => "--xy=",
        _ => word,
    }
}

/// The words as `clap` is given them.
fn texts_told<'a>(alloc: Global, words: &'a [String]) -> Result<Vec<&'a str>, OutOfMemory>
    ensures { IfOk result (λ told. texts_of told.items ≡ map told_word (map string_bytes words.now)) }
{
    let mut texts = Vec::new(alloc);
    for word in words {
        texts.push(told(word.as_str()))?;
    }
    Ok(texts)
}

/// The words as `clap` is given them, or `Usage` where one of them stands in no plan, though `clap` may take it.
pub fn told_words<'a>(alloc: Global, words: &'a [String]) -> Result<Vec<&'a str>, WordFault>
    ensures told { IfOk result (λ told. texts_of told.items ≡ map told_word (map string_bytes words.now)) }
    ensures plain { IfOk result (λ told. list_any is_refused (map string_bytes words.now) ≡ false) }
    ensures usage { IfErr result (λ fault. fault ≡ WordFault.Usage → list_any is_refused (map string_bytes words.now) ≡ true) }
{
    if has_refused(words) {
        return Err(WordFault::Usage);
    }
    Ok(texts_told(alloc, words)?)
}
