//! Numbers of the command line: digits and nothing else.
ghost use Rattle.std.specs.Prelude.{◌≡◌, ◌<◌, ◌≤◌, ◌^◌, ◌↔◌, ℕ, Option, length};
ghost use Rattle.std.specs.Prelude.{IfOk, IfErr, IfSome, IfNone, IsTrue};
ghost use Rattle.std.specs.List.{All};
ghost use Rattle.command_words.specs.Givens.{text_of};
ghost use Rattle.command_words.specs.Values.{IsDigit, IsNumberOf, IsSeedOf, SpellsNumber};

use crate::plan::{MAX_DIGITS, WordFault};

/// Whether a text has at most [`MAX_DIGITS`] bytes, and each is a digit.
fn is_short_numeral(text: &str) -> bool
    ensures short { IsTrue result ↔ ((length text.now ≤ MAX_DIGITS) × All IsDigit text.now) }
{
    text.len() <= MAX_DIGITS && text.bytes().all(|byte| byte.is_ascii_digit())
}

/// The number that a text of 1 to [`MAX_DIGITS`] digits spells, where a `u64` holds it.
fn number_of(text: &str) -> Option<u64>
    ensures number { IfSome result (SpellsNumber text.now) }
    ensures none { IfNone result ((n : ℕ) → SpellsNumber text.now n → ¬ (n < 2 ^ 64)) }
{
    if !is_short_numeral(text) {
        return None;
    }
    text.parse::<u64>().ok()
}

/// The number of an option: from 1 to `most` where it is given, and else the usual one.
pub fn number_or(text: Option<&str>, usual: u16, most: u16) -> Result<u16, WordFault>
    requires usual { (1 ≤ usual) × (usual ≤ most) }
    ensures number { IfOk result (IsNumberOf (text_of text.entry) usual 1 most) }
    ensures within { IfOk result (λ n. (1 ≤ n) × (n ≤ most)) }
    ensures usage { IfErr result (λ fault. (fault ≡ WordFault.Usage)
        × ((n : ℕ) → ¬ IsNumberOf (text_of text.entry) usual 1 most n)) }
{
    let Some(text) = text else {
        return Ok(usual);
    };
    match number_of(text) {
        Some(number) if 1 <= number && number <= u64::from(most) => Ok(number as u16),
        _ => Err(WordFault::Usage),
    }
}

/// The seed of a made page: the number that the value of its option spells, and none where that is
/// not given.
pub fn seed_or_none(text: Option<&str>) -> Result<Option<u64>, WordFault>
    ensures seed { IfOk result (IsSeedOf (text_of text.entry)) }
    ensures usage { IfErr result (λ fault. (fault ≡ WordFault.Usage)
        × ((seed : Option ℕ) → ¬ IsSeedOf (text_of text.entry) seed)) }
{
    let Some(text) = text else {
        return Ok(None);
    };
    match number_of(text) {
        Some(number) => Ok(Some(number)),
        None => Err(WordFault::Usage),
    }
}
