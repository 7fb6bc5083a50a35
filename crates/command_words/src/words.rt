//! The plan of the words.
ghost use Rattle.std.specs.Prelude.{◌≡◌, ◌≤◌, ◌↔◌, IfOk, IfErr, IsTrue, All, length, map, string_bytes};
ghost use Rattle.command_words.specs.Plans.{AreApart, HasPlan, HasNoPlan, usual_workers};
ghost use Rattle.command_words.specs.Givens.{IsSeedApart, text_of};
ghost use Rattle.command_words.specs.Values.{IsNameByte};

use crate::image::image_or_none;
use crate::number::{number_or, seed_or_none};
use crate::options::{OptionTexts, read_options};
use crate::plan::{MAX_NAME_BYTES, Plan, Program, USUAL_RECTS, USUAL_WORKERS, WordFault};
use crate::told::told_words;
use layout_limits::{MAX_RECTS, MAX_WORKERS};
use std::alloc::Global;

/// How many threads search where no word tells.
fn workers_of(program: Program) -> u16
    ensures usual { result ≡ usual_workers program }
{
    match program {
        Program::Alone => 1,
        Program::Shared => USUAL_WORKERS,
    }
}

/// Whether at most one of two options is given.
fn are_apart(first: Option<&str>, second: Option<&str>) -> bool
    ensures apart { IsTrue result ↔ AreApart (text_of first.entry) (text_of second.entry) }
{
    first.is_none() || second.is_none()
}

/// Whether no image's name and no flag is given beside a seed.
fn is_seed_apart(given: &OptionTexts) -> bool
    ensures apart { IsTrue result ↔ IsSeedApart given.now }
{
    are_apart(given.image, given.make)
        && are_apart(given.words, given.make)
        && are_apart(given.blocks, given.make)
        && are_apart(given.xy, given.make)
}

/// The plan of the words behind the program's name, or `Usage` exactly where they have none.
pub fn words_of(alloc: Global, words: &[String], program: Program) -> Result<Plan, WordFault>
    ensures plan { IfOk result (HasPlan program (map string_bytes words.now)) }
    ensures rects { IfOk result (λ plan. (1 ≤ plan.rects) × (plan.rects ≤ MAX_RECTS)) }
    ensures workers { IfOk result (λ plan. (1 ≤ plan.workers) × (plan.workers ≤ MAX_WORKERS)) }
    ensures image { IfOk result (λ plan. (length plan.image ≤ MAX_NAME_BYTES) × All IsNameByte plan.image) }
    ensures usage { IfErr result (λ fault. fault ≡ WordFault.Usage
        → HasNoPlan program (map string_bytes words.now)) }
{
    let told = told_words(alloc, words)?;
    let given = read_options(alloc, &told, program)?;
    if !is_seed_apart(&given) {
        return Err(WordFault::Usage);
    }
    let workers = number_or(given.workers, workers_of(program), MAX_WORKERS)?;
    let rects = number_or(given.rects, USUAL_RECTS, MAX_RECTS)?;
    let make = seed_or_none(given.make)?;
    let image = image_or_none(alloc, given.image)?;
    Ok(Plan {
        rects,
        workers,
        image,
        make,
        words: given.words.is_some(),
        blocks: given.blocks.is_some(),
        xy: given.xy.is_some(),
    })
}
