//! The options of the command line as they are written, read by `clap`.
ghost use Rattle.std.specs.Prelude.{◌≡◌, ◌≢◌, IfOk, IfErr, List, [], false, fold, map};
ghost use Rattle.std.specs.List.{list_any};
ghost use Rattle.clap.specs.Words.{app_of, fault_of, found_of, kind_of, matches_of, rows_of, with_rule};
ghost use Rattle.command_words.specs.Items.{Item, flags};
ghost use Rattle.command_words.specs.Givens.{HasOptions, HasValues, texts_of};
ghost use Rattle.command_words.specs.Commands.{app_for, app_with, option_rule};
ghost use Rattle.command_words.specs.Strays.{is_stray};

use crate::plan::{Program, WordFault};
use clap::error::ErrorKind;
use clap::{Arg, ArgMatches, Command};
use layout_limits::OutOfMemory;
use std::alloc::Global;

/// The values of the options as they are written, each where its option is given.
#[derive(Clone, Copy)]
pub struct OptionTexts<'a> {
    /// How many threads shall search: a number.
    pub workers: Option<&'a str>,
    /// How many white rectangles shall be searched for at most: a number.
    pub rects: Option<&'a str>,
    /// The name of the page's image.
    pub image: Option<&'a str>,
    /// The seed of a page that is made in place of one that is read: a number.
    pub make: Option<&'a str>,
    /// Nothing, where the words of the lines shall be shown.
    pub words: Option<&'a str>,
    /// Nothing, where the blocks of the pages shall be shown.
    pub blocks: Option<&'a str>,
    /// Nothing, where the cells of the pages shall be shown.
    pub xy: Option<&'a str>,
}

/// The command without an option, without help and without a word for the program.
fn bare_command<'a>(alloc: Global) -> Command<'a>
    ensures app { app_of result ≡ app_with [] }
{
    Command::new(alloc, "layout")
        .no_binary_name(true)
        .disable_help_flag(true)
}

/// The command with one more option, which takes a value.
fn with_option<'a>(
    alloc: Global,
    command: Command<'a>,
    name: &'a str,
) -> Result<Command<'a>, OutOfMemory>
    ensures app { IfOk result (λ more. app_of more ≡ with_rule (app_of command.entry) (option_rule name.entry.now)) }
{
    command.arg(Arg::new(alloc, name).long(name))
}

/// The command with the flags, each as an option, which `clap` is given with an empty value.
fn with_flags<'a>(alloc: Global, command: Command<'a>) -> Result<Command<'a>, OutOfMemory>
    ensures app { IfOk result (λ more. app_of more ≡ fold with_rule (app_of command.entry) (map option_rule flags)) }
{
    let first = with_option(alloc, command, "words")?;
    let second = with_option(alloc, first, "blocks")?;
    with_option(alloc, second, "xy")
}

/// The command with the options of the program.
fn command<'a>(alloc: Global, program: Program) -> Result<Command<'a>, OutOfMemory>
    ensures app { IfOk result (λ command. app_of command ≡ app_for program) }
{
    let bare = bare_command(alloc);
    let first = match program {
        Program::Alone => bare,
        Program::Shared => with_option(alloc, bare, "workers")?,
    };
    let second = with_option(alloc, first, "rects")?;
    let third = with_option(alloc, second, "image")?;
    let fourth = with_option(alloc, third, "make")?;
    with_flags(alloc, fourth)
}

/// The fault of the words, by the kind of `clap`'s error.
fn fault_of_kind(kind: ErrorKind) -> WordFault
    ensures memory { kind ≡ ErrorKind.OutOfMemory → result ≡ WordFault.Memory }
    ensures usage { kind ≢ ErrorKind.OutOfMemory → result ≡ WordFault.Usage }
{
    match kind {
        ErrorKind::OutOfMemory => WordFault::Memory,
        _ => WordFault::Usage,
    }
}

/// What `clap` makes of the words.
fn matches_of_words<'a>(
    alloc: Global,
    words: &'a [&'a str],
    program: Program,
) -> Result<ArgMatches<'a>, WordFault>
    ensures found { IfOk result (λ matches. (fault_of (app_for program) (texts_of words.now) ≡ [])
        × (rows_of (found_of matches) ≡ matches_of (app_for program) (texts_of words.now))) }
    ensures refused { IfErr result (λ fault. fault ≡ WordFault.Usage
        → fault_of (app_for program) (texts_of words.now) ≢ []) }
{
    match command(alloc, program)?.try_get_matches_from(words) {
        Ok(matches) => Ok(matches),
        Err(error) => Err(fault_of_kind(error.kind())),
    }
}

/// The values of the options, where the words are options of the program with a value each.
pub fn read_options<'a>(
    alloc: Global,
    words: &'a [&'a str],
    program: Program,
) -> Result<OptionTexts<'a>, WordFault>
    requires plain { list_any is_stray (texts_of words.now) ≡ false }
    ensures values { IfOk result (HasValues program (texts_of words.now)) }
    ensures usage { IfErr result (λ fault. fault ≡ WordFault.Usage
        → (items : List Item) → ¬ HasOptions program (texts_of words.now) items) }
{
    let matches = matches_of_words(alloc, words, program)?;
    Ok(OptionTexts {
        workers: matches.get_str("workers"),
        rects: matches.get_str("rects"),
        image: matches.get_str("image"),
        make: matches.get_str("make"),
        words: matches.get_str("words"),
        blocks: matches.get_str("blocks"),
        xy: matches.get_str("xy"),
    })
}
