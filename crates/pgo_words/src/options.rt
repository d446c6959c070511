// The options of a command: `clap` decides which there are, that each has its one value, that none is repeated and that a required
// one is there.
ghost use Rattle.std.specs.Prelude.{◌≡◌, ◌∷◌, [], IfOk, true, false, not, codes, if◌then◌else◌};
ghost use Rattle.clap.specs.Words.{app_of, rule_of};
ghost use Rattle.pgo_words.specs.Commands as commands;
ghost use Rattle.pgo_words.specs.Parts as parts;
ghost use Rattle.pgo_words.specs.Parts.{texts};

use clap::error::ErrorKind;
use clap::{Arg, ArgAction, Command};
use pgo_base::word::Word;
use std::alloc::{AllocError, Global};

/// The values of a command's options, and the words behind them.
#[derive(Drop)]
pub struct Options<'a> {
    /// The value of `--turns`, which `step` alone has.
    pub turns: Option<&'a str>,
    /// The value of `--seed`.
    pub seed: Option<&'a str>,
    /// The value of `--attempts`.
    pub attempts: Option<&'a str>,
    /// The value of `--steps`.
    pub steps: Option<&'a str>,
    /// The value of `--fail`.
    pub fail: Option<&'a str>,
    /// The words behind the options.
    pub rest: &'a [&'a str],
}

/// The texts of the words.
pub fn texts_of<'a>(alloc: Global, words: &'a [Word]) -> Result<Vec<&'a str>, AllocError>
    ensures { IfOk result (λ v. texts v.items ≡ words.now) }
{
    let mut found = Vec::new(alloc);
    for word in words {
        found.push(word.as_str())?;
    }
    Ok(found)
}

/// Whether the word doesn't begin with `-`.
fn is_plain(word: &str) -> bool
    ensures { result ≡ parts.is_plain word.now }
{
    match word.as_bytes() {
        [first, ..] => *first != b'-',
        _ => true,
    }
}

/// Whether no word begins with `-`.
fn are_plain(words: &[&str]) -> bool
    ensures { result ≡ parts.are_plain (texts words.now) }
{
    for word in words {
        if !is_plain(*word) {
            return false;
        }
    }
    true
}

/// Whether the word is `--` and a name without `=`.
fn is_option_name(word: &str) -> bool
    ensures { result ≡ parts.is_option_name word.now }
{
    match word.as_bytes() {
        [b'-', b'-', name @ ..] => !name.is_empty() && !name.contains(&b'='),
        _ => false,
    }
}

/// Whether the words begin with a name and a value.
pub fn begins_option(words: &[&str]) -> bool
    ensures { result ≡ parts.begins_option (texts words.now) }
{
    match words {
        [name, value, ..] => is_option_name(*name) && is_plain(*value),
        _ => false,
    }
}

/// How many words are in the options at the front, pairs of a name and a value, where no word behind them begins with `-`.
fn options_end(words: &[&str]) -> Option<usize>
    ensures { parts.CutsParts words.now result }
{
    let mut end = 0;
    while begins_option(&words[end..]) {
        end += 2;
    }
    if are_plain(&words[end..]) {
        Some(end)
    } else {
        None
    }
}

/// An option with one value.
fn value_option<'a>(alloc: Global, name: &'a str) -> Arg<'a>
    ensures rule { rule_of result ≡ commands.value_option false name.now }
    ensures own { result.global ≡ false }
{
    Arg::new(alloc, name).long(name).action(ArgAction::Set)
}

/// A command with the options that must be there.
fn start<'a>(alloc: Global, is_step: bool) -> Result<Command<'a>, AllocError>
    ensures { IfOk result (λ c. app_of c ≡ commands.with_options commands.bare_command (if is_step then (true, codes "turns") ∷ [] else [])) }
{
    let command = Command::new(alloc, "options")
        .no_binary_name(true)
        .disable_help_flag(true);
    if is_step {
        command.arg(value_option(alloc, "turns").required(true))
    } else {
        Ok(command)
    }
}

/// The command that has the options of `step`, or of `run`.
fn command<'a>(alloc: Global, is_step: bool) -> Result<Command<'a>, AllocError>
    ensures { IfOk result (λ c. app_of c ≡ commands.command_of is_step) }
{
    start(alloc, is_step)?
        .arg(value_option(alloc, "seed"))?
        .arg(value_option(alloc, "attempts"))?
        .arg(value_option(alloc, "steps"))?
        .arg(value_option(alloc, "fail"))
}

/// The options of `step`, `--turns` among them, or of `run`, and the words behind them, none of which begins with `-`; none where
/// the words are others.
pub fn read_options<'a>(
    alloc: Global,
    is_step: bool,
    words: &'a [&'a str],
) -> Result<Option<Options<'a>>, AllocError>
    ensures { IfOk result (λ o. parts.ReadsOptions is_step words.now o) }
{
    let Some(end) = options_end(words) else {
        return Ok(None);
    };
    match command(alloc, is_step)?.try_get_matches_from(&words[..end]) {
        Ok(matches) => Ok(Some(Options {
            turns: matches.get_str("turns"),
            seed: matches.get_str("seed"),
            attempts: matches.get_str("attempts"),
            steps: matches.get_str("steps"),
            fail: matches.get_str("fail"),
            rest: &words[end..],
        })),
        Err(error) => match error.kind() {
            ErrorKind::OutOfMemory => Err(AllocError),
            _ => Ok(None),
        },
    }
}
