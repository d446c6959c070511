// What words ask for.
ghost use Rattle.std.specs.Prelude.{◌≡◌, IfOk, IfErr, IfSome, codes, false, option_map};
ghost use Rattle.pgo_model.specs.ValueText.{is_one_of};
ghost use Rattle.pgo_words.specs.Asks as asked;
ghost use Rattle.pgo_words.specs.Asks.{Asks, IsAll};
ghost use Rattle.pgo_words.specs.Parts.{texts};
ghost use Rattle.pgo_words.specs.Reads.{BehindOnly, BothOnly, both_view, parks_at, RequestOnly, RunOnly, SizeOnly};
ghost use Rattle.pgo_words.specs.Settings as spec;
ghost use Rattle.pgo_words.specs.View.{command_view, request_view};
ghost use Rattle.pgo_words.specs.declared.commands.CommandName.TheVariants as names;

use crate::commands::{CommandName, find_command};
use crate::constants::read_constants;
use crate::errors::WordStop;
use crate::numbers::number;
use crate::options::{Options, read_options, texts_of};
use crate::park::{park_place, without};
use crate::request::{Command, Request};
use crate::settings::{default_settings, read_settings};
use crate::turns::read_list;
use pgo_base::consts::Consts;
use pgo_base::word::Word;
use pgo_syntax::records::Settings;
use std::alloc::{AllocError, Global};

/// What the words of the command line, without the program's name, ask for: a command, then its options, `--name` and its value
/// as the next word, at most once each and in any order, then its constants, `NAME=value` with an identifier of at most 512 bytes
/// and the text of a value, each name once. `compile` and `expand` have constants, `step` and `run` options and constants; `check`
/// and `migrate` have neither, and `load` a number from 1 to 32 alone. `step` and `run` have `--seed` (below 2^64, 0 where it
/// isn't given),
/// `--attempts` and `--steps` (at most 100,000 each, 10,000 where they aren't given), and `--fail`: one item or more, separated by
/// commas, each `resource:number`, both below 2^32. It sets the pre-commit of that number, from 1, at the resource of that number
/// to fail; no pre-commit fails where it isn't given. Such a pair is never met where the number is 0 or there is no such resource,
/// and is no usage error. `run` has `--park` besides, which has no value, and `step` has `--turns`, which must be given: one item or
/// more, separated by commas, each `k` or `k*n`, n turns of k, where k is below 2^32 and n is at least 1, at most 1,000,000 turns in
/// all. Numbers are decimal digits without sign or leading zeros.
///
/// `Usage` comes exactly where the words ask for nothing of these. Source: this project's choice.
pub fn read_words(alloc: Global, words: &[Word]) -> Result<Request, WordStop>
    ensures asks { IfOk result (λ r. Asks words.now (request_view r)) }
    ensures only { IfOk result (λ r. IsAll words.now (request_view r)) }
    ensures usage { IfErr result (λ e. e ≡ WordStop.Usage → (other : asked.Request) → Asks words.now other → ⊥) }
    ensures parks { IfOk result (λ r. r.settings.park ≡ is_one_of (codes "--park") words.now) }
{
    match read_request(alloc, words) {
        Ok(Some(request)) => Ok(request),
        Ok(None) => Err(WordStop::Usage),
        Err(_) => Err(WordStop::NoMemory),
    }
}

/// What the words ask for; none where they ask for nothing that there is.
fn read_request(alloc: Global, words: &[Word]) -> Result<Option<Request>, AllocError>
    ensures reads { IfOk result (λ o. RequestOnly words.now (option_map request_view o)) }
    ensures parks { IfOk result (λ o. IfSome o (λ r. r.settings.park ≡ is_one_of (codes "--park") words.now)) }
{
    let texts = texts_of(alloc, words)?;
    match texts.as_slice() {
        [command, behind @ ..] => match find_command(command.as_bytes()) {
            Some(name) => read_command(alloc, name, behind),
            None => Ok(None),
        },
        _ => Ok(None),
    }
}

/// What the command asks for with these words behind it.
fn read_command(
    alloc: Global,
    name: CommandName,
    behind: &[&str],
) -> Result<Option<Request>, AllocError>
    ensures reads { IfOk result (λ o. BehindOnly name (texts behind.now) (option_map request_view o)) }
    ensures parks { IfOk result (λ o. IfSome o (λ r. r.settings.park ≡ parks_at name (texts behind.now))) }
{
    match name {
        CommandName::Compile => read_compile(alloc, behind),
        CommandName::Expand => read_expand(alloc, behind),
        CommandName::Step => read_step(alloc, behind),
        CommandName::Run => read_run(alloc, behind),
        CommandName::Check => Ok(read_check(alloc, behind)),
        CommandName::Migrate => Ok(read_migrate(alloc, behind)),
        CommandName::Load => Ok(read_load(alloc, behind)),
    }
}

/// `compile` and constants.
fn read_compile(alloc: Global, behind: &[&str]) -> Result<Option<Request>, AllocError>
    ensures reads { IfOk result (λ o. BehindOnly names.Compile (texts behind.now) (option_map request_view o)) }
    ensures parks { IfOk result (λ o. IfSome o (λ r. r.settings.park ≡ parks_at names.Compile (texts behind.now))) }
{
    match read_constants(alloc, behind)? {
        Some(consts) => Ok(Some(without_options(alloc, Command::Compile, consts))),
        None => Ok(None),
    }
}

/// `expand` and constants.
fn read_expand(alloc: Global, behind: &[&str]) -> Result<Option<Request>, AllocError>
    ensures reads { IfOk result (λ o. BehindOnly names.Expand (texts behind.now) (option_map request_view o)) }
    ensures parks { IfOk result (λ o. IfSome o (λ r. r.settings.park ≡ parks_at names.Expand (texts behind.now))) }
{
    match read_constants(alloc, behind)? {
        Some(consts) => Ok(Some(without_options(alloc, Command::Expand, consts))),
        None => Ok(None),
    }
}

/// `step`, its options and constants.
fn read_step(alloc: Global, behind: &[&str]) -> Result<Option<Request>, AllocError>
    ensures reads { IfOk result (λ o. BehindOnly names.Step (texts behind.now) (option_map request_view o)) }
    ensures parks { IfOk result (λ o. IfSome o (λ r. r.settings.park ≡ parks_at names.Step (texts behind.now))) }
{
    let Some(options) = read_options(alloc, true, behind)? else {
        return Ok(None);
    };
    let Some(list) = options.turns else {
        return Ok(None);
    };
    let Some(turns) = read_list(alloc, list)? else {
        return Ok(None);
    };
    match read_both(alloc, &options, false)? {
        Some((settings, consts)) => Ok(Some(Request {
            command: Command::Step { turns },
            consts,
            settings,
        })),
        None => Ok(None),
    }
}

/// `run`, its options, `--park` among them or not, and constants.
fn read_run(alloc: Global, behind: &[&str]) -> Result<Option<Request>, AllocError>
    ensures reads { IfOk result (λ o. BehindOnly names.Run (texts behind.now) (option_map request_view o)) }
    ensures parks { IfOk result (λ o. IfSome o (λ r. r.settings.park ≡ parks_at names.Run (texts behind.now))) }
{
    match park_place(behind) {
        Some(at) => {
            let others = without(alloc, behind, at)?;
            read_run_options(alloc, others.as_slice(), true)
        }
        None => read_run_options(alloc, behind, false),
    }
}

/// `run` with the options that have values and with constants, where blocked instances wait or not.
fn read_run_options(
    alloc: Global,
    words: &[&str],
    park: bool,
) -> Result<Option<Request>, AllocError>
    ensures reads { IfOk result (λ o. RunOnly (texts words.now) (option_map request_view o)) }
    ensures parks { IfOk result (λ o. IfSome o (λ r. r.settings.park ≡ park)) }
{
    let Some(options) = read_options(alloc, false, words)? else {
        return Ok(None);
    };
    match read_both(alloc, &options, park)? {
        Some((settings, consts)) => Ok(Some(Request {
            command: Command::Run,
            consts,
            settings,
        })),
        None => Ok(None),
    }
}

/// The settings that the options give, and the constants behind them.
fn read_both(
    alloc: Global,
    options: &Options,
    park: bool,
) -> Result<Option<(Settings, Consts)>, AllocError>
    ensures reads { IfOk result (λ o. BothOnly options.now (option_map both_view o)) }
    ensures parks { IfOk result (λ o. IfSome o (λ p. p.0.park ≡ park)) }
{
    let Some(settings) = read_settings(alloc, options, park)? else {
        return Ok(None);
    };
    match read_constants(alloc, options.rest)? {
        Some(consts) => Ok(Some((settings, consts))),
        None => Ok(None),
    }
}

/// `check` alone.
fn read_check(alloc: Global, behind: &[&str]) -> Option<Request>
    ensures reads { BehindOnly names.Check (texts behind.now) (option_map request_view result) }
    ensures parks { IfSome result (λ r. r.settings.park ≡ parks_at names.Check (texts behind.now)) }
{
    if behind.is_empty() {
        Some(without_options(alloc, Command::Check, Consts::new(alloc)))
    } else {
        None
    }
}

/// `migrate` alone.
fn read_migrate(alloc: Global, behind: &[&str]) -> Option<Request>
    ensures reads { BehindOnly names.Migrate (texts behind.now) (option_map request_view result) }
    ensures parks { IfSome result (λ r. r.settings.park ≡ parks_at names.Migrate (texts behind.now)) }
{
    if behind.is_empty() {
        Some(without_options(alloc, Command::Migrate, Consts::new(alloc)))
    } else {
        None
    }
}

/// `load` and a size.
fn read_load(alloc: Global, behind: &[&str]) -> Option<Request>
    ensures reads { BehindOnly names.Load (texts behind.now) (option_map request_view result) }
    ensures parks { IfSome result (λ r. r.settings.park ≡ parks_at names.Load (texts behind.now)) }
{
    if behind.len() != 1 {
        return None;
    }
    match read_size(behind[0]) {
        Some(size) => Some(without_options(alloc, Command::Load { size }, Consts::new(alloc))),
        None => None,
    }
}

/// A number from 1 to 32.
fn read_size(text: &str) -> Option<u32>
    ensures { SizeOnly text.now result }
{
    match number(text) {
        Some(size) => {
            if 1 <= size && size <= 32 {
                Some(size)
            } else {
                None
            }
        }
        None => None,
    }
}

/// A command without options.
fn without_options(alloc: Global, command: Command, consts: Consts) -> Request
    ensures view { request_view result ≡ record { command = command_view command; consts = consts; settings = spec.default_settings } }
    ensures unparked { result.settings.park ≡ false }
{
    Request {
        command,
        consts,
        settings: default_settings(alloc),
    }
}
