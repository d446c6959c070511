// A bundle is read: its constants, its module, and its log.
ghost use Rattle.std.specs.Prelude.{ℕ, List, IfOk, IfErr};
ghost use Rattle.pgo_base.specs.Lookup.{Vars};
ghost use Rattle.pgo_bundle.specs.BundleLog.{BundleLog as WrittenLog};
ghost use Rattle.pgo_bundle.specs.Lines.{BundleText};
ghost use Rattle.pgo_bundle.specs.RunLog.{run_log};
ghost use Rattle.pgo_bundle.specs.View.{bundle_log_view};
ghost use Rattle.pgo_model.specs.Module.{Module as WrittenModule};
ghost use Rattle.pgo_model.specs.ModuleView.{module_view};
ghost use Rattle.pgo_log_text.specs.LineNumbers.{NamesLineOf};
ghost use Rattle.pgo_log_text.specs.WrittenRun.{IsWrittenRun};
ghost use Rattle.pgo_model.specs.Core.{Settings};
ghost use Rattle.pgo_model.specs.Log.{Effect};
ghost use Rattle.pgo_model.specs.Machine.{Finished};
ghost use Rattle.pgo_model.specs.System.{System};
ghost use Rattle.pgo_log_text.specs.IsBundle.{HasForm};
ghost use Rattle.pgo_log_text.specs.ReadBundle.{HasOnlyForm, IsFormless, IsReadBundle, IsOnlyBundle, IsRefused, IsStopped, NamesUntied, SpellsOnly, SpellsNone, StartsLog, HasNoModule, TellsTie};

use crate::cursor::Cursor;
use crate::errors::{LineStop, LogStop};
use crate::head::{module_part, opening};
use crate::line::{line_before, log_line, module_line, part_line};
use crate::lines::log_of;
use pgo_base::consts::Consts;
use pgo_base::module::Module;
use pgo_bundle::log::{BundleLog, Version};
use pgo_bundle::places::lines_before;
use pgo_bundle::untied::first_untied;
use pgo_lexer::errors::TextStop;
use pgo_module_read::read::{one_module, read_module};
use std::alloc::Global;

/// The module, the constants and the log of a bundle.
///
/// A text is read where it is a bundle of version 1 or 2. Its module part is any text that spells a written module. The rest stands
/// byte for byte as it is printed: numbers below 2^32 without leading zeros, names of at most 512 bytes, and values that can be
/// written and read back, in their canonical text. Of version 1 the accounts of attempts are read for their form alone; of version
/// 2 they are tied to the entries and the notes.
///
/// - `BadLog` comes where the text is no bundle. Its line counts from 1: it is the first line that no bundle has there, which
///   is the line behind the last where the text ends too soon. Within the module it is that of the first token that can't follow
///   those before it in a module with the bundle's constants; where its constants are others, that of CONSTANTS. Where the records
///   of version 2 aren't tied, it is that of the first record that isn't, else that of the first entry, else of the first note, without a record.
/// - `NoMemory` comes where there is no memory.
///
/// Source: this project's choice.
pub fn read_bundle(alloc: Global, text: &[u8]) -> Result<(Module, Consts, BundleLog), LogStop>
    ensures bundle { IfOk result (λ b. IsReadBundle text.now (module_view b.0) b.1 (bundle_log_view b.2)) }
    ensures only { IfOk result (λ b. IsOnlyBundle text.now (module_view b.0) b.1 (bundle_log_view b.2)) }
    ensures refused { IfErr result (IsRefused text.now) }
    ensures line { IfErr result (NamesLineOf text.now) }
    ensures untied { IfErr result (NamesUntied text.now) }
{
    match bundle_of(alloc, text) {
        Ok((module, consts, log, _first)) => Ok((module, consts, log)),
        Err(stop) => Err(stop.within(text)),
    }
}

/// The same, and the line of the first line of the log.
///
/// Source: this project's choice.
pub fn read_with_line(
    alloc: Global,
    text: &[u8],
) -> Result<(Module, Consts, BundleLog, usize), LogStop>
    ensures bundle { IfOk result (λ b. IsReadBundle text.now (module_view b.0) b.1 (bundle_log_view b.2)) }
    ensures only { IfOk result (λ b. IsOnlyBundle text.now (module_view b.0) b.1 (bundle_log_view b.2)) }
    ensures first { IfOk result (λ b. StartsLog text.now (bundle_log_view b.2) b.3) }
    ensures refused { IfErr result (IsRefused text.now) }
    ensures line { IfErr result (NamesLineOf text.now) }
    ensures untied { IfErr result (NamesUntied text.now) }
{
    match bundle_of(alloc, text) {
        Ok(parts) => Ok(parts),
        Err(stop) => Err(stop.within(text)),
    }
}

/// The same; that the line is one of the text is not said.
fn bundle_of(alloc: Global, text: &[u8]) -> Result<(Module, Consts, BundleLog, usize), LogStop>
    ensures bundle { IfOk result (λ b. IsReadBundle text.now (module_view b.0) b.1 (bundle_log_view b.2)) }
    ensures only { IfOk result (λ b. IsOnlyBundle text.now (module_view b.0) b.1 (bundle_log_view b.2)) }
    ensures first { IfOk result (λ b. StartsLog text.now (bundle_log_view b.2) b.3) }
    ensures refused { IfErr result (IsRefused text.now) }
    ensures untied { IfErr result (NamesUntied text.now) }
{
    match form_of(alloc, text) {
        Ok((module, consts, log, first)) => match untied_stop(alloc, &log, first) {
            Some(stop) => Err(stop),
            None => Ok((module, consts, log, first)),
        },
        Err(stop) => Err(stop),
    }
}

/// Why a log of this form isn't taken: its records aren't tied to its entries and notes, or there was no memory. This is the line
/// of its first line.
fn untied_stop(alloc: Global, log: &BundleLog, first: usize) -> Option<LogStop>
    ensures { TellsTie (bundle_log_view log.now) first result }
{
    match log.version {
        Version::One => None,
        Version::Two => match first_untied(alloc, log) {
            Ok(Some(untied)) => Some(LogStop::BadLog {
                line: first.saturating_add(lines_before(log, untied)),
            }),
            Ok(None) => None,
            Err(_) => Some(LogStop::NoMemory),
        },
    }
}

/// The parts of a text that has the form of a bundle, and the line of the first line of its log.
fn form_of(alloc: Global, text: &[u8]) -> Result<(Module, Consts, BundleLog, usize), LogStop>
    ensures form { IfOk result (λ b. HasForm text.now (module_view b.0) b.1 (bundle_log_view b.2)) }
    ensures only { IfOk result (λ b. HasOnlyForm text.now (module_view b.0) b.1 (bundle_log_view b.2)) }
    ensures first { IfOk result (λ b. StartsLog text.now (bundle_log_view b.2) b.3) }
    ensures refused { IfErr result (IsFormless text.now) }
{
    let mut cursor = Cursor::new(text);
    let (version, consts) = match opening(alloc, &mut cursor) {
        Ok((version, consts)) => (version, consts),
        Err(stop) => return Err(stop.at_line(line_before(text, cursor.left()))),
    };
    let before = cursor.left();
    let part = match module_part(&mut cursor) {
        Ok(part) => part,
        Err(stop) => {
            let line = part_line(alloc, text, before, cursor.left(), &consts);
            return Err(refused_at(stop, line));
        }
    };
    let left = cursor.left();
    let first = line_before(text, left.saturating_add(part.len()));
    let module = match module_of(alloc, part, first, &consts) {
        Ok(module) => module,
        Err(stop) => return Err(stop),
    };
    let start = line_before(text, left);
    match log_of(alloc, &mut cursor, version, &consts, &module) {
        Ok(log) => Ok((module, consts, log, start)),
        Err(stop) => {
            let names = &module.constants;
            let line = log_line(alloc, text, cursor.left(), part, first, &consts, names);
            Err(refused_at(stop, line))
        }
    }
}

/// The text is no bundle from this line on, or there was no memory, as there is none for the line where there is none.
fn refused_at(stop: LineStop, line: Option<usize>) -> LogStop
    ensures { (text : List ℕ) → IsStopped text stop → IsFormless text result }
{
    match line {
        Some(line) => stop.at_line(line),
        None => LogStop::NoMemory,
    }
}

/// The bytes spell no module, from this line on.
fn no_module(line: Option<usize>) -> LogStop
    ensures { (bytes : List ℕ) → SpellsNone bytes → HasNoModule bytes result }
{
    match line {
        Some(line) => LogStop::BadLog { line },
        None => LogStop::NoMemory,
    }
}

/// The module that the bytes spell, of which the first line has this number. These are the constants of the bundle.
fn module_of(alloc: Global, text: &[u8], first: usize, consts: &Consts) -> Result<Module, LogStop>
    ensures ok { IfOk result (λ m. SpellsOnly text.now (module_view m)) }
    ensures refused { IfErr result (HasNoModule text.now) }
{
    match read_module(alloc, text) {
        Ok(module) => Ok(module),
        Err(TextStop::Syntax { .. }) => Err(no_module(module_line(alloc, text, first, consts))),
        Err(TextStop::NoMemory) => Err(LogStop::NoMemory),
    }
}

/// A text is the bundle of at most one module, one list of constants and one log.
pub fn one_bundle()
    ensures { (text : List ℕ) (m : WrittenModule) (consts : Vars) (l : WrittenLog) → IsReadBundle text m consts l → IsOnlyBundle text m consts l }
{
    one_module();
}

/// The bundle of a run that can be written (`IsWrittenRun`) is the bundle of its module, its constants and its log.
pub fn written_runs_are_read()
    ensures { (m : WrittenModule) (consts : Vars) (y : System) (settings : Settings) (f : Finished Effect) (status : ℕ) → IsWrittenRun m consts y settings f status → IsReadBundle (BundleText m consts (run_log y settings f status)) m consts (run_log y settings f status) }
{}
