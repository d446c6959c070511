// A bundle of version 1 is brought over.
ghost use Rattle.std.specs.Prelude.{◌≡◌, ◌≤◌, ◌<◌, ◌^◌, length, map, IfOk, IfErr};
ghost use Rattle.pgo_bundle.specs.BundleLog.{One};
ghost use Rattle.pgo_bundle.specs.Lines.{BundleText};
ghost use Rattle.pgo_bundle.specs.Noted.{AreFew};
ghost use Rattle.pgo_bundle.specs.View.{account_view, bundle_log_view};
ghost use Rattle.pgo_log_text.specs.LineNumbers.{NamesLineOf};
ghost use Rattle.pgo_log_text.specs.ReadBundle.{NamesUntied};
ghost use Rattle.pgo_log_text.specs.declared.errors.LogStop.TheVariants.{NoMemory};
ghost use Rattle.pgo_log_write.specs.LogRows.{as_two};
ghost use Rattle.pgo_migrate.specs.Migrates.{IsNotMigrated, IsOfTwo, IsUntiedFrom, IsUntiedLine, IsWritten, Migrates};
ghost use Rattle.pgo_model.specs.ModuleText as text;
ghost use Rattle.pgo_model.specs.ModuleView.{module_view};

use crate::laws::{forms_are_of_one, migrations_are_read};
use pgo_base::consts::Consts;
use pgo_base::module::Module;
use pgo_base::text::Text;
use pgo_bundle::log::{BundleLog, Version};
use pgo_bundle::places::lines_before;
use pgo_bundle::untied::first_untied;
use pgo_log_text::bundle_reader::read_with_line;
use pgo_log_text::errors::LogStop;
use pgo_log_write::log::write_log;
use std::alloc::Global;

/// The bundle of version 2 of a bundle of version 1: of the same module, the same constants and the same log. It isn't told what
/// entries printed, and notes stand behind the entries that their records name, of one place by instance, and then by attempt.
///
/// - `BadLog` comes where the text is no bundle of version 1, or its records aren't tied to its entries. Its line is that of
///   `read_bundle` where the text is no bundle; 1 where it is one of version 2; else that of the first record that isn't tied, or,
///   where all are, of the first entry whose attempt has no record.
/// - `NoMemory` comes where there is no memory, and where the module's text has 2^32 bytes or more.
///
/// Source: this project's choice.
pub fn migrate(alloc: Global, text: &[u8]) -> Result<Text, LogStop>
    ensures written { IfOk result (Migrates text.now) }
    ensures refused { IfErr result (IsNotMigrated text.now) }
    ensures line { IfErr result (NamesLineOf text.now) }
    ensures two { IfErr result (IsOfTwo text.now) }
    ensures untied { IfErr result (IsUntiedLine text.now) }
    ensures form { IfErr result (NamesUntied text.now) }
{
    migrations_are_read();
    forms_are_of_one();
    match read_with_line(alloc, text) {
        Ok((module, consts, log, first)) => match log.version {
            Version::One => migrate_log(alloc, &module, &consts, log, first),
            Version::Two => Err(LogStop::BadLog { line: 1 }),
        },
        Err(stop) => Err(stop),
    }
}

/// The bundle of version 2 of this module, these constants and this log of version 1, whose first line has this number.
fn migrate_log(
    alloc: Global,
    module: &Module,
    consts: &Consts,
    log: BundleLog,
    first: usize,
) -> Result<Text, LogStop>
    requires one { (bundle_log_view log).version ≡ One }
    requires few { AreFew (map account_view log.accounts) }
    requires entries { length log.entries < 2 ^ 32 }
    ensures written { IfOk result (IsWritten (module_view «module».now) consts.now (bundle_log_view log)) }
    ensures untied { IfErr result (IsUntiedFrom (bundle_log_view log) first) }
{
    let log = match log.noted(alloc) {
        Ok(log) => log,
        Err(_) => return Err(LogStop::NoMemory),
    };
    match first_untied(alloc, &log) {
        Ok(None) => written(alloc, module, consts, &log),
        Ok(Some(untied)) => Err(LogStop::BadLog {
            line: first.saturating_add(lines_before(&log, untied)),
        }),
        Err(_) => Err(LogStop::NoMemory),
    }
}

/// The text of the bundle of a log.
fn written(
    alloc: Global,
    module: &Module,
    consts: &Consts,
    log: &BundleLog,
) -> Result<Text, LogStop>
    ensures text { IfOk result (λ t. t ≡ BundleText (module_view «module».now) consts.now (as_two (bundle_log_view log.now))) }
    ensures short { IfOk result (λ _. length (text.Text (module_view «module».now)) ≤ 4294967295) }
    ensures refused { IfErr result (λ stop. stop ≡ NoMemory) }
{
    match write_log(alloc, module, consts, log) {
        Ok(text) => Ok(text),
        Err(_) => Err(LogStop::NoMemory),
    }
}
