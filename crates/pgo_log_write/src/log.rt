// The bundle of a log.
ghost use Rattle.std.specs.Prelude.{◌≡◌, ◌≤◌, [], ◌∷◌, ◌++◌, codes, decimal, length, map, option_map, IfOk};
ghost use Rattle.pgo_base.specs.View.{data_of};
ghost use Rattle.pgo_bundle.specs.Accounts.{account_lines, attempt_fields, attempt_lines, read_accounts_lines};
ghost use Rattle.pgo_bundle.specs.Lines.{BundleText, all_logged_lines};
ghost use Rattle.pgo_bundle.specs.View.{account_view, attempt_view, bundle_log_view, logged_entry_view};
ghost use Rattle.pgo_log_write.specs.LogRows.{as_two};
ghost use Rattle.pgo_log_write.specs.Told.{told_view};
ghost use Rattle.pgo_model.specs.Bundle.{fields, indexed_text};
ghost use Rattle.pgo_model.specs.ModuleText as text;
ghost use Rattle.pgo_model.specs.ModuleText.{flatten, line};
ghost use Rattle.pgo_model.specs.ModuleView.{module_view};

use crate::entries::{push_entry, push_notes, push_values};
use crate::line::Field::{Number, Word};
use crate::line::push_line;
use crate::words::{end_word, indexed, kind_word, word_before_kind, written};
use crate::write::{push_end, push_head};
use pgo_base::consts::Consts;
use pgo_base::log::Values;
use pgo_base::module::Module;
use pgo_base::text::Text;
use pgo_base::value::Value;
use pgo_bundle::log::{Account, Attempt, BundleLog, LoggedEntry};
use std::alloc::{AllocError, Global};

/// Adds the line of attempt number a, which was refused, as this word says, by the instance or at the operation of this number.
fn push_refused(
    bytes: &mut Vec<u8>,
    alloc: Global,
    a: u64,
    word: &[u8],
    number: u32,
    variable: &Text,
    index: &Option<Value>,
) -> Result<(), AllocError>
    ensures { IfOk result (λ _. bytes.new.items ≡ bytes.old.items
        ++ line (fields (decimal a ∷ word.now ∷ decimal number ∷ indexed_text variable.now (option_map data_of index.now) ∷ []))) }
{
    let name = indexed(alloc, variable, index)?;
    push_line(
        bytes,
        &[
            Number(a),
            Word(word),
            Number(number as u64),
            Word(name.as_bytes()),
        ],
    )
}

/// Adds the line of attempt number a.
fn push_attempt(
    bytes: &mut Vec<u8>,
    alloc: Global,
    a: u64,
    attempt: &Attempt,
) -> Result<(), AllocError>
    ensures { IfOk result (λ _. bytes.new.items ≡ bytes.old.items ++ line (fields (decimal a ∷ attempt_fields (attempt_view attempt.now)))) }
{
    match attempt {
        Attempt::Step { n } => push_line(bytes, &[Number(a), Word(b"step"), Number(*n as u64)]),
        Attempt::Noted { kind, position } => push_line(
            bytes,
            &[
                Number(a),
                Word(word_before_kind(*kind)),
                Word(kind_word(*kind)),
                Number(*position as u64),
            ],
        ),
        Attempt::Held {
            holder,
            variable,
            index,
        } => push_refused(bytes, alloc, a, b"held", *holder, variable, index),
        Attempt::HeldJournal { holder } => push_line(
            bytes,
            &[
                Number(a),
                Word(b"held"),
                Number(*holder as u64),
                Word(b"$log"),
            ],
        ),
        Attempt::Down {
            operation,
            variable,
            index,
        } => push_refused(bytes, alloc, a, b"down", *operation, variable, index),
        Attempt::Full { entries } => push_line(
            bytes,
            &[Number(a), Word(b"full"), Number(*entries as u64)],
        ),
    }
}

/// Adds the lines of an account's attempts.
fn push_attempts(bytes: &mut Vec<u8>, alloc: Global, attempts: &[Attempt]) -> Result<(), AllocError>
    ensures { IfOk result (λ _. bytes.new.items ≡ bytes.old.items ++ flatten (attempt_lines 1 (map attempt_view attempts.now))) }
{
    for (i, attempt) in attempts.iter().enumerate() {
        push_attempt(bytes, alloc, i as u64 + 1, attempt)?;
    }
    Ok(())
}

/// Adds the account of instance k.
fn push_account(
    bytes: &mut Vec<u8>,
    alloc: Global,
    k: u64,
    account: &Account,
) -> Result<(), AllocError>
    ensures { IfOk result (λ _. bytes.new.items ≡ bytes.old.items ++ flatten (account_lines k (account_view account.now))) }
{
    let attempts = account.attempts.as_slice();
    let id = written(alloc, &account.id)?;
    push_line(
        bytes,
        &[
            Word(b"inst"),
            Number(k),
            Number(attempts.len() as u64),
            Word(end_word(account.end)),
            Word(id.as_bytes()),
        ],
    )?;
    push_attempts(bytes, alloc, attempts)
}

/// Adds the accounts of all instances.
fn push_accounts(bytes: &mut Vec<u8>, alloc: Global, accounts: &[Account]) -> Result<(), AllocError>
    ensures { IfOk result (λ _. bytes.new.items ≡ bytes.old.items ++ flatten (read_accounts_lines 0 (map account_view accounts.now))) }
{
    for (k, account) in accounts.iter().enumerate() {
        push_account(bytes, alloc, k as u64, account)?;
    }
    Ok(())
}

/// What was printed, where it is told.
fn told(prints: &Option<Values>) -> Option<&[Value]>
    ensures { told_view result ≡ prints.now }
{
    match prints {
        Some(values) => Some(values.as_slice()),
        None => None,
    }
}

/// Adds the lines of all entries.
fn push_entries(
    bytes: &mut Vec<u8>,
    alloc: Global,
    entries: &[LoggedEntry],
) -> Result<(), AllocError>
    ensures { IfOk result (λ _. bytes.new.items ≡ bytes.old.items ++ flatten (all_logged_lines 1 (map logged_entry_view entries.now))) }
{
    for (i, e) in entries.iter().enumerate() {
        let n = i as u64 + 1;
        push_entry(
            bytes,
            alloc,
            n,
            &e.entry,
            told(&e.prints),
            e.notes.as_slice(),
        )?;
    }
    Ok(())
}

/// The text of the bundle of a log, in version 2, with this module and these constants.
///
/// `AllocError` comes where there is no memory, and where the module's text has 2^32 bytes or more.
///
/// Source: this project's choice.
pub fn write_log(
    alloc: Global,
    m: &Module,
    consts: &Consts,
    log: &BundleLog,
) -> Result<Text, AllocError>
    ensures text { IfOk result (λ t. t ≡ BundleText (module_view m.now) consts.now (as_two (bundle_log_view log.now))) }
    ensures short { IfOk result (λ _. length (text.Text (module_view m.now)) ≤ 4294967295) }
{
    let mut bytes = Vec::new(alloc);
    let entries = log.entries.as_slice();
    push_head(&mut bytes, alloc, m, consts)?;
    push_values(&mut bytes, alloc, b"init", log.start.as_slice())?;
    push_notes(&mut bytes, log.notes.as_slice())?;
    push_entries(&mut bytes, alloc, entries)?;
    push_accounts(&mut bytes, alloc, log.accounts.as_slice())?;
    push_end(&mut bytes, entries.len() as u64, log.status as u64)?;
    Ok(Text::from_bytes(bytes)?)
}
