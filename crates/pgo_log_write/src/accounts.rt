// The accounts of instances.
ghost use Rattle.std.specs.Prelude.{◌≡◌, ◌∷◌, ◌++◌, decimal, map, IfOk};
ghost use Rattle.pgo_meaning.specs.System.{resource_of};
ghost use Rattle.pgo_model.specs.Bundle.{fields, record_fields, record_lines};
ghost use Rattle.pgo_model.specs.ModuleText.{flatten, line};
ghost use Rattle.pgo_syntax.specs.RecordView.{refusal_view, result_view};
ghost use Rattle.pgo_log_write.specs.IsFinished.{record_of};
ghost use Rattle.pgo_log_write.specs.Lines.{account_rows, accounts_rows};

use crate::line::Field::{Number, Word};
use crate::line::push_line;
use crate::words::{end_word, kind_word, refused, word_before_kind, written};
use pgo_journal::finished::Account;
use pgo_syntax::bound::{Instance, Resource};
use pgo_syntax::records::{AttemptResult, NoteKind, Record, Refusal};
use std::alloc::{AllocError, Global};

/// Adds the line of a refusal of attempt number a.
fn push_refusal(
    bytes: &mut Vec<u8>,
    alloc: Global,
    resources: &[Resource],
    a: u64,
    refusal: Refusal,
) -> Result<(), AllocError>
    ensures { IfOk result (λ _. bytes.new.items ≡ bytes.old.items
        ++ line (fields (decimal a ∷ record_fields (map resource_of resources.now) (refusal_view refusal)))) }
{
    match refusal {
        Refusal::Held { resource, holder } => {
            let name = refused(alloc, resources, resource)?;
            push_line(
                bytes,
                &[
                    Number(a),
                    Word(b"held"),
                    Number(holder as u64),
                    Word(name.as_bytes()),
                ],
            )
        }
        Refusal::Down { resource, op } => {
            let name = refused(alloc, resources, resource)?;
            push_line(
                bytes,
                &[
                    Number(a),
                    Word(b"down"),
                    Number(op as u64),
                    Word(name.as_bytes()),
                ],
            )
        }
        Refusal::Full { entries } => {
            push_line(bytes, &[Number(a), Word(b"full"), Number(entries as u64)])
        }
        Refusal::Many { position, .. } => {
            let kind = NoteKind::Many;
            push_line(
                bytes,
                &[
                    Number(a),
                    Word(word_before_kind(kind)),
                    Word(kind_word(kind)),
                    Number(position as u64),
                ],
            )
        }
    }
}

/// Adds the line of what became of attempt number a.
fn push_result(
    bytes: &mut Vec<u8>,
    alloc: Global,
    resources: &[Resource],
    a: u64,
    outcome: AttemptResult,
) -> Result<(), AllocError>
    ensures { IfOk result (λ _. bytes.new.items ≡ bytes.old.items
        ++ line (fields (decimal a ∷ record_fields (map resource_of resources.now) (result_view outcome)))) }
{
    match outcome {
        AttemptResult::Step { n } => push_line(
            bytes,
            &[Number(a), Word(b"step"), Number(n as u64)],
        ),
        AttemptResult::Noted { kind, n } => {
            push_line(
                bytes,
                &[
                    Number(a),
                    Word(word_before_kind(kind)),
                    Word(kind_word(kind)),
                    Number(n as u64),
                ],
            )
        }
        AttemptResult::Refused { refusal } => push_refusal(bytes, alloc, resources, a, refusal),
    }
}

/// Adds the lines of an instance's records.
fn push_records(
    bytes: &mut Vec<u8>,
    alloc: Global,
    resources: &[Resource],
    records: &[Record],
) -> Result<(), AllocError>
    ensures { IfOk result (λ _. bytes.new.items ≡ bytes.old.items
        ++ flatten (record_lines (map resource_of resources.now) 1 (map record_of records.now))) }
{
    for (i, r) in records.iter().enumerate() {
        push_result(bytes, alloc, resources, i as u64 + 1, r.result)?;
    }
    Ok(())
}

/// Adds the account of instance k.
fn push_account(
    bytes: &mut Vec<u8>,
    alloc: Global,
    resources: &[Resource],
    k: u64,
    instance: &Instance,
    account: &Account,
) -> Result<(), AllocError>
    ensures { IfOk result (λ _. bytes.new.items ≡ bytes.old.items
        ++ flatten (account_rows (map resource_of resources.now) k instance.now account.now)) }
{
    let records = account.records.as_slice();
    let id = written(alloc, &instance.id)?;
    push_line(
        bytes,
        &[
            Word(b"inst"),
            Number(k),
            Number(records.len() as u64),
            Word(end_word(account.end)),
            Word(id.as_bytes()),
        ],
    )?;
    push_records(bytes, alloc, resources, records)
}

/// Adds the accounts of all instances that have one.
pub fn push_accounts(
    bytes: &mut Vec<u8>,
    alloc: Global,
    resources: &[Resource],
    instances: &[Instance],
    accounts: &[Account],
) -> Result<(), AllocError>
    ensures { IfOk result (λ _. bytes.new.items ≡ bytes.old.items
        ++ flatten (accounts_rows (map resource_of resources.now) 0 instances.now accounts.now)) }
{
    for k in 0..instances.len().min(accounts.len()) {
        push_account(
            bytes,
            alloc,
            resources,
            k as u64,
            &instances[k],
            &accounts[k],
        )?;
    }
    Ok(())
}
