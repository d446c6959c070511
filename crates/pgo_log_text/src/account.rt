// The accounts of instances.
ghost use Rattle.std.specs.Prelude.{[], map};
ghost use Rattle.pgo_bundle.specs.View.{account_view, end_view};
ghost use Rattle.pgo_log_text.specs.Lines as spec;
ghost use Rattle.pgo_log_text.specs.Parsers.{ReadsAs};

use crate::attempt::attempts;
use crate::cursor::Cursor;
use crate::errors::LineStop;
use crate::field::{last_value, number_field, this_field};
use pgo_bundle::log::{Account, Accounts};
use pgo_syntax::records::End;
use std::alloc::Global;

/// How an instance ended.
#[tactic(auto, unfolding(crate::specs::Lines::end_word, crate::specs::Lines::word_of))]
fn end_word(cursor: &mut Cursor<'_>) -> Result<Option<End>, LineStop>
    ensures { ReadsAs end_view (spec.end_word cursor.old) result cursor.new }
{
    if cursor.begins(b"done ") {
        cursor.expect(b"done ")?;
        return Ok(Some(End::Done));
    }
    if cursor.begins(b"stopped ") {
        cursor.expect(b"stopped ")?;
        return Ok(Some(End::Stopped));
    }
    if cursor.begins(b"full ") {
        cursor.expect(b"full ")?;
        return Ok(Some(End::Full));
    }
    if cursor.begins(b"spent ") {
        cursor.expect(b"spent ")?;
        return Ok(Some(End::Spent));
    }
    cursor.expect(b"paused ")?;
    Ok(None)
}

/// The account of this instance.
#[tactic(auto, unfolding(crate::specs::Lines::account))]
fn account(alloc: Global, cursor: &mut Cursor<'_>, number: u32) -> Result<Account, LineStop>
    ensures { ReadsAs account_view (spec.account number cursor.old) result cursor.new }
{
    cursor.expect(b"inst ")?;
    this_field(cursor, number as usize)?;
    let count = number_field(cursor)?;
    let end = end_word(cursor)?;
    let id = last_value(alloc, cursor)?;
    let attempts = attempts(alloc, cursor, count)?;
    Ok(Account { id, end, attempts })
}

/// The accounts, numbered from 0.
pub fn accounts(alloc: Global, cursor: &mut Cursor<'_>) -> Result<Accounts, LineStop>
    ensures { ReadsAs (λ cs. map account_view cs) (spec.accounts spec.most_parts 0 [] cursor.old) result cursor.new }
{
    let mut accounts = Accounts::new(alloc);
    let mut count: u32 = 0;
    'parts: while cursor.begins(b"inst ") {
        if count == u32::MAX {
            return Err(LineStop::BadLine);
        }
        accounts.push(account(alloc, cursor, count)?)?;
        count += 1;
    }
    Ok(accounts)
}
