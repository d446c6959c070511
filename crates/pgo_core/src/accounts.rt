// The accounts of workers, in room that was taken before.
ghost use Rattle.std.specs.Prelude.{◌≡◌, ◌≤◌, ◌<◌, ℕ, List, true, length, map, Some, vec_len, vec_capacity, IfOk};
ghost use Rattle.pgo_model.specs.Machine.{nth};
ghost use Rattle.pgo_syntax.specs.ManyLeaves.{results_in};
ghost use Rattle.pgo_syntax.specs.RecordView.{record_view, result_view};
ghost use Rattle.pgo_core.specs.Cores.{all_roomy, attempts_from, IsAccountOf, AreAccountsOf};

use pgo_base::items::Items;
use pgo_journal::finished::Account;
use pgo_section::worker::Worker;
use pgo_syntax::records::{AttemptResult, Record};
use std::alloc::{AllocError, Global};

/// So many empty lists, with room for the records of all attempts.
pub fn rooms_of(alloc: Global, count: usize, attempts: u32) -> Result<Vec<Vec<Record>>, AllocError>
    ensures as_many { IfOk result (λ rooms. vec_len rooms ≡ count) }
    ensures roomy { IfOk result (λ rooms. all_roomy attempts rooms.items ≡ true) }
{
    let mut rooms = Vec::with_capacity(alloc, count)?;
    for _ in 0..count {
        let room = Vec::with_capacity(alloc, attempts as usize)?;
        rooms.push_reserved(room);
    }
    Ok(rooms)
}

/// These results, numbered from 1.
fn numbered(results: &[AttemptResult], mut room: Vec<Record>) -> Vec<Record>
    requires empty { length room.items ≡ 0 }
    requires fits { length results.now ≤ vec_capacity room }
    requires few { length results.now < 4294967296 }
    ensures told { map record_view result.items ≡ attempts_from 1 (map result_view results.now) }
    ensures same { results_in result.items ≡ results.now }
{
    for told in results {
        let attempt = room.len() as u32 + 1;
        room.push_reserved(Record {
            attempt,
            result: *told,
        });
    }
    room
}

/// A worker's account.
fn account_of<P: Drop>(worker: &Worker<P>, room: Vec<Record>) -> Account
    requires empty { length room.items ≡ 0 }
    requires fits { length worker.now.records.items ≤ vec_capacity room }
    requires few { length worker.now.records.items < 4294967296 }
    ensures { IsAccountOf worker.now result }
{
    let list = numbered(worker.records(), room);
    Account {
        records: Items::from_vec(list),
        end: worker.end(),
    }
}

/// The accounts of all workers, in order.
pub fn accounts_of<P: Drop>(
    workers: &[Worker<P>],
    rooms: Vec<Vec<Record>>,
    attempts: u32,
    accounts: &mut Vec<Account>,
)
    requires as_many { vec_len rooms ≡ length workers.now }
    requires roomy { all_roomy attempts rooms.items ≡ true }
    requires bounded { (k : ℕ) (w : Worker P) → nth workers.now k ≡ Some w → length w.records.items ≤ attempts }
    requires none_yet { length accounts.old.items ≡ 0 }
    requires room { length workers.now ≤ vec_capacity accounts.old }
    ensures as_many { length accounts.new.items ≡ length workers.now }
    ensures are { AreAccountsOf workers.now accounts.new.items }
{
    for room in rooms {
        let k = accounts.len();
        accounts.push_reserved(account_of(&workers[k], room));
    }
}
