// All clients of a table at work at once, each in a thread.
ghost use Rattle.std.specs.Prelude.{◌≡◌, length, IfOk};
ghost use Rattle.pgo_shared.specs.SeatBoards.{table_of};
ghost use Rattle.pgo_table_rows.specs.ClientLists.{AreClients};
ghost use Rattle.pgo_table_rows.specs.Clients.{Stands};

use crate::client::Client;
use crate::clients::Clients;
use crate::said::Said;
use std::alloc::{AllocError, Global};
use std::thread;
use std::thread::Threads;

/// How many turns a client makes at most.
const MOST_TURNS: u64 = 1_000_000_000;

/// Adds one to a cell and commits that; false where a call was refused.
fn add_one(alloc: Global, client: &mut Client<'_, '_>, r: u32) -> Result<bool, AllocError>
    requires { Stands client.old }
    ensures stands { Stands client.new }
    ensures table { table_of client.new.board ≡ table_of client.old.board }
{
    let Said::Done = client.take(r)? else {
        return Ok(false);
    };
    if let Said::Value(v) = client.read(alloc, r)? {
        client.write(alloc, r, v.wrapping_add(1))?;
    }
    let committed = client.commit(alloc, r)?;
    client.give(alloc, r)?;
    Ok(committed.is_number())
}

/// A turn: a note where there are fewer than commits, and else a commit. How many commits there are then.
fn turn(alloc: Global, client: &mut Client<'_, '_>, committed: u32) -> Result<u32, AllocError>
    requires { Stands client.old }
    ensures stands { Stands client.new }
    ensures table { table_of client.new.board ≡ table_of client.old.board }
{
    let cells = client.layout.resources.as_slice().len() as u32;
    if client.noted < committed || cells == 0 {
        client.note();
        return Ok(committed);
    }
    let r = client.number.wrapping_add(committed) % cells;
    if add_one(alloc, client, r)? {
        Ok(committed.wrapping_add(1))
    } else {
        Ok(committed)
    }
}

/// Makes so many commits, on one cell after another, and a note behind each.
fn work<'table, 'layout>(
    alloc: Global,
    mut client: Client<'table, 'layout>,
    times: u32,
) -> Client<'table, 'layout>
    requires { Stands client }
    ensures stands { Stands result }
    ensures table { table_of result.board ≡ table_of client.entry.board }
{
    let mut committed = 0;
    let mut left = MOST_TURNS;
    while left > 0 {
        left -= 1;
        if committed >= times && client.noted >= times {
            return client;
        }
        match turn(alloc, &mut client, committed) {
            Ok(n) => committed = n,
            Err(_) => return client,
        }
    }
    client
}

/// The clients once all have worked, each in a thread of its own.
pub fn work_at_once<'table, 'layout, T: Threads + Sync>(
    rt: &T,
    alloc: Global,
    clients: Clients<'table, 'layout>,
    times: u32,
) -> Result<Clients<'table, 'layout>, AllocError>
    requires { AreClients clients }
    ensures as_many { IfOk result (λ c. length c.list.items ≡ length clients.entry.list.items) }
    ensures table { IfOk result (λ c. c.shared.now ≡ clients.entry.shared.now) }
    ensures clients { IfOk result AreClients }
{
    let Clients { shared, list } = clients;
    let list = thread::map_vec(
        rt,
        list,
        &|client: Client<'_, '_>| -> Client<'_, '_>
            requires { Stands client }
            ensures { Stands result × (table_of result.board ≡ table_of client.entry.board) }
        { work(alloc, client, times) },
    )?;
    Ok(Clients { shared, list })
}
