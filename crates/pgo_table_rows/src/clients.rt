// The clients of all seats of a table.
ghost use Rattle.std.specs.Prelude.{◌≡◌, ◌<◌, ℕ, length, slice_index_or, IfOk, IfSome};
ghost use Rattle.pgo_resource.specs.Layouts.{layout_view};
ghost use Rattle.pgo_shared.specs.SeatBoards.{table_of};
ghost use Rattle.pgo_shared.specs.Seats.{AllAreOf, IsFreshSeat};
ghost use Rattle.pgo_shared.specs.Tables.{terms_of};
ghost use Rattle.pgo_table_rows.specs.ClientLists.{AreClients};
ghost use Rattle.pgo_table_rows.specs.Clients.{Stands};

use crate::client::Client;
use crate::said::Said;
use pgo_resource::layout::BoardLayout;
use pgo_shared::seat_board::BoardSeat;
use pgo_shared::shared::Shared;
use pgo_sheet::answers::push_word;
use pgo_sheet::sheet::halves;
use pgo_starts::content::Content;
use std::alloc::{AllocError, Global};

/// A client for each seat of a table, by number.
#[derive(Drop)]
pub struct Clients<'table, 'layout> {
    pub shared: &'table Shared<Content>,
    pub list: Vec<Client<'table, 'layout>>,
}

/// Makes a call of a client. Its word, the resource and the number are those of the row.
fn called(
    alloc: Global,
    client: &mut Client<'_, '_>,
    word: &str,
    r: u32,
    v: i64,
) -> Result<Said, AllocError>
    requires { Stands client.old }
    ensures stands { Stands client.new }
    ensures table { table_of client.new.board ≡ table_of client.old.board }
{
    match word {
        "take" => client.take(r),
        "write" => client.write(alloc, r, v),
        "read" => client.read(alloc, r),
        "commit" => client.commit(alloc, r),
        "note" => Ok(client.note()),
        "give" => client.give(alloc, r),
        _ => Ok(Said::NotAllowed),
    }
}

impl<'table, 'layout> Clients<'table, 'layout> {
    /// A client for each seat, each of which may add as many notes as its share.
    pub fn new(
        alloc: Global,
        shared: &'table Shared<Content>,
        layout: &'layout BoardLayout,
        seats: Vec<BoardSeat<Content>>,
        share: u32,
    ) -> Result<Clients<'table, 'layout>, AllocError>
        requires layout { layout_view layout.now ≡ (terms_of shared.now).layout }
        requires share { share ≡ (terms_of shared.now).share }
        requires few { length seats.items < 4294967296 }
        requires fresh { (k : ℕ) (d : _) → k < length seats.items → IsFreshSeat shared.now k (slice_index_or seats.items k d) }
        ensures as_many { IfOk result (λ c. length c.list.items ≡ length seats.items) }
        ensures table { IfOk result (λ c. c.shared.now ≡ shared.now) }
        ensures clients { IfOk result AreClients }
    {
        let mut list = Vec::with_capacity(alloc, seats.len())?;
        for seat in seats {
            let number = list.len() as u32;
            let board = shared.board(seat);
            list.push_reserved(Client::new(alloc, board, layout, number, share));
        }
        Ok(Clients { shared, list })
    }

    /// Makes a call of client k.
    fn call(
        &mut self,
        alloc: Global,
        k: usize,
        word: &str,
        r: u32,
        v: i64,
    ) -> Result<Said, AllocError>
        requires clients { AreClients self.old }
        requires near { k < length self.old.list.items }
        ensures clients { AreClients self.new }
        ensures table { self.new.shared.now ≡ self.old.shared.now }
        ensures as_many { length self.new.list.items ≡ length self.old.list.items }
    {
        called(alloc, &mut self.list[k], word, r, v)
    }

    /// What one step says: a word, a client, a resource and a number, with blanks between.
    fn step(&mut self, alloc: Global, step: &str) -> Result<Said, AllocError>
        requires { AreClients self.old }
        ensures clients { AreClients self.new }
        ensures table { self.new.shared.now ≡ self.old.shared.now }
        ensures as_many { length self.new.list.items ≡ length self.old.list.items }
    {
        let (word, rest) = halves(step);
        let (client, rest) = halves(rest);
        let (resource, number) = halves(rest);
        let k = client.parse::<usize>().unwrap_or(usize::MAX);
        let r = resource.parse::<u32>().unwrap_or(u32::MAX);
        let v = number.parse::<i64>().unwrap_or(0);
        if k >= self.list.len() {
            return Ok(Said::NotAllowed);
        }
        self.call(alloc, k, word, r, v)
    }

    /// What all steps say.
    pub fn steps(&mut self, alloc: Global, words: &str) -> Result<String, AllocError>
        requires { AreClients self.old }
        ensures clients { AreClients self.new }
        ensures table { self.new.shared.now ≡ self.old.shared.now }
        ensures as_many { length self.new.list.items ≡ length self.old.list.items }
    {
        let mut answer = String::new(alloc);
        for step in words.split("; ") {
            let said = self.step(alloc, step)?.text(alloc)?;
            push_word(&mut answer, "; ", said.as_str())?;
        }
        Ok(answer)
    }

    /// The seats, where no client holds anything.
    pub fn end(self, alloc: Global) -> Result<Option<Vec<BoardSeat<Content>>>, AllocError>
        requires { AreClients self }
        ensures as_many { IfOk result (λ o. IfSome o (λ v. length v.items ≡ length self.entry.list.items)) }
        ensures seats { IfOk result (λ o. IfSome o (λ v. AllAreOf self.entry.shared.now v.items)) }
    {
        let Clients { shared: _, list } = self;
        let mut seats = Vec::with_capacity(alloc, list.len())?;
        for client in list {
            if !client.holds_nothing() {
                return Ok(None);
            }
            seats.push_reserved(client.end());
        }
        Ok(Some(seats))
    }
}
