// A board with what its instance holds, whose calls are made only where the board's contract allows them.
ghost use Rattle.std.specs.Prelude.{◌≡◌, [], true, IfOk, length, nat_eq, nat_lt, vec_len};
ghost use Rattle.pgo_model.specs.Machine.{among};
ghost use Rattle.pgo_resource.specs.Layouts.{layout_view};
ghost use Rattle.pgo_shared.specs.SeatBoards.{layout_of_board, shows_of, table_of};
ghost use Rattle.pgo_shared.specs.Seats.{IsOf};
ghost use Rattle.pgo_table_rows.specs.Clients.{Knows, Stands, others};

use crate::cells::entry;
use crate::contents::{put_back, put_number, settle, value_of};
use crate::said::{Said, number_said, written_said};
use pgo_resource::board::Board;
use pgo_resource::layout::BoardLayout;
use pgo_shared::seat_board::{BoardSeat, SeatBoard};
use pgo_starts::content::Content;
use pgo_syntax::records::{Note, NoteKind};
use std::alloc::{AllocError, Global};

/// A board over cells, the resources that it holds in the order of taking, and how many notes it added of those that it may.
#[derive(Drop)]
pub struct Client<'table, 'layout> {
    pub board: SeatBoard<'table, Content>,
    pub layout: &'layout BoardLayout,
    pub number: u32,
    pub share: u32,
    pub noted: u32,
    pub held: Vec<u32>,
}

/// All but r.
fn without(alloc: Global, held: &[u32], r: u32) -> Result<Vec<u32>, AllocError>
    ensures { IfOk result (λ v. v.items ≡ others r held.now) }
{
    let mut left = Vec::with_capacity(alloc, held.len())?;
    for x in held {
        if *x != r {
            left.push(*x)?;
        }
    }
    Ok(left)
}

impl<'table, 'layout> Client<'table, 'layout> {
    /// The client of a board at a table of this layout, which may add so many notes.
    pub fn new(
        alloc: Global,
        board: SeatBoard<'table, Content>,
        layout: &'layout BoardLayout,
        number: u32,
        share: u32,
    ) -> Client<'table, 'layout>
        requires layout { layout_view layout.now ≡ layout_of_board board }
        requires board { Knows (shows_of board) number share 0 [] }
        ensures stands { Stands result }
        ensures table { table_of result.board ≡ table_of board.entry }
    {
        Client {
            board,
            layout,
            number,
            share,
            noted: 0,
            held: Vec::new(alloc),
        }
    }

    fn is_resource(&self, r: u32) -> bool
        ensures { result ≡ nat_lt r (length (layout_view self.now.layout.now).resources) }
    {
        (r as usize) < self.layout.resources.as_slice().len()
    }

    fn holds(&self, r: u32) -> bool
        ensures { result ≡ among r self.now.held.items }
    {
        for x in self.held.as_slice() {
            if r == *x {
                return true;
            }
        }
        false
    }

    /// Takes a resource. Not allowed where it holds it, and where there is none.
    pub fn take(&mut self, r: u32) -> Result<Said, AllocError>
        requires { Stands self.old }
        ensures stands { Stands self.new }
        ensures table { table_of self.new.board ≡ table_of self.old.board }
    {
        if !self.is_resource(r) || self.holds(r) {
            return Ok(Said::NotAllowed);
        }
        self.held.reserve(1)?;
        match self.board.take(r) {
            Ok(()) => {
                self.held.push_reserved(r);
                Ok(Said::Done)
            }
            Err(refusal) => Ok(Said::Refused(refusal)),
        }
    }

    /// Writes a number to a resource that it holds.
    pub fn write(&mut self, alloc: Global, r: u32, v: i64) -> Result<Said, AllocError>
        requires { Stands self.old }
        ensures stands { Stands self.new }
        ensures table { table_of self.new.board ≡ table_of self.old.board }
    {
        if !self.holds(r) {
            return Ok(Said::NotAllowed);
        }
        written_said(put_number(alloc, &mut self.board, r, v))
    }

    /// The number that the content of a resource is that it holds.
    pub fn read(&mut self, alloc: Global, r: u32) -> Result<Said, AllocError>
        requires { Stands self.old }
        ensures stands { Stands self.new }
        ensures table { table_of self.new.board ≡ table_of self.old.board }
    {
        if !self.holds(r) {
            return Ok(Said::NotAllowed);
        }
        number_said(value_of(alloc, &mut self.board, r))
    }

    /// Adds an entry that changes a resource which it holds to what its content is, and makes that the content's base.
    pub fn commit(&mut self, alloc: Global, r: u32) -> Result<Said, AllocError>
        requires { Stands self.old }
        ensures stands { Stands self.new }
        ensures table { table_of self.new.board ≡ table_of self.old.board }
    {
        if !self.is_resource(r) || !self.holds(r) {
            return Ok(Said::NotAllowed);
        }
        let value = value_of(alloc, &mut self.board, r)?;
        let entry = entry(alloc, self.layout, self.number, r, value)?;
        match self.board.commit(entry) {
            Ok(n) => {
                settle(&mut self.board, r);
                Ok(Said::Number(n))
            }
            Err(refused) => Ok(Said::Refused(refused.refusal)),
        }
    }

    /// Adds a note. Not allowed where it added as many as it may.
    pub fn note(&mut self) -> Said
        requires { Stands self.old }
        ensures stands { Stands self.new }
        ensures table { table_of self.new.board ≡ table_of self.old.board }
    {
        if self.noted >= self.share {
            return Said::NotAllowed;
        }
        let note = Note {
            instance: self.number,
            attempt: 1,
            kind: NoteKind::Blocked,
            position: 0,
        };
        match self.board.note(note) {
            Ok(position) => {
                self.noted += 1;
                Said::Number(position)
            }
            Err(refused) => Said::Refused(refused.refusal),
        }
    }

    /// Gives a resource back that it holds, with what was committed of it.
    pub fn give(&mut self, alloc: Global, r: u32) -> Result<Said, AllocError>
        requires { Stands self.old }
        ensures stands { Stands self.new }
        ensures table { table_of self.new.board ≡ table_of self.old.board }
    {
        if !self.holds(r) {
            return Ok(Said::NotAllowed);
        }
        let left = without(alloc, self.held.as_slice(), r)?;
        put_back(&mut self.board, r);
        self.board.give(r);
        self.held = left;
        Ok(Said::Done)
    }

    pub fn holds_nothing(&self) -> bool
        ensures { result ≡ nat_eq (vec_len self.now.held) 0 }
    {
        self.held.is_empty()
    }

    /// Its seat.
    pub fn end(self) -> BoardSeat<Content>
        requires stands { Stands self }
        requires nothing { nat_eq (vec_len self.held) 0 ≡ true }
        ensures { IsOf (table_of self.entry.board) result }
    {
        self.board.end()
    }
}
