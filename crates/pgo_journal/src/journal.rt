// Entries and notes in the order in which they came.
ghost use Rattle.std.specs.Prelude.{◌≡◌, ◌≤◌, ◌<◌, ◌↔◌, ◌-◌, length, map, Some, IfOk, IfErr, IsErr};
ghost use Rattle.pgo_model.specs.Log.{StateAt};
ghost use Rattle.pgo_model.specs.LogView.{entry_view};
ghost use Rattle.pgo_model.specs.Machine.{nth};
ghost use Rattle.pgo_syntax.specs.RecordView.{note_view};
ghost use Rattle.pgo_journal.specs.Journal.{MayAppend, opened, placed, with_entry, with_note};

use crate::states::put_all;
use pgo_base::log::Entry;
use pgo_base::scope::State;
use pgo_syntax::records::Note;
use std::alloc::{AllocError, Global};
use std::marker::Model;

/// A journal that has so many entries, and room for no more; and the entry that was to be appended.
#[derive(Drop)]
pub struct JournalFull {
    pub entries: u32,
    pub entry: Entry,
}

/// The state before the first entry, the entries and the notes. It has at most `steps` entries, and room for `room`
/// notes.
#[derive(Drop)]
pub struct Journal {
    start: State,
    entries: Vec<Entry>,
    notes: Vec<Note>,
    steps: u32,
    room: u64,
}

impl Model for Journal {
    ghost use Rattle.pgo_journal.specs.Journal.{JournalView, IsSound, seen};
    ghost use Rattle.pgo_journal.specs.Code.{coded_journal};

    ghost Value = { JournalView };

    ghost coded = { coded_journal };

    ghost use Rattle.std.specs.Prelude.{vec_capacity};

    ghost view = { λ j. seen j.start j.entries.items j.notes.items j.steps j.room };

    ghost invariant = { λ j. IsSound (seen j.start j.entries.items j.notes.items j.steps j.room) (vec_capacity j.entries) (vec_capacity j.notes) };
}

impl Journal {
    /// A journal without entries and notes. The room for all of them is taken here.
    pub fn open(alloc: Global, start: State, steps: u32, notes: u64) -> Result<Journal, AllocError>
        ensures { IfOk result (λ j. j ≡ opened start steps notes) }
    {
        let entries = Vec::with_capacity(alloc, steps as usize)?;
        let list = Vec::with_capacity(alloc, notes as usize)?;
        Ok(Journal {
            start,
            entries,
            notes: list,
            steps,
            room: notes,
        })
    }

    /// One entry more, and its number, from 1. Each component that it changes stands in the last state.
    ///
    /// `JournalFull` comes exactly where there are `steps` entries, with their number and this entry, and leaves the journal
    /// as it was. No memory is taken.
    pub fn append(&mut self, e: Entry) -> Result<u32, JournalFull>
        requires { MayAppend self.old (entry_view e) }
        ensures full { IsErr result ↔ length self.old.entries ≡ self.old.steps }
        ensures refused { IfErr result (λ f. f ≡ record { entries = self.old.steps; entry = e }) }
        ensures unchanged { IfErr result (λ _. self.new ≡ self.old) }
        ensures number { IfOk result (λ n. n ≡ length self.new.entries) }
        ensures appended { IfOk result (λ _. self.new ≡ with_entry (entry_view e) self.old) }
    {
        let count = self.entries.len();
        if count == self.steps as usize {
            return Err(JournalFull {
                entries: self.steps,
                entry: e,
            });
        }
        self.entries.push_reserved(e);
        Ok(self.entries.len() as u32)
    }

    /// One note more, whose position is the number of entries, whatever it was; and this position. No memory is taken.
    pub fn note(&mut self, n: Note) -> u32
        requires { length self.old.notes < self.old.room }
        ensures position { result ≡ length self.old.entries }
        ensures noted { self.new ≡ with_note (placed result (note_view n)) self.old }
    {
        let position = self.entries.len() as u32;
        self.notes.push_reserved(Note { position, ..n });
        position
    }

    /// The number of entries.
    pub fn len(&self) -> u32
        ensures entries { result ≡ length self.now.entries }
        ensures within { length self.now.entries ≤ self.now.steps }
    {
        self.entries.len() as u32
    }

    /// At how many entries it is full.
    pub fn steps(&self) -> u32
        ensures { result ≡ self.now.steps }
    {
        self.steps
    }

    /// For how many notes it has room.
    pub fn room(&self) -> u64
        ensures { result ≡ self.now.room }
    {
        self.room
    }

    /// Entry i, from 1.
    pub fn entry(&self, i: u32) -> &Entry
        requires { (1 ≤ i) × (i ≤ length self.now.entries) }
        ensures { nth self.now.entries (i - 1) ≡ Some (entry_view result.now) }
    {
        &self.entries[i as usize - 1]
    }

    /// The notes in order.
    pub fn notes(&self) -> &[Note]
        ensures notes { map note_view result.now ≡ self.now.notes }
        ensures within { length self.now.notes ≤ self.now.room }
    {
        self.notes.as_slice()
    }

    /// The state after the first i entries.
    pub fn state(&self, alloc: Global, i: u32) -> Result<State, AllocError>
        requires { i ≤ length self.now.entries }
        ensures { IfOk result (λ s. StateAt self.now.start self.now.entries i ≡ Some s) }
    {
        let mut list = self.start.copy(alloc)?.into_vec();
        for e in &self.entries[..i as usize] {
            put_all(alloc, &mut list, e.changes.as_slice())?;
        }
        Ok(State::from_vec(list))
    }
}
