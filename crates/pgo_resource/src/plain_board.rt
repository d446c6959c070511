// A board of one instance.
ghost use Rattle.std.specs.Prelude.{◌≡◌, ◌<◌, ◌≤◌, ◌↔◌, ℕ, [], None, Some, true, map, length, vec_len, vec_capacity, slice_get, IsSome, IsOk, IsErr, IfOk, IfErr, OnOk};
ghost use Rattle.std.specs.Borrow.{sem, Lends};
ghost use Rattle.pgo_bound.specs.Sound.{Sound};
ghost use Rattle.pgo_bound.specs.State.{AreDifferent, variables_of};
ghost use Rattle.pgo_meaning.specs.System.{system_of};
ghost use Rattle.pgo_model.specs.LogView.{entry_view};
ghost use Rattle.pgo_syntax.specs.RecordView.{note_view};
ghost use Rattle.pgo_workers.specs.View.{Takes, Commits, Notes, MayCommit, MayNote, hold_at, notes_of};
ghost use Rattle.pgo_resource.specs.Answers.{RefusedTake, RefusedCommit, RefusedNote};
ghost use Rattle.pgo_workers.specs.Worlds.{layout_of, world_of, IsLayout, HasAll};
ghost use Rattle.pgo_resource.specs.Layouts.{layout_view};
ghost use Rattle.pgo_resource.specs.PlainRows.{taken_of, apart, are_of, values_at, FreeStands, FitsStart, without_taken};

use crate::attempts::{NotCommitted, NotNoted};
use crate::board::Board;
use crate::layout::BoardLayout;
use crate::resource::Resource;
use crate::taken::Taken;
use pgo_base::log::Entry;
use pgo_syntax::bound::Bound;
use pgo_syntax::records::{Note, Refusal};
use std::alloc::{AllocError, Global};

/// A board of one instance: no other takes a resource, or adds to the journal.
#[derive(Drop)]
pub struct PlainBoard<R: Resource> {
    instance: u32,
    steps: u32,
    share: u32,
    layout: BoardLayout,
    /// each at its resource's number
    contents: Vec<R>,
    held: Vec<Taken>,
    entries: Vec<Entry>,
    notes: Vec<Note>,
    /// the latest commit found the journal full
    full: bool,
    ghost is_layout: { IsLayout (layout_view layout) },
    ghost has_all: { HasAll (layout_view layout) layout.start },
    ghost as_many: { vec_len contents ≡ length (layout_view layout).resources },
    ghost held_once: { apart (vec_len contents) (taken_of held.items) ≡ true },
    ghost own_entries: { are_of (layout_view layout) instance entries.items ≡ true },
    ghost unheld: { FreeStands R.shows (vec_len contents) (values_at (layout_view layout) entries.items) contents.items (taken_of held.items) },
    ghost within_steps: { length entries.items ≤ steps },
    ghost own_notes: { notes_of instance (map note_view notes.items) ≡ length notes.items },
    ghost held_room: { vec_len contents ≤ vec_capacity held },
    ghost entry_room: { steps ≤ vec_capacity entries },
    ghost note_room: { share ≤ vec_capacity notes },
}

/// Forgets that r is held.
fn forget(held: &mut Vec<Taken>, r: u32)
    ensures rest { held.new.items ≡ without_taken held.old.items r }
    ensures capacity { vec_capacity held.new ≡ vec_capacity held.old }
{
    for index in 0..held.len() {
        if held[index].resource == r {
            held.remove(index);
            return;
        }
    }
}

impl<R: Resource> PlainBoard<R> {
    ghost use Rattle.pgo_resource.specs.PlainBoards.{board_layout, shows_of, inside_of};

    /// A board with nothing held, no entry and no note, whose journal is full at `steps` entries. It takes its room here, for
    /// all resources, entries and notes.
    pub fn open(
        alloc: Global,
        bound: &Bound,
        instance: u32,
        contents: Vec<R>,
        steps: u32,
        notes: u32,
    ) -> Result<PlainBoard<R>, AllocError>
        requires instance { instance < length bound.now.instances }
        requires sound { Sound bound.now }
        requires names { AreDifferent (variables_of bound.now.spec) }
        requires as_many { vec_len contents ≡ length bound.now.resources }
        requires fit { FitsStart R.shows (layout_of (system_of bound.now)) contents.items }
        ensures layout { IfOk result (λ b. board_layout b ≡ layout_of (system_of bound.now)) }
        ensures view { IfOk result (λ b. shows_of b ≡ record { instance = instance; resources = length bound.now.resources; steps = steps; share = notes; held = []; entries = []; notes = []; told = None; last = None }) }
        ensures contents { IfOk result (λ b. (r : ℕ) → inside_of b r ≡ slice_get contents.items r) }
    {
        let layout = BoardLayout::of(alloc, bound)?;
        let held = Vec::with_capacity(alloc, contents.len())?;
        let entries = Vec::with_capacity(alloc, steps as usize)?;
        let notes_list = Vec::with_capacity(alloc, notes as usize)?;
        Ok(PlainBoard {
            instance,
            steps,
            share: notes,
            layout,
            contents,
            held,
            entries,
            notes: notes_list,
            full: false,
        })
    }

    /// The journal's entries, in order.
    pub fn entries(&self) -> &[Entry]
        ensures { map entry_view result.now ≡ (shows_of self.now).entries }
    {
        self.entries.as_slice()
    }

    /// The journal's notes, in order.
    pub fn notes(&self) -> &[Note]
        ensures { map note_view result.now ≡ (shows_of self.now).notes }
    {
        self.notes.as_slice()
    }
}

impl<R: Resource> Board for PlainBoard<R> {
    ghost use Rattle.pgo_resource.specs.PlainBoards.{board_layout, shows_of, inside_of, with_plain, room_of, resources_of_board, shown_of, keeps_plain, puts_plain};

    type Content = R;

    ghost layout = { board_layout };

    ghost shows = { shows_of };

    ghost content_of = { inside_of };

    ghost with_board = { with_plain };

    ghost stays = { λ s t. Unit {0} };

    /// Takes a resource; it is never refused.
    fn take(&mut self, r: u32) -> Result<(), Refusal>
        requires inside { r < (shows_of self.old).resources }
        requires free { hold_at (shows_of self.old).held r ≡ None }
        ensures layout { board_layout self.new ≡ board_layout self.old }
        ensures ok { OnOk result (Takes (world_of (board_layout self.old)) r (shows_of self.old) (shows_of self.new)) }
        ensures err { IfErr result (λ x. RefusedTake (world_of (board_layout self.old)) r x (shows_of self.old) (shows_of self.new)) }
        ensures granted { IsOk result }
    {
        let count = self.contents[r as usize].count();
        self.held.push_reserved(Taken { resource: r, count });
        self.full = false;
        Ok(())
    }

    fn content(&mut self, r: u32) -> &mut R {
        &mut self.contents[r as usize]
    }

    /// Adds an entry to the journal. It is refused exactly where the journal has as many entries as it may.
    fn commit(&mut self, e: Entry) -> Result<u32, NotCommitted>
        requires may { MayCommit (world_of (board_layout self.old)) (entry_view e) (shows_of self.old) }
        ensures layout { board_layout self.new ≡ board_layout self.old }
        ensures ok { IfOk result (λ n. Commits (world_of (board_layout self.old)) (entry_view e) n (shows_of self.old) (shows_of self.new)) }
        ensures err { IfErr result (λ x. RefusedCommit (world_of (board_layout self.old)) e x (shows_of self.old) (shows_of self.new)) }
        ensures full { IsErr result ↔ length (shows_of self.old).entries ≡ (shows_of self.old).steps }
    {
        if self.entries.len() == self.steps as usize {
            self.full = true;
            return Err(NotCommitted {
                refusal: Refusal::Full {
                    entries: self.steps,
                },
                entry: e,
            });
        }
        self.entries.push_reserved(e);
        self.full = false;
        Ok(self.entries.len() as u32)
    }

    /// Adds a note; it is never refused.
    fn note(&mut self, n: Note) -> Result<u32, NotNoted>
        requires may { MayNote (world_of (board_layout self.old)) (note_view n) (shows_of self.old) }
        ensures layout { board_layout self.new ≡ board_layout self.old }
        ensures ok { IfOk result (λ p. Notes (world_of (board_layout self.old)) (note_view n) p (shows_of self.old) (shows_of self.new)) }
        ensures err { IfErr result (λ x. RefusedNote (world_of (board_layout self.old)) n x (shows_of self.old) (shows_of self.new)) }
        ensures accepted { IsOk result }
    {
        let _steps = self.steps;
        let position = self.entries.len() as u32;
        self.notes.push_reserved(Note { position, ..n });
        self.full = false;
        Ok(position)
    }

    fn give(&mut self, r: u32) {
        forget(&mut self.held, r);
    }

    ghost stays_same = { λ s. tt };

    ghost stays_on = { λ s t u h k. tt };

    ghost stays_with = { λ s r c h. tt };

    ghost room = { room_of };

    ghost resources = { resources_of_board };

    ghost shown = { shown_of };

    ghost keeps = { keeps_plain };

    ghost puts = { puts_plain };
}
