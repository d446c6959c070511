// A board of all instances, for one thread.
ghost use Rattle.std.specs.Prelude.{◌≡◌, ◌<◌, ◌≤◌, ◌-◌, ◌*◌, ◌↔◌, ℕ, suc, [], None, Some, true, false, length, vec_len, vec_capacity, slice_get, IsSome, IsOk, IsErr, IfOk, IfErr, OnOk};
ghost use Rattle.std.specs.Borrow.{sem, Lends};
ghost use Rattle.pgo_bound.specs.Sound.{Sound};
ghost use Rattle.pgo_bound.specs.State.{AreDifferent, variables_of};
ghost use Rattle.pgo_journal.specs.Journal.{opened};
ghost use Rattle.pgo_meaning.specs.System.{system_of};
ghost use Rattle.pgo_model.specs.LogView.{entry_view};
ghost use Rattle.pgo_syntax.specs.RecordView.{note_view};
ghost use Rattle.pgo_workers.specs.View.{Takes, Commits, Notes, Gives, MayCommit, MayNote, MayGive, hold_at, notes_of, resources_of};
ghost use Rattle.pgo_model.specs.Machine.{among};
ghost use Rattle.pgo_syntax.specs.declared.records.Refusal.TheVariants as refusals;
ghost use Rattle.pgo_resource.specs.Answers.{RefusedTake, RefusedCommit, RefusedNote};
ghost use Rattle.pgo_workers.specs.Worlds.{layout_of, world_of, IsLayout, HasAll};
ghost use Rattle.pgo_resource.specs.Layouts.{layout_view};
ghost use Rattle.pgo_resource.specs.PlainRows.{apart, FreeStands, FitsStart};
ghost use Rattle.pgo_core.specs.Claims.{claimed, are_within, holder_of};
ghost use Rattle.pgo_core.specs.ExclusiveRows.{layout_with, values_behind, are_own, are_of_all, is_refused};

use crate::claims::{Claim, forget, holder};
use pgo_base::log::Entry;
use pgo_base::results::both;
use pgo_journal::journal::Journal;
use pgo_resource::attempts::{NotCommitted, NotNoted};
use pgo_resource::board::Board;
use pgo_resource::layout::BoardLayout;
use pgo_resource::resource::Resource;
use pgo_syntax::bound::Bound;
use pgo_syntax::records::{Note, Refusal};
use std::alloc::{AllocError, Global};

/// A board of all instances, which serves one of them at a time: `current`. Each resource has one holder at most, and the
/// journal is free for each.
///
/// `lent` says whether a content was lent, and `moved` whether a resource was taken or given, since the board became the
/// current instance's.
///
/// Source: this project's choice.
#[derive(Drop)]
pub struct ExclusiveBoard<R: Resource> {
    current: u32,
    /// how many notes each instance may add
    share: u32,
    layout: BoardLayout,
    /// each at its resource's number
    contents: Vec<R>,
    /// what instances hold, in the order of taking
    claims: Vec<Claim>,
    journal: Journal,
    /// what the latest take, commit or note was refused by
    last: Option<Refusal>,
    lent: bool,
    moved: bool,
    ghost is_layout: { IsLayout (layout_with layout journal) },
    ghost has_all: { HasAll (layout_with layout journal) journal.start },
    ghost as_many: { vec_len contents ≡ length (layout_view layout).resources },
    ghost held_once: { apart (vec_len contents) (claimed claims.items) ≡ true },
    ghost holders: { are_within (length (layout_view layout).ids - 1) claims.items ≡ true },
    ghost current_there: { current ≤ length (layout_view layout).ids - 1 },
    ghost own_entries: { are_own (layout_with layout journal) journal.entries ≡ true },
    ghost unheld: { FreeStands R.shows (vec_len contents) (values_behind (layout_with layout journal) journal.entries) contents.items (claimed claims.items) },
    ghost within_steps: { length journal.entries ≤ journal.steps },
    ghost shares: { (j : ℕ) → notes_of j journal.notes ≤ share },
    ghost noted_by: { are_of_all (length (layout_view layout).ids - 1) journal.notes ≡ true },
    ghost note_room: { journal.room ≡ share * suc (length (layout_view layout).ids - 1) },
    ghost refused: { is_refused last current claims.items ≡ true },
    ghost claim_room: { vec_len contents ≤ vec_capacity claims },
}

/// The room for the notes of so many instances, or of one where there is none.
fn note_room(attempts: u32, instances: usize) -> u64
    requires { instances ≤ 64 }
    ensures { result ≡ attempts * suc (instances - 1) }
{
    let many = instances.saturating_sub(1) as u64 + 1;
    attempts as u64 * many
}

/// A journal without entries and notes, with the room for all: the notes of so many attempts of each instance, or of one where there is
/// none.
pub fn empty_journal(
    alloc: Global,
    bound: &Bound,
    steps: u32,
    attempts: u32,
) -> Result<Journal, AllocError>
    requires { length bound.now.instances ≤ 64 }
    ensures { IfOk result (λ j. j ≡ opened bound.now.start steps (attempts * suc (length bound.now.instances - 1))) }
{
    let room = note_room(attempts, bound.instances.as_slice().len());
    let start = bound.start.copy(alloc)?;
    Journal::open(alloc, start, steps, room)
}

impl<R: Resource> ExclusiveBoard<R> {
    ghost use Rattle.pgo_core.specs.ExclusiveBoards.{board_layout, view_at, views_of, inside_of, fresh_view};

    /// A board with nothing held, no entry and no note, which is instance 0's. Its journal is full at `steps` entries, and each
    /// instance may add `attempts` notes. It takes its room here, for all resources, entries and notes.
    pub fn open(
        alloc: Global,
        bound: &Bound,
        contents: Vec<R>,
        steps: u32,
        attempts: u32,
    ) -> Result<ExclusiveBoard<R>, AllocError>
        requires sound { Sound bound.now }
        requires names { AreDifferent (variables_of bound.now.spec) }
        requires as_many { vec_len contents ≡ length bound.now.resources }
        requires fit { FitsStart R.shows (layout_of (system_of bound.now)) contents.items }
        ensures layout { IfOk result (λ b. board_layout b ≡ layout_of (system_of bound.now)) }
        ensures view { IfOk result (λ b. (j : ℕ) → view_at b j ≡ fresh_view j (length bound.now.resources) steps attempts) }
        ensures contents { IfOk result (λ b. (r : ℕ) → inside_of b r ≡ slice_get contents.items r) }
        ensures current { IfOk result (λ b. (views_of b).current ≡ 0) }
    {
        let (layout, journal) = both(
            BoardLayout::of(alloc, bound),
            empty_journal(alloc, bound, steps, attempts),
        )?;
        let claims = Vec::with_capacity(alloc, contents.len())?;
        Ok(ExclusiveBoard {
            current: 0,
            share: attempts,
            layout,
            contents,
            claims,
            journal,
            last: None,
            lent: false,
            moved: false,
        })
    }

    /// The board becomes instance k's, before its turn.
    pub fn set_current(&mut self, k: u32)
        requires there { k < length (board_layout self.old).ids }
        ensures layout { board_layout self.new ≡ board_layout self.old }
        ensures current { (views_of self.new).current ≡ k }
        ensures views { (j : ℕ) → view_at self.new j ≡ record (view_at self.old j) { last = None } }
        ensures contents { (r : ℕ) → (views_of self.new).content r ≡ (views_of self.old).content r }
        ensures lent { (views_of self.new).lent ≡ false }
        ensures moved { (views_of self.new).moved ≡ false }
    {
        self.current = k;
        self.last = None;
        self.lent = false;
        self.moved = false;
    }

    /// The journal.
    pub fn into_journal(self) -> Journal
        ensures start { result.start ≡ (board_layout self).start }
        ensures entries { (j : ℕ) → result.entries ≡ (view_at self j).entries }
        ensures notes { (j : ℕ) → result.notes ≡ (view_at self j).notes }
    {
        self.journal
    }
}

impl<R: Resource> Board for ExclusiveBoard<R> {
    ghost use Rattle.pgo_core.specs.ExclusiveBoards.{board_layout, shows_of, views_of, inside_of, with_exclusive, stays_of, room_of, resources_of_board, shown_of, keeps_exclusive, puts_exclusive, same_stays, on_stays, with_stays};

    type Content = R;

    ghost layout = { board_layout };

    ghost shows = { shows_of };

    ghost content_of = { inside_of };

    ghost with_board = { with_exclusive };

    ghost stays = { stays_of };

    ghost lent = { λ s. s.lent };

    ghost moved = { λ s. s.moved };

    /// Takes a resource; it is refused exactly where another instance holds it.
    fn take(&mut self, r: u32) -> Result<(), Refusal>
        requires inside { r < (shows_of self.old).resources }
        requires free { hold_at (shows_of self.old).held r ≡ None }
        ensures layout { board_layout self.new ≡ board_layout self.old }
        ensures stays { stays_of self.old self.new }
        ensures ok { OnOk result (Takes (world_of (board_layout self.old)) r (shows_of self.old) (shows_of self.new)) }
        ensures err { IfErr result (λ x. RefusedTake (world_of (board_layout self.old)) r x (shows_of self.old) (shows_of self.new)) }
        ensures refused { IsErr result ↔ ((h : ℕ) × (among r (resources_of ((views_of self.old).view h).held) ≡ true)) }
        ensures lent { (views_of self.new).lent ≡ (views_of self.old).lent }
        ensures still { IfErr result (λ x. (views_of self.new).moved ≡ (views_of self.old).moved) }
    {
        let found = holder(self.claims.as_slice(), r);
        match found {
            Some(h) => {
                let refusal = Refusal::Held {
                    resource: r,
                    holder: h,
                };
                self.last = Some(refusal);
                Err(refusal)
            }
            None => {
                let count = self.contents[r as usize].count();
                self.claims.push_reserved(Claim {
                    resource: r,
                    count,
                    holder: self.current,
                });
                self.last = None;
                self.moved = true;
                Ok(())
            }
        }
    }

    fn content(&mut self, r: u32) -> &mut R {
        self.lent = true;
        &mut self.contents[r as usize]
    }

    /// Adds an entry to the journal. It is refused exactly where the journal has as many entries as it may.
    fn commit(&mut self, e: Entry) -> Result<u32, NotCommitted>
        requires may { MayCommit (world_of (board_layout self.old)) (entry_view e) (shows_of self.old) }
        ensures layout { board_layout self.new ≡ board_layout self.old }
        ensures stays { stays_of self.old self.new }
        ensures ok { IfOk result (λ n. Commits (world_of (board_layout self.old)) (entry_view e) n (shows_of self.old) (shows_of self.new)) }
        ensures err { IfErr result (λ x. RefusedCommit (world_of (board_layout self.old)) e x (shows_of self.old) (shows_of self.new)) }
        ensures full { IsErr result ↔ length (shows_of self.old).entries ≡ (shows_of self.old).steps }
        ensures refusal { IfErr result (λ x. x.refusal ≡ refusals.Full (shows_of self.old).steps) }
        ensures lent { (views_of self.new).lent ≡ (views_of self.old).lent }
        ensures moved { (views_of self.new).moved ≡ (views_of self.old).moved }
    {
        let appended = self.journal.append(e);
        match appended {
            Ok(n) => {
                self.last = None;
                Ok(n)
            }
            Err(full) => {
                let refusal = Refusal::Full {
                    entries: full.entries,
                };
                self.last = Some(refusal);
                Err(NotCommitted {
                    refusal,
                    entry: full.entry,
                })
            }
        }
    }

    /// Adds a note; it is never refused.
    fn note(&mut self, n: Note) -> Result<u32, NotNoted>
        requires may { MayNote (world_of (board_layout self.old)) (note_view n) (shows_of self.old) }
        ensures layout { board_layout self.new ≡ board_layout self.old }
        ensures stays { stays_of self.old self.new }
        ensures ok { IfOk result (λ p. Notes (world_of (board_layout self.old)) (note_view n) p (shows_of self.old) (shows_of self.new)) }
        ensures err { IfErr result (λ x. RefusedNote (world_of (board_layout self.old)) n x (shows_of self.old) (shows_of self.new)) }
        ensures accepted { IsOk result }
        ensures lent { (views_of self.new).lent ≡ (views_of self.old).lent }
        ensures moved { (views_of self.new).moved ≡ (views_of self.old).moved }
    {
        let position = self.journal.note(n);
        self.last = None;
        Ok(position)
    }

    /// Gives a held resource back, and lends no content.
    fn give(&mut self, r: u32)
        requires may { MayGive r (shows_of self.old) }
        ensures layout { board_layout self.new ≡ board_layout self.old }
        ensures stays { stays_of self.old self.new }
        ensures gives { Gives (world_of (board_layout self.old)) r (shows_of self.old) (shows_of self.new) }
        ensures lent { (views_of self.new).lent ≡ (views_of self.old).lent }
    {
        forget(&mut self.claims, r);
        self.moved = true;
    }

    ghost stays_same = { same_stays };

    ghost stays_on = { on_stays };

    ghost stays_with = { with_stays };

    ghost room = { room_of };

    ghost resources = { resources_of_board };

    ghost shown = { shown_of };

    ghost keeps = { keeps_exclusive };

    ghost puts = { puts_exclusive };
}
