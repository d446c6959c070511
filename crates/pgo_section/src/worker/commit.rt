// How a section that has ended is recorded: pre-commits, the commit or a note.
ghost use Rattle.std.specs.Prelude.{◌≡◌, ◌≤◌, ◌<◌, ◌++◌, [], length, map, true, false, OnOk, OnErr, IfOk};
ghost use Rattle.pgo_model.specs.LogView.{change_view, entry_view};
ghost use Rattle.pgo_model.specs.Machine.{nth};
ghost use Rattle.pgo_model.specs.Options.{on};
ghost use Rattle.pgo_resource.specs.Nexts.{StopsWith, Tells};
ghost use Rattle.pgo_resource.specs.declared.sections.NextEvent.TheVariants as events;
ghost use Rattle.pgo_syntax.specs.RecordView.{settings_view};
ghost use Rattle.pgo_workers.specs.Worlds.{layout_of, changed_own, resource_change};
ghost use Rattle.pgo_section.specs.Folds.{at_of, AllBelow};
ghost use Rattle.pgo_section.specs.Programs.{RunsSystem};
ghost use Rattle.pgo_section.specs.Sight.{placed};
ghost use Rattle.pgo_section.specs.Turns.{Met, Keeps, Wants, Ran, IsApart, IsEntry, entry_with};

use super::{Turn, Worker};
use crate::changes::{changed_values, resource_changes};
use crate::contents::{abort_all, commit_all};
use crate::own::{label, push_own_changes};
use pgo_base::items::Items;
use pgo_base::log::{Changes, Entry, Values};
use pgo_base::results::both;
use pgo_base::scope::State;
use pgo_base::value::Value;
use pgo_resource::board::Board;
use pgo_resource::resource::Resource;
use pgo_resource::sections::Sections;
use pgo_syntax::records::{AttemptResult, Note, NoteKind, Refusal};
use std::alloc::{AllocError, Global};

impl<P: Drop> Worker<P> {
    /// Pre-commits the next of what is held, or the attempt is refused. It takes no memory.
    pub(super) fn pre_commit<S: Sections<Place = P>, B: Board>(
        &mut self,
        sections: &S,
        board: &mut B,
        place: P,
    ) -> Turn
        requires going { self.old.giving ≡ false }
        requires next { StopsWith (S.walk sections.now place) }
        requires left { self.old.readied < length self.old.taken.items }
        requires layout { B.layout board.old ≡ layout_of (S.system sections.now) }
        requires met { Met (S.system sections.now) (S.tree sections.now) (S.walk sections.now) (placed self.old place) (B.shows board.old) }
        ensures keeps { Keeps self.old self.new }
        ensures layout { B.layout board.new ≡ B.layout board.old }
        ensures stays { B.stays board.old board.new }
        ensures apart { IsApart (B.lent board.old) (B.lent board.new) (B.moved board.old) (B.moved board.new) }
        ensures turned { Ran (S.system sections.now) (S.tree sections.now) (S.walk sections.now) (placed self.old place) (B.shows board.old) self.new (B.shows board.new) result }
    {
        let resource = self.taken[self.readied];
        match board.content(resource).pre_commit(&self.settings.down) {
            Ok(()) => {
                self.readied += 1;
                self.place = Some(place);
                Turn::Went
            }
            Err(down) => {
                abort_all(&self.taken, board);
                let op = down.operation;
                let refusal = Refusal::Down { resource, op };
                self.finish(AttemptResult::Refused { refusal });
                Turn::Refused { refusal }
            }
        }
    }

    /// The changes of the entry: those of held resources, and then the own components that differ.
    fn changes<S: Sections<Place = P>>(
        &self,
        alloc: Global,
        sections: &S,
        values: Vec<(u32, Value)>,
        next: &State,
    ) -> Result<Changes, AllocError>
        requires instance { self.now.number < length (layout_of (S.system sections.now)).ids }
        requires below { AllBelow (length (layout_of (S.system sections.now)).resources) (map at_of values.items) }
        ensures { IfOk result (λ cs. map change_view cs ≡ map (resource_change (layout_of (S.system sections.now))) (map at_of values.items) ++ on [] (nth (layout_of (S.system sections.now)).ids self.now.number) (λ id. changed_own self.now.number id self.now.own next.now)) }
    {
        let mut changes = resource_changes(alloc, sections, values)?;
        let id = sections.id(self.number);
        push_own_changes(&mut changes, alloc, self.number, id, &self.own, next)?;
        Ok(Items::from_vec(changes))
    }

    /// The entry of the attempt.
    fn entry<S: Sections<Place = P>>(
        &self,
        alloc: Global,
        sections: &S,
        values: Vec<(u32, Value)>,
        next: &State,
        prints: Values,
    ) -> Result<Entry, AllocError>
        requires attempts { length self.now.records.items < self.now.settings.attempts }
        requires instance { self.now.number < length (layout_of (S.system sections.now)).ids }
        requires below { AllBelow (length (layout_of (S.system sections.now)).resources) (map at_of values.items) }
        ensures { IfOk result (λ e. entry_view e ≡ entry_with (layout_of (S.system sections.now)) self.now (map at_of values.items) next.now prints) }
    {
        let changes = self.changes(alloc, sections, values, next);
        let (changes, (label, next)) = both(
            changes,
            both(label(alloc, &self.own), label(alloc, next)),
        )?;
        Ok(Entry {
            instance: self.number,
            attempt: self.attempt(),
            label,
            next,
            changes,
            prints,
        })
    }

    /// The entry of the attempt, and what its section leaves of the own components.
    fn ready<S: Sections<Place = P>, B: Board>(
        &self,
        alloc: Global,
        sections: &S,
        board: &mut B,
        place: P,
    ) -> Result<(Entry, State), AllocError>
        requires next { StopsWith (S.walk sections.now place) }
        requires layout { B.layout board.old ≡ layout_of (S.system sections.now) }
        requires met { Met (S.system sections.now) (S.tree sections.now) (S.walk sections.now) (placed self.now place) (B.shows board.old) }
        requires going { self.now.giving ≡ false }
        ensures layout { B.layout board.new ≡ B.layout board.old }
        ensures stays { B.stays board.old board.new }
        ensures moved { B.moved board.new ≡ B.moved board.old }
        ensures shows { B.shows board.new ≡ B.shows board.old }
        ensures ends { IfOk result (λ p. IsEntry (S.system sections.now) (S.tree sections.now) (S.walk sections.now) (placed self.now place) place (B.shows board.old) (entry_view p.0) p.1) }
    {
        let values = changed_values(alloc, &self.taken, board)?;
        let (next, prints) = sections.end(alloc, place)?;
        let entry = self.entry(alloc, sections, values, &next, prints)?;
        Ok((entry, next))
    }

    /// Commits, or the attempt is refused.
    pub(super) fn commit<S: Sections<Place = P>, B: Board>(
        &mut self,
        alloc: Global,
        sections: &S,
        board: &mut B,
        place: P,
    ) -> Result<Turn, AllocError>
        requires going { self.old.giving ≡ false }
        requires next { StopsWith (S.walk sections.now place) }
        requires none_left { length self.old.taken.items ≤ self.old.readied }
        requires layout { B.layout board.old ≡ layout_of (S.system sections.now) }
        requires runs { RunsSystem (S.system sections.now) (S.tree sections.now) (settings_view self.old.settings) }
        requires met { Met (S.system sections.now) (S.tree sections.now) (S.walk sections.now) (placed self.old place) (B.shows board.old) }
        ensures keeps { OnOk result (Keeps self.old self.new) }
        ensures wants { OnErr result (Wants self.old (B.shows board.old) self.new (B.shows board.new)) }
        ensures layout { B.layout board.new ≡ B.layout board.old }
        ensures stays { B.stays board.old board.new }
        ensures apart { OnOk result (IsApart (B.lent board.old) (B.lent board.new) (B.moved board.old) (B.moved board.new)) }
        ensures turned { IfOk result (λ t. Ran (S.system sections.now) (S.tree sections.now) (S.walk sections.now) (placed self.old place) (B.shows board.old) self.new (B.shows board.new) t) }
    {
        let (entry, next) = self.ready(alloc, sections, board, place)?;
        match board.commit(entry) {
            Ok(n) => {
                commit_all(&self.taken, board);
                self.finish(AttemptResult::Step { n });
                self.own = next;
                Ok(Turn::Committed { n })
            }
            Err(refused) => {
                abort_all(&self.taken, board);
                let refusal = refused.refusal;
                self.finish(AttemptResult::Refused { refusal });
                Ok(Turn::Refused { refusal })
            }
        }
    }

    /// Notes that the attempt found no end, or is refused. With a note of kind Many it answers that refusal. It takes no memory.
    pub(super) fn note<S: Sections<Place = P>, B: Board>(
        &mut self,
        sections: &S,
        board: &mut B,
        place: P,
        kind: NoteKind,
    ) -> Turn
        requires going { self.old.giving ≡ false }
        requires next { Tells (S.walk sections.now place) (events.Note kind) }
        requires layout { B.layout board.old ≡ layout_of (S.system sections.now) }
        requires met { Met (S.system sections.now) (S.tree sections.now) (S.walk sections.now) (placed self.old place) (B.shows board.old) }
        ensures keeps { Keeps self.old self.new }
        ensures layout { B.layout board.new ≡ B.layout board.old }
        ensures stays { B.stays board.old board.new }
        ensures apart { IsApart (B.lent board.old) (B.lent board.new) (B.moved board.old) (B.moved board.new) }
        ensures turned { Ran (S.system sections.now) (S.tree sections.now) (S.walk sections.now) (placed self.old place) (B.shows board.old) self.new (B.shows board.new) result }
    {
        let _ = place;
        abort_all(&self.taken, board);
        let note = Note {
            instance: self.number,
            attempt: self.attempt(),
            kind,
            position: 0,
        };
        match board.note(note) {
            Ok(n) => {
                let told = AttemptResult::of_note(kind, n);
                self.finish(told);
                Turn::of_result(told)
            }
            Err(refused) => {
                let refusal = refused.refusal;
                self.finish(AttemptResult::Refused { refusal });
                Turn::Refused { refusal }
            }
        }
    }
}
