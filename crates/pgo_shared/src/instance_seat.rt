// One instance's place at the table.
ghost use Rattle.std.specs.Prelude.{◌≡◌, ◌≤◌, ◌<◌, ◌∷◌, ◌++◌, ◌+◌, ◌-◌, ℕ, [], None, map, length, slice_index, false, true, vec_len, vec_capacity, OnOk, OnErr, IfOk, IfErr};
ghost use Rattle.pgo_model.specs.LogView.{entry_view};
ghost use Rattle.pgo_resource.specs.PlainRows.{apart};
ghost use Rattle.pgo_table.specs.Places.{place};
ghost use Rattle.pgo_table.specs.SeatViews.{holding_at, resources};
ghost use Rattle.pgo_table.specs.SeatCalls.{empty_slot, many, world, TakenAt, BySeat, turned_by, TookWith, TakeRefused, MayReturn, Returned, MayWrite, Committed, CommitRefused, Added, NoteRefused};
ghost use Rattle.pgo_shared.specs.Tables.{terms_of};
ghost use Rattle.pgo_syntax.specs.RecordView.{note_view};
ghost use Rattle.pgo_workers.specs.View.{notes_of};

use crate::journal_steps::take_journal;
use crate::shared::Shared;
use atomic_table::Seat;
use pgo_base::log::Entry;
use pgo_resource::attempts::{NotCommitted, NotNoted};
use pgo_resource::resource::Resource;
use pgo_syntax::records::{Note, Refusal};
use pgo_table::rule::{AddNote, Commit, Give, ReleaseFull, Take};
use pgo_table::slots::{Stored, TableView};

/// The number that stands for the journal in a refusal.
const JOURNAL: u32 = 1024;

/// One instance's place at the table, with the resources that it holds in the order of taking.
#[derive(Drop)]
pub struct InstanceSeat<R: Resource> {
    pub(crate) seat: Seat<Option<Stored<R>>, TableView>,
    pub(crate) number: u32,
    pub(crate) held: Vec<u32>,
    ghost live: { seat.me.0.gone ≡ false },
    ghost numbered: { seat.me.0.me.number ≡ number },
    ghost lone: { (length seat.me.0.joined ≡ 0) × (length seat.me.0.spare ≡ 0) },
    ghost free: { seat.me.0.has ≡ false },
    ghost carried: { seat.me.1 ≡ map empty_slot held.items },
    ghost listed: { resources seat.me.0.holds ≡ held.items },
    ghost apart: { apart (many seat.me.0) held.items ≡ true },
    ghost room: { many seat.me.0 ≤ vec_capacity held },
}

// Where r stands among the held resources.
fn place_of(held: &[u32], r: u32) -> usize
    requires { (k : ℕ) × (k < length held.now) × (slice_index held.now k ≡ r) }
    ensures within { result < length held.now }
    ensures found { slice_index held.now result ≡ r }
    ensures first { result ≡ place held.now r }
{
    for (i, x) in held.iter().enumerate() {
        if *x == r {
            return i;
        }
    }
    unreachable!()
}

// The first n slots that the seat took go behind the others.
fn turn_by<S>(seat: &mut Seat<S, TableView>, n: usize)
    ensures { (seat.new.table_id ≡ seat.old.table_id) × (seat.new.id ≡ seat.old.id) × (seat.new.me ≡ (seat.old.me.0, turned_by n seat.old.me.1)) }
{
    for _i in 0..n {
        seat.turn();
    }
}

impl<R: Resource> InstanceSeat<R> {
    /// Where r stands among the held resources.
    pub(crate) fn place(&self, r: u32) -> usize
        requires { (k : ℕ) × (k < length (resources self.now.seat.me.0.holds)) × (slice_index (resources self.now.seat.me.0.holds) k ≡ r) }
        ensures within { result < vec_len self.now.held }
        ensures first { result ≡ place (resources self.now.seat.me.0.holds) r }
    {
        place_of(&self.held, r)
    }

    /// Takes r with its content, at one step of its word. Refused with the instance that holds it.
    pub(crate) fn take(&mut self, shared: &Shared<R>, r: u32) -> Result<R, u32>
        requires table { self.old.seat.table_id ≡ shared.now.table.shared.table_id }
        requires terms { self.old.seat.me.0.terms ≡ terms_of shared.now }
        requires inside { r < many self.old.seat.me.0 }
        requires free { holding_at self.old.seat.me.0.holds r ≡ None }
        ensures same { (self.new.seat.table_id ≡ self.old.seat.table_id) × (self.new.number ≡ self.old.number) }
        ensures held { OnOk result (self.new.held.items ≡ self.old.held.items ++ r ∷ []) }
        ensures still { OnErr result (self.new.held ≡ self.old.held) }
        ensures taken { IfOk result (λ c. TookWith R.shows self.old.seat.me.0 r c self.new.seat.me.0) }
        ensures refused { IfErr result (λ h. TakeRefused self.old.seat.me.0 r h self.new.seat.me.0) }
        ensures step { TakenAt (world self.old.seat.me.0) R.shows self.old.seat.me.0 r self.old.seat.me.0.word_steps self.new.seat.me.0.word_steps (BySeat self.old.seat.me.0.me.number result) }
    {
        let number = u64::from(self.number) + 1;
        let word = r as usize;
        let table = &shared.table.shared;
        let found = table.compare_exchange::<Take<R>>(&mut self.seat, word, 0, number);
        if found != 0 {
            return Err((found - 1) as u32);
        }
        let stored = table.exchange(&mut self.seat, word, None);
        let Some(Stored::Content(content)) = stored else {
            unreachable!()
        };
        self.held.push_reserved(r);
        self.seat.turn();
        Ok(content)
    }

    /// Gives r back with its content, at one step of its word.
    pub(crate) fn give(&mut self, shared: &Shared<R>, r: u32, content: R)
        requires table { self.old.seat.table_id ≡ shared.now.table.shared.table_id }
        requires terms { self.old.seat.me.0.terms ≡ terms_of shared.now }
        requires held { MayReturn R.shows self.old.seat.me.0 r content }
        ensures same { (self.new.seat.table_id ≡ self.old.seat.table_id) × (self.new.number ≡ self.old.number) }
        ensures given { Returned R.shows self.old.seat.me.0 r content self.new.seat.me.0 }
        ensures fewer { vec_len self.new.held + 1 ≡ vec_len self.old.held }
    {
        let word = r as usize;
        let table = &shared.table.shared;
        let place = place_of(&self.held, r);
        turn_by(&mut self.seat, place);
        let _ = table.exchange(&mut self.seat, word, Some(Stored::Content(content)));
        table.store::<Give<R>>(&mut self.seat, word, 0);
        self.held.remove(place);
        let rest = self.held.len() - place;
        turn_by(&mut self.seat, rest);
    }

    /// Adds an entry at one step, the release of the journal's word.
    pub(crate) fn commit(&mut self, shared: &Shared<R>, e: Entry) -> Result<u32, NotCommitted>
        requires table { self.old.seat.table_id ≡ shared.now.table.shared.table_id }
        requires terms { self.old.seat.me.0.terms ≡ terms_of shared.now }
        requires may { MayWrite self.old.seat.me.0 (entry_view e) }
        ensures same { (self.new.seat.table_id ≡ self.old.seat.table_id) × (self.new.number ≡ self.old.number) × (self.new.held ≡ self.old.held) }
        ensures ok { IfOk result (λ n. Committed self.old.seat.me.0 (entry_view e) n self.new.seat.me.0) }
        ensures err { IfErr result (λ x. (x.entry ≡ e) × CommitRefused x.refusal self.old.seat.me.0 self.new.seat.me.0) }
    {
        let taken = take_journal(shared, &mut self.seat, self.number);
        let mut journal = match taken {
            Ok(journal) => journal,
            Err(holder) => {
                return Err(NotCommitted {
                    refusal: Refusal::Held {
                        resource: JOURNAL,
                        holder,
                    },
                    entry: e,
                });
            }
        };
        let word = shared.count;
        let table = &shared.table.shared;
        match journal.append(e) {
            Ok(n) => {
                let _ = table.exchange(&mut self.seat, word, Some(Stored::Journal(journal)));
                table.store::<Commit>(&mut self.seat, word, 0);
                Ok(n)
            }
            Err(full) => {
                let _ = table.exchange(&mut self.seat, word, Some(Stored::Journal(journal)));
                table.store::<ReleaseFull>(&mut self.seat, word, 0);
                Err(NotCommitted {
                    refusal: Refusal::Full {
                        entries: full.entries,
                    },
                    entry: full.entry,
                })
            }
        }
    }

    /// Adds a note at one step, the release of the journal's word.
    pub(crate) fn note(&mut self, shared: &Shared<R>, n: Note) -> Result<u32, NotNoted>
        requires table { self.old.seat.table_id ≡ shared.now.table.shared.table_id }
        requires terms { self.old.seat.me.0.terms ≡ terms_of shared.now }
        requires may { n.instance ≡ self.old.number }
        requires share { notes_of self.old.number self.old.seat.me.0.me.notes < self.old.seat.me.0.terms.share }
        ensures same { (self.new.seat.table_id ≡ self.old.seat.table_id) × (self.new.number ≡ self.old.number) × (self.new.held ≡ self.old.held) }
        ensures ok { IfOk result (λ p. Added self.old.seat.me.0 (note_view n) p self.new.seat.me.0) }
        ensures err { IfErr result (λ x. (x.note ≡ n) × NoteRefused x.refusal self.old.seat.me.0 self.new.seat.me.0) }
    {
        let taken = take_journal(shared, &mut self.seat, self.number);
        let mut journal = match taken {
            Ok(journal) => journal,
            Err(holder) => {
                return Err(NotNoted {
                    refusal: Refusal::Held {
                        resource: JOURNAL,
                        holder,
                    },
                    note: n,
                });
            }
        };
        let word = shared.count;
        let table = &shared.table.shared;
        let position = journal.note(n);
        let _ = table.exchange(&mut self.seat, word, Some(Stored::Journal(journal)));
        table.store::<AddNote>(&mut self.seat, word, 0);
        Ok(position)
    }
}
