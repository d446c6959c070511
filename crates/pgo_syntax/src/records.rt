// What becomes of the attempts of a run, and how a run is set.
ghost use Rattle.std.specs.Prelude.{◌≡◌, [], ◌∷◌, ◌++◌, option_map, IfOk};
ghost use Rattle.pgo_model.specs.Core.{is_listed, end_by};
ghost use Rattle.pgo_syntax.specs.ManyLeaves.{noted_result};
ghost use Rattle.pgo_syntax.specs.RecordView.{ended, result_view};

use pgo_base::items::Items;
use std::alloc::{AllocError, Global};
use std::marker::Model;

/// How many leaves an attempt tries at most.
pub const MOST_LEAVES: u32 = 65_536;

/// Why an attempt found no end: an `await` is FALSE or a `with` has no member, an expression has no value, or an
/// `assert` is FALSE.
#[derive(Clone, Copy)]
pub enum NoteKind {
    Blocked,
    NoValue,
    AssertFails,
    /// so many of its choices as are tried are blocked, and there are more
    Many,
}

/// An attempt that found no end, with the number of entries before it.
#[derive(Clone, Copy)]
pub struct Note {
    pub instance: u32,
    pub attempt: u32,
    pub kind: NoteKind,
    pub position: u32,
}

/// Notes in order.
pub type Notes = Items<Note>;

/// Why an attempt was refused.
#[derive(Clone, Copy)]
pub enum Refusal {
    /// another instance holds the resource; 1,024 stands for the journal
    Held { resource: u32, holder: u32 },
    /// the pre-commit of this number at the resource fails
    Down { resource: u32, op: u32 },
    /// the journal has so many entries, and room for no more
    Full { entries: u32 },
    /// so many of its choices were blocked, with so many entries before its note, and there are more; so many are `MOST_LEAVES`
    Many { leaves: u32, position: u32 },
}

/// What became of an attempt: entry n (from 1), a note with n entries before it, or a refusal. An attempt with a note of kind
/// Many is the refusal Many.
#[derive(Clone, Copy)]
pub enum AttemptResult {
    Step { n: u32 },
    Noted { kind: NoteKind, n: u32 },
    Refused { refusal: Refusal },
}

/// An attempt, numbered from 1, and what became of it.
#[derive(Clone, Copy)]
pub struct Record {
    pub attempt: u32,
    pub result: AttemptResult,
}

/// Records in order.
pub type Records = Items<Record>;

/// Why an instance makes no more attempts: it is at "Done"; its last record is a note that no retry can mend, or the
/// refusal Full; it has made all its attempts; memory was wanting; or no instance has the number.
#[derive(Clone, Copy)]
pub enum End {
    Done,
    Stopped,
    Full,
    Spent,
    NoMemory,
    Nobody,
}

impl AttemptResult {
    /// What became of an attempt that has a note of this kind, with n entries before it.
    pub fn of_note(kind: NoteKind, n: u32) -> AttemptResult
        ensures { result ≡ noted_result kind n }
    {
        match kind {
            NoteKind::Blocked | NoteKind::NoValue | NoteKind::AssertFails => {
                AttemptResult::Noted { kind, n }
            }
            NoteKind::Many => AttemptResult::Refused {
                refusal: Refusal::Many {
                    leaves: MOST_LEAVES,
                    position: n,
                },
            },
        }
    }

    /// The end that it shows where it is the last of an instance's records; none where the instance goes on.
    pub fn shown_end(self) -> Option<End>
        ensures { result ≡ option_map ended (end_by (result_view self ∷ [])) }
    {
        match self {
            AttemptResult::Noted {
                kind: NoteKind::Blocked | NoteKind::Many,
                ..
            } => None,
            AttemptResult::Noted { .. } => Some(End::Stopped),
            AttemptResult::Refused {
                refusal: Refusal::Full { .. },
            } => Some(End::Full),
            _ => None,
        }
    }
}

/// The pre-commits that fail, in order: a resource's number, and the number of the pre-commit at it, from 1.
pub struct Down {
    list: Vec<(u32, u32)>,
}

impl Drop for Down {
    fn drop(self) {
        let Down { list } = self;
    }
}

impl Model for Down {
    ghost use Rattle.std.specs.Prelude.{List, ℕ};

    ghost Value = { List (ℕ × ℕ) };

    ghost view = { λ d. d.list.items };
}

impl Down {
    /// None.
    pub fn new(alloc: Global) -> Down
        ensures { result ≡ [] }
    {
        Down {
            list: Vec::new(alloc),
        }
    }

    /// One more, at the end.
    pub fn push(&mut self, resource: u32, number: u32) -> Result<(), AllocError>
        ensures { IfOk result (λ _. self.new ≡ self.old ++ (resource, number) ∷ []) }
    {
        self.list.push((resource, number))?;
        Ok(())
    }

    /// The pairs as a slice.
    pub fn as_slice(&self) -> &[(u32, u32)]
        ensures { result.now ≡ self.now }
    {
        self.list.as_slice()
    }

    /// These pairs.
    pub fn from_vec(list: Vec<(u32, u32)>) -> Down
        ensures { result ≡ list.items }
    {
        Down { list }
    }

    /// Whether the pre-commit of this number at the resource fails.
    pub fn lists(&self, resource: u32, number: u32) -> bool
        ensures { result ≡ is_listed self.now resource number }
    {
        for pair in &self.list {
            if pair.0 == resource && pair.1 == number {
                return true;
            }
        }
        false
    }
}

/// How a run is set: the seed of its choices, the most attempts of an instance, the most entries of the journal, the
/// pre-commits that fail, and whether a blocked instance waits for another's commit.
pub struct Settings {
    pub seed: u64,
    pub attempts: u32,
    pub steps: u32,
    pub down: Down,
    pub park: bool,
}

impl Drop for Settings {
    fn drop(self) {
        let Settings {
            seed,
            attempts,
            steps,
            down,
            park,
        } = self;
    }
}
