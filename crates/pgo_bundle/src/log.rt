// The log of a bundle: its entries with their prints, its notes, and the accounts of its instances.
ghost use Rattle.std.specs.Prelude.{◌≡◌, None, map};
ghost use Rattle.pgo_base.specs.View.{data_of};
ghost use Rattle.pgo_bundle.specs.View.{logged_entry_view, logged_note_view};
ghost use Rattle.pgo_model.specs.LogView.{entry_view};

use pgo_base::items::Items;
use pgo_base::log::{Entry, Values};
use pgo_base::scope::State;
use pgo_base::text::Text;
use pgo_base::value::Value;
use pgo_syntax::records::{End, NoteKind};

/// The version of a bundle. Version 1 tells neither prints nor where notes stand among the entries.
#[derive(Clone, Copy)]
pub enum Version {
    One,
    Two,
}

/// A note: the instance, its attempt, and what this found. How many entries stand before it is said by its place.
#[derive(Clone, Copy)]
pub struct LoggedNote {
    pub instance: u32,
    pub attempt: u32,
    pub kind: NoteKind,
}

/// Notes of one place, in order.
pub type LoggedNotes = Items<LoggedNote>;

/// An entry, what it printed, where this is told, and the notes behind it, before the next entry.
pub struct LoggedEntry {
    pub entry: Entry,
    pub prints: Option<Values>,
    pub notes: LoggedNotes,
}

impl Drop for LoggedEntry {
    fn drop(self) {
        let LoggedEntry {
            entry,
            prints,
            notes,
        } = self;
    }
}

impl LoggedEntry {
    /// The same entry with these notes behind it. It isn't told what it printed.
    pub fn with_notes(self, notes: LoggedNotes) -> LoggedEntry
        ensures { logged_entry_view result ≡ record { entry = entry_view self.entry; prints = None; notes = map logged_note_view notes } }
    {
        let LoggedEntry {
            entry,
            prints,
            notes: old,
        } = self;
        LoggedEntry {
            entry,
            prints: None,
            notes,
        }
    }

    /// The entry alone.
    pub fn into_entry(self) -> Entry
        ensures { entry_view result ≡ entry_view self.entry }
    {
        let LoggedEntry {
            entry,
            prints,
            notes,
        } = self;
        entry
    }
}

/// Entries in order.
pub type LoggedEntries = Items<LoggedEntry>;

/// What became of an attempt: entry n (from 1); a note with so many entries before it; or a refusal, at a component, at the
/// journal, or by a full journal.
pub enum Attempt {
    Step {
        n: u32,
    },
    Noted {
        kind: NoteKind,
        position: u32,
    },
    Held {
        holder: u32,
        variable: Text,
        index: Option<Value>,
    },
    HeldJournal {
        holder: u32,
    },
    Down {
        operation: u32,
        variable: Text,
        index: Option<Value>,
    },
    Full {
        entries: u32,
    },
}

impl Drop for Attempt {
    fn drop(self) {
        match self {
            Attempt::Step { n } => {}
            Attempt::Noted { kind, position } => {}
            Attempt::Held {
                holder,
                variable,
                index,
            } => {}
            Attempt::HeldJournal { holder } => {}
            Attempt::Down {
                operation,
                variable,
                index,
            } => {}
            Attempt::Full { entries } => {}
        }
    }
}

/// What became of an instance's attempts, from attempt 1 on.
pub type Attempts = Items<Attempt>;

/// The account of an instance: its identifier, how it ended (none: it hasn't), and what became of its attempts.
pub struct Account {
    pub id: Value,
    pub end: Option<End>,
    pub attempts: Attempts,
}

impl Drop for Account {
    fn drop(self) {
        let Account { id, end, attempts } = self;
    }
}

impl Account {
    /// The identifier alone.
    pub fn into_id(self) -> Value
        ensures { data_of result ≡ data_of self.id }
    {
        let Account { id, end, attempts } = self;
        id
    }
}

/// Accounts by the numbers of their instances.
pub type Accounts = Items<Account>;

/// What a bundle says besides its module and its constants: the starting state, the notes before the first entry, the entries with
/// the notes behind each, the accounts of the instances, and the status.
pub struct BundleLog {
    pub version: Version,
    pub start: State,
    pub notes: LoggedNotes,
    pub entries: LoggedEntries,
    pub accounts: Accounts,
    pub status: u32,
}

impl Drop for BundleLog {
    fn drop(self) {
        let BundleLog {
            version,
            start,
            notes,
            entries,
            accounts,
            status,
        } = self;
    }
}

impl BundleLog {
    /// The version, the start, the entries, the accounts and the status.
    pub fn into_parts(self) -> (Version, State, LoggedEntries, Accounts, u32)
        ensures version { result.0 ≡ self.version }
        ensures start { result.1 ≡ self.start }
        ensures entries { result.2 ≡ self.entries }
        ensures accounts { result.3 ≡ self.accounts }
        ensures status { result.4 ≡ self.status }
    {
        let BundleLog {
            version,
            start,
            notes,
            entries,
            accounts,
            status,
        } = self;
        (version, start, entries, accounts, status)
    }
}
