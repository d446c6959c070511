// The content of a resource in a run.
use pgo_base::value::Value;
use pgo_cells::cell::Cell;
use pgo_mailbox::mailbox::Mailbox;
use pgo_resource::picks::Picks;
use pgo_resource::resource::{LinkDown, MacroEnv, OpStop, Resource};
use pgo_syntax::bound::Mapping;
use pgo_syntax::records::Down;
use std::alloc::{AllocError, Global};

/// A content: a mailbox for a sequence of messages that a reliable channel reads and writes, and a cell for every other value. Both
/// answer alike.
pub enum Content {
    Cell(Cell),
    Mailbox(Mailbox),
}

impl Drop for Content {
    fn drop(self) {
        match self {
            Content::Cell(cell) => {}
            Content::Mailbox(mailbox) => {}
        }
    }
}

impl Resource for Content {
    ghost use Rattle.pgo_starts.specs.ContentView.{content_shown};

    ghost shows = { content_shown };

    fn read(
        &mut self,
        alloc: Global,
        m: &Mapping,
        env: MacroEnv<'_>,
        at: Option<&Value>,
        picks: &mut Picks,
    ) -> Result<Value, OpStop> {
        match self {
            Content::Cell(cell) => cell.read(alloc, m, env, at, picks),
            Content::Mailbox(mailbox) => mailbox.read(alloc, m, env, at, picks),
        }
    }

    fn write(
        &mut self,
        alloc: Global,
        m: &Mapping,
        env: MacroEnv<'_>,
        at: Option<&Value>,
        v: Value,
        picks: &mut Picks,
    ) -> Result<(), OpStop> {
        match self {
            Content::Cell(cell) => cell.write(alloc, m, env, at, v, picks),
            Content::Mailbox(mailbox) => mailbox.write(alloc, m, env, at, v, picks),
        }
    }

    fn pre_commit(&mut self, down: &Down) -> Result<(), LinkDown> {
        match self {
            Content::Cell(cell) => cell.pre_commit(down),
            Content::Mailbox(mailbox) => mailbox.pre_commit(down),
        }
    }

    fn commit(&mut self) {
        match self {
            Content::Cell(cell) => cell.commit(),
            Content::Mailbox(mailbox) => mailbox.commit(),
        }
    }

    fn abort(&mut self) {
        match self {
            Content::Cell(cell) => cell.abort(),
            Content::Mailbox(mailbox) => mailbox.abort(),
        }
    }

    fn value(&self, alloc: Global) -> Result<Value, AllocError> {
        match self {
            Content::Cell(cell) => cell.value(alloc),
            Content::Mailbox(mailbox) => mailbox.value(alloc),
        }
    }

    fn count(&self) -> u64 {
        match self {
            Content::Cell(cell) => cell.count(),
            Content::Mailbox(mailbox) => mailbox.count(),
        }
    }

    fn is_changed(&self) -> bool {
        match self {
            Content::Cell(cell) => cell.is_changed(),
            Content::Mailbox(mailbox) => mailbox.is_changed(),
        }
    }

    fn is_deeper(&self, limit: usize) -> bool {
        match self {
            Content::Cell(cell) => cell.is_deeper(limit),
            Content::Mailbox(mailbox) => mailbox.is_deeper(limit),
        }
    }
}
