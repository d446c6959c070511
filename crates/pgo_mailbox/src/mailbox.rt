// A bounded mailbox.
ghost use Rattle.std.specs.Prelude.{◌≡◌, ℕ, List, Some, option_map, unwrap_or, IfOk, OnOk, OnErr};
ghost use Rattle.pgo_base.specs.Data.{Data};
ghost use Rattle.pgo_base.specs.View.{data_of};
ghost use Rattle.pgo_cells.specs.CellView.{cell_view, start_of};
ghost use Rattle.pgo_model.specs.Sequences.{elements};
ghost use Rattle.pgo_mailbox.specs.Boxed.{ReceivedBy, SentBy, SentBelow, SentWithin, received_as, sent_as, shown_by};
ghost use Rattle.pgo_mailbox.specs.BoxView.{BoxOf, content_view};

use crate::capacity::capacity;
use crate::channel::{BoxKind, takes_first, whole_limit};
use crate::queue::{Queue, queue_of};
use pgo_base::compare::compare;
use pgo_base::depth::is_deeper;
use pgo_base::value::Value;
use pgo_cells::cell::Cell;
use pgo_resource::picks::Picks;
use pgo_resource::resource::{LinkDown, MacroEnv, OpStop, Resource};
use pgo_sets::errors::EvalStop;
use pgo_sets::sequences::len;
use pgo_syntax::bound::Mapping;
use pgo_syntax::records::Down;
use std::alloc::{AllocError, Global};

/// Why a value makes no mailbox.
#[derive(Drop)]
pub enum NotABox {
    /// this value is no sequence
    Value(Value),
    NoMemory,
}

impl From<AllocError> for NotABox {
    ghost use Rattle.std.specs.Prelude.{◌≡◌};
    ghost use Rattle.pgo_mailbox.specs.declared.mailbox.NotABox.TheVariants as no_box;

    ghost from_gives = { λ _ e. e ≡ no_box.NoMemory };

    fn from(_error: AllocError) -> NotABox {
        NotABox::NoMemory
    }
}

/// A content: messages, or, behind another macro than a channel's, a base, and what was written over it.
#[derive(Drop)]
enum Content {
    Messages(Queue),
    Values(Value, Option<Value>),
}

/// A sequence of messages: a read by a reliable channel takes the first, and a write puts one behind the last, and both cost the
/// same however many there are. It has no number, so that no pre-commit is refused.
///
/// A read or a write by another macro makes the sequence as a value, and what the macro makes of it is kept as a value.
#[derive(Drop)]
pub struct Mailbox {
    content: Content,
    count: u64,
}

/// The content that a value is: messages where it is a sequence that a queue can hold.
fn content_of(alloc: Global, v: Value) -> Result<Content, AllocError>
    ensures { IfOk result (λ c. content_view c 0 ≡ start_of (data_of v)) }
{
    let found = queue_of(alloc, &v)?;
    match found {
        Some(queue) => Ok(Content::Messages(queue)),
        None => Ok(Content::Values(v, None)),
    }
}

/// A mailbox with this content.
fn boxed(content: Result<Content, AllocError>) -> Result<Mailbox, NotABox>
    ensures { (v : Data) (xs : List Data) → IfOk content (λ c. content_view c 0 ≡ start_of v) → elements v ≡ Some xs → BoxOf v result }
{
    match content {
        Ok(content) => Ok(Mailbox { content, count: 0 }),
        Err(_error) => Err(NotABox::NoMemory),
    }
}

/// What was written, where something was, and else the base.
fn latest<'x>(base: &'x Value, written: &'x Option<Value>) -> &'x Value
    ensures { data_of result.now ≡ unwrap_or (option_map data_of written.entry.now) (data_of base.entry.now) }
{
    match written {
        Some(v) => v,
        None => base,
    }
}

/// The answer of a read, which is blocked where there is no message.
fn received(found: Result<Option<Value>, AllocError>) -> Result<Option<Value>, OpStop>
    ensures { result ≡ received_as found }
{
    match found {
        Ok(Some(v)) => Ok(Some(v)),
        Ok(None) => Err(OpStop::Blocked),
        Err(_error) => Err(OpStop::NoMemory),
    }
}

/// The answer of a write.
fn sent(found: Result<bool, AllocError>) -> Result<bool, OpStop>
    ensures { result ≡ sent_as found }
{
    match found {
        Ok(b) => Ok(b),
        Err(_error) => Err(OpStop::NoMemory),
    }
}

/// A read by the mapping that takes the first message; none where the mapping is no channel's, or a part is read.
fn receive(
    alloc: Global,
    queue: &mut Queue,
    m: &Mapping,
    at: Option<&Value>,
) -> Result<Option<Value>, OpStop>
    ensures { (count : ℕ) → ReceivedBy m.now (option_map (λ v. data_of v.now) at.entry) (shown_by queue.old count) (shown_by queue.new count) result }
{
    if takes_first(m, at) {
        received(queue.receive(alloc))
    } else {
        Ok(None)
    }
}

/// A write by the mapping that puts a message behind the last; false, and nothing has changed, where the mapping is no channel's,
/// where a part is written, where the capacity is no integer, or where the queue can't hold the message.
fn send(
    alloc: Global,
    queue: &mut Queue,
    m: &Mapping,
    env: MacroEnv<'_>,
    at: Option<&Value>,
    v: &Value,
) -> Result<bool, OpStop>
    ensures { (count : ℕ) → SentBy m.now env.entry.defs.now (data_of env.entry.id.now) (option_map (λ v. data_of v.now) at.entry) (data_of v.now) (shown_by queue.old count) (shown_by queue.new count) result }
{
    match whole_limit(m, at) {
        Some(limit) => send_below(alloc, queue, capacity(alloc, env, limit), v),
        None => Ok(false),
    }
}

/// The same, with the capacity where it is an integer.
fn send_below(
    alloc: Global,
    queue: &mut Queue,
    most: Result<Option<i64>, OpStop>,
    v: &Value,
) -> Result<bool, OpStop>
    ensures { SentBelow most (data_of v.now) queue.old queue.new result }
{
    match most {
        Ok(Some(most)) => send_within(alloc, queue, most, v),
        Ok(None) => Ok(false),
        Err(stop) => Err(stop),
    }
}

/// The same, with the most messages.
fn send_within(alloc: Global, queue: &mut Queue, most: i64, v: &Value) -> Result<bool, OpStop>
    ensures { SentWithin most (data_of v.now) queue.old queue.new result }
{
    if queue.is_below(most) {
        sent(queue.send(alloc, v))
    } else {
        Err(OpStop::Blocked)
    }
}

impl Mailbox {
    ghost use Rattle.pgo_syntax.specs.declared.bound.Mapping.{Mapping};
    ghost use Rattle.pgo_resource.specs.Answers.{Read, Written};
    ghost use Rattle.pgo_mailbox.specs.BoxView.{box_view};

    /// A mailbox whose base is the sequence v, and that is v now, with the count 0. The kind is what was recognised; each read and
    /// write is told by its own macro.
    ///
    /// Errors: `Value` exactly where v is no sequence; `NoMemory`.
    pub fn new(alloc: Global, v: Value, _kind: BoxKind) -> Result<Mailbox, NotABox>
        ensures { BoxOf (data_of v) result }
    {
        match len(&v) {
            Ok(_count) => boxed(content_of(alloc, v)),
            Err(EvalStop::NoValue) => Err(NotABox::Value(v)),
            Err(EvalStop::NoMemory) => Err(NotABox::NoMemory),
        }
    }

    /// What it is now, as a value.
    fn current(&self, alloc: Global) -> Result<Value, AllocError>
        ensures { IfOk result (λ v. data_of v ≡ (box_view self.now).current) }
    {
        match &self.content {
            Content::Messages(queue) => queue.value(alloc),
            Content::Values(base, written) => latest(base, written).copy(alloc),
        }
    }

    /// Its base, as a value.
    fn base(&self, alloc: Global) -> Result<Value, AllocError>
        ensures { IfOk result (λ v. data_of v ≡ (box_view self.now).base) }
    {
        match &self.content {
            Content::Messages(queue) => queue.base_value(alloc),
            Content::Values(base, _) => base.copy(alloc),
        }
    }

    /// It is this value now. After Err nothing has changed.
    fn become_value(&mut self, alloc: Global, v: Value) -> Result<(), AllocError>
        ensures ok { OnOk result (box_view self.new ≡ record (box_view self.old) { current = data_of v }) }
        ensures err { OnErr result (box_view self.new ≡ box_view self.old) }
    {
        let base = self.base(alloc)?;
        self.content = Content::Values(base, Some(v));
        Ok(())
    }

    /// It is what a cell is now, which began with what it was. After Err nothing has changed.
    fn keep(&mut self, alloc: Global, cell: &Cell) -> Result<(), AllocError>
        requires { (cell_view cell.now).base ≡ (box_view self.old).current }
        ensures ok { OnOk result (box_view self.new ≡ record (box_view self.old) { current = (cell_view cell.now).current }) }
        ensures err { OnErr result (box_view self.new ≡ box_view self.old) }
    {
        if cell.is_changed() {
            self.become_value(alloc, cell.value(alloc)?)
        } else {
            Ok(())
        }
    }

    /// A read that takes the first message; none, and nothing has changed, where it isn't for messages.
    fn receive(
        &mut self,
        alloc: Global,
        m: &Mapping,
        at: Option<&Value>,
    ) -> Result<Option<Value>, OpStop>
        ensures { ReceivedBy m.now (option_map (λ v. data_of v.now) at.entry) (box_view self.old) (box_view self.new) result }
    {
        match &mut self.content {
            Content::Messages(queue) => receive(alloc, queue, m, at),
            Content::Values(_, _) => Ok(None),
        }
    }

    /// A write that puts a message behind the last; false, and nothing has changed, where it isn't for messages.
    fn send(
        &mut self,
        alloc: Global,
        m: &Mapping,
        env: MacroEnv<'_>,
        at: Option<&Value>,
        v: &Value,
    ) -> Result<bool, OpStop>
        ensures { SentBy m.now env.entry.defs.now (data_of env.entry.id.now) (option_map (λ v. data_of v.now) at.entry) (data_of v.now) (box_view self.old) (box_view self.new) result }
    {
        match &mut self.content {
            Content::Messages(queue) => send(alloc, queue, m, env, at, v),
            Content::Values(_, _) => Ok(false),
        }
    }

    /// A read of what it is now as a value.
    fn read_value(
        &mut self,
        alloc: Global,
        m: &Mapping,
        env: MacroEnv<'_>,
        at: Option<&Value>,
        picks: &mut Picks,
    ) -> Result<Value, OpStop>
        ensures { Read m.now env.entry.defs.now (data_of env.entry.id.now) (option_map (λ v. data_of v.now) at.entry) (box_view self.old) (box_view self.new) picks.old picks.new result }
    {
        let mut cell = Cell::new(self.current(alloc)?);
        let v = cell.read(alloc, m, env, at, picks)?;
        self.keep(alloc, &cell)?;
        Ok(v)
    }

    /// A write of what it is now as a value.
    fn write_value(
        &mut self,
        alloc: Global,
        m: &Mapping,
        env: MacroEnv<'_>,
        at: Option<&Value>,
        v: Value,
        picks: &mut Picks,
    ) -> Result<(), OpStop>
        ensures { Written m.now env.entry.defs.now (data_of env.entry.id.now) (option_map (λ v. data_of v.now) at.entry) (data_of v) (box_view self.old) (box_view self.new) picks.old picks.new result }
    {
        let mut cell = Cell::new(self.current(alloc)?);
        cell.write(alloc, m, env, at, v, picks)?;
        self.keep(alloc, &cell)?;
        Ok(())
    }
}

impl Resource for Mailbox {
    ghost use Rattle.pgo_mailbox.specs.BoxView.{box_view};

    ghost shows = { box_view };

    fn read(
        &mut self,
        alloc: Global,
        m: &Mapping,
        env: MacroEnv<'_>,
        at: Option<&Value>,
        picks: &mut Picks,
    ) -> Result<Value, OpStop> {
        match self.receive(alloc, m, at) {
            Ok(Some(v)) => Ok(v),
            Ok(None) => self.read_value(alloc, m, env, at, picks),
            Err(stop) => Err(stop),
        }
    }

    fn write(
        &mut self,
        alloc: Global,
        m: &Mapping,
        env: MacroEnv<'_>,
        at: Option<&Value>,
        v: Value,
        picks: &mut Picks,
    ) -> Result<(), OpStop> {
        match self.send(alloc, m, env, at, &v) {
            Ok(true) => Ok(()),
            Ok(false) => self.write_value(alloc, m, env, at, v, picks),
            Err(stop) => Err(stop),
        }
    }

    fn pre_commit(&mut self, _down: &Down) -> Result<(), LinkDown> {
        if self.count < u64::MAX {
            self.count += 1;
        }
        Ok(())
    }

    fn commit(&mut self) {
        match &mut self.content {
            Content::Messages(queue) => queue.commit(),
            Content::Values(base, written) => {
                if let Some(v) = written.take() {
                    *base = v;
                }
            }
        }
    }

    fn abort(&mut self) {
        match &mut self.content {
            Content::Messages(queue) => queue.abort(),
            Content::Values(_, written) => *written = None,
        }
    }

    fn value(&self, alloc: Global) -> Result<Value, AllocError> {
        self.current(alloc)
    }

    fn count(&self) -> u64 {
        self.count
    }

    fn is_changed(&self) -> bool {
        match &self.content {
            Content::Messages(queue) => queue.is_changed(),
            Content::Values(base, written) => !compare(base, latest(base, written)).is_eq(),
        }
    }

    fn is_deeper(&self, limit: usize) -> bool {
        match &self.content {
            Content::Messages(queue) => queue.is_deeper(limit),
            Content::Values(base, written) => is_deeper(latest(base, written), limit),
        }
    }
}
