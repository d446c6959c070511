// A queue of messages, with what an attempt reads and writes of it.
ghost use Rattle.std.specs.Prelude.{int_lt, pos, ◌≡◌, ◌<◌, ◌≤◌, ◌-◌, ◌↔◌, IsTrue, true, false, Some, length, map, take, drop, IfOk};
ghost use Rattle.pgo_base.specs.PairsView.{all_pairs};
ghost use Rattle.pgo_base.specs.Size.{depth, members_size};
ghost use Rattle.pgo_base.specs.View.{data_of, pair_of, value_of};
ghost use Rattle.pgo_model.specs.Log.{differs};
ghost use Rattle.pgo_mailbox.specs.Queues.{sequence_data, Fits, Received, Sent};
ghost use Rattle.pgo_mailbox.specs.QueueOf.{QueueOf};
ghost use Rattle.pgo_mailbox.specs.Holdable.{Holdable, IsShort, pairs_in};

use pgo_base::compare::compare;
use pgo_base::depth::is_deeper;
use pgo_base::pairs::Pairs;
use pgo_base::value::{Fun, Value};
use pgo_sets::sequences::{len, number};
use std::alloc::{AllocError, Global};
use std::collections::VecDeque;
use std::marker::Model;

/// The most messages of a sequence.
const MOST_MESSAGES: usize = 65536;

/// How deep a message nests at most, such that a content of a state may have it.
const MOST_DEPTH: usize = 254;

/// Messages: the base, those of them that were read in this attempt, and behind them those that were written in it, which lie
/// where a commit keeps them.
#[derive(Drop)]
pub(crate) struct Queue {
    messages: VecDeque<Value>,
    /// so many of the first are the base
    base: usize,
    /// so many of the first were read in this attempt
    taken: usize,
}

impl Model for Queue {
    ghost use Rattle.std.specs.Prelude.{List, map, take, drop};
    ghost use Rattle.std.specs.Coded.{coded×};
    ghost use Rattle.pgo_base.specs.Code.{coded_members};
    ghost use Rattle.pgo_base.specs.Data.{Data};
    ghost use Rattle.pgo_base.specs.View.{data_of};
    ghost use Rattle.pgo_mailbox.specs.Queues.{IsQueue};

    ghost Value = { List Data × List Data };

    ghost coded = { coded× coded_members coded_members };

    ghost view = { λ q. (take q.base (map data_of q.messages.items), drop q.taken (map data_of q.messages.items)) };

    ghost invariant = { λ q. IsQueue (map data_of q.messages.items) q.base q.taken };
}

impl Queue {
    /// These messages, none of which is read.
    fn of(messages: VecDeque<Value>) -> Queue
        requires { Fits (map data_of messages.items) }
        ensures { result ≡ (map data_of messages.items, map data_of messages.items) }
    {
        let base = messages.len();
        Queue {
            messages,
            base,
            taken: 0,
        }
    }

    /// How many messages there are now.
    pub fn len(&self) -> usize
        ensures { result ≡ length self.now.1 }
    {
        self.messages.len() - self.taken
    }

    /// Whether there are fewer messages now than the most.
    pub fn is_below(&self, most: i64) -> bool
        ensures { result ≡ int_lt (pos (length self.now.1)) most }
    {
        let count = self.messages.len() - self.taken;
        (count as i64) < most
    }

    /// Takes the first message; none where there is none. After Err nothing has changed.
    pub fn receive(&mut self, alloc: Global) -> Result<Option<Value>, AllocError>
        ensures { Received self.old self.new result }
    {
        match self.messages.get(self.taken) {
            None => Ok(None),
            Some(v) => {
                let v = v.copy(alloc)?;
                self.taken += 1;
                Ok(Some(v))
            }
        }
    }

    /// Puts a message behind the last, with the room that a commit needs; false, and nothing has changed, where it nests too
    /// deep or there are too many. After Err nothing has changed.
    pub fn send(&mut self, alloc: Global, v: &Value) -> Result<bool, AllocError>
        ensures { Sent (data_of v.now) self.old self.new result }
    {
        if self.len() >= MOST_MESSAGES || is_deeper(v, MOST_DEPTH) {
            return Ok(false);
        }
        let v = v.copy(alloc)?;
        self.messages.push_back(v)?;
        Ok(true)
    }

    /// What is now becomes the base. It takes no memory.
    pub fn commit(&mut self)
        ensures { self.new ≡ (self.old.1, self.old.1) }
    {
        let taken = self.taken;
        drop_first(&mut self.messages, taken);
        self.taken = 0;
        self.base = self.messages.len();
    }

    /// The base is now again. It takes no memory.
    pub fn abort(&mut self)
        ensures { self.new ≡ (self.old.0, self.old.0) }
    {
        self.messages.truncate(self.base);
        self.taken = 0;
    }

    /// What is now, as a sequence.
    pub fn value(&self, alloc: Global) -> Result<Value, AllocError>
        ensures { IfOk result (λ v. data_of v ≡ sequence_data self.now.1) }
    {
        sequence(alloc, &self.messages, self.taken, self.messages.len())
    }

    /// The base, as a sequence.
    pub fn base_value(&self, alloc: Global) -> Result<Value, AllocError>
        ensures { IfOk result (λ v. data_of v ≡ sequence_data self.now.0) }
    {
        sequence(alloc, &self.messages, 0, self.base)
    }

    /// Whether it is another sequence now than the base. It takes no memory, and goes over the messages only where as many were
    /// written as read.
    pub fn is_changed(&self) -> bool
        ensures { result ≡ differs (Some (sequence_data self.now.0)) (Some (sequence_data self.now.1)) }
    {
        if self.len() != self.base {
            return true;
        }
        self.taken != 0 && are_moved(&self.messages, self.base, self.taken)
    }

    /// Whether the sequence nests deeper than the limit. It takes no memory, and goes over the messages only below the depth that a
    /// state's content may have.
    pub fn is_deeper(&self, limit: usize) -> bool
        ensures { IsTrue result ↔ limit < depth (sequence_data self.now.1) }
    {
        let taken = self.taken;
        if limit > MOST_DEPTH {
            return false;
        }
        limit == 0 || some_deeper(&self.messages, taken, limit - 1)
    }
}

/// Drops the first `count` messages.
fn drop_first(messages: &mut VecDeque<Value>, count: usize)
    ensures { messages.new.items ≡ drop count messages.old.items }
{
    let mut left = count;
    while left > 0 {
        let _first = messages.pop_front();
        left -= 1;
    }
}

/// The messages from a place up to another, as a sequence.
fn sequence(
    alloc: Global,
    messages: &VecDeque<Value>,
    from: usize,
    to: usize,
) -> Result<Value, AllocError>
    requires up { from ≤ to }
    requires within { to ≤ length (map data_of messages.now.items) }
    requires count { to - from ≤ 65536 }
    ensures { IfOk result (λ v. data_of v ≡ sequence_data (take (to - from) (drop from (map data_of messages.now.items)))) }
{
    let mut pairs = Vec::with_capacity(alloc, to - from)?;
    for i in from..to {
        pairs.push((number(i - from), messages[i].copy(alloc)?))?;
    }
    Ok(Value::Fun(Fun::from_sorted(pairs)?))
}

/// Whether the first `count` messages aren't those behind the first `taken`.
fn are_moved(messages: &VecDeque<Value>, count: usize, taken: usize) -> bool
    requires { count ≤ length (map data_of messages.now.items) - taken }
    ensures same { result ≡ false → take count (map data_of messages.now.items) ≡ take count (drop taken (map data_of messages.now.items)) }
    ensures other { result ≡ true → take count (map data_of messages.now.items) ≡ take count (drop taken (map data_of messages.now.items)) → ⊥ }
{
    for i in 0..count {
        if !compare(&messages[i], &messages[i + taken]).is_eq() {
            return true;
        }
    }
    false
}

/// Whether some message behind the first `taken` nests deeper than the limit.
fn some_deeper(messages: &VecDeque<Value>, taken: usize, limit: usize) -> bool
    ensures { IsTrue result ↔ limit < members_size (drop taken (map data_of messages.now.items)) }
{
    for i in taken..messages.len() {
        if is_deeper(&messages[i], limit) {
            return true;
        }
    }
    false
}

/// The queue of a sequence's messages; none where the value is no sequence, or one that a queue can't hold.
pub(crate) fn queue_of(alloc: Global, v: &Value) -> Result<Option<Queue>, AllocError>
    ensures { IfOk result (QueueOf (data_of v.now)) }
{
    if !is_holdable(v) {
        return Ok(None);
    }
    let messages = values(alloc, pairs_of(v))?;
    Ok(Some(Queue::of(messages)))
}

/// The pairs of a function, and none of another value.
fn pairs_of(v: &Value) -> Pairs<'_>
    ensures { map pair_of (all_pairs result) ≡ pairs_in (data_of v.now) }
{
    match v {
        Value::Fun(f) => f.pairs(),
        _ => Pairs::none(),
    }
}

/// Whether a value is a sequence of messages that a queue can hold.
fn is_holdable(v: &Value) -> bool
    ensures { IsTrue result → Holdable (data_of v.now) }
{
    is_short(v) && !is_deeper(v, MOST_DEPTH + 1)
}

/// Whether a value is a sequence of few enough messages.
fn is_short(v: &Value) -> bool
    ensures { IsTrue result → IsShort (data_of v.now) }
{
    match len(v) {
        Ok(Value::Int(n)) => n <= MOST_MESSAGES as i64,
        _ => false,
    }
}

/// The values of these pairs.
fn values(alloc: Global, pairs: Pairs<'_>) -> Result<VecDeque<Value>, AllocError>
    ensures { IfOk result (λ q. map data_of q.items ≡ map value_of (all_pairs pairs.entry)) }
{
    let mut list = VecDeque::with_capacity(alloc, pairs.len())?;
    for i in 0..pairs.len() {
        list.push_back(pairs.at(i).1.copy(alloc)?)?;
    }
    Ok(list)
}
