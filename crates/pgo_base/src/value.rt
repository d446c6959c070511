ghost use Rattle.std.specs.Prelude.{◌≡◌, ◌<◌, ℕ, suc, List, [], ◌∷◌, ◌++◌, length, map, Some, IfOk};
ghost use Rattle.std.specs.Cmp.Lexicographic.{slice_cmp};
ghost use Rattle.std.specs.Ordering.{nat_cmp, int_cmp, ordering_then};
ghost use Rattle.pgo_base.specs.View.{data_of, pair_of};
ghost use Rattle.pgo_base.specs.Data.{keys};
ghost use Rattle.pgo_base.specs.Order.{data_cmp};
ghost use Rattle.pgo_base.specs.Sets.{in_order};
ghost use Rattle.pgo_base.specs.Size.{members_size, graph_size};
ghost use Rattle.pgo_base.specs.Pairs.{pairs_in_order};
ghost use Rattle.pgo_base.specs.Bound.{IsBound};
ghost use Rattle.pgo_base.specs.ValuePlace.{set_value, value_in};
ghost use Rattle.pgo_base.specs.SharedItems.{shared_items};
ghost use Rattle.pgo_base.specs.PairsView.{all_pairs, in_parts};
ghost use Rattle.std.specs.Arc.{arc_value};
ghost use Rattle.std.specs.List.Sorted.{IsStrictlySortedBy};

use crate::compare::compare;
use crate::extent::{Extent, extent_of, extent_of_members, extent_of_pairs};
use crate::pairs::Pairs;
use crate::text::Text;
use std::alloc::{AllocError, Global};
use std::cmp::Ordering;
use std::marker::Model;
use std::mem::replace;
use std::sync::Arc;

/// Up to how many pairs behind the front are copied where a function grows that others have too; where there are more, a new
/// front is made of all.
const MOST_BEHIND: usize = 64;

/// A value.
#[cycle(value)]
#[derive(Drop)]
pub enum Value {
    Bool(bool),
    Int(i64),
    Str(Text),
    Model(Text),
    Set(Set),
    Fun(Fun),
}

/// A finite set: its members in order, each once.
#[cycle(value)]
pub struct Set {
    members: Arc<Vec<Value>>,
    extent: Extent,
}

impl Drop for Set {
    #[cycle(drop_value)]
    fn drop(self) {
        let Set { members, extent } = self;
    }
}

/// The pairs of a function in two parts, so that functions that grow may share what they have in common: those in front, of
/// which other functions may be owners too, and those behind them.
#[cycle(value)]
struct Parts {
    front: Option<Arc<Vec<(Value, Value)>>>,
    back: Vec<(Value, Value)>,
}

impl Drop for Parts {
    #[cycle(drop_value)]
    fn drop(self) {
        let Parts { front, back } = self;
    }
}

/// A finite function: its pairs in the order of the keys, each key once.
#[cycle(value)]
pub struct Fun {
    pairs: Arc<Parts>,
    extent: Extent,
}

impl Drop for Fun {
    #[cycle(drop_value)]
    fn drop(self) {
        let Fun { pairs, extent } = self;
    }
}

impl Model for Set {
    ghost use Rattle.std.specs.Prelude.{◌≡◌, List, ℕ, suc, map};
    ghost use Rattle.pgo_base.specs.Data.{Data};
    ghost use Rattle.pgo_base.specs.Code.{coded_members};

    ghost Value = { List Data };

    ghost coded = { coded_members };

    ghost use Rattle.pgo_base.specs.View.{data_of};
    ghost use Rattle.pgo_base.specs.Size.{members_size};
    ghost use Rattle.std.specs.Arc.{arc_value};

    ghost view = { λ s. map data_of (arc_value s.members).items };

    ghost use Rattle.std.specs.List.Sorted.{IsStrictlySortedBy};
    ghost use Rattle.pgo_base.specs.Order.{data_cmp};
    ghost use Rattle.pgo_base.specs.Bound.{IsBound};

    ghost invariant = { λ s. IsStrictlySortedBy data_cmp (map data_of (arc_value s.members).items) × IsBound s.extent.bound (suc (members_size (map data_of (arc_value s.members).items))) };

    ghost size = { members_size };

    ghost use Rattle.pgo_base.specs.Falls.{members_fall};

    ghost size_decreases = { λ s h. members_fall (arc_value s.members).items };
}

impl Model for Fun {
    ghost use Rattle.std.specs.Prelude.{◌≡◌, List, ℕ, suc, map};
    ghost use Rattle.pgo_base.specs.Data.{Data};
    ghost use Rattle.pgo_base.specs.Code.{coded_graph};

    ghost Value = { List (Data × Data) };

    ghost coded = { coded_graph };

    ghost use Rattle.pgo_base.specs.View.{pair_of};
    ghost use Rattle.pgo_base.specs.Size.{graph_size};
    ghost use Rattle.std.specs.Arc.{arc_value};
    ghost use Rattle.pgo_base.specs.PairsView.{in_parts};

    ghost view = { λ f. map pair_of (in_parts (arc_value f.pairs)) };

    ghost use Rattle.std.specs.List.Sorted.{IsStrictlySortedBy};
    ghost use Rattle.pgo_base.specs.Order.{data_cmp};
    ghost use Rattle.pgo_base.specs.Data.{keys};
    ghost use Rattle.pgo_base.specs.Bound.{IsBound};

    ghost invariant = { λ f. IsStrictlySortedBy data_cmp (keys (map pair_of (in_parts (arc_value f.pairs)))) × IsBound f.extent.bound (suc (graph_size (map pair_of (in_parts (arc_value f.pairs))))) };

    ghost size = { graph_size };

    ghost use Rattle.pgo_base.specs.Falls.{parts_fall};
    ghost use Rattle.std.proofs.Common.{arith};

    ghost size_decreases = { λ f h. omega (arith, parts_fall (arc_value f.pairs)) };
}

impl Set {
    pub fn members(&self) -> &[Value]
        ensures { map data_of result.now ≡ self.now }
    {
        self.members.as_slice()
    }

    /// Up to how deep it nests and of how many parts it is.
    pub(crate) fn extent(&self) -> Extent
        ensures { IsBound result.bound (suc (members_size self.now)) }
    {
        self.extent
    }
}

impl Fun {
    pub fn pairs(&self) -> Pairs<'_>
        ensures { map pair_of (all_pairs result) ≡ self.now }
    {
        self.pairs.lent()
    }

    /// Up to how deep it nests and of how many parts it is.
    pub(crate) fn extent(&self) -> Extent
        ensures { IsBound result.bound (suc (graph_size self.now)) }
    {
        self.extent
    }
}

impl Set {
    /// The set of these members, which are in order, each once.
    ///
    /// Err also where the set has more than 16,777,216 parts (`MOST_PARTS`).
    pub fn from_sorted(members: Vec<Value>) -> Result<Set, AllocError>
        requires { IsStrictlySortedBy data_cmp (map data_of members.items) }
        ensures { IfOk result (λ s. s ≡ map data_of members.items) }
    {
        let extent = extent_of_members(members.as_slice()).around()?;
        let alloc = *members.allocator();
        let members = Arc::new(alloc, members)?;
        Ok(Set { members, extent })
    }
}

impl Fun {
    /// The function of these pairs, which are in the order of the keys, each key once.
    ///
    /// Err also where the function has more than 16,777,216 parts (`MOST_PARTS`).
    pub fn from_sorted(pairs: Vec<(Value, Value)>) -> Result<Fun, AllocError>
        requires { IsStrictlySortedBy data_cmp (keys (map pair_of pairs.items)) }
        ensures { IfOk result (λ f. f ≡ map pair_of pairs.items) }
    {
        let extent = extent_of_pairs(pairs.as_slice()).around()?;
        Fun::with_extent(pairs, extent)
    }

    /// The function of these pairs, whose extent is known.
    fn with_extent(pairs: Vec<(Value, Value)>, extent: Extent) -> Result<Fun, AllocError>
        requires sorted { IsStrictlySortedBy data_cmp (keys (map pair_of pairs.items)) }
        requires bound { IsBound extent.bound (suc (graph_size (map pair_of pairs.items))) }
        ensures { IfOk result (λ f. f ≡ map pair_of pairs.items) }
    {
        let alloc = *pairs.allocator();
        let parts = Parts {
            front: None,
            back: pairs,
        };
        let pairs = Arc::new(alloc, parts)?;
        Ok(Fun { pairs, extent })
    }
}

impl Value {
    /// The same value once more.
    pub fn copy(&self, alloc: Global) -> Result<Value, AllocError>
        ensures { IfOk result (λ v. v ≡ self.now) }
    {
        match self {
            Value::Bool(b) => Ok(Value::Bool(*b)),
            Value::Int(n) => Ok(Value::Int(*n)),
            Value::Str(s) => Ok(Value::Str(s.copy(alloc)?)),
            Value::Model(s) => Ok(Value::Model(s.copy(alloc)?)),
            Value::Set(s) => Ok(Value::Set(s.copy(alloc)?)),
            Value::Fun(f) => Ok(Value::Fun(f.copy(alloc)?)),
        }
    }
}

impl Set {
    /// The same set once more: another owner of its members.
    pub fn copy(&self, _alloc: Global) -> Result<Set, AllocError>
        ensures { IfOk result (λ s. s ≡ self.now) }
    {
        Ok(Set {
            members: Arc::try_clone(&self.members)?,
            extent: self.extent,
        })
    }
}

impl Fun {
    /// The same function once more: another owner of its pairs.
    pub fn copy(&self, _alloc: Global) -> Result<Fun, AllocError>
        ensures { IfOk result (λ f. f ≡ self.now) }
    {
        Ok(Fun {
            pairs: Arc::try_clone(&self.pairs)?,
            extent: self.extent,
        })
    }
}

impl Set {
    /// The set of these members.
    pub fn from_members(members: Vec<Value>) -> Result<Set, AllocError>
        ensures { IfOk result (λ s. s ≡ in_order (map data_of members.items)) }
    {
        let mut members = members;
        members.sort()?;
        members.dedup();
        Set::from_sorted(members)
    }
}

impl Fun {
    /// The function of these pairs of a key and its value, in any order. Of several with one key the left one counts.
    pub fn from_pairs(pairs: Vec<(Value, Value)>) -> Result<Fun, AllocError>
        ensures { IfOk result (λ f. f ≡ pairs_in_order (map pair_of pairs.items)) }
    {
        let mut pairs = pairs;
        pairs.sort_by(|a, b| compare(&a.0, &b.0))?;
        pairs.dedup_by(|next, kept| compare(&next.0, &kept.0).is_eq());
        Fun::from_sorted(pairs)
    }
}

impl Set {
    pub fn len(&self) -> usize
        ensures { result ≡ length self.now }
    {
        self.members.len()
    }
}

impl Set {
    /// The members, which are in order, each once.
    pub fn in_order(&self) -> &[Value]
        ensures members { map data_of result.now ≡ self.now }
        ensures sorted { IsStrictlySortedBy data_cmp self.now }
    {
        self.members.as_slice()
    }
}

impl Fun {
    pub fn len(&self) -> usize
        ensures { result ≡ length self.now }
    {
        self.pairs().len()
    }
}

impl Fun {
    /// The pairs, which are in the order of the keys, each key once.
    pub fn in_order(&self) -> Pairs<'_>
        ensures pairs { map pair_of (all_pairs result) ≡ self.now }
        ensures sorted { IsStrictlySortedBy data_cmp (keys self.now) }
    {
        self.pairs.lent()
    }

    /// The pairs, out of the function: in the order of the keys, each key once. Taken where the function is their sole owner, and else copied.
    pub fn into_pairs(self) -> Result<Vec<(Value, Value)>, AllocError>
        ensures pairs { IfOk result (λ v. map pair_of v.items ≡ self) }
        ensures sorted { IfOk result (λ _. IsStrictlySortedBy data_cmp (keys self)) }
    {
        let Fun { pairs, extent: _ } = self;
        match Arc::try_unwrap(pairs) {
            Ok(parts) => parts.joined(),
            Err(shared) => copied_pairs(*shared.back.allocator(), shared.lent()),
        }
    }
}

impl Fun {
    /// The function with one pair more, whose key is behind the others. Where it is the sole owner of its pairs, none is gone
    /// over; else those of the front get one owner more, and those behind them are copied.
    ///
    /// Err also where it has more than 16,777,216 parts (`MOST_PARTS`) then.
    pub fn append(self, alloc: Global, key: Value, value: Value) -> Result<Fun, AllocError>
        requires { IsStrictlySortedBy data_cmp (keys (self ++ (data_of key, data_of value) ∷ [])) }
        ensures { IfOk result (λ f. f ≡ self ++ (data_of key, data_of value) ∷ []) }
    {
        let extent = self.extent_behind(&key, &value)?;
        let Fun { pairs, extent: _ } = self;
        let mut parts = own_parts(alloc, pairs)?;
        parts.back.push((key, value))?;
        let pairs = Arc::new(alloc, parts)?;
        Ok(Fun { pairs, extent })
    }

    /// The extent that it has with this pair behind the others.
    ///
    /// Err where it has more than 16,777,216 parts then.
    fn extent_behind(&self, key: &Value, value: &Value) -> Result<Extent, AllocError>
        ensures { IfOk result (λ e. IsBound e.bound (suc (graph_size (self.now ++ (data_of key.now, data_of value.now) ∷ [])))) }
    {
        self.extent().and_more(extent_of(key), extent_of(value))
    }
}

impl Parts {
    /// The pairs of both parts, lent.
    fn lent(&self) -> Pairs<'_>
        ensures { all_pairs result ≡ in_parts self.now }
    {
        match &self.front {
            None => Pairs::of(&[], self.back.as_slice()),
            Some(front) => Pairs::of(front.as_slice(), self.back.as_slice()),
        }
    }

    /// The pairs of both parts as one list: those behind the front are put to it where this is its sole owner, and to a copy of
    /// it else.
    fn joined(self) -> Result<Vec<(Value, Value)>, AllocError>
        ensures { IfOk result (λ v. map pair_of v.items ≡ map pair_of (in_parts self)) }
    {
        let Parts { front, back } = self;
        match front {
            None => Ok(back),
            Some(front) => {
                let mut back = back;
                let mut list = own_list(front)?;
                list.append(&mut back)?;
                Ok(list)
            }
        }
    }

    /// Parts of the same pairs: with the same front, where few pairs stand behind it, and else with all of them in front.
    fn copied(&self, alloc: Global) -> Result<Parts, AllocError>
        ensures { IfOk result (λ p. map pair_of (in_parts p) ≡ map pair_of (in_parts self.now)) }
    {
        if self.back.len() <= MOST_BEHIND {
            let front = copied_front(&self.front)?;
            let back = copied_pairs(alloc, Pairs::of(&[], self.back.as_slice()))?;
            return Ok(Parts { front, back });
        }
        let all = copied_pairs(alloc, self.lent())?;
        Ok(Parts {
            front: Some(Arc::new(alloc, all)?),
            back: Vec::new(alloc),
        })
    }
}

/// The list, where this is its sole owner, and else a copy of it.
fn own_list(list: Arc<Vec<(Value, Value)>>) -> Result<Vec<(Value, Value)>, AllocError>
    ensures { IfOk result (λ v. map pair_of v.items ≡ map pair_of (arc_value list).items) }
{
    match Arc::try_unwrap(list) {
        Ok(list) => Ok(list),
        Err(shared) => copied_pairs(*shared.allocator(), Pairs::of(&[], shared.as_slice())),
    }
}

/// The parts, where this is their sole owner, and else parts of the same pairs, to which one can be added.
fn own_parts(alloc: Global, parts: Arc<Parts>) -> Result<Parts, AllocError>
    ensures { IfOk result (λ p. map pair_of (in_parts p) ≡ map pair_of (in_parts (arc_value parts))) }
{
    match Arc::try_unwrap(parts) {
        Ok(parts) => Ok(parts),
        Err(shared) => shared.copied(alloc),
    }
}

/// One more owner of the front.
fn copied_front(
    front: &Option<Arc<Vec<(Value, Value)>>>,
) -> Result<Option<Arc<Vec<(Value, Value)>>>, AllocError>
    ensures { IfOk result (λ f. shared_items f ≡ shared_items front.now) }
{
    match front {
        None => Ok(None),
        Some(list) => Ok(Some(Arc::try_clone(list)?)),
    }
}

impl Fun {
    /// The function with another value at a place, and the value before. Where the function is the sole owner of its pairs,
    /// they are changed in place and no other is gone over; else they are copied.
    ///
    /// Err also where it has more than 16,777,216 parts (`MOST_PARTS`).
    pub fn replace_at(self, place: usize, value: Value) -> Result<(Fun, Value), AllocError>
        requires { place < length self }
        ensures after { IfOk result (λ r. r.0 ≡ set_value place (data_of value) self) }
        ensures before { IfOk result (λ r. Some (data_of r.1) ≡ value_in place self) }
    {
        let extent = self.extent_with(place, &value)?;
        let mut pairs = self.into_pairs()?;
        let before = put_value(&mut pairs, place, value);
        let function = Fun::with_extent(pairs, extent)?;
        Ok((function, before))
    }

    /// The extent that it has with this value at a place.
    ///
    /// Err where it has more than 16,777,216 parts then.
    fn extent_with(&self, place: usize, value: &Value) -> Result<Extent, AllocError>
        requires { place < length self.now }
        ensures { IfOk result (λ e. IsBound e.bound (suc (graph_size (set_value place (data_of value.now) self.now)))) }
    {
        let before = extent_of(&self.pairs().at(place).1);
        self.extent().exchanged(before, extent_of(value))
    }
}

/// Another value at a place; the result is the one before.
fn put_value(list: &mut Vec<(Value, Value)>, place: usize, value: Value) -> Value
    requires { place < length list.old.items }
    ensures before { Some (data_of result) ≡ value_in place (map pair_of list.old.items) }
    ensures after { map pair_of list.new.items ≡ set_value place (data_of value) (map pair_of list.old.items) }
{
    replace(&mut list[place].1, value)
}

/// The same pairs once more, with room for another.
fn copied_pairs(alloc: Global, pairs: Pairs<'_>) -> Result<Vec<(Value, Value)>, AllocError>
    ensures { IfOk result (λ v. map pair_of v.items ≡ map pair_of (all_pairs pairs.entry)) }
{
    let mut list = Vec::with_capacity(alloc, pairs.len().saturating_add(1))?;
    for i in 0..pairs.len() {
        let p = pairs.at(i);
        list.push((p.0.copy(alloc)?, p.1.copy(alloc)?))?;
    }
    Ok(list)
}
