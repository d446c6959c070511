// Up to how deep a value nests and of how many parts it is, kept beside its parts so that nobody goes over them to find out.
ghost use Rattle.std.specs.Prelude.{◌≡◌, ℕ, suc, max, min, map, IfOk, IsTrue, ◌≤◌};
ghost use Rattle.pgo_base.specs.Bound.{IsBound};
ghost use Rattle.pgo_base.specs.Size.{depth, members_size, graph_size};
ghost use Rattle.pgo_base.specs.View.{data_of, pair_of};

use crate::value::Value;
use std::alloc::AllocError;

/// The most parts of a value: itself, and each member, key and value in it, once for each place where it stands. For a set or
/// a function of more there is no memory: as parts are shared, it could be stored, but not be compared or written.
pub const MOST_PARTS: u32 = 16_777_216;

/// A bound of how deep something nests, and of how many parts it is.
///
/// Where a function's value becomes another, the bound never falls: it is as great as if the value before were still there.
/// A value whose bound is too great is gone over where its depth is asked for (`depth::is_deeper`), so a bound costs time and
/// changes no answer. 2^32 - 1 is no bound.
#[derive(Clone, Copy)]
pub struct Extent {
    pub bound: u32,
    pub parts: u32,
}

/// The extent of nothing.
const NOTHING: Extent = Extent { bound: 0, parts: 0 };

/// The extent of a value without parts.
const SINGLE: Extent = Extent { bound: 1, parts: 1 };

impl Extent {
    /// Whether it says that something nests no deeper than the limit.
    pub(crate) fn is_within(self, limit: usize) -> bool
        ensures { IsTrue result → (n : ℕ) → IsBound self.bound n → n ≤ limit }
    {
        self.bound < u32::MAX && self.bound as usize <= limit
    }

    /// The extent of both together.
    fn and(self, other: Extent) -> Extent
        ensures { result.bound ≡ max self.bound other.bound }
    {
        Extent {
            bound: self.bound.max(other.bound),
            parts: self.parts.saturating_add(other.parts),
        }
    }

    /// The extent of a set or a function of these parts.
    ///
    /// Err where it has more than 16,777,216 parts.
    pub(crate) fn around(self) -> Result<Extent, AllocError>
        ensures { IfOk result (λ e. e.bound ≡ min (suc self.bound) 4294967295) }
    {
        if self.parts >= MOST_PARTS {
            return Err(AllocError);
        }
        Ok(Extent {
            bound: self.bound.saturating_add(1),
            parts: self.parts + 1,
        })
    }

    /// The extent of a set or a function with a part of another extent in the place of one.
    ///
    /// Err where it has more than 16,777,216 parts.
    pub(crate) fn exchanged(self, before: Extent, after: Extent) -> Result<Extent, AllocError>
        ensures { IfOk result (λ e. e.bound ≡ max self.bound (min (suc after.bound) 4294967295)) }
    {
        let parts = self
            .parts
            .saturating_sub(before.parts)
            .saturating_add(after.parts);
        if parts > MOST_PARTS {
            return Err(AllocError);
        }
        Ok(Extent {
            bound: self.bound.max(after.bound.saturating_add(1)),
            parts,
        })
    }

    /// The extent of a function with one pair more.
    ///
    /// Err where it has more than 16,777,216 parts.
    pub(crate) fn and_more(self, key: Extent, value: Extent) -> Result<Extent, AllocError>
        ensures { IfOk result (λ e. e.bound ≡ max self.bound (min (suc (max key.bound value.bound)) 4294967295)) }
    {
        self.exchanged(NOTHING, key.and(value))
    }
}

/// The extent of a value.
pub(crate) fn extent_of(value: &Value) -> Extent
    ensures { IsBound result.bound (depth (data_of value.now)) }
{
    match value {
        Value::Set(s) => s.extent(),
        Value::Fun(f) => f.extent(),
        _ => SINGLE,
    }
}

/// The extent of these values together.
pub(crate) fn extent_of_members(members: &[Value]) -> Extent
    ensures { IsBound result.bound (members_size (map data_of members.now)) }
{
    let mut all = NOTHING;
    for m in members {
        all = all.and(extent_of(m));
    }
    all
}

/// The extent of these keys and values together.
pub(crate) fn extent_of_pairs(pairs: &[(Value, Value)]) -> Extent
    ensures { IsBound result.bound (graph_size (map pair_of pairs.now)) }
{
    let mut all = NOTHING;
    for p in pairs {
        all = all.and(extent_of(&p.0).and(extent_of(&p.1)));
    }
    all
}
