// The mapping clauses of a process, found by the arguments that they speak of.
ghost use Rattle.std.specs.Prelude.{◌≡◌, ℕ, filter, option_map, IfOk};
ghost use Rattle.pgo_base.specs.Lookup.{Name};
ghost use Rattle.pgo_bound.specs.Runs as specs;
ghost use Rattle.pgo_heads.specs.Spoken.{first_of, one_more, spoken_view, clauses_at, clauses_under};

use crate::number_map::NumberMap;
use pgo_base::name_map::NameMap;
use pgo_base::text::Text;
use pgo_syntax::process::{MappingClause, MappingTarget};
use std::alloc::{AllocError, Global};
use std::marker::Model;

/// The first of the clauses that speak of an argument, and whether there are more.
#[derive(Clone, Copy)]
pub struct Spoken<'a> {
    pub first: &'a MappingClause,
    pub several: bool,
}

/// The mapping clauses of a process. Those that speak of an argument are found without going over all.
#[derive(Drop)]
pub struct MappingClauses<'a> {
    list: &'a [MappingClause],
    by_number: NumberMap<Spoken<'a>>,
    by_name: NameMap<Spoken<'a>>,
}

impl<'a> Model for MappingClauses<'a> {
    ghost use Rattle.std.specs.Prelude.{◌≡◌, ℕ, List, filter};
    ghost use Rattle.std.specs.Coded.{codes};
    ghost use Rattle.pgo_base.specs.Code.{coded_data};
    ghost use Rattle.pgo_base.specs.TreeCode.{coded_tree};
    ghost use Rattle.pgo_base.specs.Lookup.{Name};
    ghost use Rattle.pgo_syntax.specs.declared.process.MappingClause.{MappingClause};
    ghost use Rattle.pgo_bound.specs.Runs.{is_of_number, is_of_name};
    ghost use Rattle.pgo_heads.specs.Spoken.{first_of, clauses_at, clauses_under};

    ghost Value = { List MappingClause };

    ghost coded = { Prim.hlevel (codes, coded_data, coded_tree) };

    ghost view = { λ s. s.list.now };

    ghost invariant = { λ s. ((n : ℕ) → clauses_at s.by_number.map n ≡ first_of (filter (λ (c : MappingClause). is_of_number n c.target) s.list.now)) × ((x : Name) → clauses_under s.by_name x ≡ first_of (filter (λ (c : MappingClause). is_of_name x c.target) s.list.now)) };
}

impl<'a> MappingClauses<'a> {
    /// These clauses.
    pub fn new(alloc: Global, list: &'a [MappingClause]) -> Result<MappingClauses<'a>, AllocError>
        ensures { IfOk result (λ c. c ≡ list.now) }
    {
        let by_number = by_number(alloc, list)?;
        let by_name = by_name(alloc, list)?;
        Ok(MappingClauses {
            list,
            by_number,
            by_name,
        })
    }

    /// What speaks of the argument of this number, which is this global.
    pub fn speaking(&self, number: u64, global: &Text) -> Option<Spoken<'a>>
        ensures { option_map spoken_view result ≡ first_of (specs.speaking number global.now self.now) }
    {
        match self.by_number.get(number) {
            None => self.by_name.get(global).copied(),
            Some(spoken) => Some(spoken),
        }
    }
}

/// A clause before others, among those by place.
fn add_number<'a>(
    known: &mut NumberMap<Spoken<'a>>,
    clause: &'a MappingClause,
) -> Result<(), AllocError>
    ensures { IfOk result (λ _. (n : ℕ) → clauses_at known.new.map n ≡ one_more (specs.is_of_number n clause.now.target) clause.now (clauses_at known.old.map n)) }
{
    match &clause.target {
        MappingTarget::Global { .. } => Ok(()),
        MappingTarget::Argument { number, .. } => {
            let several = known.get(*number).is_some();
            known.set(
                *number,
                Spoken {
                    first: clause,
                    several,
                },
            )
        }
    }
}

/// A clause before others, among those by name.
fn add_name<'a>(
    alloc: Global,
    known: &mut NameMap<Spoken<'a>>,
    clause: &'a MappingClause,
) -> Result<(), AllocError>
    ensures { IfOk result (λ _. (x : Name) → clauses_under known.new x ≡ one_more (specs.is_of_name x clause.now.target) clause.now (clauses_under known.old x)) }
{
    match &clause.target {
        MappingTarget::Argument { .. } => Ok(()),
        MappingTarget::Global { name, .. } => {
            let several = known.contains(&name.name);
            known.set(
                alloc,
                &name.name,
                Spoken {
                    first: clause,
                    several,
                },
            )?;
            Ok(())
        }
    }
}

/// The clauses by place, under their numbers.
fn by_number<'a>(
    alloc: Global,
    list: &'a [MappingClause],
) -> Result<NumberMap<Spoken<'a>>, AllocError>
    ensures { IfOk result (λ m. (n : ℕ) → clauses_at m.map n ≡ first_of (filter (λ c. specs.is_of_number n c.target) list.now)) }
{
    let mut known = NumberMap::new(alloc);
    let mut i = list.len();
    while i > 0 {
        i -= 1;
        add_number(&mut known, &list[i])?;
    }
    Ok(known)
}

/// The clauses by name, under their names.
fn by_name<'a>(alloc: Global, list: &'a [MappingClause]) -> Result<NameMap<Spoken<'a>>, AllocError>
    ensures { IfOk result (λ m. (x : Name) → clauses_under m x ≡ first_of (filter (λ c. specs.is_of_name x c.target) list.now)) }
{
    let mut known = NameMap::new(alloc);
    let mut i = list.len();
    while i > 0 {
        i -= 1;
        add_name(alloc, &mut known, &list[i])?;
    }
    Ok(known)
}
