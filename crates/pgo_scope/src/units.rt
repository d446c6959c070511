// The names that archetypes and macros declare, which are found without going over lists.
ghost use Rattle.std.specs.Prelude.{◌≡◌, ◌++◌, ℕ, map, slice_get, IfOk};
ghost use Rattle.pgo_base.specs.Lookup.{Name};
ghost use Rattle.pgo_uses.specs.Tables.{name_rows, variable_rows};
ghost use Rattle.pgo_scope.specs.Assigned as assigning;
ghost use Rattle.pgo_scope.specs.Mapped as mapping;
ghost use Rattle.pgo_scope.specs.Unknown as unknown;
ghost use Rattle.pgo_scope.specs.UnitRows as rows;
ghost use Rattle.pgo_scope.specs.Targets as targets;

use crate::mapped::{Mapped, mapped_kind};
use crate::targets::{NamedParameters, named_parameters};
use pgo_base::text::Text;
use pgo_syntax::archetype::{Archetype, Parameter, ParameterKind};
use pgo_syntax::declaration::Declaration;
use pgo_syntax::macros::Macro;
use pgo_syntax::name::PlacedName;
use pgo_syntax::process::Process;
use pgo_syntax::spec::Spec;
use pgo_uses::names::Names;
use std::alloc::{AllocError, Global};

/// The parameters of an archetype, and what each of them is to the rule of mapped parameters.
#[derive(Drop)]
pub struct MappedNames {
    pub params: Names,
    pub kinds: Vec<Mapped>,
}

/// A specification, with the names that its archetypes and its macros declare.
#[derive(Drop)]
pub struct UnitNames<'a> {
    pub spec: &'a Spec,
    /// of each archetype, its parameters and its local variables
    pub own: Vec<Names>,
    /// of each archetype, its `ref` parameters and its local variables
    pub assignable: Vec<Names>,
    /// of each archetype, its parameters, with what each is to the rule of mapped parameters
    pub mapped: Vec<MappedNames>,
    /// of each macro, its parameters
    pub params: Vec<Names>,
    ghost own_found: { (j : ℕ) (x : Name) → rows.among_in own.items j x ≡ unknown.is_own spec.now.archetypes j x },
    ghost assignable_found: { (j : ℕ) (x : Name) → rows.among_in assignable.items j x ≡ assigning.assignable_in (slice_get spec.now.archetypes j) x },
    ghost mapped_found: { (j : ℕ) (x : Name) → rows.kind_in (map rows.see_kinds mapped.items) j x ≡ mapping.mapped_of spec.now.processes (slice_get spec.now.archetypes j) x },
    ghost params_found: { (i : ℕ) (x : Name) → rows.among_in params.items i x ≡ assigning.parameter_in (slice_get spec.now.macros i) x },
}

/// Whether the name is one of those of this number.
fn is_among(list: &[Names], number: usize, x: &Text) -> bool
    ensures { result ≡ rows.among_in list.now number x.now }
{
    match list.get(number) {
        Some(names) => names.has(x),
        None => false,
    }
}

/// What the name is among these.
fn kind_of(names: &MappedNames, x: &Text) -> Mapped
    ensures { result ≡ rows.kind_among (rows.see_kinds names.now) x.now }
{
    match names.params.position(x) {
        Some(i) => match names.kinds.get(i) {
            Some(kind) => *kind,
            None => Mapped::Unmapped,
        },
        None => Mapped::Unmapped,
    }
}

/// What the name is among those of this number.
fn kind_among(list: &[MappedNames], number: usize, x: &Text) -> Mapped
    ensures { result ≡ rows.kind_in (map rows.see_kinds list.now) number x.now }
{
    match list.get(number) {
        Some(names) => kind_of(names, x),
        None => Mapped::Unmapped,
    }
}

impl<'a> UnitNames<'a> {
    /// Whether the archetype of this number has a parameter or a local variable of the name.
    pub fn is_own(&self, number: usize, x: &Text) -> bool
        ensures { result ≡ unknown.is_own self.now.spec.now.archetypes number x.now }
    {
        is_among(self.own.as_slice(), number, x)
    }

    /// Whether the archetype of this number has a `ref` parameter or a local variable of the name.
    pub fn is_assignable(&self, number: usize, x: &Text) -> bool
        ensures { result ≡ assigning.assignable_in (slice_get self.now.spec.now.archetypes number) x.now }
    {
        is_among(self.assignable.as_slice(), number, x)
    }

    /// What the name is in the archetype of this number.
    pub fn mapped(&self, number: usize, x: &Text) -> Mapped
        ensures { result ≡ mapping.mapped_of self.now.spec.now.processes (slice_get self.now.spec.now.archetypes number) x.now }
    {
        kind_among(self.mapped.as_slice(), number, x)
    }

    /// Whether the macro of this number has a parameter of the name.
    pub fn is_parameter(&self, number: usize, x: &Text) -> bool
        ensures { result ≡ assigning.parameter_in (slice_get self.now.spec.now.macros number) x.now }
    {
        is_among(self.params.as_slice(), number, x)
    }
}

fn add_parameters(alloc: Global, list: &[Parameter], names: &mut Names) -> Result<(), AllocError>
    ensures { IfOk result (λ _. names.new ≡ names.old ++ rows.parameter_rows list.now) }
{
    for p in list {
        names.push(alloc, &p.name.name, 0)?;
    }
    Ok(())
}

fn add_refs(alloc: Global, list: &[Parameter], names: &mut Names) -> Result<(), AllocError>
    ensures { IfOk result (λ _. names.new ≡ names.old ++ rows.ref_rows list.now) }
{
    for p in list {
        let ParameterKind::Ref(_) = p.kind else {
            continue;
        };
        names.push(alloc, &p.name.name, 0)?;
    }
    Ok(())
}

fn add_variables(alloc: Global, list: &[Declaration], names: &mut Names) -> Result<(), AllocError>
    ensures { IfOk result (λ _. names.new ≡ names.old ++ variable_rows list.now) }
{
    for d in list {
        names.push(alloc, &d.name.name, 0)?;
    }
    Ok(())
}

fn own_names(alloc: Global, r: &Archetype) -> Result<Names, AllocError>
    ensures { IfOk result (λ names. names ≡ rows.own_rows r.now) }
{
    let mut names = Names::new(alloc);
    add_parameters(alloc, r.params.as_slice(), &mut names)?;
    add_variables(alloc, r.locals.as_slice(), &mut names)?;
    Ok(names)
}

fn assignable_names(alloc: Global, r: &Archetype) -> Result<Names, AllocError>
    ensures { IfOk result (λ names. names ≡ rows.assignable_rows r.now) }
{
    let mut names = Names::new(alloc);
    add_refs(alloc, r.params.as_slice(), &mut names)?;
    add_variables(alloc, r.locals.as_slice(), &mut names)?;
    Ok(names)
}

fn macro_parameters(alloc: Global, list: &[PlacedName]) -> Result<Names, AllocError>
    ensures { IfOk result (λ names. names ≡ name_rows list.now) }
{
    let mut names = Names::new(alloc);
    for x in list {
        names.push(alloc, &x.name, 0)?;
    }
    Ok(names)
}

/// What each parameter of the archetype is to the rule of mapped parameters, where these are named.
fn kinds(
    alloc: Global,
    named: &NamedParameters,
    archetype: &Text,
    params: &[Parameter],
) -> Result<Vec<Mapped>, AllocError>
    ensures { IfOk result (λ v. v.items ≡ targets.kinds_by (targets.is_named named.now archetype.now) 0 params.now) }
{
    let mut kinds = Vec::new(alloc);
    for (n, p) in params.iter().enumerate() {
        kinds.push(mapped_kind(named.has(archetype, n), p.kind))?;
    }
    Ok(kinds)
}

fn mapped_names(
    alloc: Global,
    named: &NamedParameters,
    r: &Archetype,
) -> Result<MappedNames, AllocError>
    ensures { IfOk result (λ m. rows.see_kinds m ≡ targets.kinds_with (targets.is_named named.now) r.now) }
{
    let mut params = Names::new(alloc);
    add_parameters(alloc, r.params.as_slice(), &mut params)?;
    let kinds = kinds(alloc, named, &r.name.name, r.params.as_slice())?;
    Ok(MappedNames { params, kinds })
}

fn all_own(alloc: Global, list: &[Archetype]) -> Result<Vec<Names>, AllocError>
    ensures { IfOk result (λ v. v.items ≡ map rows.own_rows list.now) }
{
    let mut all = Vec::new(alloc);
    for r in list {
        all.push(own_names(alloc, r)?)?;
    }
    Ok(all)
}

fn all_assignable(alloc: Global, list: &[Archetype]) -> Result<Vec<Names>, AllocError>
    ensures { IfOk result (λ v. v.items ≡ map rows.assignable_rows list.now) }
{
    let mut all = Vec::new(alloc);
    for r in list {
        all.push(assignable_names(alloc, r)?)?;
    }
    Ok(all)
}

/// The parameters of each archetype, where these are named.
fn all_mapped_by(
    alloc: Global,
    named: &NamedParameters,
    list: &[Archetype],
) -> Result<Vec<MappedNames>, AllocError>
    ensures { IfOk result (λ v. map rows.see_kinds v.items ≡ map (targets.kinds_with (targets.is_named named.now)) list.now) }
{
    let mut all = Vec::new(alloc);
    for r in list {
        all.push(mapped_names(alloc, named, r)?)?;
    }
    Ok(all)
}

fn all_mapped(
    alloc: Global,
    processes: &[Process],
    list: &[Archetype],
) -> Result<Vec<MappedNames>, AllocError>
    ensures { IfOk result (λ v. map rows.see_kinds v.items ≡ map (rows.kinds_of processes.now) list.now) }
{
    let named = named_parameters(alloc, processes)?;
    let all = all_mapped_by(alloc, &named, list)?;
    Ok(all)
}

fn all_params(alloc: Global, list: &[Macro]) -> Result<Vec<Names>, AllocError>
    ensures { IfOk result (λ v. v.items ≡ map rows.macro_parameter_rows list.now) }
{
    let mut all = Vec::new(alloc);
    for m in list {
        all.push(macro_parameters(alloc, m.params.as_slice())?)?;
    }
    Ok(all)
}

/// The names that the archetypes and the macros of this specification declare.
pub fn names_of_units<'a>(alloc: Global, s: &'a Spec) -> Result<UnitNames<'a>, AllocError>
    ensures { IfOk result (λ u. u.spec.now ≡ s.entry.now) }
{
    let archetypes = s.archetypes.as_slice();
    let own = all_own(alloc, archetypes)?;
    let assignable = all_assignable(alloc, archetypes)?;
    let mapped = all_mapped(alloc, s.processes.as_slice(), archetypes)?;
    let params = all_params(alloc, s.macros.as_slice())?;
    Ok(UnitNames {
        spec: s,
        own,
        assignable,
        mapped,
        params,
    })
}
