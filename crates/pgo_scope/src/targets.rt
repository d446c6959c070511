// What the mapping clauses of processes name, found without going over them.
ghost use Rattle.std.specs.Prelude.{◌≡◌, ◌||◌, ◌&&◌, false, suc, ℕ, List, nat_eq, slice_get, option_map, IfOk};
ghost use Rattle.pgo_base.specs.Lookup.{Name, same_name};
ghost use Rattle.pgo_syntax.specs.declared.process.Argument.{Argument as SpecArgument};
ghost use Rattle.pgo_scope.specs.Mapped as mapping;
ghost use Rattle.pgo_scope.specs.Targets as spec;

use pgo_base::name_map::NameMap;
use pgo_base::text::Text;
use pgo_syntax::process::{Argument, MappingClause, MappingTarget, Process};
use pgo_uses::names::Names;
use std::alloc::{AllocError, Global};
use std::collections::BTreeSet;

/// What the mapping clauses of a process name.
#[derive(Drop)]
pub struct Targets {
    pub globals: Names,
    /// the arguments that are named by their number, from 0
    pub numbers: BTreeSet<u64>,
}

/// The parameters of archetypes that a clause of some process names.
#[derive(Drop)]
pub struct NamedParameters {
    /// for the name of each archetype, the numbers of these, from 0
    pub map: NameMap<BTreeSet<u64>>,
}

/// Whether the argument is one of these globals.
fn is_ref_among(globals: &Names, argument: Option<&Argument>) -> bool
    ensures { result ≡ spec.ref_among globals.now (option_map (λ a. a.now) argument.entry) }
{
    match argument {
        Some(Argument::Ref(x, _)) => globals.has(&x.name),
        _ => false,
    }
}

impl Targets {
    /// The arguments of these numbers alone.
    #[tactic(auto, using(crate::proofs::Targeting::no_global))]
    fn new(alloc: Global, numbers: BTreeSet<u64>) -> Targets
        ensures { (n : ℕ) (es : List SpecArgument) → spec.is_target result n es ≡ spec.has_number numbers n }
    {
        Targets {
            globals: Names::new(alloc),
            numbers,
        }
    }

    /// The argument of this number too, from 1.
    fn add_number(&mut self, number: u64) -> Result<(), AllocError>
        ensures { IfOk result (λ _. (n : ℕ) (es : List SpecArgument) → spec.is_target self.new n es ≡ nat_eq number (suc n) || spec.is_target self.old n es) }
    {
        if number > 0 {
            self.numbers.insert(number - 1)?;
        }
        Ok(())
    }

    /// This global too.
    fn add_global(&mut self, alloc: Global, g: &Text) -> Result<(), AllocError>
        ensures { IfOk result (λ _. (n : ℕ) (es : List SpecArgument) → spec.is_target self.new n es ≡ mapping.is_ref_to g.now (slice_get es n) || spec.is_target self.old n es) }
    {
        self.globals.add(alloc, g)?;
        Ok(())
    }

    /// This target too.
    fn add(&mut self, alloc: Global, target: &MappingTarget) -> Result<(), AllocError>
        ensures { IfOk result (λ _. (n : ℕ) (es : List SpecArgument) → spec.is_target self.new n es ≡ mapping.names_argument n es target.now || spec.is_target self.old n es) }
    {
        match target {
            MappingTarget::Argument { number, .. } => self.add_number(*number),
            MappingTarget::Global { name, .. } => self.add_global(alloc, &name.name),
        }
    }
}

/// What these clauses name, and the arguments of these numbers.
fn targets_of(
    alloc: Global,
    numbers: BTreeSet<u64>,
    list: &[MappingClause],
) -> Result<Targets, AllocError>
    ensures { IfOk result (λ t. (n : ℕ) (es : List SpecArgument) → spec.is_target t n es ≡ spec.some_clause_or (spec.has_number numbers n) n es list.now) }
{
    let mut targets = Targets::new(alloc, numbers);
    for c in list {
        targets.add(alloc, &c.target)?;
    }
    Ok(targets)
}

/// Whether the argument of this number is one of these globals, from 0.
fn is_ref_at(globals: &Names, args: &[Argument], number: usize) -> bool
    ensures { result ≡ spec.ref_among globals.now (slice_get args.now number) }
{
    is_ref_among(globals, args.get(number))
}

/// Adds the number, if it is.
fn add_number_if(is: bool, number: usize, numbers: &mut BTreeSet<u64>) -> Result<(), AllocError>
    ensures { IfOk result (λ _. (n : ℕ) → spec.has_number numbers.new n ≡ (is && nat_eq number n) || spec.has_number numbers.old n) }
{
    if is {
        numbers.insert(number as u64)?;
    }
    Ok(())
}

/// Adds the numbers of the arguments that are among these globals.
fn add_refs(
    globals: &Names,
    args: &[Argument],
    numbers: &mut BTreeSet<u64>,
) -> Result<(), AllocError>
    ensures { IfOk result (λ _. (n : ℕ) → spec.has_number numbers.new n ≡ spec.has_number numbers.old n || spec.ref_among globals.now (slice_get args.now n)) }
{
    for i in 0..args.len() {
        add_number_if(is_ref_at(globals, args, i), i, numbers)?;
    }
    Ok(())
}

/// The numbers of the arguments that the clauses of the process name, and these.
#[tactic(auto, using(crate::proofs::Targeting::some_or))]
fn numbers_with(
    alloc: Global,
    numbers: BTreeSet<u64>,
    p: &Process,
) -> Result<BTreeSet<u64>, AllocError>
    ensures { IfOk result (λ s. (n : ℕ) → spec.has_number s n ≡ spec.has_number numbers n || mapping.some_clause n p.now.arguments p.now.clauses) }
{
    let targets = targets_of(alloc, numbers, p.clauses.as_slice())?;
    let Targets {
        globals,
        mut numbers,
    } = targets;
    add_refs(&globals, p.arguments.as_slice(), &mut numbers)?;
    Ok(numbers)
}

impl NamedParameters {
    /// None.
    fn new(alloc: Global) -> NamedParameters
        ensures { (r : Name) (n : ℕ) → spec.is_named result r n ≡ false }
    {
        NamedParameters {
            map: NameMap::new(alloc),
        }
    }

    /// Whether the parameter of this number is among those of the archetype, from 0.
    pub fn has(&self, archetype: &Text, number: usize) -> bool
        ensures { result ≡ spec.is_named self.now archetype.now number }
    {
        let number_there = number as u64;
        match self.map.get(archetype) {
            Some(numbers) => numbers.contains(&number_there),
            None => false,
        }
    }

    /// Those that the clauses of this process name too.
    fn add(&mut self, alloc: Global, p: &Process) -> Result<(), AllocError>
        ensures { IfOk result (λ _. (r : Name) (n : ℕ) → spec.is_named self.new r n ≡ spec.is_named self.old r n || spec.names_parameter r n p.now) }
    {
        let before = self
            .map
            .take(&p.archetype.name)
            .unwrap_or(BTreeSet::new(alloc));
        let numbers = numbers_with(alloc, before, p)?;
        self.map.set(alloc, &p.archetype.name, numbers)?;
        Ok(())
    }
}

/// The parameters that a clause of some of these processes names.
pub fn named_parameters(alloc: Global, list: &[Process]) -> Result<NamedParameters, AllocError>
    ensures { IfOk result (λ k. (r : Name) (n : ℕ) → spec.is_named k r n ≡ spec.some_process_or false r n list.now) }
{
    let mut named = NamedParameters::new(alloc);
    for p in list {
        named.add(alloc, p)?;
    }
    Ok(named)
}
