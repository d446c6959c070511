// What each rule finds, rule by rule.
ghost use Rattle.std.specs.Prelude.{◌≡◌, ◌++◌, map, IfOk, flat_map};
ghost use Rattle.pgo_scope.specs.Refusal.{first_broken};
ghost use Rattle.pgo_scope.specs.Rules as spec;
ghost use Rattle.pgo_scope.specs.RulesView.{see};

use crate::arity::{add_arity_heads, add_arity_use};
use crate::assigned::add_assigned_use;
use crate::captures::{CaptureTable, add_capture_use};
use crate::clash::add_clashes;
use crate::errors::ScopeError;
use crate::finding::{Cause, Finding, add_if, earliest};
use crate::globals::is_global;
use crate::macro_table::MacroTable;
use crate::mapped::add_mapped_use;
use crate::module_names::module_names;
use crate::modules::add_unknown_modules;
use crate::twice::{add_declared_twice, add_reserved, is_hiding};
use crate::underscores::add_double_names;
use crate::units::UnitNames;
use crate::unknown::{add_unknown_heads, is_unknown};
use crate::words::has_double_underscore;
use pgo_uses::heads::{head_names, unit_names};
use pgo_uses::tables::Tables;
use pgo_uses::uses::Use;
use std::alloc::{AllocError, Global};

/// What the rules look at.
#[derive(Clone, Copy)]
pub struct Context<'a, 's> {
    /// the specification, with the names that its archetypes and macros declare
    pub units: &'a UnitNames<'s>,
    pub tables: &'a Tables,
    /// the macros, with the usage of their parameters
    pub macros: MacroTable<'a>,
    /// which names may not stand in the arguments of macros
    pub captures: CaptureTable<'a>,
    /// the names that stand in the text
    pub uses: &'a [Use],
}

/// A rule about one name that stands in the text.
#[derive(Clone, Copy)]
pub enum UseRule {
    Unknown,
    Hiding,
    Captured,
    Arity,
    Global,
    Assigned,
    Mapped,
    Underscores,
}

/// A rule.
#[derive(Clone, Copy)]
pub enum Rule {
    Unknown,
    Twice,
    Arity,
    Globals,
    Assigned,
    Mapped,
    Clashes,
    Underscores,
    Modules,
}

/// The rules, in the order in which they are checked.
pub const RULES: [Rule; 9] = [
    Rule::Unknown,
    Rule::Twice,
    Rule::Arity,
    Rule::Globals,
    Rule::Assigned,
    Rule::Mapped,
    Rule::Clashes,
    Rule::Underscores,
    Rule::Modules,
];

fn add_use(
    alloc: Global,
    rule: UseRule,
    c: &Context<'_, '_>,
    u: &Use,
    out: &mut Vec<Finding>,
) -> Result<(), AllocError>
    ensures { IfOk result (λ _. out.new.items ≡ out.old.items ++ spec.use_findings rule (see c.now) u.now) }
{
    let (place, x) = (u.around.place, &u.name);
    match rule {
        UseRule::Unknown => {
            let wrong = is_unknown(c.tables, c.units, u);
            add_if(alloc, wrong, Cause::Unknown, place, x, out)
        }
        UseRule::Hiding => add_if(alloc, is_hiding(c.tables, u), Cause::Twice, place, x, out),
        UseRule::Captured => add_capture_use(alloc, &c.captures, u, out),
        UseRule::Arity => add_arity_use(alloc, c.tables, u, out),
        UseRule::Global => {
            let wrong = is_global(c.tables, u);
            add_if(alloc, wrong, Cause::GlobalInArchetype, place, x, out)
        }
        UseRule::Assigned => add_assigned_use(alloc, c.units, &c.macros, u, out),
        UseRule::Mapped => add_mapped_use(alloc, c.units, &c.macros, u, out),
        UseRule::Underscores => {
            let wrong = has_double_underscore(x);
            add_if(alloc, wrong, Cause::DoubleUnderscore, place, x, out)
        }
    }
}

/// Adds what a rule finds about the names that stand in the text.
fn add_uses(
    alloc: Global,
    rule: UseRule,
    c: &Context<'_, '_>,
    out: &mut Vec<Finding>,
) -> Result<(), AllocError>
    ensures { IfOk result (λ _. out.new.items ≡ out.old.items ++ flat_map (spec.use_findings rule (see c.now)) (see c.now).uses) }
{
    for u in c.uses {
        add_use(alloc, rule, c, u, out)?;
    }
    Ok(())
}

fn add_unknown(alloc: Global, c: &Context<'_, '_>, out: &mut Vec<Finding>) -> Result<(), AllocError>
    ensures { IfOk result (λ _. out.new.items ≡ out.old.items ++ spec.unknown (see c.now)) }
{
    add_uses(alloc, UseRule::Unknown, c, out)?;
    add_unknown_heads(alloc, c.tables, c.units.spec.processes.as_slice(), out)
}

/// Adds the names that hide another, and those in arguments that a macro captures.
fn add_hidden(alloc: Global, c: &Context<'_, '_>, out: &mut Vec<Finding>) -> Result<(), AllocError>
    ensures { IfOk result (λ _. out.new.items ≡ out.old.items ++ spec.hidden (see c.now)) }
{
    add_uses(alloc, UseRule::Hiding, c, out)?;
    add_uses(alloc, UseRule::Captured, c, out)
}

fn add_twice(alloc: Global, c: &Context<'_, '_>, out: &mut Vec<Finding>) -> Result<(), AllocError>
    ensures { IfOk result (λ _. out.new.items ≡ out.old.items ++ spec.twice (see c.now)) }
{
    add_declared_twice(alloc, c.units.spec, out)?;
    let names = unit_names(alloc, c.units.spec)?;
    add_reserved(alloc, names.as_slice(), out)?;
    add_hidden(alloc, c, out)
}

fn add_arities(alloc: Global, c: &Context<'_, '_>, out: &mut Vec<Finding>) -> Result<(), AllocError>
    ensures { IfOk result (λ _. out.new.items ≡ out.old.items ++ spec.arities (see c.now)) }
{
    add_uses(alloc, UseRule::Arity, c, out)?;
    add_arity_heads(alloc, c.tables, c.units.spec.processes.as_slice(), out)
}

fn add_name_clashes(
    alloc: Global,
    c: &Context<'_, '_>,
    out: &mut Vec<Finding>,
) -> Result<(), AllocError>
    ensures { IfOk result (λ _. out.new.items ≡ out.old.items ++ spec.clashes (see c.now)) }
{
    let names = module_names(alloc, c.units.spec, c.uses)?;
    add_clashes(alloc, names.as_slice(), out)
}

fn add_underscores(
    alloc: Global,
    c: &Context<'_, '_>,
    out: &mut Vec<Finding>,
) -> Result<(), AllocError>
    ensures { IfOk result (λ _. out.new.items ≡ out.old.items ++ spec.underscores (see c.now)) }
{
    let names = head_names(alloc, c.units.spec)?;
    add_double_names(alloc, names.as_slice(), out)?;
    add_uses(alloc, UseRule::Underscores, c, out)
}

/// Adds what the rule finds.
fn add_found(
    alloc: Global,
    rule: Rule,
    c: &Context<'_, '_>,
    out: &mut Vec<Finding>,
) -> Result<(), AllocError>
    ensures { IfOk result (λ _. out.new.items ≡ out.old.items ++ spec.found_by rule (see c.now)) }
{
    match rule {
        Rule::Unknown => add_unknown(alloc, c, out),
        Rule::Twice => add_twice(alloc, c, out),
        Rule::Arity => add_arities(alloc, c, out),
        Rule::Globals => add_uses(alloc, UseRule::Global, c, out),
        Rule::Assigned => add_uses(alloc, UseRule::Assigned, c, out),
        Rule::Mapped => add_uses(alloc, UseRule::Mapped, c, out),
        Rule::Clashes => add_name_clashes(alloc, c, out),
        Rule::Underscores => add_underscores(alloc, c, out),
        Rule::Modules => add_unknown_modules(alloc, c.units.spec, out),
    }
}

/// What the rule finds first in the text.
fn first_found(
    alloc: Global,
    rule: Rule,
    c: &Context<'_, '_>,
) -> Result<Option<ScopeError>, AllocError>
    ensures { IfOk result (λ r. r ≡ spec.first_found rule (see c.now)) }
{
    let mut found = Vec::new(alloc);
    add_found(alloc, rule, c, &mut found)?;
    Ok(earliest(found))
}

/// What the first of these rules that finds anything finds first in the text.
pub fn first_of(
    alloc: Global,
    rules: &[Rule],
    c: &Context<'_, '_>,
) -> Result<Option<ScopeError>, AllocError>
    ensures { IfOk result (λ r. r ≡ first_broken (map (λ r. spec.found_by r (see c.now)) rules.now)) }
{
    for rule in rules {
        let first = first_found(alloc, *rule, c)?;
        if first.is_some() {
            return Ok(first);
        }
    }
    Ok(None)
}
