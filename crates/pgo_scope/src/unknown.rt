// Rule 1: a name has no meaning at its place.
ghost use Rattle.std.specs.Prelude.{◌≡◌, ◌++◌, IfOk};
ghost use Rattle.pgo_scope.specs.Unknown as spec;

use crate::finding::{Cause, Finding, add_if};
use crate::units::UnitNames;
use crate::words::{is_default, is_self, operator_count};
use pgo_base::text::Text;
use pgo_syntax::process::{Argument, MappingClause, MappingTarget, Process};
use pgo_uses::tables::Tables;
use pgo_uses::uses::{Form, Home, Use};
use std::alloc::{AllocError, Global};

/// Whether the name has a meaning everywhere.
fn is_constant(t: &Tables, x: &Text) -> bool
    ensures { result ≡ spec.is_constant t.now x.now }
{
    t.constants.has(x) || operator_count(x).is_some() || is_default(x)
}

/// Whether the name has a meaning everywhere but in definitions and in initial values.
fn is_common(t: &Tables, x: &Text) -> bool
    ensures { result ≡ spec.is_common t.now x.now }
{
    is_constant(t, x) || t.definitions.has(x) || t.globals.has(x)
}

/// Whether `self` is known there.
pub fn knows_self(home: Home) -> bool
    ensures { result ≡ spec.knows_self home }
{
    match home {
        Home::Definition(_) | Home::Global(_) | Home::InitialSet(_) | Home::Process => false,
        Home::Macro(_) | Home::Mapping | Home::Initial(_) | Home::Body(_) | Home::Argument => true,
    }
}

/// Whether the name has a meaning there that nothing around it gives it.
fn means(t: &Tables, units: &UnitNames<'_>, home: Home, x: &Text) -> bool
    ensures { result ≡ spec.means t.now units.now.spec.now.archetypes home x.now }
{
    match home {
        Home::Definition(i) => is_constant(t, x)
            || t.definitions.is_earlier(i, x)
            || t.globals.has(x),
        Home::Global(i) => !t.globals.is_at(i, x) && is_common(t, x),
        Home::Macro(_) => is_common(t, x) || is_self(x),
        Home::Mapping => is_common(t, x) || is_self(x),
        Home::Initial(j) => !units.is_own(j, x) && (is_common(t, x) || is_self(x)),
        Home::InitialSet(j) => !units.is_own(j, x) && is_common(t, x),
        Home::Body(_) => is_common(t, x) || is_self(x),
        Home::Process => is_common(t, x),
        Home::Argument => is_common(t, x) || is_self(x),
    }
}

/// Whether a macro of the name may be called there.
fn may_call(t: &Tables, home: Home, x: &Text) -> bool
    ensures { result ≡ spec.may_call t.now home x.now }
{
    match home {
        Home::Macro(i) => t.macros.is_earlier(i, x),
        _ => t.macros.has(x),
    }
}

/// Whether the name has no meaning where it stands.
pub fn is_unknown(t: &Tables, units: &UnitNames<'_>, u: &Use) -> bool
    ensures { result ≡ spec.is_unknown t.now units.now.spec.now.archetypes u.now u.now.form }
{
    match &u.form {
        Form::Alone | Form::Applied(_) | Form::Assigned(_) => {
            !u.inner && !means(t, units, u.around.home, &u.name)
        }
        Form::Called(_) => !may_call(t, u.around.home, &u.name),
        Form::Bound | Form::Named | Form::Field | Form::Label | Form::Target => false,
    }
}

fn add_unknown_target(
    alloc: Global,
    t: &Tables,
    target: &MappingTarget,
    out: &mut Vec<Finding>,
) -> Result<(), AllocError>
    ensures { IfOk result (λ _. out.new.items ≡ out.old.items ++ spec.unknown_target t.now target.now) }
{
    match target {
        MappingTarget::Global { name, .. } => {
            let wrong = !t.globals.has(&name.name);
            add_if(alloc, wrong, Cause::Unknown, name.place, &name.name, out)
        }
        MappingTarget::Argument { .. } => Ok(()),
    }
}

fn add_unknown_arguments(
    alloc: Global,
    t: &Tables,
    list: &[Argument],
    out: &mut Vec<Finding>,
) -> Result<(), AllocError>
    ensures { IfOk result (λ _. out.new.items ≡ out.old.items ++ spec.unknown_arguments t.now list.now) }
{
    for argument in list {
        let Argument::Ref(x, _) = argument else {
            continue;
        };
        let wrong = !t.globals.has(&x.name);
        add_if(alloc, wrong, Cause::Unknown, x.place, &x.name, out)?;
    }
    Ok(())
}

fn add_unknown_clauses(
    alloc: Global,
    t: &Tables,
    list: &[MappingClause],
    out: &mut Vec<Finding>,
) -> Result<(), AllocError>
    ensures { IfOk result (λ _. out.new.items ≡ out.old.items ++ spec.unknown_clauses t.now list.now) }
{
    for clause in list {
        add_unknown_target(alloc, t, &clause.target, out)?;
        let x = &clause.mapping;
        let wrong = !t.mappings.has(&x.name);
        add_if(alloc, wrong, Cause::Unknown, x.place, &x.name, out)?;
    }
    Ok(())
}

/// Adds what breaks the rule in the heads of processes.
pub fn add_unknown_heads(
    alloc: Global,
    t: &Tables,
    list: &[Process],
    out: &mut Vec<Finding>,
) -> Result<(), AllocError>
    ensures { IfOk result (λ _. out.new.items ≡ out.old.items ++ spec.unknown_heads t.now list.now) }
{
    for p in list {
        let x = &p.archetype;
        let wrong = !t.archetypes.has(&x.name);
        add_if(alloc, wrong, Cause::Unknown, x.place, &x.name, out)?;
        add_unknown_arguments(alloc, t, p.arguments.as_slice(), out)?;
        add_unknown_clauses(alloc, t, p.clauses.as_slice(), out)?;
    }
    Ok(())
}
