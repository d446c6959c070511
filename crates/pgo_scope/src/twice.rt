// Rule 2: a name has two meanings, but for macros' arguments.
ghost use Rattle.std.specs.Prelude.{◌≡◌, [], ◌++◌, IfOk, flat_map};
ghost use Rattle.pgo_uses.specs.PieceView.{placed_names};
ghost use Rattle.pgo_scope.specs.TextOrder.{in_text_order};
ghost use Rattle.pgo_scope.specs.Twice as spec;

use crate::finding::{Cause, Finding, add_if};
use crate::unknown::knows_self;
use crate::words::{is_default, is_self, operator_count};
use pgo_base::text::Text;
use pgo_syntax::name::PlacedName;
use pgo_syntax::spec::Spec;
use pgo_uses::heads::{
    add_archetype_names, add_macro_names, add_mapping_names, add_process_names, add_shared_names,
};
use pgo_uses::names::Names;
use pgo_uses::tables::Tables;
use pgo_uses::uses::{Form, Home, Use};
use std::alloc::{AllocError, Global};

/// These names in the order of the text.
fn sorted<'a>(list: Vec<&'a PlacedName>) -> Result<Vec<&'a PlacedName>, AllocError>
    ensures { IfOk result (λ v. placed_names v.items ≡ in_text_order (λ x. x.place) (placed_names list.entry.items)) }
{
    let mut list = list;
    list.sort_by_key(|x| x.place)?;
    Ok(list)
}

/// Adds each of these names that stands before among them.
fn add_repeated(
    alloc: Global,
    list: &[&PlacedName],
    out: &mut Vec<Finding>,
) -> Result<(), AllocError>
    ensures { IfOk result (λ _. out.new.items ≡ out.old.items ++ spec.repeated [] (placed_names list.now)) }
{
    let mut before = Names::new(alloc);
    for x in list {
        let again = before.has(&x.name);
        add_if(alloc, again, Cause::Twice, x.place, &x.name, out)?;
        before.push(alloc, &x.name, 0)?;
    }
    Ok(())
}

/// The names in the heads of units by the scope that they share.
#[derive(Clone, Copy)]
enum Heads {
    /// constants, definitions and globals
    Shared,
    Macros,
    Mappings,
    Archetypes,
    Processes,
}

/// Adds the names of such heads.
fn add_heads<'a>(
    alloc: Global,
    heads: Heads,
    s: &'a Spec,
    out: &mut Vec<&'a PlacedName>,
) -> Result<(), AllocError>
    ensures { IfOk result (λ _. placed_names out.new.items ≡ placed_names out.old.items ++ spec.names_in heads s.now) }
{
    match heads {
        Heads::Shared => add_shared_names(alloc, s, out),
        Heads::Macros => add_macro_names(out, s),
        Heads::Mappings => add_mapping_names(out, s),
        Heads::Archetypes => add_archetype_names(out, s),
        Heads::Processes => add_process_names(out, s),
    }
}

/// Adds each name of such heads that stands before among them in the text.
fn add_repeated_in(
    alloc: Global,
    heads: Heads,
    s: &Spec,
    out: &mut Vec<Finding>,
) -> Result<(), AllocError>
    ensures { IfOk result (λ _. out.new.items ≡ out.old.items ++ spec.repeated_in (spec.names_in heads s.now)) }
{
    let mut names = Vec::new(alloc);
    add_heads(alloc, heads, s, &mut names)?;
    let list = sorted(names)?;
    add_repeated(alloc, list.as_slice(), out)
}

/// Adds what is declared twice in the heads of units.
pub fn add_declared_twice(alloc: Global, s: &Spec, out: &mut Vec<Finding>) -> Result<(), AllocError>
    ensures { IfOk result (λ _. out.new.items ≡ out.old.items ++ spec.declared_twice s.now) }
{
    add_repeated_in(alloc, Heads::Shared, s, out)?;
    add_repeated_in(alloc, Heads::Macros, s, out)?;
    add_repeated_in(alloc, Heads::Mappings, s, out)?;
    add_repeated_in(alloc, Heads::Archetypes, s, out)?;
    add_repeated_in(alloc, Heads::Processes, s, out)
}

/// Whether the name is an operator's, or `defaultInitValue`.
fn is_reserved(x: &Text) -> bool
    ensures { result ≡ spec.is_reserved x.now }
{
    operator_count(x).is_some() || is_default(x)
}

/// Adds each of these names that is an operator's, or `defaultInitValue`.
pub fn add_reserved(
    alloc: Global,
    list: &[&PlacedName],
    out: &mut Vec<Finding>,
) -> Result<(), AllocError>
    ensures { IfOk result (λ _. out.new.items ≡ out.old.items ++ flat_map spec.reserved_name (placed_names list.now)) }
{
    for x in list {
        let reserved = is_reserved(&x.name);
        add_if(alloc, reserved, Cause::Twice, x.place, &x.name, out)?;
    }
    Ok(())
}

/// Whether names that are declared there may be those of globals.
fn may_be_global(home: Home) -> bool
    ensures { result ≡ spec.may_be_global home }
{
    matches!(home, Home::Body(_))
}

/// Whether the name hides one that is in scope where it is bound or declared.
fn hides(t: &Tables, u: &Use) -> bool
    ensures { result ≡ spec.hides t.now u.now }
{
    u.inner
        || is_reserved(&u.name)
        || t.constants.has(&u.name)
        || t.definitions.has(&u.name)
        || (is_self(&u.name) && knows_self(u.around.home))
}

/// Whether the name is bound or declared in a unit and hides another.
pub fn is_hiding(t: &Tables, u: &Use) -> bool
    ensures { result ≡ spec.hiding_of t.now u.now u.now.form }
{
    match &u.form {
        Form::Bound => hides(t, u) || t.globals.has(&u.name),
        Form::Named => { hides(t, u) || (t.globals.has(&u.name) && !may_be_global(u.around.home)) }
        _ => false,
    }
}
