// Rule 7: two names of the written module are one.
ghost use Rattle.std.specs.Prelude.{◌≡◌, [], ◌∷◌, ◌++◌, Some, IfOk};
ghost use Rattle.pgo_scope.specs.Seen as seen;
ghost use Rattle.pgo_scope.specs.Clash as spec;

use crate::errors::ScopeError;
use crate::finding::Finding;
use crate::module_names::ModuleName;
use pgo_uses::names::Names;
use std::alloc::{AllocError, Global};

/// Adds that t clashes with u.
fn add_clash(
    alloc: Global,
    u: &ModuleName,
    t: &ModuleName,
    out: &mut Vec<Finding>,
) -> Result<(), AllocError>
    ensures { IfOk result (λ _. out.new.items ≡ out.old.items ++ seen.clash_of t.now (Some u.now)) }
{
    let first = u.shown.copy(alloc)?;
    let second = t.shown.copy(alloc)?;
    let error = ScopeError::NameClash { first, second };
    out.push(Finding {
        place: t.place,
        error,
    })?;
    Ok(())
}

/// Adds that t clashes with the one of these names in this place.
fn add_clash_at(
    alloc: Global,
    before: &[ModuleName],
    t: &ModuleName,
    place: Option<usize>,
    out: &mut Vec<Finding>,
) -> Result<(), AllocError>
    ensures { IfOk result (λ _. out.new.items ≡ out.old.items ++ seen.clash_at before.now t.now place) }
{
    match place {
        Some(i) => match before.get(i) {
            Some(u) => add_clash(alloc, u, t, out),
            None => Ok(()),
        },
        None => Ok(()),
    }
}

/// The place of the first name before t that clashes with it, where all of these are written so, and those of them that
/// aren't bound, each with its place.
fn clash_place(any: &Names, unbound: &Names, t: &ModuleName) -> Option<usize>
    ensures { result ≡ seen.clash_place any.now unbound.now t.now }
{
    if t.bound {
        unbound.find(&t.written)
    } else {
        any.position(&t.written)
    }
}

/// Adds the first of these names that clashes with t, where they are written so.
#[tactic(auto, using(crate::proofs::Clashing::found_there))]
fn add_first_clash(
    alloc: Global,
    any: &Names,
    unbound: &Names,
    before: &[ModuleName],
    t: &ModuleName,
    out: &mut Vec<Finding>,
) -> Result<(), AllocError>
    requires any { any.now ≡ seen.any_rows before.now }
    requires unbound { unbound.now ≡ seen.unbound_rows 0 before.now }
    ensures { IfOk result (λ _. out.new.items ≡ out.old.items ++ spec.clash_with before.now t.now) }
{
    let place = clash_place(any, unbound, t);
    add_clash_at(alloc, before, t, place, out)
}

/// One more name, in this place.
fn meet(
    alloc: Global,
    place: usize,
    t: &ModuleName,
    any: &mut Names,
    unbound: &mut Names,
) -> Result<(), AllocError>
    ensures any { IfOk result (λ _. any.new ≡ any.old ++ (t.now.written, 0) ∷ []) }
    ensures unbound { IfOk result (λ _. unbound.new ≡ unbound.old ++ seen.unbound_row place t.now) }
{
    any.push(alloc, &t.written, 0)?;
    if t.bound {
        return Ok(());
    }
    unbound.push(alloc, &t.written, place)
}

/// Adds each name that clashes with one before it.
pub fn add_clashes(
    alloc: Global,
    names: &[ModuleName],
    out: &mut Vec<Finding>,
) -> Result<(), AllocError>
    ensures { IfOk result (λ _. out.new.items ≡ out.old.items ++ spec.clashes_from [] names.now) }
{
    let mut any = Names::new(alloc);
    let mut unbound = Names::new(alloc);
    for (i, t) in names.iter().enumerate() {
        add_first_clash(alloc, &any, &unbound, &names[..i], t, out)?;
        meet(alloc, i, t, &mut any, &mut unbound)?;
    }
    Ok(())
}
