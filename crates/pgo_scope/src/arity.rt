// Rule 3: a name has another number of arguments than its meaning takes.
ghost use Rattle.std.specs.Prelude.{◌≡◌, ◌++◌, IfOk};
ghost use Rattle.pgo_scope.specs.Arity as spec;

use crate::errors::ScopeError;
use crate::finding::Finding;
use crate::words::operator_count;
use pgo_base::text::Text;
use pgo_syntax::process::Process;
use pgo_uses::names::Names;
use pgo_uses::tables::Tables;
use pgo_uses::uses::{Form, Use};
use std::alloc::{AllocError, Global};

/// How many arguments the name takes where it stands.
fn takes(t: &Tables, u: &Use) -> usize
    ensures { result ≡ spec.takes t.now u.now }
{
    if u.inner {
        return 0;
    }
    match t.definitions.find(&u.name) {
        Some(count) => count,
        None => operator_count(&u.name).unwrap_or(0),
    }
}

/// Adds a name that takes so many arguments and has so many.
fn add_if_other(
    alloc: Global,
    takes: usize,
    got: usize,
    place: u32,
    x: &Text,
    out: &mut Vec<Finding>,
) -> Result<(), AllocError>
    ensures { IfOk result (λ _. out.new.items ≡ out.old.items ++ spec.other_number takes got place x.now) }
{
    if takes != got {
        let name = x.copy(alloc)?;
        out.push(Finding {
            place,
            error: ScopeError::Arity { name, got },
        })?;
    }
    Ok(())
}

/// Adds a name of these that has so many arguments, where it takes another number.
fn add_wrong_number(
    alloc: Global,
    names: &Names,
    x: &Text,
    got: usize,
    place: u32,
    out: &mut Vec<Finding>,
) -> Result<(), AllocError>
    ensures { IfOk result (λ _. out.new.items ≡ out.old.items ++ spec.wrong_number names.now x.now got place) }
{
    let takes = names.find(x).unwrap_or(got);
    add_if_other(alloc, takes, got, place, x, out)
}

/// Adds the name where it has a wrong number of arguments.
pub fn add_arity_use(
    alloc: Global,
    t: &Tables,
    u: &Use,
    out: &mut Vec<Finding>,
) -> Result<(), AllocError>
    ensures { IfOk result (λ _. out.new.items ≡ out.old.items ++ spec.arity_use t.now u.now) }
{
    let place = u.around.place;
    match &u.form {
        Form::Alone | Form::Assigned(_) => {
            add_if_other(alloc, takes(t, u), 0, place, &u.name, out)
        }
        Form::Applied(count) => add_if_other(alloc, takes(t, u), *count, place, &u.name, out),
        Form::Called(list) => {
            let count = list.as_slice().len();
            add_wrong_number(alloc, &t.macros, &u.name, count, place, out)
        }
        Form::Bound | Form::Named | Form::Field | Form::Label | Form::Target => Ok(()),
    }
}

/// Adds what breaks the rule in the heads of processes.
pub fn add_arity_heads(
    alloc: Global,
    t: &Tables,
    list: &[Process],
    out: &mut Vec<Finding>,
) -> Result<(), AllocError>
    ensures { IfOk result (λ _. out.new.items ≡ out.old.items ++ spec.arity_heads t.now list.now) }
{
    for p in list {
        let got = p.arguments.as_slice().len();
        add_wrong_number(
            alloc,
            &t.archetypes,
            &p.archetype.name,
            got,
            p.archetype.place,
            out,
        )?;
    }
    Ok(())
}
