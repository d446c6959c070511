// The module that the lines have.
ghost use Rattle.std.specs.Prelude.{◌≡◌, IfOk, map};
ghost use Rattle.pgo_base.specs.Tree.{name};
ghost use Rattle.pgo_model.specs.Module as written;
ghost use Rattle.pgo_model.specs.ModuleView.{module_view};
ghost use Rattle.pgo_expr_read.specs.Steps.{Makes};
ghost use Rattle.pgo_module_spells.specs.Parts as parts;
ghost use Rattle.pgo_module_read.specs.Building as spec;

use crate::lines::{Declared, Further, Lines};
use crate::processes::processes;
use crate::same::same_tree;
use pgo_base::expr::{Expr, Exprs, Names, Sub};
use pgo_base::module::{Module, Processes};
use pgo_lexer::bytes::is_same;
use pgo_lexer::errors::TextStop;
use pgo_module_trees::further::{next_body, terminating_body};
use pgo_module_trees::small::name_of;
use std::alloc::{AllocError, Global};

/// All but the last of these names, which must be `defaultInitValue`.
pub fn without_default(names: Names) -> Result<Names, TextStop>
    ensures { Makes (spec.without_default names) result }
{
    let mut list = names.into_vec();
    match list.pop() {
        None => Err(TextStop::at(0)),
        Some(last) => {
            if is_same(last.as_bytes(), b"defaultInitValue") {
                Ok(Names::from_vec(list))
            } else {
                Err(TextStop::at(0))
            }
        }
    }
}

/// The module of these processes. The last constant goes.
fn candidate(declared: Declared, init: Sub, processes: Processes) -> Result<Module, TextStop>
    ensures { Makes (spec.candidate declared init processes) result }
{
    let Declared {
        name,
        constants,
        definitions,
        variables,
    } = declared;
    let constants = without_default(constants)?;
    Ok(Module {
        name,
        constants,
        definitions,
        variables,
        init,
        processes,
    })
}

/// The names as expressions.
fn all_names(alloc: Global, names: &Names) -> Result<Exprs, AllocError>
    ensures { IfOk result (λ es. es ≡ map name names.now) }
{
    let mut list = Exprs::new(alloc);
    for x in names.as_slice() {
        list.push(name_of(alloc, x.as_bytes())?)?;
    }
    Ok(list)
}

/// The tuple of these names.
pub fn tuple_of(alloc: Global, names: &Names) -> Result<Sub, AllocError>
    ensures { IfOk result (λ t. t ≡ parts.tuple_of names.now) }
{
    Sub::new(alloc, Expr::Tuple(all_names(alloc, names)?))
}

/// Whether this is the body of `vars`.
fn is_vars(alloc: Global, m: &Module, body: &Sub) -> Result<bool, AllocError>
    ensures { IfOk result (λ r. r ≡ spec.same_tree body.now (parts.tuple_of m.now.variables)) }
{
    let wanted = tuple_of(alloc, &m.variables)?;
    same_tree(alloc, body, &wanted)
}

/// Whether this is the body of Terminating.
fn is_ending(alloc: Global, m: &Module, body: &Sub) -> Result<bool, AllocError>
    ensures { IfOk result (λ r. r ≡ spec.same_tree body.now (written.terminating_body (module_view m.now))) }
{
    let wanted = terminating_body(alloc, m)?;
    same_tree(alloc, body, &wanted)
}

/// Whether this is the body of Next.
fn is_next(alloc: Global, m: &Module, body: &Sub) -> Result<bool, AllocError>
    ensures { IfOk result (λ r. r ≡ spec.same_tree body.now (written.next_body (module_view m.now))) }
{
    let wanted = next_body(alloc, m)?;
    same_tree(alloc, body, &wanted)
}

/// Whether these are the bodies of `vars`, Terminating and Next.
fn has_bodies(
    alloc: Global,
    m: &Module,
    vars: &Sub,
    ending: &Sub,
    next: &Sub,
) -> Result<bool, AllocError>
    ensures { IfOk result (λ r. r ≡ spec.has_bodies m.now vars.now ending.now next.now) }
{
    let a = is_vars(alloc, m, vars)?;
    let b = is_ending(alloc, m, ending)?;
    let c = is_next(alloc, m, next)?;
    Ok(a && b && c)
}

/// The module that the lines have, in which the definitions behind the variables are those of a translation.
#[tactic(auto, unfolding(crate::specs::Building::module_of))]
pub fn module_of(alloc: Global, lines: Lines) -> Result<Module, TextStop>
    ensures { Makes (spec.module_of lines) result }
{
    let Lines { declared, further } = lines;
    let Further {
        vars,
        sets,
        init,
        actions,
        ending,
        next,
    } = further;
    let list = processes(alloc, &next, &sets, actions)?;
    let m = candidate(declared, init, list)?;
    if has_bodies(alloc, &m, &vars, &ending, &next)? {
        Ok(m)
    } else {
        Err(TextStop::at(0))
    }
}
