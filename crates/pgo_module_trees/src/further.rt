// The bodies of a module's further definitions: ProcSet, each process's own, Terminating and Next.
ghost use Rattle.std.specs.Prelude.{◌≡◌, ◌∷◌, ◌++◌, [], map, IfOk};
ghost use Rattle.pgo_base.specs.ActionView.{action_pair};
ghost use Rattle.pgo_base.specs.declared.expr.Quantifier.TheVariants as quantifiers;
ghost use Rattle.pgo_base.specs.Tree.{bound, name, quantified, unchanged};
ghost use Rattle.pgo_model.specs.Module as written;
ghost use Rattle.pgo_model.specs.ModuleView.{module_view, process_view};
ghost use Rattle.pgo_model.specs.Written.{done, proc_set as set_name, self_name};

use crate::joined::{any_of, union_of};
use crate::small::{binary_of, call_with_self, name_of, place_is, quantified_of};
use pgo_base::expr::{Expr, Infix, Names, Quantifier, Sub};
use pgo_base::items::Copied;
use pgo_base::module::{Action, Module, WrittenProcess};
use pgo_base::results::both;
use std::alloc::{AllocError, Global};

/// The sets of identifiers.
fn id_sets(alloc: Global, processes: &[WrittenProcess]) -> Result<Vec<Sub>, AllocError>
    ensures { IfOk result (λ v. v.items ≡ map (λ p. p.ids) (map process_view processes.now)) }
{
    let mut list = Vec::new(alloc);
    for p in processes {
        list.push(p.ids.copy(alloc)?)?;
    }
    Ok(list)
}

/// The body of ProcSet: the processes' sets joined by `\cup` from the left. `AllocError` comes where there is no memory, here and
/// below.
///
/// Source: the translation of A PlusCal User's Manual.
pub fn proc_set(alloc: Global, m: &Module) -> Result<Sub, AllocError>
    ensures { IfOk result (λ s. s ≡ written.proc_set_of (module_view m.now)) }
{
    let mut sets = id_sets(alloc, m.processes.as_slice())?;
    sets.reverse();
    union_of(alloc, sets)
}

/// The calls of label actions with `self`.
fn label_calls(alloc: Global, actions: &[Action]) -> Result<Vec<Sub>, AllocError>
    ensures { IfOk result (λ v. v.items ≡ map (λ a. written.self_call a.0) (map action_pair actions.now)) }
{
    let mut list = Vec::new(alloc);
    for action in actions {
        list.push(call_with_self(alloc, &action.name)?)?;
    }
    Ok(list)
}

/// The body of a process's own definition: its label actions joined by `\/` from the left.
///
/// Source: the translation of A PlusCal User's Manual.
pub fn process_body(alloc: Global, p: &WrittenProcess) -> Result<Sub, AllocError>
    ensures { IfOk result (λ s. s ≡ written.process_body (process_view p.now)) }
{
    let mut calls = label_calls(alloc, p.actions.as_slice())?;
    calls.reverse();
    any_of(alloc, calls)
}

/// `\A self \in ProcSet : pc[self] = "Done"`
fn all_done(alloc: Global) -> Result<Sub, AllocError>
    ensures { IfOk result (λ s. s ≡ quantified quantifiers.Forall (bound ((self_name ∷ [], name set_name) ∷ [])) (written.stands_at done)) }
{
    let (ids, place) = both(name_of(alloc, b"ProcSet"), place_is(alloc, b"Done"))?;
    quantified_of(alloc, Quantifier::Forall, b"self", ids, place)
}

/// `UNCHANGED` of these.
fn unchanged_of(alloc: Global, names: &Names) -> Result<Sub, AllocError>
    ensures { IfOk result (λ s. s ≡ unchanged names.now) }
{
    Sub::new(alloc, Expr::Unchanged(names.copy(alloc)?))
}

/// The body of Terminating: all instances are at Done, and nothing changes.
///
/// Source: the translation of A PlusCal User's Manual.
pub fn terminating_body(alloc: Global, m: &Module) -> Result<Sub, AllocError>
    ensures { IfOk result (λ s. s ≡ written.terminating_body (module_view m.now)) }
{
    let (done, same) = both(all_done(alloc), unchanged_of(alloc, &m.variables))?;
    binary_of(alloc, Infix::And, done, same)
}

/// `\E self \in ids : P(self)`
fn process_step(alloc: Global, p: &WrittenProcess) -> Result<Sub, AllocError>
    ensures { IfOk result (λ s. s ≡ written.process_step (process_view p.now)) }
{
    let (ids, call) = both(p.ids.copy(alloc), call_with_self(alloc, &p.name))?;
    quantified_of(alloc, Quantifier::Exists, b"self", ids, call)
}

/// The steps of each process.
fn process_steps(alloc: Global, processes: &[WrittenProcess]) -> Result<Vec<Sub>, AllocError>
    ensures { IfOk result (λ v. v.items ≡ map written.process_step (map process_view processes.now)) }
{
    let mut list = Vec::new(alloc);
    for p in processes {
        list.push(process_step(alloc, p)?)?;
    }
    Ok(list)
}

/// The body of Next: a step of some process, joined by `\/` from the left, or Terminating.
///
/// Source: the translation of A PlusCal User's Manual.
pub fn next_body(alloc: Global, m: &Module) -> Result<Sub, AllocError>
    ensures { IfOk result (λ s. s ≡ written.next_body (module_view m.now)) }
{
    let mut steps = process_steps(alloc, m.processes.as_slice())?;
    steps.push(name_of(alloc, b"Terminating")?)?;
    steps.reverse();
    any_of(alloc, steps)
}
