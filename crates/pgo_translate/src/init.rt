// The items of Init.
ghost use Rattle.std.specs.Prelude.{◌≡◌, ◌∷◌, ◌++◌, [], map, Some, IfOk};
ghost use Rattle.std.specs.List.{flat_map};
ghost use Rattle.pgo_base.specs.Tree.{Tree, arms, binary, case_of, fun_set, name, text};
ghost use Rattle.pgo_model.specs.Module as written;
ghost use Rattle.pgo_model.specs.Written.{default_init_value, self_name};
ghost use Rattle.pgo_translate.specs.Items.{equals};
ghost use Rattle.pgo_translate.specs.ModuleOf as spec;

use pgo_base::expr::{Arms, Expr, Infix, Sub};
use pgo_base::results::both;
use pgo_base::text::Text;
use pgo_module_trees::joined::all_of;
use pgo_module_trees::small::{binary_of, binder, name_of, text_of};
use pgo_pluscal::part::Part;
use pgo_pluscal::pluscal::{ExpandedProcess, PlusCal};
use pgo_syntax::binding::Origin;
use pgo_syntax::declaration::Declaration;
use std::alloc::{AllocError, Global};

/// `a o b`
fn related(
    alloc: Global,
    o: Infix,
    a: Result<Sub, AllocError>,
    b: Result<Sub, AllocError>,
) -> Result<Sub, AllocError>
    ensures { (s t : Tree) → IfOk a (λ x. x ≡ s) → IfOk b (λ x. x ≡ t) → IfOk result (λ x. x ≡ binary o s t) }
{
    let (a, b) = both(a, b)?;
    binary_of(alloc, o, a, b)
}

/// `defaultInitValue`
fn default_value(alloc: Global) -> Result<Sub, AllocError>
    ensures { IfOk result (λ s. s ≡ name default_init_value) }
{
    name_of(alloc, b"defaultInitValue")
}

/// What a global with an initial value starts with.
fn global_with(alloc: Global, x: &Text, initial: &Origin) -> Result<Sub, AllocError>
    ensures { IfOk result (λ s. s ≡ spec.global_starts x.now (Some initial.now)) }
{
    let x = name_of(alloc, x.as_bytes());
    match initial {
        Origin::Equals(e) => related(alloc, Infix::Equal, x, e.copy(alloc)),
        Origin::In(e) => related(alloc, Infix::In, x, e.copy(alloc)),
    }
}

/// What a global starts with.
fn global_start(alloc: Global, x: &Text, initial: &Option<Origin>) -> Result<Sub, AllocError>
    ensures { IfOk result (λ s. s ≡ spec.global_starts x.now initial.now) }
{
    match initial {
        Some(initial) => global_with(alloc, x, initial),
        None => related(
            alloc,
            Infix::Equal,
            name_of(alloc, x.as_bytes()),
            default_value(alloc),
        ),
    }
}

/// `[self \in ids |-> e]`
fn for_each_id(alloc: Global, ids: Sub, e: Sub) -> Result<Sub, AllocError>
    ensures { IfOk result (λ s. s ≡ spec.for_each_id ids e) }
{
    let bound = binder(alloc, b"self", ids)?;
    Sub::new(alloc, Expr::FunOf(bound, e))
}

/// `x = [self \in ids |-> e]`
fn starts_each(alloc: Global, ids: Sub, x: &[u8], e: Sub) -> Result<Sub, AllocError>
    ensures { IfOk result (λ s. s ≡ equals (name x.now) (spec.for_each_id ids e)) }
{
    let (x, each) = both(name_of(alloc, x), for_each_id(alloc, ids, e))?;
    binary_of(alloc, Infix::Equal, x, each)
}

/// `[ids -> e]`
fn all_functions(alloc: Global, ids: Sub, e: &Sub) -> Result<Sub, AllocError>
    ensures { IfOk result (λ s. s ≡ fun_set ids e.now) }
{
    let e = e.copy(alloc)?;
    Sub::new(alloc, Expr::FunSet(ids, e))
}

/// What a process's own variable with an initial value starts with.
fn own_with(alloc: Global, ids: Sub, x: &Text, initial: &Origin) -> Result<Sub, AllocError>
    ensures { IfOk result (λ s. s ≡ spec.own_starts ids x.now (Some initial.now)) }
{
    let x = x.as_bytes();
    match initial {
        Origin::Equals(e) => starts_each(alloc, ids, x, e.copy(alloc)?),
        Origin::In(e) => {
            let all = all_functions(alloc, ids, e);
            related(alloc, Infix::In, name_of(alloc, x), all)
        }
    }
}

/// What a process's own variable starts with.
fn own_start(alloc: Global, ids: Sub, x: &Text, initial: &Option<Origin>) -> Result<Sub, AllocError>
    ensures { IfOk result (λ s. s ≡ spec.own_starts ids x.now initial.now) }
{
    match initial {
        Some(initial) => own_with(alloc, ids, x, initial),
        None => starts_each(alloc, ids, x.as_bytes(), default_value(alloc)?),
    }
}

/// Adds what a process's own variables start with.
fn push_process(
    alloc: Global,
    items: &mut Vec<Sub>,
    process: &ExpandedProcess,
) -> Result<(), AllocError>
    ensures { IfOk result (λ _. items.new.items ≡ items.old.items ++ spec.process_starts process.now) }
{
    for d in process.variables.as_slice() {
        let ids = process.ids.copy(alloc)?;
        items.push(own_start(alloc, ids, &d.name.name, &d.initial)?)?;
    }
    Ok(())
}

/// Adds what the own variables of each process start with.
fn push_processes(
    alloc: Global,
    items: &mut Vec<Sub>,
    processes: &[ExpandedProcess],
) -> Result<(), AllocError>
    ensures { IfOk result (λ _. items.new.items ≡ items.old.items ++ flat_map spec.process_starts processes.now) }
{
    for process in processes {
        push_process(alloc, items, process)?;
    }
    Ok(())
}

/// Adds what each global starts with.
fn push_globals(
    alloc: Global,
    items: &mut Vec<Sub>,
    globals: &[Declaration],
) -> Result<(), AllocError>
    ensures { IfOk result (λ _. items.new.items ≡ items.old.items ++ map (λ d. spec.global_starts d.name.name d.initial) globals.now) }
{
    for d in globals {
        items.push(global_start(alloc, &d.name.name, &d.initial)?)?;
    }
    Ok(())
}

/// The label at which a process starts.
fn first_label(alloc: Global, labels: &[(Text, Part)]) -> Result<Sub, AllocError>
    ensures { IfOk result (λ s. s ≡ text (spec.first_label labels.now)) }
{
    match labels.first() {
        Some(label) => text_of(alloc, label.0.as_bytes()),
        None => text_of(alloc, b"Done"),
    }
}

/// `self \in ids`
fn self_among(alloc: Global, ids: &Sub) -> Result<Sub, AllocError>
    ensures { IfOk result (λ s. s ≡ spec.member (name self_name) ids.now) }
{
    let own = name_of(alloc, b"self");
    related(alloc, Infix::In, own, ids.copy(alloc))
}

/// Where the instances of a process start: a test on the identifier, and the label.
fn first_arm(alloc: Global, process: &ExpandedProcess) -> Result<(Sub, Sub), AllocError>
    ensures { IfOk result (λ arm. arm ≡ spec.first_arm process.now) }
{
    let label = first_label(alloc, process.trees.as_slice());
    let (test, label) = both(self_among(alloc, &process.ids), label)?;
    Ok((test, label))
}

/// The case of each process.
fn first_arms(alloc: Global, processes: &[ExpandedProcess]) -> Result<Arms, AllocError>
    ensures { IfOk result (λ list. list ≡ map spec.first_arm processes.now) }
{
    let mut list = Arms::new(alloc);
    for process in processes {
        let (test, label) = first_arm(alloc, process)?;
        list.push(test, label)?;
    }
    Ok(list)
}

/// The case of all processes.
fn places(alloc: Global, processes: &[ExpandedProcess]) -> Result<Sub, AllocError>
    ensures { IfOk result (λ s. s ≡ case_of (arms (map spec.first_arm processes.now))) }
{
    let cases = first_arms(alloc, processes)?;
    Sub::new(alloc, Expr::Case(cases))
}

/// What `pc` starts with.
fn places_start(alloc: Global, processes: &[ExpandedProcess]) -> Result<Sub, AllocError>
    ensures { IfOk result (λ s. s ≡ spec.places_start processes.now) }
{
    let (ids, cases) = both(name_of(alloc, b"ProcSet"), places(alloc, processes))?;
    starts_each(alloc, ids, b"pc", cases)
}

/// Init.
pub fn init(alloc: Global, p: &PlusCal) -> Result<Sub, AllocError>
    ensures { IfOk result (λ s. s ≡ written.all_of (spec.start_items p.now)) }
{
    let processes = p.processes.as_slice();
    let mut items = Vec::new(alloc);
    push_globals(alloc, &mut items, p.globals.as_slice())?;
    items.push(places_start(alloc, processes)?)?;
    push_processes(alloc, &mut items, processes)?;
    items.reverse();
    all_of(alloc, items)
}
