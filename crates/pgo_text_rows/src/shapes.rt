// What the reader made of a specification, as texts.
use pgo_sheet::answers::push_word;
use pgo_syntax::spec::Spec;
use pgo_syntax::statement::Stmt;
use std::alloc::{AllocError, Global};

/// How many there are of each kind of part.
pub fn counts(alloc: Global, spec: &Spec) -> Result<String, AllocError> {
    let extends = spec.extends.as_slice().len();
    let constants = spec.constants.as_slice().len();
    let mappings = spec.mappings.as_slice().len();
    let archetypes = spec.archetypes.as_slice().len();
    let globals = spec.globals.as_slice().len();
    let processes = spec.processes.as_slice().len();
    format!(in alloc;
        "{extends} modules, {constants} constants, {mappings} mapping macros, {archetypes} archetypes, {globals} globals, {processes} processes"
    )
}

/// The first statement of the first archetype.
fn first_statement(spec: &Spec) -> Option<&Stmt> {
    let archetype = spec.archetypes.as_slice().first()?;
    let row = archetype.body.as_slice().first()?;
    Some(&row.statement)
}

/// The branches of the first statement, and of the statement in its first branch.
pub fn branches(alloc: Global, spec: &Spec) -> Result<String, AllocError> {
    let outer = first_statement(spec);
    let inner = branches_of(alloc, first_inner(outer))?;
    let outer = branches_of(alloc, outer)?;
    format!(in alloc; "{outer}, in the first {inner}")
}

/// How many branches an `if` has, and whether it has an `else`.
fn branches_of(alloc: Global, s: Option<&Stmt>) -> Result<String, AllocError> {
    match s {
        Some(Stmt::If(_, list)) => format!(in alloc; "{} branches", list.as_slice().len()),
        Some(Stmt::IfElse(_, list, _)) => {
            format!(in alloc; "{} branches and else", list.as_slice().len())
        }
        _ => String::from_str(alloc, "no branches"),
    }
}

/// The statement in the first branch.
fn first_inner(s: Option<&Stmt>) -> Option<&Stmt> {
    let list = match s? {
        Stmt::If(_, list) => list,
        Stmt::IfElse(_, list, _) => list,
        _ => return None,
    };
    let branch = list.as_slice().first()?;
    Some(&branch.statement)
}

/// The names that the first statement assigns, and where they stand behind `start`.
pub fn assigned(alloc: Global, spec: &Spec, start: usize) -> Result<String, AllocError> {
    let mut words = String::new(alloc);
    if let Some(Stmt::Assign(_, list)) = first_statement(spec) {
        for a in list.as_slice() {
            let name = String::from_utf8_lossy(alloc, a.left.name.name.as_bytes())?;
            let place = (a.left.name.place as usize).saturating_sub(start);
            let word = format!(in alloc; "{name} at {place}")?;
            push_word(&mut words, ", ", word.as_str())?;
        }
    }
    Ok(words)
}
