// The names that stand in the heads of a specification.
use pgo_definitions::used::add_names;
use pgo_syntax::binding::Origin;
use pgo_syntax::declaration::Declaration;
use pgo_syntax::process::Argument;
use pgo_syntax::spec::Spec;
use std::alloc::{AllocError, Global};
use std::collections::BTreeSet;

/// Adds the names that stand in what a name has its value from.
fn add_origin<'a>(
    alloc: Global,
    names: &mut BTreeSet<&'a [u8]>,
    origin: &'a Origin,
) -> Result<(), AllocError> {
    match origin {
        Origin::Equals(e) => add_names(alloc, names, e.get()),
        Origin::In(e) => add_names(alloc, names, e.get()),
    }
}

/// Adds the names that stand in the initial values of declarations.
fn add_declarations<'a>(
    alloc: Global,
    names: &mut BTreeSet<&'a [u8]>,
    list: &'a [Declaration],
) -> Result<(), AllocError> {
    for d in list {
        if let Some(origin) = &d.initial {
            add_origin(alloc, names, origin)?;
        }
    }
    Ok(())
}

/// Adds the names that stand in the arguments of an instance.
fn add_arguments<'a>(
    alloc: Global,
    names: &mut BTreeSet<&'a [u8]>,
    list: &'a [Argument],
) -> Result<(), AllocError> {
    for argument in list {
        if let Argument::Value(_, e) = argument {
            add_names(alloc, names, e.get())?;
        }
    }
    Ok(())
}

/// Adds the names that stand in the processes' identifiers and arguments.
fn add_processes<'a>(
    alloc: Global,
    names: &mut BTreeSet<&'a [u8]>,
    spec: &'a Spec,
) -> Result<(), AllocError> {
    for process in spec.processes.as_slice() {
        add_origin(alloc, names, &process.ids)?;
        add_arguments(alloc, names, process.arguments.as_slice())?;
    }
    Ok(())
}

/// The names that stand in the heads of a specification: in initial values, identifiers and arguments.
pub fn names_in_heads(alloc: Global, spec: &Spec) -> Result<BTreeSet<&[u8]>, AllocError> {
    let mut names = BTreeSet::new(alloc);
    add_declarations(alloc, &mut names, spec.globals.as_slice())?;
    for archetype in spec.archetypes.as_slice() {
        add_declarations(alloc, &mut names, archetype.locals.as_slice())?;
    }
    add_processes(alloc, &mut names, spec)?;
    Ok(names)
}
