// Which definitions a check uses.
use pgo_base::expr::Expr;
use pgo_base::last_place::Named;
use pgo_base::module::{Action, Defined, Module};
use pgo_base::name_map::NameMap;
use pgo_operands::operands::operands;
use std::alloc::{AllocError, Global};

/// Which of these definitions Init or an action uses, by itself or through another, from the last to the first.
///
/// A definition sees those before it alone. Err only where there is no memory.
pub fn used_in(alloc: Global, m: &Module, defs: &[Defined]) -> Result<Vec<bool>, AllocError> {
    let mut names = NameMap::new(alloc);
    add_names(alloc, &mut names, m.init.get())?;
    for p in m.processes.as_slice() {
        add_action_names(alloc, &mut names, p.actions.as_slice())?;
    }
    used_definitions(alloc, names, defs)
}

/// Adds the names that stand in the actions.
fn add_action_names(
    alloc: Global,
    names: &mut NameMap<()>,
    actions: &[Action],
) -> Result<(), AllocError> {
    for a in actions {
        add_names(alloc, names, a.body.get())?;
    }
    Ok(())
}

/// Adds the names that stand in an expression, alone or with arguments.
fn add_names(alloc: Global, names: &mut NameMap<()>, e: &Expr) -> Result<(), AllocError> {
    let mut left = Vec::new(alloc);
    left.push(e)?;
    while let Some(one) = left.pop() {
        add_name(alloc, names, one)?;
        let parts = operands(alloc, one)?;
        left.extend_from_slice(parts.as_slice())?;
    }
    Ok(())
}

/// Adds the name of an expression that is one, and that of a call.
fn add_name(alloc: Global, names: &mut NameMap<()>, e: &Expr) -> Result<(), AllocError> {
    match e {
        Expr::Name(x) => names.set_first(alloc, x, ()),
        Expr::Call(x, _) => names.set_first(alloc, x, ()),
        _ => Ok(()),
    }
}

/// Which definitions are used where these names stand in what is evaluated, from the last to the first.
fn used_definitions(
    alloc: Global,
    names: NameMap<()>,
    defs: &[Defined],
) -> Result<Vec<bool>, AllocError> {
    let mut names = names;
    let mut used = Vec::new(alloc);
    let mut left = defs;
    for _ in 0..defs.len() {
        let Some((d, before)) = left.split_last() else {
            return Ok(used);
        };
        used.push(is_used(alloc, &mut names, d)?)?;
        left = before;
    }
    Ok(used)
}

/// Whether a definition is used, where these are the names that stand in what is evaluated and in what is used behind it. The names in
/// its body are then added.
fn is_used(alloc: Global, names: &mut NameMap<()>, d: &Defined) -> Result<bool, AllocError> {
    if !names.contains(d.name()) {
        return Ok(false);
    }
    if let Defined::Means { body, .. } = d {
        add_names(alloc, names, body.get())?;
    }
    Ok(true)
}
