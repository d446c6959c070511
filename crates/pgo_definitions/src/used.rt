// Which definitions are used where expressions are evaluated.
use pgo_base::expr::Expr;
use pgo_base::module::Defined;
use pgo_operands::operands::operands;
use std::alloc::{AllocError, Global};
use std::collections::BTreeSet;

/// Adds the names that stand in an expression.
///
/// Err only where there is no memory. It recurses to the height of the expression.
pub fn add_names<'a>(
    alloc: Global,
    names: &mut BTreeSet<&'a [u8]>,
    e: &'a Expr,
) -> Result<(), AllocError> {
    if let Expr::Name(x) = e {
        names.insert(x.as_bytes())?;
    }
    let parts = operands(alloc, e)?;
    for part in parts.as_slice() {
        add_names(alloc, names, *part)?;
    }
    Ok(())
}

/// Whether a definition is used, where these are the names that stand in what is evaluated and in what is used behind it. The names in its
/// body are then added. One with parameters counts as used.
fn is_used<'a>(
    alloc: Global,
    names: &mut BTreeSet<&'a [u8]>,
    d: &'a Defined,
) -> Result<bool, AllocError> {
    match d {
        Defined::Given { .. } => Ok(false),
        Defined::Means { name, params, body } => {
            let used = !params.as_slice().is_empty() || names.contains(&name.as_bytes());
            if used {
                add_names(alloc, names, body.get())?;
            }
            Ok(used)
        }
    }
}

/// Which definitions are used where these names stand in what is evaluated, from the last to the first.
///
/// A definition sees those before it alone. Err only where there is no memory.
pub fn used_definitions<'a>(
    alloc: Global,
    names: BTreeSet<&'a [u8]>,
    defs: &'a [Defined],
) -> Result<Vec<bool>, AllocError> {
    let mut names = names;
    let mut used = Vec::new(alloc);
    let mut left = defs;
    for _ in 0..defs.len() {
        let Some((d, before)) = left.split_last() else {
            return Ok(used);
        };
        used.push(is_used(alloc, &mut names, d)?)?;
        left = before;
    }
    Ok(used)
}
