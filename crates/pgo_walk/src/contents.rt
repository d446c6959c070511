// The expressions that have the current values of places, and of what blocks read and write.
ghost use Rattle.std.specs.Prelude.{◌≡◌, ◌∷◌, [], Some, option_map, IfOk};
ghost use Rattle.pgo_base.specs.Tree.{name, index, except, no_trees, more_trees, no_paths, more_paths};
ghost use Rattle.pgo_sections.specs.Code.{Whole, Own};
ghost use Rattle.pgo_sections.specs.Expand as spec;

use crate::made::{Made, made_for};
use pgo_base::expr::{Expr, Exprs, Sub, Updates};
use pgo_base::results::both;
use pgo_base::text::Text;
use std::alloc::{AllocError, Global};

/// `x`
pub fn name_sub(alloc: Global, x: &Text) -> Result<Sub, AllocError>
    ensures { IfOk result (λ s. s ≡ name x.now) }
{
    Sub::new(alloc, Expr::Name(x.copy(alloc)?))
}

/// One index.
fn one_index(alloc: Global, i: Sub) -> Result<Exprs, AllocError>
    ensures { IfOk result (λ es. es ≡ i ∷ []) }
{
    let mut indices = Exprs::new(alloc);
    indices.push(i)?;
    Ok(indices)
}

/// One change of EXCEPT.
fn one_update(alloc: Global, path: Exprs, v: Sub) -> Result<Updates, AllocError>
    ensures { IfOk result (λ us. us ≡ (path, v) ∷ []) }
{
    let mut updates = Updates::new(alloc);
    updates.push(path, v)?;
    Ok(updates)
}

/// `f[i]`
fn element(alloc: Global, f: Sub, i: Sub) -> Result<Sub, AllocError>
    ensures { IfOk result (λ s. s ≡ index f (more_trees i no_trees)) }
{
    let indices = one_index(alloc, i)?;
    Sub::new(alloc, Expr::Index(f, indices))
}

/// The one change of `[f EXCEPT ![i] = v]`.
fn update_at(alloc: Global, i: Sub, v: Sub) -> Result<Updates, AllocError>
    ensures { IfOk result (λ us. us ≡ (i ∷ [], v) ∷ []) }
{
    let path = one_index(alloc, i)?;
    one_update(alloc, path, v)
}

/// `[f EXCEPT ![i] = v]`
fn with_element(alloc: Global, f: Sub, i: Sub, v: Sub) -> Result<Sub, AllocError>
    ensures { IfOk result (λ s. s ≡ except f (more_paths (more_trees i no_trees) v no_paths)) }
{
    let updates = update_at(alloc, i, v)?;
    Sub::new(alloc, Expr::Except(f, updates))
}

/// A global as it is now.
pub fn whole_now(alloc: Global, current: &Made, x: &Text) -> Result<Sub, AllocError>
    ensures { IfOk result (λ s. s ≡ spec.current current.now (Whole x.now)) }
{
    match made_for(x, current) {
        Some(made) => name_sub(alloc, made),
        None => name_sub(alloc, x),
    }
}

/// `x[self]`
fn own_untouched(alloc: Global, x: &Text) -> Result<Sub, AllocError>
    ensures { IfOk result (λ s. s ≡ spec.untouched (Own x.now)) }
{
    let own = Text::from_slice(alloc, b"self")?;
    let (x, own) = both(name_sub(alloc, x), name_sub(alloc, &own))?;
    element(alloc, x, own)
}

/// The part at `self` of a variable, as it is now.
pub fn own_now(alloc: Global, current: &Made, x: &Text) -> Result<Sub, AllocError>
    ensures { IfOk result (λ s. s ≡ spec.current current.now (Own x.now)) }
{
    match made_for(x, current) {
        Some(made) => name_sub(alloc, made),
        None => own_untouched(alloc, x),
    }
}

/// The made name of a name that the code binds.
fn name_of(alloc: Global, renames: &Made, w: &Text) -> Result<Sub, AllocError>
    ensures { IfOk result (λ s. s ≡ name (spec.made_name renames.now w.now)) }
{
    match made_for(w, renames) {
        Some(made) => name_sub(alloc, made),
        None => name_sub(alloc, w),
    }
}

/// g as it is now, or its element at what i stands for.
pub fn content(
    alloc: Global,
    renames: &Made,
    current: &Made,
    g: &Text,
    i: Option<&Text>,
) -> Result<Sub, AllocError>
    ensures { IfOk result (λ s. s ≡ spec.content_tree renames.now current.now g.now (option_map (λ x. x.now) i.entry)) }
{
    let whole = whole_now(alloc, current, g)?;
    match i {
        None => Ok(whole),
        Some(i) => element(alloc, whole, name_of(alloc, renames, i)?),
    }
}

/// g with e as its new element at what i stands for.
fn element_put(
    alloc: Global,
    renames: &Made,
    current: &Made,
    g: &Text,
    i: &Text,
    e: Sub,
) -> Result<Sub, AllocError>
    ensures { IfOk result (λ s. s ≡ spec.content_put renames.now current.now g.now (Some i.now) e) }
{
    let (whole, i) = both(whole_now(alloc, current, g), name_of(alloc, renames, i))?;
    with_element(alloc, whole, i, e)
}

/// g with e as its new content, as a whole or at what i stands for.
pub fn content_put(
    alloc: Global,
    renames: &Made,
    current: &Made,
    g: &Text,
    i: Option<&Text>,
    e: Sub,
) -> Result<Sub, AllocError>
    ensures { IfOk result (λ s. s ≡ spec.content_put renames.now current.now g.now (option_map (λ x. x.now) i.entry) e) }
{
    match i {
        None => Ok(e),
        Some(i) => element_put(alloc, renames, current, g, i, e),
    }
}

/// Each variable that changed, with the made name of its current value, in the order of the variables.
pub fn settle(
    alloc: Global,
    variables: &[Text],
    current: &Made,
) -> Result<Vec<(Text, Text)>, AllocError>
    ensures { IfOk result (λ v. v.items ≡ spec.settled variables.now current.now) }
{
    let mut changes = Vec::new(alloc);
    for x in variables {
        if let Some(made) = made_for(x, current) {
            changes.push((x.copy(alloc)?, made.copy(alloc)?))?;
        }
    }
    Ok(changes)
}
