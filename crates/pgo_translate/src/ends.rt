// The items of a label's end.
ghost use Rattle.std.specs.Prelude.{◌≡◌, ◌∷◌, ◌++◌, [], reverse, option_map, IfOk};
ghost use Rattle.pgo_base.specs.Lookup.{find, same_name};
ghost use Rattle.pgo_base.specs.Tree.{Tree, name, primed, text};
ghost use Rattle.pgo_model.specs.Written as written;
ghost use Rattle.pgo_model.specs.Names.{is_among};
ghost use Rattle.pgo_sections.specs.Expansion.{End};
ghost use Rattle.pgo_translate.specs.Items as spec;

use crate::trees::primed_name;
use pgo_base::expr::{Expr, Infix, Names, Sub, Updates};
use pgo_base::results::both;
use pgo_base::text::Text;
use pgo_module_trees::small::{binary_of, name_of, one_expr, text_of};
use std::alloc::{AllocError, Global};

/// The name that has the new value of x, where x is changed.
fn changed_to<'a>(x: &Text, changes: &'a [(Text, Text)]) -> Option<&'a Text>
    ensures { option_map (λ y. y.now) result ≡ find x.now changes.now }
{
    for change in changes {
        if x.is(&change.0) {
            return Some(&change.1);
        }
    }
    None
}

/// Whether a name is one of these.
fn is_one(x: &Text, names: &[Text]) -> bool
    ensures { result ≡ is_among x.now names.now }
{
    for one in names {
        if x.is(one) {
            return true;
        }
    }
    false
}

/// Whether a variable is `pc`.
fn is_pc(x: &Text) -> bool
    ensures { result ≡ same_name x.now written.pc }
{
    let pc: &[u8] = b"pc";
    x.as_bytes().cmp(pc).is_eq()
}

/// The one change of `[x EXCEPT ![self] = e]`.
fn update_at_self(alloc: Global, e: Sub) -> Result<Updates, AllocError>
    ensures { IfOk result (λ us. us ≡ (name written.self_name ∷ [], e) ∷ []) }
{
    let path = one_expr(alloc, name_of(alloc, b"self")?)?;
    let mut updates = Updates::new(alloc);
    updates.push(path, e)?;
    Ok(updates)
}

/// `[x EXCEPT ![self] = e]`
fn at_self(alloc: Global, x: &[u8], e: Sub) -> Result<Sub, AllocError>
    ensures { IfOk result (λ s. s ≡ spec.at_self x.now e) }
{
    let (x, updates) = both(name_of(alloc, x), update_at_self(alloc, e))?;
    Sub::new(alloc, Expr::Except(x, updates))
}

/// What a changed variable becomes, where y has its new value.
fn new_value(alloc: Global, globals: &[Text], x: &Text, y: &Text) -> Result<Sub, AllocError>
    ensures { IfOk result (λ s. s ≡ spec.new_value [] globals.now x.now (name y.now)) }
{
    let y = name_of(alloc, y.as_bytes())?;
    if is_one(x, globals) {
        Ok(y)
    } else {
        at_self(alloc, x.as_bytes(), y)
    }
}

/// `x' = ..` for a variable that changed.
fn assigned(alloc: Global, globals: &[Text], x: &Text, y: &Text) -> Result<Sub, AllocError>
    ensures { IfOk result (λ s. s ≡ spec.equals (primed x.now) (spec.new_value [] globals.now x.now (name y.now))) }
{
    let (x, value) = both(
        primed_name(alloc, x.as_bytes()),
        new_value(alloc, globals, x, y),
    )?;
    binary_of(alloc, Infix::Equal, x, value)
}

/// `pc' = [pc EXCEPT ![self] = "l"]`
fn place_assigned(alloc: Global, label: &Text) -> Result<Sub, AllocError>
    ensures { IfOk result (λ s. s ≡ spec.equals (primed written.pc) (spec.at_self written.pc (text label.now))) }
{
    let label = text_of(alloc, label.as_bytes())?;
    let (pc, value) = both(primed_name(alloc, b"pc"), at_self(alloc, b"pc", label))?;
    binary_of(alloc, Infix::Equal, pc, value)
}

/// What the end of a label changes: variables, by which names, and where it goes.
#[derive(Clone, Copy)]
pub struct Ended<'a> {
    pub changes: &'a [(Text, Text)],
    pub label: &'a Text,
}

/// Adds an expression.
fn push(items: &mut Vec<Sub>, e: Result<Sub, AllocError>) -> Result<(), AllocError>
    ensures { (t : Tree) → IfOk e (λ s. s ≡ t) → IfOk result (λ _. items.new.items ≡ items.old.items ++ t ∷ []) }
{
    items.push(e?)?;
    Ok(())
}

/// Adds the assignment of a variable, where it has one.
fn push_assigned(
    alloc: Global,
    items: &mut Vec<Sub>,
    globals: &[Text],
    ended: &Ended<'_>,
    x: &Text,
) -> Result<(), AllocError>
    ensures { IfOk result (λ _. items.new.items ≡ items.old.items ++ spec.assigned [] globals.now ended.now.changes.now ended.now.label.now x.now) }
{
    if is_pc(x) {
        return push(items, place_assigned(alloc, ended.label));
    }
    match changed_to(x, ended.changes) {
        Some(y) => push(items, assigned(alloc, globals, x, y)),
        None => Ok(()),
    }
}

/// Whether a variable stays as it is.
fn stays(changes: &[(Text, Text)], x: &Text) -> bool
    ensures { result ≡ spec.stays [] [] changes.now x.now }
{
    !is_pc(x) && changed_to(x, changes).is_none()
}

/// The variables that stay as they are.
fn staying(
    alloc: Global,
    variables: &[Text],
    changes: &[(Text, Text)],
) -> Result<Vec<Text>, AllocError>
    ensures { IfOk result (λ v. v.items ≡ spec.staying [] [] changes.now variables.now) }
{
    let mut list = Vec::new(alloc);
    for x in variables {
        if stays(changes, x) {
            list.push(x.copy(alloc)?)?;
        }
    }
    Ok(list)
}

/// Adds `UNCHANGED` of these, where there is one.
fn push_unchanged(alloc: Global, items: &mut Vec<Sub>, names: Vec<Text>) -> Result<(), AllocError>
    ensures { IfOk result (λ _. items.new.items ≡ items.old.items ++ spec.unless_none [] [] names.items) }
{
    if names.is_empty() {
        return Ok(());
    }
    push(
        items,
        Sub::new(alloc, Expr::Unchanged(Names::from_vec(names))),
    )
}

/// Adds the assignments of the variables, in their order.
fn push_assignments(
    alloc: Global,
    items: &mut Vec<Sub>,
    variables: &[Text],
    globals: &[Text],
    ended: &Ended<'_>,
) -> Result<(), AllocError>
    ensures { IfOk result (λ _. items.new.items ≡ items.old.items ++ spec.assignments [] globals.now ended.now.changes.now ended.now.label.now variables.now) }
{
    for x in variables {
        push_assigned(alloc, items, globals, ended, x)?;
    }
    Ok(())
}

/// The items of a label's end, of which the last stands first.
pub fn end_items(
    alloc: Global,
    variables: &[Text],
    globals: &[Text],
    ended: &Ended<'_>,
) -> Result<Vec<Sub>, AllocError>
    ensures { IfOk result (λ v. reverse v.items ≡ spec.items variables.now globals.now (End ended.now.changes.now ended.now.label.now)) }
{
    let mut items = Vec::new(alloc);
    push_assignments(alloc, &mut items, variables, globals, ended)?;
    let names = staying(alloc, variables, ended.changes)?;
    push_unchanged(alloc, &mut items, names)?;
    items.reverse();
    Ok(items)
}
