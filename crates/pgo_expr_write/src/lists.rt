// The lists of an expression as parts, with the word between two of them.
ghost use Rattle.std.specs.Prelude.{◌≡◌, ◌++◌, codes, map, IfOk};
ghost use Rattle.pgo_base.specs.ExprView.{tree};
ghost use Rattle.pgo_base.specs.Tree.{trees, named, arms, bound, paths};
ghost use Rattle.pgo_expr_write.specs.Parts.{see};
ghost use Rattle.pgo_expr_write.specs.Pieces as spec;

use crate::parts::{Part, add, add_between};
use pgo_base::expr::{Arms, Binders, Expr, Exprs, Named, Names, Update, Updates};
use pgo_text::names::is_name;
use std::alloc::AllocError;

/// Adds expressions with a word between them.
pub fn add_list<'a>(
    parts: &mut Vec<Part<'a>>,
    list: &'a Exprs,
    between: &'a [u8],
) -> Result<(), AllocError>
    ensures { IfOk result (λ _. map see parts.new.items ≡ map see parts.old.items ++ spec.list_from between.now 0 (trees list.now)) }
{
    let items = list.as_slice();
    for (i, e) in items.iter().enumerate() {
        add_between(parts, between, i)?;
        add(parts, &[Part::Member(e)])?;
    }
    Ok(())
}

/// Adds names with commas between them.
pub fn add_names<'a>(parts: &mut Vec<Part<'a>>, names: &'a Names) -> Result<(), AllocError>
    ensures { IfOk result (λ _. map see parts.new.items ≡ map see parts.old.items ++ spec.names_from 0 names.now) }
{
    let items = names.as_slice();
    for (i, x) in items.iter().enumerate() {
        add_between(parts, b", ", i)?;
        add(parts, &[Part::Name(x)])?;
    }
    Ok(())
}

/// Adds names, each with a sign and its expression, and a word between them.
pub fn add_named<'a>(
    parts: &mut Vec<Part<'a>>,
    list: &'a Named,
    sign: &'a [u8],
    between: &'a [u8],
) -> Result<(), AllocError>
    ensures { IfOk result (λ _. map see parts.new.items ≡ map see parts.old.items ++ spec.named_from sign.now between.now 0 (named list.now)) }
{
    let items = list.as_slice();
    for (i, p) in items.iter().enumerate() {
        add_between(parts, between, i)?;
        add(
            parts,
            &[Part::Name(&p.0), Part::Bytes(sign), Part::Member(&p.1)],
        )?;
    }
    Ok(())
}

/// Adds the arms of CASE.
pub fn add_arms<'a>(parts: &mut Vec<Part<'a>>, list: &'a Arms) -> Result<(), AllocError>
    ensures { IfOk result (λ _. map see parts.new.items ≡ map see parts.old.items ++ spec.arms_from 0 (arms list.now)) }
{
    let items = list.as_slice();
    for (i, p) in items.iter().enumerate() {
        add_between(parts, b" [] ", i)?;
        add(
            parts,
            &[Part::Member(&p.0), Part::Bytes(b" -> "), Part::Member(&p.1)],
        )?;
    }
    Ok(())
}

/// Adds the names of a binder and their set.
fn add_binder<'a>(
    parts: &mut Vec<Part<'a>>,
    names: &'a Names,
    set: &'a Expr,
) -> Result<(), AllocError>
    ensures { IfOk result (λ _. map see parts.new.items ≡ map see parts.old.items ++ spec.binder_pieces names.now (tree set.now)) }
{
    add_names(parts, names)?;
    add(parts, &[Part::Bytes(b" \\in "), Part::Member(set)])
}

/// Adds binders with commas between them.
pub fn add_binders<'a>(parts: &mut Vec<Part<'a>>, list: &'a Binders) -> Result<(), AllocError>
    ensures { IfOk result (λ _. map see parts.new.items ≡ map see parts.old.items ++ spec.binders_from 0 (bound list.now)) }
{
    let items = list.as_slice();
    for (i, p) in items.iter().enumerate() {
        add_between(parts, b", ", i)?;
        add_binder(parts, &p.0, &p.1)?;
    }
    Ok(())
}

/// Adds an index in brackets.
fn add_bracketed<'a>(parts: &mut Vec<Part<'a>>, e: &'a Expr) -> Result<(), AllocError>
    ensures { IfOk result (λ _. map see parts.new.items ≡ map see parts.old.items ++ spec.bracketed (tree e.now)) }
{
    add(
        parts,
        &[Part::Bytes(b"["), Part::Member(e), Part::Bytes(b"]")],
    )
}

/// Adds one index of a path: a string that can be a field as that field.
fn add_index<'a>(parts: &mut Vec<Part<'a>>, e: &'a Expr) -> Result<(), AllocError>
    ensures { IfOk result (λ _. map see parts.new.items ≡ map see parts.old.items ++ spec.index_pieces (tree e.now)) }
{
    match e {
        Expr::Text(s) => {
            if is_name(s.as_bytes()) {
                add(parts, &[Part::Bytes(b"."), Part::Name(s)])
            } else {
                add_bracketed(parts, e)
            }
        }
        _ => add_bracketed(parts, e),
    }
}

/// Adds a path of EXCEPT.
fn add_path<'a>(parts: &mut Vec<Part<'a>>, path: &'a Exprs) -> Result<(), AllocError>
    ensures { IfOk result (λ _. map see parts.new.items ≡ map see parts.old.items ++ spec.path_pieces (trees path.now)) }
{
    for e in path.as_slice() {
        add_index(parts, e)?;
    }
    Ok(())
}

/// Adds one change of EXCEPT.
fn add_update<'a>(parts: &mut Vec<Part<'a>>, update: &'a Update) -> Result<(), AllocError>
    ensures { IfOk result (λ _. map see parts.new.items ≡ map see parts.old.items ++ spec.update_pieces (trees update.now.path) (tree update.now.value)) }
{
    add(parts, &[Part::Bytes(b"!")])?;
    add_path(parts, &update.path)?;
    add(parts, &[Part::Bytes(b" = "), Part::Member(&update.value)])
}

/// Adds the changes of EXCEPT.
pub fn add_updates<'a>(parts: &mut Vec<Part<'a>>, list: &'a Updates) -> Result<(), AllocError>
    ensures { IfOk result (λ _. map see parts.new.items ≡ map see parts.old.items ++ spec.updates_from 0 (paths list.now)) }
{
    let items = list.as_slice();
    for (i, u) in items.iter().enumerate() {
        add_between(parts, b", ", i)?;
        add_update(parts, u)?;
    }
    Ok(())
}
