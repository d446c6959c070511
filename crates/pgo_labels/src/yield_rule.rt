// Rule 6: in a block of a mapping macro some path doesn't end in its one `yield`, or there stands in it what may not.
ghost use Rattle.std.specs.Prelude.{◌≡◌, [], ◌∷◌, ◌++◌, codes, true, false, map, flat_map, IfOk};
ghost use Rattle.std.specs.List.{list_any};
ghost use Rattle.pgo_base.specs.ExprView.{tree};
ghost use Rattle.pgo_syntax.specs.Origins.{origin_tree};
ghost use Rattle.pgo_syntax.specs.Statement.{guarded, labeled};
ghost use Rattle.pgo_syntax.specs.StatementView.{statement};
ghost use Rattle.pgo_operands.specs.Operands.{lent_trees};
ghost use Rattle.pgo_labels.specs.Inside.{with_inside};
ghost use Rattle.pgo_labels.specs.ItemEnds.{all_items_end, items_end};
ghost use Rattle.pgo_syntax.specs.Least.{least};
ghost use Rattle.pgo_labels.specs.Parts.{see, parts};
ghost use Rattle.pgo_labels.specs.YieldRule as spec;

use crate::finding::{Finding, Rule, make_finding};
use crate::items::{Item, block_items, items_in, items_of_body, parts_of};
use pgo_base::expr::Expr;
use pgo_base::text::Text;
use pgo_operands::mentions::any_mentions;
use pgo_operands::operands::{members, one_part};
use pgo_syntax::assignment::{Assignments, Path, Step};
use pgo_syntax::binding::{Origin, WithNames};
use pgo_syntax::macros::MappingMacro;
use pgo_syntax::statement::{Block, Branches, Stmt};
use std::alloc::{AllocError, Global};

/// Whether a statement is a `yield`.
fn is_yield(s: &Stmt) -> bool
    ensures { result ≡ spec.is_yield (statement s.now) }
{
    match s {
        Stmt::Yield(..) => true,
        _ => false,
    }
}

/// Whether one of these statements is a `yield`.
fn any_yield(items: &[Item<'_>]) -> bool
    ensures { result ≡ list_any (λ i. spec.is_yield i.1) (map see items.now) }
{
    for item in items {
        if is_yield(item.statement()) {
            return true;
        }
    }
    false
}

/// Whether a `yield` stands in this statement, or is it.
fn has_yield(alloc: Global, s: &Stmt) -> Result<bool, AllocError>
    ensures { IfOk result (λ b. b ≡ spec.has_yield (statement s.now)) }
{
    let items = items_in(alloc, s)?;
    Ok(is_yield(s) || any_yield(items.as_slice()))
}

/// Whether each path of a statement ends in its one `yield`.
#[cycle(ends)]
fn ends_in_yield(alloc: Global, s: &Stmt) -> Result<bool, AllocError>
    ensures { IfOk result (λ b. b ≡ spec.ends_in_yield (statement s.now)) }
{
    match s {
        Stmt::Yield(..) => Ok(true),
        Stmt::IfElse(..) => all_parts_end(alloc, s),
        Stmt::Either(..) => all_parts_end(alloc, s),
        Stmt::With(..) => all_parts_end(alloc, s),
        Stmt::Block(_, block) => {
            let parts = block_items(alloc, block)?;
            row_ends(alloc, parts.as_slice())
        }
        _ => Ok(false),
    }
}

/// Whether each path of each statement that stands directly in this one ends in its one `yield`.
#[cycle(ends)]
fn all_parts_end(alloc: Global, s: &Stmt) -> Result<bool, AllocError>
    ensures { IfOk result (λ b. b ≡ all_items_end (parts (statement s.now))) }
{
    let parts = parts_of(alloc, s)?;
    let list = parts.as_slice();
    for part in list {
        if !ends_in_yield(alloc, part.statement())? {
            return Ok(false);
        }
    }
    Ok(true)
}

/// Whether each path of a row of statements ends in its one `yield`.
#[cycle(ends)]
fn row_ends(alloc: Global, list: &[Item<'_>]) -> Result<bool, AllocError>
    ensures { IfOk result (λ b. b ≡ items_end (map see list.now)) }
{
    for (i, part) in list.iter().enumerate() {
        if i + 1 == list.len() {
            return ends_in_yield(alloc, part.statement());
        }
        if has_yield(alloc, part.statement())? {
            return Ok(false);
        }
    }
    Ok(false)
}

/// Whether each path of a body ends in its one `yield`.
fn body_ends(alloc: Global, body: &Block) -> Result<bool, AllocError>
    ensures { IfOk result (λ b. b ≡ spec.row_ends (labeled body.now)) }
{
    let items = block_items(alloc, body)?;
    row_ends(alloc, items.as_slice())
}

/// Whether a statement has no place in a mapping macro.
fn is_forbidden(s: &Stmt) -> bool
    ensures { result ≡ spec.is_forbidden (statement s.now) }
{
    match s {
        Stmt::While(..) => true,
        Stmt::Print(..) => true,
        Stmt::Goto(..) => true,
        Stmt::Call(..) => true,
        _ => false,
    }
}

/// Whether one of these statements has no place in a mapping macro.
fn any_forbidden(items: &[Item<'_>]) -> bool
    ensures { result ≡ list_any (λ i. spec.is_forbidden i.1) (map see items.now) }
{
    for item in items {
        if is_forbidden(item.statement()) {
            return true;
        }
    }
    false
}

/// Adds the indices of a path.
fn add_indices<'a>(parts: &mut Vec<&'a Expr>, path: &'a Path) -> Result<(), AllocError>
    ensures { IfOk result (λ _. lent_trees parts.new.items ≡ lent_trees parts.old.items ++ spec.indices path.now) }
{
    let list = path.as_slice();
    for step in list {
        if let Step::Index(e) = step {
            parts.push(e.get())?;
        }
    }
    Ok(())
}

/// The indices and right sides of assignments.
fn assigned<'a>(alloc: Global, assignments: &'a Assignments) -> Result<Vec<&'a Expr>, AllocError>
    ensures { IfOk result (λ v. lent_trees v.items ≡ flat_map (λ a. spec.indices a.left.path ++ a.right ∷ []) assignments.entry.now) }
{
    let mut parts = Vec::new(alloc);
    let list = assignments.as_slice();
    for one in list {
        add_indices(&mut parts, &one.left.path)?;
        parts.push(one.right.get())?;
    }
    Ok(parts)
}

/// The conditions of branches.
fn conditions<'a>(alloc: Global, branches: &'a Branches) -> Result<Vec<&'a Expr>, AllocError>
    ensures { IfOk result (λ v. lent_trees v.items ≡ spec.conditions (guarded branches.entry.now)) }
{
    let mut parts = Vec::new(alloc);
    let list = branches.as_slice();
    for one in list {
        parts.push(one.condition.get())?;
    }
    Ok(parts)
}

/// The expression from which a name of a `with` has its value.
fn origin_of<'a>(origin: &'a Origin) -> &'a Expr
    ensures { tree result.now ≡ origin_tree origin.entry.now }
{
    match origin {
        Origin::Equals(e) => e.get(),
        Origin::In(e) => e.get(),
    }
}

/// The expressions from which the names of a `with` have their values.
fn origins<'a>(alloc: Global, names: &'a WithNames) -> Result<Vec<&'a Expr>, AllocError>
    ensures { IfOk result (λ v. lent_trees v.items ≡ map (λ w. origin_tree w.origin) names.entry.now) }
{
    let mut parts = Vec::new(alloc);
    let list = names.as_slice();
    for one in list {
        parts.push(origin_of(&one.origin))?;
    }
    Ok(parts)
}

/// The expressions of a statement, without those of the statements within it.
fn expressions<'a>(alloc: Global, s: &'a Stmt) -> Result<Vec<&'a Expr>, AllocError>
    ensures { IfOk result (λ v. lent_trees v.items ≡ spec.expressions (statement s.entry.now)) }
{
    match s {
        Stmt::Assign(_, list) => assigned(alloc, list),
        Stmt::If(_, branches) => conditions(alloc, branches),
        Stmt::IfElse(_, branches, _) => conditions(alloc, branches),
        Stmt::While(_, e, _) => one_part(alloc, e),
        Stmt::Await(_, e) => one_part(alloc, e),
        Stmt::With(_, names, _) => origins(alloc, names),
        Stmt::Print(_, e) => one_part(alloc, e),
        Stmt::Assert(_, e) => one_part(alloc, e),
        Stmt::Call(_, _, list) => members(alloc, list),
        Stmt::Yield(_, e) => one_part(alloc, e),
        _ => Ok(Vec::new(alloc)),
    }
}

/// Whether a name stands in an expression of these statements.
fn statements_mention(alloc: Global, name: &[u8], items: &[Item<'_>]) -> Result<bool, AllocError>
    ensures { IfOk result (λ b. b ≡ spec.statements_mention name.now (map see items.now)) }
{
    for item in items {
        let list = expressions(alloc, item.statement())?;
        if any_mentions(alloc, name, list.as_slice())? {
            return Ok(true);
        }
    }
    Ok(false)
}

/// Whether a block of a mapping macro ends in one `yield` on each path, and nothing stands in it that may not.
fn is_well_formed(alloc: Global, body: &Block) -> Result<bool, AllocError>
    ensures { IfOk result (λ b. b ≡ spec.is_well_formed body.now) }
{
    let items = items_of_body(alloc, body)?;
    let ends = body_ends(alloc, body)?;
    Ok(ends && !any_forbidden(items.as_slice()))
}

/// Whether `$value` stands in an expression of a body.
fn mentions_value(alloc: Global, body: &Block) -> Result<bool, AllocError>
    ensures { IfOk result (λ b. b ≡ spec.statements_mention (codes "$value") (with_inside body.now)) }
{
    let items = items_of_body(alloc, body)?;
    statements_mention(alloc, b"$value", items.as_slice())
}

/// Whether the blocks of a mapping macro are as they must be.
fn keeps_yield_rule(alloc: Global, m: &MappingMacro) -> Result<bool, AllocError>
    ensures { IfOk result (λ b. b ≡ spec.keeps_yield_rule m.now) }
{
    let read = is_well_formed(alloc, &m.read)?;
    let write = is_well_formed(alloc, &m.write)?;
    let value = mentions_value(alloc, &m.read)?;
    Ok(read && write && !value)
}

/// A mapping macro that isn't as it must be.
pub fn yield_rule(alloc: Global, m: &MappingMacro) -> Result<Option<Finding>, AllocError>
    ensures { IfOk result (λ f. f ≡ least (λ f. f.place) (spec.yield_rule m.now)) }
{
    if keeps_yield_rule(alloc, m)? {
        return Ok(None);
    }
    let none = Text::new(alloc);
    let found = make_finding(alloc, Rule::YieldRule, m.name.place, &m.name.name, &none)?;
    Ok(Some(found))
}
