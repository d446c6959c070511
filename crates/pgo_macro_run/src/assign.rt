// Assignments of a block.
ghost use Rattle.std.specs.Prelude.{◌≡◌, ◌++◌, [], ◌∷◌, option_map, option_and_then, Some, IfOk, OnOk};
ghost use Rattle.pgo_base.specs.ExprView.{tree};
ghost use Rattle.pgo_base.specs.View.{data_of};
ghost use Rattle.pgo_meaning.specs.Statements as meaning;
ghost use Rattle.pgo_sections.specs.BoundValues.{bindable};
ghost use Rattle.pgo_macro_run.specs.Answers.{GivesSo};
ghost use Rattle.pgo_macro_run.specs.AroundView.{value_in, env_of, Begins};
ghost use Rattle.pgo_macro_run.specs.Assigned as assigned;
ghost use Rattle.pgo_macro_run.specs.Assigned.{first_mark, next_mark};

use crate::around::Around;
use crate::values::{bound, push};
use pgo_base::bindings::NamedValue;
use pgo_base::expr::{Expr, Exprs, Sub, Update, Updates};
use pgo_base::text::Text;
use pgo_base::value::Value;
use pgo_resource::resource::OpStop;
use pgo_syntax::assignment::{Assignment, Step};
use std::alloc::{AllocError, Global};

/// The mark behind this one.
fn behind(alloc: Global, mark: &Text) -> Result<Text, AllocError>
    ensures { IfOk result (λ t. t ≡ next_mark mark.now) }
{
    let mut bytes = Vec::from_slice(alloc, mark.as_bytes())?;
    bytes.push(b'#')?;
    Ok(Text::from_bytes(bytes)?)
}

/// The value stands under the mark, and the mark is the next one.
fn keep(
    alloc: Global,
    names: &mut Vec<NamedValue>,
    mark: &mut Text,
    v: Value,
) -> Result<(), AllocError>
    ensures begins { OnOk result (Begins names.old.items names.new.items) }
    ensures env { OnOk result (env_of names.new.items ≡ (mark.old, Some (data_of v)) ∷ env_of names.old.items) }
    ensures mark { OnOk result (mark.new ≡ next_mark mark.old) }
{
    push(alloc, names, mark, v)?;
    *mark = behind(alloc, mark)?;
    Ok(())
}

/// Evaluates the indices of a path.
fn indices(
    alloc: Global,
    around: &Around<'_>,
    names: &mut Vec<NamedValue>,
    content: &Option<Value>,
    path: &[Step],
    mark: &mut Text,
) -> Result<(), OpStop>
    ensures begins { OnOk result (Begins names.old.items names.new.items) }
    ensures made { GivesSo (λ _. (mark.new, env_of names.new.items)) (assigned.indices (value_in around.now) path.now mark.old (env_of names.old.items) (option_map data_of content.now)) result }
{
    for s in path {
        if let Step::Index(e) = s {
            let v = bound(alloc, around, names.as_slice(), content, e.get())?;
            keep(alloc, names, mark, v)?;
        }
    }
    Ok(())
}

/// Evaluates the indices and the right side of an assignment.
fn operands(
    alloc: Global,
    around: &Around<'_>,
    names: &mut Vec<NamedValue>,
    content: &Option<Value>,
    a: &Assignment,
    mark: &mut Text,
) -> Result<(), OpStop>
    ensures begins { OnOk result (Begins names.old.items names.new.items) }
    ensures made { GivesSo (λ _. (mark.new, env_of names.new.items)) (assigned.operands (value_in around.now) a.now mark.old (env_of names.old.items) (option_map data_of content.now)) result }
{
    indices(alloc, around, names, content, a.left.path.as_slice(), mark)?;
    let v = bound(alloc, around, names.as_slice(), content, a.right.get())?;
    keep(alloc, names, mark, v)?;
    Ok(())
}

/// Evaluates all indices and right sides, in the order of the text.
fn all_operands(
    alloc: Global,
    around: &Around<'_>,
    names: &mut Vec<NamedValue>,
    content: &Option<Value>,
    list: &[Assignment],
    mark: &mut Text,
) -> Result<(), OpStop>
    ensures begins { OnOk result (Begins names.old.items names.new.items) }
    ensures made { GivesSo (λ _. (mark.new, env_of names.new.items)) (assigned.all_operands (value_in around.now) list.now mark.old (env_of names.old.items) (option_map data_of content.now)) result }
{
    for a in list {
        operands(alloc, around, names, content, a, mark)?;
    }
    Ok(())
}

/// A step of a path as the index that stands there, and the next mark where it is one that was evaluated.
fn part(alloc: Global, s: &Step, mark: &mut Text) -> Result<Sub, AllocError>
    ensures { IfOk result (λ e. assigned.path_trees (s.now ∷ []) mark.old ≡ (mark.new, e ∷ [])) }
{
    match s {
        Step::Index(_) => {
            let e = Sub::new(alloc, Expr::Name(mark.copy(alloc)?))?;
            *mark = behind(alloc, mark)?;
            Ok(e)
        }
        Step::Field(x) => Sub::new(alloc, Expr::Text(x.copy(alloc)?)),
    }
}

/// A path as the indices that stand there.
fn path_trees(alloc: Global, path: &[Step], mark: &mut Text) -> Result<Exprs, AllocError>
    ensures { IfOk result (λ es. assigned.path_trees path.now mark.old ≡ (mark.new, es)) }
{
    let mut trees = Exprs::new(alloc);
    for s in path {
        trees.push(part(alloc, s, mark)?)?;
    }
    Ok(trees)
}

/// What a variable becomes, where the right side stands under the mark.
fn target(alloc: Global, x: &Text, path: Exprs, mark: &Text) -> Result<Sub, AllocError>
    ensures { IfOk result (λ e. e ≡ assigned.target x.now path mark.now) }
{
    let right = Expr::Name(mark.copy(alloc)?);
    if path.as_slice().is_empty() {
        return Sub::new(alloc, right);
    }
    let whole = Sub::new(alloc, Expr::Name(x.copy(alloc)?))?;
    let mut updates = Vec::new(alloc);
    updates.push(Update { path, value: right })?;
    Sub::new(alloc, Expr::Except(whole, Updates::from_vec(updates)))
}

/// The content becomes the value of e.
fn set(
    alloc: Global,
    around: &Around<'_>,
    names: &[NamedValue],
    content: &mut Option<Value>,
    e: &Expr,
) -> Result<(), OpStop>
    ensures { GivesSo (λ _. option_map data_of content.new) (option_map (λ v. Some v) (bindable (value_in around.now (tree e.now) (env_of names.now) (option_map data_of content.old)))) result }
{
    *content = Some(bound(alloc, around, names, content, e)?);
    Ok(())
}

/// One assignment, whose operands stand under their marks.
fn set_one(
    alloc: Global,
    around: &Around<'_>,
    names: &[NamedValue],
    content: &mut Option<Value>,
    a: &Assignment,
    mark: &mut Text,
) -> Result<(), OpStop>
    ensures mark { OnOk result (mark.new ≡ next_mark (assigned.path_trees a.now.left.path mark.old).0) }
    ensures content { let q = assigned.path_trees a.now.left.path mark.old in GivesSo (λ _. option_map data_of content.new) (assigned.set_one (value_in around.now) a.now.left.name.name (assigned.target a.now.left.name.name q.1 q.0) (env_of names.now) (option_map data_of content.old)) result }
{
    let path = path_trees(alloc, a.left.path.as_slice(), mark)?;
    let e = target(alloc, &a.left.name.name, path, mark)?;
    *mark = behind(alloc, mark)?;
    if around.is_content(&a.left.name.name) {
        set(alloc, around, names, content, e.get())?;
    }
    Ok(())
}

/// All assignments, from left to right.
fn set_all(
    alloc: Global,
    around: &Around<'_>,
    names: &[NamedValue],
    content: &mut Option<Value>,
    list: &[Assignment],
) -> Result<(), OpStop>
    ensures { GivesSo (λ _. option_map data_of content.new) (assigned.set_all (value_in around.now) list.now first_mark (env_of names.now) (option_map data_of content.old)) result }
{
    let mut mark = Text::from_slice(alloc, b"#")?;
    for a in list {
        set_one(alloc, around, names, content, a, &mut mark)?;
    }
    Ok(())
}

/// The right side, where `x := e` is the one assignment.
fn alone(list: &[Assignment]) -> Option<&Sub>
    ensures { option_map (λ e. e.now) result ≡ meaning.alone list.now }
{
    if list.len() == 1 && list[0].left.path.as_slice().is_empty() {
        Some(&list[0].right)
    } else {
        None
    }
}

/// The assignments of a statement.
pub fn assign(
    alloc: Global,
    around: &Around<'_>,
    names: &mut Vec<NamedValue>,
    content: &mut Option<Value>,
    list: &[Assignment],
) -> Result<(), OpStop>
    ensures begins { OnOk result (Begins names.old.items names.new.items) }
    ensures assigned { GivesSo (λ _. option_map data_of content.new) (assigned.assigned (value_in around.now) list.now (env_of names.old.items) (option_map data_of content.old)) result }
{
    match alone(list) {
        Some(e) => set(alloc, around, names.as_slice(), content, e.get()),
        None => assign_marked(alloc, around, names, content, list),
    }
}

/// All operands, and then the assignments.
fn assign_marked(
    alloc: Global,
    around: &Around<'_>,
    names: &mut Vec<NamedValue>,
    content: &mut Option<Value>,
    list: &[Assignment],
) -> Result<(), OpStop>
    ensures begins { OnOk result (Begins names.old.items names.new.items) }
    ensures assigned { let c = option_map data_of content.old in GivesSo (λ _. option_map data_of content.new) (option_and_then (λ env. assigned.set_all (value_in around.now) list.now first_mark env c) (option_map (λ p. p.1) (assigned.all_operands (value_in around.now) list.now first_mark (env_of names.old.items) c))) result }
{
    mark_all(alloc, around, names, content, list)?;
    set_all(alloc, around, names.as_slice(), content, list)
}

/// All operands, from the first mark on.
fn mark_all(
    alloc: Global,
    around: &Around<'_>,
    names: &mut Vec<NamedValue>,
    content: &Option<Value>,
    list: &[Assignment],
) -> Result<(), OpStop>
    ensures begins { OnOk result (Begins names.old.items names.new.items) }
    ensures made { GivesSo (λ _. env_of names.new.items) (option_map (λ p. p.1) (assigned.all_operands (value_in around.now) list.now first_mark (env_of names.old.items) (option_map data_of content.now))) result }
{
    let mut mark = Text::from_slice(alloc, b"#")?;
    all_operands(alloc, around, names, content, list, &mut mark)?;
    Ok(())
}
