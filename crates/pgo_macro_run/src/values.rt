// Values of expressions that a block's statements need.
ghost use Rattle.std.specs.Prelude.{◌≡◌, ◌<◌, ◌++◌, [], ◌∷◌, option_map, option_and_then, Some, IfOk, IfErr, OnOk, length, Option};
ghost use Rattle.pgo_base.specs.ExprView.{tree};
ghost use Rattle.pgo_base.specs.View.{data_of};
ghost use Rattle.pgo_base.specs.declared.value.Value.{Value};
ghost use Rattle.pgo_model.specs.Choice.{pick};
ghost use Rattle.pgo_model.specs.Operators.{truth_of, members_of};
ghost use Rattle.pgo_sections.specs.BoundValues.{bindable};
ghost use Rattle.pgo_sections.specs.SectionRun.{choice_among};
ghost use Rattle.pgo_resource.specs.Picked.{attempt_words, words_of, choices_of};
ghost use Rattle.pgo_resource.specs.declared.resource.OpStop.TheVariants as stops;
ghost use Rattle.pgo_macro_run.specs.Answers.{GivesSo};
ghost use Rattle.pgo_macro_run.specs.AroundView.{given_of, value_in, env_of, now_of, ValueSo, BoundSo, Begins};
ghost use Rattle.pgo_macro_run.specs.Given as given;
ghost use Rattle.pgo_macro_run.specs.Given.{needs};

use crate::around::Around;
use pgo_base::bindings::NamedValue;
use pgo_base::depth::is_deeper;
use pgo_base::expr::Expr;
use pgo_base::text::Text;
use pgo_base::value::Value;
use pgo_resource::picks::Picks;
use pgo_resource::resource::OpStop;
use pgo_sets::lookup::as_set;
use pgo_syntax::binding::{Origin, WithName};
use std::alloc::{AllocError, Global};

/// The greatest depth of a value that can stand in a set.
const MOST_DEPTH: usize = 2047;

/// The value of an expression that is bound, so that it has to be able to stand in a set.
pub fn bound(
    alloc: Global,
    around: &Around<'_>,
    names: &[NamedValue],
    content: &Option<Value>,
    e: &Expr,
) -> Result<Value, OpStop>
    ensures { GivesSo data_of (bindable (value_in around.now (tree e.now) (env_of names.now) (option_map data_of content.now))) result }
{
    let v = around.value(alloc, names, content, e)?;
    checked(v)
}

/// A value, where it can stand in a set.
pub fn checked(v: Value) -> Result<Value, OpStop>
    ensures { GivesSo data_of (bindable (Some (data_of v))) result }
{
    if is_deeper(&v, MOST_DEPTH) {
        return Err(OpStop::NoValue);
    }
    Ok(v)
}

/// The truth value of a condition.
pub fn truth(
    alloc: Global,
    around: &Around<'_>,
    names: &[NamedValue],
    content: &Option<Value>,
    e: &Expr,
) -> Result<bool, OpStop>
    ensures { GivesSo (λ b. b) (truth_of (value_in around.now (tree e.now) (env_of names.now) (option_map data_of content.now))) result }
{
    let v = around.value(alloc, names, content, e)?;
    is_true(&v)
}

/// The truth value that a value is.
fn is_true(v: &Value) -> Result<bool, OpStop>
    ensures { GivesSo (λ b. b) (truth_of (Some (data_of v.now))) result }
{
    match v {
        Value::Bool(b) => Ok(*b),
        _ => Err(OpStop::NoValue),
    }
}

/// The number below n that the next word picks.
pub fn next_pick(picks: &mut Picks, n: usize) -> Result<usize, OpStop>
    requires { 0 < n }
    ensures words { words_of picks.new ≡ words_of picks.old }
    ensures first { attempt_words picks.new ≡ attempt_words picks.old }
    ensures number { IfOk result (λ i. i ≡ pick (words_of picks.old (length (choices_of picks.old))) n) }
    ensures made { IfOk result (λ i. choices_of picks.new ≡ record { count = n; taken = i } ∷ choices_of picks.old) }
    ensures err { IfErr result (λ x. x ≡ stops.NoMemory) }
{
    let i = picks.next_below(n)?;
    Ok(i)
}

/// The choice of an `either` without arms, which counts as one among one.
pub fn only_pick(picks: &mut Picks) -> Result<(), OpStop>
    ensures words { words_of picks.new ≡ words_of picks.old }
    ensures first { attempt_words picks.new ≡ attempt_words picks.old }
    ensures made { OnOk result (choices_of picks.new ≡ choice_among 0 0 ∷ choices_of picks.old) }
    ensures err { IfErr result (λ x. x ≡ stops.NoMemory) }
{
    let _only = next_pick(picks, 1)?;
    Ok(())
}

/// The member of a set that the next word picks.
fn choose(alloc: Global, v: &Value, picks: &mut Picks) -> Result<Value, OpStop>
    ensures words { words_of picks.new ≡ words_of picks.old }
    ensures first { attempt_words picks.new ≡ attempt_words picks.old }
    ensures value { (c : Option Value) → ValueSo (needs (members_of (data_of v.now)) (choices_of picks.old) (λ ms. given.choose (words_of picks.old) ms (now_of c picks.old))) c picks.new result }
{
    let Some(set) = as_set(v) else {
        return Err(OpStop::NoValue);
    };
    let members = set.members();
    if members.is_empty() {
        return Err(OpStop::Blocked);
    }
    let i = next_pick(picks, members.len())?;
    Ok(members[i].copy(alloc)?)
}

/// A member of an expression's value, which the next word picks.
fn member(
    alloc: Global,
    around: &Around<'_>,
    names: &[NamedValue],
    content: &Option<Value>,
    e: &Expr,
    picks: &mut Picks,
) -> Result<Value, OpStop>
    ensures words { words_of picks.new ≡ words_of picks.old }
    ensures first { attempt_words picks.new ≡ attempt_words picks.old }
    ensures value { ValueSo (needs (option_and_then members_of (value_in around.now (tree e.now) (env_of names.now) (option_map data_of content.now))) (choices_of picks.old) (λ ms. given.choose (words_of picks.old) ms (now_of content.now picks.old))) content.now picks.new result }
{
    let v = around.value(alloc, names, content, e)?;
    choose(alloc, &v, picks)
}

/// What a `with` name stands for.
fn origin(
    alloc: Global,
    around: &Around<'_>,
    names: &[NamedValue],
    content: &Option<Value>,
    o: &Origin,
    picks: &mut Picks,
) -> Result<Value, OpStop>
    ensures words { words_of picks.new ≡ words_of picks.old }
    ensures first { attempt_words picks.new ≡ attempt_words picks.old }
    ensures value { ValueSo (given.origin (given_of around.now (words_of picks.old)) o.now (env_of names.now) (now_of content.now picks.old)) content.now picks.new result }
{
    match o {
        Origin::Equals(e) => bound(alloc, around, names, content, e.get()),
        Origin::In(e) => member(alloc, around, names, content, e.get(), picks),
    }
}

/// One name more.
pub fn push(
    alloc: Global,
    names: &mut Vec<NamedValue>,
    name: &Text,
    v: Value,
) -> Result<(), AllocError>
    ensures begins { OnOk result (Begins names.old.items names.new.items) }
    ensures env { OnOk result (env_of names.new.items ≡ (name.now, Some (data_of v)) ∷ env_of names.old.items) }
{
    let name = name.copy(alloc)?;
    names.push(NamedValue {
        name,
        value: Some(v),
    })?;
    Ok(())
}

/// Binds the names of a `with`.
pub fn bind_all(
    alloc: Global,
    around: &Around<'_>,
    names: &mut Vec<NamedValue>,
    content: &Option<Value>,
    list: &[WithName],
    picks: &mut Picks,
) -> Result<(), OpStop>
    ensures words { words_of picks.new ≡ words_of picks.old }
    ensures first { attempt_words picks.new ≡ attempt_words picks.old }
    ensures begins { OnOk result (Begins names.old.items names.new.items) }
    ensures bound { BoundSo (given.bind_all (given_of around.now (words_of picks.old)) list.now (env_of names.old.items) (now_of content.now picks.old)) (env_of names.new.items) content.now picks.new result }
{
    for w in list {
        let v = origin(alloc, around, names.as_slice(), content, &w.origin, picks)?;
        push(alloc, names, &w.name.name, v)?;
    }
    Ok(())
}
