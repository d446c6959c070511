// What a statement does before what comes next in it.
ghost use Rattle.std.specs.Prelude.{◌≡◌, map, option_map, OnOk, suc, max, Option};
ghost use Rattle.pgo_base.specs.ExprView.{tree};
ghost use Rattle.pgo_base.specs.Lookup.{Names};
ghost use Rattle.pgo_base.specs.View.{data_of};
ghost use Rattle.pgo_base.specs.declared.value.Value.{Value};
ghost use Rattle.pgo_model.specs.Operators.{truth_of};
ghost use Rattle.pgo_model.specs.Outcome as outcome;
ghost use Rattle.pgo_sections.specs.BoundValues.{bindable};
ghost use Rattle.pgo_syntax.specs.Statement.{guarded, statements};
ghost use Rattle.pgo_syntax.specs.StatementSize.{height, guarded_height, statements_height};
ghost use Rattle.pgo_syntax.specs.StatementView.{statement, branch_parts};
ghost use Rattle.pgo_resource.specs.Picked.{attempt_words, words_of};
ghost use Rattle.pgo_resource.specs.declared.picks.Picks.{Picks};
ghost use Rattle.pgo_macro_run.specs.Answers.{GivesSo};
ghost use Rattle.pgo_macro_run.specs.AroundView.{given_of, value_in, env_of, now_of, Begins};
ghost use Rattle.pgo_macro_run.specs.Assigned.{assigned};
ghost use Rattle.pgo_macro_run.specs.Chosen.{chosen};
ghost use Rattle.pgo_macro_run.specs.Given.{Goes, Yields, Fails, needs, decide, next_pick, drawn, setting, then_in, bind_all};
ghost use Rattle.pgo_macro_run.specs.NextView.{NextSo};
ghost use Rattle.pgo_macro_run.specs.Runs as runs;
ghost use Rattle.pgo_macro_run.specs.declared.around.Around.{Around};

use crate::around::Around;
use crate::assign::assign;
use crate::next::Next;
use crate::values::{bind_all, bound, next_pick, only_pick, truth};
use pgo_base::bindings::NamedValue;
use pgo_base::expr::{Expr, Sub};
use pgo_base::value::Value;
use pgo_resource::picks::Picks;
use pgo_resource::resource::OpStop;
use pgo_syntax::assignment::Assignment;
use pgo_syntax::binding::WithName;
use pgo_syntax::statement::{Branch, Stmt};
use std::alloc::Global;

/// The statement of the first branch whose condition holds.
fn taken<'s>(
    alloc: Global,
    around: &Around<'_>,
    names: &[NamedValue],
    content: &Option<Value>,
    branches: &'s [Branch],
) -> Result<Option<&'s Stmt>, OpStop>
    ensures { GivesSo (λ o. option_map (λ t. statement t.now) o) (chosen (λ e. value_in around.now e (env_of names.now) (option_map data_of content.now)) (guarded (map branch_parts branches.now))) result }
{
    for b in branches {
        if truth(alloc, around, names, content, b.condition.get())? {
            return Ok(Some(&b.statement));
        }
    }
    Ok(None)
}

/// An `if` without an `else`.
fn if_then<'s>(
    alloc: Global,
    around: &Around<'_>,
    names: &[NamedValue],
    content: &Option<Value>,
    branches: &'s [Branch],
) -> Result<Next<'s>, OpStop>
    ensures { (p : Picks) → let n = now_of content.now p in let bs = guarded (map branch_parts branches.now) in let g = given_of around.now (words_of p) in NextSo (suc (guarded_height bs)) g (runs.branches g bs (Goes n) (env_of names.now) n) (env_of names.now) n p result }
{
    let found = taken(alloc, around, names, content, branches)?;
    match found {
        Some(t) => Ok(Next::Inside(t)),
        None => Ok(Next::Goes),
    }
}

/// An `if` with an `else`.
fn if_else<'s>(
    alloc: Global,
    around: &Around<'_>,
    names: &[NamedValue],
    content: &Option<Value>,
    branches: &'s [Branch],
    other: &'s Stmt,
) -> Result<Next<'s>, OpStop>
    ensures { (p : Picks) → let n = now_of content.now p in let bs = guarded (map branch_parts branches.now) in let g = given_of around.now (words_of p) in NextSo (suc (max (guarded_height bs) (height (statement other.now)))) g (runs.branches g bs (runs.run g (statement other.now) (env_of names.now) n) (env_of names.now) n) (env_of names.now) n p result }
{
    let found = taken(alloc, around, names, content, branches)?;
    match found {
        Some(t) => Ok(Next::Inside(t)),
        None => Ok(Next::Inside(other)),
    }
}

/// A `while`: a jump follows its statement.
fn while_do<'s>(
    alloc: Global,
    around: &Around<'_>,
    names: &[NamedValue],
    content: &Option<Value>,
    e: &Sub,
    t: &'s Stmt,
) -> Result<Next<'s>, OpStop>
    ensures { (p : Picks) → let n = now_of content.now p in let g = given_of around.now (words_of p) in NextSo (suc (height (statement t.now))) g (decide (truth_of (value_in around.now e.now (env_of names.now) n.content)) n.choices (runs.jumps (runs.run g (statement t.now) (env_of names.now) n)) (Goes n)) (env_of names.now) n p result }
{
    if truth(alloc, around, names, content, e.get())? {
        return Ok(Next::Looped(t));
    }
    Ok(Next::Goes)
}

/// An `await`.
fn await_that<'s>(
    alloc: Global,
    around: &Around<'_>,
    names: &[NamedValue],
    content: &Option<Value>,
    e: &Expr,
) -> Result<Next<'s>, OpStop>
    ensures { (p : Picks) → let n = now_of content.now p in NextSo 1 (given_of around.now (words_of p)) (decide (truth_of (value_in around.now (tree e.now) (env_of names.now) n.content)) n.choices (Goes n) (Fails outcome.Blocked n.choices)) (env_of names.now) n p result }
{
    if truth(alloc, around, names, content, e)? {
        return Ok(Next::Goes);
    }
    Err(OpStop::Blocked)
}

/// An `assert`.
fn assert_that<'s>(
    alloc: Global,
    around: &Around<'_>,
    names: &[NamedValue],
    content: &Option<Value>,
    e: &Expr,
) -> Result<Next<'s>, OpStop>
    ensures { (p : Picks) → let n = now_of content.now p in NextSo 1 (given_of around.now (words_of p)) (decide (truth_of (value_in around.now (tree e.now) (env_of names.now) n.content)) n.choices (Goes n) (Fails outcome.AssertFails n.choices)) (env_of names.now) n p result }
{
    if truth(alloc, around, names, content, e)? {
        return Ok(Next::Goes);
    }
    Err(OpStop::AssertFails)
}

/// A `print`: a block prints nothing, but its expression has to have a value.
fn print_out<'s>(
    alloc: Global,
    around: &Around<'_>,
    names: &[NamedValue],
    content: &Option<Value>,
    e: &Expr,
) -> Result<Next<'s>, OpStop>
    ensures { (p : Picks) → let n = now_of content.now p in NextSo 1 (given_of around.now (words_of p)) (needs (value_in around.now (tree e.now) (env_of names.now) n.content) n.choices (λ v. Goes n)) (env_of names.now) n p result }
{
    let _value = around.value(alloc, names, content, e)?;
    Ok(Next::Goes)
}

/// A `yield`.
fn yield_as<'s>(
    alloc: Global,
    around: &Around<'_>,
    names: &[NamedValue],
    content: &Option<Value>,
    e: &Expr,
) -> Result<Next<'s>, OpStop>
    ensures { (p : Picks) → let n = now_of content.now p in NextSo 1 (given_of around.now (words_of p)) (needs (bindable (value_in around.now (tree e.now) (env_of names.now) n.content)) n.choices (λ v. Yields v n)) (env_of names.now) n p result }
{
    Ok(Next::Yields(bound(alloc, around, names, content, e)?))
}

/// An `either`: the statement that the next word picks.
fn either<'s>(arms: &'s [Stmt], picks: &mut Picks) -> Result<Next<'s>, OpStop>
    ensures words { words_of picks.new ≡ words_of picks.old }
    ensures first { attempt_words picks.new ≡ attempt_words picks.old }
    ensures next { (a : Around) (env : Names) (c : Option Value) → let g = given_of a (words_of picks.old) in let ts = statements (map statement arms.now) in NextSo (suc (statements_height ts)) g (let many = runs.count ts in let n = now_of c picks.old in let i = next_pick (words_of picks.old) n many in runs.arm g ts i env (drawn many i n)) env (now_of c picks.new) picks.new result }
{
    if arms.is_empty() {
        only_pick(picks)?;
        return Err(OpStop::NoValue);
    }
    let i = next_pick(picks, arms.len())?;
    Ok(Next::Inside(&arms[i]))
}

/// Assignments.
fn assign_all<'s>(
    alloc: Global,
    around: &Around<'_>,
    names: &mut Vec<NamedValue>,
    content: &mut Option<Value>,
    list: &[Assignment],
) -> Result<Next<'s>, OpStop>
    ensures begins { OnOk result (Begins names.old.items names.new.items) }
    ensures next { (p : Picks) → let g = given_of around.now (words_of p) in NextSo 1 g (setting (assigned (value_in around.now) list.now (env_of names.old.items) (option_map data_of content.old)) (now_of content.old p)) (env_of names.new.items) (now_of content.new p) p result }
{
    assign(alloc, around, names, content, list)?;
    Ok(Next::Goes)
}

/// A `with`: its statement with its names bound.
fn with_in<'s>(
    alloc: Global,
    around: &Around<'_>,
    names: &mut Vec<NamedValue>,
    content: &Option<Value>,
    picks: &mut Picks,
    list: &[WithName],
    t: &'s Stmt,
) -> Result<Next<'s>, OpStop>
    ensures words { words_of picks.new ≡ words_of picks.old }
    ensures first { attempt_words picks.new ≡ attempt_words picks.old }
    ensures begins { OnOk result (Begins names.old.items names.new.items) }
    ensures next { let g = given_of around.now (words_of picks.old) in NextSo (suc (height (statement t.now))) g (then_in (bind_all g list.now (env_of names.old.items) (now_of content.now picks.old)) (λ env m. runs.run g (statement t.now) env m)) (env_of names.new.items) (now_of content.now picks.new) picks.new result }
{
    bind_all(alloc, around, names, content, list, picks)?;
    Ok(Next::Inside(t))
}

/// A statement up to what comes next in it, with the names that are bound there behind the others.
pub fn step<'s>(
    alloc: Global,
    around: &Around<'_>,
    names: &mut Vec<NamedValue>,
    content: &mut Option<Value>,
    picks: &mut Picks,
    s: &'s Stmt,
) -> Result<Next<'s>, OpStop>
    ensures words { words_of picks.new ≡ words_of picks.old }
    ensures first { attempt_words picks.new ≡ attempt_words picks.old }
    ensures begins { OnOk result (Begins names.old.items names.new.items) }
    ensures next { let g = given_of around.now (words_of picks.old) in NextSo (height (statement s.now)) g (runs.run g (statement s.now) (env_of names.old.items) (now_of content.old picks.old)) (env_of names.new.items) (now_of content.new picks.new) picks.new result }
{
    match s {
        Stmt::Skip(_) => Ok(Next::Goes),
        Stmt::Call(_, _, _) => Ok(Next::Goes),
        Stmt::Goto(_, _) => Err(OpStop::NoValue),
        Stmt::Block(_, b) => Ok(Next::Rows(b)),
        Stmt::Assign(_, list) => assign_all(alloc, around, names, content, list.as_slice()),
        Stmt::With(_, list, t) => {
            with_in(
                alloc,
                around,
                names,
                content,
                picks,
                list.as_slice(),
                t.get(),
            )
        }
        Stmt::Either(_, arms) => either(arms.as_slice(), picks),
        Stmt::If(_, bs) => if_then(alloc, around, names, content, bs.as_slice()),
        Stmt::IfElse(_, bs, t) => if_else(alloc, around, names, content, bs.as_slice(), t.get()),
        Stmt::While(_, e, t) => while_do(alloc, around, names, content, e, t.get()),
        Stmt::Await(_, e) => await_that(alloc, around, names, content, e.get()),
        Stmt::Assert(_, e) => assert_that(alloc, around, names, content, e.get()),
        Stmt::Print(_, e) => print_out(alloc, around, names, content, e.get()),
        Stmt::Yield(_, e) => yield_as(alloc, around, names, content, e.get()),
    }
}
