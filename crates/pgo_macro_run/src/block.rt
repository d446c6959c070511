// The statements of a block, run one after another.
ghost use Rattle.std.specs.Prelude.{◌≡◌, List, OnOk, Option, None};
ghost use Rattle.pgo_base.specs.declared.bindings.NamedValue.{NamedValue};
ghost use Rattle.pgo_base.specs.declared.value.Value.{Value};
ghost use Rattle.pgo_syntax.specs.Statement.{labeled};
ghost use Rattle.pgo_syntax.specs.StatementView.{statement};
ghost use Rattle.pgo_resource.specs.Picked.{attempt_words, words_of, choices_of};
ghost use Rattle.pgo_resource.specs.declared.picks.Picks.{Picks};
ghost use Rattle.pgo_macro_run.specs.AroundView.{given_of, env_of, now_of, EndedSo, BlockSo};
ghost use Rattle.pgo_macro_run.specs.Given.{Answer};
ghost use Rattle.pgo_macro_run.specs.NextView.{rest_of};
ghost use Rattle.pgo_macro_run.specs.Runs as runs;

use crate::around::Around;
use crate::next::Next;
use crate::step::step;
use pgo_base::bindings::NamedValue;
use pgo_base::value::Value;
use pgo_resource::picks::Picks;
use pgo_resource::resource::OpStop;
use pgo_syntax::statement::{Block, Stmt};
use std::alloc::Global;

/// Runs a statement: the value that ends the block, or none where the block goes on.
#[cycle(block)]
fn run_statement(
    alloc: Global,
    around: &Around<'_>,
    names: &mut Vec<NamedValue>,
    content: &mut Option<Value>,
    picks: &mut Picks,
    s: &Stmt,
) -> Result<Option<Value>, OpStop>
    ensures words { words_of picks.new ≡ words_of picks.old }
    ensures first { attempt_words picks.new ≡ attempt_words picks.old }
    ensures names { OnOk result (names.new.items ≡ names.old.items) }
    ensures ended { EndedSo (runs.run (given_of around.now (words_of picks.old)) (statement s.now) (env_of names.old.items) (now_of content.old picks.old)) content.new picks.new result }
{
    let before = names.len();
    let next = step(alloc, around, names, content, picks, s)?;
    let ended = follow(alloc, around, names, content, picks, next)?;
    names.truncate(before);
    Ok(ended)
}

/// Runs what comes next in a statement.
#[cycle(block)]
fn follow(
    alloc: Global,
    around: &Around<'_>,
    names: &mut Vec<NamedValue>,
    content: &mut Option<Value>,
    picks: &mut Picks,
    next: Next<'_>,
) -> Result<Option<Value>, OpStop>
    ensures words { words_of picks.new ≡ words_of picks.old }
    ensures first { attempt_words picks.new ≡ attempt_words picks.old }
    ensures names { OnOk result (names.new.items ≡ names.old.items) }
    ensures ended { EndedSo (rest_of (given_of around.now (words_of picks.old)) next.entry (env_of names.old.items) (now_of content.old picks.old)) content.new picks.new result }
{
    match next {
        Next::Goes => Ok(None),
        Next::Yields(v) => Ok(Some(v)),
        Next::Inside(s) => run_statement(alloc, around, names, content, picks, s),
        Next::Looped(s) => jumped(run_statement(alloc, around, names, content, picks, s)),
        Next::Rows(b) => run_rows(alloc, around, names, content, picks, b),
    }
}

/// Runs the statements of a block. A label ends it without a value.
#[cycle(block)]
pub fn run_rows(
    alloc: Global,
    around: &Around<'_>,
    names: &mut Vec<NamedValue>,
    content: &mut Option<Value>,
    picks: &mut Picks,
    b: &Block,
) -> Result<Option<Value>, OpStop>
    ensures words { words_of picks.new ≡ words_of picks.old }
    ensures first { attempt_words picks.new ≡ attempt_words picks.old }
    ensures names { OnOk result (names.new.items ≡ names.old.items) }
    ensures ended { EndedSo (runs.rows (given_of around.now (words_of picks.old)) (labeled b.now) (env_of names.old.items) (now_of content.old picks.old)) content.new picks.new result }
{
    for row in b.as_slice() {
        if row.label.is_some() {
            return Err(OpStop::NoValue);
        }
        let ended = run_statement(alloc, around, names, content, picks, &row.statement)?;
        if ended.is_some() {
            return Ok(ended);
        }
    }
    Ok(None)
}

/// A jump behind a statement, which no block has.
fn jumped(r: Result<Option<Value>, OpStop>) -> Result<Option<Value>, OpStop>
    ensures ended { (x : Answer) (c : Option Value) (q : Picks) → EndedSo x c q r → EndedSo (runs.jumps x) c q result }
    ensures names { (xs ys : List NamedValue) → OnOk r (xs ≡ ys) → OnOk result (xs ≡ ys) }
{
    match r {
        Ok(None) => Err(OpStop::NoValue),
        Ok(Some(v)) => Ok(Some(v)),
        Err(e) => Err(e),
    }
}

/// Runs a block, with these names, from its first statement on: the value that it yields, and the content where it assigned it.
pub fn run_block(
    alloc: Global,
    around: &Around<'_>,
    mut names: Vec<NamedValue>,
    picks: &mut Picks,
    b: &Block,
) -> Result<(Value, Option<Value>), OpStop>
    ensures words { words_of picks.new ≡ words_of picks.old }
    ensures first { attempt_words picks.new ≡ attempt_words picks.old }
    ensures ended { BlockSo (runs.rows (given_of around.now (words_of picks.old)) (labeled b.now) (env_of names.items) (record { content = None; choices = choices_of picks.old })) picks.new result }
{
    let mut content = None;
    let ended = run_rows(alloc, around, &mut names, &mut content, picks, b)?;
    match ended {
        Some(v) => Ok((v, content)),
        None => Err(OpStop::NoValue),
    }
}
