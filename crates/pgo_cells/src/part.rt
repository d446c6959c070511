// Reads and writes of a content, or of its part at an index.
ghost use Rattle.std.specs.Prelude.{Some, None, option_map};
ghost use Rattle.pgo_base.specs.View.{data_of};
ghost use Rattle.pgo_model.specs.Operators as operators;
ghost use Rattle.pgo_cells.specs.Parts.{PartRead, PartWritten, put_of, new_of};
ghost use Rattle.pgo_macro_run.specs.Answers.{GivesSo};

use pgo_base::value::Value;
use pgo_macro_run::run::{run_read, run_write};
use pgo_resource::picks::Picks;
use pgo_resource::resource::{MacroEnv, OpStop};
use pgo_sets::errors::EvalStop;
use pgo_sets::functions::except;
use pgo_sets::lookup::at;
use pgo_syntax::bound::Mapping;
use std::alloc::Global;

/// Reads the content, or its part at an index.
pub fn read_part(
    alloc: Global,
    m: &Mapping,
    env: MacroEnv<'_>,
    index: Option<&Value>,
    content: &Value,
    picks: &mut Picks,
) -> Result<(Value, Option<Value>), OpStop>
    ensures { PartRead m.now env.entry.defs.now (data_of env.entry.id.now) (option_map (λ v. data_of v.now) index.entry) (data_of content.now) picks.old picks.new result }
{
    match index {
        None => run_read(alloc, m, env, content, picks),
        Some(i) => read_at(alloc, m, env, i, content, picks),
    }
}

/// Reads the part at an index.
fn read_at(
    alloc: Global,
    m: &Mapping,
    env: MacroEnv<'_>,
    i: &Value,
    content: &Value,
    picks: &mut Picks,
) -> Result<(Value, Option<Value>), OpStop>
    ensures { PartRead m.now env.entry.defs.now (data_of env.entry.id.now) (Some (data_of i.now)) (data_of content.now) picks.old picks.new result }
{
    let Some(old) = at(content, i) else {
        return Err(OpStop::NoValue);
    };
    let (value, part) = run_read(alloc, m, env, old, picks)?;
    let new = put_back(alloc, content, i, part)?;
    Ok((value, new))
}

/// Writes x to the content, or to its part at an index.
pub fn write_part(
    alloc: Global,
    m: &Mapping,
    env: MacroEnv<'_>,
    index: Option<&Value>,
    content: &Value,
    x: Value,
    picks: &mut Picks,
) -> Result<Value, OpStop>
    ensures { PartWritten m.now env.entry.defs.now (data_of env.entry.id.now) (option_map (λ v. data_of v.now) index.entry) (data_of x) (data_of content.now) picks.old picks.new result }
{
    match index {
        None => run_write(alloc, m, env, content, x, picks),
        Some(i) => write_at(alloc, m, env, i, content, x, picks),
    }
}

/// Writes x to the part at an index.
fn write_at(
    alloc: Global,
    m: &Mapping,
    env: MacroEnv<'_>,
    i: &Value,
    content: &Value,
    x: Value,
    picks: &mut Picks,
) -> Result<Value, OpStop>
    ensures { PartWritten m.now env.entry.defs.now (data_of env.entry.id.now) (Some (data_of i.now)) (data_of x) (data_of content.now) picks.old picks.new result }
{
    let Some(old) = at(content, i) else {
        return Err(OpStop::NoValue);
    };
    let part = run_write(alloc, m, env, old, x, picks)?;
    put(alloc, content, i, &part)
}

/// The content with another part at an index, where there is another.
fn put_back(
    alloc: Global,
    content: &Value,
    i: &Value,
    part: Option<Value>,
) -> Result<Option<Value>, OpStop>
    ensures { GivesSo (new_of (data_of content.now)) (put_of (data_of content.now) (data_of i.now) (option_map data_of part)) result }
{
    match part {
        None => Ok(None),
        Some(part) => Ok(Some(put(alloc, content, i, &part)?)),
    }
}

/// The content with another part at an index.
fn put(alloc: Global, content: &Value, i: &Value, part: &Value) -> Result<Value, OpStop>
    ensures { GivesSo data_of (operators.except (data_of content.now) (data_of i.now) (data_of part.now)) result }
{
    match except(alloc, content, i, part) {
        Ok(v) => Ok(v),
        Err(EvalStop::NoValue) => Err(OpStop::NoValue),
        Err(EvalStop::NoMemory) => Err(OpStop::NoMemory),
    }
}
