// Reads and writes by a mapping.
ghost use Rattle.std.specs.Prelude.{◌≡◌, List, [], ◌∷◌, map, Option, None, Some, option_map, IfOk};
ghost use Rattle.pgo_base.specs.Data.{Data};
ghost use Rattle.pgo_base.specs.declared.value.Value.{Value};
ghost use Rattle.pgo_resource.specs.declared.picks.Picks.{Picks};
ghost use Rattle.pgo_sections.specs.Exec.{MacroEnd};
ghost use Rattle.pgo_sections.specs.SectionRun.{ChoiceMade};
ghost use Rattle.pgo_base.specs.View.{data_of};
ghost use Rattle.pgo_model.specs.ModuleView.{defined_view};
ghost use Rattle.pgo_model.specs.Val.{meanings};
ghost use Rattle.pgo_sections.specs.Macros.{block_read, block_write};
ghost use Rattle.pgo_meaning.specs.Parameters.{block_code};
ghost use Rattle.pgo_resource.specs.Picked.{words_of};
ghost use Rattle.pgo_sections.specs.BoundValues.{bindable};
ghost use Rattle.pgo_sections.specs.Code.{value_name};
ghost use Rattle.pgo_macro_run.specs.Answers.{ReadsSo, WritesSo, EndsSo, GivesSo, read_view};
ghost use Rattle.pgo_macro_run.specs.AroundView.{env_of};

use crate::around::Around;
use crate::block::run_block;
use crate::values::{checked, push};
use pgo_base::bindings::NamedValue;
use pgo_base::text::Text;
use pgo_base::value::Value;
use pgo_resource::picks::Picks;
use pgo_resource::resource::{MacroEnv, OpStop};
use pgo_syntax::bound::Mapping;
use pgo_syntax::statement::Block;
use std::alloc::{AllocError, Global};

/// Reads the content `old`: the value, and the new content where the block assigned it.
///
/// Errors: `Blocked`, `NoValue` and `AssertFails` exactly where the block stops so; `NoMemory` at any time. All choices that were
/// made are added to `picks`, after an error too.
///
/// Source: the Modular PlusCal paper.
pub fn run_read(
    alloc: Global,
    m: &Mapping,
    env: MacroEnv<'_>,
    old: &Value,
    picks: &mut Picks,
) -> Result<(Value, Option<Value>), OpStop>
    ensures { ReadsSo m.now env.entry.defs.now (data_of env.entry.id.now) (data_of old.now) picks.old picks.new result }
{
    match m {
        Mapping::Identity => read_itself(alloc, old),
        Mapping::Macro(m) => read_block(alloc, &m.read, env, old, picks),
    }
}

/// Writes v to the content `old`: the new content. Errors are as those of a read.
///
/// Source: the Modular PlusCal paper.
pub fn run_write(
    alloc: Global,
    m: &Mapping,
    env: MacroEnv<'_>,
    old: &Value,
    v: Value,
    picks: &mut Picks,
) -> Result<Value, OpStop>
    ensures { WritesSo m.now env.entry.defs.now (data_of env.entry.id.now) (data_of old.now) (data_of v) picks.old picks.new result }
{
    match m {
        Mapping::Identity => checked(v),
        Mapping::Macro(m) => write_block(alloc, &m.write, env, old, v, picks),
    }
}

/// The content itself.
fn read_itself(alloc: Global, old: &Value) -> Result<(Value, Option<Value>), OpStop>
    ensures { GivesSo read_view (option_map (λ v. (v, None)) (bindable (Some (data_of old.now)))) result }
{
    let v = checked(old.copy(alloc)?)?;
    Ok((v, None))
}

/// Reads by a `read` block.
fn read_block(
    alloc: Global,
    b: &Block,
    env: MacroEnv<'_>,
    old: &Value,
    picks: &mut Picks,
) -> Result<(Value, Option<Value>), OpStop>
    ensures { EndsSo read_view (λ cs. block_read (block_code b.now) (meanings (map defined_view env.entry.defs.now) [] None) (data_of env.entry.id.now) (data_of old.now) (words_of picks.old) cs) picks.old picks.new result }
{
    let around = Around::new(alloc, env, old)?;
    let names = Vec::new(alloc);
    run_block(alloc, &around, names, picks, b)
}

/// Writes by a `write` block.
fn write_block(
    alloc: Global,
    b: &Block,
    env: MacroEnv<'_>,
    old: &Value,
    v: Value,
    picks: &mut Picks,
) -> Result<Value, OpStop>
    ensures { EndsSo data_of (λ cs. block_write (block_code b.now) (meanings (map defined_view env.entry.defs.now) [] None) (data_of env.entry.id.now) (data_of old.now) (data_of v) (words_of picks.old) cs) picks.old picks.new result }
{
    let names = value_alone(alloc, v)?;
    let around = Around::new(alloc, env, old)?;
    new_content(run_block(alloc, &around, names, picks, b))
}

/// What a `write` block yields.
fn new_content(r: Result<(Value, Option<Value>), OpStop>) -> Result<Value, OpStop>
    ensures { (f : List ChoiceMade → MacroEnd Data) (p q : Picks) → EndsSo (λ (z : Value × Option Value). data_of z.0) f p q r → EndsSo data_of f p q result }
{
    match r {
        Ok(pair) => Ok(pair.0),
        Err(e) => Err(e),
    }
}

/// The value that is written, under its name.
fn value_alone(alloc: Global, v: Value) -> Result<Vec<NamedValue>, AllocError>
    ensures { IfOk result (λ ns. env_of ns.items ≡ (value_name, Some (data_of v)) ∷ []) }
{
    let name = Text::from_slice(alloc, b"$value")?;
    let mut names = Vec::new(alloc);
    push(alloc, &mut names, &name, v)?;
    Ok(names)
}
