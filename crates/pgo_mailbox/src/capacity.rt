// The value of a channel's capacity.
ghost use Rattle.std.specs.Prelude.{◌≡◌, ◌∷◌, [], map, Some, None};
ghost use Rattle.pgo_base.specs.View.{data_of};
ghost use Rattle.pgo_model.specs.ModuleView.{defined_view};
ghost use Rattle.pgo_model.specs.Val.{Val};
ghost use Rattle.pgo_model.specs.Written.{self_name};
ghost use Rattle.pgo_mailbox.specs.Capacities.{Capacity};

use pgo_base::bindings::Bindings;
use pgo_base::expr::Sub;
use pgo_base::scope::{Around, Env, State};
use pgo_base::text::Text;
use pgo_base::value::Value;
use pgo_eval::eval::eval;
use pgo_resource::resource::{MacroEnv, OpStop};
use pgo_sets::errors::EvalStop;
use std::alloc::Global;

/// The value of a capacity where it is an integer; none where it is none, or another value. A name of a block that isn't its content
/// or its value stands for the instance's identifier or for a definition.
///
/// Err only where there is no memory.
pub fn capacity(alloc: Global, env: MacroEnv<'_>, limit: &Sub) -> Result<Option<i64>, OpStop>
    ensures { Capacity (Val (map defined_view env.entry.defs.now) limit.now ((self_name, Some (data_of env.entry.id.now)) ∷ []) [] None) result }
{
    let itself = Text::from_slice(alloc, b"self")?;
    let state = State::from_vec(Vec::new(alloc));
    let outer = Bindings::new();
    let names = Bindings::with(&itself, Some(env.id), &outer);
    let scope = Env {
        names: &names,
        around: Around::one(&state),
    };
    match eval(alloc, env.defs, limit.get(), &scope) {
        Ok(Value::Int(n)) => Ok(Some(n)),
        Err(EvalStop::NoMemory) => Err(OpStop::NoMemory),
        _ => Ok(None),
    }
}
