// What a written module says of a starting state and of a step, computed.
ghost use Rattle.std.specs.Prelude.{◌≡◌, ◌↔◌, ◌∷◌, [], IsTrue, true, map, Option, Some, IfOk};
ghost use Rattle.pgo_base.specs.Data.{Data, boolean};
ghost use Rattle.pgo_base.specs.ExprView.{tree};
ghost use Rattle.pgo_base.specs.States.{AreAlike};
ghost use Rattle.pgo_base.specs.View.{data_of};
ghost use Rattle.pgo_model.specs.Acts.{Begins, Acts};
ghost use Rattle.pgo_model.specs.ModuleView.{defined_view, module_view};
ghost use Rattle.pgo_model.specs.Val.{Val};
ghost use Rattle.pgo_sets.specs.Answers.{Answers};
ghost use Rattle.pgo_check.specs.Assigned.{AreSeenIn, SeesItsDefinitions};

use crate::definitions::Assigned;
use pgo_base::bindings::Bindings;
use pgo_base::expr::Expr;
use pgo_base::module::Defs;
use pgo_base::scope::{Around, Env, State};
use pgo_base::text::Text;
use pgo_base::value::Value;
use pgo_eval::eval::eval;
use pgo_sets::errors::EvalStop;
use std::alloc::{AllocError, Global};

/// Whether an answer is TRUE.
fn is_true(answer: Result<Value, EvalStop>) -> Result<bool, AllocError>
    ensures { (o : Option Data) → Answers answer o → IfOk result (λ b. IsTrue b ↔ o ≡ Some (boolean true)) }
{
    match answer {
        Ok(Value::Bool(b)) => Ok(b),
        Ok(_) | Err(EvalStop::NoValue) => Ok(false),
        Err(EvalStop::NoMemory) => Err(AllocError),
    }
}

/// Whether Init is TRUE of the state.
pub fn begins(alloc: Global, m: &Assigned<'_>, s: &State) -> Result<bool, AllocError>
    requires { SeesItsDefinitions m.now }
    ensures { IfOk result (λ b. IsTrue b ↔ Begins (module_view m.now.module.now) m.now.consts.now s.now) }
{
    let names = Bindings::new();
    let env = Env {
        names: &names,
        around: Around::one(s),
    };
    is_true(eval(alloc, m.defs_in(s), m.module.init.get(), &env))
}

/// Whether the module has the action, and its body is TRUE of the pair with `self` as this identifier, by these definitions.
pub(crate) fn acts<'a>(
    alloc: Global,
    m: &Assigned<'_>,
    defs: &Defs,
    label: &Text,
    id: &Value,
    s: &'a State,
    t: &'a State,
    kept: &'a [bool],
) -> Result<bool, AllocError>
    requires sees { SeesItsDefinitions m.now }
    requires seen { AreSeenIn m.now s.now (map defined_view defs.now) }
    requires alike { AreAlike s.now (Some t.now) kept.now }
    ensures { IfOk result (λ b. IsTrue b ↔ Acts (module_view m.now.module.now) m.now.consts.now label.now (data_of id.now) s.now t.now) }
{
    match m.bodies.get(label) {
        None => Ok(false),
        Some(body) => is_step(alloc, defs, &m.self_name, body.get(), id, s, t, kept),
    }
}

/// Whether the body of an action is TRUE of the pair with `self` as this identifier.
fn is_step<'a>(
    alloc: Global,
    defs: &Defs,
    self_name: &Text,
    body: &Expr,
    id: &Value,
    s: &'a State,
    t: &'a State,
    kept: &'a [bool],
) -> Result<bool, AllocError>
    requires { AreAlike s.now (Some t.now) kept.now }
    ensures { IfOk result (λ b. IsTrue b ↔ Val (map defined_view defs.now) (tree body.now) ((self_name.now, Some (data_of id.now)) ∷ []) s.now (Some t.now) ≡ Some (boolean true)) }
{
    let outer = Bindings::new();
    let names = Bindings::with(self_name, Some(id), &outer);
    let env = Env {
        names: &names,
        around: Around::new(s, Some(t), kept),
    };
    is_true(eval(alloc, defs, body, &env))
}
