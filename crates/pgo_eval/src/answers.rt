// Answers of the operators inside the evaluator.
ghost use Rattle.std.specs.Prelude.{◌≡◌, Option, option_map, IfOk};
ghost use Rattle.pgo_base.specs.Data.{Data};
ghost use Rattle.pgo_base.specs.View.{data_of};
ghost use Rattle.pgo_model.specs.Operators.{truth_of, from_truth};
ghost use Rattle.pgo_model.specs.Sequences.{assert};
ghost use Rattle.pgo_sets.specs.Answers.{Answers};
ghost use Rattle.pgo_eval.specs.HeldView.{held_data};

use crate::held::Held;
use pgo_base::value::Value;
use pgo_sets::errors::EvalStop;
use std::alloc::AllocError;

/// An operator's answer as an owned value or none.
pub fn held_or_none<'a>(answer: Result<Value, EvalStop>) -> Result<Option<Held<'a>>, AllocError>
    ensures { (o : Option Data) → Answers answer o → IfOk result (λ h. option_map held_data h ≡ o) }
{
    match answer {
        Ok(v) => Ok(Some(Held::Own(v))),
        Err(EvalStop::NoValue) => Ok(None),
        Err(EvalStop::NoMemory) => Err(AllocError),
    }
}

/// The truth that a value is, where it is a Boolean.
pub fn truth(v: Option<&Value>) -> Option<bool>
    ensures { result ≡ truth_of (option_map (λ r. data_of r.now) v.entry) }
{
    match v {
        Some(Value::Bool(b)) => Some(*b),
        _ => None,
    }
}

/// A truth as a value.
pub fn from_truth(p: Option<bool>) -> Option<Value>
    ensures { option_map data_of result ≡ from_truth p }
{
    p.map(Value::Bool)
}

/// Assert by the value of its first argument.
pub fn assertion<'a>(v: Option<&Value>) -> Option<Held<'a>>
    ensures { option_map held_data result ≡ assert (option_map (λ r. data_of r.now) v.entry) }
{
    match v {
        Some(Value::Bool(true)) => Some(Held::Own(Value::Bool(true))),
        _ => None,
    }
}
