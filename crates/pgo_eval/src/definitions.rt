// The definitions that an expression sees.
ghost use Rattle.std.specs.Prelude.{◌≡◌, ◌==◌, if◌then◌else◌, List, [], ◌∷◌, length, take, map, Option, Some, None, option_map, IfOk};
ghost use Rattle.pgo_base.specs.Data.{Data};
ghost use Rattle.pgo_base.specs.BindingsView.{onto, named_view};
ghost use Rattle.pgo_base.specs.View.{data_of};
ghost use Rattle.pgo_model.specs.Val.{call_def, default_meaning, name_values};
ghost use Rattle.pgo_eval.specs.HeldView.{held_data};
ghost use Rattle.pgo_eval.specs.Newest.{IsFound};

use crate::held::Held;
use crate::words::is_word;
use pgo_base::module::{Defined, Defs};
use pgo_base::named_values::NamedValues;
use pgo_base::text::Text;
use pgo_base::value::Value;
use std::alloc::{AllocError, Global};

/// A definition, and how many there are before it.
#[derive(Clone, Copy)]
pub struct Found<'a> {
    pub definition: &'a Defined,
    pub before: usize,
}

/// The newest definition of a name among the first so many: the last of them that has it.
pub fn newest<'a>(x: &Text, defs: &'a Defs, count: usize) -> Option<Found<'a>>
    ensures { IsFound x.now defs.now (take count defs.now) result }
{
    match defs.last_place(x, count) {
        Some(before) => match defs.as_slice().get(before) {
            Some(definition) => Some(Found { definition, before }),
            None => None,
        },
        None => None,
    }
}

/// The definition that every list of definitions begins with, a model value, on this many arguments.
pub fn default_value<'a>(
    alloc: Global,
    x: &Text,
    count: usize,
) -> Result<Option<Held<'a>>, AllocError>
    ensures { (args : List Data) → length args ≡ count → IfOk result (λ o. option_map held_data o ≡ call_def x.now args (default_meaning ∷ [])) }
{
    if count == 0 && is_word(x, b"defaultInitValue") {
        let name = Text::from_slice(alloc, b"defaultInitValue")?;
        Ok(Some(Held::Own(Value::Model(name))))
    } else {
        Ok(None)
    }
}

/// The value of a constant on this many arguments.
pub fn given<'a>(value: &'a Value, count: usize) -> Option<Held<'a>>
    ensures { option_map held_data result ≡ (if count == 0 then Some (data_of value.entry.now) else None) }
{
    if count == 0 {
        Some(Held::Lent(value))
    } else {
        None
    }
}

/// The parameters with their arguments, as many of these as of those.
pub fn arguments(
    alloc: Global,
    params: &[Text],
    args: Vec<Value>,
) -> Result<NamedValues, AllocError>
    requires { length args.items ≡ length params.now }
    ensures { IfOk result (λ list. onto (map named_view list) [] ≡ name_values params.now (map data_of args.items) []) }
{
    let mut list = NamedValues::new(alloc);
    for v in args {
        let name = params[list.as_slice().len()].copy(alloc)?;
        list.push(alloc, name, Some(v))?;
    }
    Ok(list)
}
