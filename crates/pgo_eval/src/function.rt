// The function of an EXCEPT, before its updates and behind some of them.
ghost use Rattle.std.specs.Prelude.{◌≡◌, option_map, IfOk};
ghost use Rattle.pgo_base.specs.View.{data_of};
ghost use Rattle.pgo_eval.specs.HeldView.{held_data, function_data};

use crate::held::Held;
use pgo_base::value::Value;
use pgo_sets::changed::Changed;
use std::alloc::{AllocError, Global};

/// The function of an EXCEPT: as it was given, lent where it can be, or what updates have made of it.
#[derive(Drop)]
pub enum Function<'a> {
    Given(Held<'a>),
    Changed(Changed),
}

impl<'a> Function<'a> {
    /// The function as it is now.
    pub fn get(&self) -> &Value
        ensures { data_of result.now ≡ function_data self.now }
    {
        match self {
            Function::Given(f) => f.get(),
            Function::Changed(f) => f.get(),
        }
    }

    /// The function, to be changed: copied where it is lent.
    pub fn into_changed(self, alloc: Global) -> Result<Changed, AllocError>
        ensures { IfOk result (λ c. c ≡ function_data self.entry) }
    {
        match self {
            Function::Given(f) => Ok(Changed::new(f.into_value(alloc)?)),
            Function::Changed(f) => Ok(f),
        }
    }

    /// The value itself, copied where it is lent.
    pub fn into_value(self, alloc: Global) -> Result<Value, AllocError>
        ensures { IfOk result (λ v. data_of v ≡ function_data self.entry) }
    {
        match self {
            Function::Given(f) => f.into_value(alloc),
            Function::Changed(f) => Ok(f.into_value()),
        }
    }
}

/// The function as it was given, where there is one.
pub fn given<'a>(f: Option<Held<'a>>) -> Option<Function<'a>>
    ensures { option_map function_data result ≡ option_map held_data f.entry }
{
    match f {
        Some(f) => Some(Function::Given(f)),
        None => None,
    }
}

/// The function behind a change, where there is one.
pub fn changed<'a>(f: Option<Changed>) -> Option<Function<'a>>
    ensures { option_map function_data result ≡ f }
{
    match f {
        Some(f) => Some(Function::Changed(f)),
        None => None,
    }
}

/// The value itself, where there is one, copied where it is lent.
pub fn value_of(alloc: Global, f: Option<Function<'_>>) -> Result<Option<Value>, AllocError>
    ensures { IfOk result (λ o. option_map data_of o ≡ option_map function_data f.entry) }
{
    match f {
        Some(f) => Ok(Some(f.into_value(alloc)?)),
        None => Ok(None),
    }
}
