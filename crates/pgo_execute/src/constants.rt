// The constants of a module.
ghost use Rattle.std.specs.Prelude.{◌≡◌, ◌++◌, ◌∷◌, [], map, IfOk};
ghost use Rattle.std.specs.List.{filter_map};
ghost use Rattle.pgo_base.specs.View.{data_of, named_data};
ghost use Rattle.pgo_translate.specs.ModuleOf.{constants_with, named_constant};

use pgo_base::consts::Consts;
use pgo_base::results::both;
use pgo_base::text::Text;
use pgo_base::value::Value;
use pgo_heads::given_values::GivenValues;
use pgo_syntax::name::PlacedName;
use pgo_syntax::spec::Spec;
use std::alloc::{AllocError, Global};

/// A declared constant with its value, at the end.
fn add_constant(
    alloc: Global,
    list: &mut Vec<(Text, Value)>,
    name: &Text,
    value: &Value,
) -> Result<(), AllocError>
    ensures { IfOk result (λ _. map named_data list.new.items ≡ map named_data list.old.items ++ (name.now, data_of value.now) ∷ []) }
{
    let pair = both(name.copy(alloc), value.copy(alloc))?;
    list.push(pair)?;
    Ok(())
}

/// The declared constants that are given, with their values.
fn listed(
    alloc: Global,
    declared: &[PlacedName],
    given: &GivenValues<'_>,
) -> Result<Vec<(Text, Value)>, AllocError>
    ensures { IfOk result (λ v. map named_data v.items ≡ filter_map (named_constant given.now) declared.now) }
{
    let mut list = Vec::new(alloc);
    for c in declared {
        if let Some(value) = given.get(&c.name) {
            add_constant(alloc, &mut list, &c.name, value)?;
        }
    }
    Ok(list)
}

/// The constants of a specification's module, in the order of declaration, with the values that they are given.
pub fn declared_constants(alloc: Global, spec: &Spec, consts: &Consts) -> Result<Consts, AllocError>
    ensures { IfOk result (λ c. c ≡ constants_with spec.now consts.now) }
{
    let given = GivenValues::new(alloc, consts.as_slice())?;
    let list = listed(alloc, spec.constants.as_slice(), &given)?;
    Ok(Consts::from_vec(list))
}
