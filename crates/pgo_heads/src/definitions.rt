// What the expressions of a specification see: its constants with their values, and its definitions.
ghost use Rattle.std.specs.Prelude.{◌≡◌, ◌++◌, map, IfOk};
ghost use Rattle.std.specs.List.{filter_map};
ghost use Rattle.pgo_base.specs.View.{named_data};
ghost use Rattle.pgo_bound.specs.Values as values;
ghost use Rattle.pgo_syntax.specs.PlacedNames.{names_of};

use crate::given_values::GivenValues;
use pgo_base::consts::Consts;
use pgo_base::expr::Names;
use pgo_base::module::{Defined, Defs};
use pgo_base::text::Text;
use pgo_base::value::Value;
use pgo_syntax::declaration::{Definition, Definitions};
use pgo_syntax::name::PlacedName;
use pgo_syntax::spec::Spec;
use std::alloc::{AllocError, Global};

/// Each declared constant that is given, with its value, at the end.
fn add_constants(
    alloc: Global,
    defs: &mut Defs,
    declared: &[PlacedName],
    consts: &[(Text, Value)],
) -> Result<(), AllocError>
    ensures { IfOk result (λ _. defs.new ≡ defs.old ++ filter_map (values.given_constant (map named_data consts.now)) declared.now) }
{
    let given = GivenValues::new(alloc, consts)?;
    for c in declared {
        match given.get(&c.name) {
            None => continue,
            Some(value) => {
                let value = value.copy(alloc)?;
                defs.push(Defined::Given {
                    name: c.name.copy(alloc)?,
                    value,
                })?;
                continue;
            }
        }
    }
    Ok(())
}

/// `defaultInitValue` as a definition.
fn default_definition(alloc: Global) -> Result<Defined, AllocError>
    ensures { IfOk result (λ d. d ≡ values.default_definition) }
{
    Ok(Defined::Given {
        name: Text::from_slice(alloc, b"defaultInitValue")?,
        value: Value::Model(Text::from_slice(alloc, b"defaultInitValue")?),
    })
}

/// The names without their places.
fn parameter_names(alloc: Global, params: &[PlacedName]) -> Result<Names, AllocError>
    ensures { IfOk result (λ ns. ns ≡ names_of params.now) }
{
    let mut list = Vec::with_capacity(alloc, params.len())?;
    for p in params {
        list.push(p.name.copy(alloc)?)?;
    }
    Ok(Names::from_vec(list))
}

/// A definition as expressions see it.
fn meant(alloc: Global, d: &Definition) -> Result<Defined, AllocError>
    ensures { IfOk result (λ m. m ≡ values.meant d.now) }
{
    Ok(Defined::Means {
        name: d.name.name.copy(alloc)?,
        params: parameter_names(alloc, d.params.as_slice())?,
        body: d.body.copy(alloc)?,
    })
}

/// Definitions, at the end.
fn add_definitions(
    alloc: Global,
    defs: &mut Defs,
    definitions: &[Definition],
) -> Result<(), AllocError>
    ensures { IfOk result (λ _. defs.new ≡ defs.old ++ map values.meant definitions.now) }
{
    for d in definitions {
        defs.push(meant(alloc, d)?)?;
    }
    Ok(())
}

/// The definitions of `define`, if it stands there, at the end.
fn add_define(
    alloc: Global,
    defs: &mut Defs,
    define: &Option<Definitions>,
) -> Result<(), AllocError>
    ensures { IfOk result (λ _. defs.new ≡ defs.old ++ map values.meant (values.define_of define.now)) }
{
    match define {
        None => Ok(()),
        Some(definitions) => add_definitions(alloc, defs, definitions.as_slice()),
    }
}

/// The constants with their values, `defaultInitValue`, and the definitions of the specification.
pub fn definitions(alloc: Global, spec: &Spec, consts: &Consts) -> Result<Defs, AllocError>
    ensures { IfOk result (λ ds. ds ≡ values.defs_of spec.now consts.now) }
{
    let mut defs = Defs::new(alloc);
    add_constants(
        alloc,
        &mut defs,
        spec.constants.as_slice(),
        consts.as_slice(),
    )?;
    defs.push(default_definition(alloc)?)?;
    add_definitions(alloc, &mut defs, spec.definitions.as_slice())?;
    add_define(alloc, &mut defs, &spec.define)?;
    Ok(defs)
}
