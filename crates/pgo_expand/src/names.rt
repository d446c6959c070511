// The variables of a specification by their written names.
ghost use Rattle.std.specs.Prelude.{◌≡◌, ◌++◌, map, IfOk};
ghost use Rattle.std.specs.List.{flat_map};
ghost use Rattle.pgo_bound.specs.State.{variables_of};
ghost use Rattle.pgo_expand.specs.Module.{globals_of, own_in};

use pgo_base::text::Text;
use pgo_syntax::declaration::{Declaration, Declarations};
use pgo_syntax::spec::Spec;
use std::alloc::{AllocError, Global};

/// Adds the names of declarations.
fn add_names(alloc: Global, names: &mut Vec<Text>, list: &[Declaration]) -> Result<(), AllocError>
    ensures { IfOk result (λ _. names.new.items ≡ names.old.items ++ map (λ d. d.name.name) list.now) }
{
    for d in list {
        names.push(d.name.name.copy(alloc)?)?;
    }
    Ok(())
}

/// The globals in the order of declaration.
pub fn globals(alloc: Global, spec: &Spec) -> Result<Vec<Text>, AllocError>
    ensures { IfOk result (λ v. v.items ≡ globals_of spec.now) }
{
    let mut names = Vec::new(alloc);
    add_names(alloc, &mut names, spec.globals.as_slice())?;
    Ok(names)
}

/// The variables in the order of the written module: globals, `pc`, and then each process's value parameters and locals, which
/// are `own`.
pub fn variables(alloc: Global, spec: &Spec, own: &[Declarations]) -> Result<Vec<Text>, AllocError>
    requires { own.now ≡ map (own_in spec.now.archetypes) spec.now.processes }
    ensures { IfOk result (λ v. v.items ≡ variables_of spec.now) }
{
    let mut names = globals(alloc, spec)?;
    names.push(Text::from_slice(alloc, b"pc")?)?;
    for list in own {
        add_names(alloc, &mut names, list.as_slice())?;
    }
    Ok(names)
}
