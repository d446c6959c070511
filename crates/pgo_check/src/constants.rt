// Definitions that are the same in every state of a log, by their values: they are evaluated once, and not in each state.
ghost use Rattle.std.specs.Prelude.{◌≡◌, Bool, false, List, [], ◌∷◌, ◌++◌, map, Option, None, option_map, IsTrue, IfOk};
ghost use Rattle.pgo_base.specs.ExprView.{tree};
ghost use Rattle.pgo_base.specs.Lookup.{Name, Vars, find};
ghost use Rattle.pgo_base.specs.NameMaps.{has_name};
ghost use Rattle.pgo_base.specs.Tree.{Tree};
ghost use Rattle.pgo_base.specs.View.{data_of};
ghost use Rattle.pgo_model.specs.ModuleView.{defined_view};
ghost use Rattle.pgo_model.specs.Val.{Means, Val, meanings};
ghost use Rattle.pgo_model.specs.Val as val;
ghost use Rattle.pgo_check.specs.Constants as specs;
ghost use Rattle.pgo_check.specs.Assigned.{HasVariablesOf};

use crate::definitions::copy_of;
use pgo_base::bindings::Bindings;
use pgo_base::expr::{Expr, Names, Sub};
use pgo_base::last_place::Named;
use pgo_base::module::{Defined, Defs};
use pgo_base::name_map::NameMap;
use pgo_base::scope::{Around, Env, State};
use pgo_base::text::Text;
use pgo_base::value::Value;
use pgo_eval::eval::eval;
use pgo_operands::operands::operands;
use pgo_sets::answers::value_or_none;
use std::alloc::{AllocError, Global};

/// These definitions, of which those with true that have no parameters and are the same in every state are given by their values:
/// they name no variable of the start and have no prime, and neither do the definitions that they name. `used` goes from the last
/// definition to the first.
///
/// Err only where there is no memory for the list. A definition that nests too deep to be evaluated, or for whose value there is no
/// memory, stays as it is.
pub fn constants_by_value(
    alloc: Global,
    defs: &Defs,
    start: &State,
    used: Vec<bool>,
) -> Result<Defs, AllocError>
    ensures { IfOk result (λ ds. (now : Vars) (next : Option Vars) → HasVariablesOf start.now now → meanings (map defined_view ds) now next ≡ meanings (map defined_view defs.now) now next) }
{
    let mut used = used;
    let mut varying = variables_of(alloc, start)?;
    let mut made = Defs::new(alloc);
    for d in defs.as_slice() {
        let is_used = used.pop().unwrap_or(false);
        add(alloc, &mut varying, &mut made, d, is_used)?;
    }
    Ok(made)
}

/// The variables of a state.
fn variables_of(alloc: Global, s: &State) -> Result<NameMap<()>, AllocError>
    ensures { IfOk result (λ m. (x : Name) → has_name m x ≡ false → find x s.now ≡ None) }
{
    let mut names = NameMap::new(alloc);
    for p in s.as_slice() {
        names.set(alloc, &p.0, ())?;
    }
    Ok(names)
}

/// One definition more, behind those that are made: by its value where it is used, has no parameters and is the same in every
/// state. If it isn't the same, its name varies from here on.
fn add(
    alloc: Global,
    varying: &mut NameMap<()>,
    made: &mut Defs,
    d: &Defined,
    is_used: bool,
) -> Result<(), AllocError>
    ensures { IfOk result (λ _. (variables : Name → Bool) (written : List val.Defined) → specs.MeansSame variables (has_name varying.old) (map defined_view made.old) written → specs.MeansSame variables (has_name varying.new) (map defined_view made.new) (written ++ defined_view d.now ∷ [])) }
{
    if is_constant_definition(alloc, &*varying, d)? {
        add_constant(alloc, made, d, is_used)
    } else {
        add_varying(alloc, varying, made, d)
    }
}

/// One definition more, which is the same in every state.
fn add_constant(
    alloc: Global,
    made: &mut Defs,
    d: &Defined,
    is_used: bool,
) -> Result<(), AllocError>
    ensures { IfOk result (λ _. (variables varies : Name → Bool) (written : List val.Defined) → specs.IsConstantDefinition varies (defined_view d.now) → specs.MeansSame variables varies (map defined_view made.old) written → specs.MeansSame variables varies (map defined_view made.new) (written ++ defined_view d.now ∷ [])) }
{
    let same = by_value_if(alloc, &*made, d, is_used)?;
    made.push(same)?;
    Ok(())
}

/// One definition more, whose name varies from here on.
fn add_varying(
    alloc: Global,
    varying: &mut NameMap<()>,
    made: &mut Defs,
    d: &Defined,
) -> Result<(), AllocError>
    ensures { IfOk result (λ _. (variables : Name → Bool) (written : List val.Defined) → specs.MeansSame variables (has_name varying.old) (map defined_view made.old) written → specs.MeansSame variables (has_name varying.new) (map defined_view made.new) (written ++ defined_view d.now ∷ [])) }
{
    varying.set(alloc, d.name(), ())?;
    let same = copy_of(alloc, d)?;
    made.push(same)?;
    Ok(())
}

/// Whether a definition is the same in every state, where these names may vary. False says nothing.
fn is_constant_definition(
    alloc: Global,
    varying: &NameMap<()>,
    d: &Defined,
) -> Result<bool, AllocError>
    ensures { IfOk result (λ b. IsTrue b → specs.IsConstantDefinition (has_name varying.now) (defined_view d.now)) }
{
    match d {
        Defined::Given { .. } => Ok(true),
        Defined::Means { body, .. } => is_constant(alloc, varying, body.get()),
    }
}

/// Whether an expression speaks of no state, where these names may vary. False says nothing.
fn is_constant(alloc: Global, varying: &NameMap<()>, e: &Expr) -> Result<bool, AllocError>
    ensures { IfOk result (λ b. IsTrue b → specs.IsConstant (has_name varying.now) (tree e.now)) }
{
    let mut left = Vec::new(alloc);
    left.push(e)?;
    while let Some(one) = left.pop() {
        if !is_fixed(varying, one) {
            return Ok(false);
        }
        let parts = operands(alloc, one)?;
        left.extend_from_slice(parts.as_slice())?;
    }
    Ok(true)
}

/// Whether an expression, apart from its operands, speaks of no state.
fn is_fixed(varying: &NameMap<()>, e: &Expr) -> bool
    ensures { result ≡ specs.is_fixed (has_name varying.now) (tree e.now) }
{
    match e {
        Expr::Name(x) => !varying.contains(x),
        Expr::Call(x, _) => !varying.contains(x),
        Expr::Primed(_) => false,
        Expr::Unchanged(_) => false,
        _ => true,
    }
}

/// A definition that is the same in every state: by its value where it is used and has no parameters, else once more.
fn by_value_if(
    alloc: Global,
    made: &Defs,
    d: &Defined,
    is_used: bool,
) -> Result<Defined, AllocError>
    ensures { IfOk result (λ s. specs.IsSame (map defined_view made.now) (defined_view d.now) (defined_view s)) }
{
    match d {
        Defined::Given { .. } => copy_of(alloc, d),
        Defined::Means { name, params, body } => {
            if is_used && params.as_slice().is_empty() {
                by_value(alloc, made, name, body)
            } else {
                copy_of(alloc, d)
            }
        }
    }
}

/// A name without parameters by the value of its body. Where that has none, the body is one that has none either; where it nests too
/// deep to be evaluated or there is no memory, it stays as it is.
fn by_value(alloc: Global, made: &Defs, name: &Text, body: &Sub) -> Result<Defined, AllocError>
    ensures { IfOk result (λ s. specs.IsSame (map defined_view made.now) (Means name.now [] body.now) (defined_view s)) }
{
    let name = name.copy(alloc)?;
    match value_of(alloc, made, body.get()) {
        Ok(Some(value)) => Ok(Defined::Given { name, value }),
        Ok(None) => with_body(alloc, name, Sub::new(alloc, Expr::At)),
        Err(AllocError) => with_body(alloc, name, body.copy(alloc)),
    }
}

/// A name without parameters with this body.
fn with_body(
    alloc: Global,
    name: Text,
    body: Result<Sub, AllocError>,
) -> Result<Defined, AllocError>
    ensures { (e : Tree) → IfOk body (λ b. b ≡ e) → IfOk result (λ s. defined_view s ≡ Means name [] e) }
{
    Ok(Defined::Means {
        name,
        params: Names::from_vec(Vec::new(alloc)),
        body: body?,
    })
}

/// The value of an expression that sees these definitions and no variable, or none.
fn value_of(alloc: Global, made: &Defs, e: &Expr) -> Result<Option<Value>, AllocError>
    ensures { IfOk result (λ v. option_map data_of v ≡ Val (map defined_view made.now) (tree e.now) [] [] None) }
{
    let names = Bindings::new();
    let state = State::from_vec(Vec::new(alloc));
    let env = Env {
        names: &names,
        around: Around::one(&state),
    };
    value_or_none(eval(alloc, made, e, &env))
}
