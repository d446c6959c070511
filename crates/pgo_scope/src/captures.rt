// Rule 2, its fourth case: a name that a macro binds stands in an argument of a call of it.
ghost use Rattle.std.specs.Prelude.{◌≡◌, ℕ, false, ◌&&◌, ◌++◌, map, slice_get, option_map, unwrap_or, IfOk, flat_map};
ghost use Rattle.pgo_base.specs.ExprView.{tree};
ghost use Rattle.pgo_base.specs.Lookup.{Name};
ghost use Rattle.pgo_uses.specs.AllUses.{names_of};
ghost use Rattle.pgo_scope.specs.Binders.{binds, bound_at, some_binds, is_handed, is_captured, see_macro_captures, see_captures};
ghost use Rattle.pgo_scope.specs.Twice as spec;
ghost use Rattle.pgo_scope.specs.declared.binders.Binders.{Binders as SpecBinders};

use crate::binders::Binders;
use crate::finding::{Cause, Finding, add_if};
use crate::handed::HandedOn;
use crate::places::add_place;
use pgo_base::expr::Expr;
use pgo_base::text::Text;
use pgo_syntax::macros::Macro;
use pgo_syntax::name::PlacedName;
use pgo_uses::names::Names;
use pgo_uses::unit_uses::add_macro;
use pgo_uses::uses::{Around, Form, Use};
use pgo_uses::walk::add_uses;
use std::alloc::{AllocError, Global};
use std::collections::BTreeSet;

/// The macros whose bound names may not stand in the arguments of a macro, by their places.
#[derive(Drop)]
pub struct Captures {
    /// for each parameter, in its argument: the macro, and those to which it is handed on
    pub handed: Vec<BTreeSet<usize>>,
    /// in the arguments behind these: the macro alone, or none where it binds no name
    pub own: BTreeSet<usize>,
}

/// The names of all macros, what they bind, and what may not stand in the arguments of the first of them.
#[derive(Clone, Copy)]
pub struct CaptureTable<'a> {
    pub names: &'a Names,
    pub binders: &'a Binders,
    pub list: &'a [Captures],
}

/// The macros whose bound names may not stand in the argument in this place.
fn places_at(captures: &Captures, i: usize) -> &BTreeSet<usize>
    ensures { result.now ≡ unwrap_or (slice_get captures.now.handed.items i) captures.now.own }
{
    match captures.handed.get(i) {
        Some(places) => places,
        None => &captures.own,
    }
}

/// What may not stand in the arguments of the macro of this name.
fn captures_of<'a>(table: &CaptureTable<'a>, name: &Text) -> Option<&'a Captures>
    ensures { option_map (λ c. see_macro_captures table.now.binders.now c.now) result ≡ spec.macro_captures_of (see_captures table.now) name.now }
{
    match table.names.position(name) {
        Some(i) => table.list.get(i),
        None => None,
    }
}

/// Notes under each name in this argument the macros whose bound names may not stand there.
fn add_argument<'a>(
    alloc: Global,
    places: &'a BTreeSet<usize>,
    around: Around,
    e: &Expr,
    found: &mut HandedOn<'a>,
) -> Result<(), AllocError>
    ensures { IfOk result (λ _. (b : SpecBinders) (p : Name) (x : Name) → is_handed b found.new p x ≡ spec.handed_at (is_handed b found.old p x) (some_binds b places.now) around p (tree e.now) x) }
{
    let mut uses = Vec::new(alloc);
    add_uses(alloc, around, e, &mut uses)?;
    found.add_uses(alloc, uses.as_slice(), places)
}

/// Notes under each name in the arguments for parameters of this macro the macros whose bound names may not stand there.
fn add_arguments<'a>(
    alloc: Global,
    captures: &'a Captures,
    around: Around,
    args: &[Expr],
    found: &mut HandedOn<'a>,
) -> Result<(), AllocError>
    ensures { IfOk result (λ _. (b : SpecBinders) (p : Name) (x : Name) → is_handed b found.new p x ≡ spec.handed_on (is_handed b found.old p x) (map (some_binds b) captures.now.handed.items) around p (map tree args.now) x) }
{
    for (i, places) in captures.handed.as_slice().iter().enumerate() {
        let Some(e) = args.get(i) else {
            return Ok(());
        };
        add_argument(alloc, places, around, e, found)?;
    }
    Ok(())
}

/// Notes under each name in the arguments of this use, if it is a call, the macros whose bound names may not stand there.
fn add_call<'a>(
    alloc: Global,
    table: &CaptureTable<'a>,
    u: &Use,
    found: &mut HandedOn<'a>,
) -> Result<(), AllocError>
    ensures { IfOk result (λ _. (p : Name) (x : Name) → is_handed table.now.binders.now found.new p x ≡ spec.calls_capture (is_handed table.now.binders.now found.old p x) (see_captures table.now) p u.now u.now.form x) }
{
    match &u.form {
        Form::Called(list) => {
            let Some(c) = captures_of(table, &u.name) else {
                return Ok(());
            };
            add_arguments(alloc, c, u.around, list.as_slice(), found)
        }
        _ => Ok(()),
    }
}

/// For each name that these hand on to other macros, the macros whose bound names may not stand where it is handed on.
fn handed_on<'a>(
    alloc: Global,
    table: &CaptureTable<'a>,
    uses: &[Use],
) -> Result<HandedOn<'a>, AllocError>
    ensures { IfOk result (λ found. (p : Name) (x : Name) → is_handed table.now.binders.now found p x ≡ spec.some_capture false (see_captures table.now) p uses.now x) }
{
    let mut found = HandedOn::new(alloc);
    for u in uses {
        add_call(alloc, table, u, &mut found)?;
    }
    Ok(found)
}

/// For each of these parameters, the macros to which it is handed on, and these.
fn handed_places(
    alloc: Global,
    found: &HandedOn<'_>,
    own: &BTreeSet<usize>,
    params: &[PlacedName],
) -> Result<Vec<BTreeSet<usize>>, AllocError>
    ensures { IfOk result (λ v. (b : SpecBinders) → map (some_binds b) v.items ≡ map (is_captured b found.now own.now) (names_of params.now)) }
{
    let mut all = Vec::new(alloc);
    for p in params {
        all.push(found.places_of(alloc, own, &p.name)?)?;
    }
    Ok(all)
}

/// Whether a name is bound among these.
fn binds_some(uses: &[Use]) -> bool
    ensures { result ≡ false → (x : Name) → spec.is_bound_in false uses.now x ≡ false }
{
    for u in uses {
        let Form::Bound = &u.form else {
            continue;
        };
        return true;
    }
    false
}

/// The macro in this place, or none where it binds no name.
fn own_places(alloc: Global, binds_some: bool, place: usize) -> Result<BTreeSet<usize>, AllocError>
    ensures { IfOk result (λ s. (b : SpecBinders) (x : Name) → some_binds b s x ≡ (binds_some && binds b place x)) }
{
    let mut own = BTreeSet::new(alloc);
    if binds_some {
        add_place(place, &mut own)?;
    }
    Ok(own)
}

/// What may not stand in the arguments of the macro in this place, with these names in it.
fn macro_captures(
    alloc: Global,
    table: &CaptureTable<'_>,
    place: usize,
    uses: &[Use],
    params: &[PlacedName],
) -> Result<Captures, AllocError>
    requires { (x : Name) → binds table.now.binders.now place x ≡ spec.is_bound_in false uses.now x }
    ensures { IfOk result (λ c. see_macro_captures table.now.binders.now c ≡ spec.macro_captures (see_captures table.now) uses.now (names_of params.now)) }
{
    let found = handed_on(alloc, table, uses)?;
    let own = own_places(alloc, binds_some(uses), place)?;
    let handed = handed_places(alloc, &found, &own, params)?;
    Ok(Captures { handed, own })
}

/// For each of these macros, by those before it, what may not stand in its arguments, where they bind these names.
pub fn all_captures(
    alloc: Global,
    macros: &Names,
    binders: &Binders,
    list: &[Macro],
) -> Result<Vec<Captures>, AllocError>
    requires { (i : ℕ) (x : Name) → binds binders.now i x ≡ bound_at list.now i x }
    ensures { IfOk result (λ v. (macros.now, map (see_macro_captures binders.now) v.items) ≡ spec.captures_by macros.now list.now) }
{
    let mut made: Vec<Captures> = Vec::new(alloc);
    for (i, m) in list.iter().enumerate() {
        let mut uses = Vec::new(alloc);
        add_macro(alloc, i, m, &mut uses)?;
        let table = CaptureTable {
            names: macros,
            binders,
            list: made.as_slice(),
        };
        let captures = macro_captures(alloc, &table, i, uses.as_slice(), m.params.as_slice())?;
        made.push(captures)?;
    }
    Ok(made)
}

/// Adds the name of this use, where it may not stand there.
fn add_captured_use(
    alloc: Global,
    binders: &Binders,
    places: &BTreeSet<usize>,
    u: &Use,
    out: &mut Vec<Finding>,
) -> Result<(), AllocError>
    ensures { IfOk result (λ _. out.new.items ≡ out.old.items ++ spec.captured_use (some_binds binders.now places.now) u.now) }
{
    match &u.form {
        Form::Field => Ok(()),
        _ => {
            let wrong = binders.some_binds(places, &u.name);
            add_if(alloc, wrong, Cause::Twice, u.around.place, &u.name, out)
        }
    }
}

/// Adds the names among these that may not stand there.
fn add_captured_uses(
    alloc: Global,
    binders: &Binders,
    places: &BTreeSet<usize>,
    uses: &[Use],
    out: &mut Vec<Finding>,
) -> Result<(), AllocError>
    ensures { IfOk result (λ _. out.new.items ≡ out.old.items ++ flat_map (spec.captured_use (some_binds binders.now places.now)) uses.now) }
{
    for u in uses {
        add_captured_use(alloc, binders, places, u, out)?;
    }
    Ok(())
}

/// Adds the names in this argument that may not stand there.
fn add_captured_at(
    alloc: Global,
    binders: &Binders,
    places: &BTreeSet<usize>,
    around: Around,
    e: &Expr,
    out: &mut Vec<Finding>,
) -> Result<(), AllocError>
    ensures { IfOk result (λ _. out.new.items ≡ out.old.items ++ spec.captured_at (some_binds binders.now places.now) around (tree e.now)) }
{
    let mut uses = Vec::new(alloc);
    add_uses(alloc, around, e, &mut uses)?;
    add_captured_uses(alloc, binders, places, uses.as_slice(), out)
}

/// Adds the names in the arguments of a call of this macro that may not stand there.
fn add_captured_in(
    alloc: Global,
    binders: &Binders,
    captures: &Captures,
    around: Around,
    args: &[Expr],
    out: &mut Vec<Finding>,
) -> Result<(), AllocError>
    ensures { IfOk result (λ _. out.new.items ≡ out.old.items ++ spec.captured_in (map (some_binds binders.now) captures.now.handed.items) (some_binds binders.now captures.now.own) around (map tree args.now)) }
{
    for (i, e) in args.iter().enumerate() {
        let places = places_at(captures, i);
        add_captured_at(alloc, binders, places, around, e, out)?;
    }
    Ok(())
}

/// Adds the names in the arguments of this use, if it is a call, that may not stand there.
pub fn add_capture_use(
    alloc: Global,
    table: &CaptureTable<'_>,
    u: &Use,
    out: &mut Vec<Finding>,
) -> Result<(), AllocError>
    ensures { IfOk result (λ _. out.new.items ≡ out.old.items ++ spec.capture_use (see_captures table.now) u.now) }
{
    match &u.form {
        Form::Called(list) => {
            let Some(c) = captures_of(table, &u.name) else {
                return Ok(());
            };
            add_captured_in(alloc, table.binders, c, u.around, list.as_slice(), out)
        }
        _ => Ok(()),
    }
}
