// Whether the names of a specification keep the rules.
ghost use Rattle.std.specs.Prelude.{◌≡◌, IfOk};
ghost use Rattle.pgo_scope.specs.Refusal.{scope_refusal, Answers};

use crate::binders::all_binders;
use crate::captures::{CaptureTable, all_captures};
use crate::errors::ScopeError;
use crate::macro_table::{MacroTable, all_parameters};
use crate::rules::{Context, RULES, first_of};
use crate::units::names_of_units;
use pgo_syntax::spec::Spec;
use pgo_uses::all_uses::all_uses;
use pgo_uses::tables::tables_of;
use std::alloc::{AllocError, Global};

/// Whether the names of this specification keep the rules. `Err` says which rule is broken, the first in the order of
/// their numbers, and by which name, the first in the order of the text.
///
/// - `Unknown`: a name has no meaning at its place.
/// - `Twice`: a name has two meanings.
/// - `Arity`: a name has another number of arguments than its meaning takes.
/// - `GlobalInArchetype`: a global's name stands where it means the global and may not stand.
/// - `AssignedNotRef`: a name is assigned that may not be.
/// - `MappedReadHere`: a mapped parameter stands in a form in which it may not.
/// - `NameClash`: two things have one name in the written module.
/// - `DoubleUnderscore`: an identifier holds `__`.
/// - `UnknownModule`: EXTENDS names a module that there is not.
/// - `NoMemory`: there was no memory for what had to be stored; this may come whatever the names are.
///
/// Source: TLA+ and the PlusCal manual for what a name may mean; the Modular PlusCal paper for archetypes and mapping; this
/// project's choice for the order of the rules.
pub fn scope(alloc: Global, spec: &Spec) -> Result<(), ScopeError>
    ensures { Answers (scope_refusal spec.now) result }
{
    match refusal(alloc, spec)? {
        Some(error) => Err(error),
        None => Ok(()),
    }
}

fn refusal(alloc: Global, s: &Spec) -> Result<Option<ScopeError>, AllocError>
    ensures { IfOk result (λ r. r ≡ scope_refusal s.now) }
{
    let tables = tables_of(alloc, s)?;
    let macros = &tables.macros;
    let list = s.macros.as_slice();
    let parameters = all_parameters(alloc, macros, list)?;
    let binders = all_binders(alloc, list)?;
    let captures = all_captures(alloc, macros, &binders, list)?;
    let uses = all_uses(alloc, s)?;
    let units = names_of_units(alloc, s)?;
    let context = Context {
        units: &units,
        tables: &tables,
        macros: MacroTable {
            names: macros,
            list: parameters.as_slice(),
        },
        captures: CaptureTable {
            names: macros,
            binders: &binders,
            list: captures.as_slice(),
        },
        uses: uses.as_slice(),
    };
    first_of(alloc, &RULES, &context)
}
