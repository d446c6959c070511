// The unmapped parameters that are read before an expression. The walk recurses to the height of the expression.
ghost use Rattle.std.specs.Prelude.{◌≡◌, if◌then◌else◌, [], ◌∷◌, map, option_map, IfOk};
ghost use Rattle.pgo_base.specs.ExprView.{tree};
ghost use Rattle.pgo_code.specs.See.{evaluation_view, target_view, unmapped_view};
ghost use Rattle.pgo_lower.specs.Gathered as spec;
ghost use Rattle.pgo_lower.specs.Gathered.{gathered};
ghost use Rattle.pgo_lower.specs.Lowered as lowered;
ghost use Rattle.pgo_lower.specs.Slots.{slot_views};
ghost use Rattle.pgo_operands.specs.Operands.{lent_trees};
ghost use Rattle.pgo_rewrite.specs.Scoped.{under_at};
ghost use Rattle.pgo_rewrite.specs.Scopes.{in_scope};
ghost use Rattle.pgo_model.specs.Names.{is_among};
ghost use Rattle.pgo_sections.specs.FreeNames.{free_names};

use crate::indexed_slots::IndexedSlots;
use pgo_base::expr::{Expr, Sub};
use pgo_base::text::Text;
use pgo_code::instruction::{Evaluation, Target, Unmapped};
use pgo_operands::operands::operands;
use pgo_rewrite::bound_names::{count_at, names_by};
use pgo_rewrite::indexed_names::IndexedNames;
use pgo_rewrite::scopes::Scope;
use std::alloc::{AllocError, Global};

/// Whether a parameter is read already.
fn is_read(x: &Text, reads: &[Unmapped]) -> bool
    ensures { result ≡ is_among x.now (map (λ u. u.0) (map unmapped_view reads.now)) }
{
    for u in reads {
        if x.is(&u.name) {
            return true;
        }
    }
    false
}

/// Adds the read of what stands for a name, if it is a global as a whole.
fn read(
    alloc: Global,
    x: &Text,
    target: Option<&Target>,
    reads: &mut Vec<Unmapped>,
) -> Result<(), AllocError>
    ensures { IfOk result (λ _. map unmapped_view reads.new.items ≡ spec.read_behind x.now (option_map (λ t. target_view t.now) target.entry) (map unmapped_view reads.old.items)) }
{
    match target {
        Some(Target::Resource(r)) => {
            let name = x.copy(alloc)?;
            reads.push(Unmapped { name, resource: *r })?;
            Ok(())
        }
        _ => Ok(()),
    }
}

/// Adds what is read for a name, unless it is read already.
fn note(
    alloc: Global,
    slots: &IndexedSlots,
    x: &Text,
    reads: &mut Vec<Unmapped>,
) -> Result<(), AllocError>
    ensures { IfOk result (λ _. map unmapped_view reads.new.items ≡ spec.noted (slot_views slots.now) (map unmapped_view reads.old.items) x.now) }
{
    if is_read(x, reads.as_slice()) {
        return Ok(());
    }
    read(alloc, x, slots.target_named(x), reads)
}

/// The same, unless the name is bound around it.
fn note_free(
    alloc: Global,
    slots: &IndexedSlots,
    scope: &Scope<'_>,
    x: &Text,
    reads: &mut Vec<Unmapped>,
) -> Result<(), AllocError>
    ensures { IfOk result (λ _. map unmapped_view reads.new.items ≡ gathered (slot_views slots.now) (map unmapped_view reads.old.items) (if is_among x.now (in_scope scope.now) then [] else x.now ∷ [])) }
{
    if scope.has(x) {
        return Ok(());
    }
    note(alloc, slots, x, reads)
}

/// Adds what is read for the name that an expression is.
fn note_own(
    alloc: Global,
    slots: &IndexedSlots,
    scope: &Scope<'_>,
    e: &Expr,
    reads: &mut Vec<Unmapped>,
) -> Result<(), AllocError>
    ensures { IfOk result (λ _. map unmapped_view reads.new.items ≡ gathered (slot_views slots.now) (map unmapped_view reads.old.items) (spec.own_names (in_scope scope.now) (tree e.now))) }
{
    match e {
        Expr::Name(x) => note_free(alloc, slots, scope, x, reads),
        _ => Ok(()),
    }
}

/// Adds what is read for the free names of an expression.
#[cycle(reads)]
fn note_all(
    alloc: Global,
    slots: &IndexedSlots,
    scope: &Scope<'_>,
    e: &Expr,
    reads: &mut Vec<Unmapped>,
) -> Result<(), AllocError>
    ensures { IfOk result (λ _. map unmapped_view reads.new.items ≡ gathered (slot_views slots.now) (map unmapped_view reads.old.items) (free_names (in_scope scope.now) (tree e.now))) }
{
    note_own(alloc, slots, scope, e, reads)?;
    let bound = names_by(alloc, e)?;
    let list = operands(alloc, e)?;
    note_parts(alloc, slots, scope, e, &bound, list.as_slice(), reads)
}

/// The same for the operands `list` of an expression `e` that binds the names `bound`.
#[cycle(reads)]
fn note_parts(
    alloc: Global,
    slots: &IndexedSlots,
    scope: &Scope<'_>,
    e: &Expr,
    bound: &IndexedNames,
    list: &[&Expr],
    reads: &mut Vec<Unmapped>,
) -> Result<(), AllocError>
    ensures { IfOk result (λ _. map unmapped_view reads.new.items ≡ gathered (slot_views slots.now) (map unmapped_view reads.old.items) (spec.part_names (under_at (tree e.now) bound.now (in_scope scope.now)) 0 (lent_trees list.now))) }
{
    for (i, part) in list.iter().enumerate() {
        let count = count_at(e, bound.as_slice().len(), i);
        let inner = Scope::within(&*scope, &*bound, count);
        note_all(alloc, slots, &inner, part, reads)?;
    }
    Ok(())
}

/// What is read before an expression.
fn reads_of(alloc: Global, slots: &IndexedSlots, e: &Expr) -> Result<Vec<Unmapped>, AllocError>
    ensures { IfOk result (λ v. map unmapped_view v.items ≡ (lowered.evaluation (slot_views slots.now) (tree e.now)).reads) }
{
    let mut reads = Vec::new(alloc);
    note_all(alloc, slots, &Scope::new(), e, &mut reads)?;
    Ok(reads)
}

/// An expression with what is read before it.
pub fn evaluation(alloc: Global, slots: &IndexedSlots, e: Expr) -> Result<Evaluation, AllocError>
    ensures { IfOk result (λ v. evaluation_view v ≡ lowered.evaluation (slot_views slots.now) (tree e)) }
{
    let expression = Sub::new(alloc, e)?;
    let reads = reads_of(alloc, slots, expression.get())?;
    Ok(Evaluation { expression, reads })
}
