// Rule 3: a `goto` names neither a label of its archetype nor `Done`.
ghost use Rattle.std.specs.Prelude.{◌≡◌, ◌||◌, map, not, filter, IfOk, option_copied, option_to_list};
ghost use Rattle.pgo_base.specs.Lookup.{Name, same_name};
ghost use Rattle.pgo_model.specs.Names.{is_among};
ghost use Rattle.pgo_base.specs.NameMaps.{has_name};
ghost use Rattle.pgo_syntax.specs.StatementView.{statement};
ghost use Rattle.pgo_labels.specs.Inside.{with_inside};
ghost use Rattle.pgo_labels.specs.Labels.{done};
ghost use Rattle.pgo_syntax.specs.Least.{least};
ghost use Rattle.pgo_labels.specs.Lent.{lent};
ghost use Rattle.pgo_labels.specs.Parts.{see};
ghost use Rattle.pgo_labels.specs.UnknownLabel as spec;

use crate::finding::{Finding, Rule, least_finding};
use crate::items::{Item, items_of_body};
use crate::names::{body_labels, is_done};
use pgo_base::name_map::NameMap;
use pgo_syntax::archetype::Archetype;
use pgo_syntax::name::PlacedName;
use pgo_syntax::statement::{Block, Stmt};
use std::alloc::{AllocError, Global};

/// Where a statement goes, if it is a `goto`.
fn target<'a>(s: &'a Stmt) -> Option<&'a PlacedName>
    ensures { option_to_list (option_copied result) ≡ spec.target (statement s.entry.now) }
{
    match s {
        Stmt::Goto(_, label) => Some(label),
        _ => None,
    }
}

/// The targets of the `goto`s among these statements.
fn targets_of<'a>(alloc: Global, items: &[Item<'a>]) -> Result<Vec<&'a PlacedName>, AllocError>
    ensures { IfOk result (λ v. lent v.items ≡ spec.targets_of (map see items.now)) }
{
    let mut names = Vec::new(alloc);
    for item in items {
        if let Some(label) = target(item.statement()) {
            names.push(label)?;
        }
    }
    Ok(names)
}

/// The targets of the `goto`s of a body.
fn body_targets<'a>(alloc: Global, body: &'a Block) -> Result<Vec<&'a PlacedName>, AllocError>
    ensures { IfOk result (λ v. lent v.items ≡ spec.targets_of (with_inside body.entry.now)) }
{
    let items = items_of_body(alloc, body)?;
    targets_of(alloc, items.as_slice())
}

/// The names of these labels.
fn set_of(alloc: Global, labels: &[&PlacedName]) -> Result<NameMap<()>, AllocError>
    ensures { IfOk result (λ s. (n : Name) → has_name s n ≡ is_among n (map (λ l. l.name) (lent labels.now))) }
{
    let mut label_set = NameMap::new(alloc);
    for label in labels {
        label_set.set(alloc, &label.name, ())?;
    }
    Ok(label_set)
}

/// Those of the targets that are neither among the labels nor `Done`.
fn unknown<'a>(
    alloc: Global,
    labels: &[&PlacedName],
    targets: &[&'a PlacedName],
) -> Result<Vec<&'a PlacedName>, AllocError>
    ensures { IfOk result (λ v. lent v.items ≡ filter (λ t. not (is_among t.name (map (λ l. l.name) (lent labels.now)) || same_name t.name done)) (lent targets.now)) }
{
    let label_set = set_of(alloc, labels)?;
    let mut names = Vec::new(alloc);
    for target in targets {
        if !label_set.contains(&target.name) && !is_done(&target.name) {
            names.push(*target)?;
        }
    }
    Ok(names)
}

/// A `goto` that names neither a label of its archetype nor `Done`.
pub fn unknown_label(alloc: Global, a: &Archetype) -> Result<Option<Finding>, AllocError>
    ensures { IfOk result (λ f. f ≡ least (λ f. f.place) (spec.unknown_label a.now)) }
{
    let labels = body_labels(alloc, &a.body)?;
    let targets = body_targets(alloc, &a.body)?;
    let names = unknown(alloc, labels.as_slice(), targets.as_slice())?;
    least_finding(alloc, Rule::UnknownLabel, &a.name.name, names.as_slice())
}
