// Rule 2: a label stands where none may: in a `with`, a macro or a mapping macro.
ghost use Rattle.std.specs.Prelude.{◌≡◌, ◌++◌, map, flat_map, IfOk};
ghost use Rattle.pgo_syntax.specs.StatementView.{statement};
ghost use Rattle.pgo_labels.specs.LabelHere as spec;
ghost use Rattle.pgo_syntax.specs.Least.{least};
ghost use Rattle.pgo_labels.specs.Lent.{lent};
ghost use Rattle.pgo_labels.specs.Parts.{see};

use crate::finding::{Finding, Rule, least_finding};
use crate::items::{Item, items_in, items_of_body};
use crate::names::{body_labels, labels_of};
use pgo_syntax::archetype::Archetype;
use pgo_syntax::macros::{Macro, MappingMacro};
use pgo_syntax::name::PlacedName;
use pgo_syntax::statement::Stmt;
use std::alloc::{AllocError, Global};

/// Adds the labels within a `with`.
fn add_labels_in_with<'a>(
    names: &mut Vec<&'a PlacedName>,
    alloc: Global,
    s: &'a Stmt,
) -> Result<(), AllocError>
    ensures { IfOk result (λ _. lent names.new.items ≡ lent names.old.items ++ spec.labels_in_with (statement s.now)) }
{
    match s {
        Stmt::With(..) => {
            let items = items_in(alloc, s)?;
            let labels = labels_of(alloc, items.as_slice())?;
            names.extend_from_slice(labels.as_slice())
        }
        _ => Ok(()),
    }
}

/// The labels within the `with`s among these statements.
fn labels_in_with<'a>(alloc: Global, items: &[Item<'a>]) -> Result<Vec<&'a PlacedName>, AllocError>
    ensures { IfOk result (λ v. lent v.items ≡ flat_map (λ i. spec.labels_in_with i.1) (map see items.now)) }
{
    let mut names = Vec::new(alloc);
    for item in items {
        add_labels_in_with(&mut names, alloc, item.statement())?;
    }
    Ok(names)
}

/// A label in a `with`.
pub fn label_in_with(alloc: Global, a: &Archetype) -> Result<Option<Finding>, AllocError>
    ensures { IfOk result (λ f. f ≡ least (λ f. f.place) (spec.label_in_with a.now)) }
{
    let items = items_of_body(alloc, &a.body)?;
    let names = labels_in_with(alloc, items.as_slice())?;
    least_finding(alloc, Rule::LabelHere, &a.name.name, names.as_slice())
}

/// A label in a macro.
pub fn label_in_macro(alloc: Global, m: &Macro) -> Result<Option<Finding>, AllocError>
    ensures { IfOk result (λ f. f ≡ least (λ f. f.place) (spec.label_in_macro m.now)) }
{
    let names = body_labels(alloc, &m.body)?;
    least_finding(alloc, Rule::LabelHere, &m.name.name, names.as_slice())
}

/// A label in a mapping macro.
pub fn label_in_mapping(alloc: Global, m: &MappingMacro) -> Result<Option<Finding>, AllocError>
    ensures { IfOk result (λ f. f ≡ least (λ f. f.place) (spec.label_in_mapping m.now)) }
{
    let mut names = body_labels(alloc, &m.read)?;
    let written = body_labels(alloc, &m.write)?;
    names.extend_from_slice(written.as_slice())?;
    least_finding(alloc, Rule::LabelHere, &m.name.name, names.as_slice())
}
