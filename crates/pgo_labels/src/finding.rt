// What a rule finds: a place and the refusal there.
ghost use Rattle.std.specs.Prelude.{◌≡◌, map, Some, IfOk, option_copied};
ghost use Rattle.pgo_labels.specs.Lent.{lent};
ghost use Rattle.pgo_syntax.specs.Least.{sooner_of, least};
ghost use Rattle.pgo_labels.specs.Findings.{error_of, found_at};

use crate::errors::LabelError;
use pgo_base::text::Text;
use pgo_syntax::name::PlacedName;
use std::alloc::{AllocError, Global};

/// Where a rule is broken: the offset of the first byte in the text, and the refusal.
#[derive(Drop)]
pub struct Finding {
    pub place: u32,
    pub error: LabelError,
}

/// The rules, in the order of their numbers.
#[derive(Clone, Copy)]
pub enum Rule {
    NeedsLabel,
    LabelHere,
    UnknownLabel,
    LabelTwice,
    ReservedDone,
    YieldRule,
    TooManyLabels,
}

/// Of two findings the one at the lesser place, of equal places the first.
pub fn sooner(first: Option<Finding>, second: Option<Finding>) -> Option<Finding>
    ensures { result ≡ sooner_of (λ f. f.place) first second }
{
    match (first, second) {
        (None, other) => other,
        (first, None) => first,
        (Some(first), Some(second)) => {
            if second.place < first.place {
                Some(second)
            } else {
                Some(first)
            }
        }
    }
}

/// Of two names the one at the lesser place, of equal places the first.
fn sooner_name<'a>(first: Option<&'a PlacedName>, second: &'a PlacedName) -> Option<&'a PlacedName>
    ensures { option_copied result ≡ sooner_of (λ n. n.place) (option_copied first.entry) (Some second.entry.now) }
{
    match first {
        None => Some(second),
        Some(first) => {
            if second.place < first.place {
                Some(second)
            } else {
                Some(first)
            }
        }
    }
}

/// The name at the least place.
fn least_name<'a>(names: &[&'a PlacedName]) -> Option<&'a PlacedName>
    ensures { option_copied result ≡ least (λ n. n.place) (lent names.now) }
{
    let mut found = None;
    for name in names {
        found = sooner_name(found, name);
    }
    found
}

/// The refusal of a rule, of the names that it shows.
fn error_of_rule(
    alloc: Global,
    rule: Rule,
    owner: &Text,
    label: &Text,
) -> Result<LabelError, AllocError>
    ensures { IfOk result (λ e. e ≡ error_of rule owner.now label.now) }
{
    let archetype = owner.copy(alloc)?;
    let label = label.copy(alloc)?;
    match rule {
        Rule::NeedsLabel => Ok(LabelError::NeedsLabel {
            archetype,
            after: label,
        }),
        Rule::LabelHere => Ok(LabelError::LabelHere { archetype, label }),
        Rule::UnknownLabel => Ok(LabelError::UnknownLabel { archetype, label }),
        Rule::LabelTwice => Ok(LabelError::LabelTwice { archetype, label }),
        Rule::ReservedDone => Ok(LabelError::ReservedDone { archetype }),
        Rule::YieldRule => Ok(LabelError::YieldRule { mapping: archetype }),
        Rule::TooManyLabels => Ok(LabelError::TooManyLabels { archetype }),
    }
}

/// What a rule finds at a place, with the names that it shows.
pub fn make_finding(
    alloc: Global,
    rule: Rule,
    place: u32,
    owner: &Text,
    label: &Text,
) -> Result<Finding, AllocError>
    ensures { IfOk result (λ f. f ≡ found_at place (error_of rule owner.now label.now)) }
{
    let error = error_of_rule(alloc, rule, owner, label)?;
    Ok(Finding { place, error })
}

/// What the rule finds at the first of these labels, in the order of their places.
pub fn least_finding(
    alloc: Global,
    rule: Rule,
    owner: &Text,
    names: &[&PlacedName],
) -> Result<Option<Finding>, AllocError>
    ensures { IfOk result (λ f. f ≡ least (λ f. f.place) (map (λ n. found_at n.place (error_of rule owner.now n.name)) (lent names.now))) }
{
    match least_name(names) {
        None => Ok(None),
        Some(name) => {
            let found = make_finding(alloc, rule, name.place, owner, &name.name)?;
            Ok(Some(found))
        }
    }
}
