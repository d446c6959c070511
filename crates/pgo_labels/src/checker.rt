// Whether the labels of a specification stand where they must.
ghost use Rattle.std.specs.Prelude.{◌≡◌, map, flat_map, option_map, IfOk};
ghost use Rattle.pgo_syntax.specs.Least.{least};
ghost use Rattle.pgo_labels.specs.Refusal.{Answers, label_refusal, first_refusal};
ghost use Rattle.pgo_labels.specs.Rules as finds;

use crate::errors::LabelError;
use crate::finding::{Finding, Rule, sooner};
use crate::label_here::{label_in_macro, label_in_mapping, label_in_with};
use crate::label_twice::label_twice;
use crate::needs_label::needs_label;
use crate::reserved_done::reserved_done;
use crate::too_many_labels::too_many_labels;
use crate::unknown_label::unknown_label;
use crate::yield_rule::yield_rule;
use pgo_syntax::archetype::Archetype;
use pgo_syntax::macros::{Macro, MappingMacro};
use pgo_syntax::spec::Spec;
use std::alloc::{AllocError, Global};

/// The rules, in the order in which they are checked.
const RULES: [Rule; 7] = [
    Rule::NeedsLabel,
    Rule::LabelHere,
    Rule::UnknownLabel,
    Rule::LabelTwice,
    Rule::ReservedDone,
    Rule::YieldRule,
    Rule::TooManyLabels,
];

/// What a rule finds first in an archetype.
fn in_archetype(alloc: Global, rule: Rule, a: &Archetype) -> Result<Option<Finding>, AllocError>
    ensures { IfOk result (λ f. f ≡ least (λ f. f.place) (finds.in_archetype rule a.now)) }
{
    match rule {
        Rule::NeedsLabel => needs_label(alloc, a),
        Rule::LabelHere => label_in_with(alloc, a),
        Rule::UnknownLabel => unknown_label(alloc, a),
        Rule::LabelTwice => label_twice(alloc, a),
        Rule::ReservedDone => reserved_done(alloc, a),
        Rule::YieldRule => Ok(None),
        Rule::TooManyLabels => too_many_labels(alloc, a),
    }
}

/// What a rule finds first in archetypes.
fn in_archetypes(
    alloc: Global,
    rule: Rule,
    list: &[Archetype],
) -> Result<Option<Finding>, AllocError>
    ensures { IfOk result (λ f. f ≡ least (λ f. f.place) (flat_map (finds.in_archetype rule) list.now)) }
{
    let mut found = None;
    for a in list {
        let next = in_archetype(alloc, rule, a)?;
        found = sooner(found, next);
    }
    Ok(found)
}

/// The first label in macros.
fn label_in_macros(alloc: Global, list: &[Macro]) -> Result<Option<Finding>, AllocError>
    ensures { IfOk result (λ f. f ≡ least (λ f. f.place) (flat_map finds.label_in_macro list.now)) }
{
    let mut found = None;
    for m in list {
        let next = label_in_macro(alloc, m)?;
        found = sooner(found, next);
    }
    Ok(found)
}

/// The first label in mapping macros.
fn label_in_mappings(alloc: Global, list: &[MappingMacro]) -> Result<Option<Finding>, AllocError>
    ensures { IfOk result (λ f. f ≡ least (λ f. f.place) (flat_map finds.label_in_mapping list.now)) }
{
    let mut found = None;
    for m in list {
        let next = label_in_mapping(alloc, m)?;
        found = sooner(found, next);
    }
    Ok(found)
}

/// The first mapping macro that isn't as it must be.
fn yield_rule_in_mappings(
    alloc: Global,
    list: &[MappingMacro],
) -> Result<Option<Finding>, AllocError>
    ensures { IfOk result (λ f. f ≡ least (λ f. f.place) (flat_map finds.yield_rule list.now)) }
{
    let mut found = None;
    for m in list {
        let next = yield_rule(alloc, m)?;
        found = sooner(found, next);
    }
    Ok(found)
}

/// The first label that stands where none may.
fn label_here(alloc: Global, spec: &Spec) -> Result<Option<Finding>, AllocError>
    ensures { IfOk result (λ f. f ≡ least (λ f. f.place) (finds.in_spec Rule.LabelHere spec.now)) }
{
    let archetypes = in_archetypes(alloc, Rule::LabelHere, spec.archetypes.as_slice())?;
    let macros = label_in_macros(alloc, spec.macros.as_slice())?;
    let mappings = label_in_mappings(alloc, spec.mappings.as_slice())?;
    Ok(sooner(sooner(archetypes, macros), mappings))
}

/// What a rule finds first in a specification.
fn in_spec(alloc: Global, rule: Rule, spec: &Spec) -> Result<Option<Finding>, AllocError>
    ensures { IfOk result (λ f. f ≡ least (λ f. f.place) (finds.in_spec rule spec.now)) }
{
    match rule {
        Rule::LabelHere => label_here(alloc, spec),
        Rule::YieldRule => yield_rule_in_mappings(alloc, spec.mappings.as_slice()),
        _ => in_archetypes(alloc, rule, spec.archetypes.as_slice()),
    }
}

/// What the first of these rules that finds something finds first.
fn first_found(alloc: Global, rules: &[Rule], spec: &Spec) -> Result<Option<Finding>, AllocError>
    ensures { IfOk result (λ f. option_map (λ f. f.error) f ≡ first_refusal (map (λ r. finds.in_spec r spec.now) rules.now)) }
{
    for rule in rules {
        let found = in_spec(alloc, *rule, spec)?;
        if found.is_some() {
            return Ok(found);
        }
    }
    Ok(None)
}

/// Checks the rules of labels, and refuses a specification by the first rule that is broken, at the least place in the
/// text at which it is.
///
/// - `NeedsLabel`: a statement of an archetype's body has no label and is the body's first; or a `while`; or it stands,
///   in a block, behind a `goto`, behind an `if` or an `either` that holds a label or a `goto`, or behind a block or a
///   `with` that ends in one of these. So is a body without a statement, at the archetype's name.
/// - `LabelHere`: a label stands within a `with` of an archetype, or in a macro or a mapping macro.
/// - `UnknownLabel`: a `goto` names neither a label of its archetype nor `Done`.
/// - `LabelTwice`: an archetype has a label that stands before in it.
/// - `ReservedDone`: a label of an archetype is called `Done`.
/// - `YieldRule`: in a block of a mapping macro some path doesn't end in its one `yield`, or a `while`, a `goto`, a
///   `print` or a macro's call stands in it, or `$value` stands in an expression of its `read`.
/// - `TooManyLabels`: an archetype has more than 256 labels.
/// - `NoMemory`: there was no memory.
///
/// Statements one behind the other are walked by loops; what recurses does so by the nesting of statements and the
/// height of expressions.
///
/// Source: the PlusCal manual for where a label must or may not stand; the Modular PlusCal paper for `yield`; this
/// project's choice for the rest.
pub fn labels(alloc: Global, spec: &Spec) -> Result<(), LabelError>
    ensures { Answers (label_refusal spec.now) result }
{
    match first_found(alloc, &RULES, spec)? {
        None => Ok(()),
        Some(found) => Err(found.error),
    }
}
