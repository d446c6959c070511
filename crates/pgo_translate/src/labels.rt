// The actions of labels.
ghost use Rattle.std.specs.Prelude.{◌≡◌, ◌∷◌, ◌++◌, [], List, reverse, IfOk};
ghost use Rattle.pgo_base.specs.ActionView.{action_pair};
ghost use Rattle.pgo_base.specs.Tree.{Tree, cond_of};
ghost use Rattle.pgo_model.specs.Module as written;
ghost use Rattle.pgo_pluscal.specs.PartView.{expansions, ending_of};
ghost use Rattle.pgo_translate.specs.Items as spec;
ghost use Rattle.pgo_translate.specs.ModuleOf.{label_actions};

use crate::ends::{Ended, end_items};
use crate::rows::{one, row_items};
use crate::trees::copy_of;
use pgo_base::expr::{Expr, Sub};
use pgo_base::module::{Action, Actions};
use pgo_base::results::both;
use pgo_base::text::Text;
use pgo_module_trees::joined::{all_of, any_of};
use pgo_module_trees::small::place_is;
use pgo_pluscal::part::{Ending, Part};
use std::alloc::{AllocError, Global};

/// `IF e THEN a ELSE b` as the one item.
fn if_items(
    alloc: Global,
    e: Result<Sub, AllocError>,
    a: Result<Sub, AllocError>,
    b: Result<Sub, AllocError>,
) -> Result<Vec<Sub>, AllocError>
    ensures { (s t u : Tree) → IfOk e (λ x. x ≡ s) → IfOk a (λ x. x ≡ t) → IfOk b (λ x. x ≡ u) → IfOk result (λ v. reverse v.items ≡ cond_of s t u ∷ []) }
{
    let (e, (a, b)) = both(e, both(a, b))?;
    one(alloc, Sub::new(alloc, Expr::If(e, a, b))?)
}

/// The disjunction of these as the one item; of these the last stands first.
fn either_items(alloc: Global, arms: Result<Vec<Sub>, AllocError>) -> Result<Vec<Sub>, AllocError>
    ensures { (ts : List Tree) → IfOk arms (λ v. v.items ≡ ts) → IfOk result (λ v. reverse v.items ≡ written.any_of ts ∷ []) }
{
    let mut arms = arms?;
    arms.reverse();
    one(alloc, any_of(alloc, arms)?)
}

/// What each arm says.
#[cycle(labels)]
fn arm_bodies(
    alloc: Global,
    variables: &[Text],
    globals: &[Text],
    arms: &[Part],
) -> Result<Vec<Sub>, AllocError>
    ensures { IfOk result (λ v. v.items ≡ spec.arm_trees variables.now globals.now (expansions arms.now)) }
{
    let mut bodies = Vec::new(alloc);
    for arm in arms {
        bodies.push(body(alloc, variables, globals, arm)?)?;
    }
    Ok(bodies)
}

/// The items of how a part ends, of which the last stands first.
#[cycle(labels)]
fn ending_items(
    alloc: Global,
    variables: &[Text],
    globals: &[Text],
    ending: &Ending,
) -> Result<Vec<Sub>, AllocError>
    ensures { IfOk result (λ v. reverse v.items ≡ spec.items variables.now globals.now (ending_of ending.now)) }
{
    match ending {
        Ending::If(e, a, b) => {
            let a = body(alloc, variables, globals, a);
            let b = body(alloc, variables, globals, b);
            if_items(alloc, copy_of(alloc, e), a, b)
        }
        Ending::Either(arms) => {
            either_items(
                alloc,
                arm_bodies(alloc, variables, globals, arms.as_slice()),
            )
        }
        Ending::End(changes, label) => {
            let changes = changes.as_slice();
            end_items(alloc, variables, globals, &Ended { changes, label })
        }
    }
}

/// The items of a part, of which the last stands first.
#[cycle(labels)]
fn part_items(
    alloc: Global,
    variables: &[Text],
    globals: &[Text],
    part: &Part,
) -> Result<Vec<Sub>, AllocError>
    ensures { IfOk result (λ v. reverse v.items ≡ spec.items variables.now globals.now part.now) }
{
    let opened = part.open();
    let rest = ending_items(alloc, variables, globals, opened.ending)?;
    row_items(alloc, opened.steps, rest)
}

/// What a part says: all its items.
#[cycle(labels)]
fn body(alloc: Global, variables: &[Text], globals: &[Text], part: &Part) -> Result<Sub, AllocError>
    ensures { IfOk result (λ s. s ≡ written.all_of (spec.items variables.now globals.now part.now)) }
{
    let items = part_items(alloc, variables, globals, part)?;
    all_of(alloc, items)
}

/// A label's action.
#[tactic(auto, using(crate::proofs::RowLaws::reversed_more))]
fn action_body(
    alloc: Global,
    variables: &[Text],
    globals: &[Text],
    label: &Text,
    part: &Part,
) -> Result<Sub, AllocError>
    ensures { IfOk result (λ s. s ≡ spec.action_body variables.now globals.now label.now part.now) }
{
    let mut items = part_items(alloc, variables, globals, part)?;
    items.push(place_is(alloc, label.as_bytes())?)?;
    all_of(alloc, items)
}

/// The actions of labels, in order.
pub fn actions(
    alloc: Global,
    variables: &[Text],
    globals: &[Text],
    labels: &[(Text, Part)],
) -> Result<Actions, AllocError>
    ensures { IfOk result (λ list. list ≡ label_actions variables.now globals.now labels.now) }
{
    let mut list = Actions::new(alloc);
    for label in labels {
        let name = label.0.copy(alloc)?;
        let body = action_body(alloc, variables, globals, &label.0, &label.1)?;
        list.push(Action { name, body })?;
    }
    Ok(list)
}
