// Primed names and UNCHANGED: the variables of the next state.
ghost use Rattle.std.specs.Prelude.{◌≡◌, Some, option_map, option_and_then};
ghost use Rattle.pgo_base.specs.View.{data_of};
ghost use Rattle.pgo_model.specs.Operators.{from_truth};
ghost use Rattle.pgo_model.specs.Val.{value_of_primed, same_variable, same_variables};
ghost use Rattle.pgo_eval.specs.HeldView.{held_data};
ghost use Rattle.pgo_eval.specs.ScopeView.{scope_view};

use crate::answers::from_truth;
use crate::held::Held;
use crate::scope::Scope;
use pgo_base::compare::compare;
use pgo_base::scope::{Around, State};
use pgo_base::text::Text;
use pgo_base::value::Value;

/// A primed name is a variable of the next state.
pub fn primed_value<'a>(x: &Text, s: &Scope<'_, '_, 'a>) -> Option<Held<'a>>
    ensures { option_map held_data result ≡ value_of_primed x.now (scope_view s.now) }
{
    match s.around.next {
        Some(next) => next.find(x).map(Held::Lent),
        None => None,
    }
}

/// UNCHANGED: whether all of these have the same value in both states.
pub fn unchanged_value(names: &[Text], s: &Scope<'_, '_, '_>) -> Option<Value>
    ensures { option_map data_of result ≡ option_and_then (λ next. from_truth (same_variables names.now s.now.around.state.now next)) (scope_view s.now).next }
{
    match s.around.next {
        Some(next) => from_truth(same_variables(names, &s.around, next)),
        None => None,
    }
}

/// Whether all of these have the same value in both states, where all are variables of both. Each is looked for first behind
/// the one before it.
fn same_variables(names: &[Text], around: &Around<'_>, next: &State) -> Option<bool>
    requires { around.now.next ≡ Some next }
    ensures { result ≡ same_variables names.now around.now.state.now next.now }
{
    let mut all = true;
    let mut place = 0;
    for x in names {
        match same_variable(x, around, next, place) {
            None => return None,
            Some((same, behind)) => {
                all = all && same;
                place = behind;
            }
        }
    }
    Some(all)
}

/// Whether a variable has the same value in both states, where it is a variable of both, and the place behind it. It is
/// looked for at this place first. Where it is known that both have the same at its place, nothing is compared.
fn same_variable(x: &Text, around: &Around<'_>, next: &State, place: usize) -> Option<(bool, usize)>
    requires { around.now.next ≡ Some next }
    ensures { option_map (λ r. r.0) result ≡ same_variable around.now.state.now next.now x.now }
{
    let Some((i, v)) = around.state.find_near(x, place) else {
        return None;
    };
    let behind = i.saturating_add(1);
    if around.is_kept(i) {
        return Some((true, behind));
    }
    match next.find_near(x, i) {
        Some((_, w)) => Some((compare(v, w).is_eq(), behind)),
        None => None,
    }
}
