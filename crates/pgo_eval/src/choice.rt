// All choices of a member for each of several names, one after another.
ghost use Rattle.std.specs.Prelude.{◌≡◌, ℕ, ◌+◌, ◌<◌, ◌≤◌, length, true, false, ◌∷◌, not, nat_lt};
ghost use Rattle.pgo_model.specs.FunctionSets.{choice_count};
ghost use Rattle.pgo_model.specs.Operators.{most_members, choices};
ghost use Rattle.pgo_eval.specs.Choices.{over_bound, sets_of, AreAt, has_empty, chosen, left, still_left, at_place};

use pgo_base::bindings::BoundName;
use pgo_sets::build::MOST_MEMBERS;

/// Goes to the first choice, if there is one: where each set has a member.
pub fn start(bound: &mut Vec<BoundName>) -> bool
    ensures at { result ≡ true → AreAt bound.new.items }
    ensures over { over_bound bound.new.items ≡ over_bound bound.old.items }
    ensures left { still_left result bound.new.items ≡ choices (sets_of bound.old.items) }
{
    start_all(bound)
}

/// Goes on to the next choice, where the last name goes on first. Where there is none each name is back at the first
/// member of its set, and the answer is false.
pub fn advance(bound: &mut Vec<BoundName>) -> bool
    requires { AreAt bound.old.items }
    ensures at { AreAt bound.new.items }
    ensures over { over_bound bound.new.items ≡ over_bound bound.old.items }
    ensures left { left bound.old.items ≡ chosen bound.old.items ∷ still_left result bound.new.items }
{
    advance_last(bound)
}

/// Each name goes to the first place of its set; the answer is whether all sets have a member.
fn start_all(bound: &mut [BoundName]) -> bool
    ensures at { result ≡ true → AreAt bound.new }
    ensures over { over_bound bound.new ≡ over_bound bound.old }
    ensures left { still_left result bound.new ≡ choices (sets_of bound.old) }
{
    for i in 0..bound.len() {
        bound[i].at = 0;
    }
    !has_empty(bound)
}

/// Whether some name's set has no member, so that there is no choice.
fn has_empty(bound: &[BoundName]) -> bool
    ensures { result ≡ has_empty bound.now }
{
    for b in bound {
        if b.set.len() == 0 {
            return true;
        }
    }
    false
}

/// The last name that isn't at its last member goes on, and those behind it start anew.
fn advance_last(bound: &mut [BoundName]) -> bool
    requires { AreAt bound.old }
    ensures at { AreAt bound.new }
    ensures over { over_bound bound.new ≡ over_bound bound.old }
    ensures left { left bound.old ≡ chosen bound.old ∷ still_left result bound.new }
{
    let mut i = bound.len();
    while i > 0 {
        i -= 1;
        if step(&mut bound[i]) {
            return true;
        }
    }
    false
}

/// Goes on to the next member of the name's set, or back to the first.
fn step(b: &mut BoundName) -> bool
    requires { b.old.at < length b.old.set }
    ensures goes_on { result ≡ true → (b.old.at + 1 < length b.old.set) × (b.new ≡ at_place (b.old.at + 1) b.old) }
    ensures starts_anew { result ≡ false → (length b.old.set ≤ b.old.at + 1) × (b.new ≡ at_place 0 b.old) }
{
    if b.set.len() - b.at > 1 {
        b.at += 1;
        true
    } else {
        b.at = 0;
        false
    }
}

/// Whether there are at most 65,536 choices.
pub fn are_few(bound: &[BoundName]) -> bool
    ensures { result ≡ not (nat_lt most_members (choice_count (sets_of bound.now))) }
{
    has_empty(bound) || is_product_few(bound)
}

/// The same, where each set has a member.
fn is_product_few(bound: &[BoundName]) -> bool
    requires { has_empty bound.now ≡ false }
    ensures { result ≡ not (nat_lt most_members (choice_count (sets_of bound.now))) }
{
    let mut count = 1;
    for b in bound {
        let n = b.set.len();
        if n > MOST_MEMBERS {
            return false;
        }
        count *= n;
        if count > MOST_MEMBERS {
            return false;
        }
    }
    true
}
