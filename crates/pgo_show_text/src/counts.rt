// How many attempts came to what.
ghost use Rattle.std.specs.Prelude.{◌≡◌, map};
ghost use Rattle.pgo_bundle.specs.View.{account_view, attempt_view};
ghost use Rattle.pgo_show_text.specs.Facts as spec;

use crate::alike::{is_alike, is_blocked, is_refused, is_step};
use pgo_bundle::log::{Account, Attempt};

/// Which attempts are counted.
#[derive(Clone, Copy)]
pub enum Test {
    /// Those that are entries.
    Step,
    /// Those that were blocked.
    Blocked,
    /// Those that were refused.
    Refused,
}

/// Whether an attempt is counted.
fn passes(test: Test, attempt: &Attempt) -> bool
    ensures { result ≡ spec.passes test (attempt_view attempt.now) }
{
    match test {
        Test::Step => is_step(attempt),
        Test::Blocked => is_blocked(attempt),
        Test::Refused => is_refused(attempt),
    }
}

/// How many are counted.
#[tactic(auto, unfolding(crate::specs::Facts::count_by))]
pub fn count(test: Test, attempts: &[Attempt]) -> usize
    ensures { result ≡ spec.count_by (spec.passes test) (map attempt_view attempts.now) }
{
    let mut count = 0;
    for attempt in attempts {
        if passes(test, attempt) {
            count += 1;
        }
    }
    count
}

/// How many attempts these accounts have together; the count stands still at the end of its type.
#[tactic(auto, unfolding(crate::specs::Facts::attempts_behind))]
pub fn all_attempts(accounts: &[Account]) -> u64
    ensures { result ≡ spec.all_attempts (map account_view accounts.now) }
{
    let mut count: u64 = 0;
    for account in accounts {
        count = count.saturating_add(account.attempts.as_slice().len() as u64);
    }
    count
}

/// How many at the end came to the same as this one.
#[tactic(auto, unfolding(crate::specs::Facts::at_end_behind))]
pub fn at_end(one: &Attempt, attempts: &[Attempt]) -> usize
    ensures { result ≡ spec.at_end (attempt_view one.now) (map attempt_view attempts.now) }
{
    let mut count = 0;
    for attempt in attempts {
        if is_alike(one, attempt) {
            count += 1;
        } else {
            count = 0;
        }
    }
    count
}
