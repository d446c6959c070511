// The settings of a run that its options give.
ghost use Rattle.std.specs.Prelude.{◌≡◌, ◌<◌, ◌^◌, false, option_map, ℕ, Some, decimal, IfOk, IfSome};
ghost use Rattle.pgo_syntax.specs.RecordView.{settings_view};
ghost use Rattle.pgo_words.specs.FailureItems.{FailuresOnly};
ghost use Rattle.pgo_words.specs.Parts.{now_of};
ghost use Rattle.pgo_words.specs.Reads.{NumberOnly, SettingsOnly};
ghost use Rattle.pgo_words.specs.Settings as spec;

use crate::failures::failures_of;
use crate::numbers::{long_number, number};
use crate::options::Options;
use pgo_syntax::records::{Down, Settings};
use std::alloc::{AllocError, Global};

/// The most attempts, and the most steps.
const MOST: u32 = 100_000;
/// Attempts and steps where they aren't given.
const DEFAULT: u32 = 10_000;

/// The settings where no options are given. This project's choice.
pub fn default_settings(alloc: Global) -> Settings
    ensures view { settings_view result ≡ spec.default_settings }
    ensures unparked { result.park ≡ false }
{
    Settings {
        seed: 0,
        attempts: DEFAULT,
        steps: DEFAULT,
        down: Down::new(alloc),
        park: false,
    }
}

/// The settings that the options give, where blocked instances wait or not; none where a value is no number, or one too large, or no
/// list of pre-commits.
pub fn read_settings(
    alloc: Global,
    options: &Options,
    park: bool,
) -> Result<Option<Settings>, AllocError>
    ensures only { IfOk result (λ o. SettingsOnly options.now (option_map settings_view o)) }
    ensures parks { IfOk result (λ o. IfSome o (λ s. s.park ≡ park)) }
{
    match failures_of(alloc, options.fail)? {
        Some(down) => Ok(settings_with(options, down, park)),
        None => Ok(None),
    }
}

/// The settings with the pre-commits that the options set to fail; none where a value is no number, or one too large.
fn settings_with(options: &Options, down: Down, park: bool) -> Option<Settings>
    requires { FailuresOnly (now_of options.now.fail) (Some down) }
    ensures only { SettingsOnly options.now (option_map settings_view result) }
    ensures parks { IfSome result (λ s. s.park ≡ park) }
{
    let seed = seed_of(options.seed)?;
    let attempts = count_of(options.attempts)?;
    let steps = count_of(options.steps)?;
    Some(Settings {
        seed,
        attempts,
        steps,
        down,
        park,
    })
}

/// The seed with this value, 0 where there is none.
fn seed_of(value: Option<&str>) -> Option<u64>
    ensures { NumberOnly 0 (2 ^ 64) (now_of value.entry) result }
{
    match value {
        Some(text) => long_number(text),
        None => Some(0),
    }
}

/// The number of attempts, or of steps, with this value, 10,000 where there is none.
fn count_of(value: Option<&str>) -> Option<u32>
    ensures { NumberOnly 10000 100001 (now_of value.entry) result }
{
    match value {
        Some(text) => count(text),
        None => Some(DEFAULT),
    }
}

/// A number of at most 100,000.
fn count(text: &str) -> Option<u32>
    ensures some { IfSome result (λ n. (text.now ≡ decimal n) × (n < 100001)) }
    ensures found { (n : ℕ) → n < 100001 → text.now ≡ decimal n → result ≡ Some n }
{
    let n = number(text)?;
    if n <= MOST { Some(n) } else { None }
}
