// Verdicts on bundles, and what they are on the bundles of runs.
#![tactic(auto)]

ghost use Rattle.std.specs.Prelude.{◌≡◌, ℕ, List};
ghost use Rattle.pgo_base.specs.Data.{Data};
ghost use Rattle.pgo_base.specs.Lookup.{Name};
ghost use Rattle.pgo_execute.specs.Executes.{Executes};
ghost use Rattle.pgo_execute.specs.Schedules.{Schedule};
ghost use Rattle.pgo_check.specs.declared.verdict.Verdict.{Verdict};
ghost use Rattle.pgo_migrate.specs.Migrates.{Migrates};
ghost use Rattle.pgo_model.specs.Core.{Settings};
ghost use Rattle.pgo_verdicts.specs.Judged.{Judged};
ghost use Rattle.pgo_verdicts.specs.Runs.{Runs};

use pgo_bundle::run_logs_are_checked;

pub mod judge;

/// What a run writes has no other verdict than that it is a run.
pub fn runs_are_accepted()
    ensures { (text : List ℕ) (consts : List (Name × Data)) (settings : Settings) (schedule : Schedule) (status : ℕ) (written : List ℕ) →
        Executes text consts settings schedule status written → Runs text consts settings schedule status written }
{
    run_logs_are_checked();
}

/// A bundle of version 1, and the bundle of version 2 that it is brought over to (`Migrates` of pgo_migrate), have one verdict.
///
/// Source: this project's choice.
pub fn migrations_are_judged_alike()
    ensures { (text written : List ℕ) (v w : Verdict) → Migrates text written → Judged text v → Judged written w → v ≡ w }
{}
