// The log of a bundle: what its text says, and where its records aren't tied to its entries and notes.
#![tactic(auto)]

ghost use Rattle.std.specs.Prelude.{◌≡◌, ◌<◌, ℕ, Bool, Some, None, length};
ghost use Rattle.pgo_bundle.specs.BundleLog.{BundleLog, Two, checked_log};
ghost use Rattle.pgo_bundle.specs.Lines.{log_lines};
ghost use Rattle.pgo_bundle.specs.Migrated.{migrated};
ghost use Rattle.pgo_bundle.specs.Places.{IsLineAt, lines_before};
ghost use Rattle.pgo_bundle.specs.RunLog.{log_of, run_log};
ghost use Rattle.pgo_bundle.specs.Tied.{IsTied};
ghost use Rattle.pgo_model.specs.Accounts.{Accounts};
ghost use Rattle.pgo_model.specs.Core.{Reaches, Settings, rules_of};
ghost use Rattle.pgo_model.specs.Log.{Effect};
ghost use Rattle.pgo_model.specs.Machine.{Finished, nth};
ghost use Rattle.pgo_model.specs.ModuleText.{Line};
ghost use Rattle.pgo_model.specs.System.{System};
ghost use Rattle.pgo_bundle.specs.Untied.{Untied, untied_at};

mod claims;
pub mod log;
mod noted;
pub mod places;
pub mod positions;
pub mod untied;

/// A log that is brought over (`migrated`) has version 2, and the same identifiers, start and entries: it is a run where the log was one.
pub fn migrated_logs()
    ensures version { (l : BundleLog) → (migrated l).version ≡ Two }
    ensures checked { (l : BundleLog) → checked_log (migrated l) ≡ checked_log l }
{}

/// A log is untied nowhere (`untied_at`) exactly where its records are tied to its entries and its notes (`IsTied`): entry i is attempt a of
/// instance k exactly where k's record a is `step i`; a note of k, a and this kind has p entries before it exactly where k's record a
/// says so, each once; and numbers rise.
pub fn tied_logs()
    ensures tied { (l : BundleLog) → untied_at l ≡ None → IsTied l }
    ensures untied { (l : BundleLog) → IsTied l → untied_at l ≡ None }
{}

/// Before the line of a record, of an entry or of a note (`IsLineAt`) so many lines stand in a log's text (`lines_before`).
pub fn places_are_lines()
    ensures { (l : BundleLog) (u : Untied) (x : Line) → IsLineAt l u x → nth (log_lines l) (lines_before l u) ≡ Some x }
{}

/// The place where a log isn't tied has a line in the log's text: of one of version 2, and of one that isn't tied when it is brought over.
pub fn untied_lines()
    ensures two { (l : BundleLog) (u : Untied) → l.version ≡ Two → untied_at l ≡ Some u → lines_before l u < length (log_lines l) }
    ensures migrated { (l : BundleLog) (u : Untied) → untied_at (migrated l) ≡ Some u → lines_before l u < length (log_lines l) }
{}

/// The log of a run is tied where the accounts of its instances (`Accounts` of pgo_model) tell what became of each attempt.
pub fn runs_are_tied()
    ensures { (y : System) (settings : Settings) (run : Bool) (f : Finished Effect) (status : ℕ) → ((k : ℕ) → Accounts (rules_of y settings) (Reaches y) run f k) → IsTied (run_log y settings f status) }
{}

/// What is checked of the log of a run (`checked_log` of its `run_log`) are the identifiers, the start and the entries of the run.
pub fn run_logs_are_checked()
    ensures { (y : System) (settings : Settings) (f : Finished Effect) (status : ℕ) → checked_log (run_log y settings f status) ≡ log_of y f.entries }
{}
