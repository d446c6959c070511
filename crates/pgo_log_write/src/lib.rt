// The bundle of a run, and its status.
#![tactic(auto)]

ghost use Rattle.std.specs.Prelude.{◌≡◌, List, true, decimal};
ghost use Rattle.pgo_model.specs.Bundle.{kind_text, record_fields};
ghost use Rattle.pgo_model.specs.Outcome.{Many, most_leaves};
ghost use Rattle.pgo_model.specs.System.{Resource};
ghost use Rattle.pgo_syntax.specs.ManyLeaves.{tells_many};
ghost use Rattle.pgo_syntax.specs.RecordView.{result_view};
ghost use Rattle.pgo_syntax.specs.declared.records.AttemptResult.{AttemptResult};
ghost use Rattle.pgo_log_write.specs.Leaves.{result_fields};

mod accounts;
mod entries;
mod line;
pub mod log;
mod run;
pub mod status;
mod words;
pub mod write;

/// What a bundle says of an attempt that found Many.
///
/// - `number`: what stands there is the number of leaves that an attempt tries at most, in decimal.
/// - `own`: so the fields of a record that tells Many as it should are those of its own numbers.
pub fn leaves_are_written()
    ensures number { kind_text Many ≡ decimal most_leaves }
    ensures own { (rs : List Resource) (r : AttemptResult) → tells_many r ≡ true → result_fields rs r ≡ record_fields rs (result_view r) }
{}
