// The verdict on a text.
ghost use Rattle.std.specs.Prelude.{◌≡◌, length, IfOk, IfErr};
ghost use Rattle.pgo_bundle.specs.BundleLog.{checked_log};
ghost use Rattle.pgo_bundle.specs.View.{bundle_log_view};
ghost use Rattle.pgo_log_text.specs.LineNumbers.{NamesLineOf};
ghost use Rattle.pgo_log_text.specs.ReadBundle.{IsRefused, NamesUntied};
ghost use Rattle.pgo_check.specs.Verdict.{Decides};
ghost use Rattle.pgo_model.specs.ModuleView.{module_view};
ghost use Rattle.pgo_verdicts.specs.Judged.{Judged};

use pgo_base::consts::Consts;
use pgo_base::module::Module;
use pgo_bundle::log::BundleLog;
use pgo_check::verdict::Verdict;
use pgo_check_par::checker::check_par;
use pgo_log_text::bundle_reader::read_bundle;
use pgo_log_text::errors::LogStop;
use std::alloc::{AllocError, Global};
use std::thread::Threads;

/// The verdict on a bundle, and the number of its instances.
#[derive(Clone, Copy)]
pub struct Judgement {
    pub verdict: Verdict,
    pub instances: usize,
}

/// The verdict on a log, and the number of its instances.
fn judge_log<T: Threads + Sync>(
    rt: &T,
    alloc: Global,
    m: &Module,
    consts: &Consts,
    bundle: BundleLog,
) -> Result<Judgement, AllocError>
    ensures decides { let l = checked_log (bundle_log_view bundle) in IfOk result (λ j. Decides (module_view m.now) consts.now l.ids l.start l.entries j.verdict) }
    ensures instances { IfOk result (λ j. j.instances ≡ length (bundle_log_view bundle).accounts) }
{
    let log = bundle.into_log(alloc)?;
    match check_par(rt, alloc, m, consts, &log) {
        Ok(verdict) => Ok(Judgement {
            verdict,
            instances: log.ids.as_slice().len(),
        }),
        Err(_) => Err(AllocError),
    }
}

/// The verdict on the log of the bundle that the text is. A long log is checked by several threads at the same time.
///
/// - `BadLog` comes where the text is no bundle, with the line that `read_bundle` names.
/// - `NoMemory` comes where there is no memory.
///
/// Source: this project's choice.
pub fn judge<T: Threads + Sync>(rt: &T, alloc: Global, text: &[u8]) -> Result<Judgement, LogStop>
    ensures judged { IfOk result (λ j. (d : Judged text.now j.verdict) × (j.instances ≡ length d.log.accounts)) }
    ensures refused { IfErr result (IsRefused text.now) }
    ensures line { IfErr result (NamesLineOf text.now) }
    ensures untied { IfErr result (NamesUntied text.now) }
{
    let (module, consts, bundle) = read_bundle(alloc, text)?;
    match judge_log(rt, alloc, &module, &consts, bundle) {
        Ok(judgement) => Ok(judgement),
        Err(_) => Err(LogStop::NoMemory),
    }
}
