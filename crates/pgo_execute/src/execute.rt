// A specification's text, run.
ghost use Rattle.std.specs.Prelude.{Err, IfOk, IfErr};
ghost use Rattle.pgo_accept.specs.Answers.{GivesExpansion};
ghost use Rattle.pgo_execute.specs.Accepts.{IsJudged};
ghost use Rattle.pgo_execute.specs.Executes.{Executes};
ghost use Rattle.pgo_execute.specs.Schedules.{Threads, schedule_view};
ghost use Rattle.pgo_log_text.specs.IsBundle.{AreCanonical};
ghost use Rattle.pgo_syntax.specs.RecordView.{settings_view};

use crate::run::expanded_run;
use crate::schedule::Schedule;
use crate::threads::expanded_on_threads;
use pgo_accept::accept::accept;
use pgo_accept::errors::Rejection;
use pgo_agrees::{premises_hold, texts_are_accepted};
use pgo_base::consts::Consts;
use pgo_base::text::Text;
use pgo_expand::expand::expand;
use pgo_pluscal::pluscal::PlusCal;
use pgo_syntax::bound::Bound;
use pgo_syntax::records::Settings;
use pgo_threads::gate::Gate;
use std::alloc::Global;
use std::sync::Wait;
use std::thread::Threads;

/// What a run writes, and its status: 0, 20, 21, 22 or 23.
#[derive(Drop)]
pub struct Executed {
    pub text: Text,
    pub status: u8,
}

/// What a text is bound to with these constants, and its expansion; or the first refusal of syntax, names, labels, binding and the limits of
/// its expansion.
fn judged(alloc: Global, text: &[u8], consts: &Consts) -> Result<(Bound, PlusCal), Rejection>
    ensures judged { IfOk result (λ t. IsJudged text.now consts.now t.0 t.1) }
    ensures refused { IfErr result (λ e. GivesExpansion text.now consts.now (Err e)) }
{
    texts_are_accepted();
    premises_hold();
    match accept(alloc, text, consts) {
        Ok(bound) => match expand(alloc, &bound.spec) {
            Ok(expanded) => Ok((bound, expanded)),
            Err(stop) => Err(Rejection::Expand(stop)),
        },
        Err(rejection) => Err(rejection),
    }
}

/// Runs, on one thread and under this schedule, the one specification that a text spells, with these constants, and gives the bundle of
/// the run; else the first refusal of syntax, names, labels, binding and the limits of its expansion. Or there was no memory.
///
/// The status is 20 where some instance's last record is a note without a retry (no value, or a failed assertion); else 23 where
/// some instance's last record is that the journal is full; else 0 where every instance is at Done; else 21.
///
/// Its condition is that texts spell the constants' values: integers have 64 bits, strings have newlines, tabs and bytes 32 to 126
/// alone, model values are identifiers of at most 512 bytes, sets and functions have at most 65,536 members, and they are at most
/// 1,024 deep.
///
/// Source: Modular PlusCal; the core, its schedules and the form of bundles are this project's choice.
pub fn execute(
    alloc: Global,
    text: &[u8],
    consts: &Consts,
    settings: &Settings,
    schedule: &Schedule,
) -> Result<Executed, Rejection>
    requires constants { AreCanonical consts.now }
    ensures ok { IfOk result (λ r. Executes text.now consts.now (settings_view settings.now) (schedule_view schedule.now) r.status r.text) }
    ensures refused { IfErr result (λ e. GivesExpansion text.now consts.now (Err e)) }
{
    match judged(alloc, text, consts) {
        Ok((bound, expanded)) => {
            match expanded_run(alloc, &bound, &expanded, consts, settings, schedule) {
                Ok(executed) => Ok(executed),
                Err(_) => Err(Rejection::NoMemory),
            }
        }
        Err(rejection) => Err(rejection),
    }
}

/// Runs the one specification that a text spells, as `execute` does, but each instance in a thread of its own, until each has ended. The gate
/// is called before each turn of an instance, and once more when it has ended. Its conditions are those of `execute`. Bundle and status depend
/// on the schedule of the threads, which nothing here says; a record may be that another instance held the journal. Where the system gives no
/// thread for an instance, it runs behind others, so a gate mustn't wait for another instance without end.
///
/// With `park` of the settings, an instance whose attempt was blocked parks until another commits or ends, unless every other one has ended or
/// is parked; it changes no record. That this returns isn't said then.
///
/// Err comes as for `execute`; want of memory besides where an instance has made 2^64 - 1 turns.
///
/// Source: Modular PlusCal; instances as retried transactions and the form of bundles are this project's choice.
pub fn execute_on_threads<T: Threads + Wait + Sync, G: Gate + Sync>(
    rt: &T,
    alloc: Global,
    text: &[u8],
    consts: &Consts,
    settings: &Settings,
    gate: &G,
) -> Result<Executed, Rejection>
    requires constants { AreCanonical consts.now }
    ensures ok { IfOk result (λ r. Executes text.now consts.now (settings_view settings.now) Threads r.status r.text) }
    ensures refused { IfErr result (λ e. GivesExpansion text.now consts.now (Err e)) }
{
    match judged(alloc, text, consts) {
        Ok((bound, expanded)) => {
            match expanded_on_threads(rt, alloc, &bound, &expanded, consts, settings, gate) {
                Ok(executed) => Ok(executed),
                Err(_) => Err(Rejection::NoMemory),
            }
        }
        Err(rejection) => Err(rejection),
    }
}
