// A log is checked against a module, from its start on.
ghost use Rattle.std.specs.Prelude.{◌≡◌, ◌↔◌, length, map, IfOk};
ghost use Rattle.pgo_base.specs.View.{data_of};
ghost use Rattle.pgo_model.specs.IsRun.{IsRun};
ghost use Rattle.pgo_model.specs.LogView.{entry_view, log_view};
ghost use Rattle.pgo_model.specs.ModuleView.{module_view};
ghost use Rattle.pgo_check.specs.Assigned.{SeesItsDefinitions};
ghost use Rattle.pgo_model.specs.Steps.{IsPlaced};
ghost use Rattle.pgo_check.specs.Verdict.{Decides, Finds};

use crate::actions::begins;
use crate::definitions::Assigned;
use crate::errors::NoMemory;
use crate::lookup::places_of;
use crate::states::{Look, follow, step};
use crate::verdict::{Verdict, Why};
use pgo_base::consts::Consts;
use pgo_base::log::{Entry, Log};
use pgo_base::module::Module;
use pgo_base::scope::State;
use pgo_base::value::Value;
use std::alloc::{AllocError, Global};

/// The state before the first entry, of which it is known whether its names are different, as of each state behind it.
fn first_state(alloc: Global, start: &State) -> Result<State, AllocError>
    ensures { IfOk result (λ s. s ≡ start.now) }
{
    start.copy(alloc)?.names_once(alloc)
}

/// The place of the first entry that is no step, from 0, where there is one.
pub fn first_bad(
    alloc: Global,
    m: &Assigned<'_>,
    ids: &[Value],
    start: &State,
    entries: &[Entry],
) -> Result<Option<usize>, AllocError>
    requires { SeesItsDefinitions m.now }
    ensures found { IfOk result (λ o. Finds (module_view m.now.module.now) m.now.consts.now (map data_of ids.now) start.now (map entry_view entries.now) o) }
    ensures within { IfOk result (λ o. IsPlaced o (length entries.now)) }
{
    let places = places_of(alloc, start)?;
    let look = Look {
        m,
        defs: m.defs_in(start),
        ids,
        places: &places,
    };
    let mut before = first_state(alloc, start)?;
    let mut behind = before.copy(alloc)?;
    let mut kept = vec![in alloc; true; start.as_slice().len()]?;
    for (i, e) in entries.iter().enumerate() {
        match step(alloc, &look, &before, behind, e, kept.as_mut_slice())? {
            None => return Ok(Some(i)),
            Some(next) => {
                before = follow(alloc, &places, before, e)?;
                behind = next;
            }
        }
    }
    Ok(None)
}

/// Whether a log is a run of a module under these constants, and if not, where it first isn't.
///
/// The state before an entry is made from the one before it, and each entry is looked at once.
///
/// - `decides`: `Run` comes where the log is a run, and `Bad` with the first place that is no start or no step.
/// - `exact`: `Run` with the number of the entries comes exactly where the log is a run.
///
/// `NoMemory` comes where there is no memory, and leaves all as it was.
///
/// Source: Specifying Systems, for what a behavior of a module is; the places are this project's choice.
pub fn check(alloc: Global, m: &Module, consts: &Consts, log: &Log) -> Result<Verdict, NoMemory>
    ensures decides { let l = log_view log.now in IfOk result (λ v. Decides (module_view m.now) consts.now l.ids l.start l.entries v) }
    ensures exact { let l = log_view log.now in IfOk result (λ v. IsRun (module_view m.now) consts.now l.ids l.start l.entries ↔ v ≡ Verdict.Run (length l.entries)) }
{
    let m = Assigned::new(alloc, m, consts, &log.start)?;
    if !begins(alloc, &m, &log.start)? {
        return Ok(Verdict::Bad {
            at: 0,
            why: Why::NoInit,
        });
    }
    let entries = log.entries.as_slice();
    match first_bad(alloc, &m, log.ids.as_slice(), &log.start, entries)? {
        None => Ok(Verdict::Run {
            steps: entries.len() as u64,
        }),
        Some(p) => Ok(Verdict::Bad {
            at: p as u64 + 1,
            why: Why::NoStep,
        }),
    }
}
