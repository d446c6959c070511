// A log is checked against a module by several threads, each of which looks at a part of it.
ghost use Rattle.std.specs.Prelude.{◌≡◌, ◌↔◌, ◌≤◌, ◌<◌, length, map, All, IfOk};
ghost use Rattle.std.specs.List.{AllZip};
ghost use Rattle.pgo_base.specs.Lookup.{Vars};
ghost use Rattle.pgo_base.specs.View.{data_of};
ghost use Rattle.pgo_model.specs.IsRun.{IsRun};
ghost use Rattle.pgo_model.specs.Log.{StateAt};
ghost use Rattle.pgo_model.specs.LogView.{entry_view, log_view};
ghost use Rattle.pgo_model.specs.ModuleView.{module_view};
ghost use Rattle.pgo_model.specs.Steps.{IsPlaced};
ghost use Rattle.pgo_check.specs.Assigned.{SeesItsDefinitions};
ghost use Rattle.pgo_check.specs.Verdict.{Decides, Finds};
ghost use Rattle.pgo_check_par.specs.Parts.{FindsAt, FoundBy, scanned};

use crate::parts::{Part, between, parts_of};
use pgo_base::consts::Consts;
use pgo_base::log::{Entry, Log};
use pgo_base::module::Module;
use pgo_base::scope::State;
use pgo_base::value::Value;
use pgo_check::actions::begins;
use pgo_check::checker::{check, first_bad};
use pgo_check::definitions::Assigned;
use pgo_check::errors::NoMemory;
use pgo_check::verdict::{Verdict, Why};
use rayon::current_num_threads;
use rayon::prelude::*;
use std::alloc::{AllocError, Global};
use std::thread::Threads;

/// A log with fewer entries is checked in one thread.
const FEW_ENTRIES: usize = 1_000;

/// The entries of a log, with what they are checked against.
#[derive(Clone, Copy)]
pub struct Look<'a, 'm> {
    pub m: &'a Assigned<'m>,
    pub ids: &'a [Value],
    pub entries: &'a [Entry],
}

/// The place of the first entry of a part that is no step, from 0 at the first entry of the log.
fn first_bad_in(
    alloc: Global,
    look: &Look<'_, '_>,
    part: &Part,
) -> Result<Option<usize>, AllocError>
    requires sees { SeesItsDefinitions look.now.m.now }
    requires within { (part.now.from ≤ part.now.to) × (part.now.to ≤ length look.now.entries.now) }
    ensures { (s : Vars) → IfOk result (λ o. StateAt s (map entry_view look.now.entries.now) part.now.from ≡ Some part.now.start → FindsAt (module_view look.now.m.now.module.now) look.now.m.now.consts.now (map data_of look.now.ids.now) s (map entry_view look.now.entries.now) part.now.from part.now.to o) }
{
    let entries = between(look.entries, part.from, part.to);
    match first_bad(alloc, look.m, look.ids, &part.start, entries)? {
        None => Ok(None),
        Some(place) => Ok(Some(part.from + place)),
    }
}

/// What each part finds, in the order of the parts.
fn all_found<T: Threads + Sync>(
    rt: &T,
    alloc: Global,
    look: &Look<'_, '_>,
    parts: &[Part],
) -> Result<Vec<Result<Option<usize>, AllocError>>, AllocError>
    requires sees { SeesItsDefinitions look.now.m.now }
    requires within { All (λ p. (p.from ≤ p.to) × (p.to ≤ length look.now.entries.now)) parts.now }
    ensures { (s : Vars) → IfOk result (λ v. AllZip (FoundBy (module_view look.now.m.now.module.now) look.now.m.now.consts.now (map data_of look.now.ids.now) s (map entry_view look.now.entries.now)) parts.now v.items) }
{
    parts
        .par_iter()
        .with_min_len(1)
        .map(
            |part: &Part| -> Result<Option<usize>, AllocError>
                requires { (part.now.from ≤ part.now.to) × (part.now.to ≤ length look.now.entries.now) × SeesItsDefinitions look.now.m.now }
                ensures { (s : Vars) → FoundBy (module_view look.entry.now.m.now.module.now) look.entry.now.m.now.consts.now (map data_of look.entry.now.ids.now) s (map entry_view look.entry.now.entries.now) part.now result }
            { first_bad_in(alloc, look, part) },
        )
        .collect::<Vec<_>>(rt, alloc)
}

/// The first place that a part found, or that memory was wanting before it.
fn first_found(found: &[Result<Option<usize>, AllocError>]) -> Result<Option<usize>, AllocError>
    ensures { result ≡ scanned found.now }
{
    for one in found {
        match one {
            Ok(None) => {}
            Ok(Some(place)) => return Ok(Some(*place)),
            Err(_) => return Err(AllocError),
        }
    }
    Ok(None)
}

/// The place of the first entry that is no step, from 0, where there is one, found by parts of this size.
fn first_bad_by_parts<T: Threads + Sync>(
    rt: &T,
    alloc: Global,
    look: &Look<'_, '_>,
    start: &State,
    size: usize,
) -> Result<Option<usize>, AllocError>
    requires sees { SeesItsDefinitions look.now.m.now }
    requires size { 0 < size }
    ensures found { IfOk result (λ o. Finds (module_view look.now.m.now.module.now) look.now.m.now.consts.now (map data_of look.now.ids.now) start.now (map entry_view look.now.entries.now) o) }
    ensures within { IfOk result (λ o. IsPlaced o (length look.now.entries.now)) }
{
    let parts = parts_of(alloc, start, look.entries, size)?;
    let found = all_found(rt, alloc, look, parts.as_slice())?;
    first_found(found.as_slice())
}

/// How many entries a part has: there are two parts for each processor, and one of the entries that are left over.
fn size_of_part(len: usize, threads: usize) -> usize
    requires { 0 < threads }
    ensures { 0 < result }
{
    (len / threads / 2).max(1)
}

/// Whether a log is a run of a module under these constants, and if not, where it first isn't: what `pgo_check::checker::check`
/// answers, by several threads.
///
/// The state before each part of the log is made in one thread, by the changes of the entries before it; then the parts are checked
/// at the same time, and of their bad places the least is answered. A log of few entries is checked in one thread, and so is each
/// where there is one processor.
///
/// - `decides`: `Run` comes where the log is a run, and `Bad` with the first place that is no start or no step.
/// - `exact`: `Run` with the number of the entries comes exactly where the log is a run.
///
/// `NoMemory` comes where there is no memory, and leaves all as it was.
///
/// Source: Specifying Systems, for what a behavior of a module is; the places are this project's choice.
pub fn check_par<T: Threads + Sync>(
    rt: &T,
    alloc: Global,
    m: &Module,
    consts: &Consts,
    log: &Log,
) -> Result<Verdict, NoMemory>
    ensures decides { let l = log_view log.now in IfOk result (λ v. Decides (module_view m.now) consts.now l.ids l.start l.entries v) }
    ensures exact { let l = log_view log.now in IfOk result (λ v. IsRun (module_view m.now) consts.now l.ids l.start l.entries ↔ v ≡ Verdict.Run (length l.entries)) }
{
    let threads = current_num_threads(rt);
    if threads == 1 || log.entries.as_slice().len() < FEW_ENTRIES {
        check(alloc, m, consts, log)
    } else {
        check_by_parts(rt, alloc, m, consts, log, threads)
    }
}

/// The same of a log that is checked by parts for so many threads.
fn check_by_parts<T: Threads + Sync>(
    rt: &T,
    alloc: Global,
    m: &Module,
    consts: &Consts,
    log: &Log,
    threads: usize,
) -> Result<Verdict, NoMemory>
    requires { 0 < threads }
    ensures decides { let l = log_view log.now in IfOk result (λ v. Decides (module_view m.now) consts.now l.ids l.start l.entries v) }
    ensures exact { let l = log_view log.now in IfOk result (λ v. IsRun (module_view m.now) consts.now l.ids l.start l.entries ↔ v ≡ Verdict.Run (length l.entries)) }
{
    let m = Assigned::new(alloc, m, consts, &log.start)?;
    if !begins(alloc, &m, &log.start)? {
        return Ok(Verdict::Bad {
            at: 0,
            why: Why::NoInit,
        });
    }
    let entries = log.entries.as_slice();
    let look = Look {
        m: &m,
        ids: log.ids.as_slice(),
        entries,
    };
    let size = size_of_part(entries.len(), threads);
    match first_bad_by_parts(rt, alloc, &look, &log.start, size)? {
        None => Ok(Verdict::Run {
            steps: entries.len() as u64,
        }),
        Some(p) => Ok(Verdict::Bad {
            at: p as u64 + 1,
            why: Why::NoStep,
        }),
    }
}
