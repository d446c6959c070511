// The processes of a module, with their label actions.
ghost use Rattle.std.specs.Prelude.{◌≡◌, [], IfOk, reverse};
ghost use Rattle.pgo_lexer.specs.Pieces.{begins};
ghost use Rattle.pgo_expr_read.specs.Steps.{Makes, Reads};
ghost use Rattle.pgo_module_read.specs.Building as spec;

use crate::same::same_tree;
use crate::steps::{Step, steps_of};
use pgo_base::expr::Sub;
use pgo_base::items::Items;
use pgo_base::module::{Action, Actions, Processes, WrittenProcess};
use pgo_base::slices::first;
use pgo_lexer::bytes::{is_same, skip};
use pgo_lexer::errors::TextStop;
use pgo_module_trees::further::process_body;
use std::alloc::{AllocError, Global};

fn begins_underscore(bytes: &[u8]) -> bool
    ensures { result ≡ begins spec.is_underscore bytes.now }
{
    match bytes {
        [] => false,
        [b, ..] => *b == b'_',
    }
}

/// Whether a name begins with a process's name and `_`.
pub fn is_action_of(process: &[u8], name: &[u8]) -> bool
    ensures { result ≡ spec.is_action_of process.now name.now }
{
    is_same(first(name, process.len()), process) && begins_underscore(skip(name, process.len()))
}

pub fn has_some(actions: &Actions) -> bool
    ensures { result ≡ spec.has_some actions.now }
{
    match actions.as_slice() {
        [] => false,
        [_, ..] => true,
    }
}

/// The most label actions of a process: the body of its own definition calls each, and is no higher than an expression may be.
pub const MOST_ACTIONS: usize = 511;

/// Whether the process has label actions, no more than it may have, and this is the body of its own definition.
fn is_own(alloc: Global, p: &WrittenProcess, own: &Sub) -> Result<bool, AllocError>
    ensures { IfOk result (λ r. r ≡ spec.is_own p.now own.now) }
{
    if p.actions.as_slice().len() > MOST_ACTIONS {
        return Ok(false);
    }
    let body = process_body(alloc, p)?;
    let same = same_tree(alloc, own, &body)?;
    Ok(has_some(&p.actions) && same)
}

/// The process of these label actions, whose own body this must be.
fn process(
    alloc: Global,
    s: Step,
    done: Items<Action>,
    own: Sub,
) -> Result<WrittenProcess, TextStop>
    ensures { Makes (spec.process s done own) result }
{
    let Step { name, ids } = s;
    let actions = Actions::from_vec(done.into_vec());
    let p = WrittenProcess { name, ids, actions };
    if is_own(alloc, &p, &own)? {
        Ok(p)
    } else {
        Err(TextStop::at(0))
    }
}

/// A process, whose label actions stand before its own definition. The first of what is left stands last, and what is
/// behind the definition stays.
#[tactic(auto, using(crate::proofs::Reversed::reversed_more), unfolding(crate::specs::Building::process_from))]
fn process_from(alloc: Global, s: Step, left: &mut Vec<Action>) -> Result<WrittenProcess, TextStop>
    ensures { Reads (spec.process_from s [] (reverse left.old.items)) result (reverse left.new.items) }
{
    let mut done = Items::new(alloc);
    while let Some(a) = left.pop() {
        if is_same(a.name.as_bytes(), s.name.as_bytes()) {
            return process(alloc, s, done, a.body);
        }
        if !is_action_of(s.name.as_bytes(), a.name.as_bytes()) {
            return Err(TextStop::at(0));
        }
        done.push(a)?;
    }
    Err(TextStop::at(0))
}

/// The processes of these steps, whose definitions these are.
#[tactic(auto, using(crate::proofs::Ends::last_left, crate::proofs::Ends::some_left), unfolding(crate::specs::Building::processes_from))]
fn processes_from(
    alloc: Global,
    steps: Items<Step>,
    actions: Items<Action>,
) -> Result<Processes, TextStop>
    ensures { Makes (spec.processes_from [] steps actions) result }
{
    let mut left = actions.into_vec();
    left.reverse();
    let mut all = Processes::new(alloc);
    for s in steps.into_vec() {
        let p = process_from(alloc, s, &mut left)?;
        all.push(p)?;
    }
    if left.len() == 0 {
        Ok(all)
    } else {
        Err(TextStop::at(0))
    }
}

/// The processes by the bodies of Next and ProcSet, whose definitions these are.
pub fn processes(
    alloc: Global,
    next: &Sub,
    sets: &Sub,
    actions: Items<Action>,
) -> Result<Processes, TextStop>
    ensures { Makes (spec.processes next.now sets.now actions) result }
{
    let steps = steps_of(alloc, next, sets)?;
    processes_from(alloc, steps, actions)
}
