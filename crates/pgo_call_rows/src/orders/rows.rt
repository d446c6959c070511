// Runs of two instances, whose order a gate says.
use crate::orders::answer::Answer;
use crate::orders::gates::{Delay, OrderedGate, WaitingGate};
use pgo_threads::gate::OpenGate;
use std::alloc::{AllocError, Global};
use std::sync::Wait;
use std::thread::Threads;

/// Two instances that add to one global.
const COUNTER: &str = "---- MODULE Counter ----
EXTENDS Integers
(*
--mpcal Counter {
  archetype A(ref v) { l: v := v + 1; }
  variables x = 0;
  process (P \\in {1, 2}) == instance A(ref x);
}
*)
====
";

/// The same, without an end.
const LOOP: &str = "---- MODULE Loop ----
EXTENDS Integers
(*
--mpcal Loop {
  archetype A(ref v) { l: v := v + 1; goto l; }
  variables x = 0;
  process (P \\in {1, 2}) == instance A(ref x);
}
*)
====
";

/// One that adds to a global, and one that waits until it is 1.
const WAIT: &str = "---- MODULE Wait ----
EXTENDS Integers
(*
--mpcal Wait {
  archetype A(ref v) { l: v := v + 1; }
  archetype B(ref v) { l: await v = 1; }
  variables x = 0;
  process (P = 1) == instance A(ref x);
  process (Q = 2) == instance B(ref x);
}
*)
====
";

/// The records where instance 1 is refused three times.
const REFUSED: &str = "inst 0 1 done 1
1 step 1
inst 1 4 done 2
1 held 0 x
2 held 0 x
3 held 0 x
4 step 2
end 2 0
";

/// Instance 0 makes its first turn when instance 1 has made one: both run at the same time. One may use up its attempts while the thread
/// of the other rests.
pub fn both_run<T: Threads + Wait + Sync>(rt: &T, alloc: Global) -> Result<bool, AllocError> {
    let delays = [Delay {
        instance: 0,
        turn: 1,
        until: 2,
        looks: 0,
    }];
    let gate = WaitingGate::new(&delays);
    let answer = Answer::of(rt, alloc, &["run"], COUNTER, &gate)?;
    let has_run = answer.status == 0 || answer.status == 21;
    Ok(has_run && gate.last_turns().is_some())
}

/// Instance 1 makes three turns while instance 0 holds the global, and goes on when that has ended. A refused attempt is one turn, one with
/// an entry six, and there is a call of the gate more.
pub fn is_refused_three_times<T: Threads + Wait + Sync>(
    rt: &T,
    alloc: Global,
) -> Result<bool, AllocError> {
    let delays = [
        Delay {
            instance: 1,
            turn: 1,
            until: 2,
            looks: 0,
        },
        Delay {
            instance: 0,
            turn: 2,
            until: 4,
            looks: 0,
        },
        Delay {
            instance: 1,
            turn: 4,
            until: 7,
            looks: 0,
        },
    ];
    let gate = WaitingGate::new(&delays);
    let answer = Answer::of(rt, alloc, &["run"], COUNTER, &gate)?;
    Ok(
        answer.status == 0
            && answer.out.as_str().ends_with(REFUSED)
            && gate.last_turns() == Some((7, 10)),
    )
}

/// Whether `run`, with turns in the order of a list, writes what `step` writes under that list. None: it doesn't; Some: what is written.
fn same_as_step<T: Threads + Wait + Sync>(
    rt: &T,
    alloc: Global,
    run: &[&str],
    turns: &[u32],
    step: &[&str],
    text: &str,
) -> Result<Option<String>, AllocError> {
    let gate = OrderedGate::new(turns);
    let on_threads = Answer::of(rt, alloc, run, text, &gate)?;
    let by_turns = Answer::of(rt, alloc, step, text, &OpenGate)?;
    let is_same = on_threads.status == by_turns.status
        && on_threads.out.as_str() == by_turns.out.as_str();
    if is_same && !gate.gave_up() {
        Ok(Some(on_threads.out))
    } else {
        Ok(None)
    }
}

/// One turn of instance 1 while instance 0 holds the global, in the order of a list of turns.
pub fn one_is_refused<T: Threads + Wait + Sync>(rt: &T, alloc: Global) -> Result<bool, AllocError> {
    let written = same_as_step(
        rt,
        alloc,
        &["run"],
        &[0, 1, 0, 0, 0, 0, 0, 1, 1, 1, 1, 1, 1],
        &["step", "--turns", "0,1,0*5,1*6"],
        COUNTER,
    )?;
    match written {
        Some(text) => Ok(text.as_str().contains("1 held 0 x\n")),
        None => Ok(false),
    }
}

/// Attempts one after another in the order of a list of turns: none is refused, and the most attempts end both instances.
pub fn none_is_refused<T: Threads + Wait + Sync>(
    rt: &T,
    alloc: Global,
) -> Result<bool, AllocError> {
    let written = same_as_step(
        rt,
        alloc,
        &["run", "--attempts", "2"],
        &[
            0, 0, 0, 0, 0, 0, 1, 1, 1, 1, 1, 1, 1, 1, 1, 1, 1, 1, 0, 0, 0, 0, 0, 0,
        ],
        &["step", "--attempts", "2", "--turns", "0*6,1*6,1*6,0*6"],
        LOOP,
    )?;
    match written {
        Some(text) => Ok(!text.as_str().contains("held")),
        None => Ok(false),
    }
}

/// Instance 0 makes its first turn when instance 1, whose first attempt is blocked, has come to a turn of its own, and so many looks later.
/// That attempt is four turns: it takes the global, finds that it isn't 1, notes that and gives the global back. Whether instance 1 came to a
/// further turn in these looks; none where a turn was waited for too long, or the run ended otherwise than a run of these two may.
fn goes_on<T: Threads + Wait + Sync>(
    rt: &T,
    alloc: Global,
    run: &[&str],
    until: u64,
    looks: u64,
) -> Result<Option<bool>, AllocError> {
    let delays = [Delay {
        instance: 0,
        turn: 1,
        until,
        looks,
    }];
    let gate = WaitingGate::new(&delays);
    let answer = Answer::of(rt, alloc, run, WAIT, &gate)?;
    let has_run = answer.status == 0 || answer.status == 21;
    let is_blocked = answer.out.as_str().contains("1 note blocked 0\n");
    if has_run && is_blocked && gate.last_turns().is_some() {
        Ok(Some(gate.went_on()))
    } else {
        Ok(None)
    }
}

/// With `--park` a blocked instance comes to no fifth turn before the other one has made one.
pub fn blocked_parks<T: Threads + Wait + Sync>(rt: &T, alloc: Global) -> Result<bool, AllocError> {
    Ok(goes_on(rt, alloc, &["run", "--park"], 4, 10_000_000)? == Some(false))
}

/// Without it, it does.
pub fn blocked_goes_on<T: Threads + Wait + Sync>(
    rt: &T,
    alloc: Global,
) -> Result<bool, AllocError> {
    Ok(goes_on(rt, alloc, &["run"], 5, 0)?.is_some())
}
