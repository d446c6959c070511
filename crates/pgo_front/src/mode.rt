// How a specification is run.
use pgo_execute::schedule::Schedule;

/// How a specification is run. This project's choice.
#[derive(Drop)]
pub enum Mode {
    /// On one thread, under this schedule.
    OneThread(Schedule),
    /// Each instance in a thread of its own.
    Threads,
}
