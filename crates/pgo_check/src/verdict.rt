// What a check of a log finds.

/// Why a log is no run.
#[derive(Clone, Copy, Debug, PartialEq, Eq)]
pub enum Why {
    /// Init isn't TRUE of the start.
    NoInit,
    /// The entry is no step: its instance has no identifier, there is no state before or after it (a component that it
    /// or an earlier entry changes isn't in the state), the module has no action of its label, the action isn't TRUE of
    /// the states before and after it, or its instance doesn't stand at its next label then.
    NoStep,
}

/// What a check of a log finds. This project's choice.
#[derive(Clone, Copy, Debug, PartialEq, Eq)]
pub enum Verdict {
    /// The log is a run of this many entries.
    Run { steps: u64 },
    /// The log is no run. Its first fault is the start, at 0, or an entry, at its number, counted from 1.
    Bad { at: u64, why: Why },
}
