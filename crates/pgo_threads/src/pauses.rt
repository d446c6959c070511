// Pauses between attempts.
use crossbeam_utils::Backoff;
use pgo_section::worker::Turn;

/// Pauses of an instance behind attempts that were refused or found no end, before they are made again: the longer, the more of them came one
/// behind the other. No clause speaks of them.
#[derive(Drop)]
pub struct Pauses {
    backoff: Backoff,
    due: bool,
}

impl Pauses {
    /// None is due.
    pub fn new() -> Pauses {
        Pauses {
            backoff: Backoff::new(),
            due: false,
        }
    }

    /// Pauses after a turn, where one is due and the attempt has given everything back.
    pub fn after_turn(&mut self, made: Turn, rests: bool) {
        match made {
            Turn::Refused { .. } => self.due = true,
            Turn::Noted { .. } => self.due = true,
            Turn::Committed { .. } => self.backoff.reset(),
            _ => {}
        }
        if self.due && rests {
            self.due = false;
            self.backoff.snooze();
        }
    }
}
