// Instances that wait for others.
use crate::counts::Counts;
use crossbeam_utils::sync::EventCount;
use std::sync::{Mutex, Wait, WaitMethods};
use std::thread;

/// How often an instance that is about to park looks whether all others have begun. Where no thread can be made, an instance begins only
/// once others have ended, so it isn't waited for longer. This project's choice.
const LOOKS: u32 = 1000000;

/// What instances know of one another: how many are at work, and how often one committed or ended.
#[derive(Drop)]
pub struct Parking {
    counts: Mutex<Counts>,
    waiting: EventCount,
}

impl Parking {
    /// Of so many instances, none of which has begun.
    pub fn new(instances: u64) -> Parking {
        Parking {
            counts: Mutex::new(Counts::new(instances)),
            waiting: EventCount::new(),
        }
    }

    /// An instance begins.
    pub fn begin<R: Wait>(&self, rt: &R) {
        self.counts.lock(rt).begin();
    }

    /// How often an instance committed or ended, so far.
    pub fn changes<R: Wait>(&self, rt: &R) -> u64 {
        self.counts.lock(rt).changes
    }

    /// An instance has committed: all that are parked go on.
    pub fn committed<R: Wait>(&self, rt: &R) {
        self.counts.lock(rt).commit();
        self.waiting.notify_all();
    }

    /// An instance has ended: all that are parked go on.
    pub fn ended<R: Wait>(&self, rt: &R) {
        self.counts.lock(rt).end();
        self.waiting.notify_all();
    }

    /// Whether all instances have begun, or there was a change.
    fn has_all<R: Wait>(&self, rt: &R, changes: u64) -> bool {
        let counts = self.counts.lock(rt);
        counts.unbegun == 0 || counts.changes != changes
    }

    /// Waits until all instances have begun, or there was a change, and passes over those that don't begin.
    fn await_all<R: Wait>(&self, rt: &R, changes: u64) {
        for _ in 0..LOOKS {
            if self.has_all(rt, changes) {
                return;
            }
            thread::yield_now();
        }
        self.counts.lock(rt).forget_unbegun();
    }

    /// Waits until there was a change.
    fn await_change<R: Wait>(&self, rt: &R, changes: u64) {
        for _ in rt.forever() {
            let key = self.waiting.prepare_wait();
            if self.changes(rt) != changes {
                return;
            }
            key.wait(rt);
        }
    }

    /// Parks an instance until another commits or ends, if none has since there were so many changes, and unless every other one has ended
    /// or is parked.
    pub fn park<R: Wait>(&self, rt: &R, changes: u64) {
        self.await_all(rt, changes);
        let parks = self.counts.lock(rt).park(changes);
        if parks {
            self.await_change(rt, changes);
        }
    }
}
