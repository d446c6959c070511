// Instances that wait for one another, each in a thread.
use pgo_parked::parking::Parking;
use std::alloc::{AllocError, Global};
use std::sync::Wait;
use std::sync::atomic::AtomicU64;
use std::sync::atomic::Ordering::SeqCst;
use std::thread;
use std::thread::Threads;

/// How often the first instance looks whether all others were blocked.
const LOOKS: u32 = 1000000;

/// What an instance waits for.
#[derive(Clone, Copy)]
pub enum Waits {
    /// that those before it have committed, one after the other in a ring
    ForItsTurn,
    /// that the first instance has committed, which does so once all others were blocked
    ForTheFirst,
    /// what never comes
    ForEver,
}

/// So many instances, each of which commits so often, and makes at most so many attempts.
#[derive(Clone, Copy)]
pub struct Run {
    instances: usize,
    waits: Waits,
    times: u64,
    attempts: u64,
}

/// How many commits there were, and how many instances were blocked at least once.
#[derive(Drop)]
struct Seen {
    commits: AtomicU64,
    blocked: AtomicU64,
}

impl Run {
    /// Instances of which each commits once.
    pub fn of(instances: usize, waits: Waits, attempts: u64) -> Run {
        Run {
            instances,
            waits,
            times: 1,
            attempts,
        }
    }

    /// A ring. Between two attempts of an instance that was blocked another one commits or ends, so it makes no more attempts than there
    /// are commits and ends of all, and one.
    pub fn ring(instances: u32, times: u32) -> Run {
        let changes = (times as u64 + 1) * instances as u64;
        Run {
            instances: instances as usize,
            waits: Waits::ForItsTurn,
            times: times as u64,
            attempts: changes.saturating_add(1),
        }
    }

    /// Whether an instance may commit after so many commits.
    fn may_commit(&self, instance: usize, commits: u64) -> bool {
        match self.waits {
            Waits::ForItsTurn => commits.checked_rem(self.instances as u64)
                == Some(instance as u64),
            Waits::ForTheFirst => instance == 0 || commits > 0,
            Waits::ForEver => false,
        }
    }

    /// An attempt of an instance; whether it has committed.
    fn attempt<R: Wait>(&self, rt: &R, parking: &Parking, seen: &Seen, instance: usize) -> bool {
        let changes = parking.changes(rt);
        let commits = self.may_commit(instance, seen.commits.load(SeqCst));
        if commits {
            seen.commits.fetch_add(1, SeqCst);
            parking.committed(rt);
        } else {
            seen.blocked.fetch_add(1, SeqCst);
            parking.park(rt, changes);
        }
        commits
    }

    /// Looks until all other instances were blocked.
    fn await_blocked(&self, seen: &Seen) {
        for _ in 0..LOOKS {
            if seen.blocked.load(SeqCst).saturating_add(1) >= self.instances as u64 {
                return;
            }
            thread::yield_now();
        }
    }

    /// The attempts of an instance.
    fn work<R: Wait>(&self, rt: &R, parking: &Parking, seen: &Seen, instance: usize) {
        parking.begin(rt);
        if matches!(self.waits, Waits::ForTheFirst) && instance == 0 {
            self.await_blocked(seen);
        }
        let mut left = self.times;
        for _ in 0..self.attempts {
            if left == 0 {
                break;
            }
            if self.attempt(rt, parking, seen, instance) {
                left -= 1;
            }
        }
        parking.ended(rt);
    }

    /// How many commits there are once all instances have ended.
    pub fn commits<R: Threads + Wait + Sync>(
        &self,
        rt: &R,
        alloc: Global,
    ) -> Result<u64, AllocError> {
        let parking = Parking::new(self.instances as u64);
        let seen = Seen {
            commits: AtomicU64::new(0),
            blocked: AtomicU64::new(0),
        };
        thread::map_indices(
            rt,
            alloc,
            self.instances,
            &|k| self.work(rt, &parking, &seen, k),
        )?;
        Ok(seen.commits.load(SeqCst))
    }
}
