// Gates that say in which order two instances make their turns.
use pgo_threads::gate::Gate;
use std::hint::spin_loop;
use std::sync::atomic::{AtomicBool, AtomicU64, AtomicUsize, Ordering};

/// How often a gate looks before it gives up and lets the turn pass.
const MOST_LOOKS: u64 = 1_000_000_000;

/// Before this turn an instance waits until the other one has come to a turn of its own, and then looks so often whether it comes to a
/// further one.
#[derive(Clone, Copy)]
pub struct Delay {
    pub instance: u32,
    pub turn: u64,
    pub until: u64,
    pub looks: u64,
}

/// A gate at which turns wait for those of the other instance.
#[derive(Drop)]
pub struct WaitingGate<'delays> {
    delays: &'delays [Delay],
    /// the turns to which the instances 0 and 1 have come
    first: AtomicU64,
    second: AtomicU64,
    gave_up: AtomicBool,
    went_on: AtomicBool,
}

impl<'delays> WaitingGate<'delays> {
    /// A gate with these delays.
    pub fn new(delays: &'delays [Delay]) -> WaitingGate<'delays> {
        WaitingGate {
            delays,
            first: AtomicU64::new(0),
            second: AtomicU64::new(0),
            gave_up: AtomicBool::new(false),
            went_on: AtomicBool::new(false),
        }
    }

    /// Whether, while it was looked at, an instance came to a turn behind the one that was waited for.
    pub fn went_on(&self) -> bool {
        self.went_on.load(Ordering::SeqCst)
    }

    /// The turns to which both instances came, where no wait was given up.
    pub fn last_turns(&self) -> Option<(u64, u64)> {
        if self.gave_up.load(Ordering::SeqCst) {
            return None;
        }
        Some((
            self.first.load(Ordering::SeqCst),
            self.second.load(Ordering::SeqCst),
        ))
    }

    /// Waits until an instance has come to this turn.
    fn wait_for(&self, instance: &AtomicU64, turn: u64) {
        for _ in 0..MOST_LOOKS {
            if instance.load(Ordering::SeqCst) >= turn {
                return;
            }
            spin_loop();
        }
        self.gave_up.store(true, Ordering::SeqCst);
    }

    /// Looks so often whether an instance comes to a turn behind this one.
    fn look_at(&self, instance: &AtomicU64, turn: u64, looks: u64) {
        for _ in 0..looks {
            if instance.load(Ordering::SeqCst) > turn {
                self.went_on.store(true, Ordering::SeqCst);
                return;
            }
            spin_loop();
        }
    }
}

impl Gate for WaitingGate<'_> {
    fn at(&self, instance: u32, turn: u64) {
        let (own, other) = if instance == 0 {
            (&self.first, &self.second)
        } else {
            (&self.second, &self.first)
        };
        own.store(turn, Ordering::SeqCst);
        for delay in self.delays {
            if delay.instance == instance && delay.turn == turn {
                self.wait_for(other, delay.until);
                self.look_at(other, delay.until, delay.looks);
            }
        }
    }
}

/// A gate that lets turns pass one at a time in the order of a list, and all turns behind it. An instance that comes to the gate again
/// shows by it that its turn is over.
#[derive(Drop)]
pub struct OrderedGate<'turns> {
    turns: &'turns [u32],
    /// how many turns are over
    over: AtomicUsize,
    gave_up: AtomicBool,
}

impl<'turns> OrderedGate<'turns> {
    /// A gate with this list: the instance of each turn.
    pub fn new(turns: &'turns [u32]) -> OrderedGate<'turns> {
        OrderedGate {
            turns,
            over: AtomicUsize::new(0),
            gave_up: AtomicBool::new(false),
        }
    }

    /// Whether some turn passed out of order, since it was waited for too long.
    pub fn gave_up(&self) -> bool {
        self.gave_up.load(Ordering::SeqCst)
    }
}

impl Gate for OrderedGate<'_> {
    fn at(&self, instance: u32, turn: u64) {
        if turn > 1 {
            self.over.fetch_add(1, Ordering::SeqCst);
        }
        for _ in 0..MOST_LOOKS {
            match self.turns.get(self.over.load(Ordering::SeqCst)) {
                Some(next) if *next != instance => spin_loop(),
                _ => return,
            }
        }
        self.gave_up.store(true, Ordering::SeqCst);
    }
}
