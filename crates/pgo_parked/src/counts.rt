// How many instances are at work.
ghost use Rattle.std.specs.Prelude.{◌≡◌, ◌<◌, ◌↔◌, IsTrue};

/// `changes` counts how often an instance committed or ended. `unbegun` instances haven't begun, `unended` haven't ended, and `working`
/// of these aren't parked.
#[derive(Clone, Copy)]
pub struct Counts {
    pub changes: u64,
    pub unbegun: u64,
    unended: u64,
    working: u64,
}

impl Counts {
    /// So many instances before they begin.
    pub fn new(instances: u64) -> Counts {
        Counts {
            changes: 0,
            unbegun: instances,
            unended: instances,
            working: instances,
        }
    }

    /// An instance begins, one of those that are waited for, or one that came too late for that.
    pub fn begin(&mut self) {
        if self.unbegun > 0 {
            self.unbegun -= 1;
        } else {
            self.unended = self.unended.saturating_add(1);
            self.working = self.working.saturating_add(1);
        }
    }

    /// Those that haven't begun by now are not at work; they are counted once they begin.
    pub fn forget_unbegun(&mut self) {
        self.unended = self.unended.saturating_sub(self.unbegun);
        self.working = self.working.saturating_sub(self.unbegun);
        self.unbegun = 0;
    }

    /// An instance has committed: all that are parked are at work again.
    pub fn commit(&mut self)
        ensures unended { self.new.unended ≡ self.old.unended }
        ensures all_work { self.new.working ≡ self.new.unended }
    {
        self.changes = self.changes.wrapping_add(1);
        self.working = self.unended;
    }

    /// An instance has ended: all that are parked are at work again.
    pub fn end(&mut self)
        ensures all_work { self.new.working ≡ self.new.unended }
    {
        self.unended = self.unended.saturating_sub(1);
        self.commit();
    }

    /// Parks an instance, if there was no change since there were so many, and another instance is at work. It answers whether it is parked.
    pub fn park(&mut self, changes: u64) -> bool
        ensures { IsTrue result ↔ ((self.old.changes ≡ changes) × (1 < self.old.working)) }
    {
        let parks = self.changes == changes && self.working > 1;
        if parks {
            self.working -= 1;
        }
        parks
    }
}
