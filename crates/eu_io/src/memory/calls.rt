//! Which calls of an object fail.

ghost use Rattle.std.specs.Prelude.{◌≡◌, true};
ghost use Rattle.eu_io.specs.Faults.{no_faults, after};
ghost use Rattle.eu_io.specs.Memory.{fails_next, after_call};

use crate::fault_count::FaultCount;
use std::marker::Model;

/// The numbers of the calls that fail, a count of the calls so far, and which of them failed.
#[derive(Drop)]
pub struct Calls {
    fails: Vec<u64>,
    made: u64,
    faults: FaultCount,
}

impl Model for Calls {
    ghost use Rattle.eu_io.specs.Memory.{CallState};

    ghost Value = { CallState };

    ghost view = { λ inside. record { fails = inside.fails.items; made = inside.made; faults = inside.faults } };
}

impl Calls {
    /// No call so far. The first call has the number 1.
    pub fn new(fails: Vec<u64>) -> Calls
        ensures { result ≡ record { fails = fails.items; made = 0; faults = no_faults } }
    {
        Calls {
            fails,
            made: 0,
            faults: FaultCount::new(),
        }
    }

    /// Counts a call, and says whether it is one of those that fail.
    pub fn count(&mut self) -> bool
        ensures named { result ≡ fails_next self.old }
        ensures counted { self.new ≡ after_call self.old result }
    {
        self.made = self.made.saturating_add(1);
        let named = self.fails.contains(&self.made);
        self.faults.note(named);
        named
    }

    /// Counts a failure of the call that was counted last.
    pub fn fail(&mut self)
        ensures { self.new ≡ record self.old { faults = after true self.old.faults } }
    {
        self.faults.note(true);
    }

    /// How many calls have failed.
    pub fn faults(&self) -> u64
        ensures { result ≡ self.now.faults.count }
    {
        self.faults.get()
    }
}
