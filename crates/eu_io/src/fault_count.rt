//! Which calls have failed.

ghost use Rattle.std.specs.Prelude.{◌≡◌};
ghost use Rattle.eu_io.specs.Faults.{no_faults, after};

use std::marker::Model;

/// A count of failed calls, and whether the last call was one. The count starts at 0 and stays at the end of its type.
#[derive(Drop)]
pub struct FaultCount {
    count: u64,
    last: bool,
}

impl Model for FaultCount {
    ghost use Rattle.eu_io.specs.Faults.{FaultState};

    ghost Value = { FaultState };

    ghost view = { λ inside. record { count = inside.count; last = inside.last } };
}

impl FaultCount {
    pub fn new() -> FaultCount
        ensures { result ≡ no_faults }
    {
        FaultCount {
            count: 0,
            last: false,
        }
    }

    /// How many calls have failed.
    pub fn get(&self) -> u64
        ensures { result ≡ self.now.count }
    {
        self.count
    }

    /// Notes one more call, which failed or not.
    pub fn note(&mut self, failed: bool)
        ensures { self.new ≡ after failed self.old }
    {
        if failed {
            self.count = self.count.saturating_add(1);
        }
        self.last = failed;
    }
}
