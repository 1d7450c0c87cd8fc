//! A source in memory that fails where it is told to.

ghost use Rattle.std.specs.Prelude.{◌≡◌, ◌<◌, min, length, is_err, IfOk, Some};
ghost use Rattle.std.specs.Io.{ReadsAtMost};
ghost use Rattle.std.specs.Io.KnownBytes.{ReadConsumes};
ghost use Rattle.eu_io.specs.Faults.{CountsFailures, StaysTold, no_faults};
ghost use Rattle.eu_io.specs.Memory.{fails_next, after_call};

use super::calls::Calls;
use crate::calm::source::CalmSource;
use crate::fault::Failed;
use crate::source::Source;
use eu_name::bytes::Bytes;
use std::marker::Model;

/// A source as `CalmSource`, of which the calls fail that it names. They are counted from 1.
#[derive(Drop)]
pub struct MemSource {
    calm: CalmSource,
    calls: Calls,
}

impl Model for MemSource {
    ghost use Rattle.eu_io.specs.Memory.{MemSourceState};

    ghost Value = { MemSourceState };

    ghost view = { λ inside. record { left = inside.calm.left; most = inside.calm.most; calls = inside.calls } };
}

impl MemSource {
    /// A source of all these bytes, which was not called yet.
    pub fn new(bytes: Bytes, most: usize, fails: Vec<u64>) -> MemSource
        requires { 0 < most }
        ensures left { result.left ≡ bytes }
        ensures most { result.most ≡ most }
        ensures calls { result.calls ≡ record { fails = fails.items; made = 0; faults = no_faults } }
    {
        MemSource {
            calm: CalmSource::new(bytes, most),
            calls: Calls::new(fails),
        }
    }

    /// How many calls have failed.
    pub fn faults(&self) -> u64
        ensures { result ≡ self.now.calls.faults.count }
    {
        self.calls.faults()
    }
}

impl Source for MemSource {
    ghost left = { λ source. Some source.left };

    ghost faults = { λ source. source.calls.faults.count };

    ghost has_failed = { λ source. source.calls.faults.last };

    fn read(&mut self, buffer: &mut [u8]) -> Result<usize, Failed>
        ensures bound { ReadsAtMost result buffer.new }
        ensures bytes { ReadConsumes (Some self.old.left) (Some self.new.left) result buffer.new }
        ensures told { StaysTold (Some self.old.left) (Some self.new.left) }
        ensures counted { CountsFailures result self.old.calls.faults.count self.new.calls.faults.count }
        ensures last { self.new.calls.faults.last ≡ is_err result }
        ensures fails { is_err result ≡ fails_next self.old.calls }
        ensures count { IfOk result (λ count.
            count ≡ min self.old.most (min (length self.old.left) (length buffer.old))) }
        ensures most { self.new.most ≡ self.old.most }
        ensures calls { self.new.calls ≡ after_call self.old.calls (is_err result) }
    {
        if self.calls.count() {
            return Err(Failed);
        }
        self.calm.read(buffer)
    }
}
