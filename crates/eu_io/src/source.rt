//! Where input comes from.

ghost use Rattle.std.specs.Prelude.{◌≡◌, ℕ, Bool, List, Option, is_err};
ghost use Rattle.std.specs.Io.{ReadsAtMost};
ghost use Rattle.std.specs.Io.KnownBytes.{ReadConsumes};
ghost use Rattle.eu_io.specs.Faults.{CountsFailures, StaysTold};

use super::fault::Failed;

/// A stream of input.
pub trait Source {
    /// The bytes that are still to come, where the source tells them.
    ghost left: { Self → Option (List ℕ) };

    /// How many calls have failed.
    ghost faults: { Self → ℕ };

    /// Whether the last call failed.
    ghost has_failed: { Self → Bool };

    /// Takes bytes from the front of what is left into the front of the buffer, and answers their number.
    /// 0 for a buffer that isn't empty means the end.
    fn read(&mut self, buffer: &mut [u8]) -> Result<usize, Failed>
        ensures bound { ReadsAtMost result buffer.new }
        ensures bytes { ReadConsumes (left self.old) (left self.new) result buffer.new }
        ensures told { StaysTold (left self.old) (left self.new) }
        ensures counted { CountsFailures result (faults self.old) (faults self.new) }
        ensures last { has_failed self.new ≡ is_err result };
}
