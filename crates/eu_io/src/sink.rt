//! Where output goes.

ghost use Rattle.std.specs.Prelude.{◌≡◌, ◌<◌, ℕ, Bool, List, Option, length, is_err, IfOk};
ghost use Rattle.std.specs.Io.{WritesAtMost};
ghost use Rattle.std.specs.Io.KnownBytes.{WriteAppends};
ghost use Rattle.eu_io.specs.Faults.{CountsFailures, StaysTold};

use super::fault::Failed;

/// A stream of output.
pub trait Sink {
    /// The bytes that were written so far, where the sink tells them.
    ghost written: { Self → Option (List ℕ) };

    /// How many calls have failed.
    ghost faults: { Self → ℕ };

    /// Whether the last call failed.
    ghost has_failed: { Self → Bool };

    /// Appends a front of the piece, and answers its length, which is at least 1 where the piece isn't empty.
    fn write(&mut self, piece: &[u8]) -> Result<usize, Failed>
        ensures bound { WritesAtMost result piece.now }
        ensures moves { IfOk result (λ count. 0 < length piece.now → 0 < count) }
        ensures bytes { WriteAppends (written self.old) (written self.new) result piece.now }
        ensures told { StaysTold (written self.old) (written self.new) }
        ensures counted { CountsFailures result (faults self.old) (faults self.new) }
        ensures last { has_failed self.new ≡ is_err result };
}
