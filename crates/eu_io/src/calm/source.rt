//! A source in memory that never fails.

ghost use Rattle.std.specs.Prelude.{◌≡◌, ◌<◌, ◌++◌, min, false, is_err, length, take, drop, Some, Ok};
ghost use Rattle.std.specs.Io.{ReadsAtMost};
ghost use Rattle.std.specs.Io.KnownBytes.{ReadConsumes};
ghost use Rattle.eu_io.specs.Faults.{CountsFailures, StaysTold};

use crate::fault::Failed;
use crate::source::Source;
use eu_name::bytes::Bytes;
use std::marker::Model;

/// Bytes in memory, of which one call gives at most `most`.
#[derive(Drop)]
pub struct CalmSource {
    bytes: Bytes,
    given: usize,
    most: usize,
}

impl Model for CalmSource {
    ghost use Rattle.std.specs.Prelude.{◌≤◌, ◌<◌, length, drop};
    ghost use Rattle.eu_io.specs.Memory.{SourceState};

    ghost Value = { SourceState };

    ghost view = { λ inside. record { left = drop inside.given inside.bytes; most = inside.most } };

    ghost invariant = { λ inside. (inside.given ≤ length inside.bytes) × (0 < inside.most) };
}

impl CalmSource {
    /// A source of all these bytes.
    pub fn new(bytes: Bytes, most: usize) -> CalmSource
        requires { 0 < most }
        ensures left { result.left ≡ bytes }
        ensures most { result.most ≡ most }
    {
        CalmSource {
            bytes,
            given: 0,
            most,
        }
    }
}

impl Source for CalmSource {
    ghost left = { λ source. Some source.left };

    ghost faults = { λ _. 0 };

    ghost has_failed = { λ _. false };

    fn read(&mut self, buffer: &mut [u8]) -> Result<usize, Failed>
        ensures bound { ReadsAtMost result buffer.new }
        ensures bytes { ReadConsumes (Some self.old.left) (Some self.new.left) result buffer.new }
        ensures told { StaysTold (Some self.old.left) (Some self.new.left) }
        ensures counted { CountsFailures result 0 0 }
        ensures last { false ≡ is_err result }
        ensures calm { result ≡ Ok (min self.old.most (min (length self.old.left) (length buffer.old))) }
        ensures most { self.new.most ≡ self.old.most }
    {
        let left = &self.bytes.as_slice()[self.given..];
        let count = copy_front(left, self.most, buffer);
        self.given += count;
        Ok(count)
    }
}

/// Copies a front of at most `most` bytes to the front of the buffer, and answers its length.
fn copy_front(from: &[u8], most: usize, buffer: &mut [u8]) -> usize
    ensures count { result ≡ min most (min (length from.now) (length buffer.old)) }
    ensures copied { buffer.new ≡ take result from.now ++ drop result buffer.old }
{
    let count = most.min(from.len().min(buffer.len()));
    buffer[..count].copy_from_slice(&from[..count]);
    count
}
