//! Bytes that were read ahead.

ghost use Rattle.std.specs.Prelude.{◌≡◌, ◌≢◌, ◌<◌, ◌≤◌, ℕ, [], ◌++◌, length, drop, take, vec_len, is_err, IfOk, IsTrue, ◌↔◌};
ghost use Rattle.std.specs.Io.{ReadsAtMost};
ghost use Rattle.std.specs.Io.KnownBytes.{ReadConsumes};
ghost use Rattle.eu_io.specs.Faults.{CountsFailures, NoneAfter};
ghost use Rattle.session_loop.specs.Pieces.{Fills, Refills};

use eu_io::fault::Failed;
use eu_io::source::Source;
use std::alloc::{AllocError, Global};
use std::marker::Model;

/// The most bytes that one read is asked for.
const ROOM: usize = 8192;

/// The bytes that were taken from a source and aren't used yet.
#[derive(Drop)]
pub struct Inflow {
    room: Vec<u8>,
    start: usize,
    end: usize,
}

impl Model for Inflow {
    ghost use Rattle.std.specs.Prelude.{◌≡◌, ◌≤◌, ℕ, List, drop, take, vec_len};

    ghost Value = { List ℕ };

    ghost view = { λ inside. drop inside.start (take inside.end inside.room.items) };

    ghost invariant = { λ inside. (inside.start ≤ inside.end) × (inside.end ≤ 8192)
        × (vec_len inside.room ≡ 8192) };
}

impl Inflow {
    pub fn new(alloc: Global) -> Result<Inflow, AllocError>
        ensures { IfOk result (λ inflow. inflow ≡ []) }
    {
        Ok(Inflow {
            room: vec![in alloc; 0; ROOM]?,
            start: 0,
            end: 0,
        })
    }

    pub fn is_empty(&self) -> bool
        ensures { IsTrue result ↔ (self.now ≡ []) }
    {
        self.as_slice().is_empty()
    }

    pub fn as_slice(&self) -> &[u8]
        ensures value { result.now ≡ self.now }
        ensures bound { length self.now ≤ 8192 }
    {
        &self.room[self.start..self.end]
    }

    /// Leaves out the first bytes.
    pub fn skip(&mut self, count: usize)
        requires { count ≤ length self.old }
        ensures { self.new ≡ drop count self.old }
    {
        self.start += count;
    }

    /// Takes bytes from the source in the place of those that there were, and answers whether there were any.
    pub fn fill<S: Source>(&mut self, input: &mut S) -> Result<bool, Failed>
        ensures bytes { Fills (S.left input.old) (S.left input.new) result self.new }
        ensures counted { CountsFailures result (S.faults input.old) (S.faults input.new) }
        ensures last { NoneAfter (is_err result) (S.has_failed input.new) }
    {
        let count = read_into(input, &mut self.room)?;
        self.start = 0;
        self.end = count;
        Ok(count > 0)
    }

    /// Takes bytes from the source where there are none, and answers whether there are any.
    pub fn refill<S: Source>(&mut self, input: &mut S) -> Result<bool, Failed>
        ensures bytes { Refills (S.left input.old) (S.left input.new) self.old self.new result }
        ensures counted { CountsFailures result (S.faults input.old) (S.faults input.new) }
        ensures last { NoneAfter (is_err result) (S.has_failed input.new) }
    {
        if !self.is_empty() {
            return Ok(true);
        }
        self.fill(input)
    }
}

/// One read into the whole vector.
fn read_into<S: Source>(input: &mut S, room: &mut Vec<u8>) -> Result<usize, Failed>
    ensures len { vec_len room.new ≡ vec_len room.old }
    ensures bound { ReadsAtMost result room.new.items }
    ensures bytes { ReadConsumes (S.left input.old) (S.left input.new) result room.new.items }
    ensures counted { CountsFailures result (S.faults input.old) (S.faults input.new) }
    ensures last { S.has_failed input.new ≡ is_err result }
{
    input.read(room.as_mut_slice())
}
