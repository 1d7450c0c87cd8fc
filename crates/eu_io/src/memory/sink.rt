//! A sink in memory that fails where it is told to.

ghost use Rattle.std.specs.Prelude.{◌≡◌, ◌<◌, ◌++◌, ◌||◌, [], length, take, is_err, Some, IfOk, OnErr};
ghost use Rattle.std.specs.Io.{WritesAtMost};
ghost use Rattle.std.specs.Io.KnownBytes.{WriteAppends};
ghost use Rattle.eu_io.specs.Faults.{CountsFailures, StaysTold, no_faults};
ghost use Rattle.eu_io.specs.Memory.{fails_next, after_call, taken_count, overflows};

use super::calls::Calls;
use crate::fault::Failed;
use crate::sink::Sink;
use crate::store::Store;
use eu_name::bytes::Bytes;
use std::alloc::{AllocError, Global};
use std::marker::Model;

/// A sink as `CalmSink`, of which the calls fail, too, that it names. They are counted from 1.
#[derive(Drop)]
pub struct MemSink {
    store: Store,
    calls: Calls,
}

impl Model for MemSink {
    ghost use Rattle.eu_io.specs.Memory.{MemSinkState};

    ghost Value = { MemSinkState };

    ghost view = { λ inside. record { store = inside.store; calls = inside.calls } };
}

impl MemSink {
    /// A sink without bytes that has room for `room` bytes, of which one call takes at most `most`.
    pub fn new(
        alloc: Global,
        room: usize,
        most: usize,
        fails: Vec<u64>,
    ) -> Result<MemSink, AllocError>
        requires { 0 < most }
        ensures store { IfOk result (λ sink.
            sink.store ≡ record { written = []; room = room; most = most }) }
        ensures calls { IfOk result (λ sink.
            sink.calls ≡ record { fails = fails.items; made = 0; faults = no_faults }) }
    {
        Ok(MemSink {
            store: Store::new(alloc, room, most)?,
            calls: Calls::new(fails),
        })
    }

    /// The bytes that were written.
    pub fn as_slice(&self) -> &[u8]
        ensures { result.now ≡ self.now.store.written }
    {
        self.store.as_slice()
    }

    /// Takes out the bytes that were written.
    pub fn into_bytes(self) -> Bytes
        ensures { result ≡ self.store.written }
    {
        let MemSink { store, .. } = self;
        store.into_bytes()
    }

    /// How many calls have failed.
    pub fn faults(&self) -> u64
        ensures { result ≡ self.now.calls.faults.count }
    {
        self.calls.faults()
    }
}

impl Sink for MemSink {
    ghost written = { λ sink. Some sink.store.written };

    ghost faults = { λ sink. sink.calls.faults.count };

    ghost has_failed = { λ sink. sink.calls.faults.last };

    fn write(&mut self, piece: &[u8]) -> Result<usize, Failed>
        ensures bound { WritesAtMost result piece.now }
        ensures moves { IfOk result (λ count. 0 < length piece.now → 0 < count) }
        ensures bytes { WriteAppends (Some self.old.store.written) (Some self.new.store.written) result piece.now }
        ensures told { StaysTold (Some self.old.store.written) (Some self.new.store.written) }
        ensures counted { CountsFailures result self.old.calls.faults.count self.new.calls.faults.count }
        ensures last { self.new.calls.faults.last ≡ is_err result }
        ensures fails { is_err result ≡ (fails_next self.old.calls || overflows self.old.store (length piece.now)) }
        ensures count { IfOk result (λ count. count ≡ taken_count self.old.store (length piece.now)) }
        ensures ok { IfOk result (λ count.
            self.new.store ≡ record self.old.store { written = self.old.store.written ++ take count piece.now }) }
        ensures err { OnErr result (self.new.store ≡ self.old.store) }
        ensures calls { self.new.calls ≡ after_call self.old.calls (is_err result) }
    {
        if self.calls.count() {
            return Err(Failed);
        }
        let taken = self.store.append(piece);
        if taken.is_err() {
            self.calls.fail();
        }
        taken
    }
}
