//! A sink in memory that fails only where it is full.

ghost use Rattle.std.specs.Prelude.{◌≡◌, ◌<◌, ◌++◌, [], length, take, is_err, Some, IfOk, OnErr};
ghost use Rattle.std.specs.Io.{WritesAtMost};
ghost use Rattle.std.specs.Io.KnownBytes.{WriteAppends};
ghost use Rattle.eu_io.specs.Faults.{CountsFailures, StaysTold, no_faults};
ghost use Rattle.eu_io.specs.Memory.{taken_count, overflows};

use crate::fault::Failed;
use crate::fault_count::FaultCount;
use crate::sink::Sink;
use crate::store::Store;
use eu_name::bytes::Bytes;
use std::alloc::{AllocError, Global};
use std::marker::Model;

/// A sink with room for a number of bytes. A call fails exactly where there is a byte to write and no room for one:
/// memory is asked for only when the sink is made.
#[derive(Drop)]
pub struct CalmSink {
    store: Store,
    faults: FaultCount,
}

impl Model for CalmSink {
    ghost use Rattle.eu_io.specs.Memory.{CalmSinkState};

    ghost Value = { CalmSinkState };

    ghost view = { λ inside. record { store = inside.store; faults = inside.faults } };
}

impl CalmSink {
    /// A sink without bytes that has room for `room` bytes, of which one call takes at most `most`.
    pub fn new(alloc: Global, room: usize, most: usize) -> Result<CalmSink, AllocError>
        requires { 0 < most }
        ensures store { IfOk result (λ sink.
            sink.store ≡ record { written = []; room = room; most = most }) }
        ensures faults { IfOk result (λ sink. sink.faults ≡ no_faults) }
    {
        Ok(CalmSink {
            store: Store::new(alloc, room, most)?,
            faults: FaultCount::new(),
        })
    }

    /// The bytes that were written.
    pub fn as_slice(&self) -> &[u8]
        ensures { result.now ≡ self.now.store.written }
    {
        self.store.as_slice()
    }

    /// Takes out the bytes that were written.
    pub fn into_bytes(self) -> Bytes
        ensures { result ≡ self.store.written }
    {
        let CalmSink { store, .. } = self;
        store.into_bytes()
    }

    /// How many calls have failed.
    pub fn faults(&self) -> u64
        ensures { result ≡ self.now.faults.count }
    {
        self.faults.get()
    }
}

impl Sink for CalmSink {
    ghost written = { λ sink. Some sink.store.written };

    ghost faults = { λ sink. sink.faults.count };

    ghost has_failed = { λ sink. sink.faults.last };

    fn write(&mut self, piece: &[u8]) -> Result<usize, Failed>
        ensures bound { WritesAtMost result piece.now }
        ensures moves { IfOk result (λ count. 0 < length piece.now → 0 < count) }
        ensures bytes { WriteAppends (Some self.old.store.written) (Some self.new.store.written) result piece.now }
        ensures told { StaysTold (Some self.old.store.written) (Some self.new.store.written) }
        ensures counted { CountsFailures result self.old.faults.count self.new.faults.count }
        ensures last { self.new.faults.last ≡ is_err result }
        ensures fails { is_err result ≡ overflows self.old.store (length piece.now) }
        ensures count { IfOk result (λ count. count ≡ taken_count self.old.store (length piece.now)) }
        ensures ok { IfOk result (λ count.
            self.new.store ≡ record self.old.store { written = self.old.store.written ++ take count piece.now }) }
        ensures err { OnErr result (self.new.store ≡ self.old.store) }
    {
        let taken = self.store.append(piece);
        self.faults.note(taken.is_err());
        taken
    }
}
