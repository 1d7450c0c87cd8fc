//! Room for bytes that are written.

ghost use Rattle.std.specs.Prelude.{◌≡◌, ◌<◌, ◌++◌, [], length, take, is_err, IfOk, OnErr};
ghost use Rattle.eu_io.specs.Memory.{taken_count, overflows};

use crate::fault::Failed;
use eu_name::bytes::Bytes;
use std::alloc::{AllocError, Global};
use std::marker::Model;

/// Room for a number of bytes, taken when the store is made, as a disk has it. It never grows.
#[derive(Drop)]
pub struct Store {
    written: Vec<u8>,
    room: usize,
    most: usize,
}

impl Model for Store {
    ghost use Rattle.std.specs.Prelude.{◌≤◌, ◌<◌, vec_len, vec_capacity};
    ghost use Rattle.eu_io.specs.Memory.{StoreState};

    ghost Value = { StoreState };

    ghost view = { λ inside. record { written = inside.written.items; room = inside.room; most = inside.most } };

    ghost invariant = { λ inside. (vec_len inside.written ≤ inside.room) × (inside.room ≤ vec_capacity inside.written) × (0 < inside.most) };
}

impl Store {
    /// A store without bytes that has room for `room` bytes, of which one call takes at most `most`.
    pub fn new(alloc: Global, room: usize, most: usize) -> Result<Store, AllocError>
        requires { 0 < most }
        ensures { IfOk result (λ store. store ≡ record { written = []; room = room; most = most }) }
    {
        Ok(Store {
            written: Vec::with_capacity(alloc, room)?,
            room,
            most,
        })
    }

    /// Appends a front of the piece, and answers its length. It fails only where there is no room.
    pub fn append(&mut self, piece: &[u8]) -> Result<usize, Failed>
        ensures fails { is_err result ≡ overflows self.old (length piece.now) }
        ensures count { IfOk result (λ count. count ≡ taken_count self.old (length piece.now)) }
        ensures moves { IfOk result (λ count. 0 < length piece.now → 0 < count) }
        ensures ok { IfOk result (λ count.
            self.new ≡ record self.old { written = self.old.written ++ take count piece.now }) }
        ensures err { OnErr result (self.new ≡ self.old) }
    {
        let free = self.room - self.written.len();
        let count = self.most.min(piece.len().min(free));
        if count == 0 && !piece.is_empty() {
            return Err(Failed);
        }
        match self.written.extend_from_slice(&piece[..count]) {
            Ok(()) => Ok(count),
            Err(_) => unreachable!("the room was taken when the store was made"),
        }
    }

    /// The bytes that were written.
    pub fn as_slice(&self) -> &[u8]
        ensures { result.now ≡ self.now.written }
    {
        self.written.as_slice()
    }

    /// Takes out the bytes that were written.
    pub fn into_bytes(self) -> Bytes
        ensures { result ≡ self.written }
    {
        let Store { written, .. } = self;
        Bytes::from_vec(written)
    }
}
