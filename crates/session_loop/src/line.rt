//! A line while it is read.

ghost use Rattle.std.specs.Prelude.{◌≡◌, ◌<◌, ◌≤◌, ℕ, List, [], ◌+◌, ◌*◌, ◌-◌, ◌/◌, ◌^◌, ◌++◌, length, take, max, OnOk, IsTrue, ◌↔◌};
ghost use Rattle.session_loop.specs.Held.{HoldsLine};

use std::alloc::{AllocError, Global};

/// As many of a line's first bytes are kept.
const FRONT: usize = 4097;

/// The front of a line, and the line's length.
#[derive(Drop)]
pub struct Line {
    front: Vec<u8>,
    length: usize,
}

impl Line {
    /// The empty line.
    pub fn new(alloc: Global) -> Line
        ensures { HoldsLine result [] }
    {
        Line {
            front: Vec::new(alloc),
            length: 0,
        }
    }

    /// Makes it the empty line, and keeps the room.
    pub fn clear(&mut self)
        ensures { HoldsLine self.new [] }
    {
        self.front.clear();
        self.length = 0;
    }

    /// Goes on by the piece.
    pub fn add(&mut self, piece: &[u8]) -> Result<(), AllocError>
        requires { self.old.length + length piece.now < 2 ^ 64 }
        ensures line { OnOk result ((line : List ℕ) → HoldsLine self.old line
            → HoldsLine self.new (line ++ piece.now)) }
        ensures length { OnOk result (self.new.length ≡ self.old.length + length piece.now) }
    {
        keep_front(&mut self.front, piece)?;
        self.length += piece.len();
        Ok(())
    }

    /// The front of the line.
    pub fn front(&self) -> &[u8]
        ensures { (line : List ℕ) → HoldsLine self.now line → result.now ≡ take 4097 line }
    {
        &self.front
    }

    pub fn len(&self) -> usize
        ensures { result ≡ self.now.length }
    {
        self.length
    }
}

/// Goes on by as much of the piece as is kept.
fn keep_front(front: &mut Vec<u8>, piece: &[u8]) -> Result<(), AllocError>
    ensures { OnOk result ((line : List ℕ) → front.old.items ≡ take 4097 line
        → front.new.items ≡ take 4097 (line ++ piece.now)) }
{
    if front.len() >= FRONT {
        return Ok(());
    }
    let kept = piece.len().min(FRONT - front.len());
    front.extend_from_slice(&piece[..kept])?;
    Ok(())
}
