//! Queues of numbers, each of which stands there at most once.

ghost use Rattle.std.specs.Prelude.{◌≡◌, ◌↔◌, ◌+◌, ◌^◌, ◌≤◌, [], ◌∷◌, length, IsTrue, OnOk, MatchOption};
ghost use Rattle.constraint_net.specs.Queues.{AreFrom, Takes, IsForemost};

use cell_store::numbers::short;
use std::alloc::{AllocError, Global};
use std::collections::VecDeque;
use std::marker::Model;

/// Numbers in the order in which they came, each at most once. There is room for all numbers below a bound, so adding
/// one takes no memory.
#[derive(Drop)]
pub struct Queue {
    items: VecDeque<u32>,
    // Whether a number stands among the items.
    standing: Vec<bool>,
}

impl Model for Queue {
    ghost use Rattle.constraint_net.specs.Queues.{Queued, IsQueue};
    ghost use Rattle.std.specs.Prelude.{length};
    ghost use Rattle.std.specs.VecDeque.{deque_capacity};

    ghost Value = { Queued };

    ghost view = { λ queue. record { items = queue.items.items; room = length queue.standing.items } };

    ghost invariant = { λ queue. IsQueue queue.items.items queue.standing.items (deque_capacity queue.items) };
}

impl Queue {
    /// A queue without numbers and without room, which takes no memory.
    pub fn new(alloc: Global) -> Queue
        ensures { result ≡ record { items = []; room = 0 } }
    {
        Queue {
            items: VecDeque::new(alloc),
            standing: Vec::new(alloc),
        }
    }

    /// The numbers below this one may be added.
    pub fn room(&self) -> usize
        ensures room { result ≡ self.now.room }
        ensures short { self.now.room ≤ 2 ^ 32 }
    {
        self.standing.len()
    }

    /// Makes room for one number more, as long as all fit into 32 bits.
    pub fn grow(&mut self) -> Result<(), AllocError>
        ensures items { self.new.items ≡ self.old.items }
        ensures room { self.old.room ≤ self.new.room }
        ensures grown { OnOk result (self.old.room + 1 ≤ self.new.room) }
    {
        let room = self.standing.len();
        short(room)?;
        let missing = room - self.items.len();
        self.items.reserve(missing + 1)?;
        self.standing.push(false)?;
        Ok(())
    }

    /// Adds the number at the end, if it doesn't stand there and there is room for it.
    pub fn add(&mut self, number: usize)
        ensures { Takes number self.old self.new }
    {
        if number >= self.standing.len() {
            return;
        }
        if self.standing[number] {
            return;
        }
        self.standing[number] = true;
        self.items.push_back_reserved(number as u32);
    }

    /// The first of the numbers.
    pub fn first(&self) -> Option<usize>
        ensures first { MatchOption result (self.now.items ≡ []) (λ number. IsForemost number self.now) }
        ensures few { length self.now.items ≤ self.now.room }
    {
        match self.items.front() {
            Some(number) => Some(*number as usize),
            None => None,
        }
    }

    /// Whether each of the numbers is from the count on.
    pub fn is_from(&self, count: usize) -> bool
        ensures { IsTrue result ↔ AreFrom count self.now.items }
    {
        are_from(&self.items, count)
    }

    /// Takes the first of the numbers off.
    pub fn take(&mut self) -> Option<usize>
        ensures taken { MatchOption result ((self.old.items ≡ []) × (self.new ≡ self.old))
            (λ number. self.old.items ≡ number ∷ self.new.items) }
        ensures room { self.new.room ≡ self.old.room }
    {
        let number = self.items.pop_front()?;
        self.standing[number as usize] = false;
        Some(number as usize)
    }
}

/// Takes all numbers off.
pub fn clear(queue: &mut Queue)
    ensures items { queue.new.items ≡ [] }
    ensures room { queue.new.room ≡ queue.old.room }
{
    while let Some(_number) = queue.first() {
        let _taken = queue.take();
    }
}

// Whether each of the numbers is from the count on.
fn are_from(numbers: &VecDeque<u32>, count: usize) -> bool
    ensures { IsTrue result ↔ AreFrom count numbers.now.items }
{
    for place in 0..numbers.len() {
        if (numbers[place] as usize) < count {
            return false;
        }
    }
    true
}
