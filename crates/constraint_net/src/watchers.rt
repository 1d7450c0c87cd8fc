//! Which constraints name a variable.

ghost use Rattle.std.specs.Prelude.{◌≡◌, ◌+◌, ◌<◌, [], ◌∷◌, ◌++◌, length, slice_index_or, slice_set};
ghost use Rattle.std.specs.Prelude.{OnErr, OnOk};
ghost use Rattle.constraint_net.specs.Agendas.{KeepsBelow, Shortens};

use cell_store::numbers::short;
use smallvec::SmallVec;
use std::alloc::{AllocError, Global};
use std::marker::Model;

/// A list of numbers for each variable: those of the constraints that name it. Most lists are short, and take no memory of their
/// own.
#[derive(Drop)]
pub struct Watchers {
    lists: Vec<SmallVec<u32, 4>>,
}

impl Model for Watchers {
    ghost use Rattle.std.specs.Prelude.{ℕ, List, map};

    ghost Value = { List (List ℕ) };

    ghost view = { λ watchers. map (λ list. list.items) watchers.lists.items };
}

impl Watchers {
    /// No lists, which take no memory.
    pub fn new(alloc: Global) -> Watchers
        ensures { result ≡ [] }
    {
        Watchers {
            lists: Vec::new(alloc),
        }
    }

    pub fn len(&self) -> usize
        ensures { result ≡ length self.now }
    {
        self.lists.len()
    }

    /// Adds an empty list.
    pub fn grow(&mut self) -> Result<(), AllocError>
        ensures ok { OnOk result (self.new ≡ self.old ++ [] ∷ []) }
        ensures err { OnErr result (self.new ≡ self.old) }
    {
        let empty = SmallVec::new(*self.lists.allocator());
        self.lists.push(empty)?;
        Ok(())
    }

    /// The numbers in the list of the variable.
    pub fn of(&self, variable: usize) -> &[u32]
        requires { variable < length self.now }
        ensures { result.now ≡ slice_index_or self.now variable [] }
    {
        self.lists[variable].as_slice()
    }

    /// Adds a number to the list of the variable.
    pub fn add(&mut self, variable: usize, number: usize) -> Result<(), AllocError>
        requires { variable < length self.old }
        ensures ok { OnOk result (self.new
            ≡ slice_set self.old variable (slice_index_or self.old variable [] ++ number ∷ [])) }
        ensures err { OnErr result (self.new ≡ self.old) }
    {
        let number = short(number)?;
        self.lists[variable].push(number)?;
        Ok(())
    }

    /// Takes numbers off the end of the variable's list, as long as they aren't below the count.
    pub fn trim(&mut self, variable: usize, count: usize)
        requires { variable < length self.old }
        ensures { KeepsBelow count self.old self.new }
    {
        trim(&mut self.lists[variable], count);
    }
}

// Takes numbers off the end that aren't below the count.
fn trim(list: &mut SmallVec<u32, 4>, count: usize)
    ensures { Shortens count list.old.items list.new.items }
{
    while let Some(last) = list.as_slice().last().copied() {
        if (last as usize) < count {
            return;
        }
        let _last = list.pop();
    }
}
