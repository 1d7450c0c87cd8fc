//! Numbers that are listed under others.

ghost use Rattle.std.specs.Prelude.{◌≡◌, ◌==◌, ◌-◌, ◌++◌, ℕ, nat_eq, if◌then◌else◌, [], ◌∷◌, length, take};
ghost use Rattle.std.specs.Prelude.{OnOk, OnErr, IsSome};
ghost use Rattle.std.specs.Map.{lookup};
ghost use Rattle.token_store.specs.Listed.{listed_under, lists_of, with_one_more, without_last};

use indexmap::IndexMap;
use std::alloc::{AllocError, Global};

/// Lists of numbers, each under a number, in the order in which they came. A number under which there never were any takes no
/// memory.
#[derive(Drop)]
pub struct Lists {
    lists: IndexMap<usize, Vec<u32>>,
}

impl Lists {
    /// Nothing under any number, which takes no memory.
    pub fn new(alloc: Global) -> Lists
        ensures { lists_of result ≡ (λ under. []) }
    {
        Lists {
            lists: IndexMap::new(alloc),
        }
    }

    /// What is listed under the number.
    pub fn of(&self, under: usize) -> &[u32]
        ensures { result.now ≡ lists_of self.now under }
    {
        match self.lists.get(&under) {
            Some(list) => list.as_slice(),
            None => &[],
        }
    }

    /// Puts a number at the end of the list under another.
    pub fn add(&mut self, under: usize, number: u32) -> Result<(), AllocError>
        ensures ok { OnOk result (lists_of self.new ≡ with_one_more (lists_of self.old) under number) }
        ensures err { OnErr result (lists_of self.new ≡ lists_of self.old) }
    {
        add_under(&mut self.lists, under, number)
    }

    /// Takes the last number off the list under this one, if there is one.
    pub fn pop(&mut self, under: usize)
        ensures { lists_of self.new ≡ without_last (lists_of self.old) under }
    {
        pop_under(&mut self.lists, under);
    }
}

// Puts the number at the end of the list under the other.
fn add_under(
    lists: &mut IndexMap<usize, Vec<u32>>,
    under: usize,
    number: u32,
) -> Result<(), AllocError>
    ensures ok { OnOk result ((other : ℕ) → listed_under lists.new.entries other
        ≡ (let list = listed_under lists.old.entries other in
        if under == other then list ++ number ∷ [] else list)) }
    ensures err { OnErr result ((other : ℕ)
        → listed_under lists.new.entries other ≡ listed_under lists.old.entries other) }
{
    make_list(lists, under)?;
    push_under(lists, under, number)
}

// Sees to it that there is a list under the number.
fn make_list(lists: &mut IndexMap<usize, Vec<u32>>, under: usize) -> Result<(), AllocError>
    ensures same { (other : ℕ) → listed_under lists.new.entries other ≡ listed_under lists.old.entries other }
    ensures there { OnOk result (IsSome (lookup (nat_eq under) lists.new.entries)) }
{
    if lists.contains_key(&under) {
        return Ok(());
    }
    let none = Vec::new(*lists.allocator());
    lists.insert(under, none)?;
    Ok(())
}

// Puts the number at the end of a list that is there.
fn push_under(
    lists: &mut IndexMap<usize, Vec<u32>>,
    under: usize,
    number: u32,
) -> Result<(), AllocError>
    requires { IsSome (lookup (nat_eq under) lists.old.entries) }
    ensures ok { OnOk result ((other : ℕ) → listed_under lists.new.entries other
        ≡ (let list = listed_under lists.old.entries other in
        if under == other then list ++ number ∷ [] else list)) }
    ensures err { OnErr result ((other : ℕ)
        → listed_under lists.new.entries other ≡ listed_under lists.old.entries other) }
{
    match lists.get_mut(&under) {
        Some(list) => {
            list.push(number)?;
            Ok(())
        }
        None => unreachable!(),
    }
}

// Takes the last number off the list under this one.
fn pop_under(lists: &mut IndexMap<usize, Vec<u32>>, under: usize)
    ensures { (other : ℕ) → listed_under lists.new.entries other
        ≡ (let list = listed_under lists.old.entries other in
        if under == other then take (length list - 1) list else list) }
{
    if let Some(list) = lists.get_mut(&under) {
        let _last = list.pop();
    }
}
