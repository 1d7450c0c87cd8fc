//! Which blocks watch a variable.

ghost use Rattle.std.specs.Prelude.{◌≡◌, ◌≤◌, [], ◌∷◌, ◌++◌, length, take, vec_len, OnOk, OnErr};
ghost use Rattle.db_store.specs.Stores.{blocks_watching};
ghost use Rattle.db_store.specs.Watching.{AreListedUnder};

use cell_store::numbers::short;
use std::alloc::{AllocError, Global};
use std::marker::Model;
use token_store::lists::Lists;

/// A block watches a variable, each by its number.
#[derive(Clone, Copy)]
pub struct Watch {
    pub variable: u32,
    pub block: u32,
}

/// What watches what, in the order in which it came.
#[derive(Drop)]
pub struct Watchers {
    watches: Vec<Watch>,
    // The blocks that watch a variable, under its number.
    lists: Lists,
}

impl Model for Watchers {
    ghost use Rattle.std.specs.Prelude.{List};
    ghost use Rattle.db_store.specs.declared.watchers.Watch.{Watch};
    ghost use Rattle.db_store.specs.Watching.{AreListedUnder};

    ghost Value = { List Watch };

    ghost view = { λ watchers. watchers.watches.items };

    ghost invariant = { λ watchers. AreListedUnder watchers.watches.items watchers.lists };
}

impl Watchers {
    /// Nothing watches anything, which takes no memory.
    pub fn new(alloc: Global) -> Watchers
        ensures { result ≡ [] }
    {
        Watchers {
            watches: Vec::new(alloc),
            lists: Lists::new(alloc),
        }
    }

    pub fn len(&self) -> usize
        ensures { result ≡ length self.now }
    {
        self.watches.len()
    }

    /// The blocks that watch the variable, in the order in which they came.
    pub fn of(&self, variable: usize) -> &[u32]
        ensures { result.now ≡ blocks_watching self.now variable }
    {
        self.lists.of(variable)
    }

    /// Lets the block watch the variable.
    pub fn add(&mut self, variable: usize, block: usize) -> Result<(), AllocError>
        ensures ok { OnOk result (self.new ≡ self.old ++ record { variable = variable; block = block } ∷ []) }
        ensures err { OnErr result (self.new ≡ self.old) }
    {
        let watch = Watch {
            variable: short(variable)?,
            block: short(block)?,
        };
        self.watches.reserve(1)?;
        self.lists.add(variable, watch.block)?;
        self.watches.push_reserved(watch);
        Ok(())
    }

    /// Keeps the first so many, without memory.
    pub fn truncate(&mut self, count: usize)
        requires { count ≤ length self.old }
        ensures { self.new ≡ take count self.old }
    {
        go_back(&mut self.watches, &mut self.lists, count);
    }
}

// Goes back until there are so many.
fn go_back(watches: &mut Vec<Watch>, lists: &mut Lists, count: usize)
    requires listed { AreListedUnder watches.old.items lists.old }
    requires long { count ≤ vec_len watches.old }
    ensures kept { watches.new.items ≡ take count watches.old.items }
    ensures listed { AreListedUnder watches.new.items lists.new }
{
    while watches.len() > count {
        if let Some(last) = watches.pop() {
            lists.pop(last.variable as usize);
        }
    }
}
