//! An index of words that are asked for by their bytes.

ghost use Rattle.std.specs.Prelude.{◌≡◌, ◌++◌, ◌∷◌, [], None, OnOk, vec_items};
ghost use Rattle.eu_index.specs.Index.{noted_number, with_noted};
ghost use Rattle.plan_resolve.specs.Noting.{noted_by};

use indexmap::IndexMap;
use std::alloc::{AllocError, Global};
use std::marker::Model;

/// Words, each with the number under which it was noted first. A part of a text is looked up as it stands, without a copy.
#[derive(Drop)]
pub struct WordIndex {
    numbers: IndexMap<Vec<u8>, usize>,
}

impl Model for WordIndex {
    ghost use Rattle.std.specs.Prelude.{vec_items};
    ghost use Rattle.eu_index.specs.Index.{Noted};
    ghost use Rattle.plan_resolve.specs.Noting.{noted_by};

    ghost Value = { Noted };

    ghost view = { λ inside. noted_by vec_items inside.numbers.entries };
}

impl WordIndex {
    /// No words, which take no memory.
    pub fn new(alloc: Global) -> WordIndex
        ensures { result ≡ [] }
    {
        WordIndex {
            numbers: IndexMap::new(alloc),
        }
    }

    /// The number under which the word was noted first.
    pub fn find(&self, word: &[u8]) -> Option<usize>
        ensures { result ≡ noted_number self.now word.now }
    {
        self.numbers.get(word).copied()
    }

    /// Notes the word under the number, unless it was noted before.
    pub fn note(&mut self, alloc: Global, word: &[u8], number: usize) -> Result<(), AllocError>
        ensures { OnOk result (self.new ≡ with_noted self.old word.now number) }
    {
        if self.find(word).is_some() {
            return Ok(());
        }
        put_new(&mut self.numbers, Vec::from_slice(alloc, word)?, number)
    }
}

// Puts a word behind the others that isn't among them.
fn put_new(
    numbers: &mut IndexMap<Vec<u8>, usize>,
    word: Vec<u8>,
    number: usize,
) -> Result<(), AllocError>
    requires { noted_number (noted_by vec_items numbers.old.entries) word.items ≡ None }
    ensures { OnOk result (noted_by vec_items numbers.new.entries
        ≡ noted_by vec_items numbers.old.entries ++ (word.items, number) ∷ []) }
{
    numbers.insert(word, number)?;
    Ok(())
}
