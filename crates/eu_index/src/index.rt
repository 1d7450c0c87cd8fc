//! Where names stand first.

ghost use Rattle.std.specs.Prelude.{◌≡◌, ◌++◌, ◌∷◌, [], IfOk, OnOk, OnErr, None, is_none};
ghost use Rattle.eu_index.specs.Index.{noted_number, with_noted};

use eu_name::laws::names_are_told_apart;
use eu_name::text::Text;
use indexmap::IndexMap;
use std::alloc::{AllocError, Global};
use std::marker::Model;

/// Names, each with the number under which it was noted first.
#[derive(Drop)]
pub struct NameIndex {
    numbers: IndexMap<Text, usize>,
}

impl Model for NameIndex {
    ghost use Rattle.eu_index.specs.Index.{Noted};

    ghost Value = { Noted };

    ghost view = { λ inside. inside.numbers.entries };
}

impl NameIndex {
    /// No names, which take no memory.
    pub fn new(alloc: Global) -> NameIndex
        ensures { result ≡ [] }
    {
        NameIndex {
            numbers: IndexMap::new(alloc),
        }
    }

    /// The number under which the name was noted first.
    pub fn find(&self, name: &Text) -> Option<usize>
        ensures { result ≡ noted_number self.now name.now }
    {
        names_are_told_apart();
        self.numbers.get(name).copied()
    }

    /// Notes the name under the number, unless it was noted before. Answers whether it wasn't.
    pub fn note(&mut self, name: &Text, number: usize) -> Result<bool, AllocError>
        ensures noted { IfOk result (λ _. self.new ≡ with_noted self.old name.now number) }
        ensures new { IfOk result (λ is_new. is_new ≡ is_none (noted_number self.old name.now)) }
        ensures err { OnErr result (self.new ≡ self.old) }
    {
        names_are_told_apart();
        if self.numbers.get(name).is_some() {
            return Ok(false);
        }
        put_new(&mut self.numbers, name.copy()?, number)?;
        Ok(true)
    }
}

// Puts a name behind the others that isn't among them.
fn put_new(numbers: &mut IndexMap<Text, usize>, name: Text, number: usize) -> Result<(), AllocError>
    requires { noted_number numbers.old.entries name ≡ None }
    ensures ok { OnOk result (numbers.new.entries ≡ numbers.old.entries ++ (name, number) ∷ []) }
    ensures err { OnErr result (numbers.new.entries ≡ numbers.old.entries) }
{
    numbers.insert(name, number)?;
    Ok(())
}
