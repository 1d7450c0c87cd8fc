//! Things of which each may come once.

ghost use Rattle.std.specs.Prelude.{◌≡◌, [], IfOk};
ghost use Rattle.eu_name.specs.Laws.{DecidesEquality};
ghost use Rattle.model_rules.specs.Distinct.{AddsNew};

use indexmap::IndexSet;
use std::alloc::{AllocError, Global};
use std::hash::Hash;
use std::marker::Model;

/// Things in the order in which they came, each once.
#[derive(Drop)]
pub struct Seen<K: Eq + Hash> {
    keys: IndexSet<K>,
}

impl<K: Eq + Hash> Model for Seen<K> {
    ghost use Rattle.std.specs.Prelude.{List};
    ghost use Rattle.std.specs.Coded.{coded_list};

    ghost Value = { List K };

    ghost coded = { coded_list K.code };

    ghost view = { λ inside. inside.keys.keys };
}

impl<K: Eq + Hash + Drop> Seen<K> {
    /// Nothing, which takes no memory.
    pub fn new(alloc: Global) -> Seen<K>
        ensures { result ≡ [] }
    {
        Seen {
            keys: IndexSet::new(alloc),
        }
    }

    /// Puts the thing behind the others, unless it is among them. Answers whether it wasn't.
    pub fn add(&mut self, key: K) -> Result<bool, AllocError>
        requires { DecidesEquality K.eq }
        ensures { IfOk result (λ is_new. AddsNew self.old key is_new self.new) }
    {
        let (_place, is_new) = self.keys.insert_full(key)?;
        Ok(is_new)
    }
}
