//! Names that are seen where a path stands.

ghost use Rattle.std.specs.Prelude.{◌≡◌, ◌++◌, ◌∷◌, [], OnOk, length, take};
ghost use Rattle.nddl_resolve.specs.Paths.{last_seen};
ghost use Rattle.nddl_resolve.specs.Seen.{seen_as};

use super::denoted::Denoted;
use eu_index::Innermost;
use eu_name::text::Text;
use std::alloc::{AllocError, Global};
use std::marker::Model;

/// Names with what they mean, the innermost last, which contracts see as a list. The last of a name is found by one
/// look-up.
#[derive(Drop)]
pub struct SeenNames {
    names: Innermost<Denoted>,
}

impl Model for SeenNames {
    ghost use Rattle.std.specs.Prelude.{List};
    ghost use Rattle.nddl_resolve.specs.declared.denoted.Seen.{Seen};
    ghost use Rattle.nddl_resolve.specs.Seen.{all_seen};

    ghost Value = { List Seen };

    ghost view = { λ inside. all_seen inside.names };
}

impl SeenNames {
    /// No names, which take no memory.
    pub fn new(alloc: Global) -> SeenNames
        ensures { result ≡ [] }
    {
        SeenNames {
            names: Innermost::new(alloc),
        }
    }

    /// What the last of this name means.
    #[tactic(auto, using(crate::proofs::Pairs::found_last))]
    pub fn last(&self, name: &Text) -> Option<Denoted>
        ensures { result ≡ last_seen name.now self.now }
    {
        self.names.find(name)
    }

    /// One more, which hides others of its name.
    #[tactic(auto, using(crate::proofs::Pairs::seen_more))]
    pub fn push(&mut self, name: &Text, denoted: Denoted) -> Result<(), AllocError>
        ensures { OnOk result (self.new ≡ self.old ++ seen_as name.now denoted ∷ []) }
    {
        self.names.push(name, denoted)
    }

    #[tactic(auto, using(crate::proofs::Pairs::as_many))]
    pub fn len(&self) -> usize
        ensures { result ≡ length self.now }
    {
        self.names.len()
    }

    /// The first so many. Without memory some more may be left.
    #[tactic(auto, using(crate::proofs::Pairs::seen_front))]
    pub fn truncate(&mut self, count: usize) -> Result<(), AllocError>
        ensures { OnOk result (self.new ≡ take count self.old) }
    {
        self.names.truncate(count)
    }
}
