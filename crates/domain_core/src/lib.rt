//! Domains of variables, which are ranges or sets of whole numbers: `Dom::range(0, 10)`, then `domain.meet_range(4, 20)`.
//! In come numbers and lists of them; out goes a domain, or a `Change`: none went, some went, or none would have been left.
//! Called by all crates that have domains, from narrow_core to the compiler, and for `Kind`, the kinds of constraints.
//! What each kind says of values is defined in specs/Constraints, but nothing is narrowed by it here.
//! Knows nothing of variables, and of how domains are stored. How the members of a set are kept and searched may change.
#![tactic(auto)]

ghost use Rattle.std.specs.Prelude.{◌≡◌};

mod distinct;
pub mod domain;
mod interval;
pub mod kind;
pub mod laws;
mod members;
pub mod number;

pub use domain::Dom;
pub use number::is_value;
use std::alloc::AllocError;

/// What taking values away did.
#[derive(Clone, Copy, Debug, PartialEq, Eq)]
pub enum Change {
    /// Nothing had to go.
    Same,
    /// Some values went, and some stayed.
    Smaller,
    /// Nothing would have been left, so nothing was taken.
    Empty,
}

impl Change {
    ghost use Rattle.domain_core.specs.Narrowing.{joined};

    /// What this step and the next one did together.
    pub fn then(self, next: Change) -> Change
        ensures { result ≡ joined self next }
    {
        match self {
            Change::Same => next,
            Change::Empty => Change::Empty,
            Change::Smaller => match next {
                Change::Empty => Change::Empty,
                _ => Change::Smaller,
            },
        }
    }
}

/// Why a list gives no set.
#[derive(Clone, Copy, Debug, PartialEq, Eq)]
pub enum SetFault {
    /// The list is empty, and a domain never is.
    Empty,
    /// One of its numbers is no value.
    OutOfRange,
    /// It has more distinct values than a set may have.
    TooMany,
    /// There is such a set, but no memory for it.
    Memory,
}

impl From<AllocError> for SetFault {
    ghost use Rattle.std.specs.Prelude.{◌≡◌};
    ghost use Rattle.domain_core.specs.declared.SetFault.TheVariants.{Memory};

    ghost from_gives = { λ _ fault. fault ≡ Memory };

    fn from(_none: AllocError) -> SetFault {
        SetFault::Memory
    }
}
