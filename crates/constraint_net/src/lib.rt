//! Variables with domains, and constraints on them: `net.post(Kind::Leq, &args)?`, `net.propagate_all()?`.
//! In come domains, tables of fields, constraints by numbers of variables; out go domains, stamps and changed variables.
//! After `propagate_all` the domains are the greatest consistent ones; `NetFault::Collapsed` says that there are none.
//! Called by the database, whose store (db_store) has a `Net`.
//! Knows nothing of tokens, rules, decisions, and what a variable stands for. The order of the agenda may change.
#![tactic(auto)]

mod agenda;
pub mod constraint;
mod domains;
mod kinds;
pub mod laws;
pub mod network;
mod posted;
mod propagating;
mod queue;
mod reading;
mod watchers;
mod written;

pub use constraint::NetArg;
pub use network::{Mark, Net};
use std::alloc::AllocError;

/// Why there are no greatest consistent domains.
#[derive(Clone, Copy, Debug, PartialEq, Eq)]
pub enum NetFault {
    /// No domains within those that were there are consistent.
    Collapsed,
    Memory,
}

impl From<AllocError> for NetFault {
    ghost use Rattle.std.specs.Prelude.{◌≡◌};
    ghost use Rattle.constraint_net.specs.declared.NetFault.TheVariants.{Memory};

    ghost from_gives = { λ _ fault. fault ≡ Memory };

    fn from(_none: AllocError) -> NetFault {
        NetFault::Memory
    }
}
