//! Why nothing is told.

ghost use Rattle.std.specs.Prelude.{◌≡◌, MatchResult, Ok, Err};
ghost use Rattle.conflict_core.specs.declared.fault.WhyFault.TheVariants.{Memory};

use std::alloc::AllocError;
use thiserror::Error;

/// Why nothing is told, in the order in which the reasons are looked for.
#[derive(Clone, Copy, Debug, PartialEq, Eq, Error)]
pub enum WhyFault {
    #[error("memory was wanting before, and the database has to be rebuilt")]
    Behind,
    #[error("the decisions leave something possible")]
    Consistent,
    #[error("out of memory")]
    Memory,
}

/// What was found, or that memory is wanting.
pub fn or_memory<T: Drop>(found: Result<T, AllocError>) -> Result<T, WhyFault>
    ensures { MatchResult found (λ value. result ≡ Ok value) (λ _. result ≡ Err Memory) }
{
    match found {
        Ok(value) => Ok(value),
        Err(_none) => Err(WhyFault::Memory),
    }
}
