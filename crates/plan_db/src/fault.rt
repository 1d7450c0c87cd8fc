//! What the calls of the database answer.

ghost use Rattle.std.specs.Prelude.{◌≡◌};
ghost use Rattle.plan_db.specs.Faults.{fault_for};

use db_history::Objection;
use model_core::refusal::Refusal;
use std::alloc::AllocError;
use thiserror::Error;

/// Whether the decisions that stand now leave something possible.
#[derive(Clone, Copy, Debug, PartialEq, Eq)]
pub enum Outcome {
    Consistent,
    /// No state fits the decisions. Undo leads back.
    Inconsistent,
}

/// Why a call changed no decision, in the order in which the reasons are looked for.
#[derive(Clone, Copy, Debug, PartialEq, Eq, Error)]
pub enum DbFault {
    #[error("memory was wanting before, and the database has to be rebuilt")]
    Behind,
    #[error("the decisions leave nothing possible, so none can be added")]
    InInconsistent,
    #[error("there is no such variable or token")]
    Unknown,
    #[error("the constraint doesn't take these arguments")]
    WrongType,
    #[error("it is decided already")]
    Decided,
    #[error("the variable was never allowed to have this value, or it is no value of its kind")]
    NotInDomain,
    #[error("a token isn't active")]
    NotActive,
    #[error("the tokens are of different predicates")]
    NotSamePredicate,
    #[error("the token isn't one that may be rejected")]
    NotRejectable,
    #[error("the two tokens are one")]
    Same,
    #[error("as many tokens are active as may be")]
    ActiveFull,
    #[error("no such decision stands")]
    NoSuchDecision,
    #[error("there is nothing to take back")]
    Nothing,
    #[error("out of memory")]
    Memory,
}

/// Why a question has no answer, in the order in which the reasons are looked for.
#[derive(Clone, Copy, Debug, PartialEq, Eq, Error)]
pub enum QueryFault {
    #[error("memory was wanting before, and the database has to be rebuilt")]
    Behind,
    #[error("the decisions leave nothing possible")]
    Inconsistent,
    #[error("there is no such variable")]
    Unknown,
}

impl From<AllocError> for DbFault {
    ghost use Rattle.std.specs.Prelude.{◌≡◌};
    ghost use Rattle.plan_db.specs.declared.fault.DbFault.TheVariants.{Memory};

    ghost from_gives = { λ _ fault. fault ≡ Memory };

    fn from(_none: AllocError) -> DbFault {
        DbFault::Memory
    }
}

impl From<Objection> for DbFault {
    ghost use Rattle.std.specs.Prelude.{◌≡◌};
    ghost use Rattle.plan_db.specs.Faults.{fault_of};

    ghost from_gives = { λ objection fault. fault ≡ fault_of objection };

    fn from(objection: Objection) -> DbFault {
        match objection {
            Objection::Collapsed => DbFault::InInconsistent,
            Objection::Refused(reason) => fault_for(reason),
        }
    }
}

// The fault of a decision that is refused for this reason.
fn fault_for(reason: Refusal) -> DbFault
    ensures { result ≡ fault_for reason }
{
    match reason {
        Refusal::Unknown => DbFault::Unknown,
        Refusal::WrongType => DbFault::WrongType,
        Refusal::Decided => DbFault::Decided,
        Refusal::NotInDomain => DbFault::NotInDomain,
        Refusal::NotActive => DbFault::NotActive,
        Refusal::NotSamePredicate => DbFault::NotSamePredicate,
        Refusal::NotRejectable => DbFault::NotRejectable,
        Refusal::SameToken => DbFault::Same,
        Refusal::ActiveFull => DbFault::ActiveFull,
    }
}
