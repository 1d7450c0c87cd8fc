//! Why a line is refused, and why a step isn't made.

ghost use Rattle.std.specs.Prelude.{◌≡◌};
ghost use Rattle.session_core.specs.Reasons.{reason_word, refusal_word};
ghost use Rattle.session_core.specs.Steps.{refused_for, step_for, stop_for};

use model_core::refusal::Refusal;
use plan_db::{DbFault, Outcome};

/// Why a line is refused, in the order in which the reasons are looked for.
#[derive(Clone, Copy, Debug, PartialEq, Eq)]
pub enum RefusalReason {
    /// The line has more bytes than a line may have.
    Long,
    /// Its words are no command.
    Syntax,
    /// So many steps could be taken back that no further one is taken.
    Full,
    /// A decision is asked for, and those that stand leave nothing possible.
    Inconsistent,
    /// The decision is refused for this reason. `Unknown` is also said of a line that names no token, variable or value.
    Decision(Refusal),
    /// There is no such decision to take out.
    NoDecision,
    /// There is no step to take back.
    Nothing,
    /// Something is possible, so there is nothing to explain.
    Consistent,
}

/// Why a step isn't made.
#[derive(Clone, Copy, Debug, PartialEq, Eq)]
pub enum StepStop {
    Refused(RefusalReason),
    /// Memory was wanting, now or before.
    Memory,
}

// The word that is printed for the reason against a decision.
fn refusal_word(refusal: Refusal) -> &'static str
    ensures { result.now ≡ refusal_word refusal }
{
    match refusal {
        Refusal::Unknown => "unknown",
        Refusal::WrongType => "wrong-type",
        Refusal::Decided => "decided",
        Refusal::NotInDomain => "not-in-domain",
        Refusal::NotActive => "not-active",
        Refusal::NotSamePredicate => "not-same-predicate",
        Refusal::NotRejectable => "not-rejectable",
        Refusal::SameToken => "same",
        Refusal::ActiveFull => "active-full",
    }
}

/// The word that is printed for the reason.
pub fn word_of(reason: RefusalReason) -> &'static str
    ensures { result.now ≡ reason_word reason }
{
    match reason {
        RefusalReason::Long => "long",
        RefusalReason::Syntax => "syntax",
        RefusalReason::Full => "full",
        RefusalReason::Inconsistent => "inconsistent",
        RefusalReason::Decision(refusal) => refusal_word(refusal),
        RefusalReason::NoDecision => "no-decision",
        RefusalReason::Nothing => "nothing",
        RefusalReason::Consistent => "consistent",
    }
}

// That a decision is refused for this reason.
fn refused_for(refusal: Refusal) -> StepStop
    ensures { result ≡ refused_for refusal }
{
    StepStop::Refused(RefusalReason::Decision(refusal))
}

// How a fault of the database stops a step.
fn stop_of(fault: DbFault) -> StepStop
    ensures { result ≡ stop_for fault }
{
    match fault {
        DbFault::Behind => StepStop::Memory,
        DbFault::InInconsistent => StepStop::Refused(RefusalReason::Inconsistent),
        DbFault::Unknown => refused_for(Refusal::Unknown),
        DbFault::WrongType => refused_for(Refusal::WrongType),
        DbFault::Decided => refused_for(Refusal::Decided),
        DbFault::NotInDomain => refused_for(Refusal::NotInDomain),
        DbFault::NotActive => refused_for(Refusal::NotActive),
        DbFault::NotSamePredicate => refused_for(Refusal::NotSamePredicate),
        DbFault::NotRejectable => refused_for(Refusal::NotRejectable),
        DbFault::Same => refused_for(Refusal::SameToken),
        DbFault::ActiveFull => refused_for(Refusal::ActiveFull),
        DbFault::NoSuchDecision => StepStop::Refused(RefusalReason::NoDecision),
        DbFault::Nothing => StepStop::Refused(RefusalReason::Nothing),
        DbFault::Memory => StepStop::Memory,
    }
}

/// How a call of the database ends a step.
pub fn step_of(done: Result<Outcome, DbFault>) -> Result<Outcome, StepStop>
    ensures { result ≡ step_for done }
{
    match done {
        Ok(outcome) => Ok(outcome),
        Err(fault) => Err(stop_of(fault)),
    }
}
