//! The bytes of replies.

ghost use Rattle.std.specs.Prelude.{◌≡◌, [], IfOk};
ghost use Rattle.session_core.specs.Reasons.{outcome_text, refusal};
ghost use Rattle.session_core.specs.Steps.{SaysStep};

use super::reason::{RefusalReason, StepStop, word_of};
use eu_name::bytes::Bytes;
use plan_db::Outcome;
use session_replies::one_line;
use std::alloc::{AllocError, Global};

/// The reply that says nothing.
pub fn no_reply(alloc: Global) -> Bytes
    ensures { result ≡ [] }
{
    Bytes::from_vec(Vec::new(alloc))
}

/// What a step is answered that ended so.
pub fn step_reply(alloc: Global, step: Result<Outcome, StepStop>) -> Result<Bytes, AllocError>
    ensures { IfOk result (λ reply. SaysStep step reply) }
{
    match step {
        Ok(outcome) => outcome_reply(alloc, outcome),
        Err(StepStop::Refused(reason)) => refused(alloc, reason),
        Err(StepStop::Memory) => Err(AllocError),
    }
}

/// Whether the decisions leave something possible.
pub fn outcome_reply(alloc: Global, outcome: Outcome) -> Result<Bytes, AllocError>
    ensures { IfOk result (λ reply. reply ≡ outcome_text outcome) }
{
    match outcome {
        Outcome::Consistent => one_line(String::from_str(alloc, "ok")?),
        Outcome::Inconsistent => one_line(String::from_str(alloc, "inconsistent")?),
    }
}

/// The reply that refuses a line.
pub fn refused(alloc: Global, reason: RefusalReason) -> Result<Bytes, AllocError>
    ensures { IfOk result (λ reply. reply ≡ refusal reason) }
{
    let word = word_of(reason);
    one_line(format!(in alloc; "refused {word}")?)
}
