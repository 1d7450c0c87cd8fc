//! Why nothing is possible.

ghost use Rattle.std.specs.Prelude.{◌≡◌, IfOk};
ghost use Rattle.conflict_core.specs.declared.fault.WhyFault.TheVariants as why;
ghost use Rattle.script_lang.specs.declared.command.Command.TheVariants as commands;
ghost use Rattle.session_core.specs.declared.reason.RefusalReason.TheVariants.{Consistent};
ghost use Rattle.session_core.specs.Reasons.{refusal};
ghost use Rattle.session_core.specs.Steps.{AnswersCommand};

use crate::RefusalReason;
use crate::replies::refused;
use conflict_core::{WhyFault, time_cycle, why};
use eu_name::bytes::Bytes;
use plan_db::Db;
use session_replies::replies::{cycle_reply, decisions_reply};
use std::alloc::{AllocError, Global};

// Why there is nothing to explain.
fn unexplained(alloc: Global, fault: WhyFault) -> Result<Bytes, AllocError>
    ensures { IfOk result (λ reply. (fault ≡ why.Consistent) × (reply ≡ refusal Consistent)) }
{
    match fault {
        WhyFault::Consistent => refused(alloc, RefusalReason::Consistent),
        WhyFault::Behind | WhyFault::Memory => Err(AllocError),
    }
}

/// The conflict of the decisions that stand, where they leave nothing possible.
pub fn why_reply(alloc: Global, db: &Db) -> Result<Bytes, AllocError>
    ensures { AnswersCommand db.now.database commands.Why result db.now.database }
{
    match why(alloc, db) {
        Ok(conflict) => decisions_reply(alloc, db.model(), b"conflict", conflict.as_slice()),
        Err(fault) => unexplained(alloc, fault),
    }
}

/// The cycle of their time edges, where they leave nothing possible.
pub fn why_cycle(alloc: Global, db: &Db) -> Result<Bytes, AllocError>
    ensures { AnswersCommand db.now.database commands.Cycle result db.now.database }
{
    match time_cycle(alloc, db) {
        Ok(cycle) => cycle_reply(alloc, db.model(), cycle.as_slice()),
        Err(fault) => unexplained(alloc, fault),
    }
}
