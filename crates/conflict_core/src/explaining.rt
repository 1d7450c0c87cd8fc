//! Why the decisions of a database leave nothing.

ghost use Rattle.std.specs.Prelude.{IfOk, MatchResult};
ghost use Rattle.law_states.specs.Conflicts.{IsMinimal};
ghost use Rattle.conflict_core.specs.Answers.{AnswersConflict, AnswersNoReason};

use super::conflict::conflict_of;
use super::fault::{WhyFault, or_memory};
use law_states::conflicts::conflicts_are_minimal;
use model_core::decision::Decision;
use plan_db::Db;
use std::alloc::Global;

/// The conflict of the decisions that stand, where these leave nothing possible: from the first on, each is left out without
/// which what can be kept of the rest still leaves nothing. Where none stands, it is empty.
pub fn why(alloc: Global, db: &Db) -> Result<Vec<Decision>, WhyFault>
    ensures told { MatchResult result (λ conflict. AnswersConflict db.now conflict.items) (AnswersNoReason db.now) }
    ensures minimal { IfOk result (λ conflict. IsMinimal db.now.database.model conflict.items) }
{
    conflicts_are_minimal();
    if db.is_behind() {
        return Err(WhyFault::Behind);
    }
    if db.is_consistent() {
        return Err(WhyFault::Consistent);
    }
    or_memory(conflict_of(alloc, db.model(), db.decisions()))
}
