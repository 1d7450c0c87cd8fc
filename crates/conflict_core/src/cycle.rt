//! The cycle of time edges that leave nothing possible.

ghost use Rattle.std.specs.Prelude.{MatchResult};
ghost use Rattle.conflict_core.specs.Answers.{AnswersCycle, AnswersNoReason};

use super::fault::{WhyFault, or_memory};
use crate::cycle_of;
use plan_db::{Db, EdgeFault, NamedEdge};
use std::alloc::Global;

/// The cycle of the time edges of the decisions that stand, where these leave nothing possible, from its first point on. It is
/// empty exactly where the edges have a schedule.
pub fn time_cycle(alloc: Global, db: &Db) -> Result<Vec<NamedEdge>, WhyFault>
    ensures { MatchResult result (λ cycle. AnswersCycle db.now cycle.items) (AnswersNoReason db.now) }
{
    match db.time_edges() {
        Ok(edges) => or_memory(cycle_of(alloc, edges.as_slice())),
        Err(EdgeFault::Behind) => Err(WhyFault::Behind),
        Err(EdgeFault::Consistent) => Err(WhyFault::Consistent),
        Err(EdgeFault::Memory) => Err(WhyFault::Memory),
    }
}
