//! The search from the decisions that stand.

ghost use Rattle.std.specs.Prelude.{◌≡◌, ◌<◌, ◌≤◌, false, IfOk};
ghost use Rattle.session_replies.specs.Texts.{IsFlawlessEnd};
ghost use Rattle.run_commands.specs.Searching.{SearchesTo, collapsed_end, end_of};

use crate::RunEnd;
use flaw_core::Plain;
use flaw_core::laws::plain_searches_are_searches;
use plan_db::Db;
use solver_core::{SearchEnd, SolveFault, solve};
use std::alloc::{AllocError, Global};

// The search from decisions that leave nothing, which is exhausted at its first visit.
fn collapsed() -> SearchEnd
    ensures { result ≡ collapsed_end }
{
    SearchEnd::Exhausted(1, false)
}

/// Searches for a plan from the decisions that stand, in so many visits and with no more active tokens than the bound. Where it finds
/// one its decisions then stand.
pub fn search(alloc: Global, db: &mut Db, budget: u32, tokens: u32) -> Result<SearchEnd, AllocError>
    requires ready { db.old.behind ≡ false }
    requires some { 0 < budget }
    requires tokens { tokens ≤ 512 }
    ensures searches { IfOk result (λ end. SearchesTo tokens budget db.old.database end db.new.database) }
    ensures flawless { IfOk result (λ end. IsFlawlessEnd end db.new.database) }
    ensures ready { IfOk result (λ _. db.new.behind ≡ false) }
{
    plain_searches_are_searches();
    match solve(alloc, db, &Plain, budget, tokens) {
        Ok(end) => Ok(end),
        Err(SolveFault::InInconsistent) => Ok(collapsed()),
        Err(SolveFault::Behind | SolveFault::Memory) => Err(AllocError),
    }
}

/// How a run ends whose search ended so.
pub fn end_of(end: SearchEnd) -> RunEnd
    ensures { result ≡ end_of end }
{
    match end {
        SearchEnd::Found(_visits) => RunEnd::Done,
        SearchEnd::Exhausted(_visits, _left_out) => RunEnd::Exhausted,
        SearchEnd::Budget(_visits) => RunEnd::Budget,
    }
}
