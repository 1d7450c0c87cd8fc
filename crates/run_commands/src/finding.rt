//! What is told of a search, and of the plan that it finds.

ghost use Rattle.std.specs.Prelude.{◌≡◌, false, IfOk};
ghost use Rattle.flaw_core.specs.Rules.{IsLeastFor};
ghost use Rattle.model_core.specs.Lawful.{IsLawful};
ghost use Rattle.plan_db.specs.Database.{IsSound};
ghost use Rattle.plan_defs.specs.Plans.{IsPlanOf};
ghost use Rattle.plan_defs.specs.Valid.{IsValid};
ghost use Rattle.plan_defs.specs.Flaws.{HasFlaw};
ghost use Rattle.session_replies.specs.Texts.{IsFlawlessEnd};
ghost use Rattle.flaw_core.specs.declared.ending.SearchEnd.TheVariants.{Found};
ghost use Rattle.run_commands.specs.Searching.{end_of};
ghost use Rattle.run_commands.specs.Trying.{IsFoundText, TellsState, TellsTrial, TrialOutput, found_text};

use crate::Printed;
use crate::searching::{end_of, search};
use eu_name::bytes::Bytes;
use flaw_core::SearchEnd;
use model_core::model::Model;
use model_core::view::View;
use plan_db::Db;
use plan_defs::plan::Plan;
use plan_report::{Counts, check_plan, count_lines, put_counts};
use plan_states::{PlanOfFault, plan_of};
use session_replies::end_text;
use std::alloc::{AllocError, Global};

// The most tokens that may be active in a trial.
const TOKENS: u32 = 512;

// The line of a search that found a plan, and the lines that tell the plan's numbers and whether it is valid.
fn found_text(
    alloc: Global,
    visits: u32,
    counts: Counts,
    verdict: &[u8],
) -> Result<Bytes, AllocError>
    ensures { IfOk result (λ text. text ≡ found_text visits counts verdict.now) }
{
    let line = format!(in alloc; "found {visits}\n")?;
    let mut text = line.into_bytes();
    put_counts(&mut text, counts)?;
    text.extend_from_slice(verdict)?;
    Ok(Bytes::from_vec(text))
}

// What is told of a plan that was found, with the verdict of the checker.
fn found_plan(alloc: Global, visits: u32, model: &Model, plan: &Plan) -> Result<Bytes, AllocError>
    requires lawful { IsLawful model.now }
    requires is_plan { IsPlanOf model.now plan.now }
    requires valid { IsValid model.now plan.now }
    ensures { IfOk result (IsFoundText visits plan.now) }
{
    let checked = check_plan(alloc, model, plan)?;
    found_text(alloc, visits, count_lines(plan), checked.reply.as_slice())
}

// What is told of a least state without a flaw, from which the plan is taken.
fn found_state<V: View>(
    alloc: Global,
    visits: u32,
    model: &Model,
    view: &V,
) -> Result<Bytes, AllocError>
    requires model { V.model view.now ≡ model.now }
    requires least { IsLeastFor model.now (V.decisions view.now) (V.state view.now) }
    requires flawless { HasFlaw model.now (V.decisions view.now) (V.state view.now) → ⊥ }
    ensures { IfOk result (TellsState visits model.now (V.decisions view.now) (V.state view.now)) }
{
    match plan_of(alloc, model, view) {
        Ok(plan) => found_plan(alloc, visits, model, &plan),
        Err(PlanOfFault::Open) => unreachable!(),
        Err(PlanOfFault::Memory) => Err(AllocError),
    }
}

// What is told of the decisions that stand, which a search found, by the state that they leave.
fn found_standing(alloc: Global, visits: u32, db: &Db) -> Result<Bytes, AllocError>
    requires ready { db.now.behind ≡ false }
    requires found { IsFlawlessEnd (Found visits) db.now.database }
    ensures { IfOk result (TellsTrial (Found visits) db.now.database) }
{
    match db.view() {
        Ok(view) => found_state(alloc, visits, db.model(), &view),
        Err(_fault) => unreachable!(),
    }
}

// How the search ended.
fn trial_text(alloc: Global, db: &Db, end: SearchEnd) -> Result<Bytes, AllocError>
    requires ready { db.now.behind ≡ false }
    requires flawless { IsFlawlessEnd end db.now.database }
    ensures { IfOk result (TellsTrial end db.now.database) }
{
    match end {
        SearchEnd::Found(visits) => found_standing(alloc, visits, db),
        SearchEnd::Exhausted(..) | SearchEnd::Budget(_) => end_text(alloc, db, end),
    }
}

// What is printed of how the search ended, and how the run ends then.
fn printed_end(alloc: Global, db: &Db, end: SearchEnd) -> Result<Printed, AllocError>
    requires ready { db.now.behind ≡ false }
    requires flawless { IsFlawlessEnd end db.now.database }
    ensures { IfOk result (λ printed. TellsTrial end db.now.database printed.text × (printed.end ≡ end_of end)) }
{
    match trial_text(alloc, db, end) {
        Ok(text) => Ok(Printed {
            text,
            end: end_of(end),
        }),
        Err(none) => Err(none),
    }
}

/// What is printed of the search in the database from the decisions that stand.
pub fn printed_trial(alloc: Global, db: &mut Db) -> Result<Printed, AllocError>
    requires ready { db.old.behind ≡ false }
    requires sound { IsSound db.old.database }
    ensures { IfOk result (λ printed. TrialOutput db.old.database printed.text printed.end) }
{
    let budget = db.model().problem.steps;
    match search(alloc, db, budget, TOKENS) {
        Ok(end) => printed_end(alloc, db, end),
        Err(none) => Err(none),
    }
}
