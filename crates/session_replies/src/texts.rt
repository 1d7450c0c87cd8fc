//! How a search ended.

ghost use Rattle.std.specs.Prelude.{◌≡◌, ◌++◌, List, ℕ, false, IfOk, codes};
ghost use Rattle.std.specs.Fmt.{decimal};
ghost use Rattle.flaw_core.specs.Rules.{IsLeastFor};
ghost use Rattle.model_core.specs.Lawful.{IsLawful};
ghost use Rattle.plan_text.specs.PlanTexts.{IsPlanText};
ghost use Rattle.plan_defs.specs.Plans.{IsPlanOf};
ghost use Rattle.plan_defs.specs.Flaws.{HasFlaw};
ghost use Rattle.flaw_core.specs.declared.ending.SearchEnd.TheVariants.{Found};
ghost use Rattle.session_replies.specs.Texts.{IsFlawlessEnd, IsFoundReply, TellsSearch, bound_text, printed_line};

use super::line::one_line;
use eu_name::bytes::Bytes;
use flaw_core::SearchEnd;
use model_core::model::Model;
use model_core::view::View;
use plan_db::Db;
use plan_defs::plan::Plan;
use plan_states::{PlanOfFault, plan_of};
use plan_text::write_plan;
use std::alloc::{AllocError, Global};

// The line of a search that found a plan, and the text of the plan.
fn found_text(alloc: Global, visits: u32, text: &[u8]) -> Result<Bytes, AllocError>
    ensures { IfOk result (λ reply. reply ≡ printed_line (codes "found " ++ decimal visits) ++ text.now) }
{
    let line = one_line(format!(in alloc; "found {visits}")?)?;
    let mut reply = line.into_vec();
    reply.extend_from_slice(text)?;
    Ok(Bytes::from_vec(reply))
}

// Writes the text of the plan behind the line of the search.
fn found_plan(alloc: Global, visits: u32, model: &Model, plan: &Plan) -> Result<Bytes, AllocError>
    requires lawful { IsLawful model.now }
    requires plan { IsPlanOf model.now plan.now }
    ensures { IfOk result (λ reply. (text : List ℕ) × (IsPlanText model.now plan.now text
        × (reply ≡ printed_line (codes "found " ++ decimal visits) ++ text))) }
{
    let text = write_plan(alloc, model, plan)?;
    found_text(alloc, visits, text.as_slice())
}

// Takes the plan from a least state without a flaw, and writes it behind that line.
fn found_state<V: View>(
    alloc: Global,
    visits: u32,
    model: &Model,
    view: &V,
) -> Result<Bytes, AllocError>
    requires model { V.model view.now ≡ model.now }
    requires least { IsLeastFor model.now (V.decisions view.now) (V.state view.now) }
    requires flawless { HasFlaw model.now (V.decisions view.now) (V.state view.now) → ⊥ }
    ensures { IfOk result (IsFoundReply model.now (V.decisions view.now) (V.state view.now) visits) }
{
    match plan_of(alloc, model, view) {
        Ok(plan) => found_plan(alloc, visits, model, &plan),
        Err(PlanOfFault::Open) => unreachable!(),
        Err(PlanOfFault::Memory) => Err(AllocError),
    }
}

// Takes the state of the decisions that stand, which a search found, and writes its plan behind that line.
fn found_standing(alloc: Global, visits: u32, db: &Db) -> Result<Bytes, AllocError>
    requires ready { db.now.behind ≡ false }
    requires found { IsFlawlessEnd (Found visits) db.now.database }
    ensures { IfOk result (TellsSearch (Found visits) db.now.database) }
{
    match db.view() {
        Ok(view) => found_state(alloc, visits, db.model(), &view),
        Err(_fault) => unreachable!(),
    }
}

// What says whether an activation was left out for the bound.
fn bound_word(left_out: bool) -> &'static str
    ensures { result.now ≡ bound_text left_out }
{
    if left_out { " bound" } else { "" }
}

// A search that found nothing.
fn exhausted_text(alloc: Global, visits: u32, left_out: bool) -> Result<Bytes, AllocError>
    ensures { IfOk result (λ reply. reply ≡ printed_line (codes "exhausted " ++ (decimal visits ++ bound_text left_out))) }
{
    let bound = bound_word(left_out);
    one_line(format!(in alloc; "exhausted {visits}{bound}")?)
}

// A search that ended before a further visit.
fn budget_text(alloc: Global, visits: u32) -> Result<Bytes, AllocError>
    ensures { IfOk result (λ reply. reply ≡ printed_line (codes "budget " ++ decimal visits)) }
{
    one_line(format!(in alloc; "budget {visits}")?)
}

/// How the search ended, and behind what it found the text of the plan. What it found has to stand.
pub fn end_text(alloc: Global, db: &Db, end: SearchEnd) -> Result<Bytes, AllocError>
    requires ready { db.now.behind ≡ false }
    requires found { IsFlawlessEnd end db.now.database }
    ensures { IfOk result (TellsSearch end db.now.database) }
{
    match end {
        SearchEnd::Found(visits) => found_standing(alloc, visits, db),
        SearchEnd::Exhausted(visits, left_out) => exhausted_text(alloc, visits, left_out),
        SearchEnd::Budget(visits) => budget_text(alloc, visits),
    }
}
