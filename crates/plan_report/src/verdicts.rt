//! The lines that are printed of plans.

ghost use Rattle.std.specs.Prelude.{◌≡◌, ◌++◌, List, ℕ, IfOk, OnOk, codes};
ghost use Rattle.model_core.specs.Lawful.{IsLawful};
ghost use Rattle.plan_defs.specs.Plans.{IsPlanOf};
ghost use Rattle.plan_check.specs.declared.verdict.Verdict.TheVariants as verdicts;
ghost use Rattle.plan_check.specs.Judged.{IsVerdict};
ghost use Rattle.plan_report.specs.Naming.{HasNames};
ghost use Rattle.plan_report.specs.Verdicts.{clause_word, IsVerdictText, says_valid, IsCheckedAs};

use super::naming::put_place;
use eu_name::bytes::Bytes;
use model_core::model::Model;
use plan_check::verdict::{Verdict, check};
use plan_defs::plan::{Clause, Place, Plan};
use plan_text::writing::put_word;
use std::alloc::{AllocError, Global};

/// What is printed, with its line feed, and whether it is that of a valid plan.
#[derive(Drop)]
pub struct Checked {
    pub reply: Bytes,
    pub is_valid: bool,
}

// The word for the clause.
fn clause_word(clause: Clause) -> &'static [u8]
    ensures { result.now ≡ clause_word clause }
{
    match clause {
        Clause::V1 => b"V1",
        Clause::V2 => b"V2",
        Clause::V3 => b"V3",
        Clause::V4 => b"V4",
        Clause::V5 => b"V5",
        Clause::V6 => b"V6",
        Clause::V7 => b"V7",
        Clause::V8 => b"V8",
        Clause::V9 => b"V9",
        Clause::V10 => b"V10",
    }
}

// The clause that is broken, with its names.
fn put_invalid(
    out: &mut Vec<u8>,
    alloc: Global,
    model: &Model,
    plan: &Plan,
    clause: Clause,
    place: Place,
) -> Result<(), AllocError>
    requires lawful { IsLawful model.now }
    requires is_plan { IsPlanOf model.now plan.now }
    requires there { HasNames model.now plan.now place }
    ensures { OnOk result ((text : List ℕ) × (IsVerdictText model.now plan.now (verdicts.Invalid clause place) text
        × (out.new.items ≡ out.old.items ++ text))) }
{
    put_word(out, b"invalid ", clause_word(clause))?;
    put_place(out, alloc, model, plan, place)
}

// The verdict.
fn put_verdict(
    out: &mut Vec<u8>,
    alloc: Global,
    model: &Model,
    plan: &Plan,
    verdict: Verdict,
) -> Result<(), AllocError>
    requires lawful { IsLawful model.now }
    requires is_plan { IsPlanOf model.now plan.now }
    requires is_verdict { IsVerdict model.now plan.now verdict }
    ensures { OnOk result ((text : List ℕ) × (IsVerdictText model.now plan.now verdict text
        × (out.new.items ≡ out.old.items ++ text))) }
{
    match verdict {
        Verdict::Valid => put_word(out, b"", b"valid"),
        Verdict::Invalid(clause, place) => put_invalid(out, alloc, model, plan, clause, place),
    }
}

// Whether the verdict says that the plan is valid.
fn says_valid(verdict: Verdict) -> bool
    ensures { result ≡ says_valid verdict }
{
    match verdict {
        Verdict::Valid => true,
        Verdict::Invalid(..) => false,
    }
}

// The line of the verdict.
fn verdict_line(
    alloc: Global,
    model: &Model,
    plan: &Plan,
    verdict: Verdict,
) -> Result<Bytes, AllocError>
    requires lawful { IsLawful model.now }
    requires is_plan { IsPlanOf model.now plan.now }
    requires is_verdict { IsVerdict model.now plan.now verdict }
    ensures { IfOk result (λ reply. (text : List ℕ) × (IsVerdictText model.now plan.now verdict text
        × (reply ≡ text ++ codes "\n"))) }
{
    let mut out = Vec::new(alloc);
    put_verdict(&mut out, alloc, model, plan, verdict)?;
    out.push(b'\n')?;
    Ok(Bytes::from_vec(out))
}

/// Checks the plan: whether it is valid, with `valid`, or the clause that it breaks first and the least names for which it does.
pub fn check_plan(alloc: Global, model: &Model, plan: &Plan) -> Result<Checked, AllocError>
    requires lawful { IsLawful model.now }
    requires is_plan { IsPlanOf model.now plan.now }
    ensures { IfOk result (λ checked. IsCheckedAs model.now plan.now checked.reply checked.is_valid) }
{
    let verdict = check(alloc, model, plan)?;
    Ok(Checked {
        reply: verdict_line(alloc, model, plan, verdict)?,
        is_valid: says_valid(verdict),
    })
}
