//! Makes the plan of a state.

ghost use Rattle.std.specs.Prelude.{◌≡◌, ◌<◌, ◌^◌, ℕ, ℤ, [], length, IfOk, MatchOption, MatchResult, Err, Ok};
ghost use Rattle.eu_name.specs.declared.name.VarName.TheVariants as variables;
ghost use Rattle.model_core.specs.Lawful.{IsLawful};
ghost use Rattle.model_core.specs.State.{AreInOrder};
ghost use Rattle.plan_defs.specs.Closure.{IsLeast};
ghost use Rattle.plan_defs.specs.Plans.{IsPlanOf};
ghost use Rattle.plan_defs.specs.Settling.{IsSettled};
ghost use Rattle.plan_states.specs.declared.fault.PlanOfFault.TheVariants.{Open, Memory};
ghost use Rattle.plan_defs.specs.Surveying.{Surveys, AreGlobalValues, IsLineOfPlaces, IsFlawOfPlaces, IsOrderedPlan};
ghost use Rattle.plan_defs.specs.Flaws.{HasFlaw};
ghost use Rattle.plan_defs.specs.StatePlans.{GivesOnly, IsSettledState, IsStatePlan};

use super::fault::PlanOfFault;
use super::push_item;
use super::tokens::add_token;
use eu_name::name::VarName;
use eu_name::sequence::Sequence;
use model_core::model::Model;
use model_core::view::View;
use plan_defs::plan::{Line, Plan};
use std::alloc::Global;
use timeline_core::first_unordered;

// The value of the global of this number, where it has only one.
fn global_value<V: View>(view: &V, number: u32) -> Option<i32>
    requires { AreInOrder (V.state view.now) }
    ensures { MatchOption result
        ((value : ℤ) → GivesOnly (V.state view.now) (variables.Global number) value → ⊥)
        (GivesOnly (V.state view.now) (variables.Global number)) }
{
    let Some(domain) = view.domain(&VarName::Global(number)) else {
        return None;
    };
    domain.single()
}

// The values of the globals, if each has only one.
fn global_values<V: View>(alloc: Global, model: &Model, view: &V) -> Result<Vec<i32>, PlanOfFault>
    requires model { V.model view.now ≡ model.now }
    requires settled { IsSettledState (V.model view.now) (V.decisions view.now) (V.state view.now) }
    ensures { MatchResult result
        (λ values. AreGlobalValues (V.model view.now) (V.state view.now) values.items)
        (λ fault. fault ≡ Open → HasFlaw (V.model view.now) (V.decisions view.now) (V.state view.now)) }
{
    let mut values = Vec::new(alloc);
    for number in 0..model.problem.globals.len() {
        let Some(value) = global_value(view, number as u32) else {
            return Err(PlanOfFault::Open);
        };
        push_item(&mut values, value)?;
    }
    Ok(values)
}

// Puts the lines of all tokens and of their locals behind the others.
fn add_tokens<V: View>(
    alloc: Global,
    model: &Model,
    view: &V,
    lines: &mut Vec<Line>,
) -> Result<(), PlanOfFault>
    requires model { V.model view.now ≡ model.now }
    requires settled { IsSettledState (V.model view.now) (V.decisions view.now) (V.state view.now) }
    ensures { MatchResult result
        (λ _. Surveys (V.model view.now) (V.decisions view.now) (V.state view.now)
        (IsLineOfPlaces (V.model view.now) (V.decisions view.now) (V.state view.now))
        (IsFlawOfPlaces (V.state view.now)) lines.old.items lines.new.items)
        (λ fault. fault ≡ Open → HasFlaw (V.model view.now) (V.decisions view.now) (V.state view.now)) }
{
    for place in 0..view.count() {
        add_token(alloc, model, view, place, lines)?;
    }
    Ok(())
}

// The plan of these values and lines, if its lines have numbers.
fn numbered(globals: Vec<i32>, lines: Vec<Line>) -> Result<Plan, PlanOfFault>
    ensures { MatchResult result
        (λ plan. (plan.globals ≡ globals.items) × (plan.lines ≡ lines.items) × (length lines.items < 2 ^ 32))
        (λ fault. fault ≡ Memory) }
{
    if lines.len() > u32::MAX as usize {
        return Err(PlanOfFault::Memory);
    }
    Ok(Plan {
        globals: Sequence::from_vec(globals),
        lines: Sequence::from_vec(lines),
    })
}

// The plan of these values and lines, if all of them were added.
fn made(
    added: Result<(), PlanOfFault>,
    globals: Vec<i32>,
    lines: Vec<Line>,
) -> Result<Plan, PlanOfFault>
    ensures { MatchResult added
        (λ _. MatchResult result
        (λ plan. (plan.globals ≡ globals.items) × (plan.lines ≡ lines.items) × (length lines.items < 2 ^ 32))
        (λ fault. fault ≡ Memory))
        (λ fault. result ≡ Err fault) }
{
    match added {
        Ok(()) => numbered(globals, lines),
        Err(fault) => Err(fault),
    }
}

// The plan of a state in which no two tokens of one timeline lack an order.
fn plan_of_ordered<V: View>(alloc: Global, model: &Model, view: &V) -> Result<Plan, PlanOfFault>
    requires model { V.model view.now ≡ model.now }
    requires settled { IsSettledState (V.model view.now) (V.decisions view.now) (V.state view.now) }
    ensures { MatchResult result
        (IsOrderedPlan (V.model view.now) (V.decisions view.now) (V.state view.now))
        (λ fault. fault ≡ Open → HasFlaw (V.model view.now) (V.decisions view.now) (V.state view.now)) }
{
    let globals = global_values(alloc, model, view)?;
    let mut lines = Vec::new(alloc);
    let added = add_tokens(alloc, model, view, &mut lines);
    made(added, globals, lines)
}

/// The plan of the least state of a settled list, if the state has no flaw. A state whose plan has 2^32 lines or more is answered
/// by `Memory`.
pub fn plan_of<V: View>(alloc: Global, model: &Model, view: &V) -> Result<Plan, PlanOfFault>
    requires lawful { IsLawful model.now }
    requires model { V.model view.now ≡ model.now }
    requires settled { IsSettled model.now (V.decisions view.now) }
    requires least { IsLeast model.now (V.decisions view.now) (V.state view.now) }
    ensures plan { IfOk result (IsStatePlan model.now (V.decisions view.now) (V.state view.now)) }
    ensures of_model { IfOk result (IsPlanOf model.now) }
    ensures flawless { IfOk result (λ _. HasFlaw model.now (V.decisions view.now) (V.state view.now) → ⊥) }
    ensures flawed { result ≡ Err Open → HasFlaw model.now (V.decisions view.now) (V.state view.now) }
{
    match first_unordered(model, view) {
        Some(_) => Err(PlanOfFault::Open),
        None => plan_of_ordered(alloc, model, view),
    }
}
