//! Clause V1: each global has a value of its base.

ghost use Rattle.std.specs.Prelude.{◌≡◌, ◌<◌, ℕ, length, MatchBool};
ghost use Rattle.eu_name.specs.declared.name.VarName.TheVariants.{Global};
ghost use Rattle.model_core.specs.Lawful.{IsLawful};
ghost use Rattle.plan_defs.specs.declared.plan.Clause.TheVariants.{V1};
ghost use Rattle.plan_defs.specs.Valid.{HasDeclaredValue};
ghost use Rattle.plan_inventory.specs.Breaks.{FindsBreak};

use model_core::model::Model;
use plan_defs::plan::{Place, Plan};
use plan_values::base_has;
use plan_values::lines::global_value;

// Whether the global has a value that it is declared with.
fn is_global_kept(model: &Model, plan: &Plan, number: u32) -> bool
    requires { number < length model.now.problem.globals }
    ensures { MatchBool result
        (HasDeclaredValue model.now plan.now (Global number))
        (HasDeclaredValue model.now plan.now (Global number) → ⊥) }
{
    let variable = &model.problem.globals.as_slice()[number as usize];
    match global_value(plan, number) {
        Some(value) => base_has(&variable.base, value),
        None => false,
    }
}

/// The first global that has no value of its base.
pub fn broken_global(model: &Model, plan: &Plan) -> Option<Place>
    requires { IsLawful model.now }
    ensures { FindsBreak model.now plan.now V1 result }
{
    for number in 0..model.problem.globals.len() as u32 {
        if !is_global_kept(model, plan, number) {
            return Some(Place::Global(number));
        }
    }
    None
}
