//! What a plan has, one clause after the other.

ghost use Rattle.std.specs.Prelude.{◌≡◌, MatchOption};
ghost use Rattle.model_core.specs.Lawful.{IsLawful};
ghost use Rattle.plan_defs.specs.Plans.{IsPlanOf};
ghost use Rattle.plan_values.specs.Keys.{IsOrderly};
ghost use Rattle.plan_inventory.specs.Verdicts.{KeptBelow, FindsBelow};

use super::asked::broken_asking;
use super::globals::broken_global;
use super::open::broken_open;
use super::roots::broken_root;
use super::tokens::{broken_merge, broken_token};
use model_core::model::Model;
use plan_defs::plan::{Clause, Place, Plan};

/// The clause that a plan breaks first, and the place with the least names where it does.
#[derive(Clone, Copy)]
pub struct Broken {
    pub clause: Clause,
    pub place: Place,
}

// The first of V1 to V4 that the plan breaks.
fn broken_by_values(model: &Model, plan: &Plan) -> Option<Broken>
    requires lawful { IsLawful model.now }
    requires is_plan { IsPlanOf model.now plan.now }
    requires orderly { IsOrderly plan.now }
    ensures { FindsBelow model.now plan.now 4 result }
{
    if let Some(place) = broken_global(model, plan) {
        return Some(Broken {
            clause: Clause::V1,
            place,
        });
    }
    if let Some(place) = broken_root(model, plan) {
        return Some(Broken {
            clause: Clause::V2,
            place,
        });
    }
    if let Some(place) = broken_token(model, plan) {
        return Some(Broken {
            clause: Clause::V3,
            place,
        });
    }
    match broken_merge(model, plan) {
        Some(place) => Some(Broken {
            clause: Clause::V4,
            place,
        }),
        None => None,
    }
}

// The first of V5 and V6 that the plan breaks, where it keeps those before.
fn broken_by_blocks(model: &Model, plan: &Plan) -> Option<Broken>
    requires lawful { IsLawful model.now }
    requires is_plan { IsPlanOf model.now plan.now }
    requires orderly { IsOrderly plan.now }
    requires before { KeptBelow model.now plan.now 4 }
    ensures { FindsBelow model.now plan.now 6 result }
{
    if let Some(place) = broken_open(model, plan) {
        return Some(Broken {
            clause: Clause::V5,
            place,
        });
    }
    match broken_asking(model, plan) {
        Some(place) => Some(Broken {
            clause: Clause::V6,
            place,
        }),
        None => None,
    }
}

// The first of V1 to V6 that the plan breaks, where its lines are in order.
fn broken_in_order(model: &Model, plan: &Plan) -> Option<Broken>
    requires lawful { IsLawful model.now }
    requires is_plan { IsPlanOf model.now plan.now }
    requires orderly { IsOrderly plan.now }
    ensures { FindsBelow model.now plan.now 6 result }
{
    match broken_by_values(model, plan) {
        Some(found) => Some(found),
        None => broken_by_blocks(model, plan),
    }
}

/// The first of the clauses V1 to V6 that the plan breaks: those on what a plan has to have, with which values, and on what it
/// may have beside that. It takes no memory. The time is that of the lines with the logarithm of their number, and of what stands
/// in the rules of the tokens that take place.
pub fn broken_inventory(model: &Model, plan: &Plan) -> Option<Broken>
    requires lawful { IsLawful model.now }
    requires is_plan { IsPlanOf model.now plan.now }
    ensures { FindsBelow model.now plan.now 6 result }
{
    broken_in_order(model, plan)
}
