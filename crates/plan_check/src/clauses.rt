//! The clauses behind the first six, one after the other.

ghost use Rattle.std.specs.Prelude.{◌≡◌, IfOk, MatchOption, length};
ghost use Rattle.model_core.specs.Lawful.{IsLawful};
ghost use Rattle.plan_defs.specs.Plans.{IsPlanOf};
ghost use Rattle.plan_values.specs.Keys.{IsOrderly};
ghost use Rattle.plan_check.specs.ByObject.{AreLinked};
ghost use Rattle.plan_inventory.specs.Verdicts.{KeptBelow, FindsBelow};

use super::by_object::LinesByObject;
use super::items::broken_item;
use super::levels::broken_reservoir;
use super::resources::broken_reusable;
use super::timelines::broken_pair;
use model_core::model::Model;
use plan_defs::plan::{Clause, Plan};
use plan_inventory::Broken;
use std::alloc::{AllocError, Global};

// The first of V9 and V10 that the plan breaks, where it keeps those before.
fn broken_by_resources(
    alloc: Global,
    model: &Model,
    plan: &Plan,
    by_object: &LinesByObject,
) -> Result<Option<Broken>, AllocError>
    requires lawful { IsLawful model.now }
    requires orderly { IsOrderly plan.now }
    requires linked { AreLinked plan.now.lines (length model.now.objects) 0 by_object.now }
    requires before { KeptBelow model.now plan.now 8 }
    ensures { IfOk result (FindsBelow model.now plan.now 10) }
{
    let over_used = broken_reusable(alloc, model, plan, by_object)?;
    if let Some(place) = over_used {
        return Ok(Some(Broken {
            clause: Clause::V9,
            place,
        }));
    }
    let left = broken_reservoir(alloc, model, plan, by_object)?;
    match left {
        Some(place) => Ok(Some(Broken {
            clause: Clause::V10,
            place,
        })),
        None => Ok(None),
    }
}

// The first of V8 to V10 that the plan breaks, where it keeps those before.
fn broken_on_objects(
    alloc: Global,
    model: &Model,
    plan: &Plan,
    by_object: &LinesByObject,
) -> Result<Option<Broken>, AllocError>
    requires lawful { IsLawful model.now }
    requires is_plan { IsPlanOf model.now plan.now }
    requires orderly { IsOrderly plan.now }
    requires linked { AreLinked plan.now.lines (length model.now.objects) 0 by_object.now }
    requires before { KeptBelow model.now plan.now 7 }
    ensures { IfOk result (FindsBelow model.now plan.now 10) }
{
    match broken_pair(model, plan, by_object) {
        Some(place) => Ok(Some(Broken {
            clause: Clause::V8,
            place,
        })),
        None => broken_by_resources(alloc, model, plan, by_object),
    }
}

/// The first of V7 to V10 that the plan breaks, where it keeps those before.
pub fn broken_behind(
    alloc: Global,
    model: &Model,
    plan: &Plan,
) -> Result<Option<Broken>, AllocError>
    requires lawful { IsLawful model.now }
    requires is_plan { IsPlanOf model.now plan.now }
    requires orderly { IsOrderly plan.now }
    requires before { KeptBelow model.now plan.now 6 }
    ensures { IfOk result (FindsBelow model.now plan.now 10) }
{
    if let Some(place) = broken_item(model, plan) {
        return Ok(Some(Broken {
            clause: Clause::V7,
            place,
        }));
    }
    let by_object = LinesByObject::of(alloc, model, plan)?;
    broken_on_objects(alloc, model, plan, &by_object)
}
