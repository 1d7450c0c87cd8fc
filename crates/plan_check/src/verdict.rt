//! Whether a plan is valid, or what it breaks first.

ghost use Rattle.std.specs.Prelude.{IfOk};
ghost use Rattle.model_core.specs.Lawful.{IsLawful};
ghost use Rattle.plan_defs.specs.Plans.{IsPlanOf};
ghost use Rattle.plan_check.specs.Judged.{IsVerdict};
ghost use Rattle.plan_inventory.specs.Verdicts.{FindsBelow};

use super::clauses::broken_behind;
use model_core::model::Model;
use plan_defs::plan::{Clause, Place, Plan};
use plan_inventory::{Broken, broken_inventory};
use std::alloc::{AllocError, Global};

/// What the checker says of a plan: it is valid, or this is the clause that it breaks first, and the place with the least names
/// where it does.
#[derive(Clone, Copy, Debug, PartialEq, Eq)]
pub enum Verdict {
    Valid,
    Invalid(Clause, Place),
}

// The first clause that the plan breaks.
fn broken_first(alloc: Global, model: &Model, plan: &Plan) -> Result<Option<Broken>, AllocError>
    requires lawful { IsLawful model.now }
    requires is_plan { IsPlanOf model.now plan.now }
    ensures { IfOk result (FindsBelow model.now plan.now 10) }
{
    match broken_inventory(model, plan) {
        Some(found) => Ok(Some(found)),
        None => broken_behind(alloc, model, plan),
    }
}

/// Whether the plan is valid for the model, and else which clause it breaks first, and at which place.
///
/// The time is that of the lines with the logarithm of their number, of what stands in the rules of the tokens that take place,
/// of the objects of the model, and of the square of the lines on one object, where this is a timeline or a resource. A number
/// for each line and each object takes memory, and so does what is done to one resource.
pub fn check(alloc: Global, model: &Model, plan: &Plan) -> Result<Verdict, AllocError>
    requires lawful { IsLawful model.now }
    requires is_plan { IsPlanOf model.now plan.now }
    ensures { IfOk result (IsVerdict model.now plan.now) }
{
    let first = broken_first(alloc, model, plan)?;
    match first {
        Some(found) => Ok(Verdict::Invalid(found.clause, found.place)),
        None => Ok(Verdict::Valid),
    }
}
