//! What is seen of the list that stands.

ghost use Rattle.std.specs.Prelude.{◌≡◌, ◌≤◌, false, List, IfOk, Some, slice_get};
ghost use Rattle.model_core.specs.declared.decision.Decision.{Decision as Chosen};
ghost use Rattle.model_core.specs.History.{standing};
ghost use Rattle.model_core.specs.State.{State};
ghost use Rattle.plan_defs.specs.Closure.{IsLeast};
ghost use Rattle.flaw_core.specs.Rules.{IsLeastFor};
ghost use Rattle.plan_db.specs.Database.{IsSound};
ghost use Rattle.solver_core.specs.Visiting.{HasFirst, IsVisited};

use super::course::Branch;
use flaw_core::{Flaw, FlawRule};
use model_core::decision::Decision;
use model_core::model::Model;
use model_core::view::View;
use plan_db::Db;
use std::alloc::AllocError;

/// What a visit of a list sees.
#[derive(Clone, Copy)]
pub enum Visited {
    /// It leaves nothing possible.
    Collapsed,
    /// The rule finds nothing in its least state.
    Clear,
    /// The first flaw, and whether it is a token that isn't activated for the bound.
    Flawed(Flaw, bool),
}

// Looks for the first flaw of a view.
fn look<R: FlawRule, V: View>(model: &Model, view: &V, rule: &R, bound: u32) -> Visited
    requires model { V.model view.now ≡ model.now }
    requires least { IsLeastFor model.now (V.decisions view.now) (V.state view.now) }
    requires bound { bound ≤ 512 }
    ensures { IsVisited (R.is_first rule.now) (R.are_choices rule.now) model.now bound (V.decisions view.now) result }
{
    match rule.first_flaw(model, view, bound) {
        Some(flaw) => Visited::Flawed(flaw, rule.left_out(view, &flaw, bound)),
        None => Visited::Clear,
    }
}

/// Visits the list that stands.
pub fn visit<R: FlawRule>(db: &Db, rule: &R, bound: u32) -> Visited
    requires ready { db.now.behind ≡ false }
    requires bound { bound ≤ 512 }
    ensures { IsVisited (R.is_first rule.now) (R.are_choices rule.now) db.now.database.model bound
        (standing db.now.database.history) result }
{
    match db.view() {
        Ok(view) => look(db.model(), &view, rule, bound),
        Err(_fault) => Visited::Collapsed,
    }
}

/// The next choice of a flaw of the list that stands, or None where there is none.
pub fn next_choice<R: FlawRule>(
    db: &Db,
    rule: &R,
    branch: &Branch,
    bound: u32,
) -> Result<Option<Decision>, AllocError>
    requires ready { db.now.behind ≡ false }
    requires bound { bound ≤ 512 }
    requires first { HasFirst (R.is_first rule.now) (R.are_choices rule.now) db.now.database.model (standing db.now.database.history)
        branch.now.flaw }
    ensures choice { IfOk result (λ choice. (state : State) (choices : List Chosen)
        → IsLeast db.now.database.model (standing db.now.database.history) state
        → R.are_choices rule.now db.now.database.model (standing db.now.database.history) state bound branch.now.flaw choices
        → choice ≡ slice_get choices branch.now.next) }
    ensures sound { IsSound db.now.database }
{
    let model = db.model();
    match db.view() {
        Ok(view) => rule.choice(model, &view, &branch.flaw, branch.next, bound),
        Err(_fault) => unreachable!(),
    }
}
