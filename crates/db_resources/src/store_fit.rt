//! Whether resources fit.

ghost use Rattle.std.specs.Prelude.{ℕ, IfOk, MatchBool};
ghost use Rattle.model_core.specs.Lawful.{IsLawful};
ghost use Rattle.plan_defs.specs.Closure.{IsLeast, IsCollapsed};
ghost use Rattle.plan_defs.specs.Resources.{FitReusables, FitReservoirs};
ghost use Rattle.plan_defs.specs.Settling.{IsSettled};
ghost use Rattle.db_posting.specs.Underway.{IsAtRest};
ghost use Rattle.db_store.specs.Stores.{snapshot_of};
ghost use Rattle.db_refusals.specs.Seeing.{seen_state};
ghost use Rattle.db_resources.specs.Touching.{FittedAt};

use super::complete::{are_all_certain, are_all_decided};
use super::touched::{Resources, are_actors_as_before, are_levels_as_before};
use crate::{has_reservoir, reservoirs_fit, reusables_fit};
use db_refine::growth::resources_decide;
use db_refusals::StoreView;
use db_store::{Mark, Store};
use model_core::decision::Decision;
use model_core::model::Model;
use std::alloc::{AllocError, Global};
use timeline_core::unordered::settled_lists_decide_once;

// Whether the levels of the reservoirs are within their limits, if no further token can come.
fn levels_fit(
    alloc: Global,
    model: &Model,
    store: &Store,
    decisions: &[Decision],
) -> Result<bool, AllocError>
    requires lawful { IsLawful model.now }
    requires settled { IsSettled model.now decisions.now }
    requires rest { IsAtRest model.now decisions.now store.now.net.tables (snapshot_of store.now) }
    ensures { IfOk result (λ fit. MatchBool fit
        (FitReservoirs model.now decisions.now (seen_state store.now))
        (FitReservoirs model.now decisions.now (seen_state store.now) → ⊥)) }
{
    settled_lists_decide_once();
    store.is_sound();
    if !has_reservoir(model) {
        return Ok(true);
    }
    if !are_all_decided(store.tokens()) {
        return Ok(true);
    }
    if reservoirs_fit(alloc, model, &StoreView::new(model, store, decisions))? {
        return Ok(true);
    }
    let certain = are_all_certain(alloc, model, store)?;
    Ok(!certain)
}

// Whether the reusables fit.
fn uses_fit(
    alloc: Global,
    model: &Model,
    store: &Store,
    decisions: &[Decision],
) -> Result<bool, AllocError>
    requires lawful { IsLawful model.now }
    requires settled { IsSettled model.now decisions.now }
    requires rest { IsAtRest model.now decisions.now store.now.net.tables (snapshot_of store.now) }
    ensures { IfOk result (λ fit. MatchBool fit
        (FitReusables model.now decisions.now (seen_state store.now))
        (FitReusables model.now decisions.now (seen_state store.now) → ⊥)) }
{
    settled_lists_decide_once();
    store.is_sound();
    reusables_fit(alloc, model, &StoreView::new(model, store, decisions))
}

// Whether the reusables fit, where at the mark they fitted what all decisions but the last left. They are looked at only if
// something that is used may have become other since.
fn uses_fit_since(
    alloc: Global,
    model: &Model,
    store: &Store,
    decisions: &[Decision],
    last: &Decision,
    mark: Mark,
) -> Result<bool, AllocError>
    requires lawful { IsLawful model.now }
    requires settled { IsSettled model.now decisions.now }
    requires rest { IsAtRest model.now decisions.now store.now.net.tables (snapshot_of store.now) }
    requires fitted { (opened : ℕ) × FittedAt model.now decisions.now last.now store.now mark opened }
    ensures { IfOk result (λ fit. MatchBool fit
        (FitReusables model.now decisions.now (seen_state store.now))
        (FitReusables model.now decisions.now (seen_state store.now) → ⊥)) }
{
    settled_lists_decide_once();
    store.is_sound();
    if are_actors_as_before(model, store, last, mark, Resources::Reusables)? {
        return Ok(true);
    }
    uses_fit(alloc, model, store, decisions)
}

// Whether the reservoirs fit, where at the mark they fitted what all decisions but the last left. They are looked at only if
// tokens were decided or blocks opened since, or something that changes a level may have become other.
fn levels_fit_since(
    alloc: Global,
    model: &Model,
    store: &Store,
    decisions: &[Decision],
    last: &Decision,
    mark: Mark,
    opened: usize,
) -> Result<bool, AllocError>
    requires lawful { IsLawful model.now }
    requires settled { IsSettled model.now decisions.now }
    requires rest { IsAtRest model.now decisions.now store.now.net.tables (snapshot_of store.now) }
    requires fitted { FittedAt model.now decisions.now last.now store.now mark opened }
    ensures { IfOk result (λ fit. MatchBool fit
        (FitReservoirs model.now decisions.now (seen_state store.now))
        (FitReservoirs model.now decisions.now (seen_state store.now) → ⊥)) }
{
    settled_lists_decide_once();
    store.is_sound();
    if !has_reservoir(model) {
        return Ok(true);
    }
    if are_levels_as_before(model, store, last, mark, opened)? {
        return Ok(true);
    }
    levels_fit(alloc, model, store, decisions)
}

/// Whether resources fit what a store at rest for a settled list leaves: then this is the least state of the decisions, and
/// else they leave none.
pub fn resources_fit(
    alloc: Global,
    model: &Model,
    store: &Store,
    decisions: &[Decision],
) -> Result<bool, AllocError>
    requires lawful { IsLawful model.now }
    requires settled { IsSettled model.now decisions.now }
    requires rest { IsAtRest model.now decisions.now store.now.net.tables (snapshot_of store.now) }
    ensures { IfOk result (λ fit. MatchBool fit
        (IsLeast model.now decisions.now (seen_state store.now))
        (IsCollapsed model.now decisions.now)) }
{
    settled_lists_decide_once();
    store.is_sound();
    resources_decide();
    if !uses_fit(alloc, model, store, decisions)? {
        return Ok(false);
    }
    levels_fit(alloc, model, store, decisions)
}

/// Whether resources fit, where at the mark, with so many blocks open, they fitted what all decisions but the last
/// left. The reusables are looked at only if something that is used may have become other since, and the reservoirs
/// only if tokens were decided or blocks opened, or something that changes a level may have become other.
pub fn resources_fit_since(
    alloc: Global,
    model: &Model,
    store: &Store,
    decisions: &[Decision],
    last: &Decision,
    mark: Mark,
    opened: usize,
) -> Result<bool, AllocError>
    requires lawful { IsLawful model.now }
    requires settled { IsSettled model.now decisions.now }
    requires rest { IsAtRest model.now decisions.now store.now.net.tables (snapshot_of store.now) }
    requires fitted { FittedAt model.now decisions.now last.now store.now mark opened }
    ensures { IfOk result (λ fit. MatchBool fit
        (IsLeast model.now decisions.now (seen_state store.now))
        (IsCollapsed model.now decisions.now)) }
{
    settled_lists_decide_once();
    store.is_sound();
    resources_decide();
    if !uses_fit_since(alloc, model, store, decisions, last, mark)? {
        return Ok(false);
    }
    levels_fit_since(alloc, model, store, decisions, last, mark, opened)
}
