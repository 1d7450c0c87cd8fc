//! All time edges.

ghost use Rattle.std.specs.Prelude.{◌≡◌, ◌<◌, ◌-◌, IfOk, MatchResult, OnOk, Ok, IsErr, length, take, All, Contains};
ghost use Rattle.model_core.specs.declared.rule.Slot.{Slot};
ghost use Rattle.model_core.specs.Lawful.{IsLawful};
ghost use Rattle.model_core.specs.Tokens.{HasToken};
ghost use Rattle.plan_defs.specs.Settling.{IsSettled};
ghost use Rattle.db_posting.specs.Underway.{IsAtRest};
ghost use Rattle.db_store.specs.Stores.{snapshot_of};
ghost use Rattle.db_refusals.specs.Seeing.{seen_state};
ghost use Rattle.db_edges.specs.Adding.{AddsEdges, AreValues, HaveDurations};
ghost use Rattle.db_edges.specs.Edges.{AppendsEach};
ghost use Rattle.db_edges.specs.Whole.{AreTimeEdges, HasTokenEdges};

use super::comparing::Listed;
use super::edge::NamedEdge;
use super::gathering::{orders_hold, problem_constrains, times_are_given, tokens_last};
use super::posting::postings_hold;
use super::walking::{Sort, Walk, edges_of_token};
use db_refusals::StoreView;
use db_store::Store;
use eu_name::name::TokenName;
use model_core::decision::Decision;
use model_core::model::Model;
use model_core::view::View;
use std::alloc::{AllocError, Global};

// The edges of the items of this sort in open blocks.
fn blocks_hold(
    alloc: Global,
    model: &Model,
    store: &Store,
    view: &StoreView<'_>,
    decisions: &[Decision],
    sort: Sort,
    edges: &mut Vec<NamedEdge>,
) -> Result<(), AllocError>
    requires lawful { IsLawful model.now }
    requires same { view.now.stored ≡ store.now }
    requires tokens { All (λ token. (slot : Slot) × HasToken model.now token slot) (seen_state store.now).tokens }
    ensures { OnOk result (AddsEdges
        (AppendsEach (HasTokenEdges sort model.now decisions.now (seen_state store.now)) (seen_state store.now).tokens)
        edges.old.items edges.new.items) }
{
    let count = view.count();
    for place in 0..count {
        match view.token_at(place) {
            Some(token) => token_holds(alloc, model, store, decisions, token, sort, edges)?,
            None => unreachable!(),
        }
    }
    Ok(())
}

// Those of one token.
fn token_holds(
    alloc: Global,
    model: &Model,
    store: &Store,
    decisions: &[Decision],
    token: &TokenName,
    sort: Sort,
    edges: &mut Vec<NamedEdge>,
) -> Result<(), AllocError>
    requires lawful { IsLawful model.now }
    requires has { (slot : Slot) × HasToken model.now token.now slot }
    requires there { Contains (seen_state store.now).tokens token.now }
    ensures { OnOk result (AddsEdges
        (HasTokenEdges sort model.now decisions.now (seen_state store.now) token.now)
        edges.old.items edges.new.items) }
{
    store.is_sound();
    let walk = Walk {
        model,
        store,
        decisions,
        token,
        sort,
    };
    match store.tokens().find(token) {
        Some(place) => edges_of_token(alloc, walk, place, edges),
        None => unreachable!(),
    }
}

// All time edges.
fn all_hold(
    alloc: Global,
    model: &Model,
    store: &Store,
    view: &StoreView<'_>,
    decisions: &[Decision],
    edges: &mut Vec<NamedEdge>,
) -> Result<(), AllocError>
    requires lawful { IsLawful model.now }
    requires same { view.now.stored ≡ store.now }
    requires tokens { All (λ token. (slot : Slot) × HasToken model.now token slot) (seen_state store.now).tokens }
    requires have { HaveDurations (seen_state store.now) }
    requires values { AreValues decisions.now }
    ensures { OnOk result (AddsEdges (AreTimeEdges model.now decisions.now (seen_state store.now)) edges.old.items edges.new.items) }
{
    let listed = Listed { model, decisions };
    tokens_last(model, view, decisions, edges)?;
    times_are_given(model, view, decisions, edges)?;
    blocks_hold(alloc, model, store, view, decisions, Sort::Relations, edges)?;
    problem_constrains(alloc, listed, model.problem.items.as_slice(), edges)?;
    blocks_hold(
        alloc,
        model,
        store,
        view,
        decisions,
        Sort::Constraints,
        edges,
    )?;
    orders_hold(decisions, edges)?;
    postings_hold(listed, edges)
}

// The edges, behind what gathering them answered.
fn gathered(
    done: Result<(), AllocError>,
    edges: Vec<NamedEdge>,
) -> Result<Vec<NamedEdge>, AllocError>
    ensures { MatchResult done (λ _. result ≡ Ok edges) (λ _. IsErr result) }
{
    match done {
        Ok(()) => Ok(edges),
        Err(none) => Err(none),
    }
}

/// All time edges of the decisions, where the store is at rest for all but the last of them.
pub fn time_edges(
    alloc: Global,
    model: &Model,
    store: &Store,
    decisions: &[Decision],
) -> Result<Vec<NamedEdge>, AllocError>
    requires lawful { IsLawful model.now }
    requires some { 0 < length decisions.now }
    requires rest { IsAtRest model.now (take (length decisions.now - 1) decisions.now) store.now.net.tables (snapshot_of store.now) }
    requires settled { IsSettled model.now decisions.now }
    ensures { IfOk result (λ edges. AreTimeEdges model.now decisions.now (seen_state store.now) edges.items) }
{
    let before = &decisions[..decisions.len() - 1];
    let view = StoreView::new(model, store, before);
    let mut edges = Vec::new(alloc);
    let done = all_hold(alloc, model, store, &view, decisions, &mut edges);
    gathered(done, edges)
}
