//! The edges of all tokens, of the problem's constraints and of all orders.

ghost use Rattle.std.specs.Prelude.{All, OnOk};
ghost use Rattle.model_core.specs.Lawful.{IsLawful};
ghost use Rattle.plan_defs.specs.Terms.{InProblem};
ghost use Rattle.db_edges.specs.Adding.{AddsEdges, AreValues, HaveDurations};
ghost use Rattle.db_edges.specs.Edges.{AppendsEach, HasConstraintEdges, HasLastingEdges, HasOrderEdges, HasTimesGiven};
ghost use Rattle.db_edges.specs.Sites.{HasShortSlots};

use super::comparing::{Listed, Site, constrained};
use super::edge::{NamedEdge, Point};
use super::lasting::{lasting, push_edge, times_given};
use model_core::decision::Decision;
use model_core::item::Item;
use model_core::model::Model;
use model_core::view::View;
use std::alloc::{AllocError, Global};

/// The edges of each token by itself.
pub fn tokens_last<V: View>(
    model: &Model,
    view: &V,
    decisions: &[Decision],
    edges: &mut Vec<NamedEdge>,
) -> Result<(), AllocError>
    requires lawful { IsLawful model.now }
    requires have { HaveDurations (V.state view.now) }
    requires values { AreValues decisions.now }
    ensures { OnOk result (AddsEdges
        (AppendsEach (HasLastingEdges model.now (V.state view.now) decisions.now) (V.state view.now).tokens)
        edges.old.items edges.new.items) }
{
    let count = view.count();
    for place in 0..count {
        match view.token_at(place) {
            Some(token) => lasting(model, view, decisions, place, token, edges)?,
            None => unreachable!(),
        }
    }
    Ok(())
}

/// The edges of the times that each token is given.
pub fn times_are_given<V: View>(
    model: &Model,
    view: &V,
    decisions: &[Decision],
    edges: &mut Vec<NamedEdge>,
) -> Result<(), AllocError>
    requires values { AreValues decisions.now }
    ensures { OnOk result (AddsEdges
        (AppendsEach (HasTimesGiven model.now decisions.now) (V.state view.now).tokens)
        edges.old.items edges.new.items) }
{
    let count = view.count();
    for place in 0..count {
        match view.token_at(place) {
            Some(token) => times_given(model, decisions, token, edges)?,
            None => unreachable!(),
        }
    }
    Ok(())
}

/// The edges of the problem's constraints.
pub fn problem_constrains(
    alloc: Global,
    listed: Listed<'_>,
    items: &[Item],
    edges: &mut Vec<NamedEdge>,
) -> Result<(), AllocError>
    requires { All HasShortSlots items.now }
    ensures { OnOk result (AddsEdges
        (AppendsEach (HasConstraintEdges listed.entry.model.now listed.entry.decisions.now InProblem) items.now)
        edges.old.items edges.new.items) }
{
    for item in items {
        constrained(alloc, listed, Site::Problem, item, edges)?;
    }
    Ok(())
}

// The edge of the decision, if it is an order.
fn push_order(decision: &Decision, edges: &mut Vec<NamedEdge>) -> Result<(), AllocError>
    ensures { OnOk result (AddsEdges (HasOrderEdges decision.now) edges.old.items edges.new.items) }
{
    match decision {
        Decision::Order(one, other) => {
            let end = Point::End(one.copy()?);
            push_edge(edges, end, 0, Point::Start(other.copy()?))
        }
        _ => Ok(()),
    }
}

/// The edges of the orders.
pub fn orders_hold(decisions: &[Decision], edges: &mut Vec<NamedEdge>) -> Result<(), AllocError>
    ensures { OnOk result (AddsEdges (AppendsEach HasOrderEdges decisions.now) edges.old.items edges.new.items) }
{
    for decision in decisions {
        push_order(decision, edges)?;
    }
    Ok(())
}
