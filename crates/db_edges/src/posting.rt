//! The edges of the constraints and relations that decisions post.

ghost use Rattle.std.specs.Prelude.{IfOk, MatchOption, OnOk};
ghost use Rattle.plan_defs.specs.Claims.{argument_of, posted_claim};
ghost use Rattle.plan_defs.specs.Terms.{Variable};
ghost use Rattle.db_edges.specs.declared.edge.Point.{Point as Instant};
ghost use Rattle.db_edges.specs.Adding.{AddsEdges};
ghost use Rattle.db_edges.specs.Edges.{AppendsEach, HasClaimEdges, HasPostedEdges};
ghost use Rattle.db_edges.specs.Points.{IsArgumentPoint};

use super::comparing::{Listed, push_if_both, push_relation};
use super::edge::{NamedEdge, Point};
use super::points::point_of;
use domain_core::kind::Kind;
use eu_name::name::VarName;
use model_core::decision::{ConArg, Decision};
use std::alloc::AllocError;

// The point that the variable is, if it is one.
fn variable_point(at: Listed<'_>, name: &VarName) -> Result<Option<Point>, AllocError>
    ensures { IfOk result (λ found. MatchOption found
        ((point : Instant) → IsArgumentPoint at.entry.model.now at.entry.decisions.now (Variable name.now) point → ⊥)
        (IsArgumentPoint at.entry.model.now at.entry.decisions.now (Variable name.now))) }
{
    match name {
        VarName::Token(token, part) => point_of(at.model, at.decisions, token, *part),
        VarName::Global(_) | VarName::Local { .. } => Ok(None),
    }
}

// The point that the argument is, if it is one.
fn argument_point(at: Listed<'_>, argument: &ConArg) -> Result<Option<Point>, AllocError>
    ensures { IfOk result (λ found. MatchOption found
        ((point : Instant) → IsArgumentPoint at.entry.model.now at.entry.decisions.now (argument_of argument.now) point → ⊥)
        (IsArgumentPoint at.entry.model.now at.entry.decisions.now (argument_of argument.now))) }
{
    match argument {
        ConArg::Var(name) => variable_point(at, name),
        ConArg::Value(_) => Ok(None),
    }
}

// The edges of a constraint on these arguments.
fn push_constraint(
    at: Listed<'_>,
    kind: Kind,
    arguments: &[ConArg],
    edges: &mut Vec<NamedEdge>,
) -> Result<(), AllocError>
    ensures { OnOk result (AddsEdges
        (HasClaimEdges at.entry.model.now at.entry.decisions.now (posted_claim kind arguments.now))
        edges.old.items edges.new.items) }
{
    if arguments.len() != 2 {
        return Ok(());
    }
    let from = argument_point(at, &arguments[0])?;
    let to = argument_point(at, &arguments[1])?;
    push_if_both(kind, from, to, edges)
}

// The edges of what the decision posts.
fn push_posted(
    at: Listed<'_>,
    decision: &Decision,
    edges: &mut Vec<NamedEdge>,
) -> Result<(), AllocError>
    ensures { OnOk result (AddsEdges
        (HasPostedEdges at.entry.model.now at.entry.decisions.now decision.now)
        edges.old.items edges.new.items) }
{
    match decision {
        Decision::Constrain(kind, arguments) => {
            push_constraint(at, *kind, arguments.as_slice(), edges)
        }
        Decision::Relate(rel, one, other) => push_relation(at, *rel, one, other, edges),
        _ => Ok(()),
    }
}

/// The edges of all that the decisions post.
pub fn postings_hold(listed: Listed<'_>, edges: &mut Vec<NamedEdge>) -> Result<(), AllocError>
    ensures { OnOk result (AddsEdges
        (AppendsEach
        (HasPostedEdges listed.entry.model.now listed.entry.decisions.now)
        listed.entry.decisions.now)
        edges.old.items edges.new.items) }
{
    for decision in listed.decisions {
        push_posted(listed, decision, edges)?;
    }
    Ok(())
}
