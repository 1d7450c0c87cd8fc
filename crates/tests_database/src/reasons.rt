//! Why nothing is possible, in plain values.

ghost use Rattle.model_core.specs.Lawful.{IsLawful};

use super::asking::{model_of, stand};
use super::names::{parts, variable};
use conflict_core::{WhyFault, time_cycle, why};
use eu_name::name::{Part, TokenName, VarName};
use model_core::model::Model;
use plan_db::{Db, NamedEdge, Point};
use std::alloc::Global;

/// Whether the conflict is these decisions, as they are named between commas.
pub fn is_conflict(alloc: Global, db: &Db, choices: &str) -> bool {
    match why(alloc, db) {
        Ok(found) => stand(alloc, model_of(db), &found, choices),
        Err(_fault) => false,
    }
}

// Whether the fault has this name.
fn is_fault(alloc: Global, fault: WhyFault, name: &str) -> bool {
    match format!(in alloc; "{fault:?}") {
        Ok(found) => found.as_str() == name,
        Err(_none) => false,
    }
}

/// Whether neither a conflict nor a cycle is told, for the reason of this name.
pub fn has_no_reason(alloc: Global, db: &Db, name: &str) -> bool {
    matches!(why(alloc, db), Err(fault) if is_fault(alloc, fault, name))
        && matches!(time_cycle(alloc, db), Err(fault) if is_fault(alloc, fault, name))
}

// Whether the part of the token has this name.
fn is_part(alloc: Global, model: &Model, token: &TokenName, part: Part, name: &str) -> bool
    requires { IsLawful model.now }
{
    match variable(alloc, model, name) {
        Some(VarName::Token(named, found)) => &named == token && found == part,
        _ => false,
    }
}

// Whether the point has this name.
fn is_point(alloc: Global, model: &Model, point: &Point, name: &str) -> bool
    requires { IsLawful model.now }
{
    match point {
        Point::Origin => name == "origin",
        Point::Start(token) => is_part(alloc, model, token, Part::Start, name),
        Point::End(token) => is_part(alloc, model, token, Part::End, name),
    }
}

// Whether the edge has this name: its points, and between them what the second is later at least.
fn is_edge(alloc: Global, model: &Model, edge: &NamedEdge, wanted: Option<&str>) -> bool
    requires { IsLawful model.now }
{
    let (from, rest) = parts(wanted.unwrap_or(""));
    let (gap, to) = parts(rest);
    gap.parse() == Ok(edge.gap)
        && is_point(alloc, model, &edge.from, from)
        && is_point(alloc, model, &edge.to, to)
}

/// Whether the edges are those of these names, between commas, in this order.
pub fn are_edges(alloc: Global, model: &Model, edges: &[NamedEdge], wanted: &str) -> bool
    requires { IsLawful model.now }
{
    let mut wanted = wanted.split_terminator(", ");
    let mut all = true;
    for edge in edges {
        all = all && is_edge(alloc, model, edge, wanted.next());
    }
    all && wanted.next().is_none()
}

/// Whether the cycle has the edges of these names, between commas, in this order.
pub fn is_cycle(alloc: Global, db: &Db, wanted: &str) -> bool {
    match time_cycle(alloc, db) {
        Ok(edges) => are_edges(alloc, model_of(db), &edges, wanted),
        Err(_fault) => false,
    }
}
