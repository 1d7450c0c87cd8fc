//! The edges of a token by itself, and those of the times that it is given.

ghost use Rattle.std.specs.Prelude.{◌≡◌, ◌↔◌, ℤ, pos, ◌-ℤ◌, ◌++◌, ◌∷◌, [], MatchOption, OnOk, Contains, Some};
ghost use Rattle.domain_core.specs.Domain.{Domain, IsValue};
ghost use Rattle.eu_name.specs.declared.name.Part.TheVariants as which;
ghost use Rattle.eu_name.specs.declared.name.VarName.TheVariants.{Token};
ghost use Rattle.model_core.specs.declared.decision.Decision.TheVariants.{Specify};
ghost use Rattle.model_core.specs.Lawful.{IsLawful};
ghost use Rattle.model_core.specs.State.{Gives};
ghost use Rattle.model_core.specs.Views.{IsTokenAt};
ghost use Rattle.db_edges.specs.declared.edge.Point.TheVariants as instants;
ghost use Rattle.db_edges.specs.Adding.{AddsEdges, AreValues, HaveDurations};
ghost use Rattle.db_edges.specs.Edges.{edge_from, lasting_edges, IsLastOf, LastsBetween, HasLastingEdges, HasGivenEdges, HasTimesGiven};

use super::edge::{NamedEdge, Point};
use super::points::{copy_point, is_active, point_of};
use eu_name::laws::names_are_told_apart;
use eu_name::name::{Part, TokenName, VarName};
use model_core::decision::Decision;
use model_core::model::Model;
use model_core::view::View;
use std::alloc::AllocError;

/// The least and the greatest duration of a token.
#[derive(Clone, Copy)]
struct Span {
    low: i32,
    high: i32,
}

// Puts the edge behind the others.
pub fn push_edge(
    edges: &mut Vec<NamedEdge>,
    from: Point,
    gap: i32,
    to: Point,
) -> Result<(), AllocError>
    ensures { OnOk result (edges.new.items ≡ edges.old.items ++ edge_from from gap to ∷ []) }
{
    edges.push(NamedEdge { from, to, gap })?;
    Ok(())
}

// The value that the decision gives this part of the token.
fn value_by(decision: &Decision, token: &TokenName, part: Part) -> Option<i32>
    ensures { (value : ℤ) → (result ≡ Some value) ↔ (decision.now ≡ Specify (Token token.now part) value) }
{
    names_are_told_apart();
    match decision {
        Decision::Specify(VarName::Token(found, which), value) => {
            if found == token && *which == part {
                Some(*value)
            } else {
                None
            }
        }
        _ => None,
    }
}

// The value that the decisions give this part of the token.
fn value_given(decisions: &[Decision], token: &TokenName, part: Part) -> Option<i32>
    requires { AreValues decisions.now }
    ensures { MatchOption result
        ((value : ℤ) → Contains decisions.now (Specify (Token token.now part) value) → ⊥)
        (λ value. Contains decisions.now (Specify (Token token.now part) value)) }
{
    for decision in decisions {
        if let Some(value) = value_by(decision, token, part) {
            return Some(value);
        }
    }
    None
}

// The duration that the last of the decisions gives the token.
fn last_duration(decisions: &[Decision], token: &TokenName) -> Option<i32>
    ensures { (value : ℤ) → (result ≡ Some value) ↔ IsLastOf decisions.now (Specify (Token token.now which.Duration) value) }
{
    match decisions.last() {
        Some(decision) => value_by(decision, token, Part::Duration),
        None => None,
    }
}

// The durations that the token at the place may have.
fn durations<V: View>(view: &V, decisions: &[Decision], place: u32, token: &TokenName) -> Span
    requires there { IsTokenAt (V.state view.now) place token.now }
    requires have { HaveDurations (V.state view.now) }
    requires values { AreValues decisions.now }
    ensures lasts { LastsBetween (V.state view.now) decisions.now token.now result.low result.high }
    ensures low { IsValue result.low }
    ensures high { IsValue result.high }
{
    if let Some(value) = last_duration(decisions, token) {
        return Span {
            low: value,
            high: value,
        };
    }
    match view.domain_at(place, Part::Duration) {
        Some(domain) => Span {
            low: domain.lo(),
            high: domain.hi(),
        },
        None => unreachable!(),
    }
}

// The value turned round.
fn turned_round(value: i32) -> i32
    requires { IsValue value }
    ensures is { result ≡ pos 0 -ℤ value }
    ensures value { IsValue result }
{
    -value
}

// The edges of a token that takes place by itself.
fn push_lasting(
    model: &Model,
    token: &TokenName,
    span: Span,
    edges: &mut Vec<NamedEdge>,
) -> Result<(), AllocError>
    requires lawful { IsLawful model.now }
    requires low { IsValue span.low }
    requires high { IsValue span.high }
    ensures { OnOk result (edges.new.items
        ≡ edges.old.items ++ lasting_edges model.now.problem token.now span.low span.high) }
{
    let problem = &model.problem;
    push_edge(
        edges,
        Point::Origin,
        problem.start,
        Point::Start(token.copy()?),
    )?;
    let ending = turned_round(problem.end);
    push_edge(edges, Point::End(token.copy()?), ending, Point::Origin)?;
    let start = Point::Start(token.copy()?);
    push_edge(edges, start, span.low, Point::End(token.copy()?))?;
    let longest = turned_round(span.high);
    let end = Point::End(token.copy()?);
    push_edge(edges, end, longest, Point::Start(token.copy()?))
}

/// The edges of the token at the place by itself.
pub fn lasting<V: View>(
    model: &Model,
    view: &V,
    decisions: &[Decision],
    place: u32,
    token: &TokenName,
    edges: &mut Vec<NamedEdge>,
) -> Result<(), AllocError>
    requires lawful { IsLawful model.now }
    requires there { IsTokenAt (V.state view.now) place token.now }
    requires have { HaveDurations (V.state view.now) }
    requires values { AreValues decisions.now }
    ensures { OnOk result (AddsEdges (HasLastingEdges model.now (V.state view.now) decisions.now token.now)
        edges.old.items edges.new.items) }
{
    if !is_active(model, decisions, token) {
        return Ok(());
    }
    let span = durations(view, decisions, place, token);
    push_lasting(model, token, span, edges)
}

// The edges of a point that is given a value.
fn push_given(point: Point, value: i32, edges: &mut Vec<NamedEdge>) -> Result<(), AllocError>
    requires { IsValue value }
    ensures { OnOk result (edges.new.items
        ≡ edges.old.items ++ edge_from instants.Origin value point ∷ edge_from point (pos 0 -ℤ value) instants.Origin ∷ []) }
{
    let again = copy_point(&point)?;
    push_edge(edges, Point::Origin, value, again)?;
    push_edge(edges, point, -value, Point::Origin)
}

// The edges of this part of the token, if it is given a value.
fn time_given(
    model: &Model,
    decisions: &[Decision],
    token: &TokenName,
    part: Part,
    edges: &mut Vec<NamedEdge>,
) -> Result<(), AllocError>
    requires { AreValues decisions.now }
    ensures { OnOk result (AddsEdges (HasGivenEdges model.now decisions.now token.now part) edges.old.items edges.new.items) }
{
    let Some(value) = value_given(decisions, token, part) else {
        return Ok(());
    };
    match point_of(model, decisions, token, part)? {
        Some(point) => push_given(point, value, edges),
        None => Ok(()),
    }
}

/// The edges of the token's start and end, as far as they are given values.
pub fn times_given(
    model: &Model,
    decisions: &[Decision],
    token: &TokenName,
    edges: &mut Vec<NamedEdge>,
) -> Result<(), AllocError>
    requires { AreValues decisions.now }
    ensures { OnOk result (AddsEdges (HasTimesGiven model.now decisions.now token.now) edges.old.items edges.new.items) }
{
    time_given(model, decisions, token, Part::Start, edges)?;
    time_given(model, decisions, token, Part::End, edges)
}
