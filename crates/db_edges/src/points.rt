//! What is a point by a list of decisions.

ghost use Rattle.std.specs.Prelude.{◌≡◌, ◌↔◌, IsTrue, IfOk, MatchOption, Some, None, Contains, option_copied};
ghost use Rattle.eu_name.specs.declared.name.TokenName.{TokenName as Name};
ghost use Rattle.model_core.specs.declared.decision.Decision.TheVariants.{Activate, Merge};
ghost use Rattle.model_core.specs.Decided.{IsActivated, IsActive};
ghost use Rattle.db_edges.specs.declared.edge.Point.{Point as Instant};
ghost use Rattle.db_edges.specs.Points.{ActsAs, IsMoment, IsPointOf};

use super::edge::Point;
use db_opening::is_fact;
use eu_name::laws::names_are_told_apart;
use eu_name::name::{Part, TokenName};
use model_core::decision::Decision;
use model_core::model::Model;
use std::alloc::AllocError;

// Whether the decision activates the token.
fn activates(decision: &Decision, token: &TokenName) -> bool
    ensures { IsTrue result ↔ (decision.now ≡ Activate token.now) }
{
    names_are_told_apart();
    match decision {
        Decision::Activate(found) => found == token,
        _ => false,
    }
}

// Whether the decisions activate the token.
fn is_activated(decisions: &[Decision], token: &TokenName) -> bool
    ensures { IsTrue result ↔ IsActivated decisions.now token.now }
{
    decisions.iter().any(|decision| activates(decision, token))
}

/// Whether the token takes place by itself.
pub fn is_active(model: &Model, decisions: &[Decision], token: &TokenName) -> bool
    ensures { IsTrue result ↔ IsActive model.now decisions.now token.now }
{
    is_fact(model, token) || is_activated(decisions, token)
}

// The token into which the decision merges this one.
fn merged_by<'a>(decision: &'a Decision, token: &TokenName) -> Option<&'a TokenName>
    ensures { (target : Name) → (option_copied result ≡ Some target) ↔ (decision.now ≡ Merge token.now target) }
{
    names_are_told_apart();
    match decision {
        Decision::Merge(found, target) => { if found == token { Some(target) } else { None } }
        _ => None,
    }
}

// The token into which the decisions merge this one.
fn merged_into<'a>(decisions: &'a [Decision], token: &TokenName) -> Option<&'a TokenName>
    ensures { MatchOption (option_copied result)
        ((target : Name) → Contains decisions.now (Merge token.now target) → ⊥)
        (λ target. Contains decisions.now (Merge token.now target)) }
{
    for decision in decisions {
        if let Some(target) = merged_by(decision, token) {
            return Some(target);
        }
    }
    None
}

// The token as which this one takes place.
fn acting_for<'a>(
    model: &Model,
    decisions: &'a [Decision],
    token: &'a TokenName,
) -> Option<&'a TokenName>
    ensures { MatchOption (option_copied result)
        ((other : Name) → ActsAs model.now decisions.now token.now other → ⊥)
        (λ other. ActsAs model.now decisions.now token.now other) }
{
    if is_active(model, decisions, token) {
        Some(token)
    } else {
        merged_into(decisions, token)
    }
}

// The start or the end of the token.
fn moment_point(part: Part, token: &TokenName) -> Result<Option<Point>, AllocError>
    ensures { IfOk result (λ found. MatchOption found
        ((other : Name) (point : Instant) → IsMoment part other point → ⊥)
        (IsMoment part token.now)) }
{
    match part {
        Part::Start => Ok(Some(Point::Start(token.copy()?))),
        Part::End => Ok(Some(Point::End(token.copy()?))),
        _ => Ok(None),
    }
}

/// The point that this part of the token is, if it is one.
pub fn point_of(
    model: &Model,
    decisions: &[Decision],
    token: &TokenName,
    part: Part,
) -> Result<Option<Point>, AllocError>
    ensures { IfOk result (λ found. MatchOption found
        ((point : Instant) → IsPointOf model.now decisions.now token.now part point → ⊥)
        (IsPointOf model.now decisions.now token.now part)) }
{
    match acting_for(model, decisions, token) {
        Some(acting) => moment_point(part, acting),
        None => Ok(None),
    }
}

/// An equal point in memory of its own.
pub fn copy_point(point: &Point) -> Result<Point, AllocError>
    ensures { IfOk result (λ copied. copied ≡ point.now) }
{
    match point {
        Point::Origin => Ok(Point::Origin),
        Point::Start(token) => Ok(Point::Start(token.copy()?)),
        Point::End(token) => Ok(Point::End(token.copy()?)),
    }
}
