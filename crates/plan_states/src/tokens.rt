//! The lines of tokens.

ghost use Rattle.std.specs.Prelude.{◌≡◌, ◌↔◌, ℕ, IsTrue, IfErr, IfOk, MatchBool, MatchResult, MatchOption};
ghost use Rattle.eu_name.specs.declared.name.TokenName.{TokenName};
ghost use Rattle.model_core.specs.declared.rule.Slot.{Slot};
ghost use Rattle.model_core.specs.Decided.{IsRejected};
ghost use Rattle.model_core.specs.Tokens.{HasToken};
ghost use Rattle.model_core.specs.TokenStates.{IsMergedAt};
ghost use Rattle.model_core.specs.Views.{IsTokenAt};
ghost use Rattle.plan_defs.specs.declared.plan.Line.TheVariants as lines;
ghost use Rattle.plan_states.specs.declared.fault.PlanOfFault.TheVariants.{Open, Memory};
ghost use Rattle.plan_defs.specs.Surveying.{Surveys, HasPartCount, IsRejectedState, IsStatedBy, IsOwnLine, IsOwnFlaw, IsLineOfToken, IsFlawOf};
ghost use Rattle.plan_defs.specs.Flaws.{HasFlaw};
ghost use Rattle.plan_defs.specs.StatePlans.{IsSettledState, TakesPlaceAs};

use super::fault::PlanOfFault;
use super::locals::add_locals;
use super::parts::{count_parts, name_at, part_values};
use super::push_item;
use eu_name::name::TokenName;
use eu_name::sequence::Sequence;
use model_core::model::Model;
use model_core::view::{TokenState, View};
use plan_defs::plan::Line;
use plan_values::tokens::pred_of;
use std::alloc::Global;

// The number of the predicate of the token at the place.
fn pred_at<V: View>(model: &Model, view: &V, place: u32) -> Option<u32>
    ensures { MatchOption result
        ((token : TokenName) (slot : Slot) → IsTokenAt (V.state view.now) place token → HasToken model.now token slot → ⊥)
        (λ pred. (token : TokenName) × IsTokenAt (V.state view.now) place token
        × ((slot : Slot) × HasToken model.now token slot × (slot.pred ≡ pred))) }
{
    match view.token_at(place) {
        Some(token) => pred_of(model, token),
        None => None,
    }
}

// Whether a token in this state is rejected.
fn says_rejected(state: TokenState) -> bool
    ensures { IsTrue result ↔ IsRejectedState state }
{
    match state {
        TokenState::Rejected => true,
        TokenState::Active => false,
        TokenState::Fact => false,
        TokenState::Inactive => false,
        TokenState::Merged(_) => false,
    }
}

// Whether the token at the place is rejected.
fn is_rejected<V: View>(view: &V, place: u32) -> bool
    requires { IsSettledState (V.model view.now) (V.decisions view.now) (V.state view.now) }
    ensures { MatchBool result
        ((token : TokenName) → IsTokenAt (V.state view.now) place token → IsRejected (V.decisions view.now) token)
        ((token : TokenName) → IsTokenAt (V.state view.now) place token → IsRejected (V.decisions view.now) token → ⊥) }
{
    match view.state_at(place) {
        Some(state) => says_rejected(state),
        None => false,
    }
}

// The line of the token at the place, which takes place: as a fact, or since it is activated.
fn active_line<V: View>(
    alloc: Global,
    view: &V,
    place: u32,
    parts: u16,
    fact: bool,
) -> Result<Line, PlanOfFault>
    requires settled { IsSettledState (V.model view.now) (V.decisions view.now) (V.state view.now) }
    requires at { (token : TokenName) × IsTokenAt (V.state view.now) place token
        × TakesPlaceAs (V.model view.now) (V.decisions view.now) fact token }
    requires parts { HasPartCount (V.model view.now) (V.state view.now) place parts }
    ensures { MatchResult result
        (IsStatedBy (V.model view.now) (V.decisions view.now) (V.state view.now) place)
        (λ fault. fault ≡ Open → HasFlaw (V.model view.now) (V.decisions view.now) (V.state view.now)) }
{
    let name = name_at(view, place)?;
    match part_values(alloc, view, place, parts) {
        Ok(values) => Ok(Line::Token {
            name,
            fact,
            values: Sequence::from_vec(values),
        }),
        Err(fault) => Err(fault),
    }
}

// The line by which the token at the one place is merged into the one at the other.
fn merged_names<V: View>(view: &V, place: u32, target: u32) -> Result<Line, PlanOfFault>
    requires one { (token : TokenName) × IsTokenAt (V.state view.now) place token }
    requires other { (token : TokenName) × IsTokenAt (V.state view.now) target token }
    ensures line { IfOk result (λ line. (name into : TokenName) × (IsTokenAt (V.state view.now) place name
        × IsTokenAt (V.state view.now) target into × (line ≡ lines.Merged name into))) }
    ensures memory { IfErr result (λ fault. fault ≡ Memory) }
{
    let name = name_at(view, place)?;
    match name_at(view, target) {
        Ok(target) => Ok(Line::Merged { name, target }),
        Err(fault) => Err(fault),
    }
}

// The line of the token at the place, which is merged into the one at the other place.
fn merged_line<V: View>(
    alloc: Global,
    view: &V,
    place: u32,
    parts: u16,
    target: u32,
) -> Result<Line, PlanOfFault>
    requires settled { IsSettledState (V.model view.now) (V.decisions view.now) (V.state view.now) }
    requires at { (token : TokenName) × IsTokenAt (V.state view.now) place token
        × IsMergedAt (V.state view.now) (V.decisions view.now) token target }
    requires parts { HasPartCount (V.model view.now) (V.state view.now) place parts }
    ensures { MatchResult result
        (IsStatedBy (V.model view.now) (V.decisions view.now) (V.state view.now) place)
        (λ fault. fault ≡ Open → HasFlaw (V.model view.now) (V.decisions view.now) (V.state view.now)) }
{
    match part_values(alloc, view, place, parts) {
        Ok(_values) => merged_names(view, place, target),
        Err(fault) => Err(fault),
    }
}

// The line of the token at the place, which is rejected.
fn rejected_line<V: View>(view: &V, place: u32) -> Result<Line, PlanOfFault>
    requires settled { IsSettledState (V.model view.now) (V.decisions view.now) (V.state view.now) }
    requires at { (token : TokenName) × IsTokenAt (V.state view.now) place token
        × IsRejected (V.decisions view.now) token }
    ensures { MatchResult result
        (IsStatedBy (V.model view.now) (V.decisions view.now) (V.state view.now) place)
        (λ fault. fault ≡ Open → HasFlaw (V.model view.now) (V.decisions view.now) (V.state view.now)) }
{
    match name_at(view, place) {
        Ok(name) => Ok(Line::Rejected { name }),
        Err(fault) => Err(fault),
    }
}

// The line of the token at the place.
fn own_line<V: View>(alloc: Global, view: &V, place: u32, parts: u16) -> Result<Line, PlanOfFault>
    requires settled { IsSettledState (V.model view.now) (V.decisions view.now) (V.state view.now) }
    requires at { (token : TokenName) × IsTokenAt (V.state view.now) place token }
    requires parts { HasPartCount (V.model view.now) (V.state view.now) place parts }
    ensures { MatchResult result
        (IsStatedBy (V.model view.now) (V.decisions view.now) (V.state view.now) place)
        (λ fault. fault ≡ Open → HasFlaw (V.model view.now) (V.decisions view.now) (V.state view.now)) }
{
    match view.state_at(place) {
        Some(TokenState::Active) => active_line(alloc, view, place, parts, false),
        Some(TokenState::Fact) => active_line(alloc, view, place, parts, true),
        Some(TokenState::Merged(target)) => merged_line(alloc, view, place, parts, target),
        Some(TokenState::Rejected) => rejected_line(view, place),
        Some(TokenState::Inactive) => Err(PlanOfFault::Open),
        None => Err(PlanOfFault::Memory),
    }
}

// Puts the line of the token at the place behind the others.
fn add_own<V: View>(
    alloc: Global,
    view: &V,
    place: u32,
    parts: u16,
    lines: &mut Vec<Line>,
) -> Result<(), PlanOfFault>
    requires settled { IsSettledState (V.model view.now) (V.decisions view.now) (V.state view.now) }
    requires at { (token : TokenName) × IsTokenAt (V.state view.now) place token }
    requires parts { HasPartCount (V.model view.now) (V.state view.now) place parts }
    ensures { MatchResult result
        (λ _. (token : TokenName) → IsTokenAt (V.state view.now) place token
        → Surveys (V.model view.now) (V.decisions view.now) (V.state view.now)
        (IsOwnLine (V.model view.now) (V.decisions view.now) (V.state view.now) token)
        (IsOwnFlaw token) lines.old.items lines.new.items)
        (λ fault. fault ≡ Open → HasFlaw (V.model view.now) (V.decisions view.now) (V.state view.now)) }
{
    let line = own_line(alloc, view, place, parts)?;
    push_item(lines, line)
}

/// Puts the line of the token at the place and the lines of its locals behind the others.
pub fn add_token<V: View>(
    alloc: Global,
    model: &Model,
    view: &V,
    place: u32,
    lines: &mut Vec<Line>,
) -> Result<(), PlanOfFault>
    requires model { V.model view.now ≡ model.now }
    requires settled { IsSettledState (V.model view.now) (V.decisions view.now) (V.state view.now) }
    requires at { (token : TokenName) × IsTokenAt (V.state view.now) place token }
    ensures { MatchResult result
        (λ _. (token : TokenName) → IsTokenAt (V.state view.now) place token
        → Surveys (V.model view.now) (V.decisions view.now) (V.state view.now)
        (IsLineOfToken (V.model view.now) (V.decisions view.now) (V.state view.now) token)
        (IsFlawOf token) lines.old.items lines.new.items)
        (λ fault. fault ≡ Open → HasFlaw (V.model view.now) (V.decisions view.now) (V.state view.now)) }
{
    let Some(pred) = pred_at(model, view, place) else {
        return Err(PlanOfFault::Memory);
    };
    add_own(alloc, view, place, count_parts(model, pred), lines)?;
    if is_rejected(view, place) {
        return Ok(());
    }
    add_locals(model, view, place, pred, lines)
}
