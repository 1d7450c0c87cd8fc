//! What a decision is on.

ghost use Rattle.std.specs.Prelude.{◌≡◌, ◌↔◌, IsTrue, Contains, MatchOption, slice_get, Some};
ghost use Rattle.model_core.specs.declared.decision.Decision.{Decision as Taken};
ghost use Rattle.db_history.specs.Subjects.{IsOfSubject};

use db_refusals::is_same_token;
use domain_core::kind::Kind;
use eu_name::laws::names_are_told_apart;
use eu_name::name::{TokenName, VarName};
use eu_name::sequence::Sequence;
use model_core::decision::{ConArg, Decision, decisions_are_told_apart};
use model_core::item::Rel;

/// What a decision is on, of which a list has one at most.
#[derive(Drop)]
pub enum Subject {
    /// The value of this variable.
    Var(VarName),
    /// What becomes of this token.
    Token(TokenName),
    /// That the first token comes before the second.
    Order(TokenName, TokenName),
    /// That the constraint holds of these arguments.
    Constraint(Kind, Sequence<ConArg>),
    /// That the relation holds between the first token and the second.
    Relation(Rel, TokenName, TokenName),
}

/// The place of the first decision on the subject, if there is one.
pub fn place_of(decisions: &[Decision], subject: &Subject) -> Option<usize>
    ensures { MatchOption result
        ((decision : Taken) → Contains decisions.now decision → IsOfSubject subject.now decision → ⊥)
        (λ place. (decision : Taken) × (slice_get decisions.now place ≡ Some decision) × IsOfSubject subject.now decision) }
{
    for (place, decision) in decisions.iter().enumerate() {
        if is_on(subject, decision) {
            return Some(place);
        }
    }
    None
}

// Whether the decision is on the subject.
fn is_on(subject: &Subject, decision: &Decision) -> bool
    ensures { IsTrue result ↔ IsOfSubject subject.now decision.now }
{
    match subject {
        Subject::Var(name) => specifies(decision, name),
        Subject::Token(token) => decides(decision, token),
        Subject::Order(one, other) => is_order(decision, one, other),
        Subject::Constraint(kind, arguments) => is_constraint(decision, *kind, arguments),
        Subject::Relation(relation, one, other) => is_relation(decision, *relation, one, other),
    }
}

// Whether the decision gives the variable its value.
fn specifies(decision: &Decision, name: &VarName) -> bool
    ensures { IsTrue result ↔ IsOfSubject (Subject.Var name.now) decision.now }
{
    names_are_told_apart();
    match decision {
        Decision::Specify(other, _) => other == name,
        _ => false,
    }
}

// Whether the decision says what becomes of the token.
fn decides(decision: &Decision, token: &TokenName) -> bool
    ensures { IsTrue result ↔ IsOfSubject (Subject.Token token.now) decision.now }
{
    match decision {
        Decision::Activate(other) => is_same_token(other, token),
        Decision::Merge(other, _) => is_same_token(other, token),
        Decision::Reject(other) => is_same_token(other, token),
        _ => false,
    }
}

// Whether the decision puts the one token before the other.
fn is_order(decision: &Decision, one: &TokenName, other: &TokenName) -> bool
    ensures { IsTrue result ↔ IsOfSubject (Subject.Order one.now other.now) decision.now }
{
    match decision {
        Decision::Order(first, second) => is_same_token(first, one) && is_same_token(second, other),
        _ => false,
    }
}

// Whether the decision posts the constraint with these arguments.
fn is_constraint(decision: &Decision, kind: Kind, arguments: &Sequence<ConArg>) -> bool
    ensures { IsTrue result ↔ IsOfSubject (Subject.Constraint kind arguments.now) decision.now }
{
    decisions_are_told_apart();
    match decision {
        Decision::Constrain(other, given) => *other == kind && given == arguments,
        _ => false,
    }
}

// Whether the decision posts the relation of these tokens.
fn is_relation(decision: &Decision, relation: Rel, one: &TokenName, other: &TokenName) -> bool
    ensures { IsTrue result ↔ IsOfSubject (Subject.Relation relation one.now other.now) decision.now }
{
    decisions_are_told_apart();
    match decision {
        Decision::Relate(related, first, second) => {
            *related == relation && is_same_token(first, one) && is_same_token(second, other)
        }
        _ => false,
    }
}
