//! What the decisions that stand say of a further one.

ghost use Rattle.std.specs.Prelude.{◌≡◌, ◌↔◌, ℤ, IsTrue, Contains, MatchBool};
ghost use Rattle.model_core.specs.declared.decision.Decision.TheVariants.{Specify};

use eu_name::laws::names_are_told_apart;
use eu_name::name::{TokenName, VarName};
use model_core::decision::{Decision, decisions_are_told_apart};

/// Whether one of the decisions specifies the variable.
pub fn is_specified(decisions: &[Decision], name: &VarName) -> bool
    ensures { MatchBool result
        ((value : ℤ) × Contains decisions.now (Specify name.now value))
        ((value : ℤ) → Contains decisions.now (Specify name.now value) → ⊥) }
{
    for decision in decisions {
        if specifies(decision, name) {
            return true;
        }
    }
    false
}

// Whether the decision specifies the variable.
fn specifies(decision: &Decision, name: &VarName) -> bool
    ensures { MatchBool result
        ((value : ℤ) × (decision.now ≡ Specify name.now value))
        ((value : ℤ) → decision.now ≡ Specify name.now value → ⊥) }
{
    names_are_told_apart();
    match decision {
        Decision::Specify(other, _) => other == name,
        _ => false,
    }
}

/// Whether the two are one token.
pub fn is_same_token(one: &TokenName, other: &TokenName) -> bool
    ensures { IsTrue result ↔ (one.now ≡ other.now) }
{
    names_are_told_apart();
    one == other
}

/// Whether the two are one decision.
pub fn is_same_decision(one: &Decision, other: &Decision) -> bool
    ensures { IsTrue result ↔ (one.now ≡ other.now) }
{
    decisions_are_told_apart();
    one == other
}

/// Whether the decision stands already.
pub fn stands(decisions: &[Decision], decision: &Decision) -> bool
    ensures { IsTrue result ↔ Contains decisions.now decision.now }
{
    decisions
        .iter()
        .any(|other| is_same_decision(other, decision))
}
