//! Whether tokens are of one predicate.

ghost use Rattle.std.specs.Prelude.{◌≡◌, MatchBool};
ghost use Rattle.plan_defs.specs.Refusals.{HaveSamePredicate};

use crate::tokens::pred_of;
use eu_name::name::TokenName;
use model_core::model::Model;

// Whether the two numbers are one.
fn is_same_number(one: u32, other: u32) -> bool
    ensures { MatchBool result (one ≡ other) (one ≡ other → ⊥) }
{
    one == other
}

/// Whether the model has both tokens, and they are of one predicate.
pub fn have_same_predicate(model: &Model, one: &TokenName, other: &TokenName) -> bool
    ensures { MatchBool result
        (HaveSamePredicate model.now one.now other.now)
        (HaveSamePredicate model.now one.now other.now → ⊥) }
{
    match pred_of(model, one) {
        Some(pred) => match pred_of(model, other) {
            Some(found) => is_same_number(pred, found),
            None => false,
        },
        None => false,
    }
}
