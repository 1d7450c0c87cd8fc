//! What a model has of the tokens that a plan names.

ghost use Rattle.std.specs.Prelude.{◌≡◌, MatchOption};
ghost use Rattle.model_core.specs.declared.model.Root.{Root};
ghost use Rattle.model_core.specs.declared.rule.Slot.{Slot};
ghost use Rattle.model_core.specs.Names.{token_at};
ghost use Rattle.model_core.specs.Tokens.{IsRoot, HasToken};

use eu_name::name::{Step, TokenName};
use model_core::model::{Model, Root};

/// The root of this number.
pub fn root_at(model: &Model, number: u32) -> Option<&Root>
    ensures { MatchOption result
        ((root : Root) → IsRoot model.now number root → ⊥)
        (λ root. IsRoot model.now number root.now) }
{
    model.problem.roots.as_slice().get(number as usize)
}

/// The number of the predicate of the token to which the steps lead from this root.
pub fn pred_at(model: &Model, root: u32, steps: &[Step]) -> Option<u32>
    ensures { MatchOption result
        ((slot : Slot) → HasToken model.now (token_at root steps.now) slot → ⊥)
        (λ pred. (slot : Slot) × HasToken model.now (token_at root steps.now) slot × (slot.pred ≡ pred)) }
{
    match root_at(model, root) {
        Some(root) => model.pred_after(root.pred, steps),
        None => None,
    }
}

/// The number of the predicate of the token.
pub fn pred_of(model: &Model, token: &TokenName) -> Option<u32>
    ensures { MatchOption result
        ((slot : Slot) → HasToken model.now token.now slot → ⊥)
        (λ pred. (slot : Slot) × HasToken model.now token.now slot × (slot.pred ≡ pred)) }
{
    pred_at(model, token.root, token.steps.as_slice())
}
