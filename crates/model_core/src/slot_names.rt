//! The names of the tokens that rules ask for.

ghost use Rattle.std.specs.Prelude.{◌≡◌, IfOk};
ghost use Rattle.model_core.specs.Tokens.{slot_token};

use eu_name::name::{Step, TokenName};
use eu_name::sequence::Sequence;
use std::alloc::AllocError;

/// The name of the token that the rule of this number of the token asks for by its slot of this number.
pub fn slot_name(token: &TokenName, rule: u16, slot: u16) -> Result<TokenName, AllocError>
    ensures { IfOk result (λ name. name ≡ slot_token token.now rule slot) }
{
    let mut steps = Vec::from_slice(token.steps.allocator(), token.steps.as_slice())?;
    steps.push(Step { rule, slot })?;
    Ok(TokenName {
        root: token.root,
        steps: Sequence::from_vec(steps),
    })
}
