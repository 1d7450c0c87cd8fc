//! What variables and open blocks go by in a store: the places of their tokens.

ghost use Rattle.std.specs.Prelude.{◌≡◌, IfOk};
ghost use Rattle.model_core.specs.Numbers.{turned};

use eu_name::name::Part;
use eu_name::sequence::Sequence;
use model_core::rule::Turn;
use std::alloc::{AllocError, Global};

/// A variable, by the place of the token that it belongs to.
#[derive(Clone, Copy, PartialEq, Eq, Hash)]
pub enum VarKey {
    /// A global variable, by its number.
    Global(u32),
    /// A variable that every token of the predicate has.
    Part(u32, Part),
    /// A local variable of a rule of the token, by its number in the rule.
    Local { token: u32, rule: u16, number: u16 },
}

/// An open block of a rule of a token, by the place of the token.
#[derive(PartialEq, Eq, Hash, Drop)]
pub struct OpenBlock {
    pub token: u32,
    pub rule: u16,
    /// The way to it from the rule's top block.
    pub path: Sequence<Turn>,
}

impl OpenBlock {
    /// The block to which the turn leads from this one.
    pub fn behind(&self, alloc: Global, turn: Turn) -> Result<OpenBlock, AllocError>
        ensures { IfOk result (λ behind.
            behind ≡ record self.now { path = turned self.now.path turn.entry turn.side }) }
    {
        let mut path = Vec::from_slice(alloc, self.path.as_slice())?;
        path.push(turn)?;
        Ok(OpenBlock {
            token: self.token,
            rule: self.rule,
            path: Sequence::from_vec(path),
        })
    }
}
