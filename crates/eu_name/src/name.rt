//! Names of tokens and variables. A name says how its thing came about, so it doesn't depend on when it was made.

ghost use Rattle.std.specs.Prelude.{◌≡◌, IfOk};

use super::sequence::Sequence;
use std::alloc::AllocError;

/// One step from a token to a subgoal: the rule's number in the predicate's list, and the slot's number in the rule.
#[derive(Clone, Copy, PartialEq, Eq, PartialOrd, Ord, Hash)]
pub struct Step {
    pub rule: u16,
    pub slot: u16,
}

/// A root token by its number in order of posting, or what the steps from it lead to.
#[derive(PartialEq, Eq, Hash, Drop)]
pub struct TokenName {
    pub root: u32,
    pub steps: Sequence<Step>,
}

/// A variable that every token of a predicate has.
#[derive(Clone, Copy, PartialEq, Eq, Hash)]
pub enum Part {
    Start,
    End,
    Duration,
    Object,
    /// A parameter of the predicate, from 0 in order of declaration.
    Param(u16),
}

/// A variable of the problem.
#[derive(PartialEq, Eq, Hash, Drop)]
pub enum VarName {
    Token(TokenName, Part),
    /// A local variable of a rule of the token, by its number in the rule.
    Local {
        token: TokenName,
        rule: u16,
        number: u16,
    },
    /// A global variable by its number.
    Global(u32),
}

impl TokenName {
    /// An equal name in memory of its own.
    pub fn copy(&self) -> Result<TokenName, AllocError>
        ensures { IfOk result (λ copied. copied ≡ self.now) }
    {
        let steps = Vec::from_slice(self.steps.allocator(), self.steps.as_slice())?;
        Ok(TokenName {
            root: self.root,
            steps: Sequence::from_vec(steps),
        })
    }
}

impl VarName {
    /// An equal name in memory of its own.
    pub fn copy(&self) -> Result<VarName, AllocError>
        ensures { IfOk result (λ copied. copied ≡ self.now) }
    {
        match self {
            VarName::Token(token, part) => Ok(VarName::Token(token.copy()?, *part)),
            VarName::Local {
                token,
                rule,
                number,
            } => Ok(VarName::Local {
                token: token.copy()?,
                rule: *rule,
                number: *number,
            }),
            VarName::Global(number) => Ok(VarName::Global(*number)),
        }
    }
}
