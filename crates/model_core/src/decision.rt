//! The decisions of a planner.

ghost use Rattle.std.specs.Prelude.{◌≡◌, ◌↔◌, IfOk, IsTrue};
ghost use Rattle.eu_name.specs.Laws.{DecidesEquality};

use super::item::Rel;
use domain_core::kind::Kind;
use eu_name::laws::{names_are_told_apart, sequences_are_told_apart};
use eu_name::name::{TokenName, VarName};
use eu_name::sequence::Sequence;
use std::alloc::AllocError;

/// One decision.
#[derive(PartialEq, Eq, Drop)]
pub enum Decision {
    /// The variable has this value.
    Specify(VarName, i32),
    /// The token takes place.
    Activate(TokenName),
    /// The first token is the second.
    Merge(TokenName, TokenName),
    /// The token doesn't take place.
    Reject(TokenName),
    /// The first token ends before the second starts.
    Order(TokenName, TokenName),
    /// The constraint holds of the arguments.
    Constrain(Kind, Sequence<ConArg>),
    /// The temporal relation holds between the first token and the second.
    Relate(Rel, TokenName, TokenName),
}

/// An argument of a constraint that a decision posts.
#[derive(PartialEq, Eq, Drop)]
pub enum ConArg {
    /// The variable of this name.
    Var(VarName),
    /// This value, of the kind in which the constraint reads it.
    Value(i32),
}

impl ConArg {
    /// An equal argument in memory of its own.
    pub fn copy(&self) -> Result<ConArg, AllocError>
        ensures { IfOk result (λ copied. copied ≡ self.now) }
    {
        match self {
            ConArg::Var(variable) => Ok(ConArg::Var(variable.copy()?)),
            ConArg::Value(value) => Ok(ConArg::Value(*value)),
        }
    }
}

/// Equal arguments in memory of their own.
pub fn copy_arguments(arguments: &Sequence<ConArg>) -> Result<Sequence<ConArg>, AllocError>
    ensures { IfOk result (λ copied. copied ≡ arguments.now) }
{
    let mut copies = Sequence::new(arguments.allocator());
    for argument in arguments.as_slice() {
        copies.push(argument.copy()?)?;
    }
    Ok(copies)
}

impl Decision {
    /// An equal decision in memory of its own.
    pub fn copy(&self) -> Result<Decision, AllocError>
        ensures { IfOk result (λ copied. copied ≡ self.now) }
    {
        match self {
            Decision::Specify(variable, value) => Ok(Decision::Specify(variable.copy()?, *value)),
            Decision::Activate(token) => Ok(Decision::Activate(token.copy()?)),
            Decision::Merge(token, target) => Ok(Decision::Merge(token.copy()?, target.copy()?)),
            Decision::Reject(token) => Ok(Decision::Reject(token.copy()?)),
            Decision::Order(first, second) => Ok(Decision::Order(first.copy()?, second.copy()?)),
            Decision::Constrain(kind, arguments) => {
                Ok(Decision::Constrain(*kind, copy_arguments(arguments)?))
            }
            Decision::Relate(relation, first, second) => {
                Ok(Decision::Relate(*relation, first.copy()?, second.copy()?))
            }
        }
    }
}

/// A law: `==` tells whether two decisions are equal, and so it does of what they are made of.
pub fn decisions_are_told_apart()
    ensures kinds { DecidesEquality ⟦<Kind as PartialEq>⟧.eq }
    ensures relations { DecidesEquality ⟦<Rel as PartialEq>⟧.eq }
    ensures arguments { DecidesEquality ⟦<ConArg as PartialEq>⟧.eq }
    ensures lists { DecidesEquality ⟦<Sequence<ConArg> as PartialEq>⟧.eq }
    ensures decisions { DecidesEquality ⟦<Decision as PartialEq>⟧.eq }
{
    names_are_told_apart();
    sequences_are_told_apart::<ConArg>();
}
