//! Constraints and their arguments.

ghost use Rattle.std.specs.Prelude.{◌≡◌, IfOk};

use domain_core::kind::Kind;
use smallvec::SmallVec;
use std::alloc::{AllocError, Global};
use std::marker::Model;

/// An argument of a constraint.
#[derive(Clone, Copy)]
pub enum NetArg {
    /// A variable, by its number.
    Var(usize),
    /// A value as it is.
    Lit(i32),
}

// What stands in the places of a short list that aren't used.
impl Default for NetArg {
    fn default() -> NetArg {
        NetArg::Lit(0)
    }
}

/// The arguments of a constraint, in their order. As many as most kinds have take no memory of their own.
#[derive(Drop)]
pub struct Arguments {
    items: SmallVec<NetArg, 3>,
}

impl Model for Arguments {
    ghost use Rattle.std.specs.Prelude.{List};
    ghost use Rattle.constraint_net.specs.declared.constraint.NetArg.{NetArg};

    ghost Value = { List NetArg };

    ghost view = { λ arguments. arguments.items.items };
}

impl Arguments {
    pub fn copied_from(alloc: Global, args: &[NetArg]) -> Result<Arguments, AllocError>
        ensures { IfOk result (λ arguments. arguments ≡ args.now) }
    {
        let items = SmallVec::from_slice(alloc, args)?;
        Ok(Arguments { items })
    }

    pub fn as_slice(&self) -> &[NetArg]
        ensures { result.now ≡ self.now }
    {
        self.items.as_slice()
    }
}

/// A constraint that was posted.
#[derive(Drop)]
pub struct Constraint {
    pub kind: Kind,
    pub args: Arguments,
}
