//! Variables by name, and values, as arguments of constraints.

ghost use Rattle.std.specs.Prelude.{map, All, Contains, IfOk};
ghost use Rattle.std.specs.List.{AllZip};
ghost use Rattle.plan_defs.specs.Claims.{argument_of};
ghost use Rattle.plan_defs.specs.Terms.{Variable};
ghost use Rattle.db_refine.specs.Claims.{IsNamedArgument};
ghost use Rattle.db_posting.specs.Origins.{content_now};
ghost use Rattle.db_posting.specs.Postable.{IsArgumentThere};

use constraint_net::NetArg;
use db_store::Store;
use eu_name::name::VarName;
use model_core::decision::ConArg;
use std::alloc::{AllocError, Global};

// The variable of this name, as an argument.
fn variable_named(store: &Store, name: &VarName) -> NetArg
    requires { Contains (content_now store.now).names name.now }
    ensures { IsNamedArgument (content_now store.now).names (Variable name.now) result }
{
    match store.find_named(name) {
        Some(number) => NetArg::Var(number),
        None => unreachable!(),
    }
}

// What the argument is in the store.
fn named_argument(store: &Store, argument: &ConArg) -> NetArg
    requires { IsArgumentThere (content_now store.now) argument.now }
    ensures { IsNamedArgument (content_now store.now).names (argument_of argument.now) result }
{
    match argument {
        ConArg::Var(name) => variable_named(store, name),
        ConArg::Value(value) => NetArg::Lit(*value),
    }
}

/// What the arguments are in the store.
pub fn named_arguments(
    alloc: Global,
    store: &Store,
    arguments: &[ConArg],
) -> Result<Vec<NetArg>, AllocError>
    requires { All (IsArgumentThere (content_now store.now)) arguments.now }
    ensures { IfOk result (λ args.
        AllZip (IsNamedArgument (content_now store.now).names) (map argument_of arguments.now) args.items) }
{
    let mut args = Vec::with_capacity(alloc, arguments.len())?;
    for argument in arguments {
        args.push(named_argument(store, argument))?;
    }
    Ok(args)
}
