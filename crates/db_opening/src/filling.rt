//! The store before any decision.

ghost use Rattle.std.specs.Prelude.{◌≡◌, Ok, Err, MatchResult};
ghost use Rattle.model_core.specs.Lawful.{IsLawful};
ghost use Rattle.db_opening.specs.Beginning.{IsBare, BeginsGlobals, FillsStore, BeginsFrom};

use super::globals::bring_globals;
use super::problem::{bring_roots, post_problem};
use constraint_net::NetFault;
use db_posting::add_tables;
use db_store::Store;
use model_core::model::Model;
use std::alloc::Global;

// Adds the tables and the globals to a store with nothing in it.
fn fill_globals(alloc: Global, store: &mut Store, model: &Model) -> Result<(), NetFault>
    requires lawful { IsLawful model.now }
    requires bare { IsBare store.old }
    ensures { BeginsGlobals model.now result store.new }
{
    add_tables(alloc, store, model)?;
    let filled = bring_globals(store, model.problem.globals.as_slice());
    store.is_sound();
    filled
}

// Adds all that the problem asks for to a store with nothing in it.
fn fill(alloc: Global, store: &mut Store, model: &Model) -> Result<(), NetFault>
    requires lawful { IsLawful model.now }
    requires bare { IsBare store.old }
    ensures { FillsStore model.now result store.new }
{
    fill_globals(alloc, store, model)?;
    bring_roots(alloc, store, model)?;
    post_problem(alloc, store, model)?;
    Ok(())
}

// The value, behind what making it answered.
fn behind<T: Drop>(done: Result<(), NetFault>, value: T) -> Result<T, NetFault>
    ensures { MatchResult done (λ _. result ≡ Ok value) (λ fault. result ≡ Err fault) }
{
    match done {
        Ok(()) => Ok(value),
        Err(fault) => Err(fault),
    }
}

/// A store before any decision, with all that the problem asks for.
pub fn begin(alloc: Global, model: &Model) -> Result<Store, NetFault>
    requires { IsLawful model.now }
    ensures { BeginsFrom model.now result }
{
    let mut store = Store::new(alloc);
    let filled = fill(alloc, &mut store, model);
    behind(filled, store)
}
