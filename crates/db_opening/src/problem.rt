//! The roots, and what the constraints of the problem say.

ghost use Rattle.std.specs.Prelude.{◌≡◌, ◌<◌, [], length, Contains, OnOk, Err};
ghost use Rattle.model_core.specs.Lawful.{IsLawful};
ghost use Rattle.model_core.specs.Tokens.{root_token};
ghost use Rattle.constraint_net.specs.declared.NetFault.TheVariants.{Collapsed};
ghost use Rattle.db_refine.specs.Growth.{LeaveNothing};
ghost use Rattle.db_posting.specs.Counting.{AreRootsThere};
ghost use Rattle.db_posting.specs.Origins.{content_now};
ghost use Rattle.db_posting.specs.Tables.{HaveTables};
ghost use Rattle.db_opening.specs.Begun.{IsBegun};
ghost use Rattle.db_posting.specs.Underway.{OnlyAdds};
ghost use Rattle.db_opening.specs.Beginning.{AreItemsSaid};

use crate::{bring_token, post_what_counts};
use constraint_net::NetFault;
use db_posting::Origin;
use db_store::Store;
use eu_name::name::TokenName;
use eu_name::sequence::Sequence;
use model_core::model::Model;
use std::alloc::{AllocError, Global};

// Adds the root of this number.
fn bring_root(alloc: Global, store: &mut Store, model: &Model, number: u32) -> Result<(), NetFault>
    requires lawful { IsLawful model.now }
    requires begun { IsBegun model.now store.old }
    requires number { number < length model.now.problem.roots }
    ensures begun { OnOk result (IsBegun model.now store.new) }
    ensures there { OnOk result (Contains (content_now store.new).tokens (root_token number)) }
    ensures adds { OnOk result (OnlyAdds store.old store.new) }
    ensures void { result ≡ Err Collapsed → LeaveNothing model.now [] }
{
    let root = TokenName {
        root: number,
        steps: Sequence::new(alloc),
    };
    bring_token(alloc, store, model, &root)
}

/// Adds the roots.
pub fn bring_roots(alloc: Global, store: &mut Store, model: &Model) -> Result<(), NetFault>
    requires lawful { IsLawful model.now }
    requires begun { IsBegun model.now store.old }
    ensures begun { OnOk result (IsBegun model.now store.new) }
    ensures roots { OnOk result (AreRootsThere model.now (content_now store.new)) }
    ensures tables { OnOk result (store.new.net.tables ≡ store.old.net.tables) }
    ensures void { result ≡ Err Collapsed → LeaveNothing model.now [] }
{
    for number in 0..model.problem.roots.len() as u32 {
        bring_root(alloc, store, model, number)?;
    }
    Ok(())
}

/// Asks for what the constraints of the problem say that count without any decision.
pub fn post_problem(alloc: Global, store: &mut Store, model: &Model) -> Result<(), AllocError>
    requires lawful { IsLawful model.now }
    requires begun { IsBegun model.now store.old }
    requires roots { AreRootsThere model.now (content_now store.old) }
    requires tables { HaveTables model.now store.old.net.tables }
    ensures begun { OnOk result (IsBegun model.now store.new) }
    ensures roots { OnOk result (AreRootsThere model.now (content_now store.new)) }
    ensures said { OnOk result (AreItemsSaid model.now model.now.problem.items store.new) }
    ensures tables { OnOk result (HaveTables model.now store.new.net.tables) }
{
    let items = model.problem.items.as_slice();
    for item in items {
        post_what_counts(alloc, store, model, Origin::Problem, item)?;
    }
    Ok(())
}
