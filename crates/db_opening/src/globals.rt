//! The global variables.

ghost use Rattle.std.specs.Prelude.{◌≤◌, ◌^◌, length};
ghost use Rattle.db_opening.specs.Bringing.{Brings};
ghost use Rattle.db_opening.specs.Beginning.{WantsGlobal};

use crate::bring_variable;
use constraint_net::NetFault;
use db_store::{Store, VarKey};
use model_core::variable::VarDecl;

/// Adds a variable for each of the globals, with its base.
pub fn bring_globals(store: &mut Store, globals: &[VarDecl]) -> Result<(), NetFault>
    requires { length globals.now ≤ 2 ^ 32 }
    ensures { Brings (WantsGlobal globals.now) store.old result store.new }
{
    for (number, variable) in globals.iter().enumerate() {
        bring_variable(store, VarKey::Global(number as u32), &variable.base)?;
    }
    Ok(())
}
