//! The places of names in the scope of a table.

ghost use Rattle.std.specs.Prelude.{◌≡◌, [], IfOk};
ghost use Rattle.nddl_rules.specs.Told.{scope_places};

use eu_index::NameIndex;
use nddl_types::table::Named;
use std::alloc::{AllocError, Global};

/// The names, each with its place.
pub fn scope_places(alloc: Global, scope: &[Named]) -> Result<NameIndex, AllocError>
    ensures { IfOk result (λ places. places ≡ scope_places [] 0 scope.now) }
{
    let mut places = NameIndex::new(alloc);
    for (number, named) in scope.iter().enumerate() {
        let _ = places.note(&named.name, number)?;
    }
    Ok(places)
}
