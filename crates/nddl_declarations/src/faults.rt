//! The first fault of a program.

ghost use Rattle.std.specs.Prelude.{◌≡◌, None, IfOk};
ghost use Rattle.nddl_symbols.specs.Finding.{earliest_fault};
ghost use Rattle.nddl_hierarchy.specs.Facts.{facts_of};
ghost use Rattle.nddl_declarations.specs.Faults.{all_faults};

use super::decls::note_decls;
use nddl_hierarchy::Basis;
use nddl_hierarchy::circles::note_circles;
use nddl_symbols::Fault;
use nddl_symbols::twice::note_second_names;
use std::alloc::{AllocError, Global};

/// The first of all that is wrong with the names and types of a program of which this is known.
pub fn first_wrong(alloc: Global, basis: &Basis<'_>) -> Result<Option<Fault>, AllocError>
    ensures { IfOk result (λ fault. fault ≡ earliest_fault None (all_faults (facts_of basis.now))) }
{
    let mut first = None;
    note_second_names(basis.types.scope, &mut first);
    note_circles(basis.types.scope, basis.lineage, &mut first);
    note_decls(alloc, basis, basis.decls, &mut first)?;
    Ok(first)
}
