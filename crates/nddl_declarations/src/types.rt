//! All that is wrong with a type, and what it means.

ghost use Rattle.std.specs.Prelude.{◌≡◌, IfOk, OnOk};
ghost use Rattle.nddl_symbols.specs.Finding.{earliest_fault};
ghost use Rattle.nddl_hierarchy.specs.Facts.{facts_of};
ghost use Rattle.nddl_declarations.specs.Known.{all_type_faults, fine_meaning};

use nddl_ast::expression::Type;
use nddl_hierarchy::Basis;
use nddl_hierarchy::objects::note_objects;
use nddl_symbols::Fault;
use nddl_typeexpr::base::base_kind;
use nddl_typeexpr::{TypeMeaning, note_type_faults, type_meaning};
use std::alloc::{AllocError, Global};

/// Notes all that is wrong with the type, which stands in the declaration of this number.
#[tactic(auto, using(nddl_symbols::proofs::Earliest::earliest_append), unfolding(crate::specs::Known::all_type_faults))]
pub fn note_all_type_faults(
    alloc: Global,
    basis: &Basis<'_>,
    decl: usize,
    written: &Type,
    first: &mut Option<Fault>,
) -> Result<(), AllocError>
    ensures { OnOk result (first.new ≡ earliest_fault first.old (all_type_faults (facts_of basis.now) decl written.now)) }
{
    note_type_faults(alloc, &basis.types, decl, written, first)?;
    let kind = base_kind(&basis.types, &written.base);
    note_objects(alloc, basis, decl, kind, &written.bounds, first)
}

/// What the type means, if nothing is wrong with it and it stands on nothing that is.
#[tactic(auto, using(nddl_typeexpr::proofs::Counts::none_wrong, nddl_typeexpr::proofs::Counts::some_wrong))]
pub fn fine_meaning(
    alloc: Global,
    basis: &Basis<'_>,
    written: &Type,
) -> Result<Option<TypeMeaning>, AllocError>
    ensures { IfOk result (λ meaning. meaning ≡ fine_meaning (facts_of basis.now) written.now) }
{
    let mut first = None;
    note_all_type_faults(alloc, basis, 0, written, &mut first)?;
    match first {
        Some(_) => Ok(None),
        None => type_meaning(alloc, &basis.types, written),
    }
}
