//! What types mean, and what is wrong with one.

ghost use Rattle.std.specs.Prelude.{◌≡◌, IfOk, OnOk};
ghost use Rattle.nddl_symbols.specs.Finding.{earliest_fault};
ghost use Rattle.nddl_typeexpr.specs.declared.kind.Extent.TheVariants.{Whole};
ghost use Rattle.nddl_typeexpr.specs.Bounds.{bounds_extent, bounds_faults};
ghost use Rattle.nddl_typeexpr.specs.Types.{bounded_meaning, type_faults, type_meaning};

use super::base::{BaseMeaning, base_extent, base_fault, base_kind};
use super::kind::{Extent, TypeMeaning};
use super::missing::note_missing_faults;
use super::ranges::{note_range_faults, range_meaning};
use super::sets::{note_set_faults, set_meaning};
use nddl_ast::expression::{Bounds, Type};
use nddl_symbols::{Fault, Scope, note_at};
use std::alloc::{AllocError, Global};

/// What is known of a program where its types are read: its scope, what the typedefs mean, by the numbers of their names
/// in the scope, and what has all values.
#[derive(Clone, Copy)]
pub struct Types<'a> {
    pub scope: &'a Scope,
    pub known: &'a [Option<TypeMeaning>],
    pub whole: &'a Extent,
    ghost is_whole: { whole.now ≡ Whole },
}

/// Notes all that is wrong with the type, which stands in the declaration of this number.
#[tactic(auto, using(nddl_symbols::proofs::Earliest::earliest_append))]
pub fn note_type_faults(
    alloc: Global,
    types: &Types<'_>,
    decl: usize,
    written: &Type,
    first: &mut Option<Fault>,
) -> Result<(), AllocError>
    ensures { OnOk result (first.new ≡ earliest_fault first.old
        (type_faults types.now.scope.now types.now.known.now decl written.now)) }
{
    note_at(
        first,
        decl,
        written.at,
        base_fault(types.scope, &written.base),
    );
    match base_kind(types, &written.base) {
        Some(kind) => {
            let base = BaseMeaning {
                scope: types.scope,
                kind,
                extent: base_extent(types, &written.base),
            };
            note_bounds_faults(alloc, &base, decl, &written.bounds, first)
        }
        None => {
            note_missing_faults(types.scope, decl, &written.bounds, first);
            Ok(())
        }
    }
}

// Notes what is wrong with a range or a set behind this base.
fn note_bounds_faults(
    alloc: Global,
    base: &BaseMeaning<'_>,
    decl: usize,
    bounds: &Bounds,
    first: &mut Option<Fault>,
) -> Result<(), AllocError>
    ensures { OnOk result (first.new ≡ earliest_fault first.old
        (bounds_faults base.now.scope.now base.now.kind base.now.extent.now decl bounds.now)) }
{
    match bounds {
        Bounds::All => Ok(()),
        Bounds::Range {
            at,
            least,
            greatest,
        } => {
            note_range_faults(base, decl, *at, least, greatest, first);
            Ok(())
        }
        Bounds::Set { at, values } => {
            note_set_faults(alloc, base, decl, *at, values.as_slice(), first)
        }
    }
}

/// What the type means, if nothing is wrong with it and it stands on nothing that is.
#[tactic(auto, using(crate::proofs::Counts::none_wrong, crate::proofs::Counts::some_wrong))]
pub fn type_meaning(
    alloc: Global,
    types: &Types<'_>,
    written: &Type,
) -> Result<Option<TypeMeaning>, AllocError>
    ensures { IfOk result (λ meaning. meaning ≡ type_meaning types.now.scope.now types.now.known.now written.now) }
{
    let mut first = None;
    note_type_faults(alloc, types, 0, written, &mut first)?;
    match first {
        Some(_) => Ok(None),
        None => fine_meaning(alloc, types, written),
    }
}

fn fine_meaning(
    alloc: Global,
    types: &Types<'_>,
    written: &Type,
) -> Result<Option<TypeMeaning>, AllocError>
    ensures { IfOk result (λ meaning. meaning ≡ bounded_meaning types.now.scope.now types.now.known.now written.now) }
{
    match base_kind(types, &written.base) {
        Some(kind) => {
            let base = BaseMeaning {
                scope: types.scope,
                kind,
                extent: base_extent(types, &written.base),
            };
            let extent = bounds_extent(alloc, &base, &written.bounds)?;
            Ok(Some(TypeMeaning { kind, extent }))
        }
        None => Ok(None),
    }
}

fn bounds_extent(
    alloc: Global,
    base: &BaseMeaning<'_>,
    bounds: &Bounds,
) -> Result<Extent, AllocError>
    ensures { IfOk result (λ extent. extent
        ≡ bounds_extent base.now.scope.now base.now.kind base.now.extent.now bounds.now) }
{
    match bounds {
        Bounds::All => base.extent.copy(),
        Bounds::Range {
            least,
            greatest,
            ..
        } => Ok(range_meaning(base.scope, base.kind, least, greatest)),
        Bounds::Set { values, .. } => set_meaning(alloc, base, values.as_slice()),
    }
}
