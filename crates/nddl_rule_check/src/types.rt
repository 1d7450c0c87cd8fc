//! What is wrong with the types of locals, among whose values names mean what they mean everywhere in a rule.

ghost use Rattle.std.specs.Prelude.{◌≡◌, IfOk, OnOk};
ghost use Rattle.std.specs.Option.{option_or};
ghost use Rattle.nddl_ast.specs.declared.kind.TextKind.TheVariants.{LimitMembers};
ghost use Rattle.nddl_symbols.specs.Finding.{earliest_fault};
ghost use Rattle.nddl_symbols.specs.Scope.{fault_if};
ghost use Rattle.nddl_hierarchy.specs.Facts.{facts_of};
ghost use Rattle.nddl_resolve.specs.Paths.{around_of, near_denoted, own_denoted};
ghost use Rattle.nddl_typeexpr.specs.Bounds.{are_too_many};
ghost use Rattle.nddl_rule_check.specs.Types.{file_member_faults, is_wrong_local, local_bounds_faults, local_ends_faults, local_member_faults, local_members_faults, local_no_range_faults, local_number, local_numbers, local_range_faults, local_type_faults, local_value_fault, near_fault, near_member_fault, near_value, object_faults, turn_fault};

use eu_name::text::Text;
use nddl_ast::TextKind;
use nddl_ast::expression::{Bounds, Type, Value};
use nddl_hierarchy::objects::{is_foreign, is_outside};
use nddl_hierarchy::{Basis, Spot};
use nddl_resolve::paths::{near_denoted, own_denoted};
use nddl_resolve::{Around, Denoted};
use nddl_symbols::{Fault, kind_if, note_at};
use nddl_typeexpr::base::{BaseMeaning, base_extent, base_fault, base_kind};
use nddl_typeexpr::ranges::is_wrong_range;
use nddl_typeexpr::sets::are_too_many;
use nddl_typeexpr::values::{member_fault, own_number, value_fault};
use nddl_typeexpr::{Extent, TypeKind};
use std::alloc::{AllocError, Global};

// ---- names that aren't those of the files

// What the value means by what stands around, or as a part of the token.
fn near_value(basis: &Basis<'_>, around: &Around<'_>, value: &Value) -> Option<Denoted>
    ensures { result ≡ near_value (facts_of basis.now) (around_of around.now) value.now }
{
    match value {
        Value::Name(name) => near_name(basis, around, &name.text),
        Value::Literal(_) => None,
    }
}

fn near_name(basis: &Basis<'_>, around: &Around<'_>, name: &Text) -> Option<Denoted>
    ensures { result ≡ option_or (near_denoted (around_of around.now) name.now)
        (own_denoted (facts_of basis.now) (around_of around.now) name.now) }
{
    match near_denoted(around, name) {
        Some(denoted) => Some(denoted),
        None => own_denoted(basis, around, name),
    }
}

// What is wrong with what is no value, or of no kind that may stand there.
fn near_fault(meant: Denoted) -> Option<TextKind>
    ensures { result ≡ near_fault meant }
{
    match meant {
        Denoted::Faulty => None,
        Denoted::Value { .. } | Denoted::Token(_) | Denoted::Class(_) => Some(TextKind::WrongType),
    }
}

// What is wrong with the variable of a `foreach`, of the second kind, in a set of the first.
fn turn_fault(
    alloc: Global,
    basis: &Basis<'_>,
    kind: TypeKind,
    given: TypeKind,
) -> Result<Option<TextKind>, AllocError>
    ensures { IfOk result (λ fault. fault ≡ turn_fault (facts_of basis.now) kind given) }
{
    match (kind, given) {
        (TypeKind::Object(class), TypeKind::Object(given)) => {
            let outside = is_outside(alloc, basis, class, Some(given))?;
            Ok(kind_if(outside, TextKind::NotInDomain))
        }
        _ => Ok(Some(TextKind::WrongType)),
    }
}

// What is wrong with what means this as a member of a type of this kind.
fn near_member_fault(
    alloc: Global,
    basis: &Basis<'_>,
    kind: TypeKind,
    meant: Denoted,
) -> Result<Option<TextKind>, AllocError>
    ensures { IfOk result (λ fault. fault ≡ near_member_fault (facts_of basis.now) kind meant) }
{
    match meant {
        Denoted::Value {
            kind: given,
            constant,
        } => {
            if constant {
                turn_fault(alloc, basis, kind, given)
            } else {
                Ok(Some(TextKind::WrongType))
            }
        }
        Denoted::Token(_) | Denoted::Class(_) | Denoted::Faulty => Ok(near_fault(meant)),
    }
}

// ---- values

// What is wrong with the value, of whatever kind it is.
fn local_value_fault(basis: &Basis<'_>, around: &Around<'_>, value: &Value) -> Option<TextKind>
    ensures { result ≡ local_value_fault (facts_of basis.now) (around_of around.now) value.now }
{
    match near_value(basis, around, value) {
        Some(_) => None,
        None => value_fault(basis.types.scope, value),
    }
}

// Notes the value if it is an object of another class than a type of this kind has.
fn note_object(
    alloc: Global,
    spot: &Spot<'_>,
    kind: TypeKind,
    value: &Value,
    first: &mut Option<Fault>,
) -> Result<(), AllocError>
    ensures { OnOk result (first.new ≡ earliest_fault first.old
        (object_faults (facts_of spot.now.basis) spot.now.decl kind value.now)) }
{
    match kind {
        TypeKind::Object(class) => {
            let foreign = is_foreign(alloc, &spot.basis, class, value)?;
            note_at(
                first,
                spot.decl,
                value.place(),
                kind_if(foreign, TextKind::NotInDomain),
            );
            Ok(())
        }
        TypeKind::Int | TypeKind::Float | TypeKind::Bool | TypeKind::Enum(_) => Ok(()),
    }
}

// Notes what is wrong with the value as a member of a type, if it is looked up in the files.
#[tactic(auto, using(nddl_symbols::proofs::Earliest::earliest_append))]
fn note_file_member(
    alloc: Global,
    spot: &Spot<'_>,
    kind: TypeKind,
    extent: &Extent,
    value: &Value,
    first: &mut Option<Fault>,
) -> Result<(), AllocError>
    ensures { OnOk result (first.new ≡ earliest_fault first.old
        (file_member_faults (facts_of spot.now.basis) spot.now.decl kind extent.now value.now)) }
{
    let base = BaseMeaning {
        scope: spot.basis.types.scope,
        kind,
        extent,
    };
    note_at(first, spot.decl, value.place(), member_fault(&base, value));
    note_object(alloc, spot, kind, value, first)
}

// Notes what is wrong with the value as a member of a type.
fn note_member(
    alloc: Global,
    spot: &Spot<'_>,
    around: &Around<'_>,
    kind: TypeKind,
    extent: &Extent,
    value: &Value,
    first: &mut Option<Fault>,
) -> Result<(), AllocError>
    ensures { OnOk result (first.new ≡ earliest_fault first.old
        (local_member_faults (facts_of spot.now.basis) (around_of around.now) spot.now.decl kind extent.now value.now)) }
{
    match near_value(&spot.basis, around, value) {
        Some(meant) => {
            let fault = near_member_fault(alloc, &spot.basis, kind, meant)?;
            note_at(first, spot.decl, value.place(), fault);
            Ok(())
        }
        None => note_file_member(alloc, spot, kind, extent, value, first),
    }
}

// The number of the value, if it may be a member of a type and is looked up in the files.
fn local_number(
    basis: &Basis<'_>,
    around: &Around<'_>,
    kind: TypeKind,
    extent: &Extent,
    value: &Value,
) -> Option<i32>
    ensures { result ≡ local_number (facts_of basis.now) (around_of around.now) kind extent.now value.now }
{
    let base = BaseMeaning {
        scope: basis.types.scope,
        kind,
        extent,
    };
    match near_value(basis, around, value) {
        Some(_) => None,
        None => own_number(&base, value),
    }
}

// ---- bounds

// A range as it is written: where it begins, and its ends.
#[derive(Clone, Copy)]
struct WrittenRange<'a> {
    at: u32,
    least: &'a Value,
    greatest: &'a Value,
}

// Whether the ends are in the wrong order, or one of them lies outside.
fn is_wrong_local(
    basis: &Basis<'_>,
    around: &Around<'_>,
    kind: TypeKind,
    extent: &Extent,
    range: &WrittenRange<'_>,
) -> bool
    ensures { result ≡ is_wrong_local (facts_of basis.now) (around_of around.now) kind extent.now range.now.least.now
        range.now.greatest.now }
{
    is_wrong_range(
        extent,
        local_number(basis, around, kind, &Extent::Whole, range.least),
        local_number(basis, around, kind, &Extent::Whole, range.greatest),
    )
}

// Notes what is wrong with a range behind a type that may have one.
#[tactic(auto, using(nddl_symbols::proofs::Earliest::earliest_append))]
fn note_ends(
    alloc: Global,
    spot: &Spot<'_>,
    around: &Around<'_>,
    kind: TypeKind,
    extent: &Extent,
    range: &WrittenRange<'_>,
    first: &mut Option<Fault>,
) -> Result<(), AllocError>
    ensures { OnOk result (first.new ≡ earliest_fault first.old (local_ends_faults (facts_of spot.now.basis)
        (around_of around.now) kind extent.now spot.now.decl range.now.at range.now.least.now range.now.greatest.now)) }
{
    let is_wrong = is_wrong_local(&spot.basis, around, kind, extent, range);
    note_at(
        first,
        spot.decl,
        range.at,
        kind_if(is_wrong, TextKind::NotInDomain),
    );
    let whole = Extent::Whole;
    note_member(alloc, spot, around, kind, &whole, range.least, first)?;
    note_member(alloc, spot, around, kind, &whole, range.greatest, first)
}

// Notes what is wrong with a range behind another type.
#[tactic(auto, using(nddl_symbols::proofs::Earliest::earliest_append))]
fn note_no_range(
    spot: &Spot<'_>,
    around: &Around<'_>,
    least: &Value,
    greatest: &Value,
    first: &mut Option<Fault>,
)
    ensures { first.new ≡ earliest_fault first.old
        (local_no_range_faults (facts_of spot.now.basis) (around_of around.now) spot.now.decl least.now greatest.now) }
{
    let least_fault = local_value_fault(&spot.basis, around, least);
    let greatest_fault = local_value_fault(&spot.basis, around, greatest);
    note_at(first, spot.decl, least.place(), least_fault);
    note_at(first, spot.decl, least.place(), Some(TextKind::WrongType));
    note_at(first, spot.decl, greatest.place(), greatest_fault);
}

// Notes what is wrong with a range.
fn note_range(
    alloc: Global,
    spot: &Spot<'_>,
    around: &Around<'_>,
    kind: TypeKind,
    extent: &Extent,
    range: &WrittenRange<'_>,
    first: &mut Option<Fault>,
) -> Result<(), AllocError>
    ensures { OnOk result (first.new ≡ earliest_fault first.old (local_range_faults (facts_of spot.now.basis)
        (around_of around.now) kind extent.now spot.now.decl range.now.at range.now.least.now range.now.greatest.now)) }
{
    if extent.is_ranged(kind) {
        note_ends(alloc, spot, around, kind, extent, range, first)
    } else {
        note_no_range(spot, around, range.least, range.greatest, first);
        Ok(())
    }
}

// The numbers of the values that may be members and are looked up in the files.
fn local_numbers(
    alloc: Global,
    basis: &Basis<'_>,
    around: &Around<'_>,
    kind: TypeKind,
    extent: &Extent,
    values: &[Value],
) -> Result<Vec<i32>, AllocError>
    ensures { IfOk result (λ numbers. numbers.items
        ≡ local_numbers (facts_of basis.now) (around_of around.now) kind extent.now values.now) }
{
    let mut numbers = Vec::new(alloc);
    for value in values {
        if let Some(number) = local_number(basis, around, kind, extent, value) {
            numbers.push(number)?;
        }
    }
    Ok(numbers)
}

// Notes what is wrong with each of the values of a set.
#[tactic(auto, using(nddl_symbols::proofs::Earliest::earliest_append))]
fn note_members(
    alloc: Global,
    spot: &Spot<'_>,
    around: &Around<'_>,
    kind: TypeKind,
    extent: &Extent,
    values: &[Value],
    first: &mut Option<Fault>,
) -> Result<(), AllocError>
    ensures { OnOk result (first.new ≡ earliest_fault first.old (local_members_faults (facts_of spot.now.basis)
        (around_of around.now) kind extent.now spot.now.decl values.now)) }
{
    for value in values {
        note_member(alloc, spot, around, kind, extent, value, first)?;
    }
    Ok(())
}

// The fault of a set that has too many members.
fn length_fault(
    alloc: Global,
    basis: &Basis<'_>,
    around: &Around<'_>,
    kind: TypeKind,
    extent: &Extent,
    values: &[Value],
) -> Result<Option<TextKind>, AllocError>
    ensures { IfOk result (λ fault. fault ≡ fault_if
        (are_too_many (local_numbers (facts_of basis.now) (around_of around.now) kind extent.now values.now)) LimitMembers) }
{
    let numbers = local_numbers(alloc, basis, around, kind, extent, values)?;
    let is_long = are_too_many(alloc, numbers.as_slice())?;
    Ok(kind_if(is_long, TextKind::LimitMembers))
}

// Notes what is wrong with the bounds behind a type of this kind that has these values.
#[tactic(auto, using(nddl_symbols::proofs::Earliest::earliest_append))]
fn note_bounds(
    alloc: Global,
    spot: &Spot<'_>,
    around: &Around<'_>,
    kind: TypeKind,
    extent: &Extent,
    bounds: &Bounds,
    first: &mut Option<Fault>,
) -> Result<(), AllocError>
    ensures { OnOk result (first.new ≡ earliest_fault first.old (local_bounds_faults (facts_of spot.now.basis)
        (around_of around.now) kind extent.now spot.now.decl bounds.now)) }
{
    match bounds {
        Bounds::All => Ok(()),
        Bounds::Range {
            at,
            least,
            greatest,
        } => {
            let range = WrittenRange {
                at: *at,
                least,
                greatest,
            };
            note_range(alloc, spot, around, kind, extent, &range, first)
        }
        Bounds::Set { at, values } => {
            let values = values.as_slice();
            let fault = length_fault(alloc, &spot.basis, around, kind, extent, values)?;
            note_at(first, spot.decl, *at, fault);
            note_members(alloc, spot, around, kind, extent, values, first)
        }
    }
}

// ---- types

/// Notes all that is wrong with the type of a local.
#[tactic(auto, using(nddl_symbols::proofs::Earliest::earliest_append), unfolding(crate::specs::Types::local_type_faults))]
pub fn note_local_type(
    alloc: Global,
    spot: &Spot<'_>,
    around: &Around<'_>,
    written: &Type,
    first: &mut Option<Fault>,
) -> Result<(), AllocError>
    ensures { OnOk result (first.new ≡ earliest_fault first.old
        (local_type_faults (facts_of spot.now.basis) (around_of around.now) spot.now.decl written.now)) }
{
    note_at(
        first,
        spot.decl,
        written.at,
        base_fault(spot.basis.types.scope, &written.base),
    );
    match base_kind(&spot.basis.types, &written.base) {
        Some(kind) => {
            let extent = base_extent(&spot.basis.types, &written.base);
            note_bounds(alloc, spot, around, kind, extent, &written.bounds, first)
        }
        None => Ok(()),
    }
}
