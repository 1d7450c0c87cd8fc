//! Sets of types.

ghost use Rattle.std.specs.Prelude.{◌≡◌, [], IfOk, OnOk};
ghost use Rattle.nddl_symbols.specs.Finding.{earliest_fault};
ghost use Rattle.nddl_typeexpr.specs.declared.kind.Extent.TheVariants.{Set};
ghost use Rattle.nddl_typeexpr.specs.Members.{distinct_from};
ghost use Rattle.nddl_typeexpr.specs.Bounds.{are_too_many, has_too_many, members_faults, own_numbers, set_faults};

use super::base::BaseMeaning;
use super::kind::Extent;
use super::members::Members;
use super::values::{member_fault, own_number};
use nddl_ast::TextKind;
use nddl_ast::expression::Value;
use nddl_symbols::{Fault, kind_if, note_at};
use std::alloc::{AllocError, Global};

/// Notes what is wrong with a set behind this base, whose place is `at`.
#[tactic(auto, using(nddl_symbols::proofs::Earliest::earliest_append))]
pub fn note_set_faults(
    alloc: Global,
    base: &BaseMeaning<'_>,
    decl: usize,
    at: u32,
    values: &[Value],
    first: &mut Option<Fault>,
) -> Result<(), AllocError>
    ensures { OnOk result (first.new ≡ earliest_fault first.old
        (set_faults base.now.scope.now base.now.kind base.now.extent.now decl at values.now)) }
{
    let is_long = has_too_many(alloc, base, values)?;
    note_at(first, decl, at, kind_if(is_long, TextKind::LimitMembers));
    note_members_faults(base, decl, values, first);
    Ok(())
}

// Notes what is wrong with each of the values.
#[tactic(auto, using(nddl_symbols::proofs::Earliest::earliest_append))]
fn note_members_faults(
    base: &BaseMeaning<'_>,
    decl: usize,
    values: &[Value],
    first: &mut Option<Fault>,
)
    ensures { first.new ≡ earliest_fault first.old
        (members_faults base.now.scope.now base.now.kind base.now.extent.now decl values.now) }
{
    for value in values {
        note_at(first, decl, value.place(), member_fault(base, value));
    }
}

// Whether the values have too many distinct ones that may be members.
#[tactic(auto, using(crate::proofs::Counts::few_values))]
fn has_too_many(alloc: Global, base: &BaseMeaning<'_>, values: &[Value]) -> Result<bool, AllocError>
    ensures { IfOk result (λ many. many
        ≡ has_too_many base.now.scope.now base.now.kind base.now.extent.now values.now) }
{
    if values.len() <= 4096 {
        return Ok(false);
    }
    let numbers = own_numbers(alloc, base, values)?;
    are_too_many(alloc, numbers.as_slice())
}

/// Whether more than 4,096 of the numbers are distinct.
pub fn are_too_many(alloc: Global, numbers: &[i32]) -> Result<bool, AllocError>
    ensures { IfOk result (λ many. many ≡ are_too_many numbers.now) }
{
    let members = Members::of(alloc, numbers)?;
    Ok(members.len() > 4096)
}

// The numbers of the values that may be members.
fn own_numbers(
    alloc: Global,
    base: &BaseMeaning<'_>,
    values: &[Value],
) -> Result<Vec<i32>, AllocError>
    ensures { IfOk result (λ numbers. numbers.items
        ≡ own_numbers base.now.scope.now base.now.kind base.now.extent.now values.now) }
{
    let mut numbers = Vec::new(alloc);
    for value in values {
        if let Some(number) = own_number(base, value) {
            numbers.push(number)?;
        }
    }
    Ok(numbers)
}

/// The set of the values that may be members.
pub fn set_meaning(
    alloc: Global,
    base: &BaseMeaning<'_>,
    values: &[Value],
) -> Result<Extent, AllocError>
    ensures { IfOk result (λ set. set
        ≡ Set (distinct_from [] (own_numbers base.now.scope.now base.now.kind base.now.extent.now values.now))) }
{
    let numbers = own_numbers(alloc, base, values)?;
    Ok(Extent::Set(Members::of(alloc, numbers.as_slice())?))
}
