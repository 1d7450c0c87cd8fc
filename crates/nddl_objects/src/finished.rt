//! What is wrong with an object whose constructors have run.

ghost use Rattle.std.specs.Prelude.{◌≡◌, IfOk, OnOk};
ghost use Rattle.std.specs.List.{list_all, list_any};
ghost use Rattle.nddl_symbols.specs.Finding.{earliest_fault};
ghost use Rattle.nddl_hierarchy.specs.Facts.{facts_of};
ghost use Rattle.nddl_construction.specs.Fields.{field_datum, is_set_once};
ghost use Rattle.nddl_objects.specs.Finished.{are_all_set, are_builtin_set, datum_below, finished_faults, is_class_out, is_class_set, is_member_set, is_out_of_bounds};

use eu_name::text::Text;
use nddl_ast::TextKind;
use nddl_ast::declaration::Member;
use nddl_construction::{Datum, SetFields};
use nddl_hierarchy::Basis;
use nddl_hierarchy::decls::members_of;
use nddl_symbols::{Fault, Meaning, Place, kind_if, note_at};
use std::alloc::{AllocError, Global};

// Whether the member is no field, or one that is set once.
fn is_member_set(fields: &SetFields, member: &Member) -> bool
    ensures { result ≡ is_member_set fields.now member.now }
{
    match member {
        Member::Field(typed) => fields.is_set_once(&typed.name.text),
        _ => true,
    }
}

fn are_members_set(fields: &SetFields, members: &[Member]) -> bool
    ensures { result ≡ list_all (is_member_set fields.now) members.now }
{
    for member in members {
        if !is_member_set(fields, member) {
            return false;
        }
    }
    true
}

// Whether the field of this name is set, and only once.
fn is_word_set(alloc: Global, fields: &SetFields, name: &str) -> Result<bool, AllocError>
    ensures { IfOk result (λ once. once ≡ is_set_once name.now fields.now) }
{
    let name = Text::from_str(alloc, name)?;
    Ok(fields.is_set_once(&name))
}

// Whether each field of a reservoir is set once.
fn is_reservoir_set(alloc: Global, fields: &SetFields) -> Result<bool, AllocError>
    ensures { IfOk result (λ all. all ≡ are_builtin_set fields.now 3) }
{
    let initial = is_word_set(alloc, fields, "initial")?;
    let low = is_word_set(alloc, fields, "low")?;
    let high = is_word_set(alloc, fields, "high")?;
    Ok(initial && (low && high))
}

// Whether each field of the built-in class of this number is set once.
fn are_builtin_set(alloc: Global, fields: &SetFields, number: u32) -> Result<bool, AllocError>
    ensures { IfOk result (λ all. all ≡ are_builtin_set fields.now number) }
{
    if number == 2 {
        is_word_set(alloc, fields, "capacity")
    } else if number == 3 {
        is_reservoir_set(alloc, fields)
    } else {
        Ok(true)
    }
}

// Whether each field is that the class adds.
fn is_class_set(
    alloc: Global,
    basis: &Basis<'_>,
    fields: &SetFields,
    class: Meaning,
) -> Result<bool, AllocError>
    ensures { IfOk result (λ all. all ≡ is_class_set (facts_of basis.now) fields.now class) }
{
    match class {
        Meaning::BuiltIn(number) => are_builtin_set(alloc, fields, number),
        Meaning::Entry(entry) => {
            let members = members_of(basis.types.scope, basis.decls, entry);
            Ok(are_members_set(fields, members))
        }
    }
}

// Whether each field is of an object with this line.
fn are_all_set(
    alloc: Global,
    basis: &Basis<'_>,
    fields: &SetFields,
    line: &[Meaning],
) -> Result<bool, AllocError>
    ensures { IfOk result (λ all. all ≡ are_all_set (facts_of basis.now) fields.now line.now) }
{
    for class in line {
        if !is_class_set(alloc, basis, fields, *class)? {
            return Ok(false);
        }
    }
    Ok(true)
}

// Whether the one number is less than the other, where both are known.
fn datum_below(one: Option<Datum>, other: Option<Datum>) -> bool
    ensures { result ≡ datum_below one other }
{
    match (one, other) {
        (Some(Datum::Number(one)), Some(Datum::Number(other))) => one < other,
        _ => false,
    }
}

// The value to which the field of this name is set.
fn datum_of(alloc: Global, name: &str, fields: &SetFields) -> Result<Option<Datum>, AllocError>
    ensures { IfOk result (λ datum. datum ≡ field_datum name.now fields.now) }
{
    let name = Text::from_str(alloc, name)?;
    Ok(fields.datum(&name))
}

// Whether the level of a reservoir begins outside of its limits.
fn is_level_out(alloc: Global, fields: &SetFields) -> Result<bool, AllocError>
    ensures { IfOk result (λ out. out ≡ is_out_of_bounds fields.now 3) }
{
    let initial = datum_of(alloc, "initial", fields)?;
    let low = datum_of(alloc, "low", fields)?;
    let high = datum_of(alloc, "high", fields)?;
    Ok(datum_below(initial, low) || datum_below(high, initial))
}

// Whether a capacity is negative, or a level begins outside of its limits.
fn is_out_of_bounds(alloc: Global, fields: &SetFields, number: u32) -> Result<bool, AllocError>
    ensures { IfOk result (λ out. out ≡ is_out_of_bounds fields.now number) }
{
    if number == 2 {
        let capacity = datum_of(alloc, "capacity", fields)?;
        Ok(datum_below(capacity, Some(Datum::Number(0))))
    } else if number == 3 {
        is_level_out(alloc, fields)
    } else {
        Ok(false)
    }
}

fn is_class_out(alloc: Global, fields: &SetFields, class: Meaning) -> Result<bool, AllocError>
    ensures { IfOk result (λ out. out ≡ is_class_out fields.now class) }
{
    match class {
        Meaning::BuiltIn(number) => is_out_of_bounds(alloc, fields, number),
        Meaning::Entry(_) => Ok(false),
    }
}

// Whether one of the classes of the line is a built-in one whose numbers are wrong.
fn is_line_out(alloc: Global, fields: &SetFields, line: &[Meaning]) -> Result<bool, AllocError>
    ensures { IfOk result (λ out. out ≡ list_any (is_class_out fields.now) line.now) }
{
    for class in line {
        if is_class_out(alloc, fields, *class)? {
            return Ok(true);
        }
    }
    Ok(false)
}

/// Notes all that is wrong with the fields of an object with this line.
#[tactic(auto, using(nddl_symbols::proofs::Earliest::earliest_append))]
pub fn note_finished(
    alloc: Global,
    basis: &Basis<'_>,
    place: Place,
    line: &[Meaning],
    fields: &SetFields,
    first: &mut Option<Fault>,
) -> Result<(), AllocError>
    ensures { OnOk result (first.new ≡ earliest_fault first.old
        (finished_faults (facts_of basis.now) place line.now fields.now)) }
{
    let is_wrong = !are_all_set(alloc, basis, fields, line)?;
    note_at(
        first,
        place.decl,
        place.at,
        kind_if(is_wrong, TextKind::WrongCount),
    );
    let is_out = is_line_out(alloc, fields, line)?;
    note_at(
        first,
        place.decl,
        place.at,
        kind_if(is_out, TextKind::NotInDomain),
    );
    Ok(())
}
