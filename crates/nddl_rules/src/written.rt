//! Rules by predicate.

ghost use Rattle.std.specs.Prelude.{◌≡◌, IfOk, OnOk, map, if◌then◌else◌};
ghost use Rattle.std.specs.List.{flat_map};
ghost use Rattle.eu_forest.specs.Members.{list_at};
ghost use Rattle.model_core.specs.Naming.{full_name};
ghost use Rattle.nddl_rules.specs.Written.{has_constraint, is_constraint, none_written, places_of, texts_written, with_decl_texts, with_member_text, with_member_texts, with_text, with_texts};

use super::lists::{list_at, put_at};
use super::places::TextPlace;
use super::preds::full_name;
use eu_index::NameIndex;
use eu_name::sequence::Sequence;
use eu_name::text::Text;
use model_core::class::Pred;
use nddl_ast::declaration::{Decl, Member, PredicatePart};
use nddl_ast::name::Name;
use nddl_hierarchy::lines::line_along;
use std::alloc::{AllocError, Global};

/// The rules of a program that are written for each of the predicates.
pub fn texts_written(
    alloc: Global,
    noted: &NameIndex,
    preds: &[Pred],
    decls: &[&Decl],
) -> Result<Vec<Sequence<TextPlace>>, AllocError>
    ensures { IfOk result (λ written. written.items
        ≡ texts_written noted.now preds.now (map (λ decl. decl.now) decls.now)) }
{
    let mut written = none_written(alloc, preds)?;
    note_texts(alloc, noted, decls, &mut written)?;
    Ok(written)
}

// No rules of any of the predicates.
fn none_written(alloc: Global, preds: &[Pred]) -> Result<Vec<Sequence<TextPlace>>, AllocError>
    ensures { IfOk result (λ written. written.items ≡ none_written preds.now) }
{
    let mut written = Vec::new(alloc);
    for _ in preds {
        written.push(Sequence::new(alloc))?;
    }
    Ok(written)
}

// Notes the rules in the declarations.
fn note_texts(
    alloc: Global,
    noted: &NameIndex,
    decls: &[&Decl],
    written: &mut Vec<Sequence<TextPlace>>,
) -> Result<(), AllocError>
    ensures { OnOk result (written.new.items
        ≡ with_texts noted.now 0 written.old.items (map (λ decl. decl.now) decls.now)) }
{
    for (number, decl) in decls.iter().enumerate() {
        note_decl_texts(alloc, noted, number, *decl, written)?;
    }
    Ok(())
}

// Notes the rules in the declaration of this number.
fn note_decl_texts(
    alloc: Global,
    noted: &NameIndex,
    number: usize,
    decl: &Decl,
    written: &mut Vec<Sequence<TextPlace>>,
) -> Result<(), AllocError>
    ensures { OnOk result (written.new.items ≡ with_decl_texts noted.now number written.old.items decl.now) }
{
    match decl {
        Decl::Rule {
            class,
            predicate,
            ..
        } => {
            let place = TextPlace {
                decl: number,
                member: None,
            };
            note_text(alloc, noted, &class.text, &predicate.text, place, written)
        }
        Decl::Class { name, members, .. } => note_member_texts(
            alloc,
            noted,
            number,
            &name.text,
            members.as_slice(),
            written,
        ),
        _ => Ok(()),
    }
}

// Notes the rules in the members of a class.
fn note_member_texts(
    alloc: Global,
    noted: &NameIndex,
    decl: usize,
    class: &Text,
    members: &[Member],
    written: &mut Vec<Sequence<TextPlace>>,
) -> Result<(), AllocError>
    ensures { OnOk result (written.new.items
        ≡ with_member_texts noted.now decl 0 class.now written.old.items members.now) }
{
    for (place, member) in members.iter().enumerate() {
        note_member_text(alloc, noted, decl, place, class, member, written)?;
    }
    Ok(())
}

// Notes the rule in the body of the predicate that the member is, if there is one.
fn note_member_text(
    alloc: Global,
    noted: &NameIndex,
    decl: usize,
    place: usize,
    class: &Text,
    member: &Member,
    written: &mut Vec<Sequence<TextPlace>>,
) -> Result<(), AllocError>
    ensures { OnOk result (written.new.items
        ≡ with_member_text noted.now decl place class.now written.old.items member.now) }
{
    match member {
        Member::Predicate { name, parts, .. } => note_parts_text(
            alloc,
            noted,
            TextPlace {
                decl,
                member: Some(place),
            },
            class,
            name,
            parts.as_slice(),
            written,
        ),
        _ => Ok(()),
    }
}

// Notes the rule at the place, if there is a constraint among the parts.
fn note_parts_text(
    alloc: Global,
    noted: &NameIndex,
    place: TextPlace,
    class: &Text,
    name: &Name,
    parts: &[PredicatePart],
    written: &mut Vec<Sequence<TextPlace>>,
) -> Result<(), AllocError>
    ensures { OnOk result (written.new.items ≡ if has_constraint parts.now
        then with_text noted.now written.old.items (full_name class.now name.now.text) place
        else written.old.items) }
{
    if has_constraint(parts) {
        note_text(alloc, noted, class, &name.text, place, written)
    } else {
        Ok(())
    }
}

fn has_constraint(parts: &[PredicatePart]) -> bool
    ensures { result ≡ has_constraint parts.now }
{
    for part in parts {
        if is_constraint(part) {
            return true;
        }
    }
    false
}

fn is_constraint(part: &PredicatePart) -> bool
    ensures { result ≡ is_constraint part.now }
{
    match part {
        PredicatePart::Constraint(_) => true,
        PredicatePart::Parameter(_) => false,
    }
}

// Notes a rule of the predicate of this name, if there is one.
fn note_text(
    alloc: Global,
    noted: &NameIndex,
    class: &Text,
    predicate: &Text,
    place: TextPlace,
    written: &mut Vec<Sequence<TextPlace>>,
) -> Result<(), AllocError>
    ensures { OnOk result (written.new.items
        ≡ with_text noted.now written.old.items (full_name class.now predicate.now) place) }
{
    let name = full_name(alloc, class.as_str(), predicate)?;
    match noted.find(&name) {
        Some(number) => put_at(number, place, written),
        None => Ok(()),
    }
}

/// The rules that the predicate of this number has, where predicates are inherited from these.
pub fn places_of(
    alloc: Global,
    above: &[Option<usize>],
    written: &[Sequence<TextPlace>],
    number: usize,
) -> Result<Vec<TextPlace>, AllocError>
    ensures { IfOk result (λ places. places.items ≡ places_of above.now written.now number) }
{
    let mut line = line_along(alloc, above, number)?;
    line.reverse();
    places_along(alloc, written, line.as_slice())
}

// Those of the predicates of a line.
fn places_along(
    alloc: Global,
    written: &[Sequence<TextPlace>],
    line: &[usize],
) -> Result<Vec<TextPlace>, AllocError>
    ensures { IfOk result (λ places. places.items ≡ flat_map (list_at written.now) line.now) }
{
    let mut places = Vec::new(alloc);
    for number in line {
        places.extend_from_slice(list_at(written, *number))?;
    }
    Ok(places)
}
