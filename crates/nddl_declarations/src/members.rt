//! What is wrong with members of classes.

ghost use Rattle.std.specs.Prelude.{◌≡◌, [], IfOk, OnOk, map};
ghost use Rattle.std.specs.List.{flat_map};
ghost use Rattle.model_core.specs.Naming.{token_part_words};
ghost use Rattle.nddl_symbols.specs.Finding.{earliest_fault};
ghost use Rattle.nddl_symbols.specs.Repeats.{repeated_faults};
ghost use Rattle.nddl_hierarchy.specs.Facts.{facts_of};
ghost use Rattle.nddl_hierarchy.specs.Inherited.{words_noted};
ghost use Rattle.nddl_declarations.specs.Members.{formals_faults, member_faults, parameters_of, predicate_faults, typed_faults, typed_names};

use crate::note_all_type_faults;
use eu_index::NameIndex;
use nddl_ast::TextKind;
use nddl_ast::declaration::{Member, PredicatePart, Typed};
use nddl_ast::name::Name;
use nddl_hierarchy::{Basis, note_word};
use nddl_symbols::repeats::note_repeated;
use nddl_symbols::{Fault, kind_if, note_at};
use std::alloc::{AllocError, Global};

/// Notes what is wrong inside the members.
#[tactic(auto, using(nddl_symbols::proofs::Earliest::earliest_append))]
pub fn note_members(
    alloc: Global,
    basis: &Basis<'_>,
    decl: usize,
    members: &[Member],
    first: &mut Option<Fault>,
) -> Result<(), AllocError>
    ensures { OnOk result (first.new ≡ earliest_fault first.old
        (flat_map (member_faults (facts_of basis.now) decl) members.now)) }
{
    for member in members {
        note_member(alloc, basis, decl, member, first)?;
    }
    Ok(())
}

// Notes what is wrong inside the member.
fn note_member(
    alloc: Global,
    basis: &Basis<'_>,
    decl: usize,
    member: &Member,
    first: &mut Option<Fault>,
) -> Result<(), AllocError>
    ensures { OnOk result (first.new ≡ earliest_fault first.old (member_faults (facts_of basis.now) decl member.now)) }
{
    match member {
        Member::Field(typed) => note_all_type_faults(alloc, basis, decl, &typed.declared, first),
        Member::Predicate { name, parts, .. } => {
            let parameters = parameters(alloc, parts.as_slice())?;
            note_predicate(alloc, basis, decl, name, parameters.as_slice(), first)
        }
        Member::Constructor { formals, .. } => {
            let formals = references(alloc, formals.as_slice())?;
            note_formals(alloc, basis, decl, formals.as_slice(), first)
        }
    }
}

/// The parameters of a predicate.
pub fn parameters(alloc: Global, parts: &[PredicatePart]) -> Result<Vec<&Typed>, AllocError>
    ensures { IfOk result (λ found. map (λ typed. typed.now) found.items ≡ parameters_of parts.now) }
{
    let mut found = Vec::new(alloc);
    for part in parts {
        if let PredicatePart::Parameter(typed) = part {
            found.push(typed)?;
        }
    }
    Ok(found)
}

fn references(alloc: Global, formals: &[Typed]) -> Result<Vec<&Typed>, AllocError>
    ensures { IfOk result (λ found. map (λ typed. typed.now) found.items ≡ formals.now) }
{
    let mut found = Vec::new(alloc);
    for typed in formals {
        found.push(typed)?;
    }
    Ok(found)
}

// Notes what is wrong with a predicate of these parameters.
#[tactic(auto, using(nddl_symbols::proofs::Earliest::earliest_append))]
fn note_predicate(
    alloc: Global,
    basis: &Basis<'_>,
    decl: usize,
    name: &Name,
    parameters: &[&Typed],
    first: &mut Option<Fault>,
) -> Result<(), AllocError>
    ensures { OnOk result (first.new ≡ earliest_fault first.old
        (predicate_faults (facts_of basis.now) decl name.now (map (λ typed. typed.now) parameters.now))) }
{
    note_typed(alloc, basis, decl, parameters, first)?;
    let mut noted = part_words(alloc)?;
    note_names(decl, parameters, &mut noted, first)?;
    let is_long = parameters.len() > 32;
    note_at(
        first,
        decl,
        name.at,
        kind_if(is_long, TextKind::LimitParameters),
    );
    Ok(())
}

// Notes what is wrong with the formals of a constructor.
#[tactic(auto, using(nddl_symbols::proofs::Earliest::earliest_append))]
fn note_formals(
    alloc: Global,
    basis: &Basis<'_>,
    decl: usize,
    formals: &[&Typed],
    first: &mut Option<Fault>,
) -> Result<(), AllocError>
    ensures { OnOk result (first.new ≡ earliest_fault first.old
        (formals_faults (facts_of basis.now) decl (map (λ typed. typed.now) formals.now))) }
{
    note_typed(alloc, basis, decl, formals, first)?;
    let mut noted = NameIndex::new(alloc);
    note_names(decl, formals, &mut noted, first)
}

// The names of the parts that each token has.
fn part_words(alloc: Global) -> Result<NameIndex, AllocError>
    ensures { IfOk result (λ noted. noted ≡ words_noted [] token_part_words) }
{
    let mut noted = NameIndex::new(alloc);
    note_word(alloc, "start", &mut noted)?;
    note_word(alloc, "end", &mut noted)?;
    note_word(alloc, "duration", &mut noted)?;
    note_word(alloc, "object", &mut noted)?;
    Ok(noted)
}

// Notes what is wrong with the types of these.
#[tactic(auto, using(nddl_symbols::proofs::Earliest::earliest_append))]
fn note_typed(
    alloc: Global,
    basis: &Basis<'_>,
    decl: usize,
    some: &[&Typed],
    first: &mut Option<Fault>,
) -> Result<(), AllocError>
    ensures { OnOk result (first.new ≡ earliest_fault first.old
        (typed_faults (facts_of basis.now) decl (map (λ typed. typed.now) some.now))) }
{
    for typed in some {
        note_all_type_faults(alloc, basis, decl, &typed.declared, first)?;
    }
    Ok(())
}

// Notes each name that stands before.
#[tactic(auto, using(nddl_symbols::proofs::Earliest::earliest_append))]
fn note_names(
    decl: usize,
    some: &[&Typed],
    noted: &mut NameIndex,
    first: &mut Option<Fault>,
) -> Result<(), AllocError>
    ensures { OnOk result (first.new ≡ earliest_fault first.old
        (repeated_faults decl noted.old (typed_names (map (λ typed. typed.now) some.now)))) }
{
    for typed in some {
        note_repeated(noted, decl, &typed.name, first)?;
    }
    Ok(())
}
