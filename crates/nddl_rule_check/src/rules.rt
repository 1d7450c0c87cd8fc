//! What is wrong with the rules of a program.

ghost use Rattle.std.specs.Prelude.{◌≡◌, None, IfOk, OnOk, map};
ghost use Rattle.std.specs.List.{flat_map};
ghost use Rattle.nddl_symbols.specs.Finding.{earliest_fault};
ghost use Rattle.nddl_hierarchy.specs.Facts.{facts_of};
ghost use Rattle.nddl_rule_check.specs.Seeing.{token_alone};
ghost use Rattle.nddl_rule_check.specs.Rules.{all_rule_faults, class_rule_faults, decl_rule_faults, member_rule_faults, member_token, members_rule_faults, part_rule_faults, rule_faults, rule_token, token_named, token_rule_faults, token_unless};

use super::blocks::note_block;
use super::visible::Visible;
use crate::note_body_call;
use nddl_ast::TextKind;
use nddl_ast::declaration::{Decl, Member, PredicatePart};
use nddl_ast::name::Name;
use nddl_ast::statement::StmtBlock;
use nddl_declarations::class_fault;
use nddl_hierarchy::{Basis, Spot};
use nddl_resolve::following::token_denoted;
use nddl_resolve::{Denoted, PathFault, Predicate, TokenSort};
use nddl_symbols::{Fault, Meaning, note_at};
use std::alloc::{AllocError, Global};

/// The first of all that is wrong with the rules of a program of which this is known.
pub fn first_rule_wrong(alloc: Global, basis: &Basis<'_>) -> Result<Option<Fault>, AllocError>
    ensures { IfOk result (λ fault. fault
        ≡ earliest_fault None (all_rule_faults (facts_of basis.now) 0 (map (λ decl. decl.now) basis.now.decls.now))) }
{
    let mut first = None;
    note_rules(alloc, basis, basis.decls, &mut first)?;
    Ok(first)
}

// Notes what is wrong with the rules in each of the declarations.
#[tactic(auto, using(nddl_symbols::proofs::Earliest::earliest_append))]
fn note_rules(
    alloc: Global,
    basis: &Basis<'_>,
    decls: &[&Decl],
    first: &mut Option<Fault>,
) -> Result<(), AllocError>
    ensures { OnOk result (first.new ≡ earliest_fault first.old
        (all_rule_faults (facts_of basis.now) 0 (map (λ decl. decl.now) decls.now))) }
{
    for (number, decl) in decls.iter().enumerate() {
        note_decl_rules(alloc, basis, number, *decl, first)?;
    }
    Ok(())
}

// Notes what is wrong with the rules in the declaration of this number.
fn note_decl_rules(
    alloc: Global,
    basis: &Basis<'_>,
    number: usize,
    decl: &Decl,
    first: &mut Option<Fault>,
) -> Result<(), AllocError>
    ensures { OnOk result (first.new ≡ earliest_fault first.old (decl_rule_faults (facts_of basis.now) number decl.now)) }
{
    let spot = Spot {
        basis: *basis,
        decl: number,
    };
    match decl {
        Decl::Rule {
            class,
            predicate,
            body,
        } => note_rule(alloc, &spot, class, predicate, body, first),
        Decl::Class { name, members, .. } => {
            let meaning = basis.types.scope.meaning(&name.text);
            note_class_rules(alloc, &spot, members.as_slice(), meaning, first)
        }
        _ => Ok(()),
    }
}

// Notes what is wrong with a rule.
fn note_rule(
    alloc: Global,
    spot: &Spot<'_>,
    class: &Name,
    predicate: &Name,
    body: &StmtBlock,
    first: &mut Option<Fault>,
) -> Result<(), AllocError>
    ensures { OnOk result (first.new ≡ earliest_fault first.old
        (rule_faults (facts_of spot.now.basis) spot.now.decl class.now predicate.now body.now)) }
{
    let found = rule_token(alloc, &spot.basis, class, predicate)?;
    note_token_rule(alloc, spot, body, found, first)
}

// Notes what is wrong with a rule of what is understood as its token.
fn note_token_rule(
    alloc: Global,
    spot: &Spot<'_>,
    body: &StmtBlock,
    found: Result<Denoted, PathFault>,
    first: &mut Option<Fault>,
) -> Result<(), AllocError>
    ensures { OnOk result (first.new ≡ earliest_fault first.old
        (token_rule_faults (facts_of spot.now.basis) spot.now.decl body.now found)) }
{
    match found {
        Err(fault) => {
            note_at(first, spot.decl, fault.at, Some(fault.kind));
            Ok(())
        }
        Ok(Denoted::Token(token)) => {
            let mut visible = Visible::new(alloc, token);
            note_block(alloc, spot, body, &mut visible, first)
        }
        Ok(_) => Ok(()),
    }
}

// The token whose rule it is, or what is wrong with the names before the block.
fn rule_token(
    alloc: Global,
    basis: &Basis<'_>,
    class: &Name,
    predicate: &Name,
) -> Result<Result<Denoted, PathFault>, AllocError>
    ensures { IfOk result (λ found. found ≡ rule_token (facts_of basis.now) class.now predicate.now) }
{
    let meaning = basis.types.scope.meaning(&class.text);
    match class_fault(basis.types.scope, meaning) {
        Some(kind) => Ok(Err(PathFault { kind, at: class.at })),
        None => token_of(alloc, basis, class.at, predicate, meaning),
    }
}

// A token of the predicate of this name of what means this.
fn token_of(
    alloc: Global,
    basis: &Basis<'_>,
    at: u32,
    predicate: &Name,
    meaning: Option<Meaning>,
) -> Result<Result<Denoted, PathFault>, AllocError>
    ensures { IfOk result (λ found. found ≡ token_named (facts_of basis.now) predicate.now meaning) }
{
    match meaning {
        Some(class) => token_denoted(alloc, basis, at, Denoted::Class(class), predicate),
        None => Ok(Ok(Denoted::Faulty)),
    }
}

// Notes what is wrong with the constraints in the members of a class of which its name means this.
fn note_class_rules(
    alloc: Global,
    spot: &Spot<'_>,
    members: &[Member],
    meaning: Option<Meaning>,
    first: &mut Option<Fault>,
) -> Result<(), AllocError>
    ensures { OnOk result (first.new ≡ earliest_fault first.old
        (class_rule_faults (facts_of spot.now.basis) spot.now.decl members.now meaning)) }
{
    match meaning {
        Some(Meaning::Entry(entry)) => note_members(alloc, spot, entry, members, first),
        _ => Ok(()),
    }
}

// Notes what is wrong with the constraints in the members of the class of this number.
#[tactic(auto, using(nddl_symbols::proofs::Earliest::earliest_append))]
fn note_members(
    alloc: Global,
    spot: &Spot<'_>,
    entry: usize,
    members: &[Member],
    first: &mut Option<Fault>,
) -> Result<(), AllocError>
    ensures { OnOk result (first.new ≡ earliest_fault first.old
        (members_rule_faults (facts_of spot.now.basis) spot.now.decl entry 0 members.now)) }
{
    for (place, member) in members.iter().enumerate() {
        note_member(alloc, spot, entry, place, member, first)?;
    }
    Ok(())
}

// Notes what is wrong with the constraints in the member of this place of a class.
fn note_member(
    alloc: Global,
    spot: &Spot<'_>,
    entry: usize,
    place: usize,
    member: &Member,
    first: &mut Option<Fault>,
) -> Result<(), AllocError>
    ensures { OnOk result (first.new ≡ earliest_fault first.old
        (member_rule_faults (facts_of spot.now.basis) spot.now.decl entry place member.now)) }
{
    match member {
        Member::Predicate { parts, .. } => {
            let token = member_token(entry, place);
            note_body(alloc, spot, token, parts.as_slice(), first)
        }
        _ => Ok(()),
    }
}

// Notes what is wrong with the constraints in the body of the predicate of this token.
fn note_body(
    alloc: Global,
    spot: &Spot<'_>,
    token: TokenSort,
    parts: &[PredicatePart],
    first: &mut Option<Fault>,
) -> Result<(), AllocError>
    ensures { OnOk result (first.new ≡ earliest_fault first.old
        (flat_map (part_rule_faults (facts_of spot.now.basis) spot.now.decl (token_alone token)) parts.now)) }
{
    let visible = Visible::new(alloc, token);
    note_parts(alloc, spot, parts, &visible, first)
}

// The token of the predicate that the class declares as its member of this place.
fn member_token(entry: usize, member: usize) -> TokenSort
    ensures { result ≡ member_token entry member }
{
    TokenSort {
        class: Meaning::Entry(entry),
        predicate: Predicate::Declared { entry, member },
    }
}

// Notes what is wrong with the parts of a body, where this is seen.
#[tactic(auto, using(nddl_symbols::proofs::Earliest::earliest_append))]
fn note_parts(
    alloc: Global,
    spot: &Spot<'_>,
    parts: &[PredicatePart],
    visible: &Visible,
    first: &mut Option<Fault>,
) -> Result<(), AllocError>
    ensures { OnOk result (first.new ≡ earliest_fault first.old
        (flat_map (part_rule_faults (facts_of spot.now.basis) spot.now.decl visible.now) parts.now)) }
{
    for part in parts {
        note_part(alloc, spot, part, visible, first)?;
    }
    Ok(())
}

// Notes what is wrong with the part, but for parameters.
fn note_part(
    alloc: Global,
    spot: &Spot<'_>,
    part: &PredicatePart,
    visible: &Visible,
    first: &mut Option<Fault>,
) -> Result<(), AllocError>
    ensures { OnOk result (first.new ≡ earliest_fault first.old
        (part_rule_faults (facts_of spot.now.basis) spot.now.decl visible.now part.now)) }
{
    match part {
        PredicatePart::Constraint(call) => note_body_call(
            alloc,
            spot,
            &visible.around(),
            call,
            first,
        ),
        PredicatePart::Parameter(_) => Ok(()),
    }
}
