//! What is wrong with the bodies of constructors, whether they are ever run or not.

ghost use Rattle.std.specs.Prelude.{◌≡◌, IfOk, OnOk, map};
ghost use Rattle.nddl_symbols.specs.Finding.{earliest_fault};
ghost use Rattle.nddl_hierarchy.specs.Facts.{facts_of};
ghost use Rattle.nddl_resolve.specs.Paths.{around_of};
ghost use Rattle.nddl_constructors.specs.Formals.{around_formals, formal_seen};
ghost use Rattle.nddl_constructors.specs.Bodies.{bodies_faults, body_faults, field_in_line, field_kind, named_bodies_faults, set_faults_in, sets_faults, super_faults};

use super::constants::note_arguments;
use super::creations::note_init;
use super::formals::{around_formals, formals_seen};
use super::wanted::meaning_wanted;
use eu_name::text::Text;
use nddl_ast::TextKind;
use nddl_ast::declaration::{Member, Set, Typed};
use nddl_ast::expression::Expr;
use nddl_hierarchy::Basis;
use nddl_hierarchy::lines::above;
use nddl_resolve::fields::class_field;
use nddl_resolve::{Around, Denoted};
use nddl_symbols::{Fault, Meaning, kind_if, note_at};
use nddl_typeexpr::TypeKind;
use std::alloc::{AllocError, Global};

/// What the field of this name is, of the class of this number or of one that it extends.
pub fn field_in_line(
    alloc: Global,
    basis: &Basis<'_>,
    entry: usize,
    name: &Text,
) -> Result<Option<Denoted>, AllocError>
    ensures { IfOk result (λ field. field ≡ field_in_line (facts_of basis.now) entry name.now) }
{
    class_field(alloc, basis, true, name, Meaning::Entry(entry))
}

/// Of which kind the values of the field are, if it is known.
pub fn field_kind(field: Option<Denoted>) -> Option<TypeKind>
    ensures { result ≡ field_kind field }
{
    match field {
        Some(Denoted::Value { kind, .. }) => Some(kind),
        _ => None,
    }
}

/// Notes all that is wrong with the constructors of the class of this name, which the declaration of this number is.
pub fn note_bodies(
    alloc: Global,
    basis: &Basis<'_>,
    decl: usize,
    name: &Text,
    members: &[Member],
    first: &mut Option<Fault>,
) -> Result<(), AllocError>
    ensures { OnOk result (first.new ≡ earliest_fault first.old
        (named_bodies_faults (facts_of basis.now) decl name.now members.now)) }
{
    match basis.types.scope.entry(name) {
        Some(entry) => note_all_bodies(alloc, basis, decl, entry, members, first),
        None => Ok(()),
    }
}

// Notes the same, of the class of this number.
#[tactic(auto, using(nddl_symbols::proofs::Earliest::earliest_append))]
fn note_all_bodies(
    alloc: Global,
    basis: &Basis<'_>,
    decl: usize,
    entry: usize,
    members: &[Member],
    first: &mut Option<Fault>,
) -> Result<(), AllocError>
    ensures { OnOk result (first.new ≡ earliest_fault first.old
        (bodies_faults (facts_of basis.now) decl entry members.now)) }
{
    for member in members {
        note_body(alloc, basis, decl, entry, member, first)?;
    }
    Ok(())
}

// Notes all that is wrong with the member as a constructor.
#[tactic(auto, unfolding(crate::specs::Bodies::body_faults))]
fn note_body(
    alloc: Global,
    basis: &Basis<'_>,
    decl: usize,
    entry: usize,
    member: &Member,
    first: &mut Option<Fault>,
) -> Result<(), AllocError>
    ensures { OnOk result (first.new ≡ earliest_fault first.old
        (body_faults (facts_of basis.now) decl entry member.now)) }
{
    match member {
        Member::Constructor { formals, sets, .. } => note_body_of(
            alloc,
            basis,
            decl,
            entry,
            formals.as_slice(),
            sets.as_slice(),
            first,
        ),
        _ => Ok(()),
    }
}

// Notes all that is wrong with the body of a constructor that has these formals.
fn note_body_of(
    alloc: Global,
    basis: &Basis<'_>,
    decl: usize,
    entry: usize,
    formals: &[Typed],
    sets: &[Set],
    first: &mut Option<Fault>,
) -> Result<(), AllocError>
    ensures { OnOk result (first.new ≡ earliest_fault first.old (sets_faults (facts_of basis.now)
        (around_formals (map (formal_seen (facts_of basis.now)) formals.now)) decl entry sets.now)) }
{
    let seen = formals_seen(alloc, basis, formals)?;
    let around = around_formals(Some(&seen));
    note_sets(alloc, basis, &around, decl, entry, sets, first)
}

// Notes all that is wrong with the parts of a body.
#[tactic(auto, using(nddl_symbols::proofs::Earliest::earliest_append))]
fn note_sets(
    alloc: Global,
    basis: &Basis<'_>,
    around: &Around<'_>,
    decl: usize,
    entry: usize,
    sets: &[Set],
    first: &mut Option<Fault>,
) -> Result<(), AllocError>
    ensures { OnOk result (first.new ≡ earliest_fault first.old
        (sets_faults (facts_of basis.now) (around_of around.now) decl entry sets.now)) }
{
    for set in sets {
        note_set(alloc, basis, around, decl, entry, set, first)?;
    }
    Ok(())
}

// Notes all that is wrong with a part of a body.
#[tactic(auto, using(nddl_symbols::proofs::Earliest::earliest_append))]
fn note_set(
    alloc: Global,
    basis: &Basis<'_>,
    around: &Around<'_>,
    decl: usize,
    entry: usize,
    set: &Set,
    first: &mut Option<Fault>,
) -> Result<(), AllocError>
    ensures { OnOk result (first.new ≡ earliest_fault first.old
        (set_faults_in (facts_of basis.now) (around_of around.now) decl entry set.now)) }
{
    match set {
        Set::Field { name, value } => {
            let field = field_in_line(alloc, basis, entry, &name.text)?;
            note_at(
                first,
                decl,
                name.at,
                kind_if(field.is_none(), TextKind::Unknown),
            );
            note_init(alloc, basis, around, decl, field_kind(field), value, first)
        }
        Set::Super { arguments, .. } => note_super(
            alloc,
            basis,
            around,
            decl,
            entry,
            arguments.as_slice(),
            first,
        ),
    }
}

// Notes all that is wrong with what is handed to what the class extends.
fn note_super(
    alloc: Global,
    basis: &Basis<'_>,
    around: &Around<'_>,
    decl: usize,
    entry: usize,
    arguments: &[Expr],
    first: &mut Option<Fault>,
) -> Result<(), AllocError>
    ensures { OnOk result (first.new ≡ earliest_fault first.old
        (super_faults (facts_of basis.now) (around_of around.now) decl entry arguments.now)) }
{
    let parent = above(basis.types.scope, basis.decls, entry);
    let wanted = meaning_wanted(alloc, basis, parent)?;
    note_arguments(alloc, basis, around, decl, &wanted, arguments, first)
}
