//! What is wrong with a class.

ghost use Rattle.std.specs.Prelude.{◌≡◌, OnOk};
ghost use Rattle.nddl_symbols.specs.Finding.{earliest_fault};
ghost use Rattle.nddl_symbols.specs.Repeats.{repeated_faults};
ghost use Rattle.nddl_hierarchy.specs.Facts.{facts_of};
ghost use Rattle.nddl_declarations.specs.Classes.{class_faults, class_meaning_fault, parent_faults};
ghost use Rattle.nddl_hierarchy.specs.Inherited.{inherited_noted, member_names};

use super::constructors::note_constructors;
use super::members::note_members;
use eu_index::NameIndex;
use nddl_ast::TextKind;
use nddl_ast::declaration::Member;
use nddl_ast::name::Name;
use nddl_hierarchy::{Basis, has_named, inherited, member_name};
use nddl_symbols::repeats::note_repeated;
use nddl_symbols::{Fault, Meaning, Scope, note_at};
use std::alloc::{AllocError, Global};

/// Notes all that is wrong with the class, which the declaration of this number is.
#[tactic(auto, using(nddl_symbols::proofs::Earliest::earliest_append))]
pub fn note_class(
    alloc: Global,
    basis: &Basis<'_>,
    decl: usize,
    class: &Name,
    parent: &Option<Name>,
    members: &[Member],
    first: &mut Option<Fault>,
) -> Result<(), AllocError>
    ensures { OnOk result (first.new ≡ earliest_fault first.old
        (class_faults (facts_of basis.now) decl class.now parent.now members.now)) }
{
    note_parent(basis.types.scope, decl, parent, first);
    note_own_names(alloc, basis, decl, parent, members, first)?;
    note_members(alloc, basis, decl, members, first)?;
    note_constructors(decl, class, members, first);
    Ok(())
}

// Notes what is wrong with what the class extends.
fn note_parent(scope: &Scope, decl: usize, parent: &Option<Name>, first: &mut Option<Fault>)
    ensures { first.new ≡ earliest_fault first.old (parent_faults scope.now decl parent.now) }
{
    if let Some(name) = parent {
        let kind = class_fault(scope, scope.meaning(&name.text));
        note_at(first, decl, name.at, kind);
    }
}

/// What is wrong with what means this as a class.
pub fn class_fault(scope: &Scope, meaning: Option<Meaning>) -> Option<TextKind>
    ensures { result ≡ class_meaning_fault scope.now meaning }
{
    match meaning {
        None => Some(TextKind::Unknown),
        Some(Meaning::BuiltIn(_)) => None,
        Some(Meaning::Entry(entry)) => {
            if scope.is_class(entry) {
                None
            } else {
                Some(TextKind::WrongType)
            }
        }
    }
}

// Notes each field and each predicate whose name the class has already. Where it has neither, what it inherits isn't
// gathered: many such classes may stand under many others.
#[tactic(auto, using(crate::proofs::Unnamed::none_repeated))]
fn note_own_names(
    alloc: Global,
    basis: &Basis<'_>,
    decl: usize,
    parent: &Option<Name>,
    members: &[Member],
    first: &mut Option<Fault>,
) -> Result<(), AllocError>
    ensures { OnOk result (first.new ≡ earliest_fault first.old
        (repeated_faults decl (inherited_noted (facts_of basis.now) parent.now) (member_names members.now))) }
{
    if !has_named(members) {
        return Ok(());
    }
    let mut noted = inherited(alloc, basis, parent)?;
    note_names(decl, members, &mut noted, first)
}

// Notes each field and each predicate whose name stands before.
#[tactic(auto, using(nddl_symbols::proofs::Earliest::earliest_append))]
fn note_names(
    decl: usize,
    members: &[Member],
    noted: &mut NameIndex,
    first: &mut Option<Fault>,
) -> Result<(), AllocError>
    ensures { OnOk result (first.new ≡ earliest_fault first.old
        (repeated_faults decl noted.old (member_names members.now))) }
{
    for member in members {
        if let Some(name) = member_name(member) {
            note_repeated(noted, decl, name, first)?;
        }
    }
    Ok(())
}
