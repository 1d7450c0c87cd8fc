//! The names that a class has from those that it extends.

ghost use Rattle.std.specs.Prelude.{◌≡◌, ◌∷◌, [], IfOk, OnOk, Some, codes, map};
ghost use Rattle.nddl_symbols.specs.declared.scope.Meaning.TheVariants.{Entry};
ghost use Rattle.eu_forest.specs.Ancestors.{ancestry};
ghost use Rattle.eu_index.specs.Index.{with_noted};
ghost use Rattle.nddl_hierarchy.specs.Facts.{facts_of};
ghost use Rattle.nddl_hierarchy.specs.Inherited.{builtin_members, class_noted, inherited_noted, line_noted, meaning_noted, member_names, names_noted, reservoir_members, words_noted};

use super::member_names::member_name;
use crate::Basis;
use crate::circles::is_rooted;
use crate::decls::members_of;
use crate::lines::above;
use crate::rounds::one_round;
use crate::shorter::adding_line;
use eu_index::NameIndex;
use eu_name::text::Text;
use nddl_ast::declaration::{Decl, Member};
use nddl_ast::name::Name;
use nddl_symbols::{Meaning, Scope};
use std::alloc::{AllocError, Global};

/// The names that a class has from what it extends by this name.
pub fn inherited(
    alloc: Global,
    basis: &Basis<'_>,
    parent: &Option<Name>,
) -> Result<NameIndex, AllocError>
    ensures { IfOk result (λ noted. noted ≡ inherited_noted (facts_of basis.now) parent.now) }
{
    match parent {
        Some(name) => by_meaning(alloc, basis, basis.types.scope.meaning(&name.text)),
        None => Ok(NameIndex::new(alloc)),
    }
}

// The names that a class has from what it extends that means this.
fn by_meaning(
    alloc: Global,
    basis: &Basis<'_>,
    meaning: Option<Meaning>,
) -> Result<NameIndex, AllocError>
    ensures { IfOk result (λ noted. noted ≡ meaning_noted (facts_of basis.now) meaning) }
{
    match meaning {
        None => Ok(NameIndex::new(alloc)),
        Some(Meaning::BuiltIn(number)) => builtin_index(alloc, number),
        Some(Meaning::Entry(entry)) => by_entry(alloc, basis, entry),
    }
}

fn builtin_index(alloc: Global, number: u32) -> Result<NameIndex, AllocError>
    ensures { IfOk result (λ noted. noted ≡ words_noted [] (builtin_members number)) }
{
    let mut noted = NameIndex::new(alloc);
    note_builtin(alloc, number, &mut noted)?;
    Ok(noted)
}

fn by_entry(alloc: Global, basis: &Basis<'_>, entry: usize) -> Result<NameIndex, AllocError>
    ensures { IfOk result (λ noted. noted ≡ meaning_noted (facts_of basis.now) (Some (Entry entry))) }
{
    if !basis.types.scope.is_class(entry) {
        Ok(NameIndex::new(alloc))
    } else if is_rooted(basis.lineage.rootedness(entry)) {
        by_line(alloc, basis, entry)
    } else {
        by_round(alloc, basis, entry)
    }
}

// The names of the members of all classes on the line of this one, of which those are passed over that add none.
fn by_line(alloc: Global, basis: &Basis<'_>, entry: usize) -> Result<NameIndex, AllocError>
    ensures { IfOk result (λ noted. noted ≡ line_noted basis.now.types.scope.now
        (map (λ decl. decl.now) basis.now.decls.now) [] (ancestry basis.now.parents.now entry)) }
{
    let line = adding_line(alloc, basis, entry)?;
    line_index(alloc, basis.types.scope, basis.decls, line.as_slice())
}

// The names of the members of all classes on the line of this one, which may come back to a class of it.
fn by_round(alloc: Global, basis: &Basis<'_>, entry: usize) -> Result<NameIndex, AllocError>
    ensures { IfOk result (λ noted. noted ≡ line_noted basis.now.types.scope.now
        (map (λ decl. decl.now) basis.now.decls.now) [] (ancestry basis.now.parents.now entry)) }
{
    let parents = basis.parents.as_slice();
    let line = one_round(alloc, parents, basis.lineage, entry)?;
    line_index(alloc, basis.types.scope, basis.decls, line.as_slice())
}

// The names of the members of all classes of a line.
fn line_index(
    alloc: Global,
    scope: &Scope,
    decls: &[&Decl],
    line: &[usize],
) -> Result<NameIndex, AllocError>
    ensures { IfOk result (λ noted. noted ≡ line_noted scope.now (map (λ decl. decl.now) decls.now) [] line.now) }
{
    let mut noted = NameIndex::new(alloc);
    for entry in line {
        note_class_names(alloc, scope, decls, *entry, &mut noted)?;
    }
    Ok(noted)
}

// Notes the names of the members of the class of this number, and of the built-in class that it extends.
fn note_class_names(
    alloc: Global,
    scope: &Scope,
    decls: &[&Decl],
    entry: usize,
    noted: &mut NameIndex,
) -> Result<(), AllocError>
    ensures { OnOk result (noted.new ≡ class_noted scope.now (map (λ decl. decl.now) decls.now) noted.old entry) }
{
    note_names(members_of(scope, decls, entry), noted)?;
    match above(scope, decls, entry) {
        Some(Meaning::BuiltIn(number)) => note_builtin(alloc, number, noted),
        _ => Ok(()),
    }
}

// Notes the names of the fields and predicates.
fn note_names(members: &[Member], noted: &mut NameIndex) -> Result<(), AllocError>
    ensures { OnOk result (noted.new ≡ names_noted noted.old (member_names members.now)) }
{
    for member in members {
        if let Some(name) = member_name(member) {
            let _ = noted.note(&name.text, 0)?;
        }
    }
    Ok(())
}

// Notes the names of the fields and predicates of the built-in class of this number.
fn note_builtin(alloc: Global, number: u32, noted: &mut NameIndex) -> Result<(), AllocError>
    ensures { OnOk result (noted.new ≡ words_noted noted.old (builtin_members number)) }
{
    if number == 2 {
        note_word(alloc, "capacity", noted)?;
        note_word(alloc, "uses", noted)
    } else if number == 3 {
        note_reservoir(alloc, noted)
    } else {
        Ok(())
    }
}

// Notes the names of the fields and predicates of a reservoir.
fn note_reservoir(alloc: Global, noted: &mut NameIndex) -> Result<(), AllocError>
    ensures { OnOk result (noted.new ≡ words_noted noted.old reservoir_members) }
{
    note_level(alloc, noted)?;
    note_word(alloc, "produce", noted)?;
    note_word(alloc, "consume", noted)
}

// Notes the names of the fields of a reservoir.
fn note_level(alloc: Global, noted: &mut NameIndex) -> Result<(), AllocError>
    ensures { OnOk result (noted.new ≡ words_noted noted.old (codes "initial" ∷ codes "low" ∷ codes "high" ∷ [])) }
{
    note_word(alloc, "initial", noted)?;
    note_word(alloc, "low", noted)?;
    note_word(alloc, "high", noted)
}

/// Notes the word.
pub fn note_word(alloc: Global, word: &str, noted: &mut NameIndex) -> Result<(), AllocError>
    ensures { OnOk result (noted.new ≡ with_noted noted.old word.now 0) }
{
    let text = Text::from_str(alloc, word)?;
    let _ = noted.note(&text, 0)?;
    Ok(())
}
