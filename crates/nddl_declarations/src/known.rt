//! What the typedefs of a program mean.

ghost use Rattle.std.specs.Prelude.{◌≡◌, None, IfOk, map, replicate};
ghost use Rattle.std.specs.Option.{option_copied};
ghost use Rattle.eu_forest.specs.Lines.{IsLineageOf};
ghost use Rattle.nddl_hierarchy.specs.Facts.{facts_of};
ghost use Rattle.nddl_declarations.specs.Known.{AreFacts, declared_type, known_meaning, with_meaning};

use super::types::fine_meaning;
use nddl_ast::declaration::Decl;
use nddl_ast::expression::Type;
use nddl_hierarchy::Basis;
use nddl_hierarchy::circles::is_rooted;
use nddl_hierarchy::decls::{decl_at, typedef_type};
use nddl_symbols::{Scope, Sort};
use nddl_typeexpr::{TypeMeaning, Types};
use std::alloc::{AllocError, Global};

/// What each name of the scope means as a typedef, by all that is known of the program but what typedefs mean.
pub fn known_meanings(
    alloc: Global,
    basis: &Basis<'_>,
) -> Result<Vec<Option<TypeMeaning>>, AllocError>
    requires { IsLineageOf basis.now.parents.now basis.now.lineage.now.marks.items basis.now.lineage.now.order.items }
    ensures { IfOk result (λ known. AreFacts basis.now.types.scope.now (map (λ decl. decl.now) basis.now.decls.now)
        (record {
          names = basis.now.types.scope.now;
          program = map (λ decl. decl.now) basis.now.decls.now;
          parents = basis.now.parents.now;
          marked = basis.now.lineage.now.marks.items;
          known = known.items;
        })) }
{
    let mut known = nothing_known(alloc, basis.types.scope.names().len())?;
    let order = basis.lineage.order();
    for entry in order {
        let meaning = meaning_by(alloc, &*basis, known.as_slice(), *entry)?;
        put_meaning(&mut known, *entry, meaning);
    }
    Ok(known)
}

// So many names of which nothing is known.
fn nothing_known(alloc: Global, count: usize) -> Result<Vec<Option<TypeMeaning>>, AllocError>
    ensures { IfOk result (λ known. known.items ≡ replicate count None) }
{
    let mut known = Vec::new(alloc);
    for _ in 0..count {
        known.push(None)?;
    }
    Ok(known)
}

// What the name of this number means, where this is known of typedefs.
fn meaning_by<'a>(
    alloc: Global,
    basis: &'a Basis<'a>,
    known: &'a [Option<TypeMeaning>],
    entry: usize,
) -> Result<Option<TypeMeaning>, AllocError>
    ensures { IfOk result (λ meaning. meaning ≡ known_meaning
        (record {
          names = basis.now.types.scope.now;
          program = map (λ decl. decl.now) basis.now.decls.now;
          parents = basis.now.parents.now;
          marked = basis.now.lineage.now.marks.items;
          known = known.now;
        }) entry) }
{
    let types = Types {
        scope: basis.types.scope,
        known,
        whole: basis.types.whole,
    };
    let informed = Basis {
        types,
        decls: basis.decls,
        members: basis.members,
        parents: basis.parents,
        lineage: basis.lineage,
        short: basis.short,
    };
    entry_meaning(alloc, &informed, entry)
}

// What the name of this number means.
fn entry_meaning(
    alloc: Global,
    basis: &Basis<'_>,
    entry: usize,
) -> Result<Option<TypeMeaning>, AllocError>
    ensures { IfOk result (λ meaning. meaning ≡ known_meaning (facts_of basis.now) entry) }
{
    if !is_rooted(basis.lineage.rootedness(entry)) {
        return Ok(None);
    }
    match declared_type(basis.types.scope, basis.decls, entry) {
        Some(written) => fine_meaning(alloc, basis, written),
        None => Ok(None),
    }
}

// What the name of this number is declared as, if it is a typedef.
fn declared_type<'a>(scope: &Scope, decls: &[&'a Decl], entry: usize) -> Option<&'a Type>
    ensures { option_copied result ≡ declared_type scope.now (map (λ decl. decl.now) decls.now) entry }
{
    let declared = scope.names().get(entry)?;
    match declared.sort {
        Sort::Typedef => typedef_type(decl_at(decls, declared.place.decl)?),
        _ => None,
    }
}

// Writes down what the name of this number means.
fn put_meaning(known: &mut Vec<Option<TypeMeaning>>, entry: usize, meaning: Option<TypeMeaning>)
    ensures { known.new.items ≡ with_meaning known.old.items entry meaning }
{
    if entry < known.len() {
        known[entry] = meaning;
    }
}
