//! What follows a name in a path.

ghost use Rattle.std.specs.Prelude.{◌≡◌, ◌++◌, ◌∷◌, [], IfOk};
ghost use Rattle.nddl_hierarchy.specs.Facts.{facts_of};
ghost use Rattle.nddl_resolve.specs.Following.{asked_by, asked_rest, found_at, named_token, next_denoted, rest_denoted, token_denoted, token_with, unknown_at, value_field, value_token, wrong_at};

use super::denoted::{Denoted, PathFault, Predicate, TokenSort};
use super::fields::class_field;
use super::predicates::{class_predicate, token_part};
use nddl_ast::TextKind;
use nddl_ast::name::{Name, Path};
use nddl_hierarchy::Basis;
use nddl_symbols::Meaning;
use nddl_typeexpr::TypeKind;
use std::alloc::{AllocError, Global};

/// That a name isn't there.
pub fn unknown_at(at: u32) -> Result<Denoted, PathFault>
    ensures { result ≡ unknown_at at }
{
    Err(PathFault {
        kind: TextKind::Unknown,
        at,
    })
}

/// That a path is of the wrong kind whose first name stands there.
pub fn wrong_at(first: u32) -> Result<Denoted, PathFault>
    ensures { result ≡ wrong_at first }
{
    Err(PathFault {
        kind: TextKind::WrongType,
        at: first,
    })
}

/// What was found under the name, if anything.
pub fn found_at(name: &Name, found: Option<Denoted>) -> Result<Denoted, PathFault>
    ensures { result ≡ found_at name.now found }
{
    match found {
        Some(denoted) => Ok(denoted),
        None => unknown_at(name.at),
    }
}

/// What names mean that stand behind what means this, in a path whose first name stands there.
#[tactic(auto, using(crate::proofs::Walking::rest_on, crate::proofs::Walking::rest_ends))]
pub fn rest_denoted(
    alloc: Global,
    basis: &Basis<'_>,
    first: u32,
    begin: Denoted,
    names: &[Name],
) -> Result<Result<Denoted, PathFault>, AllocError>
    ensures { IfOk result (λ found. found ≡ rest_denoted (facts_of basis.now) first begin names.now) }
{
    let mut here = begin;
    for name in names {
        match next_denoted(alloc, basis, first, here, name)? {
            Ok(next) => here = next,
            Err(fault) => return Ok(Err(fault)),
        }
    }
    Ok(Ok(here))
}

// What the name means behind what means this.
fn next_denoted(
    alloc: Global,
    basis: &Basis<'_>,
    first: u32,
    here: Denoted,
    name: &Name,
) -> Result<Result<Denoted, PathFault>, AllocError>
    ensures { IfOk result (λ found. found ≡ next_denoted (facts_of basis.now) first here name.now) }
{
    match here {
        Denoted::Value { kind, constant } => value_field(alloc, basis, first, constant, kind, name),
        Denoted::Token(token) => Ok(found_at(name, token_part(basis, &name.text, token))),
        Denoted::Class(_) => Ok(wrong_at(first)),
        Denoted::Faulty => Ok(Ok(Denoted::Faulty)),
    }
}

// What the name means behind a value: a field of an object.
fn value_field(
    alloc: Global,
    basis: &Basis<'_>,
    first: u32,
    constant: bool,
    kind: TypeKind,
    name: &Name,
) -> Result<Result<Denoted, PathFault>, AllocError>
    ensures { IfOk result (λ found. found ≡ value_field (facts_of basis.now) first constant kind name.now) }
{
    match kind {
        TypeKind::Object(class) => {
            let field = class_field(alloc, basis, constant, &name.text, class)?;
            Ok(found_at(name, field))
        }
        _ => Ok(wrong_at(first)),
    }
}

/// The token for which a path asks whose last name is a predicate, where its first name means this.
pub fn asked_by(
    alloc: Global,
    basis: &Basis<'_>,
    owner: Denoted,
    path: &Path,
) -> Result<Result<Denoted, PathFault>, AllocError>
    ensures { IfOk result (λ found. found ≡ asked_by (facts_of basis.now) owner path.now) }
{
    let first = path.first.at;
    match path.rest.as_slice().split_last() {
        Some((name, names)) => asked_behind(alloc, basis, first, owner, names, name),
        None => Ok(wrong_at(first)),
    }
}

// The token of the last name, where these names stand before it behind what means this.
#[tactic(auto, using(crate::proofs::Walking::asks_found, crate::proofs::Walking::asks_fault))]
fn asked_behind(
    alloc: Global,
    basis: &Basis<'_>,
    first: u32,
    owner: Denoted,
    names: &[Name],
    name: &Name,
) -> Result<Result<Denoted, PathFault>, AllocError>
    ensures { IfOk result (λ found. found ≡ asked_rest (facts_of basis.now) first owner (names.now ++ name.now ∷ [])) }
{
    match rest_denoted(alloc, basis, first, owner, names)? {
        Ok(here) => token_denoted(alloc, basis, first, here, name),
        Err(fault) => Ok(Err(fault)),
    }
}

/// The token of the predicate of this name, of a class or of the class of an object.
pub fn token_denoted(
    alloc: Global,
    basis: &Basis<'_>,
    first: u32,
    here: Denoted,
    name: &Name,
) -> Result<Result<Denoted, PathFault>, AllocError>
    ensures { IfOk result (λ found. found ≡ token_denoted (facts_of basis.now) first here name.now) }
{
    match here {
        Denoted::Value { kind, .. } => value_token(alloc, basis, first, kind, name),
        Denoted::Token(_) => Ok(wrong_at(first)),
        Denoted::Class(class) => named_token(alloc, basis, class, name),
        Denoted::Faulty => Ok(Ok(Denoted::Faulty)),
    }
}

fn value_token(
    alloc: Global,
    basis: &Basis<'_>,
    first: u32,
    kind: TypeKind,
    name: &Name,
) -> Result<Result<Denoted, PathFault>, AllocError>
    ensures { IfOk result (λ found. found ≡ value_token (facts_of basis.now) first kind name.now) }
{
    match kind {
        TypeKind::Object(class) => named_token(alloc, basis, class, name),
        _ => Ok(wrong_at(first)),
    }
}

// The token of the predicate of the class of this name.
fn named_token(
    alloc: Global,
    basis: &Basis<'_>,
    class: Meaning,
    name: &Name,
) -> Result<Result<Denoted, PathFault>, AllocError>
    ensures { IfOk result (λ found. found ≡ named_token (facts_of basis.now) class name.now) }
{
    let predicate = class_predicate(alloc, basis, &name.text, class)?;
    Ok(token_with(class, name, predicate))
}

fn token_with(
    class: Meaning,
    name: &Name,
    predicate: Option<Predicate>,
) -> Result<Denoted, PathFault>
    ensures { result ≡ token_with class name.now predicate }
{
    match predicate {
        Some(predicate) => Ok(Denoted::Token(TokenSort { class, predicate })),
        None => unknown_at(name.at),
    }
}
