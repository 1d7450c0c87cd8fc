//! Paths, and what can be an argument.

ghost use Rattle.std.specs.Prelude.{◌≡◌, IfOk};
ghost use Rattle.nddl_hierarchy.specs.Facts.{facts_of};
ghost use Rattle.nddl_resolve.specs.Paths.{around_of, asked_token, constant_of, expr_denoted, first_denoted, last_seen, literal_denoted, near_denoted, own_denoted, path_denoted};
ghost use Rattle.nddl_resolve.specs.Seen.{seen_in};

use super::denoted::{Around, Denoted, PathFault};
use super::files::file_denoted;
use super::following::{asked_by, rest_denoted, unknown_at};
use super::predicates::token_part;
use super::seen::SeenNames;
use eu_name::text::Text;
use nddl_ast::expression::{Constant, Expr, Literal};
use nddl_ast::name::Path;
use nddl_hierarchy::Basis;
use nddl_typeexpr::TypeKind;
use std::alloc::{AllocError, Global};

/// What the argument means, or what is wrong with it by itself.
pub fn expr_denoted(
    alloc: Global,
    basis: &Basis<'_>,
    around: &Around<'_>,
    expr: &Expr,
) -> Result<Result<Denoted, PathFault>, AllocError>
    ensures { IfOk result (λ found. found ≡ expr_denoted (facts_of basis.now) (around_of around.now) expr.now) }
{
    match expr {
        Expr::Path(path) => path_denoted(alloc, basis, around, path),
        Expr::Literal(literal) => Ok(Ok(literal_denoted(*literal))),
    }
}

fn literal_denoted(literal: Literal) -> Denoted
    ensures { result ≡ literal_denoted literal.constant }
{
    match literal.constant {
        Constant::Number(_) => constant(TypeKind::Int),
        Constant::Decimal(_) => constant(TypeKind::Float),
        Constant::Truth(_) => constant(TypeKind::Bool),
    }
}

fn constant(kind: TypeKind) -> Denoted
    ensures { result ≡ constant_of kind }
{
    Denoted::Value {
        kind,
        constant: true,
    }
}

/// What the path means, or what is wrong with it.
pub fn path_denoted(
    alloc: Global,
    basis: &Basis<'_>,
    around: &Around<'_>,
    path: &Path,
) -> Result<Result<Denoted, PathFault>, AllocError>
    ensures { IfOk result (λ found. found ≡ path_denoted (facts_of basis.now) (around_of around.now) path.now) }
{
    let first = path.first.at;
    match first_denoted(alloc, basis, around, &path.first.text)? {
        Some(begin) => rest_denoted(alloc, basis, first, begin, path.rest.as_slice()),
        None => Ok(unknown_at(first)),
    }
}

/// The token for which the path asks, whose last name is a predicate, or what is wrong with it.
pub fn asked_token(
    alloc: Global,
    basis: &Basis<'_>,
    around: &Around<'_>,
    path: &Path,
) -> Result<Result<Denoted, PathFault>, AllocError>
    ensures { IfOk result (λ found. found ≡ asked_token (facts_of basis.now) (around_of around.now) path.now) }
{
    match first_denoted(alloc, basis, around, &path.first.text)? {
        Some(owner) => asked_by(alloc, basis, owner, path),
        None => Ok(unknown_at(path.first.at)),
    }
}

// What the name means at the front of a path.
fn first_denoted(
    alloc: Global,
    basis: &Basis<'_>,
    around: &Around<'_>,
    name: &Text,
) -> Result<Option<Denoted>, AllocError>
    ensures { IfOk result (λ denoted. denoted ≡ first_denoted (facts_of basis.now) (around_of around.now) name.now) }
{
    match near_denoted(around, name) {
        Some(denoted) => Ok(Some(denoted)),
        None => match own_denoted(basis, around, name) {
            Some(denoted) => Ok(Some(denoted)),
            None => file_denoted(alloc, basis, name),
        },
    }
}

/// What the name means as a formal, a variable of `foreach`, a local or a label.
pub fn near_denoted(around: &Around<'_>, name: &Text) -> Option<Denoted>
    ensures { result ≡ near_denoted (around_of around.now) name.now }
{
    last_in(around.formals, name)
        .or(last_in(around.turns, name))
        .or(last_in(around.locals, name))
        .or(last_in(around.labels, name))
}

// What the last of these of this name means, if there are any.
fn last_in(seen: Option<&SeenNames>, name: &Text) -> Option<Denoted>
    ensures { result ≡ last_seen name.now (seen_in seen.entry) }
{
    match seen {
        Some(seen) => seen.last(name),
        None => None,
    }
}

/// What the name means as a part of the token whose rule it is.
pub fn own_denoted(basis: &Basis<'_>, around: &Around<'_>, name: &Text) -> Option<Denoted>
    ensures { result ≡ own_denoted (facts_of basis.now) (around_of around.now) name.now }
{
    token_part(basis, name, around.token?)
}
