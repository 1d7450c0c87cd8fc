//! What declarations say of what they stand under.

ghost use Rattle.std.specs.Prelude.{◌≡◌, map, slice_get};
ghost use Rattle.std.specs.Option.{option_and_then, option_copied};
ghost use Rattle.nddl_hierarchy.specs.Decls.{class_parent, decl_members, declaration_with_body, members_of, number_with_body, typedef_type};

use nddl_ast::declaration::{Decl, Member};
use nddl_ast::expression::Type;
use nddl_ast::name::Name;
use nddl_symbols::{Declared, Scope};

/// The declaration of this number.
pub fn decl_at<'a>(decls: &[&'a Decl], number: usize) -> Option<&'a Decl>
    ensures { option_copied result ≡ slice_get (map (λ decl. decl.now) decls.now) number }
{
    Some(*decls.get(number)?)
}

/// What the class says that it extends.
pub fn class_parent(decl: &Decl) -> Option<&Name>
    ensures { option_copied result ≡ class_parent decl.now }
{
    match decl {
        Decl::Class { parent, .. } => parent.as_ref(),
        _ => None,
    }
}

/// What the typedef is declared as.
pub fn typedef_type(decl: &Decl) -> Option<&Type>
    ensures { option_copied result ≡ typedef_type decl.now }
{
    match decl {
        Decl::Typedef { declared, .. } => Some(declared),
        _ => None,
    }
}

/// The members of a class that is declared so.
pub fn decl_members(decl: &Decl) -> &[Member]
    ensures { result.now ≡ decl_members decl.now }
{
    match decl {
        Decl::Class { members, .. } => members.as_slice(),
        _ => &[],
    }
}

/// The members of the class of this number.
pub fn members_of<'a>(scope: &Scope, decls: &[&'a Decl], entry: usize) -> &'a [Member]
    ensures { result.now ≡ members_of scope.now (map (λ decl. decl.now) decls.now) entry }
{
    match scope.names().get(entry) {
        Some(declared) => match declaration_with_body(scope, decls, declared) {
            Some(decl) => decl_members(decl),
            None => &[],
        },
        None => &[],
    }
}

/// The first declaration of this class with its members.
pub fn declaration_with_body<'a>(
    scope: &Scope,
    decls: &[&'a Decl],
    declared: &Declared,
) -> Option<&'a Decl>
    ensures { option_copied result ≡ declaration_with_body scope.now (map (λ decl. decl.now) decls.now) declared.now }
{
    let number = scope.body(&declared.name)?;
    let body = scope.names().get(number)?;
    decl_at(decls, body.place.decl)
}

/// The number of that declaration.
pub fn number_with_body(scope: &Scope, declared: &Declared) -> Option<usize>
    ensures { result ≡ number_with_body scope.now declared.now }
{
    let number = scope.body(&declared.name)?;
    let body = scope.names().get(number)?;
    Some(body.place.decl)
}
