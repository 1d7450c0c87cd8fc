//! The predicates that a class has by their names, and the parts of tokens.

ghost use Rattle.std.specs.Prelude.{◌≡◌, IfOk, map};
ghost use Rattle.std.specs.List.{position_from};
ghost use Rattle.std.specs.Option.{option_and_then, option_copied};
ghost use Rattle.nddl_declarations.specs.Members.{parameters_of};
ghost use Rattle.nddl_hierarchy.specs.Decls.{members_of, number_with_body};
ghost use Rattle.nddl_hierarchy.specs.Facts.{facts_of};
ghost use Rattle.nddl_hierarchy.specs.Members.{is_predicate_named, named_typed, predicate_declared};
ghost use Rattle.nddl_resolve.specs.Predicates.{builtin_if, class_predicate, changing_value, declared_parts, is_builtin_pred, is_given_pred, is_pred_given_along, is_time_word, line_predicate, member_parts, parameter_value, predicate_along, token_part};

use super::denoted::{Denoted, Predicate, TokenSort};
use super::fields::{has_name, type_value};
use eu_name::text::Text;
use nddl_ast::declaration::{Decl, Member, PredicatePart, Typed};
use nddl_hierarchy::decls::{members_of, number_with_body};
use nddl_hierarchy::lines::above;
use nddl_hierarchy::{Basis, adding_line};
use nddl_symbols::{Declared, Meaning, Scope};
use nddl_typeexpr::TypeKind;
use std::alloc::{AllocError, Global};

/// The predicate of the class of this name.
pub fn class_predicate(
    alloc: Global,
    basis: &Basis<'_>,
    name: &Text,
    class: Meaning,
) -> Result<Option<Predicate>, AllocError>
    ensures { IfOk result (λ predicate. predicate ≡ class_predicate (facts_of basis.now) name.now class) }
{
    match class {
        Meaning::BuiltIn(number) => Ok(builtin_if(is_builtin_pred(name, number))),
        Meaning::Entry(entry) => {
            let line = adding_line(alloc, basis, entry)?;
            Ok(line_predicate(basis, name, line.as_slice()))
        }
    }
}

// One of a built-in class, if there is one.
fn builtin_if(is_there: bool) -> Option<Predicate>
    ensures { result ≡ builtin_if is_there }
{
    if is_there {
        Some(Predicate::BuiltIn)
    } else {
        None
    }
}

// The predicate of this name of a class with this line.
fn line_predicate(basis: &Basis<'_>, name: &Text, line: &[usize]) -> Option<Predicate>
    ensures { result ≡ line_predicate (facts_of basis.now).names (facts_of basis.now).program name.now line.now }
{
    match predicate_along(basis, name, line) {
        Some(predicate) => Some(predicate),
        None => builtin_if(is_pred_given_along(basis.types.scope, basis.decls, name, line)),
    }
}

// The predicate of this name that one of the classes declares.
fn predicate_along(basis: &Basis<'_>, name: &Text, line: &[usize]) -> Option<Predicate>
    ensures { result ≡ predicate_along (facts_of basis.now).names (facts_of basis.now).program name.now line.now }
{
    for entry in line {
        if let Some(member) = own_predicate(basis, name, *entry) {
            return Some(Predicate::Declared {
                entry: *entry,
                member,
            });
        }
    }
    None
}

// The place of the predicate of this name among the members of the class of this number.
fn own_predicate(basis: &Basis<'_>, name: &Text, entry: usize) -> Option<usize>
    ensures { result ≡ position_from (is_predicate_named name.now) 0
        (members_of (facts_of basis.now).names (facts_of basis.now).program entry) }
{
    match basis.types.scope.names().get(entry) {
        Some(declared) => declared_predicate(basis, name, declared),
        None => None,
    }
}

// The place of the predicate in the declaration that has the members of the class.
fn declared_predicate(basis: &Basis<'_>, name: &Text, declared: &Declared) -> Option<usize>
    ensures { result ≡ option_and_then
        (λ number. predicate_declared (facts_of basis.now).program number name.now)
        (number_with_body (facts_of basis.now).names declared.now) }
{
    match number_with_body(basis.types.scope, declared) {
        Some(number) => basis.members.predicate(number, name),
        None => None,
    }
}

// Whether one of the classes extends a built-in class with a predicate of this name.
fn is_pred_given_along(scope: &Scope, decls: &[&Decl], name: &Text, line: &[usize]) -> bool
    ensures { result ≡ is_pred_given_along scope.now (map (λ decl. decl.now) decls.now) name.now line.now }
{
    for entry in line {
        if is_given_pred(name, above(scope, decls, *entry)) {
            return true;
        }
    }
    false
}

fn is_given_pred(name: &Text, meaning: Option<Meaning>) -> bool
    ensures { result ≡ is_given_pred name.now meaning }
{
    match meaning {
        Some(Meaning::BuiltIn(number)) => is_builtin_pred(name, number),
        _ => false,
    }
}

// Whether the built-in class of this number has a predicate of this name.
fn is_builtin_pred(name: &Text, number: u32) -> bool
    ensures { result ≡ is_builtin_pred name.now number }
{
    let name = name.as_str();
    if number == 2 {
        name == "uses"
    } else if number == 3 {
        name == "produce" || name == "consume"
    } else {
        false
    }
}

/// What a part of a token is, by its name.
pub fn token_part(basis: &Basis<'_>, name: &Text, token: TokenSort) -> Option<Denoted>
    ensures { result ≡ token_part (facts_of basis.now) name.now token }
{
    if is_time_word(name) {
        Some(variable(TypeKind::Int))
    } else if name.as_str() == "object" {
        Some(variable(TypeKind::Object(token.class)))
    } else {
        parameter_value(basis, name, token.predicate)
    }
}

// A variable of this kind.
fn variable(kind: TypeKind) -> Denoted
    ensures { result ≡ changing_value kind }
{
    Denoted::Value {
        kind,
        constant: false,
    }
}

fn is_time_word(name: &Text) -> bool
    ensures { result ≡ is_time_word name.now }
{
    let name = name.as_str();
    name == "start" || (name == "end" || name == "duration")
}

// What the parameter of this name is.
fn parameter_value(basis: &Basis<'_>, name: &Text, predicate: Predicate) -> Option<Denoted>
    ensures { result ≡ parameter_value (facts_of basis.now) name.now predicate }
{
    match predicate {
        Predicate::BuiltIn => {
            if name.as_str() == "quantity" {
                Some(variable(TypeKind::Int))
            } else {
                None
            }
        }
        Predicate::Declared { entry, member } => {
            let parts = declared_parts(basis.types.scope, basis.decls, entry, member);
            let typed = parameter_named(parts, name)?;
            Some(type_value(&basis.types, false, &typed.declared))
        }
    }
}

// The parts of the predicate that the class declares as its member of this place.
fn declared_parts<'a>(
    scope: &Scope,
    decls: &[&'a Decl],
    entry: usize,
    member: usize,
) -> &'a [PredicatePart]
    ensures { result.now ≡ declared_parts scope.now (map (λ decl. decl.now) decls.now) entry member }
{
    match members_of(scope, decls, entry).get(member) {
        Some(declared) => member_parts(declared),
        None => &[],
    }
}

fn member_parts(member: &Member) -> &[PredicatePart]
    ensures { result.now ≡ member_parts member.now }
{
    match member {
        Member::Predicate { parts, .. } => parts.as_slice(),
        _ => &[],
    }
}

// The parameter of this name among the parts.
fn parameter_named<'a>(parts: &'a [PredicatePart], name: &Text) -> Option<&'a Typed>
    ensures { option_copied result ≡ named_typed name.now (parameters_of parts.now) }
{
    for part in parts {
        if let PredicatePart::Parameter(typed) = part {
            if has_name(typed, name) {
                return Some(typed);
            }
        }
    }
    None
}
