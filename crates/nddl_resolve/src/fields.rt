//! The fields that a class has by their names.

ghost use Rattle.std.specs.Prelude.{◌≡◌, IfOk, map, bytes_eq};
ghost use Rattle.std.specs.List.{filter_map};
ghost use Rattle.std.specs.Option.{option_and_then, option_copied};
ghost use Rattle.eu_forest.specs.Ancestors.{ancestry};
ghost use Rattle.nddl_hierarchy.specs.Decls.{members_of, number_with_body};
ghost use Rattle.nddl_hierarchy.specs.Facts.{facts_of};
ghost use Rattle.nddl_hierarchy.specs.Members.{field_declared, member_field, named_typed};
ghost use Rattle.nddl_resolve.specs.Fields.{class_field, number_field, field_along, is_builtin_field, is_given_field, is_given_along, line_field, type_value};

use super::denoted::Denoted;
use eu_name::text::Text;
use nddl_ast::declaration::{Decl, Typed};
use nddl_ast::expression::Type;
use nddl_hierarchy::decls::number_with_body;
use nddl_hierarchy::lines::above;
use nddl_hierarchy::{Basis, adding_line};
use nddl_symbols::{Declared, Meaning, Scope};
use nddl_typeexpr::base::base_kind;
use nddl_typeexpr::{TypeKind, Types};
use std::alloc::{AllocError, Global};

/// A value of a type.
pub fn type_value(types: &Types<'_>, constant: bool, written: &Type) -> Denoted
    ensures { result ≡ type_value types.now.scope.now types.now.known.now constant written.now }
{
    match base_kind(types, &written.base) {
        Some(kind) => Denoted::Value { kind, constant },
        None => Denoted::Faulty,
    }
}

/// The field of the class of this name. It is a constant where the object is.
pub fn class_field(
    alloc: Global,
    basis: &Basis<'_>,
    constant: bool,
    name: &Text,
    class: Meaning,
) -> Result<Option<Denoted>, AllocError>
    ensures { IfOk result (λ field. field ≡ class_field (facts_of basis.now) constant name.now class) }
{
    match class {
        Meaning::BuiltIn(number) => Ok(number_field(constant, is_builtin_field(name, number))),
        Meaning::Entry(entry) => {
            let line = adding_line(alloc, basis, entry)?;
            Ok(line_field(basis, constant, name, line.as_slice()))
        }
    }
}

// A field that is a whole number, if there is one.
fn number_field(constant: bool, is_there: bool) -> Option<Denoted>
    ensures { result ≡ number_field constant is_there }
{
    if is_there {
        Some(Denoted::Value {
            kind: TypeKind::Int,
            constant,
        })
    } else {
        None
    }
}

// The field of this name of a class with this line.
fn line_field(basis: &Basis<'_>, constant: bool, name: &Text, line: &[usize]) -> Option<Denoted>
    ensures { result ≡ line_field (facts_of basis.now) constant name.now line.now }
{
    let scope = basis.types.scope;
    match field_along(basis, name, line) {
        Some(typed) => Some(type_value(&basis.types, constant, &typed.declared)),
        None => number_field(constant, is_given_along(scope, basis.decls, name, line)),
    }
}

// The field of this name that one of the classes declares.
fn field_along<'a>(basis: &Basis<'a>, name: &Text, line: &[usize]) -> Option<&'a Typed>
    ensures { option_copied result ≡ field_along basis.now.types.scope.now
        (map (λ decl. decl.now) basis.now.decls.now) name.now line.now }
{
    for entry in line {
        if let Some(typed) = own_field(basis, name, *entry) {
            return Some(typed);
        }
    }
    None
}

// The field of this name that the class of this number declares.
fn own_field<'a>(basis: &Basis<'a>, name: &Text, entry: usize) -> Option<&'a Typed>
    ensures { option_copied result ≡ named_typed name.now (filter_map member_field
        (members_of basis.now.types.scope.now (map (λ decl. decl.now) basis.now.decls.now) entry)) }
{
    let scope = basis.types.scope;
    match scope.names().get(entry) {
        Some(declared) => declared_field(basis, name, declared),
        None => None,
    }
}

// The field of this name that this class declares.
fn declared_field<'a>(basis: &Basis<'a>, name: &Text, declared: &Declared) -> Option<&'a Typed>
    ensures { option_copied result ≡ option_and_then
        (λ number. field_declared (map (λ decl. decl.now) basis.now.decls.now) number name.now)
        (number_with_body basis.now.types.scope.now declared.now) }
{
    match number_with_body(basis.types.scope, declared) {
        Some(number) => basis.members.field(number, name),
        None => None,
    }
}

/// Whether this is the name that is declared.
pub fn has_name(typed: &Typed, name: &Text) -> bool
    ensures { result ≡ bytes_eq name.now typed.now.name.text }
{
    name.as_str() == typed.name.text.as_str()
}

// Whether one of the classes extends a built-in class with a field of this name.
fn is_given_along(scope: &Scope, decls: &[&Decl], name: &Text, line: &[usize]) -> bool
    ensures { result ≡ is_given_along scope.now (map (λ decl. decl.now) decls.now) name.now line.now }
{
    for entry in line {
        if is_given_field(name, above(scope, decls, *entry)) {
            return true;
        }
    }
    false
}

fn is_given_field(name: &Text, meaning: Option<Meaning>) -> bool
    ensures { result ≡ is_given_field name.now meaning }
{
    match meaning {
        Some(Meaning::BuiltIn(number)) => is_builtin_field(name, number),
        _ => false,
    }
}

// Whether the built-in class of this number has a field of this name.
fn is_builtin_field(name: &Text, number: u32) -> bool
    ensures { result ≡ is_builtin_field name.now number }
{
    let name = name.as_str();
    if number == 2 {
        name == "capacity"
    } else if number == 3 {
        name == "initial" || (name == "low" || name == "high")
    } else {
        false
    }
}
