//! What types mean before their ranges and sets, and what is wrong there.

ghost use Rattle.std.specs.Prelude.{◌≡◌};
ghost use Rattle.std.specs.Option.{option_map};
ghost use Rattle.nddl_typeexpr.specs.Bases.{base_extent, base_fault, base_kind, entry_extent, entry_fault, entry_kind, typedef_meaning};

use super::kind::{Extent, TypeKind, TypeMeaning};
use super::types::Types;
use nddl_ast::TextKind;
use nddl_ast::expression::BaseType;
use nddl_symbols::{Meaning, Scope, Sort};

/// What the base of a type means, where a range or a set may stand behind it.
#[derive(Clone, Copy)]
pub struct BaseMeaning<'a> {
    /// The names of the program, for values that stand behind it.
    pub scope: &'a Scope,
    /// Of what its values are.
    pub kind: TypeKind,
    /// Which of the values of its kind it has.
    pub extent: &'a Extent,
}

/// What is wrong with the base of a type.
pub fn base_fault(scope: &Scope, base: &BaseType) -> Option<TextKind>
    ensures { result ≡ base_fault scope.now base.now }
{
    match base {
        BaseType::Int | BaseType::Float | BaseType::Bool => None,
        BaseType::Str => Some(TextKind::WrongType),
        BaseType::Named(name) => match scope.meaning(&name.text) {
            None => Some(TextKind::Unknown),
            Some(Meaning::BuiltIn(_)) => None,
            Some(Meaning::Entry(entry)) => entry_fault(scope, entry),
        },
    }
}

// What is wrong with what is declared under this number as a type.
fn entry_fault(scope: &Scope, entry: usize) -> Option<TextKind>
    ensures { result ≡ entry_fault scope.now entry }
{
    match scope.names().get(entry)?.sort {
        Sort::Enum(_) | Sort::Typedef | Sort::Forward | Sort::Body => None,
        _ => Some(TextKind::WrongType),
    }
}

/// Of what the values of the base are, if it means something.
pub fn base_kind(types: &Types<'_>, base: &BaseType) -> Option<TypeKind>
    ensures { result ≡ base_kind types.now.scope.now types.now.known.now base.now }
{
    match base {
        BaseType::Int => Some(TypeKind::Int),
        BaseType::Float => Some(TypeKind::Float),
        BaseType::Bool => Some(TypeKind::Bool),
        BaseType::Str => None,
        BaseType::Named(name) => match types.scope.meaning(&name.text)? {
            Meaning::BuiltIn(number) => Some(TypeKind::Object(Meaning::BuiltIn(number))),
            Meaning::Entry(entry) => entry_kind(types, entry),
        },
    }
}

// Of what the values of the type are that is declared under this number.
fn entry_kind(types: &Types<'_>, entry: usize) -> Option<TypeKind>
    ensures { result ≡ entry_kind types.now.scope.now types.now.known.now entry }
{
    match types.scope.names().get(entry)?.sort {
        Sort::Enum(number) => Some(TypeKind::Enum(number)),
        Sort::Forward | Sort::Body => Some(TypeKind::Object(Meaning::Entry(entry))),
        Sort::Typedef => typedef_kind(types.known, entry),
        _ => None,
    }
}

fn typedef_kind(known: &[Option<TypeMeaning>], entry: usize) -> Option<TypeKind>
    ensures { result ≡ option_map (λ meaning. meaning.kind) (typedef_meaning known.now entry) }
{
    match known.get(entry)? {
        Some(meaning) => Some(meaning.kind),
        None => None,
    }
}

/// Which values the base has.
pub fn base_extent<'a>(types: &Types<'a>, base: &BaseType) -> &'a Extent
    ensures { result.now ≡ base_extent types.now.scope.now types.now.known.now base.now }
{
    match base {
        BaseType::Named(name) => match types.scope.meaning(&name.text) {
            Some(Meaning::Entry(entry)) => entry_extent(types, entry),
            _ => types.whole,
        },
        _ => types.whole,
    }
}

// Which values the typedef of this number has.
fn entry_extent<'a>(types: &Types<'a>, entry: usize) -> &'a Extent
    ensures { result.now ≡ entry_extent types.now.known.now entry }
{
    match types.known.get(entry) {
        Some(Some(meaning)) => &meaning.extent,
        _ => types.whole,
    }
}
