//! What the values in a type mean, and what is wrong with one.

ghost use Rattle.std.specs.Prelude.{◌≡◌, ◌<◌, ◌^◌};
ghost use Rattle.std.specs.Option.{option_and_then};
ghost use Rattle.nddl_symbols.specs.Scope.{meaning_of};
ghost use Rattle.nddl_typeexpr.specs.Values.{decimal_of, end_fault, end_number, fits, given_entry, given_fault, given_literal, given_meaning, given_number, given_value, member_fault, number_in, number_within, own_number, value_fault};

use super::base::BaseMeaning;
use super::kind::{Extent, TypeKind};
use eu_name::text::Text;
use nddl_ast::expression::{Constant, Literal, Value};
use nddl_ast::{TextKind, decimal_for};
use nddl_symbols::{Meaning, Scope, Sort};

/// Of what a value is.
#[derive(Clone, Copy, Debug, PartialEq, Eq)]
pub enum GivenKind {
    Number,
    Decimal,
    Truth,
    /// A member of the enum of this number.
    Member(u32),
    Object,
    /// What is no value.
    Other,
}

/// A value that is written out: a number, a decimal as thousandths, 0 or 1 for a truth, or the number that its name has in
/// the scope.
#[derive(Clone, Copy, Debug, PartialEq, Eq)]
pub struct Given {
    pub kind: GivenKind,
    pub number: i32,
}

/// What the value means, if its name is there.
pub fn given_by(scope: &Scope, value: &Value) -> Option<Given>
    ensures { result ≡ given_value scope.now value.now }
{
    match value {
        Value::Name(name) => given_name(scope, &name.text),
        Value::Literal(literal) => Some(given_literal(*literal)),
    }
}

fn given_literal(literal: Literal) -> Given
    ensures { result ≡ given_literal literal.constant }
{
    match literal.constant {
        Constant::Number(number) => Given {
            kind: GivenKind::Number,
            number,
        },
        Constant::Decimal(thousandths) => Given {
            kind: GivenKind::Decimal,
            number: thousandths.0,
        },
        Constant::Truth(truth) => Given {
            kind: GivenKind::Truth,
            number: if truth { 1 } else { 0 },
        },
    }
}

fn given_name(scope: &Scope, name: &Text) -> Option<Given>
    ensures { result ≡ option_and_then (given_meaning scope.now) (meaning_of scope.now name.now) }
{
    match scope.meaning(name)? {
        Meaning::BuiltIn(_) => Some(Given {
            kind: GivenKind::Other,
            number: 0,
        }),
        Meaning::Entry(entry) => given_entry(scope, entry),
    }
}

// What is declared under this number.
fn given_entry(scope: &Scope, entry: usize) -> Option<Given>
    ensures { result ≡ given_entry scope.now entry }
{
    let kind = match scope.names().get(entry)?.sort {
        Sort::Member { of, .. } => GivenKind::Member(of),
        Sort::Object => GivenKind::Object,
        Sort::Global | Sort::Root | Sort::Forward | Sort::Body => GivenKind::Other,
        Sort::Enum(_) | Sort::Typedef | Sort::Config => return None,
    };
    Some(Given {
        kind,
        number: entry as i32,
    })
}

/// What is wrong with the value, but for its being of the wrong kind.
pub fn value_fault(scope: &Scope, value: &Value) -> Option<TextKind>
    ensures { result ≡ value_fault scope.now value.now }
{
    match given_by(scope, value) {
        Some(_) => None,
        None => Some(TextKind::Unknown),
    }
}

// Whether a value of the one kind may be of a type of the other.
fn fits(kind: TypeKind, given: GivenKind) -> bool
    ensures { result ≡ fits kind given }
{
    match (kind, given) {
        (TypeKind::Int, GivenKind::Number)
        | (TypeKind::Float, GivenKind::Number | GivenKind::Decimal)
        | (TypeKind::Bool, GivenKind::Truth)
        | (TypeKind::Object(_), GivenKind::Object) => true,
        (TypeKind::Enum(number), GivenKind::Member(of)) => number == of,
        _ => false,
    }
}

// The number of a value that fits, in a type of this kind.
fn number_in(kind: TypeKind, given: Given) -> Option<i32>
    ensures { result ≡ number_in kind given }
{
    match kind {
        TypeKind::Float => decimal_of(given),
        _ => Some(given.number),
    }
}

fn decimal_of(given: Given) -> Option<i32>
    ensures { result ≡ decimal_of given.kind given.number }
{
    match given.kind {
        GivenKind::Number => decimal_for(given.number),
        _ => Some(given.number),
    }
}

// The number of a value that fits, if a type of this kind that has these values has it.
fn number_within(kind: TypeKind, extent: &Extent, given: Given) -> Option<i32>
    ensures { result ≡ number_within kind extent.now given }
{
    let number = number_in(kind, given)?;
    if extent.has(number) {
        Some(number)
    } else {
        None
    }
}

/// What is wrong with the value as a member of a type with this base.
pub fn member_fault(base: &BaseMeaning<'_>, value: &Value) -> Option<TextKind>
    ensures { result ≡ member_fault base.now.scope.now base.now.kind base.now.extent.now value.now }
{
    match given_by(base.scope, value) {
        Some(given) => given_fault(base.kind, base.extent, given),
        None => Some(TextKind::Unknown),
    }
}

fn given_fault(kind: TypeKind, extent: &Extent, given: Given) -> Option<TextKind>
    ensures { result ≡ given_fault kind extent.now given }
{
    if !fits(kind, given.kind) {
        return Some(TextKind::WrongType);
    }
    match number_within(kind, extent, given) {
        Some(_) => None,
        None => Some(TextKind::NotInDomain),
    }
}

/// The number of the value, where it may be a member of a type with this base.
pub fn own_number(base: &BaseMeaning<'_>, value: &Value) -> Option<i32>
    ensures { result ≡ own_number base.now.scope.now base.now.kind base.now.extent.now value.now }
{
    let given = given_by(base.scope, value)?;
    given_number(base.kind, base.extent, given)
}

fn given_number(kind: TypeKind, extent: &Extent, given: Given) -> Option<i32>
    ensures { result ≡ given_number kind extent.now given }
{
    if fits(kind, given.kind) {
        number_within(kind, extent, given)
    } else {
        None
    }
}

/// What is wrong with the value as an end of a range of this kind.
pub fn end_fault(scope: &Scope, kind: TypeKind, value: &Value) -> Option<TextKind>
    ensures { result ≡ end_fault scope.now kind value.now }
{
    let whole = Extent::Whole;
    let base = BaseMeaning {
        scope,
        kind,
        extent: &whole,
    };
    member_fault(&base, value)
}

/// The number of the value, where it may be an end of a range of this kind.
pub fn end_number(scope: &Scope, kind: TypeKind, value: &Value) -> Option<i32>
    ensures { result ≡ end_number scope.now kind value.now }
{
    let whole = Extent::Whole;
    let base = BaseMeaning {
        scope,
        kind,
        extent: &whole,
    };
    own_number(&base, value)
}
