//! Of which kind values are, and what lies in a kind.

ghost use Rattle.std.specs.Prelude.{◌≡◌, ◌↔◌, ℕ, ℤ, List, pos, ◌⊎◌, IsTrue, MatchOption, All};
ghost use Rattle.domain_core.specs.Domain.{Has, IsDomain};
ghost use Rattle.model_core.specs.declared.variable.ValueKind.TheVariants as value_kinds;
ghost use Rattle.model_core.specs.Kinds.{IsBaseOf, IsInKind, IsKind, IsMemberOf, IsNumeric, IsValueOf};
ghost use Rattle.model_core.specs.Lawful.{IsLawfulBase, IsLawfulVariable};
ghost use Rattle.model_typing.specs.Members.{HasMember, IsMemberAt};

use super::classes::object_at;
use super::finding::enum_at;
use domain_core::domain::Dom;
use domain_core::number::is_value;
use eu_name::text::Text;
use model_core::class::Enum;
use model_core::model::Model;
use model_core::variable::{Base, ValueKind, VarDecl};

/// Whether the model has the kind.
pub fn is_kind(model: &Model, kind: ValueKind) -> bool
    ensures { IsTrue result ↔ IsKind model.now kind }
{
    match kind {
        ValueKind::Enum(number) => (number as usize) < model.enums.len(),
        ValueKind::Int | ValueKind::Float | ValueKind::Bool | ValueKind::Object => true,
    }
}

// The member of the enum at the place that the value is.
fn member_at(found: &Enum, value: i32) -> Option<&Text>
    ensures { MatchOption result
        ((member : List ℕ) → IsMemberAt found.now value member → ⊥)
        (λ member. IsMemberAt found.now value member.now) }
{
    if value < 0 {
        return None;
    }
    found.members.as_slice().get(value as usize)
}

// Whether the value is the place of a member of the enum.
fn has_member(found: &Enum, value: i32) -> bool
    ensures { IsTrue result ↔ HasMember found.now value }
{
    match member_at(found, value) {
        Some(_) => true,
        None => false,
    }
}

// Whether the value is the place of a member of the enum of this number.
fn is_member(model: &Model, number: u32, value: i32) -> bool
    ensures { IsTrue result ↔ IsMemberOf model.now number value }
{
    match enum_at(model, number) {
        Some(found) => has_member(found, value),
        None => false,
    }
}

// Whether the value is the number of an object.
fn is_object_number(model: &Model, value: i32) -> bool
    ensures { IsTrue result ↔ IsValueOf model.now value_kinds.Object value }
{
    match object_at(model, value) {
        Some(_) => true,
        None => false,
    }
}

// Whether the value is a truth.
fn is_truth(value: i32) -> bool
    ensures { IsTrue result ↔ ((value ≡ pos 0) ⊎ (value ≡ pos 1)) }
{
    value == 0 || value == 1
}

/// Whether the value is of the kind.
pub fn is_value_of(model: &Model, kind: ValueKind, value: i32) -> bool
    ensures { IsTrue result ↔ IsValueOf model.now kind value }
{
    match kind {
        ValueKind::Int => is_value(value),
        ValueKind::Float => is_value(value),
        ValueKind::Bool => is_truth(value),
        ValueKind::Enum(number) => is_member(model, number, value),
        ValueKind::Object => is_object_number(model, value),
    }
}

// Whether all that the domain has are of the kind.
fn are_values_in(model: &Model, kind: ValueKind, domain: &Dom) -> bool
    ensures { IsTrue result ↔ ((value : ℤ) → Has domain.now value → IsValueOf model.now kind value) }
{
    for place in 0..domain.count() {
        if let Some(value) = domain.nth(place) {
            if !is_value_of(model, kind, value) {
                return false;
            }
        }
    }
    true
}

/// Whether the kind is one of numbers: whole numbers, or decimals.
pub fn is_numeric(kind: ValueKind) -> bool
    ensures { IsTrue result ↔ IsNumeric kind }
{
    match kind {
        ValueKind::Int | ValueKind::Float => true,
        ValueKind::Bool | ValueKind::Enum(_) | ValueKind::Object => false,
    }
}

// Whether objects are of the kind.
fn is_object(kind: ValueKind) -> bool
    ensures { IsTrue result ↔ (kind ≡ value_kinds.Object) }
{
    match kind {
        ValueKind::Object => true,
        ValueKind::Int | ValueKind::Float | ValueKind::Bool | ValueKind::Enum(_) => false,
    }
}

/// The values of a domain are such as values may be.
pub fn values_are_values(domain: &Dom)
    ensures { IsDomain domain.now }
{
    let _least = domain.lo();
}

/// Whether the domain lies in the kind. The values of every domain are of each kind of numbers, so they aren't gone through for
/// these.
pub fn is_in_kind(model: &Model, kind: ValueKind, domain: &Dom) -> bool
    ensures told { IsTrue result ↔ IsInKind model.now kind domain.now }
    ensures domain { IsDomain domain.now }
{
    values_are_values(domain);
    if domain.is_range() {
        return is_numeric(kind);
    }
    is_numeric(kind) || are_values_in(model, kind, domain)
}

/// Whether the base is a domain that lies in the kind, or void, as that of objects may be.
pub fn is_base_of(model: &Model, kind: ValueKind, base: &Base) -> bool
    ensures told { IsTrue result ↔ IsBaseOf model.now kind base.now }
    ensures lawful { IsLawfulBase base.now }
{
    match base {
        Base::Given(domain) => is_in_kind(model, kind, domain),
        Base::Void => is_object(kind),
    }
}

/// Whether the variable is of a kind that the model has, and its base of this kind.
pub fn is_lawful_variable(model: &Model, variable: &VarDecl) -> bool
    ensures { IsTrue result ↔ IsLawfulVariable model.now variable.now }
{
    is_kind(model, variable.kind) && is_base_of(model, variable.kind, &variable.base)
}

/// Whether the variables are all lawful.
pub fn are_lawful_variables(model: &Model, variables: &[VarDecl]) -> bool
    ensures { IsTrue result ↔ All (IsLawfulVariable model.now) variables.now }
{
    variables
        .iter()
        .all(|variable| is_lawful_variable(model, variable))
}
