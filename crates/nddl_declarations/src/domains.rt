//! What variables may be.

ghost use Rattle.std.specs.Prelude.{◌≡◌, IfOk};
ghost use Rattle.domain_core.specs.Domain.{Range, Set};
ghost use Rattle.nddl_declarations.specs.Ascending.{ascending_of};
ghost use Rattle.nddl_declarations.specs.Domains.{base_of, numbers_base, type_domain, value_kind};

use super::values::listed_values;
use domain_core::domain::Dom;
use model_core::class::Enum;
use model_core::variable::{Base, ValueKind};
use nddl_symbols::Scope;
use nddl_typeexpr::{Extent, TypeKind};
use std::alloc::{AllocError, Global};

/// What the values of a type of this kind are.
pub fn value_kind(kind: TypeKind) -> ValueKind
    ensures { result ≡ value_kind kind }
{
    match kind {
        TypeKind::Int => ValueKind::Int,
        TypeKind::Float => ValueKind::Float,
        TypeKind::Bool => ValueKind::Bool,
        TypeKind::Enum(number) => ValueKind::Enum(number),
        TypeKind::Object(_) => ValueKind::Object,
    }
}

/// What a variable of a type of this kind and these values may be.
pub fn base_of(
    alloc: Global,
    scope: &Scope,
    enums: &[Enum],
    kind: TypeKind,
    extent: &Extent,
) -> Result<Base, AllocError>
    ensures { IfOk result (λ base. base ≡ base_of scope.now enums.now kind extent.now) }
{
    match kind {
        TypeKind::Object(_) => Ok(Base::Void),
        _ => Ok(Base::Given(type_domain(alloc, scope, enums, kind, extent)?)),
    }
}

fn type_domain(
    alloc: Global,
    scope: &Scope,
    enums: &[Enum],
    kind: TypeKind,
    extent: &Extent,
) -> Result<Dom, AllocError>
    ensures { IfOk result (λ domain. domain ≡ type_domain scope.now enums.now kind extent.now) }
{
    match (kind, extent) {
        (TypeKind::Int | TypeKind::Float, Extent::Whole) => range(-1_000_000, 1_000_000),
        (TypeKind::Int | TypeKind::Float, Extent::Range { least, greatest }) => {
            range(*least, *greatest)
        }
        _ => {
            let values = listed_values(alloc, scope, enums, kind, extent)?;
            set_of_values(alloc, values.as_slice())
        }
    }
}

/// The range between two ends. Where nothing is wrong with a type they are in order, and values.
pub fn range(least: i32, greatest: i32) -> Result<Dom, AllocError>
    ensures { IfOk result (λ domain. domain ≡ Range least greatest) }
{
    Dom::range(least, greatest).ok_or(AllocError)
}

/// The set of the values. Where nothing is wrong with what they are read from there is one, and there are few.
pub fn set_of_values(alloc: Global, values: &[i32]) -> Result<Dom, AllocError>
    ensures { IfOk result (λ domain. domain ≡ Set (ascending_of values.now)) }
{
    match Dom::set_of(alloc, values) {
        Ok(domain) => Ok(domain),
        Err(_) => Err(AllocError),
    }
}

/// A variable may be these, or nothing where there are none.
pub fn numbers_base(alloc: Global, values: &[i32]) -> Result<Base, AllocError>
    ensures { IfOk result (λ base. base ≡ numbers_base values.now) }
{
    match values {
        [] => Ok(Base::Void),
        _ => Ok(Base::Given(set_of_values(alloc, values)?)),
    }
}
