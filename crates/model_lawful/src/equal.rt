//! Variables that are declared alike.

ghost use Rattle.std.specs.Prelude.{◌≡◌, ◌↔◌, IsTrue};
ghost use Rattle.domain_core.specs.Domain.{IsSameKind};
ghost use Rattle.model_lawful.specs.Classes.{BeginsWith};
ghost use Rattle.model_lawful.specs.Alike.{HaveSameParts, LieInEachOther};

use domain_core::domain::Dom;
use model_core::variable::{Base, VarDecl};
use model_typing::kinds::is_same_kind;
use model_typing::values::values_are_values;

// Whether both domains are ranges, or both are sets.
fn is_same_form(one: &Dom, other: &Dom) -> bool
    ensures { IsTrue result ↔ IsSameKind one.now other.now }
{
    if one.is_range() {
        other.is_range()
    } else {
        !other.is_range()
    }
}

// Whether the domains are of one form, and each lies in the other.
fn lie_in_each_other(one: &Dom, other: &Dom) -> bool
    ensures { IsTrue result ↔ LieInEachOther one.now other.now }
{
    is_same_form(one, other) && one.lies_in(other) && other.lies_in(one)
}

// Whether the two domains are one.
fn is_same_domain(one: &Dom, other: &Dom) -> bool
    ensures { IsTrue result ↔ (one.now ≡ other.now) }
{
    values_are_values(one);
    values_are_values(other);
    lie_in_each_other(one, other)
}

// Whether the two bases are one.
fn is_same_base(one: &Base, other: &Base) -> bool
    ensures { IsTrue result ↔ (one.now ≡ other.now) }
{
    match one {
        Base::Given(domain) => match other {
            Base::Given(found) => is_same_domain(domain, found),
            Base::Void => false,
        },
        Base::Void => match other {
            Base::Given(_) => false,
            Base::Void => true,
        },
    }
}

// Whether the two names are one.
fn is_same_name(one: &VarDecl, other: &VarDecl) -> bool
    ensures { IsTrue result ↔ (one.now.name ≡ other.now.name) }
{
    one.name.as_bytes() == other.name.as_bytes()
}

// Whether the names, the kinds and the bases are one.
fn have_same_parts(one: &VarDecl, other: &VarDecl) -> bool
    ensures { IsTrue result ↔ HaveSameParts one.now other.now }
{
    is_same_name(one, other)
        && is_same_kind(one.kind, other.kind)
        && is_same_base(&one.base, &other.base)
}

/// Whether the two variables are declared alike.
pub fn is_same_variable(one: &VarDecl, other: &VarDecl) -> bool
    ensures { IsTrue result ↔ (one.now ≡ other.now) }
{
    have_same_parts(one, other)
}

/// Whether the first variables are these.
pub fn begin_with(variables: &[VarDecl], front: &[VarDecl]) -> bool
    ensures { IsTrue result ↔ BeginsWith variables.now front.now }
{
    let mut left = variables;
    for expected in front {
        match left.split_first() {
            Some((variable, others)) => {
                if !is_same_variable(variable, expected) {
                    return false;
                }
                left = others;
            }
            None => return false,
        }
    }
    true
}
