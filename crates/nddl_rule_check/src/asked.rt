//! What constraints ask of their arguments.

ghost use Rattle.std.specs.Prelude.{◌≡◌};
ghost use Rattle.nddl_rule_check.specs.Constraints.{asked_among, asked_at, is_compared_at, takes};

use domain_core::kind::Kind;
use nddl_typeexpr::TypeKind;

/// What is asked of an argument.
#[derive(Clone, Copy)]
pub enum Asked {
    /// A value of this kind.
    Of(TypeKind),
    /// A value of the kind of the others that are compared, which the first gives.
    Compared,
    /// A number that is written out, other than 0.
    Factor,
}

/// Whether the constraint may have so many arguments.
pub fn takes(kind: Kind, number: usize) -> bool
    ensures { result ≡ takes kind number }
{
    match kind {
        Kind::Eq | Kind::Neq | Kind::Lt | Kind::Leq => number == 2,
        Kind::AddEq | Kind::MulEq | Kind::TestEq | Kind::TestLeq => number == 3,
        Kind::AllDiff => 1 < number,
        Kind::Field(_) => false,
    }
}

// What the constraint asks of its argument at this place, where no decimal is compared.
fn asked_at(kind: Kind, place: usize) -> Asked
    ensures { result ≡ asked_at kind place }
{
    match kind {
        Kind::Lt | Kind::Leq | Kind::AddEq => Asked::Of(TypeKind::Int),
        Kind::MulEq => {
            if place == 1 {
                Asked::Factor
            } else {
                Asked::Of(TypeKind::Int)
            }
        }
        Kind::TestEq => {
            if place == 0 {
                Asked::Of(TypeKind::Bool)
            } else {
                Asked::Compared
            }
        }
        Kind::TestLeq => {
            if place == 0 {
                Asked::Of(TypeKind::Bool)
            } else {
                Asked::Of(TypeKind::Int)
            }
        }
        Kind::Eq | Kind::Neq | Kind::AllDiff | Kind::Field(_) => Asked::Compared,
    }
}

/// Whether the argument at this place is one of those that the constraint compares.
pub fn is_compared_at(kind: Kind, place: usize) -> bool
    ensures { result ≡ is_compared_at kind place }
{
    match kind {
        Kind::MulEq => place != 1,
        Kind::TestEq | Kind::TestLeq => place != 0,
        Kind::Eq | Kind::Neq | Kind::Lt | Kind::Leq => true,
        Kind::AddEq | Kind::AllDiff | Kind::Field(_) => true,
    }
}

/// What the constraint asks of its argument at this place, where a decimal is among those that are compared or not.
pub fn asked_among(decimal: bool, kind: Kind, place: usize) -> Asked
    ensures { result ≡ asked_among decimal kind place }
{
    if decimal && is_compared_at(kind, place) {
        Asked::Of(TypeKind::Float)
    } else {
        asked_at(kind, place)
    }
}
