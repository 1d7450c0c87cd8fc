//! Types that mean the same.

ghost use Rattle.std.specs.Prelude.{◌≡◌, IsTrue};

use nddl_symbols::Meaning;
use nddl_typeexpr::{Extent, TypeKind, TypeMeaning};

/// Whether the two types mean the same. It goes through written sets only where all else is the same.
pub fn are_alike(one: &TypeMeaning, other: &TypeMeaning) -> bool
    ensures { IsTrue result → one.now ≡ other.now }
{
    is_kind(one.kind, other.kind) && is_extent(&one.extent, &other.extent)
}

// Whether the two kinds are one, of objects also the two classes.
fn is_kind(one: TypeKind, other: TypeKind) -> bool
    ensures { IsTrue result → one ≡ other }
{
    match (one, other) {
        (TypeKind::Int, TypeKind::Int) => true,
        (TypeKind::Bool, TypeKind::Bool) => true,
        (TypeKind::Enum(one), TypeKind::Enum(other)) => one == other,
        (TypeKind::Object(one), TypeKind::Object(other)) => is_class(one, other),
        _ => false,
    }
}

fn is_class(one: Meaning, other: Meaning) -> bool
    ensures { IsTrue result → one ≡ other }
{
    match (one, other) {
        (Meaning::BuiltIn(one), Meaning::BuiltIn(other)) => one == other,
        (Meaning::Entry(one), Meaning::Entry(other)) => one == other,
        _ => false,
    }
}

fn is_extent(one: &Extent, other: &Extent) -> bool
    ensures { IsTrue result → one.now ≡ other.now }
{
    match (one, other) {
        (Extent::Whole, Extent::Whole) => true,
        (
            Extent::Range { least, greatest },
            Extent::Range {
                least: from,
                greatest: to,
            },
        ) => *least == *from && *greatest == *to,
        (Extent::Set(one), Extent::Set(other)) => are_same(one.as_slice(), other.as_slice()),
        _ => false,
    }
}

// Whether the numbers are the same in the same order.
fn are_same(one: &[i32], other: &[i32]) -> bool
    ensures { IsTrue result → one.now ≡ other.now }
{
    one.len() == other.len() && one == other
}
