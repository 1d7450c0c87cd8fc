//! What types mean.

ghost use Rattle.std.specs.Prelude.{◌≡◌, IfOk};
ghost use Rattle.nddl_typeexpr.specs.Kinds.{are_one_kind, is_numeric, is_ranged, is_within};

use super::members::Members;
use nddl_symbols::Meaning;
use std::alloc::AllocError;

/// Of what the values of a type are.
#[derive(Clone, Copy, Debug, PartialEq, Eq)]
pub enum TypeKind {
    Int,
    /// Decimals, kept as whole numbers of thousandths.
    Float,
    Bool,
    /// Members of the enum of this number.
    Enum(u32),
    /// Objects of this class.
    Object(Meaning),
}

/// Which of the values of its kind a type has.
#[derive(Drop)]
pub enum Extent {
    /// All of them.
    Whole,
    /// Those between two ends.
    Range { least: i32, greatest: i32 },
    /// Those that are written out: numbers, decimals as thousandths, 0 or 1 for truths, and the numbers that names have in
    /// the scope.
    Set(Members),
}

/// What a type means.
#[derive(Drop)]
pub struct TypeMeaning {
    pub kind: TypeKind,
    pub extent: Extent,
}

impl TypeKind {
    /// Whether the values of a type of this kind are numbers.
    pub fn is_numeric(self) -> bool
        ensures { result ≡ is_numeric self }
    {
        matches!(self, TypeKind::Int | TypeKind::Float)
    }
}

/// Whether two kinds are the same. All objects are of one.
pub fn are_one_kind(one: TypeKind, other: TypeKind) -> bool
    ensures { result ≡ are_one_kind one other }
{
    match (one, other) {
        (TypeKind::Int, TypeKind::Int) => true,
        (TypeKind::Float, TypeKind::Float) => true,
        (TypeKind::Bool, TypeKind::Bool) => true,
        (TypeKind::Enum(one), TypeKind::Enum(other)) => one == other,
        (TypeKind::Object(_), TypeKind::Object(_)) => true,
        _ => false,
    }
}

impl Extent {
    /// Whether it has the value of this number.
    pub fn has(&self, number: i32) -> bool
        ensures { result ≡ is_within self.now number }
    {
        match self {
            Extent::Whole => true,
            Extent::Range { least, greatest } => *least <= number && number <= *greatest,
            Extent::Set(members) => members.has(number),
        }
    }

    /// A copy, of which a set shares its numbers.
    pub fn copy(&self) -> Result<Extent, AllocError>
        ensures { IfOk result (λ extent. extent ≡ self.now) }
    {
        Ok(match self {
            Extent::Whole => Extent::Whole,
            Extent::Range { least, greatest } => Extent::Range {
                least: *least,
                greatest: *greatest,
            },
            Extent::Set(members) => Extent::Set(members.copy()?),
        })
    }

    /// Whether a type of this kind that has these values is a range.
    pub fn is_ranged(&self, kind: TypeKind) -> bool
        ensures { result ≡ is_ranged kind self.now }
    {
        match self {
            Extent::Set(_) => false,
            Extent::Whole | Extent::Range { .. } => kind.is_numeric(),
        }
    }
}
