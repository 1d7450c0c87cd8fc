//! What can be copied, and lists of it.

ghost use Rattle.std.specs.Prelude.{◌≡◌, IfOk, MatchOption, MatchResult, Ok, Err, None, Some};

use eu_name::sequence::Sequence;
use std::alloc::AllocError;

/// What can be copied.
pub trait Copies {
    ghost use Rattle.std.specs.Prelude.{◌≡◌, IfOk};

    /// An equal value in memory of its own, places included.
    fn copied(&self) -> Result<Self, AllocError>
        ensures { IfOk result (λ copy. copy ≡ self.now) };
}

/// An equal list in memory of its own.
pub fn copy_all<T: Copies + Drop>(items: &Sequence<T>) -> Result<Sequence<T>, AllocError>
    ensures { IfOk result (λ copy. copy ≡ items.now) }
{
    let mut copies = Sequence::new(items.allocator());
    for item in items.as_slice() {
        copies.push(item.copied()?)?;
    }
    Ok(copies)
}

/// The copy of what may be missing.
pub fn copy_some<T: Copies>(value: &Option<T>) -> Result<Option<T>, AllocError>
    ensures { IfOk result (λ copy. copy ≡ value.now) }
{
    match value {
        Some(value) => match value.copied() {
            Ok(copy) => Ok(Some(copy)),
            Err(error) => Err(error),
        },
        None => Ok(None),
    }
}

/// Both, where both were made.
pub fn both<T: Drop, U: Drop>(
    one: Result<T, AllocError>,
    other: Result<U, AllocError>,
) -> Result<(T, U), AllocError>
    ensures { IfOk result (λ made. (one ≡ Ok made.0) × (other ≡ Ok made.1)) }
{
    match one {
        Ok(one) => match other {
            Ok(other) => Ok((one, other)),
            Err(error) => Err(error),
        },
        Err(error) => Err(error),
    }
}
