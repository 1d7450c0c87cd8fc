//! How values are put together of what may fail to be made, so that few ways out have to let them go.

ghost use Rattle.std.specs.Prelude.{◌≡◌, Err, IfOk, MatchResult, Ok, OnOk};

use std::alloc::AllocError;

/// The value, if that is done.
pub fn when<T: Drop>(done: Result<(), AllocError>, value: T) -> Result<T, AllocError>
    ensures { MatchResult done (λ unit. result ≡ Ok value) (λ fault. result ≡ Err fault) }
{
    match done {
        Ok(()) => Ok(value),
        Err(fault) => Err(fault),
    }
}

/// Puts what was made into its place, if it was.
pub fn put_made<T: Drop>(made: Result<T, AllocError>, place: &mut T) -> Result<(), AllocError>
    ensures { OnOk result (made ≡ Ok place.new) }
{
    match made {
        Ok(value) => {
            *place = value;
            Ok(())
        }
        Err(fault) => Err(fault),
    }
}

/// The two, if both were made.
pub fn both<A: Drop, B: Drop>(
    one: Result<A, AllocError>,
    other: Result<B, AllocError>,
) -> Result<(A, B), AllocError>
    ensures { IfOk result (λ pair. (one ≡ Ok pair.0) × (other ≡ Ok pair.1)) }
{
    match one {
        Ok(one) => with(one, other),
        Err(fault) => Err(fault),
    }
}

// The one, which was made, with the other, if that was made.
fn with<A: Drop, B: Drop>(one: A, other: Result<B, AllocError>) -> Result<(A, B), AllocError>
    ensures { IfOk result (λ pair. (pair.0 ≡ one) × (other ≡ Ok pair.1)) }
{
    match other {
        Ok(other) => Ok((one, other)),
        Err(fault) => Err(fault),
    }
}
