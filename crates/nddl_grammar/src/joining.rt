//! Joining a value with what was read behind it. A value that is held across no exit costs no proof of its drops.

ghost use Rattle.std.specs.Prelude.{◌≡◌, Ok, Err, MatchResult};

/// The value, if what stands behind it was read.
pub fn behind<T: Drop, E>(done: Result<(), E>, value: T) -> Result<T, E>
    ensures { MatchResult done (λ _. result ≡ Ok value) (λ error. result ≡ Err error) }
{
    match done {
        Ok(()) => Ok(value),
        Err(error) => Err(error),
    }
}

/// The value, and what was read behind it.
pub fn joined<T: Drop, U, E>(value: T, read: Result<U, E>) -> Result<(T, U), E>
    ensures { MatchResult read (λ more. result ≡ Ok (value, more)) (λ error. result ≡ Err error) }
{
    match read {
        Ok(more) => Ok((value, more)),
        Err(error) => Err(error),
    }
}
