//! Values that are joined of greatest and least ones.

ghost use Rattle.std.specs.Prelude.{◌≡◌, ℕ, ◌<◌, ◌≤◌, ℤ, pos, neg_ℤ, ◌≤ℤ◌, length, None, IfOk, MatchOption, ⊤};
ghost use Rattle.temporal_core.specs.Satisfied.{highest, IsNear};
ghost use Rattle.flow_envelope.specs.Latest.{bound_at, AreFree, joined_of, CanBeLifted, AreUpTo, IsJoined};

use std::alloc::{AllocError, Global};

/// The points that have no value.
pub fn free_points(alloc: Global, bounds: &[Option<i64>]) -> Result<Vec<u32>, AllocError>
    requires { length bounds.now ≤ 65536 }
    ensures { IfOk result (λ free. AreFree bounds.now (length bounds.now) free.items) }
{
    let mut free = Vec::new(alloc);
    for point in 0..bounds.len() {
        if bounds[point].is_none() {
            free.push(point as u32)?;
        }
    }
    Ok(free)
}

// The greater of the two.
fn greater(one: i64, other: Option<i64>) -> i64
    ensures one { one ≤ℤ result }
    ensures other { MatchOption other ⊤ (λ value. value ≤ℤ result) }
    ensures most { (limit : ℤ) → one ≤ℤ limit → MatchOption other ⊤ (λ value. value ≤ℤ limit) → result ≤ℤ limit }
{
    match other {
        Some(value) => {
            if value > one {
                return value;
            }
            one
        }
        None => one,
    }
}

/// A number that no value is above.
pub fn top_of(bounds: &[Option<i64>]) -> i64
    requires { AreUpTo highest bounds.now }
    ensures low { pos 0 ≤ℤ result }
    ensures high { result ≤ℤ highest }
    ensures each { AreUpTo result bounds.now }
{
    let mut most = 0;
    for value in bounds {
        most = greater(most, *value);
    }
    most
}

// The value so much later.
fn lifted(value: Option<i64>, lift: i64) -> i64
    requires value { MatchOption value ⊤ IsNear }
    requires lift { IsNear lift }
    ensures { result ≡ joined_of None value lift }
{
    match value {
        Some(number) => number + lift,
        None => lift,
    }
}

// The greatest value, if there is one; else the least one, so much later.
fn joined_one(greatest: Option<i64>, least: Option<i64>, lift: i64) -> i64
    requires least { CanBeLifted greatest least }
    requires lift { IsNear lift }
    ensures { result ≡ joined_of greatest least lift }
{
    match greatest {
        Some(value) => value,
        None => lifted(least, lift),
    }
}

/// For each point the greatest value, if there is one; else the least one, so much later.
pub fn joined(
    alloc: Global,
    greatest: &[Option<i64>],
    least: &[Option<i64>],
    lift: i64,
) -> Result<Vec<i64>, AllocError>
    requires count { length least.now ≡ length greatest.now }
    requires each { (point : ℕ) → CanBeLifted (bound_at greatest.now point) (bound_at least.now point) }
    requires lift { IsNear lift }
    ensures { IfOk result (λ values. IsJoined greatest.now least.now lift values.items) }
{
    let mut values = Vec::with_capacity(alloc, greatest.len())?;
    for point in 0..greatest.len() {
        values.push(joined_one(greatest[point], least[point], lift))?;
    }
    Ok(values)
}
