//! The level of a resource that is produced and consumed: fuel, charge, data in a store.

ghost use Rattle.std.specs.Prelude.{◌≡◌, ◌↔◌, ◌≤ℤ◌, ◌⊎◌, ℤ, All, IsTrue, IfSome, IfNone};
ghost use Rattle.resource_profile.specs.Level.{added_at, level_at, IsSmall, IsPast, IsPastAt, IsPastFrom, IsOutFrom};
ghost use Rattle.resource_profile.specs.Instant.{IsFirst, IsEarlier};

use super::is_earlier;

/// A limit of a level.
#[derive(Clone, Copy, Debug)]
pub enum Limit {
    /// The least level that is allowed.
    Low(i32),
    /// The greatest level that is allowed.
    High(i32),
}

/// From the instant `at` on, the level is higher by `add`, or lower where `add` is negative.
#[derive(Clone, Copy, Debug)]
pub struct LevelChange {
    pub at: i32,
    pub add: i64,
}

// What the change has added by the instant.
fn added_at(change: &LevelChange, instant: i32) -> i64
    ensures { result ≡ added_at change.now instant }
{
    if change.at <= instant { change.add } else { 0 }
}

// The level at the instant, after all changes at it.
fn level_at(changes: &[LevelChange], initial: i32, instant: i32) -> i128
    requires { All IsSmall changes.now }
    ensures { result ≡ level_at changes.now initial instant }
{
    let mut level = i128::from(initial);
    for change in changes {
        level += i128::from(added_at(change, instant));
    }
    level
}

// Whether the level is past the limit.
fn is_past(level: i128, limit: Limit) -> bool
    ensures { IsTrue result ↔ IsPast limit level }
{
    match limit {
        Limit::Low(low) => level < i128::from(low),
        Limit::High(high) => i128::from(high) < level,
    }
}

// Whether the level is past the limit at the instant.
fn is_past_at(changes: &[LevelChange], initial: i32, limit: Limit, instant: i32) -> bool
    requires { All IsSmall changes.now }
    ensures { IsTrue result ↔ IsPastAt changes.now initial limit instant }
{
    is_past(level_at(changes, initial, instant), limit)
}

/// The first instant from `from` on at which the level is past the limit.
///
/// The level at an instant is the initial one with all changes at or before it, in whatever order they are listed.
/// Only `from` and the instants of changes after it are looked at. The time is that of the square of the number of
/// changes.
pub fn level_past(changes: &[LevelChange], initial: i32, limit: Limit, from: i32) -> Option<i32>
    requires { All IsSmall changes.now }
    ensures first { IfSome result (IsFirst (IsPastFrom changes.now initial limit from)) }
    ensures none { IfNone result ((instant : ℤ) → IsPastFrom changes.now initial limit from instant → ⊥) }
{
    if is_past_at(changes, initial, limit, from) {
        return Some(from);
    }
    let mut first = None;
    for change in changes {
        let at = change.at;
        if from < at && is_earlier(at, first) && is_past_at(changes, initial, limit, at) {
            first = Some(at);
        }
    }
    first
}

// The earlier of two instants, where there are any.
fn earlier(one: Option<i32>, other: Option<i32>) -> Option<i32>
    ensures { IsEarlier one other result }
{
    match (one, other) {
        (Some(first), Some(second)) => Some(least_of(first, second)),
        (Some(first), None) => Some(first),
        (None, Some(second)) => Some(second),
        (None, None) => None,
    }
}

// The lesser of two numbers.
fn least_of(one: i32, other: i32) -> i32
    ensures is_one { (result ≡ one) ⊎ (result ≡ other) }
    ensures first { result ≤ℤ one }
    ensures second { result ≤ℤ other }
{
    if one <= other { one } else { other }
}

/// The first instant from `from` on at which the level is below `low` or above `high`, in the time of two `level_past`.
pub fn level_out(
    changes: &[LevelChange],
    initial: i32,
    low: i32,
    high: i32,
    from: i32,
) -> Option<i32>
    requires { All IsSmall changes.now }
    ensures first { IfSome result (IsFirst (IsOutFrom changes.now initial low high from)) }
    ensures none { IfNone result ((instant : ℤ) → IsOutFrom changes.now initial low high from instant → ⊥) }
{
    let below = level_past(changes, initial, Limit::Low(low), from);
    let above = level_past(changes, initial, Limit::High(high), from);
    earlier(below, above)
}
