//! Uses of a resource that gives back what was taken: a crew, a line, an arm.

ghost use Rattle.std.specs.Prelude.{◌≡◌, ◌↔◌, ◌≤ℤ◌, ℤ, pos, All, IsTrue, IfSome, IfNone};
ghost use Rattle.resource_profile.specs.Usage.{quantity_at, taken_at, IsOverUsed};
ghost use Rattle.resource_profile.specs.Instant.{IsFirst};

use super::is_earlier;

/// From the instant `from` on, and until just before `until`, this quantity is in use.
/// A use whose `until` isn't after its `from` takes nothing at any instant.
#[derive(Clone, Copy, Debug)]
pub struct Use {
    pub from: i32,
    pub until: i32,
    pub quantity: i32,
}

// What the use takes at the instant.
fn quantity_at(usage: &Use, instant: i32) -> i32
    ensures { result ≡ quantity_at usage.now instant }
{
    if usage.from <= instant && instant < usage.until {
        usage.quantity
    } else {
        0
    }
}

// What all uses together take at the instant.
fn taken_at(uses: &[Use], instant: i32) -> i128
    ensures { result ≡ taken_at uses.now instant }
{
    let mut taken: i128 = 0;
    for usage in uses {
        taken += i128::from(quantity_at(usage, instant));
    }
    taken
}

// Whether more is taken at the instant than the capacity.
fn is_over_used(uses: &[Use], capacity: i32, instant: i32) -> bool
    ensures { IsTrue result ↔ IsOverUsed uses.now capacity instant }
{
    taken_at(uses, instant) > i128::from(capacity)
}

/// The first instant at which the uses together take more than the capacity.
///
/// Only where a use begins can more be taken than just before, so these are the instants that are looked at.
/// The time is that of the square of the number of uses.
pub fn over_use(uses: &[Use], capacity: i32) -> Option<i32>
    requires capacity { pos 0 ≤ℤ capacity }
    requires quantities { All (λ usage. pos 0 ≤ℤ usage.quantity) uses.now }
    ensures first { IfSome result (IsFirst (IsOverUsed uses.now capacity)) }
    ensures none { IfNone result ((instant : ℤ) → IsOverUsed uses.now capacity instant → ⊥) }
{
    let mut first = None;
    for usage in uses {
        let start = usage.from;
        if is_earlier(start, first) && is_over_used(uses, capacity, start) {
            first = Some(start);
        }
    }
    first
}
