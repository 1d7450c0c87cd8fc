//! Whether a change has happened by the instant: surely, maybe or never.

ghost use Rattle.std.specs.Prelude.{◌≡◌, ℕ, ◌↔◌, ◌≤ℤ◌, ◌<ℤ◌, List, length, All, IfOk, IsTrue, MatchOption};
ghost use Rattle.temporal_core.specs.declared.edges.Edge.{Edge as AnEdge};
ghost use Rattle.temporal_core.specs.Schedule.{IsSchedule, IsLeastValue, IsGreatestValue, AreLeastValues};
ghost use Rattle.temporal_core.specs.Schedule.{AreGreatestValues};
ghost use Rattle.temporal_core.specs.Network.{TimeNetwork};
ghost use Rattle.temporal_core.specs.TimeBounds.{AreBounds};
ghost use Rattle.flow_envelope.specs.Peak.{IsChange};
ghost use Rattle.flow_envelope.specs.Certain.{IsCertainty, AreCertain};

use super::change::PointChange;
use std::alloc::{AllocError, Global};
use temporal_core::TimeBounds;

/// In every schedule, in some and not in others, or in none.
#[derive(Clone, Copy, Debug, PartialEq, Eq)]
pub enum Certainty {
    Sure,
    Maybe,
    Never,
}

/// Whether the value is there and at or before the instant.
pub fn is_by(value: Option<i64>, at: i64) -> bool
    ensures { IsTrue result ↔ MatchOption value ⊥ (λ number. number ≤ℤ at) }
{
    match value {
        Some(number) => number <= at,
        None => false,
    }
}

// Whether the value is there and after the instant.
fn is_after(value: Option<i64>, at: i64) -> bool
    ensures { IsTrue result ↔ MatchOption value ⊥ (λ number. at <ℤ number) }
{
    match value {
        Some(number) => number > at,
        None => false,
    }
}

// What the least and the greatest value of a point say.
fn certainty_of(least: Option<i64>, greatest: Option<i64>, at: i64) -> Certainty
    ensures { (edges : List AnEdge) (point : ℕ) → IsLeastValue edges point least
        → IsGreatestValue edges point greatest → IsCertainty edges at point result }
{
    if is_by(greatest, at) {
        return Certainty::Sure;
    }
    if is_after(least, at) {
        return Certainty::Never;
    }
    Certainty::Maybe
}

// What is certain of each change, by the least and the greatest value of each point.
fn all_certain(
    alloc: Global,
    changes: &[PointChange],
    least: &[Option<i64>],
    greatest: &[Option<i64>],
    at: i64,
) -> Result<Vec<Certainty>, AllocError>
    requires count { length least.now ≡ length greatest.now }
    requires changes { All (IsChange (length least.now)) changes.now }
    ensures { IfOk result (λ certain. (edges : List AnEdge) → AreLeastValues (length least.now) edges least.now
        → AreGreatestValues (length least.now) edges greatest.now
        → AreCertain edges changes.now at certain.items) }
{
    let mut certain = Vec::with_capacity(alloc, changes.len())?;
    for change in changes {
        let point = change.point as usize;
        certain.push(certainty_of(least[point], greatest[point], at))?;
    }
    Ok(certain)
}

/// What is certain of each change, by the bounds of the network.
pub fn certainties(
    alloc: Global,
    changes: &[PointChange],
    ends: &TimeBounds,
    at: i32,
) -> Result<Vec<Certainty>, AllocError>
    requires count { length ends.now.lo ≡ length ends.now.hi }
    requires changes { All (IsChange (length ends.now.lo)) changes.now }
    ensures { IfOk result (λ certain. (network : TimeNetwork) → AreBounds network ends.now
        → AreCertain network.edges changes.now at certain.items) }
{
    all_certain(
        alloc,
        changes,
        ends.lo.as_slice(),
        ends.hi.as_slice(),
        i64::from(at),
    )
}
