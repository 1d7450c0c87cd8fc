//! What is left when no more can be carried: the points that are to be early, the sum and the cut.

ghost use Rattle.std.specs.Prelude.{◌≡◌, ◌↔◌, ℕ, ◌<◌, ◌≤◌, pos, int_lt, length, IfOk, IsTrue};
ghost use Rattle.std.specs.List.{filter};
ghost use Rattle.temporal_core.specs.Satisfied.{value_at};
ghost use Rattle.flow_envelope.specs.Sums.{sum_below};
ghost use Rattle.flow_envelope.specs.Finish.{left_of, left_at, ArePins, IsPinned, IsModest};

use super::certain::Certainty;
use super::change::{Amount, PointChange};
use super::labels::Label;
use std::alloc::{AllocError, Global};

// Whether the change adds, isn't certain, and has no label.
fn is_pinned(changes: &[PointChange], certain: &[Certainty], adders: &[Label], place: usize) -> bool
    requires place { place < length changes.now }
    requires certain { length certain.now ≡ length changes.now }
    requires adders { length adders.now ≡ length changes.now }
    ensures { IsTrue result ↔ IsPinned changes.now certain.now adders.now place }
{
    changes[place].add > 0 && matches!(certain[place], Certainty::Maybe) && adders[place].rank == 0
}

/// The points of the changes that add, aren't certain, and have no label.
pub fn pins_of(
    alloc: Global,
    changes: &[PointChange],
    certain: &[Certainty],
    adders: &[Label],
) -> Result<Vec<u32>, AllocError>
    requires certain { length certain.now ≡ length changes.now }
    requires adders { length adders.now ≡ length changes.now }
    ensures { IfOk result (λ pins. ArePins changes.now certain.now adders.now (length changes.now) pins.items) }
{
    let mut pins = Vec::new(alloc);
    for place in 0..changes.len() {
        if is_pinned(changes, certain, adders, place) {
            pins.push(changes[place].point)?;
        }
    }
    Ok(pins)
}

// What a change counts for.
fn left(certain: Certainty, more: i64, room: i64) -> i64
    requires more { IsModest more }
    requires room { IsModest room }
    ensures { result ≡ left_of certain more room }
{
    match certain {
        Certainty::Sure => more - room,
        Certainty::Maybe => more,
        Certainty::Never => 0,
    }
}

/// The sum of what the changes count for.
pub fn left_sum(certain: &[Certainty], more: &[i64], room: &[i64]) -> i64
    requires few { length certain.now ≤ 1024 }
    requires more_count { length more.now ≡ length certain.now }
    requires room_count { length room.now ≡ length certain.now }
    requires more { (place : ℕ) → IsModest (value_at more.now place) }
    requires room { (place : ℕ) → IsModest (value_at room.now place) }
    ensures { result ≡ sum_below (left_at certain.now more.now room.now) (length certain.now) }
{
    let mut sum = 0;
    for place in 0..certain.len() {
        sum += left(certain[place], more[place], room[place]);
    }
    sum
}

/// The pairs that have an amount.
pub fn cut_of(alloc: Global, pairs: &[Amount]) -> Result<Vec<Amount>, AllocError>
    ensures { IfOk result (λ cut. cut.items ≡ filter (λ pair. int_lt (pos 0) pair.amount) pairs.now) }
{
    pairs
        .iter()
        .filter(|pair| pair.amount > 0)
        .copied()
        .collect(alloc)
}
