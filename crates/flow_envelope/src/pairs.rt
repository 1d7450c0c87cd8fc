//! The pairs of changes between which amounts may go.

ghost use Rattle.std.specs.Prelude.{◌≡◌, ◌↔◌, ◌+◌, ◌<◌, ◌≤◌, List, [], ◌∷◌, ◌++◌, length, All, IfOk, OnOk, IsTrue, ⊤};
ghost use Rattle.temporal_core.specs.declared.edges.Edge.{Edge as AnEdge};
ghost use Rattle.temporal_core.specs.Schedule.{AreGreatestValues};
ghost use Rattle.flow_envelope.specs.Sums.{change_at};
ghost use Rattle.flow_envelope.specs.Peak.{IsInstant, IsChange};
ghost use Rattle.flow_envelope.specs.Certain.{AreCertain};
ghost use Rattle.flow_envelope.specs.Pairs.{ArePairs, IsAdder, IsTaker, IsFollower};
ghost use Rattle.flow_envelope.specs.Pins.{early_edge};

use super::certain::{Certainty, is_by};
use super::change::{Amount, PointChange};
use super::more_edges::bounds_early;
use std::alloc::{AllocError, Global};
use temporal_core::edges::Edges;

// Whether the change adds, and isn't certain.
fn is_adder(changes: &[PointChange], certain: &[Certainty], place: usize) -> bool
    requires place { place < length changes.now }
    requires count { length certain.now ≡ length changes.now }
    ensures { IsTrue result ↔ IsAdder changes.now certain.now place }
{
    changes[place].add > 0 && matches!(certain[place], Certainty::Maybe)
}

// Whether the change takes, and isn't certain.
fn is_taker(changes: &[PointChange], certain: &[Certainty], place: usize) -> bool
    requires place { place < length changes.now }
    requires count { length certain.now ≡ length changes.now }
    ensures { IsTrue result ↔ IsTaker changes.now certain.now place }
{
    changes[place].add < 0 && matches!(certain[place], Certainty::Maybe)
}

// Whether the change takes, isn't certain, and has happened in every schedule that these greatest values are of.
fn follows(
    changes: &[PointChange],
    certain: &[Certainty],
    greatest: &[Option<i64>],
    at: i64,
    place: usize,
) -> bool
    requires place { place < length changes.now }
    requires count { length certain.now ≡ length changes.now }
    requires points { All (IsChange (length greatest.now)) changes.now }
    ensures { IsTrue result ↔ IsFollower changes.now certain.now greatest.now at place }
{
    let by = is_by(greatest[changes[place].point as usize], at);
    by && is_taker(changes, certain, place)
}

// Puts the pairs of the adder with each taker that has happened wherever the adder has, by the greatest values that
// points have then.
fn add_takers(
    changes: &[PointChange],
    certain: &[Certainty],
    greatest: &[Option<i64>],
    at: i32,
    adder: usize,
    pairs: &mut Vec<Amount>,
) -> Result<(), AllocError>
    requires few { length changes.now ≤ 1024 }
    requires count { length certain.now ≡ length changes.now }
    requires points { All (IsChange (length greatest.now)) changes.now }
    requires adder { IsAdder changes.now certain.now adder }
    ensures { OnOk result ((edges : List AnEdge)
        → AreCertain edges changes.now at certain.now
        → AreGreatestValues (length greatest.now) (edges ++ early_edge at (change_at changes.now adder).point ∷ []) greatest.now
        → ArePairs edges changes.now at certain.now (λ one other. one < adder) pairs.old.items
        → ArePairs edges changes.now at certain.now (λ one other. one < adder + 1) pairs.new.items) }
{
    for place in 0..changes.len() {
        if follows(changes, certain, greatest, i64::from(at), place) {
            pairs.push(Amount {
                from: adder as u32,
                to: place as u32,
                amount: 0,
            })?;
        }
    }
    Ok(())
}

// Puts the pairs of the change, if it is an adder: those that have happened wherever it has are told by the bounds of
// the network with one more edge.
fn add_pairs(
    edges: &Edges,
    changes: &[PointChange],
    certain: &[Certainty],
    at: i32,
    adder: usize,
    pairs: &mut Vec<Amount>,
) -> Result<(), AllocError>
    requires few { length changes.now ≤ 1024 }
    requires at { IsInstant at }
    requires changes { All (IsChange edges.now.points) changes.now }
    requires certain { AreCertain edges.now.edges changes.now at certain.now }
    requires adder { adder < length changes.now }
    requires pairs { ArePairs edges.now.edges changes.now at certain.now (λ one other. one < adder) pairs.old.items }
    ensures { OnOk result
        (ArePairs edges.now.edges changes.now at certain.now (λ one other. one < adder + 1) pairs.new.items) }
{
    if !is_adder(changes, certain, adder) {
        return Ok(());
    }
    let alloc = *pairs.allocator();
    let pin = [changes[adder].point];
    let ends = bounds_early(alloc, edges, pin.as_slice(), at)?;
    add_takers(changes, certain, ends.hi.as_slice(), at, adder, pairs)
}

/// The pairs of each adder with each taker whose point no schedule has later.
pub fn pairs_of(
    alloc: Global,
    edges: &Edges,
    changes: &[PointChange],
    certain: &[Certainty],
    at: i32,
) -> Result<Vec<Amount>, AllocError>
    requires few { length changes.now ≤ 1024 }
    requires at { IsInstant at }
    requires changes { All (IsChange edges.now.points) changes.now }
    requires certain { AreCertain edges.now.edges changes.now at certain.now }
    ensures { IfOk result (λ pairs. ArePairs edges.now.edges changes.now at certain.now (λ one other. ⊤) pairs.items) }
{
    let mut pairs = Vec::new(alloc);
    for adder in 0..changes.len() {
        add_pairs(edges, changes, certain, at, adder, &mut pairs)?;
    }
    Ok(pairs)
}
