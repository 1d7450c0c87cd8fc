//! The cycle that is told where there is no schedule.
//!
//! From first to last an edge is left out if the others still have no schedule. So the next edge that stays is the last
//! one from which on, together with those that stay already, the edges have no schedule. The first one is found by
//! putting the edges in from the last one down until there is no schedule. Those behind it have values that keep them,
//! so which of these stay is told by trying to raise the values for the first one as well.

ghost use Rattle.std.specs.Prelude.{◌≡◌, ℕ, ℤ, ◌+◌, ◌<◌, ◌≤◌, [], ◌∷◌, List, length, All, Contains, IfOk, MatchBool};
ghost use Rattle.temporal_core.specs.Network.{IsEdge};
ghost use Rattle.temporal_core.specs.Schedule.{IsSchedule, HasNoSchedule};
ghost use Rattle.temporal_core.specs.Cycle.{edges_at, LeavesNeeded, IsCanonicalCycle};
ghost use Rattle.temporal_core.specs.Satisfied.{HasPositiveCycle};
ghost use Rattle.temporal_core.specs.Canonical.{edge_at, IsThinned, IsNextNeeded, AreNeeded, IsCycleOf};

use super::edges::Edge;
use super::satisfied::Satisfied;
use super::thinned::{next_needed, thinned_from};
use std::alloc::{AllocError, Global};

// Whether the edges at these places have a schedule.
fn have_schedule(
    alloc: Global,
    points: usize,
    edges: &[Edge],
    kept: &[u32],
) -> Result<bool, AllocError>
    requires few { points ≤ 65536 }
    requires edges { All (IsEdge points) edges.now }
    requires kept { All (λ place. place < length edges.now) kept.now }
    ensures { IfOk result (λ have. MatchBool have
        ((value : ℕ → ℤ) × IsSchedule (edges_at edges.now kept.now) value)
        (HasPositiveCycle (edges_at edges.now kept.now))) }
{
    let mut satisfied = Satisfied::new(alloc, points)?;
    for place in kept {
        if !satisfied.insert(edges[*place as usize])? {
            return Ok(false);
        }
    }
    Ok(true)
}

// The last place from which on the edges have no schedule.
fn first_needed(alloc: Global, points: usize, edges: &[Edge]) -> Result<u32, AllocError>
    requires few { points ≤ 65536 }
    requires edges { All (IsEdge points) edges.now }
    requires count { length edges.now < 4294967296 }
    requires none { HasNoSchedule edges.now }
    ensures { IfOk result (IsNextNeeded edges.now [] 0) }
{
    let mut satisfied = Satisfied::new(alloc, points)?;
    for place in (0..edges.len()).rev() {
        if !satisfied.insert(edges[place])? {
            return Ok(place as u32);
        }
    }
    unreachable!()
}

// The places of the needed edges, of which this is the first. As many are left out before one of them as before
// another where tokens have the same edges, so that many are tried at once.
fn needed_behind(
    alloc: Global,
    edges: &[Edge],
    first: u32,
    thinned: &mut Satisfied,
) -> Result<Vec<u32>, AllocError>
    requires count { length edges.now < 4294967296 }
    requires first { IsNextNeeded edges.now [] 0 first }
    requires thinned { IsThinned (length thinned.old.values.items) edges.now (first ∷ []) (first + 1) thinned.old }
    ensures within { IfOk result (λ kept. All (λ place. place < length edges.now) kept.items) }
    ensures leaves { IfOk result (λ kept. LeavesNeeded edges.now kept.items) }
    ensures none { IfOk result (λ kept. HasNoSchedule (edges_at edges.now kept.items)) }
{
    let mut kept = vec![in alloc; first]?;
    let mut next = first as usize + 1;
    let mut many = 0;
    while let Some(place) = next_needed(edges, &kept, next, many, thinned)? {
        kept.push(place)?;
        many = place as usize - next;
        next = place as usize + 1;
    }
    Ok(kept)
}

// The places of the needed edges, of which this is the first.
fn needed_from(
    alloc: Global,
    points: usize,
    edges: &[Edge],
    first: u32,
) -> Result<Vec<u32>, AllocError>
    requires few { points ≤ 65536 }
    requires edges { All (IsEdge points) edges.now }
    requires count { length edges.now < 4294967296 }
    requires first { IsNextNeeded edges.now [] 0 first }
    ensures within { IfOk result (λ kept. All (λ place. place < length edges.now) kept.items) }
    ensures leaves { IfOk result (λ kept. LeavesNeeded edges.now kept.items) }
    ensures none { IfOk result (λ kept. HasNoSchedule (edges_at edges.now kept.items)) }
{
    let mut thinned = thinned_from(alloc, points, edges, first as usize)?;
    needed_behind(alloc, edges, first, &mut thinned)
}

// The places that are left where from first to last each is left out if the others have no schedule.
fn needed(alloc: Global, points: usize, edges: &[Edge]) -> Result<Vec<u32>, AllocError>
    requires few { points ≤ 65536 }
    requires edges { All (IsEdge points) edges.now }
    requires count { length edges.now < 4294967296 }
    requires none { HasNoSchedule edges.now }
    ensures { IfOk result (λ kept. AreNeeded edges.now kept.items) }
{
    let first = first_needed(alloc, points, edges)?;
    let kept = needed_from(alloc, points, edges, first)?;
    // They have none, and so a positive cycle, which this call finds.
    if have_schedule(alloc, points, edges, &kept)? {
        unreachable!();
    }
    Ok(kept)
}

// The place whose edge begins at the least point.
fn least_place(edges: &[Edge], places: &[u32]) -> u32
    requires some { 0 < length places.now }
    requires places { All (λ place. place < length edges.now) places.now }
    ensures member { Contains places.now result }
    ensures least { All (λ place. (edge_at edges.now result).from ≤ (edge_at edges.now place).from) places.now }
{
    let mut least = places[0];
    for place in places {
        if edges[*place as usize].from < edges[least as usize].from {
            least = *place;
        }
    }
    least
}

// The place whose edge begins at the point.
fn place_from(edges: &[Edge], places: &[u32], point: u32) -> u32
    requires places { All (λ place. place < length edges.now) places.now }
    requires found { (place : ℕ) × Contains places.now place × ((edge_at edges.now place).from ≡ point) }
    ensures member { Contains places.now result }
    ensures from { (edge_at edges.now result).from ≡ point }
{
    for place in places {
        if edges[*place as usize].from == point {
            return *place;
        }
    }
    unreachable!()
}

// The places of a cycle in the order of the cycle, from the least point on.
fn in_order(
    alloc: Global,
    points: usize,
    edges: &[Edge],
    places: &[u32],
) -> Result<Vec<u32>, AllocError>
    requires edges { All (IsEdge points) edges.now }
    requires places { All (λ place. place < length edges.now) places.now }
    requires cycle { (ordered : List ℕ) × IsCycleOf edges.now places.now ordered }
    ensures { IfOk result (λ ordered. IsCycleOf edges.now places.now ordered.items) }
{
    let mut ordered = Vec::new(alloc);
    let start = least_place(edges, places);
    let mut place = start;
    for _turn in 0..points {
        ordered.push(place)?;
        place = place_from(edges, places, edges[place as usize].to);
        if place == start {
            return Ok(ordered);
        }
    }
    unreachable!()
}

/// The canonical cycle of edges that have no schedule.
pub fn canonical_cycle(alloc: Global, points: usize, edges: &[Edge]) -> Result<Vec<u32>, AllocError>
    requires few { points ≤ 65536 }
    requires edges { All (IsEdge points) edges.now }
    requires count { length edges.now < 4294967296 }
    requires none { HasNoSchedule edges.now }
    ensures { IfOk result (λ places. IsCanonicalCycle edges.now places.items) }
{
    let places = needed(alloc, points, edges)?;
    let ordered = in_order(alloc, points, edges, &places)?;
    Ok(ordered)
}
