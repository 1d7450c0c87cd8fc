//! Whether edges are a cycle that no schedule can keep.

ghost use Rattle.std.specs.Prelude.{◌≡◌, ◌≢◌, ℕ, ◌<◌, ◌↔◌, List, length, All, IsTrue};
ghost use Rattle.temporal_core.specs.declared.edges.Edge.{Edge as AnEdge};
ghost use Rattle.temporal_core.specs.Cycle.{edges_at, gap_sum, LeadsBack, IsSimple, IsPositiveCycle, IsCanonicalCycle};
ghost use Rattle.temporal_core.specs.Schedule.{HasNoSchedule};

use super::edges::{Edge, Edges};

// Whether there is an edge at each of the places.
fn are_places(edges: &[Edge], places: &[u32]) -> bool
    ensures { IsTrue result ↔ All (λ place. place < length edges.now) places.now }
{
    places.iter().all(|place| (*place as usize) < edges.len())
}

// Whether each edge begins where the one before it ends, and the first where the last ends.
fn is_closed(edges: &[Edge], places: &[u32]) -> bool
    requires { All (λ place. place < length edges.now) places.now }
    ensures { IsTrue result ↔ LeadsBack (edges_at edges.now places.now) }
{
    if places.is_empty() {
        return false;
    }
    let start = edges[places[0] as usize].from;
    let mut at = start;
    for place in places {
        let edge = edges[*place as usize];
        if edge.from != at {
            return false;
        }
        at = edge.to;
    }
    at == start
}

// Whether none of the edges begins at the point.
fn none_from(edges: &[Edge], places: &[u32], point: u32) -> bool
    requires { All (λ place. place < length edges.now) places.now }
    ensures { IsTrue result ↔ All (λ other. other.from ≢ point) (edges_at edges.now places.now) }
{
    for place in places {
        if edges[*place as usize].from == point {
            return false;
        }
    }
    true
}

// Whether no two of the edges begin at one point.
fn is_simple(edges: &[Edge], places: &[u32]) -> bool
    requires { All (λ place. place < length edges.now) places.now }
    ensures { IsTrue result ↔ IsSimple (edges_at edges.now places.now) }
{
    for (k, place) in places.iter().enumerate() {
        if !none_from(edges, &places[k + 1..], edges[*place as usize].from) {
            return false;
        }
    }
    true
}

// The sum of the gaps.
fn gaps(edges: &[Edge], places: &[u32]) -> i128
    requires { All (λ place. place < length edges.now) places.now }
    ensures { result ≡ gap_sum (edges_at edges.now places.now) }
{
    let mut sum: i128 = 0;
    for place in places {
        sum += i128::from(edges[*place as usize].gap);
    }
    sum
}

/// Whether the edges at these places, in this order, are a simple cycle whose gaps sum to more than 0.
///
/// Each edge has to begin where the one before it ends, and the first where the last one ends. It may begin at any
/// of its points.
pub fn check_cycle(edges: &Edges, places: &[u32]) -> bool
    ensures { IsTrue result ↔ IsPositiveCycle edges.now.edges places.now }
{
    let list = edges.as_slice();
    if !are_places(list, places) {
        return false;
    }
    is_closed(list, places) && is_simple(list, places) && gaps(list, places) > 0
}

/// A law: the edges of a positive cycle have no schedule.
pub fn positive_cycle_has_no_schedule()
    ensures { (edges : List AnEdge) (places : List ℕ) → IsPositiveCycle edges places
        → HasNoSchedule (edges_at edges places) }
{}

/// A law: there is one canonical cycle at most.
pub fn canonical_cycle_is_one()
    ensures { (edges : List AnEdge) (one other : List ℕ) → IsCanonicalCycle edges one
        → IsCanonicalCycle edges other → one ≡ other }
{}
