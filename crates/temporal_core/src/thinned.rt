//! Edges of which some are left out, and the next one that is needed.
//!
//! The values keep all edges behind the first needed one, so they are never changed. Whether there is a schedule with
//! some of these left out is told by trying to raise a copy of the values for the first needed one. An edge that is
//! left out has an idle one in its place, so that the links of the graph stay.

ghost use Rattle.std.specs.Prelude.{◌≡◌, ℕ, ◌+◌, ◌<◌, ◌≤◌, [], ◌∷◌, List, length, All, IfOk, MatchBool, MatchOption, ⊤};
ghost use Rattle.temporal_core.specs.Network.{IsEdge};
ghost use Rattle.temporal_core.specs.Schedule.{HasNoSchedule};
ghost use Rattle.temporal_core.specs.Cycle.{edges_at};
ghost use Rattle.temporal_core.specs.Canonical.{edge_at, idle_edge, missing, HasNoneFrom, HasSomeFrom, IsThinned};
ghost use Rattle.temporal_core.specs.Canonical.{IsNextNeeded, IsNextPart};

use super::edges::Edge;
use super::satisfied::{Satisfied, satisfy};
use std::alloc::{AllocError, Global};

// An edge from the same point that any values keep.
fn idle(edge: Edge) -> Edge
    ensures { result ≡ idle_edge edge }
{
    Edge {
        from: edge.from,
        to: edge.from,
        gap: 0,
    }
}

// The edge, if it comes behind the last place; else an idle one.
fn behind(edge: Edge, place: usize, last: usize) -> Edge
    ensures idle { place ≤ last → result ≡ idle_edge edge }
    ensures behind { last < place → result ≡ edge }
{
    if place > last { edge } else { idle(edge) }
}

// The edges behind this place, with an idle one at each place before.
fn edges_behind(alloc: Global, edges: &[Edge], last: usize) -> Result<Vec<Edge>, AllocError>
    ensures count { IfOk result (λ thin. length thin.items ≡ length edges.now) }
    ensures idle { IfOk result (λ thin. (place : ℕ) → place ≤ last → place < length edges.now
        → edge_at thin.items place ≡ idle_edge (edge_at edges.now place)) }
    ensures behind { IfOk result (λ thin. (place : ℕ) → last < place → place < length edges.now
        → edge_at thin.items place ≡ edge_at edges.now place) }
{
    let mut thin = Vec::with_capacity(alloc, edges.len())?;
    for place in 0..edges.len() {
        thin.push(behind(edges[place], place, last))?;
    }
    Ok(thin)
}

/// Values that keep the edges behind the first needed one. Those before it are left out.
pub fn thinned_from(
    alloc: Global,
    points: usize,
    edges: &[Edge],
    first: usize,
) -> Result<Satisfied, AllocError>
    requires few { points ≤ 65536 }
    requires edges { All (IsEdge points) edges.now }
    requires first { IsNextNeeded edges.now [] 0 first }
    ensures { IfOk result (IsThinned points edges.now (first ∷ []) (first + 1)) }
{
    let thin = edges_behind(alloc, edges, first)?;
    let Some(thinned) = satisfy(alloc, points, &thin)? else {
        unreachable!();
    };
    Ok(thinned)
}

// Leaves the edges of this part out.
fn leave_out(edges: &[Edge], first: usize, end: usize, thinned: &mut Satisfied)
    requires count { length thinned.old.graph.edges.items ≡ length edges.now }
    requires order { first ≤ end }
    requires end { end ≤ length edges.now }
    ensures { (points : ℕ) (kept : List ℕ) → All (λ place. place < first) kept
        → IsThinned points edges.now kept first thinned.old → IsThinned points edges.now kept end thinned.new }
{
    for place in first..end {
        thinned.graph.replace(place, idle(edges[place]));
    }
}

// Puts the edges of this part back.
fn put_back(edges: &[Edge], first: usize, end: usize, thinned: &mut Satisfied)
    requires count { length thinned.old.graph.edges.items ≡ length edges.now }
    requires order { first ≤ end }
    requires end { end ≤ length edges.now }
    ensures { (points : ℕ) (kept : List ℕ) → missing kept < first
        → IsThinned points edges.now kept end thinned.old → IsThinned points edges.now kept first thinned.new }
{
    for place in (first..end).rev() {
        thinned.graph.replace(place, edges[place]);
    }
}

// Leaves the edges of this part out if the others have no schedule.
fn is_left_out(
    edges: &[Edge],
    kept: &[u32],
    first: usize,
    end: usize,
    thinned: &mut Satisfied,
) -> Result<bool, AllocError>
    requires kept { All (λ place. place < first) kept.now }
    requires some { 0 < length kept.now }
    requires order { first ≤ end }
    requires end { end ≤ length edges.now }
    requires thinned { IsThinned (length thinned.old.values.items) edges.now kept.now first thinned.old }
    ensures thinned { IfOk result (λ done. MatchBool done
        (IsThinned (length thinned.old.values.items) edges.now kept.now end thinned.new)
        (IsThinned (length thinned.old.values.items) edges.now kept.now first thinned.new)) }
    ensures done { IfOk result (λ done. MatchBool done
        (HasNoneFrom edges.now kept.now end) (HasSomeFrom edges.now kept.now end)) }
{
    leave_out(edges, first, end, thinned);
    if !thinned.can_keep(edges[kept[0] as usize])? {
        return Ok(true);
    }
    put_back(edges, first, end, thinned);
    Ok(false)
}

// Places from the first one on and before the end.
#[derive(Clone, Copy)]
pub struct Part {
    pub first: usize,
    pub end: usize,
}

// Leaves edges out up to a part that has a needed one: first so many at once, then one, and then twice as many each
// time.
fn next_part(
    edges: &[Edge],
    kept: &[u32],
    from: usize,
    many: usize,
    thinned: &mut Satisfied,
) -> Result<Option<Part>, AllocError>
    requires count { length edges.now < 4294967296 }
    requires kept { All (λ place. place < from) kept.now }
    requires some { 0 < length kept.now }
    requires from { from ≤ length edges.now }
    requires thinned { IsThinned (length thinned.old.values.items) edges.now kept.now from thinned.old }
    requires none { HasNoneFrom edges.now kept.now from }
    ensures after { IfOk result (λ found. MatchOption found ⊤ (λ part. from ≤ part.first)) }
    ensures part { IfOk result (λ found. MatchOption found
        (HasNoSchedule (edges_at edges.now kept.now))
        (λ part. IsNextPart (length thinned.old.values.items) edges.now kept.now part thinned.new)) }
{
    let mut first = from;
    let mut width = many.max(1);
    let mut wider = 1_usize;
    while first < edges.len() {
        let end = first + width.min(edges.len() - first);
        if !is_left_out(edges, kept, first, end, thinned)? {
            return Ok(Some(Part { first, end }));
        }
        first = end;
        width = wider;
        wider = wider.saturating_mul(2);
    }
    Ok(None)
}

// Halves the part down to the needed edge.
fn needed_in(
    edges: &[Edge],
    kept: &[u32],
    part: Part,
    thinned: &mut Satisfied,
) -> Result<u32, AllocError>
    requires count { length edges.now < 4294967296 }
    requires kept { All (λ place. place < part.first) kept.now }
    requires some { 0 < length kept.now }
    requires part { IsNextPart (length thinned.old.values.items) edges.now kept.now part thinned.old }
    ensures next { IfOk result (IsNextNeeded edges.now kept.now part.first) }
    ensures thinned { IfOk result (λ place.
        IsThinned (length thinned.old.values.items) edges.now kept.now place thinned.new) }
{
    let Part { mut first, mut end } = part;
    while end - first > 1 {
        let middle = first + (end - first) / 2;
        if is_left_out(edges, kept, first, middle, thinned)? {
            first = middle;
        } else {
            end = middle;
        }
    }
    Ok(first as u32)
}

/// The last place from which on the edges have no schedule together with those that stay; None where those that stay
/// have none alone. The edges before it are left out, but for those that stay. At first it is tried to leave so many
/// out at once.
pub fn next_needed(
    edges: &[Edge],
    kept: &[u32],
    first: usize,
    many: usize,
    thinned: &mut Satisfied,
) -> Result<Option<u32>, AllocError>
    requires count { length edges.now < 4294967296 }
    requires kept { All (λ place. place < first) kept.now }
    requires some { 0 < length kept.now }
    requires first { first ≤ length edges.now }
    requires thinned { IsThinned (length thinned.old.values.items) edges.now kept.now first thinned.old }
    requires none { HasNoneFrom edges.now kept.now first }
    ensures next { IfOk result (λ found. MatchOption found
        (HasNoSchedule (edges_at edges.now kept.now)) (IsNextNeeded edges.now kept.now first)) }
    ensures thinned { IfOk result (λ found. MatchOption found
        ⊤ (λ place. IsThinned (length thinned.old.values.items) edges.now kept.now place thinned.new)) }
{
    match next_part(edges, kept, first, many, thinned)? {
        Some(part) => Ok(Some(needed_in(edges, kept, part, thinned)?)),
        None => Ok(None),
    }
}
