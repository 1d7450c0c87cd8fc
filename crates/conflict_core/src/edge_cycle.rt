//! The cycle of time edges that have no schedule.

ghost use Rattle.std.specs.Prelude.{◌≡◌, ◌≤◌, ◌<◌, length, All, IfOk};
ghost use Rattle.std.specs.List.{AllZip};
ghost use Rattle.conflict_core.specs.Points.{ArePoints, HavePoints, NumbersEdge};
ghost use Rattle.db_edges.specs.TimeCycle.{IsTimeCycle};
ghost use Rattle.conflict_core.specs.Walks.{walk_at};

use super::points::{copied_point, numbered, points_of};
use db_edges::{NamedEdge, Point};
use std::alloc::{AllocError, Global};
use temporal_core::TimeFault;
use temporal_core::bounds::bounds;
use temporal_core::edges::Edges;

// The edges between the numbers of their points, where there are few enough of both.
fn numbered_all(alloc: Global, points: &[Point], edges: &[NamedEdge]) -> Result<Edges, AllocError>
    requires are { ArePoints points.now }
    requires have { HavePoints points.now edges.now }
    requires some { 0 < length points.now }
    requires few_points { length points.now ≤ 65536 }
    requires few_edges { length edges.now < 4294967295 }
    ensures points { IfOk result (λ network. network.points ≡ length points.now) }
    ensures edges { IfOk result (λ network. AllZip (NumbersEdge points.now) edges.now network.edges) }
{
    let mut network = Edges::new(alloc, points.len() as u32);
    for edge in edges {
        let number = numbered(points, edge)?;
        network.add(number)?;
    }
    Ok(network)
}

/// So many points have numbers, and so many edges.
const MOST_POINTS: usize = 65_536;

const MOST_EDGES: usize = 4_294_967_294;

// The edges between the numbers of their points. There is no memory for more than have numbers.
fn network_of(alloc: Global, points: &[Point], edges: &[NamedEdge]) -> Result<Edges, AllocError>
    requires are { ArePoints points.now }
    requires have { HavePoints points.now edges.now }
    ensures points { IfOk result (λ network. network.points ≡ length points.now) }
    ensures edges { IfOk result (λ network. AllZip (NumbersEdge points.now) edges.now network.edges) }
{
    if points.len() > MOST_POINTS {
        return Err(AllocError);
    }
    if edges.len() > MOST_EDGES {
        return Err(AllocError);
    }
    numbered_all(alloc, points, edges)
}

// An equal edge in memory of its own.
fn copied_edge(edge: &NamedEdge) -> Result<NamedEdge, AllocError>
    ensures { IfOk result (λ copied. copied ≡ edge.now) }
{
    Ok(NamedEdge {
        from: copied_point(&edge.from)?,
        to: copied_point(&edge.to)?,
        gap: edge.gap,
    })
}

// The edges at these places.
fn walk(alloc: Global, edges: &[NamedEdge], places: &[u32]) -> Result<Vec<NamedEdge>, AllocError>
    requires { All (λ place. place < length edges.now) places.now }
    ensures { IfOk result (λ found. found.items ≡ walk_at edges.now places.now) }
{
    let mut found = Vec::with_capacity(alloc, places.len())?;
    for place in places {
        let number = *place as usize;
        let copied = copied_edge(&edges[number])?;
        found.push(copied)?;
    }
    Ok(found)
}

// The cycle of the edges, if there is one.
fn cycle_among(
    alloc: Global,
    points: &[Point],
    edges: &[NamedEdge],
) -> Result<Vec<NamedEdge>, AllocError>
    requires are { ArePoints points.now }
    requires have { HavePoints points.now edges.now }
    ensures { IfOk result (λ cycle. IsTimeCycle edges.now cycle.items) }
{
    let network = network_of(alloc, points, edges)?;
    match bounds(&network) {
        Ok(_bounds) => Ok(Vec::new(alloc)),
        Err(TimeFault::Cycle(places)) => walk(alloc, edges, places.as_slice()),
        Err(TimeFault::Memory) => Err(AllocError),
    }
}

/// The cycle of the edges, from its first point on; none where they have a schedule.
pub fn cycle_of(alloc: Global, edges: &[NamedEdge]) -> Result<Vec<NamedEdge>, AllocError>
    ensures { IfOk result (λ cycle. IsTimeCycle edges.now cycle.items) }
{
    let points = points_of(alloc, edges)?;
    cycle_among(alloc, points.as_slice(), edges)
}
