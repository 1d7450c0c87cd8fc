//! The bounds of a network with more edges.

ghost use Rattle.std.specs.Prelude.{◌≡◌, ◌+◌, ◌<◌, ◌++◌, length, map, All, IfOk, OnOk};
ghost use Rattle.temporal_core.specs.Network.{IsEdge, IsNetwork};
ghost use Rattle.temporal_core.specs.TimeBounds.{AreBounds};
ghost use Rattle.flow_envelope.specs.Peak.{IsInstant};
ghost use Rattle.flow_envelope.specs.Pins.{early_edge, late_edge, with_more, HasSchedule};

use std::alloc::{AllocError, Global};
use temporal_core::bounds::bounds;
use temporal_core::edges::Edges;
use temporal_core::{Edge, TimeBounds, TimeFault};

/// No network has more edges.
const MOST_EDGES: usize = 4_294_967_295;

// Puts the edges behind those that there are.
fn add_all(network: &mut Edges, more: &[Edge]) -> Result<(), AllocError>
    requires edges { All (IsEdge network.old.points) more.now }
    requires few { length network.old.edges + length more.now < 4294967296 }
    ensures { OnOk result (network.new ≡ with_more network.old more.now) }
{
    for edge in more {
        network.add(*edge)?;
    }
    Ok(())
}

// The network with more edges. There is no memory for more than a network has.
fn with_edges(alloc: Global, edges: &Edges, more: &[Edge]) -> Result<Edges, AllocError>
    requires { All (IsEdge edges.now.points) more.now }
    ensures with { IfOk result (λ network. network ≡ with_more edges.now more.now) }
    ensures network { IsNetwork edges.now }
{
    let points = edges.points();
    let list = edges.as_slice();
    if more.len() > MOST_EDGES - list.len() {
        return Err(AllocError);
    }
    let mut network = Edges::new(alloc, points);
    add_all(&mut network, list)?;
    add_all(&mut network, more)?;
    Ok(network)
}

// The bounds of the network with more edges, where these have a schedule.
fn bounds_with(alloc: Global, edges: &Edges, more: &[Edge]) -> Result<TimeBounds, AllocError>
    requires more { All (IsEdge edges.now.points) more.now }
    requires schedule { HasSchedule (edges.now.edges ++ more.now) }
    ensures bounds { IfOk result (AreBounds (with_more edges.now more.now)) }
    ensures network { IsNetwork edges.now }
{
    let network = with_edges(alloc, edges, more)?;
    match bounds(&network) {
        Ok(found) => Ok(found),
        Err(TimeFault::Cycle(_places)) => unreachable!(),
        Err(TimeFault::Memory) => Err(AllocError),
    }
}

// The edge that has the point at or before the instant.
fn early(point: u32, at: i32) -> Edge
    requires { IsInstant at }
    ensures { result ≡ early_edge at point }
{
    Edge {
        from: point,
        to: 0,
        gap: -at,
    }
}

// The edge that has the point after the instant.
fn late(point: u32, at: i32) -> Edge
    requires { IsInstant at }
    ensures { result ≡ late_edge at point }
{
    Edge {
        from: 0,
        to: point,
        gap: at + 1,
    }
}

// The edges that have the points at or before the instant.
fn all_early(alloc: Global, points: &[u32], at: i32) -> Result<Vec<Edge>, AllocError>
    requires { IsInstant at }
    ensures { IfOk result (λ edges. edges.items ≡ map (early_edge at) points.now) }
{
    let mut edges = Vec::with_capacity(alloc, points.len())?;
    for point in points {
        edges.push(early(*point, at))?;
    }
    Ok(edges)
}

// The edges that have the points after the instant.
fn all_late(alloc: Global, points: &[u32], at: i32) -> Result<Vec<Edge>, AllocError>
    requires { IsInstant at }
    ensures { IfOk result (λ edges. edges.items ≡ map (late_edge at) points.now) }
{
    let mut edges = Vec::with_capacity(alloc, points.len())?;
    for point in points {
        edges.push(late(*point, at))?;
    }
    Ok(edges)
}

/// The bounds where these points are at or before the instant, if they can be.
pub fn bounds_early(
    alloc: Global,
    edges: &Edges,
    points: &[u32],
    at: i32,
) -> Result<TimeBounds, AllocError>
    requires at { IsInstant at }
    requires points { All (λ point. point < edges.now.points) points.now }
    requires schedule { HasSchedule (edges.now.edges ++ map (early_edge at) points.now) }
    ensures bounds { IfOk result (AreBounds (with_more edges.now (map (early_edge at) points.now))) }
    ensures network { OnOk result (IsNetwork edges.now) }
{
    let more = all_early(alloc, points, at)?;
    let found = bounds_with(alloc, edges, more.as_slice())?;
    Ok(found)
}

/// The bounds where these points are after the instant, if they can be.
pub fn bounds_late(
    alloc: Global,
    edges: &Edges,
    points: &[u32],
    at: i32,
) -> Result<TimeBounds, AllocError>
    requires at { IsInstant at }
    requires some { 0 < edges.now.points }
    requires points { All (λ point. point < edges.now.points) points.now }
    requires schedule { HasSchedule (edges.now.edges ++ map (late_edge at) points.now) }
    ensures { IfOk result (AreBounds (with_more edges.now (map (late_edge at) points.now))) }
{
    let more = all_late(alloc, points, at)?;
    let found = bounds_with(alloc, edges, more.as_slice())?;
    Ok(found)
}
