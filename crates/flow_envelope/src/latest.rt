//! A schedule in which no point that may be after the instant is before it.

ghost use Rattle.std.specs.Prelude.{◌<◌, ◌++◌, map, All, IfOk};
ghost use Rattle.flow_envelope.specs.Peak.{IsInstant};
ghost use Rattle.flow_envelope.specs.Pins.{early_edge, HasSchedule};
ghost use Rattle.flow_envelope.specs.Latest.{IsLatest};

use super::joined::{free_points, joined, top_of};
use super::more_edges::{bounds_early, bounds_late};
use std::alloc::{AllocError, Global};
use temporal_core::edges::Edges;

/// More than any two values differ by an edge and the instant.
const ABOVE: i64 = 3_000_001;

/// A schedule that has the pinned points at or before the instant, and no other point that may be after it then.
///
/// Points with a greatest value have that one. The others lead to none of these, so they have least values after the
/// instant, all as much later as is needed.
pub fn latest(alloc: Global, edges: &Edges, pins: &[u32], at: i32) -> Result<Vec<i64>, AllocError>
    requires at { IsInstant at }
    requires pins { All (λ point. point < edges.now.points) pins.now }
    requires schedule { HasSchedule (edges.now.edges ++ map (early_edge at) pins.now) }
    ensures { IfOk result (λ values. IsLatest edges.now.points edges.now.edges
        (edges.now.edges ++ map (early_edge at) pins.now) at values.items) }
{
    let ends = bounds_early(alloc, edges, pins, at)?;
    let greatest = ends.hi.as_slice();
    let free = free_points(alloc, greatest)?;
    let late = bounds_late(alloc, edges, free.as_slice(), at)?;
    let least = late.lo.as_slice();
    let lift = top_of(greatest) + ABOVE;
    joined(alloc, greatest, least, lift)
}
