//! The least and the greatest value of each point over all schedules.

ghost use Rattle.std.specs.Prelude.{◌≡◌, ℕ, ◌<◌, ◌≤◌, ℤ, pos, neg_ℤ, ◌≤ℤ◌, length, map, slice_index_or, All, None};
ghost use Rattle.std.specs.Prelude.{IfOk};
ghost use Rattle.std.specs.Prelude.{IfErr, MatchOption, ⊤};
ghost use Rattle.temporal_core.specs.Network.{IsEdge};
ghost use Rattle.temporal_core.specs.Schedule.{IsSchedule, AreLeastValues, AreGreatestValues};
ghost use Rattle.temporal_core.specs.Satisfied.{value_at, IsNear, far, IsSatisfiedGraph, HasPositiveCycle};
ghost use Rattle.temporal_core.specs.TimeBounds.{AreBounds, IsNoBounds};
ghost use Rattle.temporal_core.specs.Bounds.{far_below, reversed_edge, negative_of, TellsPoint, AreNear};

use super::canonical::canonical_cycle;
use super::edges::{Edge, Edges};
use super::satisfied::{Satisfied, raise, satisfy};
use eu_name::sequence::Sequence;
use std::alloc::{AllocError, Global};

/// For each point, by its number, the least and the greatest value that a schedule gives it; None where there is no
/// bound.
#[derive(Drop)]
pub struct TimeBounds {
    pub lo: Sequence<Option<i64>>,
    pub hi: Sequence<Option<i64>>,
}

/// Why there are no bounds.
#[derive(Drop)]
pub enum TimeFault {
    /// There is no schedule. These are places of edges that have none either, and each of which is needed for that:
    /// a cycle whose gaps sum to more than 0, from its least point on.
    Cycle(Sequence<u32>),
    Memory,
}

impl From<AllocError> for TimeFault {
    ghost use Rattle.std.specs.Prelude.{◌≡◌};
    ghost use Rattle.temporal_core.specs.declared.bounds.TimeFault.TheVariants.{Memory};

    ghost from_gives = { λ _ fault. fault ≡ Memory };

    fn from(_none: AllocError) -> TimeFault {
        TimeFault::Memory
    }
}

/// So far below the values of a schedule that no walk from the origin leads there.
const FAR: i64 = 1_099_511_627_776;

// The value, that much less.
fn far_from(value: i64) -> i64
    requires { pos 0 ≤ℤ value }
    ensures { result ≡ far_below value }
{
    value - FAR
}

// Each value that much less.
fn lowered(alloc: Global, values: &[i64]) -> Result<Vec<i64>, AllocError>
    requires { (point : ℕ) → pos 0 ≤ℤ value_at values.now point }
    ensures { IfOk result (λ low. low.items ≡ map far_below values.now) }
{
    let mut low = Vec::with_capacity(alloc, values.len())?;
    for value in values {
        low.push(far_from(*value))?;
    }
    Ok(low)
}

// What the value of a point says that was raised from far below, if it was.
fn told(value: i64, satisfied: i64, origin: i64) -> Option<i64>
    requires value { IsNear value }
    requires satisfied { (pos 0 ≤ℤ satisfied) × (satisfied ≤ℤ far) }
    requires origin { (pos 0 ≤ℤ origin) × (origin ≤ℤ far) }
    ensures { TellsPoint value satisfied origin result }
{
    if value > satisfied - FAR {
        Some(value - origin)
    } else {
        None
    }
}

// What the value of each point says.
fn told_all(
    alloc: Global,
    values: &[i64],
    satisfied: &[i64],
    origin: i64,
) -> Result<Vec<Option<i64>>, AllocError>
    requires count { length values.now ≡ length satisfied.now }
    requires values { (point : ℕ) → IsNear (value_at values.now point) }
    requires satisfied { (point : ℕ) → (pos 0 ≤ℤ value_at satisfied.now point) × (value_at satisfied.now point ≤ℤ far) }
    requires origin { (pos 0 ≤ℤ origin) × (origin ≤ℤ far) }
    ensures count { IfOk result (λ all. length all.items ≡ length satisfied.now) }
    ensures each { IfOk result (λ all. (point : ℕ) → point < length satisfied.now
        → TellsPoint (value_at values.now point) (value_at satisfied.now point) origin
        (slice_index_or all.items point None)) }
{
    let mut all = Vec::with_capacity(alloc, satisfied.len())?;
    for point in 0..satisfied.len() {
        all.push(told(values[point], satisfied[point], origin))?;
    }
    Ok(all)
}

// The least value of each point. The origin is raised from far below to where it is: the points that this raises are as
// low then as they can be, and the others can be as low as one likes.
fn least_values(alloc: Global, satisfied: &Satisfied) -> Result<Vec<Option<i64>>, AllocError>
    requires some { 0 < length satisfied.now.values.items }
    requires satisfied { IsSatisfiedGraph (length satisfied.now.values.items) satisfied.now.graph.edges.items satisfied.now }
    ensures values { IfOk result (λ least.
        AreLeastValues (length satisfied.now.values.items) satisfied.now.graph.edges.items least.items) }
    ensures near { IfOk result (λ least. AreNear least.items) }
{
    let first = satisfied.values.as_slice();
    let origin = first[0];
    let mut values = lowered(alloc, first)?;
    if !raise(alloc, &satisfied.graph, &mut values, 0, origin, first.len())? {
        unreachable!();
    }
    let least = told_all(alloc, &values, first, origin)?;
    Ok(least)
}

// The least value of each point, where there is a schedule.
fn least_of(alloc: Global, points: usize, edges: &[Edge]) -> Result<Vec<Option<i64>>, AllocError>
    requires some { 0 < points }
    requires few { points ≤ 65536 }
    requires edges { All (IsEdge points) edges.now }
    requires schedule { HasPositiveCycle edges.now → ⊥ }
    ensures values { IfOk result (λ least. AreLeastValues points edges.now least.items) }
    ensures near { IfOk result (λ least. AreNear least.items) }
{
    let Some(satisfied) = satisfy(alloc, points, edges)? else {
        unreachable!();
    };
    least_values(alloc, &satisfied)
}

// The edges with the flow of time turned round.
fn reversed(alloc: Global, edges: &[Edge]) -> Result<Vec<Edge>, AllocError>
    ensures { IfOk result (λ turned. turned.items ≡ map reversed_edge edges.now) }
{
    let mut turned = Vec::with_capacity(alloc, edges.len())?;
    for edge in edges {
        turned.push(Edge {
            from: edge.to,
            to: edge.from,
            gap: edge.gap,
        })?;
    }
    Ok(turned)
}

// The negative of the number, if it is one.
fn negative(value: Option<i64>) -> Option<i64>
    requires { MatchOption value ⊤ IsNear }
    ensures { result ≡ negative_of value }
{
    match value {
        Some(number) => Some(-number),
        None => None,
    }
}

// The negative of each number.
fn negatives(alloc: Global, values: &[Option<i64>]) -> Result<Vec<Option<i64>>, AllocError>
    requires { AreNear values.now }
    ensures { IfOk result (λ turned. turned.items ≡ map negative_of values.now) }
{
    let mut turned = Vec::with_capacity(alloc, values.len())?;
    for value in values {
        turned.push(negative(*value))?;
    }
    Ok(turned)
}

// The greatest value of each point, where there is a schedule: the negative of the least with time turned round.
fn greatest_values(
    alloc: Global,
    points: usize,
    edges: &[Edge],
) -> Result<Vec<Option<i64>>, AllocError>
    requires some { 0 < points }
    requires few { points ≤ 65536 }
    requires edges { All (IsEdge points) edges.now }
    requires schedule { (value : ℕ → ℤ) × IsSchedule edges.now value }
    ensures { IfOk result (λ greatest. AreGreatestValues points edges.now greatest.items) }
{
    let turned = reversed(alloc, edges)?;
    let least = least_of(alloc, points, &turned)?;
    negatives(alloc, &least)
}

/// The least and the greatest value of each point over all schedules of the edges.
///
/// It takes a shortest-path computation in each direction. Where there is no schedule it takes two, and then for each
/// edge of the cycle a few tries to raise values: about as many as the logarithm of how many edges before it are left
/// out.
pub fn bounds(edges: &Edges) -> Result<TimeBounds, TimeFault>
    ensures ok { IfOk result (AreBounds edges.now) }
    ensures err { IfErr result (IsNoBounds edges.now) }
{
    let alloc = edges.allocator();
    let points = edges.points() as usize;
    let list = edges.as_slice();
    match satisfy(alloc, points, list)? {
        Some(satisfied) => {
            let lo = least_values(alloc, &satisfied)?;
            let hi = greatest_values(alloc, points, list)?;
            Ok(TimeBounds {
                lo: Sequence::from_vec(lo),
                hi: Sequence::from_vec(hi),
            })
        }
        None => {
            let cycle = canonical_cycle(alloc, points, list)?;
            Err(TimeFault::Cycle(Sequence::from_vec(cycle)))
        }
    }
}
