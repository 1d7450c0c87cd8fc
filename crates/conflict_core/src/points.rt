//! Points in order, and their numbers.

ghost use Rattle.std.specs.Prelude.{◌≡◌, ◌↔◌, ◌<◌, ◌≤◌, length, Some, slice_get, Contains, IfOk, OnOk, IsTrue, MatchOption};
ghost use Rattle.std.specs.declared.cmp.Ordering.TheVariants.{Less, Equal, Greater};
ghost use Rattle.temporal_core.specs.Network.{IsEdge};
ghost use Rattle.db_edges.specs.TimeCycle.{IsPointBefore};
ghost use Rattle.conflict_core.specs.Points.{ArePoints, IsPlaceOf, HavePoints, AddsPoint, NumbersEdge};

use db_edges::{NamedEdge, Point};
use eu_name::name_order::order;
use std::alloc::{AllocError, Global};
use std::cmp::Ordering;
use temporal_core::Edge;

// Which of two points comes first.
fn order_of(one: &Point, other: &Point) -> Ordering
    ensures less { (result ≡ Less) ↔ IsPointBefore one.now other.now }
    ensures equal { (result ≡ Equal) ↔ (one.now ≡ other.now) }
{
    match (one, other) {
        (Point::Origin, Point::Origin) => Ordering::Equal,
        (Point::Origin, _) => Ordering::Less,
        (_, Point::Origin) => Ordering::Greater,
        (Point::Start(a), Point::Start(b)) => order(a, b),
        (Point::Start(a), Point::End(b)) => order(a, b).then(Ordering::Less),
        (Point::End(a), Point::Start(b)) => order(a, b).then(Ordering::Greater),
        (Point::End(a), Point::End(b)) => order(a, b),
    }
}

// Whether the one point comes before the other.
fn is_before(one: &Point, other: &Point) -> bool
    ensures { IsTrue result ↔ IsPointBefore one.now other.now }
{
    matches!(order_of(one, other), Ordering::Less)
}

// Whether the two points are one.
fn is_same_point(one: &Point, other: &Point) -> bool
    ensures { IsTrue result ↔ (one.now ≡ other.now) }
{
    matches!(order_of(one, other), Ordering::Equal)
}

// How many of the points come before this one.
fn place_of(points: &[Point], point: &Point) -> usize
    requires { ArePoints points.now }
    ensures { IsPlaceOf points.now point.now result }
{
    let mut low = 0;
    let mut high = points.len();
    while low < high {
        let middle = low + (high - low) / 2;
        if is_before(&points[middle], point) {
            low = middle + 1;
        } else {
            high = middle;
        }
    }
    low
}

// Whether the point stands at this place.
fn stands_at(points: &[Point], place: usize, point: &Point) -> bool
    ensures { IsTrue result ↔ (slice_get points.now place ≡ Some point.now) }
{
    match points.get(place) {
        Some(found) => is_same_point(found, point),
        None => false,
    }
}

/// An equal point in memory of its own.
pub fn copied_point(point: &Point) -> Result<Point, AllocError>
    ensures { IfOk result (λ copied. copied ≡ point.now) }
{
    match point {
        Point::Origin => Ok(Point::Origin),
        Point::Start(token) => Ok(Point::Start(token.copy()?)),
        Point::End(token) => Ok(Point::End(token.copy()?)),
    }
}

// The place to which the point can be put; none, where it is there.
fn missing_place(points: &[Point], point: &Point) -> Option<usize>
    requires { ArePoints points.now }
    ensures { MatchOption result (Contains points.now point.now)
        (λ place. IsPlaceOf points.now point.now place × (Contains points.now point.now → ⊥)) }
{
    let place = place_of(points, point);
    if stands_at(points, place, point) {
        return None;
    }
    Some(place)
}

// Puts the point, which is missing, to its place.
fn insert_at(points: &mut Vec<Point>, place: usize, point: &Point) -> Result<(), AllocError>
    requires are { ArePoints points.old.items }
    requires place { IsPlaceOf points.old.items point.now place }
    requires missing { Contains points.old.items point.now → ⊥ }
    ensures { OnOk result (AddsPoint points.old.items point.now points.new.items) }
{
    let copied = copied_point(point)?;
    points.insert(place, copied)?;
    Ok(())
}

// Puts the point to the others.
fn add_point(points: &mut Vec<Point>, point: &Point) -> Result<(), AllocError>
    requires { ArePoints points.old.items }
    ensures { OnOk result (AddsPoint points.old.items point.now points.new.items) }
{
    match missing_place(points.as_slice(), point) {
        None => Ok(()),
        Some(place) => insert_at(points, place, point),
    }
}

// Puts the points of the edge to the others.
fn add_points(points: &mut Vec<Point>, edge: &NamedEdge) -> Result<(), AllocError>
    requires { ArePoints points.old.items }
    ensures from { OnOk result (AddsPoint points.old.items edge.now.from points.new.items) }
    ensures to { OnOk result (AddsPoint points.old.items edge.now.to points.new.items) }
{
    add_point(points, &edge.from)?;
    add_point(points, &edge.to)
}

// Puts the points of the edges to the others.
fn gather(points: &mut Vec<Point>, edges: &[NamedEdge]) -> Result<(), AllocError>
    requires { ArePoints points.old.items }
    ensures are { OnOk result (ArePoints points.new.items) }
    ensures have { OnOk result (HavePoints points.new.items edges.now) }
{
    for edge in edges {
        add_points(points, edge)?;
    }
    Ok(())
}

/// The points of the edges, and the origin, each once and in order.
pub fn points_of(alloc: Global, edges: &[NamedEdge]) -> Result<Vec<Point>, AllocError>
    ensures are { IfOk result (λ points. ArePoints points.items) }
    ensures have { IfOk result (λ points. HavePoints points.items edges.now) }
{
    let mut points = Vec::new(alloc);
    points.push(Point::Origin)?;
    gather(&mut points, edges)?;
    Ok(points)
}

// The number of the point.
fn number_of(points: &[Point], point: &Point) -> u32
    requires are { ArePoints points.now }
    requires few { length points.now ≤ 65536 }
    requires there { Contains points.now point.now }
    ensures at { slice_get points.now result ≡ Some point.now }
    ensures below { result < length points.now }
{
    place_of(points, point) as u32
}

// The greatest gap of an edge, forward or back.
const WIDEST: i32 = 2_000_000;

/// The edge with the numbers of its points. No edge has a wider gap: there is no more memory for one.
pub fn numbered(points: &[Point], edge: &NamedEdge) -> Result<Edge, AllocError>
    requires are { ArePoints points.now }
    requires few { length points.now ≤ 65536 }
    requires from { Contains points.now edge.now.from }
    requires to { Contains points.now edge.now.to }
    ensures numbered { IfOk result (NumbersEdge points.now edge.now) }
    ensures edge { IfOk result (IsEdge (length points.now)) }
{
    if edge.gap < -WIDEST || edge.gap > WIDEST {
        return Err(AllocError);
    }
    Ok(Edge {
        from: number_of(points, &edge.from),
        to: number_of(points, &edge.to),
        gap: edge.gap,
    })
}
