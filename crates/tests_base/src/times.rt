//! Networks by hand.

ghost use Rattle.std.specs.Prelude.{◌<◌, ◌≤◌};

use super::rows::{Row, assert_rows};
use std::alloc::Global;
use temporal_core::bounds::bounds;
use temporal_core::edges::Edges;
use temporal_core::{Edge, TimeFault, check_cycle};

/// From a point, at least so much later, to a point.
pub type Written = (u32, i32, u32);

/// Whether the edge is added.
fn is_added(edges: &mut Edges, written: Written) -> bool {
    let (from, gap, to) = written;
    let points = edges.points();
    if from >= points || to >= points || gap < -2_000_000 || gap > 2_000_000 {
        return false;
    }
    if edges.as_slice().len() > 99 {
        return false;
    }
    edges.add(Edge { from, to, gap }).is_ok()
}

/// Whether all edges are added.
pub fn are_added(edges: &mut Edges, list: &[Written]) -> bool {
    for written in list {
        if !is_added(edges, *written) {
            return false;
        }
    }
    true
}

/// Whether these are the least and the greatest values.
fn are_bounds(edges: &Edges, lo: &[Option<i64>], hi: &[Option<i64>]) -> bool {
    match bounds(edges) {
        Ok(found) => found.lo.as_slice() == lo && found.hi.as_slice() == hi,
        Err(_) => false,
    }
}

/// Whether the edges have no schedule, because of these.
fn is_told(edges: &Edges, places: &[u32]) -> bool {
    match bounds(edges) {
        Ok(_) => false,
        Err(TimeFault::Memory) => false,
        Err(TimeFault::Cycle(found)) => found.as_slice() == places,
    }
}

fn have_bounds(
    alloc: Global,
    points: u32,
    list: &[Written],
    lo: &[Option<i64>],
    hi: &[Option<i64>],
) -> bool
    requires some { 0 < points }
    requires few { points ≤ 65536 }
{
    let mut edges = Edges::new(alloc, points);
    are_added(&mut edges, list) && are_bounds(&edges, lo, hi)
}

fn have_a_cycle(alloc: Global, points: u32, list: &[Written], places: &[u32]) -> bool
    requires some { 0 < points }
    requires few { points ≤ 65536 }
{
    let mut edges = Edges::new(alloc, points);
    are_added(&mut edges, list) && is_told(&edges, places)
}

static THREE: [Written; 3] = [(0, 0, 1), (1, 3, 2), (2, -10, 0)];

static FOUR: [Written; 2] = [(0, 5, 1), (2, -1, 0)];

#[test]
fn points_have_bounds(rt: HostRuntime) {
    assert!(rt;
        have_bounds(
            rt.alloc(),
            3,
            &THREE,
            &[Some(0), Some(0), Some(3)],
            &[Some(0), Some(7), Some(10)]
        )
    );
    assert!(rt;
        have_bounds(
            rt.alloc(),
            4,
            &FOUR,
            &[Some(0), Some(5), None, None],
            &[Some(0), None, Some(1), None]
        )
    );
}

#[test]
fn edges_without_a_schedule_have_a_cycle(rt: HostRuntime) {
    let edges = [(0, 0, 1), (1, 3, 2), (2, -10, 0), (2, -2, 1)];
    assert!(rt; have_a_cycle(rt.alloc(), 3, edges.as_slice(), &[1, 3]));
}

/// The last of the least values.
fn last_of(values: &[Option<i64>]) -> Option<i64> {
    match values.last() {
        Some(least) => *least,
        None => None,
    }
}

/// The least value of the last point.
fn last_bound(edges: &Edges) -> Option<i64> {
    match bounds(edges) {
        Ok(found) => last_of(found.lo.as_slice()),
        Err(_) => None,
    }
}

/// The least value of the last of as many points as there may be.
fn last_of_most(alloc: Global) -> Option<i64> {
    let mut edges = Edges::new(alloc, 65_536);
    if is_added(&mut edges, (0, 5, 65_535)) {
        last_bound(&edges)
    } else {
        None
    }
}

#[test]
fn there_may_be_65536_points(rt: HostRuntime) {
    assert!(rt; last_of_most(rt.alloc()) == Some(5));
}

/// Whether the edges at the places are told to be a cycle that no schedule keeps.
fn is_cycle(alloc: Global, places: &[u32]) -> Option<bool> {
    let mut edges = Edges::new(alloc, 3);
    let list = [(0, 1, 1), (1, 2, 2), (2, -3, 0), (1, 0, 0), (2, 1, 2)];
    let added = are_added(&mut edges, list.as_slice());
    let told = check_cycle(&edges, places);
    if added { Some(told) } else { None }
}

/// Places of edges, and whether they are such a cycle.
struct Placed(&'static [u32], bool);

impl Row for Placed {
    fn holds(&self, alloc: Global) -> bool {
        is_cycle(alloc, self.0) == Some(self.1)
    }
}

static PLACES: [Placed; 9] = [
    Placed(&[0, 3], true),
    Placed(&[3, 0], true),
    Placed(&[4], true),
    Placed(&[0, 1, 2], false),
    Placed(&[0, 3, 0, 3], false),
    Placed(&[0, 1], false),
    Placed(&[3], false),
    Placed(&[], false),
    Placed(&[5], false),
];

#[test]
fn tells_cycles_from_others(rt: HostRuntime) {
    assert_rows(&rt, &PLACES);
}
