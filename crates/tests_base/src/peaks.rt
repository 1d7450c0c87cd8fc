//! Greatest sums by hand.

ghost use Rattle.std.specs.Prelude.{◌<◌, ◌≤◌, ◌↔◌, All, IsTrue};
ghost use Rattle.flow_envelope.specs.Peak.{IsChange};

use super::rows::{Row, assert_rows};
use super::times::{Written, are_added};
use flow_envelope::peak::peak;
use flow_envelope::{Amount, PeakFault, PeakProof, PointChange};
use std::alloc::Global;
use temporal_core::edges::Edges;

/// Whether the change is at one of so many points, and adds or takes a million at most.
fn is_change(points: u32, change: &PointChange) -> bool
    ensures { IsTrue result ↔ IsChange points change.now }
{
    change.point < points && change.add >= -1_000_000 && change.add <= 1_000_000
}

/// Whether all of them are.
fn are_changes(points: u32, changes: &[PointChange]) -> bool
    ensures { IsTrue result ↔ All (IsChange points) changes.now }
{
    changes.iter().all(|change| is_change(points, change))
}

/// The value of the point.
fn value_of(values: &[i64], point: u32) -> i64 {
    match values.get(point as usize) {
        Some(value) => *value,
        None => i64::MAX,
    }
}

/// The sum of what has happened by the instant.
fn sum_of(values: &[i64], changes: &[PointChange], at: i32) -> i64 {
    let mut sum: i64 = 0;
    for change in changes {
        if value_of(values, change.point) <= i64::from(at) {
            sum = sum.wrapping_add(i64::from(change.add));
        }
    }
    sum
}

/// Whether the values keep all edges.
fn keep_all(values: &[i64], list: &[Written]) -> bool {
    for (from, gap, to) in list {
        if value_of(values, *from).wrapping_add(i64::from(*gap)) > value_of(values, *to) {
            return false;
        }
    }
    true
}

/// From a change to another one, so much.
type Flowing = (u32, u32, i64);

fn is_cut(found: &[Amount], cut: &[Flowing]) -> bool {
    if found.len() != cut.len() {
        return false;
    }
    for (amount, flowing) in found.iter().zip(cut) {
        if amount.from != flowing.0 || amount.to != flowing.1 || amount.amount != flowing.2 {
            return false;
        }
    }
    true
}

/// A network with changes, and the greatest sum with its cut; no sum where there is no schedule.
struct Summed {
    points: u32,
    edges: &'static [Written],
    changes: &'static [PointChange],
    at: i32,
    sum: Option<i64>,
    cut: &'static [Flowing],
}

/// Whether the sum and the cut are those of the row, and the schedule is one with this sum.
fn is_told(found: &PeakProof, row: &Summed) -> bool {
    let values = found.schedule.as_slice();
    if row.sum != Some(found.sum)
        || values.len() != row.points as usize
        || value_of(values, 0) != 0
    {
        return false;
    }
    if !keep_all(values, row.edges) || sum_of(values, row.changes, row.at) != found.sum {
        return false;
    }
    is_cut(found.cut.as_slice(), row.cut)
}

fn is_answered(alloc: Global, edges: &Edges, row: &Summed) -> bool {
    if row.changes.len() > 1024 || row.at < -1_000_000 || row.at > 1_000_000 {
        return false;
    }
    if !are_changes(edges.points(), row.changes) {
        return false;
    }
    match peak(alloc, edges, row.changes, row.at) {
        Ok(found) => is_told(&found, row),
        Err(PeakFault::Cycle) => row.sum.is_none(),
        Err(PeakFault::Memory) => false,
    }
}

fn is_summed(alloc: Global, points: u32, row: &Summed) -> bool
    requires some { 0 < points }
    requires few { points ≤ 65536 }
{
    let mut edges = Edges::new(alloc, points);
    are_added(&mut edges, row.edges) && is_answered(alloc, &edges, row)
}

impl Row for Summed {
    fn holds(&self, alloc: Global) -> bool {
        let points = self.points;
        if points == 0 || points > 65_536 {
            return false;
        }
        is_summed(alloc, points, self)
    }
}

static SUMS: [Summed; 9] = [
    // Nothing changes.
    Summed {
        points: 2,
        edges: &[(0, 0, 1)],
        changes: &[],
        at: 3,
        sum: Some(0),
        cut: &[],
    },
    // The one that takes 4 comes before the one that adds 6: wherever these 6 are there, 4 of them are gone.
    Summed {
        points: 3,
        edges: &[(0, 0, 1), (1, -10, 0), (0, 0, 2), (2, -10, 0), (2, 0, 1)],
        changes: &[
            PointChange { point: 1, add: 6 },
            PointChange { point: 2, add: -4 },
        ],
        at: 3,
        sum: Some(2),
        cut: &[(0, 1, 4)],
    },
    // Without an order the one that takes can wait.
    Summed {
        points: 3,
        edges: &[(0, 0, 1), (1, -10, 0), (0, 0, 2), (2, -10, 0)],
        changes: &[
            PointChange { point: 1, add: 6 },
            PointChange { point: 2, add: -4 },
        ],
        at: 3,
        sum: Some(6),
        cut: &[],
    },
    // All of it has happened by the instant.
    Summed {
        points: 3,
        edges: &[(0, 0, 1), (1, -2, 0), (0, 0, 2), (2, -2, 0)],
        changes: &[
            PointChange { point: 1, add: 6 },
            PointChange { point: 2, add: -4 },
        ],
        at: 3,
        sum: Some(2),
        cut: &[],
    },
    // None of it has.
    Summed {
        points: 3,
        edges: &[(0, 4, 1), (0, 4, 2)],
        changes: &[
            PointChange { point: 1, add: 6 },
            PointChange { point: 2, add: -4 },
        ],
        at: 3,
        sum: Some(0),
        cut: &[],
    },
    // What only takes can wait, but for what has to have happened.
    Summed {
        points: 3,
        edges: &[(0, 0, 1), (0, 0, 2), (2, -3, 0)],
        changes: &[
            PointChange { point: 1, add: -6 },
            PointChange { point: 2, add: -4 },
        ],
        at: 3,
        sum: Some(-4),
        cut: &[],
    },
    // A circle has no schedule.
    Summed {
        points: 3,
        edges: &[(0, 0, 1), (1, 3, 2), (2, -2, 1)],
        changes: &[PointChange { point: 1, add: 6 }],
        at: 3,
        sum: None,
        cut: &[],
    },
    // The first one that adds needs both that take, the second only the first: 5 and 2 add less than 4 and 3 take, so
    // neither is worth it.
    Summed {
        points: 5,
        edges: &[(3, 0, 1), (4, 0, 1), (3, 0, 2)],
        changes: &[
            PointChange { point: 1, add: 5 },
            PointChange { point: 2, add: 2 },
            PointChange { point: 3, add: -4 },
            PointChange { point: 4, add: -3 },
        ],
        at: 0,
        sum: Some(0),
        cut: &[(0, 2, 2), (0, 3, 3), (1, 2, 2)],
    },
    // Points without bounds, of which one comes long after another.
    Summed {
        points: 3,
        edges: &[(1, 1_000_000, 2)],
        changes: &[
            PointChange { point: 1, add: -1 },
            PointChange { point: 2, add: 7 },
        ],
        at: -1_000_000,
        sum: Some(6),
        cut: &[(1, 0, 1)],
    },
];

#[test]
fn sums_are_the_greatest(rt: HostRuntime) {
    assert_rows(&rt, &SUMS);
}
