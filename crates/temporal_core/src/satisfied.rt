//! Schedules that grow with their edges. An edge that the values don't keep raises its second point, which may raise
//! others: shortest distances by Bellman and Ford with a work list, where the work begins with one edge.

ghost use Rattle.std.specs.Prelude.{◌≢◌, ℕ, ◌+◌, ◌<◌, ◌≤◌, ℤ, pos, neg_ℤ, ◌≤ℤ◌, ◌<ℤ◌, [], ◌∷◌, ◌++◌, length, All, IfOk};
ghost use Rattle.std.specs.Prelude.{IsTrue, MatchBool, MatchOption, ⊤};
ghost use Rattle.temporal_core.specs.Network.{IsEdge};
ghost use Rattle.temporal_core.specs.Schedule.{KeepsEdge, IsSchedule};
ghost use Rattle.temporal_core.specs.Satisfied.{IsGraph, value_at, far, RaisesEnd, RaisesFrom, IsStopped, Raises};
ghost use Rattle.temporal_core.specs.Satisfied.{Exceeds};
ghost use Rattle.temporal_core.specs.Satisfied.{AreKept, AreModest, AreSatisfied, IsSatisfiedGraph, HasPositiveCycle};

use super::edges::Edge;
use super::graph::Graph;
use std::alloc::{AllocError, Global};
use std::collections::VecDeque;

/// Edges, and values of the points that keep them. The least of the values need not be the origin's.
#[derive(Drop)]
pub struct Satisfied {
    pub graph: Graph,
    pub values: Vec<i64>,
}

// Raises the point to this value if it has less; false where it is the one that may not be raised.
fn raise_end(
    values: &mut [i64],
    point: usize,
    raised: i64,
    fixed: usize,
    queue: &mut VecDeque<usize>,
) -> Result<bool, AllocError>
    requires { point < length values.old }
    ensures { IfOk result (λ done.
        RaisesEnd point raised fixed values.old queue.old.items done values.new queue.new.items) }
{
    if raised <= values[point] {
        return Ok(true);
    }
    if point == fixed {
        return Ok(false);
    }
    queue.push_back(point)?;
    values[point] = raised;
    Ok(true)
}

// Raises the second points of all edges from the point as far as the edges want.
fn raise_from(
    graph: &Graph,
    values: &mut [i64],
    point: usize,
    fixed: usize,
    queue: &mut VecDeque<usize>,
) -> Result<bool, AllocError>
    requires graph { IsGraph (length values.old) graph.now.edges.items graph.now }
    requires point { point < length values.old }
    requires modest { AreModest values.old }
    ensures { IfOk result (λ done. MatchBool done
        (RaisesFrom graph.now.edges.items (λ place. ⊤) point fixed
        values.old queue.old.items values.new queue.new.items)
        (IsStopped graph.now.edges.items point fixed values.old)) }
{
    let base = values[point];
    let mut next = graph.latest[point];
    while let Some(place) = next {
        let edge = graph.edges[place];
        let raised = base + i64::from(edge.gap);
        if !raise_end(values, edge.to as usize, raised, fixed, queue)? {
            return Ok(false);
        }
        next = graph.earlier[place];
    }
    Ok(true)
}

// Raises the start to the value, and then other points until the edges are kept again; false where one may not be
// raised.
pub fn raise(
    alloc: Global,
    graph: &Graph,
    values: &mut [i64],
    start: usize,
    value: i64,
    fixed: usize,
) -> Result<bool, AllocError>
    requires graph { IsGraph (length values.old) graph.now.edges.items graph.now }
    requires start { start < length values.old }
    requires others { start ≢ fixed }
    requires more { value_at values.old start <ℤ value }
    requires keeps { All (KeepsEdge (value_at values.old)) graph.now.edges.items }
    requires low { (point : ℕ) → neg_ℤ far ≤ℤ value_at values.old point }
    requires high { (point : ℕ) → value_at values.old point ≤ℤ far }
    requires modest { value ≤ℤ far }
    ensures { IfOk result (λ done. MatchBool done
        (Raises graph.now.edges.items start value fixed values.old values.new)
        (Exceeds graph.now.edges.items start value fixed values.old)) }
{
    values[start] = value;
    let mut queue = VecDeque::new(alloc);
    queue.push_back(start)?;
    while let Some(point) = queue.pop_front() {
        if !raise_from(graph, values, point, fixed, &mut queue)? {
            return Ok(false);
        }
    }
    Ok(true)
}

// Raises values until they keep the edge as well; false where no values can.
fn keep_too(
    alloc: Global,
    graph: &Graph,
    values: &mut [i64],
    edge: Edge,
) -> Result<bool, AllocError>
    requires graph { IsGraph (length values.old) graph.now.edges.items graph.now }
    requires values { AreKept (length values.old) graph.now.edges.items values.old }
    requires edge { IsEdge (length values.old) edge }
    ensures kept { IfOk result (λ done. MatchBool done
        (All (KeepsEdge (value_at values.new)) (graph.now.edges.items ++ edge ∷ []))
        (HasPositiveCycle (graph.now.edges.items ++ edge ∷ []))) }
    ensures satisfied { IfOk result (λ done. IsTrue done
        → AreSatisfied (length values.old) graph.now.edges.items values.old
        → AreSatisfied (length values.old) (graph.now.edges.items ++ edge ∷ []) values.new) }
{
    let from = edge.from as usize;
    let to = edge.to as usize;
    let raised = values[from] + i64::from(edge.gap);
    if raised <= values[to] {
        return Ok(true);
    }
    if from == to {
        return Ok(false);
    }
    let done = raise(alloc, graph, values, to, raised, from)?;
    Ok(done)
}

impl Satisfied {
    /// So many points, all of them at 0, without an edge.
    pub fn new(alloc: Global, points: usize) -> Result<Satisfied, AllocError>
        requires { points ≤ 65536 }
        ensures { IfOk result (IsSatisfiedGraph points []) }
    {
        Ok(Satisfied {
            graph: Graph::new(alloc, points)?,
            values: vec![in alloc; 0; points]?,
        })
    }

    /// Puts an edge at the end; false where there is no schedule with it. The values are of no use then.
    pub fn insert(&mut self, edge: Edge) -> Result<bool, AllocError>
        requires satisfied { IsSatisfiedGraph (length self.old.values.items) self.old.graph.edges.items self.old }
        requires edge { IsEdge (length self.old.values.items) edge }
        ensures { IfOk result (λ done. MatchBool done
            (IsSatisfiedGraph (length self.old.values.items) (self.old.graph.edges.items ++ edge ∷ []) self.new)
            (HasPositiveCycle (self.old.graph.edges.items ++ edge ∷ []))) }
    {
        let alloc = *self.values.allocator();
        if !keep_too(alloc, &self.graph, &mut self.values, edge)? {
            return Ok(false);
        }
        self.graph.link(edge)?;
        Ok(true)
    }

    /// Whether there are values that keep one more edge as well. It is found by raising a copy of the values.
    pub fn can_keep(&self, edge: Edge) -> Result<bool, AllocError>
        requires graph { IsGraph (length self.now.values.items) self.now.graph.edges.items self.now.graph }
        requires values { AreKept (length self.now.values.items) self.now.graph.edges.items self.now.values.items }
        requires edge { IsEdge (length self.now.values.items) edge }
        ensures { IfOk result (λ done. MatchBool done
            ((value : ℕ → ℤ) × IsSchedule (self.now.graph.edges.items ++ edge ∷ []) value)
            (HasPositiveCycle (self.now.graph.edges.items ++ edge ∷ []))) }
    {
        let alloc = *self.values.allocator();
        let mut tried = self.values.clone()?;
        let done = keep_too(alloc, &self.graph, &mut tried, edge)?;
        Ok(done)
    }
}

/// Values that keep the edges, or None where there is no schedule.
pub fn satisfy(
    alloc: Global,
    points: usize,
    edges: &[Edge],
) -> Result<Option<Satisfied>, AllocError>
    requires few { points ≤ 65536 }
    requires edges { All (IsEdge points) edges.now }
    ensures { IfOk result (λ answer.
        MatchOption answer (HasPositiveCycle edges.now) (IsSatisfiedGraph points edges.now)) }
{
    let mut satisfied = Satisfied::new(alloc, points)?;
    for edge in edges {
        if !satisfied.insert(*edge)? {
            return Ok(None);
        }
    }
    Ok(Some(satisfied))
}
