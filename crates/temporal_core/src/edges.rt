//! Edges between points in time, as in the simple temporal problems of Dechter, Meiri and Pearl.

ghost use Rattle.std.specs.Prelude.{◌≡◌, ◌+◌, ◌<◌, ◌≤◌, [], ◌∷◌, ◌++◌, length, OnOk, OnErr};
ghost use Rattle.temporal_core.specs.Network.{IsEdge, IsNetwork};

use std::alloc::{AllocError, Global};
use std::marker::Model;

/// Says `from + gap <= to`: the point `to` comes no sooner than `gap` after the point `from`.
/// Point 0 is the origin, whose value is 0.
#[derive(Clone, Copy, Debug)]
pub struct Edge {
    pub from: u32,
    pub to: u32,
    pub gap: i32,
}

/// A count of points, and edges between them in the order in which they were added.
#[derive(Drop)]
pub struct Edges {
    points: u32,
    edges: Vec<Edge>,
}

impl Model for Edges {
    ghost use Rattle.temporal_core.specs.Network.{TimeNetwork, IsNetwork};

    ghost Value = { TimeNetwork };

    ghost view = { λ inside. record { points = inside.points; edges = inside.edges.items } };

    ghost invariant = { λ inside. IsNetwork (record { points = inside.points; edges = inside.edges.items }) };
}

impl Edges {
    /// So many points without an edge. This takes no memory.
    pub fn new(alloc: Global, points: u32) -> Edges
        requires some { 0 < points }
        requires few { points ≤ 65536 }
        ensures { result ≡ record { points = points; edges = [] } }
    {
        Edges {
            points,
            edges: Vec::new(alloc),
        }
    }

    /// Puts an edge at the end. Without memory for it nothing changes.
    pub fn add(&mut self, edge: Edge) -> Result<(), AllocError>
        requires edge { IsEdge self.old.points edge }
        requires few { length self.old.edges + 1 < 4294967296 }
        ensures ok { OnOk result (self.new ≡ record self.old { edges = self.old.edges ++ edge ∷ [] }) }
        ensures err { OnErr result (self.new ≡ self.old) }
    {
        self.edges.push(edge)?;
        Ok(())
    }

    /// The count of points.
    pub fn points(&self) -> u32
        ensures points { result ≡ self.now.points }
        ensures network { IsNetwork self.now }
    {
        self.points
    }

    /// The edges in the order in which they were added.
    pub fn as_slice(&self) -> &[Edge]
        ensures { result.now ≡ self.now.edges }
    {
        self.edges.as_slice()
    }

    /// The allocator that the edges were made with.
    pub(crate) fn allocator(&self) -> Global {
        *self.edges.allocator()
    }
}
