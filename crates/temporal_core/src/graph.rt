//! Edges that can be gone through by the point that they begin at.

ghost use Rattle.std.specs.Prelude.{◌≡◌, ℕ, ◌<◌, List, [], ◌∷◌, ◌++◌, length, slice_set, IfOk, OnOk};
ghost use Rattle.temporal_core.specs.declared.edges.Edge.{Edge as AnEdge};
ghost use Rattle.temporal_core.specs.Network.{IsEdge};
ghost use Rattle.temporal_core.specs.Canonical.{edge_at};
ghost use Rattle.temporal_core.specs.Satisfied.{IsGraph};

use super::edges::Edge;
use std::alloc::{AllocError, Global};

/// Edges in the order in which they were linked. From each point the edge that was linked last can be found, and from
/// each edge the one from the same point that was linked before it.
#[derive(Drop)]
pub struct Graph {
    pub edges: Vec<Edge>,
    pub earlier: Vec<Option<usize>>,
    pub latest: Vec<Option<usize>>,
}

impl Graph {
    /// So many points without an edge.
    pub fn new(alloc: Global, points: usize) -> Result<Graph, AllocError>
        ensures { IfOk result (λ graph. IsGraph points [] graph) }
    {
        Ok(Graph {
            edges: Vec::new(alloc),
            earlier: Vec::new(alloc),
            latest: vec![in alloc; None; points]?,
        })
    }

    /// Puts an edge at the end. Without memory for it the graph is no longer one.
    pub fn link(&mut self, edge: Edge) -> Result<(), AllocError>
        requires { IsEdge (length self.old.latest.items) edge }
        ensures { OnOk result ((points : ℕ) (edges : List AnEdge) → IsGraph points edges self.old
            → IsGraph points (edges ++ edge ∷ []) self.new) }
    {
        let place = self.edges.len();
        let from = edge.from as usize;
        self.earlier.push(self.latest[from])?;
        self.edges.push(edge)?;
        self.latest[from] = Some(place);
        Ok(())
    }

    /// Puts another edge from the same point in the place of one.
    pub fn replace(&mut self, place: usize, edge: Edge)
        requires { place < length self.old.edges.items }
        ensures edges { self.new.edges.items ≡ slice_set self.old.edges.items place edge }
        ensures graph { (points : ℕ) → IsEdge points edge → edge.from ≡ (edge_at self.old.edges.items place).from
            → IsGraph points self.old.edges.items self.old
            → IsGraph points (slice_set self.old.edges.items place edge) self.new }
    {
        self.edges[place] = edge;
    }
}
