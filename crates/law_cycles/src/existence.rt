//! Laws: what can't be missing of time edges. The logic decides nothing that no code decides, so each says that the contrary isn't so.

ghost use Rattle.law_cycles.specs.Existence.{EdgesHaveCycles, DatabasesHaveEdges};

/// Time edges have times and no cycle, or none and a canonical cycle.
pub fn edges_have_cycles()
    ensures { EdgesHaveCycles }
{}

/// The list that stands in a sound database has time edges.
pub fn databases_have_edges()
    ensures { DatabasesHaveEdges }
{}
