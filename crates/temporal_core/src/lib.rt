//! Times: the least and the greatest value of each point that edges allow, `bounds(&edges)?`, or a cycle that allows none.
//! In come points and edges with gaps (`Edges`); out go `TimeBounds`, or the places of the edges of the canonical cycle.
//! Called by conflict_core, for the cycle of the time edges of decisions.
//! Knows nothing of tokens, variables, and what an edge comes from. How bounds and the canonical cycle are found may change.
#![tactic(auto)]

pub mod bounds;
mod canonical;
pub mod cycle;
pub mod edges;
mod graph;
mod satisfied;
mod thinned;

pub use bounds::{TimeBounds, TimeFault};
pub use cycle::check_cycle;
pub use edges::Edge;
