//! The time edges of the decisions that stand.

ghost use Rattle.std.specs.Prelude.{◌≡◌, MatchResult, Ok, Err};
ghost use Rattle.model_core.specs.Lawful.{IsLawful};
ghost use Rattle.db_history.specs.Kept.{KeepsHistory};
ghost use Rattle.plan_db.specs.Database.{taken_in};
ghost use Rattle.plan_db.specs.declared.edges.EdgeFault.TheVariants.{Memory};
ghost use Rattle.plan_db.specs.Edges.{HasEdges, HasNoEdges};

use db_edges::{NamedEdge, time_edges};
use db_history::{Footing, Standing};
use decision_log::Log;
use model_core::model::Model;
use std::alloc::AllocError;
use thiserror::Error;

/// Why no time edges are told, in the order in which the reasons are looked for.
#[derive(Clone, Copy, Debug, PartialEq, Eq, Error)]
pub enum EdgeFault {
    #[error("memory was wanting before, and the database has to be rebuilt")]
    Behind,
    #[error("the decisions leave something possible")]
    Consistent,
    #[error("out of memory")]
    Memory,
}

// The edges, or that memory is wanting.
fn or_memory(edges: Result<Vec<NamedEdge>, AllocError>) -> Result<Vec<NamedEdge>, EdgeFault>
    ensures { MatchResult edges (λ found. result ≡ Ok found) (λ _. result ≡ Err Memory) }
{
    match edges {
        Ok(edges) => Ok(edges),
        Err(_none) => Err(EdgeFault::Memory),
    }
}

/// The time edges of the decisions that stand, where what is kept isn't behind.
pub fn edges(model: &Model, log: &Log, kept: &Standing) -> Result<Vec<NamedEdge>, EdgeFault>
    requires lawful { IsLawful model.now }
    requires kept { KeepsHistory model.now log.now kept.now }
    ensures { MatchResult result (λ edges. HasEdges (taken_in model.now log.now) edges.items)
        (HasNoEdges (taken_in model.now log.now)) }
{
    match kept.footing() {
        Footing::Rest => Err(EdgeFault::Consistent),
        Footing::Fallen => or_memory(time_edges(
            log.allocator(),
            model,
            kept.store(),
            log.standing(),
        )),
        Footing::Void => Ok(Vec::new(log.allocator())),
    }
}
