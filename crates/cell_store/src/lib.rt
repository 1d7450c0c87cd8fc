//! Domains in cells, narrowed in place by `cells.narrow(cell, &narrower, mark)?` and brought back by `cells.back_to(mark)`.
//! In come the number of a cell and a domain; out go a `Change`, a domain, a stamp, or a `Mark`.
//! Called by constraint_net, which keeps its domains here; db_store takes `short` alone, for numbers in 32 bits.
//! Knows nothing of variables, constraints, and why a domain is narrowed. What the trail keeps of each write may change.
#![tactic(auto)]

pub mod cells;
pub mod numbers;
mod steps;
mod trail;

pub use cells::{Cells, Mark};
