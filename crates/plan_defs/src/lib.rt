//! What decisions leave possible, and which plans are valid: definitions in specs/, and laws, as `laws::least_is_one()`.
//! Nothing runs: models, decisions, states and plans are spoken of. A `Plan` is data, and so are `Clause` and `Place`.
//! Cited by contracts and proofs of the database, the search, the checker and the program, by the laws and by the examples.
//! Knows nothing of any data structure of the database, and of how a state is found. Proofs may change, definitions may not.
#![tactic(auto)]

pub mod laws;
pub mod plan;

pub use plan::{Clause, Line, Place, Plan};
