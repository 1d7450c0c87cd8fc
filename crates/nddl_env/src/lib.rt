//! What classes, predicates, types and names stand for once objects are made: `lexicon(alloc, &premises)?`.
//! In come the facts, the enums and the objects (`Premises`); out goes a `Lexicon` of nddl_terms.
//! Called by nddl_problem; `shape_with` by nddl_instance.
//! Knows nothing of trees of rules and faults. Which typedefs share a shape, and how objects are listed, may change.
#![tactic(auto)]

pub mod alike;
pub mod attributes;
pub mod classes;
pub mod ending;
pub mod filling;
pub mod listing;
pub mod names;
pub mod objects;
pub mod predicates;
pub mod premises;
pub mod shapes;
pub mod typedefs;
pub mod types;

pub use filling::lexicon;
pub use listing::objects_by_class;
pub use premises::Premises;
