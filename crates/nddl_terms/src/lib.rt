//! Trees of rules, and terms of the model for what is in them: `path_stand(alloc, &reading, turns, &path, &mut growth)?`.
//! In come a `Reading` (lexicon, objects, names and places of a rule) and a path; out goes a `Stand`, and the rule grows.
//! Called by nddl_lower, nddl_unroll and nddl_instance. Trees are made by nddl_rules, and a lexicon by nddl_env.
//! Knows nothing of faults and whole statements. How attributes, predicates, types and objects are found may change.
#![tactic(auto)]

pub mod attributes;
pub mod growth;
pub mod lexicon;
pub mod names;
pub mod paths;
pub mod populations;
pub mod preds;
pub mod stands;
pub mod tree;
pub mod type_shapes;

pub use attributes::Attributes;
pub use growth::Growth;
pub use lexicon::{Attribute, ClassShape, Lexicon, PredShape, Shape};
pub use names::ReadNames;
pub use paths::path_stand;
pub use populations::Populations;
pub use preds::PredShapes;
pub use stands::{Made, Reading, Stand, TextPlaces};
pub use tree::{Meaning, ReadName, RuleTree};
pub use type_shapes::TypeShapes;
