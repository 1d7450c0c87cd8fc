//! Kinds and classes of values, variables and terms: `items::is_lawful_item(&model, &classes, scope, &item)` tells
//! whether an item may stand there.
//! A model, what is known of its classes (`Classes::of`, found once) and a scope come in; a truth value goes out.
//! model_rules and model_lawful call it.
//! It knows nothing of texts, whole rules and decisions. How the classes of a variable are found and kept may change.
#![tactic(auto)]

pub mod accesses;
pub mod arguments;
pub mod classes;
pub mod finding;
pub mod items;
pub mod joining;
pub mod kinds;
pub mod line;
pub mod lines;
pub mod scope;
pub mod table;
pub mod terms;
pub mod values;
