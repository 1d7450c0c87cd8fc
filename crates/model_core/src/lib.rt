//! The compiled model of a problem as plain lists, decisions, and what a name names: `model.resolve_var(&name)?`.
//! In come a `Model` and a name or a number; out go names, rules, locals and predicates, the text of a variable's name, and copies.
//! Called by the compiler, which makes models, and by all that read them; specs/ say what is lawful, and what a state is.
//! Knows nothing of the text of a problem, and of what decisions leave possible. How names are looked up may change.
#![tactic(auto)]

pub mod class;
pub mod copy;
pub mod decision;
pub mod item;
mod kinds;
pub mod lookup;
pub mod model;
pub mod refusal;
pub mod resolve;
pub mod rule;
pub mod slot_names;
pub mod var_text;
pub mod variable;
pub mod view;
