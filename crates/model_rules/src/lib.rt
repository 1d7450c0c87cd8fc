//! Whether names and rules are well-formed: `rules::is_lawful_rule(alloc, judge)?` tells it of a rule of a predicate.
//! A rule with its predicate comes in, or a list of things with names; a truth value goes out.
//! model_lawful calls it, also for names that differ (`distinct`), forms of names (`forms`) and limits on rules
//! (`amounts::are_few`).
//! It knows nothing of texts, decisions and the whole model. How names are indexed and blocks gone through may change.
#![tactic(auto)]

pub mod amounts;
pub mod blocks;
pub mod distinct;
pub mod forms;
pub mod judge;
pub mod named;
pub mod names;
pub mod numbers;
pub mod rules;
pub mod seen;
