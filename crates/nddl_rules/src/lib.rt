//! The trees of a program's rules, or their first fault: `rules(alloc, &table, files)`.
//! In come files and their table; out goes a tree for each predicate that has a rule, with what each name means.
//! Called by nddl_problem; `put_at` and `list_at` by nddl_instance.
//! Knows nothing of objects and of the model's rules. How names are looked up (`Sight`) and trees gathered may change.
#![tactic(auto)]

pub mod answers;
pub mod blocks;
pub mod heads;
pub mod lists;
pub mod places;
pub mod preds;
pub mod reads;
pub mod scope;
pub mod sight;
pub mod sources;
pub mod stmts;
pub mod texts;
pub mod trees;
pub mod written;

pub use answers::{rules, trees_of};
pub use blocks::push_block_names;
pub use places::TextPlace;
pub use preds::{noted_preds, preds_above};
pub use sight::{Sight, SightUntil, Tally};
pub use sources::NameSources;
pub use texts::RuleTexts;
pub use trees::all_trees;
pub use written::{places_of, texts_written};
