//! The first fault of a program's rules: `first_rule_wrong(alloc, &basis)?`.
//! In come a `Basis` and the statements of rules; out goes the earliest fault. `note_constraint` checks one constraint.
//! Called by nddl_rules and, for constraints outside of rules, nddl_problem_check; `constraint_named` by later stages.
//! Knows nothing of terms, trees of rules and objects. The walk over blocks, and `Visible`, may change.
#![tactic(auto)]

pub mod arguments;
pub mod asked;
pub mod blocks;
pub mod calls;
pub mod rules;
pub mod slots;
pub mod types;
pub mod values;
pub mod visible;
pub mod words;

pub use arguments::{note_argument, note_condition, note_constraint, note_init};
pub use asked::Asked;
pub use blocks::note_block;
pub use calls::{note_body_call, note_rule_call};
pub use rules::first_rule_wrong;
pub use slots::{labelled_slot, note_ask};
pub use types::note_local_type;
pub use visible::Visible;
pub use words::{constraint_named, relation_named};
