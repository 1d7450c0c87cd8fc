//! What is printed of a plan that is checked, or of the text of one: `check_text(alloc, &model, text)?`.
//! In come a lawful model and a text or a plan; out goes `Checked`, the line that is printed and whether the plan is valid.
//! Called by run_commands, which also counts the tokens of a plan by `count_lines`; europa_run cites a law.
//! Knows nothing of decisions, the database and the search. How a line is put together may change.
#![tactic(auto)]

pub mod counting;
pub mod laws;
mod naming;
pub mod texts;
pub mod verdicts;

pub use counting::{Counts, count_lines, put_counts};
pub use texts::check_text;
pub use verdicts::{Checked, check_plan};
