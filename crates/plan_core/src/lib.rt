//! Reads plans from their texts: `read_plan(alloc, &model, text)?`. It offers `write_plan` and `plan_of` at its root too.
//! In come a lawful model and a text; out goes its plan, whatever the order of lines, or the text's first fault, by place.
//! Called by plan_report; `laws` has that reading is the inverse of writing.
//! Knows nothing of the database, and whether a plan is valid. How lines are kept until all are read may change.
#![tactic(auto)]

mod gathering;
pub mod laws;
pub mod lines;
mod openings;
mod readers;
pub mod reading;

pub use lines::one_line;
pub use plan_states::plan_of;
pub use plan_text::write_plan;
pub use reading::read_plan;
