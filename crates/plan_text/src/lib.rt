//! Plans as text: `write_plan(alloc, &model, &plan)?`. What a text is read as is defined here too, in specs/PlanTexts.
//! In come a lawful model and a plan of it, a name or a value; out go bytes. Of a text go out its words (`Cursor`).
//! Called by plan_resolve and plan_core, which read plans, by plan_report, script_lang and session_replies.
//! Knows nothing of states, and whether a plan is valid. How bytes are put together and words are cut may change.
#![tactic(auto)]

pub mod existence;
pub mod fault;
pub mod names;
pub mod statement;
pub mod subject;
pub mod value_words;
pub mod words;
pub mod writing;

pub use fault::PlanTextFault;
pub use writing::write_plan;
