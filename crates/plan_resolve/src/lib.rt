//! What words say of a model, in plan texts and scripts: `judge_value(&model, kind, b"4")?`, where `model` has an index.
//! In come a model with its index (`ModelIndex`) and a word or a name; out goes what it says, or what is wrong with it.
//! Called by plan_core for the words of a plan text, and by script_lang and session_core for those of a command.
//! Knows nothing of lines, plans and states. How names are found may change: to contracts an `IndexedModel` is its model.
#![tactic(auto)]

pub mod indexed;
pub mod resolving;
pub mod subjects;
pub mod values;
mod word_index;
