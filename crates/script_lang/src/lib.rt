//! A line of a script to a command, and a command to the decision that it asks for: `read_line(alloc, b"specify x 4")`.
//! The bytes of a line come in, and a `Command` or a `LineFault` goes out; `decision_asked(&indexed, &text)?` goes on from a
//! `DecisionText` to a decision or to None, and a value outside the range of values may be another such value there.
//! session_core calls it; session_replies takes from it the kinds and words of a constraint, and proves by it that its lines of
//! decisions are read back.
//! It knows nothing of the database. How words are cut and verbs recognised may change; `specs/Line` may not.
#![tactic(auto)]

pub mod arguments;
pub mod asking;
pub mod command;
pub mod command_laws;
pub mod compared;
pub mod kind_words;
pub mod laws;
pub mod line;
pub mod number;
mod numbers;
mod operands;
pub mod saying;
mod verb;
pub mod word_laws;
pub mod words;

pub use arguments::constraint_asked;
pub use asking::decision_asked;
pub use command::{ArgumentText, Command, DecisionText, LineFault};
pub use line::{LINE_LIMIT, read_line};
pub use saying::value_said;
