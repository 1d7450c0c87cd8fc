//! The faults of the problem, first those that need no object: `note_problem_texts(alloc, basis, &mut first)?`.
//! In come a `Basis` and, for `note_problem_limits`, the objects and the lexicon; out goes the earliest fault.
//! Called by nddl_problem.
//! Knows nothing of limits on rules, and of how the problem is made. All behind the two calls may change.
#![tactic(auto)]

pub mod acts;
pub mod decisions;
pub mod fitness;
pub mod limits;
pub mod made;
pub mod owners;
pub mod posted;
pub mod posts;
pub mod roots;
pub mod sound;
pub mod texts;

pub use acts::{Act, WrittenAct, act_named};
pub use limits::note_problem_limits;
pub use texts::note_problem_texts;
