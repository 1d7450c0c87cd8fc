//! A problem of any size for trials of the solver: `generate(alloc, 40)?` is its text with forty goals on one timeline.
//! A number from 1 to 200 comes in; bytes of NDDL go out, exactly `generated_text`.
//! run_commands calls it, for `gen` and `try`, and tests do.
//! It knows nothing of the compiler and models. How the text is put together may change, the text may not.
#![tactic(auto)]

mod generating;

pub use generating::{GenFault, generate};
