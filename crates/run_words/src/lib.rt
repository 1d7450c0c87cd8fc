//! The words after the program's name to a request: `read_words(alloc, &words)?`.
//! Words come in; a `Request` with files, numbers and options goes out, or None where they are no command line.
//! europa_run calls it, and run_commands carries out what is asked for.
//! It knows nothing of files and models. How words are divided into operands and options may change.
#![tactic(auto)]

mod division;
pub mod laws;
mod number;
pub mod request;
