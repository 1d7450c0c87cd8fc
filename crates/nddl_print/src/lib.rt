//! Prints a tree in its canonical spelling: `print(alloc, &decls)` of the tree of `int[0,1]x;` answers `int [ 0 1 ] x ;`.
//! In come the declarations of one file; out go the bytes, one line for each declaration, or want of memory.
//! Called by run_commands. A law says that the spelling of a tree that was read is read back as the same, up to places.
//! Knows nothing of what a name means and of other files. How the bytes are put together may change.
#![tactic(auto)]

#[tactic(auto, using(crate::proofs::Spaced::words_joined))]
mod declarations;
#[tactic(auto, using(crate::proofs::Spaced::words_joined))]
mod expressions;
pub mod laws;
#[tactic(auto, using(crate::proofs::Spaced::spaced_one))]
mod line;
#[tactic(auto, using(crate::proofs::Spaced::words_joined))]
mod lists;
pub mod printing;
#[tactic(auto, using(crate::proofs::Spaced::words_joined))]
mod statements;

pub use printing::print;
