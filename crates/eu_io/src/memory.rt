//! Objects in memory whose calls fail where they are told to.

mod calls;
pub mod shelf;
pub mod sink;
pub mod source;
