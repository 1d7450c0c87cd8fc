//! Files, readers and writers of the system behind the traits. What they hold isn't told.

pub mod file_shelf;
pub mod std_sink;
pub mod std_source;
