//! Objects in memory that fail for no cause but want of memory or room.

pub mod shelf;
pub mod sink;
pub mod source;
