//! Files, input and output behind the traits `Shelf`, `Source` and `Sink`: `input.read(&mut buffer)` answers how many bytes
//! it put at the front.
//! A name, a buffer or a piece comes in; bytes, a count or a fault goes out, and a failed call raises `input.faults()` by
//! one.
//! Whoever touches the outside calls it: over the system (`adapters`), or in memory with calls that fail by number
//! (`memory`) or only for want of memory or room (`calm`).
//! It knows nothing of what the bytes mean. How adapters call std and how memory objects keep bytes may change.
#![tactic(auto)]

pub mod adapters;
pub mod calm;
pub mod fault;
mod fault_count;
pub mod memory;
pub mod shelf;
pub mod sink;
pub mod source;
mod store;

pub use adapters::file_shelf::FileShelf;
pub use adapters::std_sink::StdSink;
pub use adapters::std_source::StdSource;
pub use calm::shelf::CalmShelf;
pub use calm::sink::CalmSink;
pub use calm::source::CalmSource;
pub use fault::Failed;
pub use memory::shelf::MemShelf;
pub use memory::sink::MemSink;
pub use memory::source::MemSource;
pub use shelf::{FileEntry, ShelfFail};
