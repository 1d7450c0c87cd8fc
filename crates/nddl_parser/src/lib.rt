//! Reads declarations, and a file with those that it includes: `read_all(alloc, &mut shelf, "rover.nddl")`.
//! In comes a shelf of files by name; out go `FileDecls` in the order of reading, or the first fault with file and byte.
//! Called by run_load; run_commands reads one text by `Language`. Over any `TextReader` there is `includes::read_all`.
//! Knows nothing of what names mean. How symbols are made and includes passed over may change.
#![tactic(auto)]

pub mod declarations;
pub mod fault;
pub mod include;
pub mod include_laws;
pub mod includes;
pub mod language;
pub mod language_laws;
mod names;
pub mod parsing;
pub mod reader;
pub mod reading;
pub mod symbols;
mod taking;
pub mod tree_laws;

pub use fault::{ReadAllFault, TextFail};
pub use language::Language;
pub use parsing::{ParseFault, parse};
pub use reader::TextReader;
pub use reading::read_all;
pub use taking::MOST_BYTES;
