//! Texts, bytes and lists as contracts see them, and the names of tokens and variables: `read_name(alloc, b"g/0:2.start")?`.
//! In come bytes; out goes a `NameText` or a `NameFault`, and `write_name(alloc, &name)?` gives the bytes back.
//! Called by nearly all crates, also for the types `Text`, `Bytes`, `Sequence`, `TokenName` and `VarName`.
//! Knows nothing of models, and whether there is what a name names. How texts are gone through may change.
#![tactic(auto)]

pub mod bytes;
pub mod laws;
pub mod name;
pub mod name_order;
pub mod name_text;
pub mod reading;
pub mod sequence;
pub mod text;
pub mod word;
pub mod writing;

pub use name::{Part, Step, TokenName, VarName};
pub use name_order::{order, var_order};
pub use name_text::{NameFault, NameText, Tail};
pub use reading::read_name;
pub use word::{is_name, is_word};
pub use writing::write_name;
