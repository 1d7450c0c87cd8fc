//! The first fault of a text, as the compiler answers it.

use super::kind::TextKind;
use eu_name::text::Text;

/// Why a program has no meaning.
#[derive(Drop)]
pub enum TextFault {
    /// What is wrong first, in which file, and at which byte of it.
    At { kind: TextKind, file: Text, at: u32 },
    /// There was no memory.
    Memory,
}
