//! Names as text has them, with words and numbers for what they name.

use super::name::Step;
use super::sequence::Sequence;
use super::text::Text;
use std::alloc::AllocError;

/// A name as a text spells it: `g` and `g/0:2` name tokens, `g.start` and `g/0:2/1!3` variables of tokens, and `x`
/// and `!4` global variables. Whether there is something by that name depends on the model.
#[derive(Drop)]
pub struct NameText {
    /// The label of a root token, the name of a global variable, or `!` and the number of a global variable without
    /// a name of its own.
    pub label: Text,
    /// The steps from the root token.
    pub steps: Sequence<Step>,
    pub tail: Tail,
}

/// What a name ends with, after its steps.
#[derive(Drop)]
pub enum Tail {
    /// Nothing: the name is that of a token or of a global variable.
    None,
    /// `.` and a word: `start`, `end`, `duration`, `object` or the name of a parameter.
    Part(Text),
    /// A local variable, as `/rule!number`.
    Local { rule: u16, number: u16 },
}

/// Why no name is read.
#[derive(Clone, Copy)]
pub enum NameFault {
    /// The text spells no name.
    Syntax,
    /// There is no memory for what the name has.
    Memory,
}

impl From<AllocError> for NameFault {
    ghost use Rattle.std.specs.Prelude.{◌≡◌};
    ghost use Rattle.eu_name.specs.declared.name_text.NameFault.TheVariants.{Memory};

    ghost from_gives = { λ _ fault. fault ≡ Memory };

    fn from(_error: AllocError) -> NameFault {
        NameFault::Memory
    }
}
