//! What is wrong with a plan text.

use std::alloc::AllocError;

/// Why no plan is read: what is wrong, with the place of the first word that is, or the text's length where a word is missing.
#[derive(Clone, Copy, Debug, PartialEq, Eq)]
pub enum PlanTextFault {
    /// The word breaks the form of a plan text.
    Syntax(u32),
    /// An earlier line has this name.
    Twice(u32),
    /// The model hasn't what the word names.
    Unknown(u32),
    /// There is no memory for what the plan has.
    Memory,
}

/// What is wrong with a word.
#[derive(Clone, Copy, Debug, PartialEq, Eq)]
pub enum Wrong {
    /// It breaks the form.
    Syntax,
    /// It is the name of an earlier line.
    Twice,
    /// It names nothing that the model has there.
    Unknown,
    /// Nothing: there is no memory for what it says.
    Memory,
}

impl From<AllocError> for Wrong {
    ghost use Rattle.std.specs.Prelude.{◌≡◌};
    ghost use Rattle.plan_text.specs.declared.fault.Wrong.TheVariants.{Memory};

    ghost from_gives = { λ _ wrong. wrong ≡ Memory };

    fn from(_error: AllocError) -> Wrong {
        Wrong::Memory
    }
}
