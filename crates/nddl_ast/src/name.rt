//! Names and paths of names.

ghost use Rattle.std.specs.Prelude.{◌≡◌, IfOk};

use eu_name::sequence::Sequence;
use eu_name::text::Text;
use std::alloc::AllocError;

/// A word that isn't reserved.
#[derive(Drop)]
pub struct Name {
    pub text: Text,
    /// The byte of the text at which the name begins.
    pub at: u32,
}

/// Names with points between them, as `object.start`; often there is only the first.
#[derive(Drop)]
pub struct Path {
    pub first: Name,
    pub rest: Sequence<Name>,
}

impl Name {
    /// An equal name in memory of its own.
    pub fn copy(&self) -> Result<Name, AllocError>
        ensures { IfOk result (λ name. name ≡ self.now) }
    {
        Ok(Name {
            text: self.text.copy()?,
            at: self.at,
        })
    }
}
