//! Names that the text of a rule doesn't declare.

use eu_index::NameIndex;
use model_core::variable::VarDecl;

/// Where they come from.
#[derive(Clone, Copy)]
pub struct NameSources<'a> {
    /// The names of the scope of the files, each with its place there.
    pub scope: &'a NameIndex,
    /// The parameters of the predicate.
    pub params: &'a [VarDecl],
}
