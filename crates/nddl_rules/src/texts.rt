//! Where rules are read.

use eu_index::NameIndex;
use nddl_ast::declaration::{Decl, FileDecls};
use nddl_symbols::Site;

/// Files, the sites of their joined declarations, and those, with the names of their scope.
#[derive(Clone, Copy)]
pub struct RuleTexts<'a> {
    pub files: &'a [FileDecls],
    pub sites: &'a [Site],
    pub decls: &'a [&'a Decl],
    /// Each with its place there.
    pub scope: &'a NameIndex,
}
