//! The tokens that the files post.

ghost use Rattle.std.specs.Prelude.{◌≡◌, IfOk, OnOk};
ghost use Rattle.nddl_symbols.specs.Finding.{earliest_fault};
ghost use Rattle.nddl_hierarchy.specs.Facts.{facts_of};
ghost use Rattle.nddl_problem_check.specs.Posted.{posted_token, posting_faults, token_of_owner};

use super::owners::is_owner;
use nddl_ast::TextKind;
use nddl_ast::name::Path;
use nddl_ast::statement::Ask;
use nddl_hierarchy::Basis;
use nddl_resolve::files::file_denoted;
use nddl_resolve::following::{asked_by, unknown_at, wrong_at};
use nddl_resolve::{Denoted, PathFault};
use nddl_rule_check::arguments::note_understood;
use nddl_symbols::declared::is_posting;
use nddl_symbols::{Fault, note_at};
use std::alloc::{AllocError, Global};

// The token that is posted by the path, whose first name means this.
fn token_of_owner(
    alloc: Global,
    basis: &Basis<'_>,
    path: &Path,
    owner: Denoted,
) -> Result<Result<Denoted, PathFault>, AllocError>
    ensures { IfOk result (λ found. found ≡ token_of_owner (facts_of basis.now) path.now owner) }
{
    let scope = basis.types.scope;
    if is_owner(scope, scope.meaning(&path.first.text)) {
        asked_by(alloc, basis, owner, path)
    } else {
        Ok(wrong_at(path.first.at))
    }
}

/// The token that is posted by the path, or what is wrong with it.
pub fn posted_token(
    alloc: Global,
    basis: &Basis<'_>,
    path: &Path,
) -> Result<Result<Denoted, PathFault>, AllocError>
    ensures { IfOk result (λ found. found ≡ posted_token (facts_of basis.now) path.now) }
{
    match file_denoted(alloc, basis, &path.first.text)? {
        Some(owner) => token_of_owner(alloc, basis, path, owner),
        None => Ok(unknown_at(path.first.at)),
    }
}

/// Notes what is wrong with a posted token, or with the word before it.
pub fn note_posting(
    alloc: Global,
    basis: &Basis<'_>,
    decl: usize,
    ask: &Ask,
    first: &mut Option<Fault>,
) -> Result<(), AllocError>
    ensures { OnOk result (first.new ≡ earliest_fault first.old
        (posting_faults (facts_of basis.now) decl ask.now)) }
{
    if is_posting(ask.word.text.as_str()) {
        let found = posted_token(alloc, basis, &ask.path)?;
        note_understood(decl, found, first);
    } else {
        note_at(first, decl, ask.word.at, Some(TextKind::Unknown));
    }
    Ok(())
}
