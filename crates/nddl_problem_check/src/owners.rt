//! What names of the files are, as far as the text of a problem asks for it, and what paths of them mean.

ghost use Rattle.std.specs.Prelude.{◌≡◌, IfOk};
ghost use Rattle.nddl_hierarchy.specs.Facts.{facts_of};
ghost use Rattle.nddl_resolve.specs.Paths.{around_of};
ghost use Rattle.nddl_symbols.specs.Names.{is_root_sort};
ghost use Rattle.nddl_problem_check.specs.Acts.{file_path_denoted, is_label_meaning, nothing_around};
ghost use Rattle.nddl_problem_check.specs.Posted.{is_owner, is_owner_sort};

use nddl_ast::name::Name;
use nddl_constructors::formals::around_formals;
use nddl_hierarchy::Basis;
use nddl_resolve::files::file_denoted;
use nddl_resolve::following::{rest_denoted, unknown_at};
use nddl_resolve::{Around, Denoted, PathFault};
use nddl_symbols::{Meaning, Scope, Sort};
use std::alloc::{AllocError, Global};

fn is_owner_sort(sort: Sort) -> bool
    ensures { result ≡ is_owner_sort sort }
{
    match sort {
        Sort::Object | Sort::Forward | Sort::Body => true,
        _ => false,
    }
}

/// Whether this is an object or a class.
pub fn is_owner(scope: &Scope, meaning: Option<Meaning>) -> bool
    ensures { result ≡ is_owner scope.now meaning }
{
    match meaning {
        None => false,
        Some(Meaning::BuiltIn(_)) => true,
        Some(Meaning::Entry(entry)) => match scope.names().get(entry) {
            Some(declared) => is_owner_sort(declared.sort),
            None => false,
        },
    }
}

fn is_root_sort(sort: Sort) -> bool
    ensures { result ≡ is_root_sort sort }
{
    match sort {
        Sort::Root => true,
        _ => false,
    }
}

/// Whether this is a posted token.
pub fn is_label_meaning(scope: &Scope, meaning: Option<Meaning>) -> bool
    ensures { result ≡ is_label_meaning scope.now meaning }
{
    match meaning {
        Some(Meaning::Entry(entry)) => match scope.names().get(entry) {
            Some(declared) => is_root_sort(declared.sort),
            None => false,
        },
        _ => false,
    }
}

/// What is seen outside of rules and constructors, beside the names of the files: nothing.
pub fn nothing_around() -> Around<'static>
    ensures { around_of result ≡ nothing_around }
{
    around_formals(None)
}

/// What the path of these names means outside of rules and constructors.
pub fn file_path_denoted(
    alloc: Global,
    basis: &Basis<'_>,
    first: &Name,
    names: &[Name],
) -> Result<Result<Denoted, PathFault>, AllocError>
    ensures { IfOk result (λ found. found
        ≡ file_path_denoted (facts_of basis.now) (record { first = first.now; rest = names.now })) }
{
    match file_denoted(alloc, basis, &first.text)? {
        Some(begin) => rest_denoted(alloc, basis, first.at, begin, names),
        None => Ok(unknown_at(first.at)),
    }
}
