//! The parts of a path.

ghost use Rattle.std.specs.Prelude.{◌≡◌, MatchOption, Some, None};
ghost use Rattle.nddl_ast.specs.Path.{last_name, path_before};

use crate::name::{Name, Path};

/// The last name of the path, which is the first where there is no other.
pub fn last(path: &Path) -> &Name
    ensures { result.now ≡ last_name path.now }
{
    match path.rest.as_slice().split_last() {
        Some((name, _)) => name,
        None => &path.first,
    }
}

/// What stands between the first name and the last one, and so the path before the last name without its own first
/// name. There is none where there is only one name.
pub fn front(path: &Path) -> Option<&[Name]>
    ensures { MatchOption result (path_before path.now ≡ None)
        (λ rest. path_before path.now ≡ Some (record { first = path.now.first; rest = rest.now })) }
{
    match path.rest.as_slice().split_last() {
        Some((_, rest)) => Some(rest),
        None => None,
    }
}
