//! What paths outside of rules stand for: their first names are those of the files alone.

ghost use Rattle.std.specs.Prelude.{◌≡◌, IfOk, OnOk};
ghost use Rattle.nddl_instance.specs.Outside.{front_stand, outer_path, outsides_of, scoped_stand};

use eu_index::NameIndex;
use eu_name::text::Text;
use nddl_ast::name::{Name, Path};
use nddl_symbols::builtin::builtin_number;
use nddl_terms::paths::rest_stand;
use nddl_terms::{Growth, Reading, Stand};
use std::alloc::{AllocError, Global};

/// What is known outside of rules.
#[derive(Clone, Copy)]
pub struct Outside<'a> {
    /// The classes and predicates, what the names of the files stand for, and the objects.
    pub reading: Reading<'a>,
    /// The names of the files, each with its place in the scope.
    pub scope: &'a NameIndex,
}

// What the name of the files stands for.
fn scoped_stand(outside: &Outside<'_>, name: &Text) -> Stand
    ensures { result ≡ scoped_stand (outsides_of outside.now) name.now }
{
    match outside.scope.find(name) {
        Some(place) => match outside.reading.lexicon.scope.as_slice().get(place) {
            Some(stand) => *stand,
            None => Stand::Nothing,
        },
        None => Stand::Nothing,
    }
}

/// What the name stands for at the front of a path.
pub fn front_stand(outside: &Outside<'_>, name: &Text) -> Stand
    ensures { result ≡ front_stand (outsides_of outside.now) name.now }
{
    match builtin_number(name.as_str()) {
        Some(number) => Stand::Class(number),
        None => scoped_stand(outside, name),
    }
}

/// What the path of these names stands for.
pub fn names_stand(
    alloc: Global,
    outside: &Outside<'_>,
    first: &Name,
    rest: &[Name],
    growth: &mut Growth,
) -> Result<Stand, AllocError>
    ensures grown { OnOk result (growth.new
        ≡ (outer_path (outsides_of outside.now) (record { first = first.now; rest = rest.now }) growth.old).growth) }
    ensures stand { IfOk result (λ stand. stand
        ≡ (outer_path (outsides_of outside.now) (record { first = first.now; rest = rest.now }) growth.old).stand) }
{
    let begin = front_stand(outside, &first.text);
    rest_stand(alloc, &outside.reading, begin, rest, growth)
}

/// What the path stands for.
pub fn path_stand(
    alloc: Global,
    outside: &Outside<'_>,
    path: &Path,
    growth: &mut Growth,
) -> Result<Stand, AllocError>
    ensures grown { OnOk result (growth.new ≡ (outer_path (outsides_of outside.now) path.now growth.old).growth) }
    ensures stand { IfOk result (λ stand. stand ≡ (outer_path (outsides_of outside.now) path.now growth.old).stand) }
{
    names_stand(alloc, outside, &path.first, path.rest.as_slice(), growth)
}
