//! The names of the scope of a program's files.

ghost use Rattle.std.specs.Prelude.{◌≡◌, ◌++◌, IfOk, OnOk};
ghost use Rattle.nddl_types.specs.Scoped.{named_at, named_from, named_in, named_kind};

use super::table::{Named, NamedKind};
use crate::Program;
use crate::numbers::is_first;
use eu_name::sequence::Sequence;
use nddl_ast::declaration::FileDecls;
use nddl_symbols::place::file_of;
use nddl_symbols::{Declared, Scope, Sort};
use std::alloc::{AllocError, Global};

/// The names, each where it is declared first.
pub fn named_of(
    alloc: Global,
    program: &Program<'_>,
    scope: &Scope,
) -> Result<Sequence<Named>, AllocError>
    ensures { IfOk result (λ named. named
        ≡ named_from program.now.files.now program.now.sites.now scope.now 0 scope.now) }
{
    let mut named = Sequence::new(alloc);
    let names = scope.names();
    for (number, declared) in names.iter().enumerate() {
        push_named(program, scope, number, declared, &mut named)?;
    }
    Ok(named)
}

// Puts the name of this number at the end, if nothing is declared under it before.
fn push_named(
    program: &Program<'_>,
    scope: &Scope,
    number: usize,
    declared: &Declared,
    named: &mut Sequence<Named>,
) -> Result<(), AllocError>
    ensures { OnOk result (named.new ≡ named.old
        ++ named_at program.now.files.now program.now.sites.now scope.now number declared.now) }
{
    if !is_first(scope, number, declared) {
        return Ok(());
    }
    match file_of(program.files, program.sites, declared.place) {
        Some(file) => named.push(named_in(declared, file)?),
        None => Ok(()),
    }
}

// The name with its file.
fn named_in(declared: &Declared, file: &FileDecls) -> Result<Named, AllocError>
    ensures { IfOk result (λ named. named ≡ named_in declared.now file.now) }
{
    Ok(Named {
        name: declared.name.copy()?,
        kind: named_kind(declared.sort),
        file: file.name.copy()?,
        at: declared.place.at,
    })
}

// What a name of this sort is.
fn named_kind(sort: Sort) -> NamedKind
    ensures { result ≡ named_kind sort }
{
    match sort {
        Sort::Enum(_) => NamedKind::Enum,
        Sort::Member { .. } => NamedKind::Member,
        Sort::Typedef => NamedKind::Typedef,
        Sort::Forward | Sort::Body => NamedKind::Class,
        Sort::Global => NamedKind::Global,
        Sort::Object => NamedKind::Object,
        Sort::Root => NamedKind::Root,
        Sort::Config => NamedKind::Config,
    }
}
