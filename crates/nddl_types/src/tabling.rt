//! The table of files with which nothing is wrong.

ghost use Rattle.std.specs.Prelude.{◌≡◌, IfOk, MatchResult};
ghost use Rattle.nddl_symbols.specs.Joined.{joined_decls};
ghost use Rattle.nddl_symbols.specs.Names.{scope_names};
ghost use Rattle.nddl_hierarchy.specs.Facts.{facts_of};
ghost use Rattle.nddl_declarations.specs.Known.{AreFacts};
ghost use Rattle.nddl_types.specs.Table.{AreEntries, HasEntries};

use super::scoped::named_of;
use super::table::{Named, TypeTable};
use crate::{Groundwork, Program, Sources, classes_of, enums_of, preds_of};
use eu_name::sequence::Sequence;
use model_core::class::{Class, Enum, Pred};
use nddl_hierarchy::Basis;
use std::alloc::{AllocError, Global};

// A table without its enums.
#[derive(Drop)]
struct Parts {
    classes: Sequence<Class>,
    preds: Sequence<Pred>,
    scope: Sequence<Named>,
}

/// The table of the files of which this is known. There is no memory for 2^32 classes or predicates.
pub fn make_table(
    alloc: Global,
    groundwork: &Groundwork<'_>,
    basis: &Basis<'_>,
) -> Result<TypeTable, AllocError>
    requires { AreFacts (scope_names (joined_decls groundwork.now)) (joined_decls groundwork.now) (facts_of basis.now) }
    ensures { IfOk result (HasEntries groundwork.now (facts_of basis.now)) }
{
    let enums = enums_of(alloc, basis.decls)?;
    let parts = make_parts(alloc, groundwork, basis, enums.as_slice());
    join_enums(enums, parts)
}

// The table of these enums and the other parts.
fn join_enums(
    enums: Sequence<Enum>,
    parts: Result<Parts, AllocError>,
) -> Result<TypeTable, AllocError>
    ensures { MatchResult parts
        (λ others. result ≡ Ok (record {
          enums = enums;
          classes = others.classes;
          preds = others.preds;
          scope = others.scope;
        }))
        (λ fault. result ≡ Err fault) }
{
    match parts {
        Ok(
            Parts {
                classes,
                preds,
                scope,
            },
        ) => Ok(TypeTable {
            enums,
            classes,
            preds,
            scope,
        }),
        Err(fault) => Err(fault),
    }
}

// The parts of the table beside these enums.
fn make_parts(
    alloc: Global,
    groundwork: &Groundwork<'_>,
    basis: &Basis<'_>,
    enums: &[Enum],
) -> Result<Parts, AllocError>
    requires { AreFacts (scope_names (joined_decls groundwork.now)) (joined_decls groundwork.now) (facts_of basis.now) }
    ensures { IfOk result (λ parts. AreEntries groundwork.now (facts_of basis.now) enums.now
        parts.classes parts.preds parts.scope) }
{
    let sources = Sources {
        basis: *basis,
        enums,
        entries: groundwork.class_entries(),
        numbers: groundwork.class_numbers(),
    };
    fill_parts(alloc, &groundwork.program(), &sources)
}

// The parts of the table that are made of these sources.
fn fill_parts(
    alloc: Global,
    program: &Program<'_>,
    sources: &Sources<'_>,
) -> Result<Parts, AllocError>
    ensures { IfOk result (λ parts. AreEntries program.now.files.now (facts_of sources.now.basis) sources.now.enums.now
        parts.classes parts.preds parts.scope) }
{
    let classes = classes_of(alloc, sources)?;
    let preds = preds_of(alloc, sources)?;
    let scope = named_of(alloc, program, sources.basis.types.scope)?;
    if classes.len() >= 4_294_967_296 || preds.len() >= 4_294_967_296 {
        return Err(AllocError);
    }
    Ok(Parts {
        classes,
        preds,
        scope,
    })
}
