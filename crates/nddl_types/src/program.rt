//! The table of files, or what is wrong first.

ghost use Rattle.std.specs.Prelude.{IfOk};
ghost use Rattle.nddl_types.specs.Table.{TellsTypes};

use super::table::TypeTable;
use super::tabling::make_table;
use crate::{Groundwork, told};
use nddl_ast::TextFault;
use nddl_ast::declaration::FileDecls;
use nddl_declarations::first_wrong;
use std::alloc::{AllocError, Global};

/// The table of the files, which are in the order in which they were read, or what is wrong first with their names and
/// types.
pub fn types(alloc: Global, files: &[FileDecls]) -> Result<TypeTable, TextFault>
    ensures { TellsTypes files.now result }
{
    match Groundwork::of(alloc, files) {
        Ok(groundwork) => table_of(alloc, &groundwork),
        Err(_) => Err(TextFault::Memory),
    }
}

/// The table of the files of which this is known, or what is wrong first with their names and types.
pub fn table_of(alloc: Global, groundwork: &Groundwork<'_>) -> Result<TypeTable, TextFault>
    ensures { TellsTypes groundwork.now result }
{
    match find_table(alloc, groundwork) {
        Ok(answer) => answer,
        Err(_) => Err(TextFault::Memory),
    }
}

// The table, or what is wrong first, if there is memory.
fn find_table(
    alloc: Global,
    groundwork: &Groundwork<'_>,
) -> Result<Result<TypeTable, TextFault>, AllocError>
    ensures { IfOk result (TellsTypes groundwork.now) }
{
    let basis = groundwork.basis();
    match first_wrong(alloc, &basis)? {
        Some(fault) => Ok(Err(told(&groundwork.program(), fault)?)),
        None => Ok(Ok(make_table(alloc, groundwork, &basis)?)),
    }
}
