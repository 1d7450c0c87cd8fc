//! What is asked of files, and what is answered, in words. One function reads them for all that is asked, since each that reads
//! is proved for all that the trees of files have to let go.

ghost use Rattle.nddl_laws.specs.Given.{AreGiven};

use super::rules::copy_words;
use super::scopes::names_words;
use super::sites::site_words;
use super::tables::table_words;
use super::trees::rules_words;
use nddl_ast::TextFault;
use nddl_ast::declaration::FileDecls;
use nddl_parser::read_all;
use nddl_problem::compile;
use nddl_types::{TypeTable, types};
use std::alloc::{AllocError, Global};
use tests_samples::shelves::shelf_of;

/// What is asked of files.
#[derive(Clone, Copy)]
pub enum Sought {
    /// What is wrong first with their names and types.
    Fault,
    /// Their table.
    Table,
    /// What is wrong first with their rules, or the trees of these.
    Trees,
    /// What is wrong first with the whole program.
    Program,
    /// The joined declarations.
    Sites,
    /// The names that the first file declares.
    Names,
    /// Whether a copy of the rule that is the first declaration is the same.
    Copy,
}

/// The kind, the file and the place of what is wrong first.
pub fn fault_words(alloc: Global, fault: &TextFault) -> Result<String, AllocError> {
    match fault {
        TextFault::At { kind, file, at } => {
            format!(in alloc; "{} {} {at}", kind.word(), file.as_str())
        }
        TextFault::Memory => Err(AllocError),
    }
}

/// What is asked of files that have this table.
fn answer_over(
    alloc: Global,
    table: &TypeTable,
    files: &[FileDecls],
    sought: Sought,
) -> Result<String, AllocError> {
    match sought {
        Sought::Table => table_words(alloc, table),
        Sought::Trees => rules_words(alloc, table, files),
        _ => String::from_str(alloc, "fine"),
    }
}

/// The first fault of names and types, or else what is asked.
fn answer_typed(alloc: Global, files: &[FileDecls], sought: Sought) -> Result<String, AllocError> {
    match types(alloc, files) {
        Ok(table) => answer_over(alloc, &table, files, sought),
        Err(fault) => fault_words(alloc, &fault),
    }
}

/// What is wrong first with the files.
fn program_words(alloc: Global, files: &[FileDecls]) -> Result<String, AllocError>
    requires { AreGiven files.now }
{
    match compile(alloc, files) {
        Ok(_) => String::from_str(alloc, "fine"),
        Err(fault) => fault_words(alloc, &fault),
    }
}

/// What is asked of the files.
fn answer(alloc: Global, files: &[FileDecls], sought: Sought) -> Result<String, AllocError>
    requires { AreGiven files.now }
{
    match sought {
        Sought::Program => program_words(alloc, files),
        Sought::Sites => site_words(alloc, files),
        Sought::Names => names_words(alloc, files),
        Sought::Copy => copy_words(alloc, files),
        _ => answer_typed(alloc, files, sought),
    }
}

/// What is asked of the file `m` of the first text, beside a file `q` of the second, and a file `r` that includes `m`.
#[tactic(auto, using(crate::proofs::Given::read_given))]
pub fn told<'a>(
    alloc: Global,
    sought: Sought,
    text: &'a str,
    other: &'a str,
) -> Result<String, AllocError> {
    let named = [("m", text), ("q", other), ("r", "int c; #include \"m\"")];
    let mut files = shelf_of(alloc, &named)?;
    match read_all(alloc, &mut files, "m") {
        Ok(read) => answer(alloc, read.as_slice(), sought),
        Err(_) => String::from_str(alloc, "not read"),
    }
}
