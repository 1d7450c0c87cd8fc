//! The command `show`.

ghost use Rattle.std.specs.Prelude.{◌≡◌, ◌≤◌, List, Some, length, false};
ghost use Rattle.eu_io.specs.declared.shelf.FileEntry.{FileEntry};
ghost use Rattle.eu_io.specs.Faults.{counted, NoneAfter};
ghost use Rattle.eu_io.specs.Files.{file_named};
ghost use Rattle.run_commands.specs.Showing.{FailOutput, TextOutput, ShowOutput, TreeOutput};
ghost use Rattle.run_commands.specs.Printed.{AnswersAs, file_limit};
ghost use Rattle.run_commands.specs.Statuses.{is_read, is_write};

use super::content::{Content, read_content};
use crate::{Printed, RunEnd, RunFault, faulty};
use eu_io::shelf::Shelf;
use eu_name::text::Text;
use nddl_ast::declaration::Decl;
use nddl_parser::fault::TextFail;
use nddl_parser::language::Language;
use nddl_parser::reader::TextReader;
use nddl_print::print;
use std::alloc::Global;

/// The file of this name in the canonical spelling, or what is wrong with it first. Its includes aren't followed.
pub fn show<F: Shelf>(alloc: Global, shelf: &mut F, file: &Text) -> Result<Printed, RunFault>
    ensures shown { (files : List FileEntry) → F.files shelf.old ≡ Some files
        → AnswersAs (ShowOutput file.now (file_named file.now files)) result }
    ensures reads { F.faults shelf.new ≡ counted (is_read result) (F.faults shelf.old) }
    ensures last { NoneAfter (is_read result) (F.has_failed shelf.new) }
    ensures no_write { is_write result ≡ false }
{
    match read_content(alloc, shelf, file) {
        Ok(Content::Bytes(bytes)) => show_text(alloc, file, bytes.as_slice()),
        Ok(Content::Faulty(printed)) => Ok(printed),
        Err(fault) => Err(fault),
    }
}

// The text of the file in the canonical spelling, or its first fault.
fn show_text(alloc: Global, file: &Text, text: &[u8]) -> Result<Printed, RunFault>
    requires { length text.now ≤ file_limit }
    ensures shown { AnswersAs (TextOutput file.now text.now) result }
    ensures no_read { is_read result ≡ false }
    ensures no_write { is_write result ≡ false }
{
    match Language.read(alloc, text) {
        Ok(tree) => show_tree(alloc, tree.as_slice()),
        Err(fail) => show_fail(alloc, file, fail),
    }
}

// The tree, one line a declaration.
fn show_tree(alloc: Global, tree: &[Decl]) -> Result<Printed, RunFault>
    ensures shown { AnswersAs (TreeOutput tree.now) result }
    ensures no_read { is_read result ≡ false }
    ensures no_write { is_write result ≡ false }
{
    match print(alloc, tree) {
        Ok(text) => Ok(Printed {
            text,
            end: RunEnd::Done,
        }),
        Err(_none) => Err(RunFault::Memory),
    }
}

// What is wrong in the text of the file, and where.
fn show_fail(alloc: Global, file: &Text, fail: TextFail) -> Result<Printed, RunFault>
    ensures shown { AnswersAs (FailOutput fail file.now) result }
    ensures no_read { is_read result ≡ false }
    ensures no_write { is_write result ≡ false }
{
    match (fail.kind(), fail.at()) {
        (Some(kind), Some(place)) => faulty(alloc, kind, file, place),
        _ => Err(RunFault::Memory),
    }
}
