//! The content of a single file.

ghost use Rattle.std.specs.Prelude.{◌≡◌, IfOk, List, Some, false};
ghost use Rattle.eu_io.specs.declared.shelf.FileEntry.{FileEntry};
ghost use Rattle.eu_io.specs.Faults.{counted, NoneAfter};
ghost use Rattle.eu_io.specs.Files.{file_named};
ghost use Rattle.run_commands.specs.Contents.{IsContent, IsShort, told_content};
ghost use Rattle.run_commands.specs.Statuses.{is_read, is_write};

use crate::{FILE_LIMIT, Printed, RunFault, faulty};
use eu_io::shelf::{Shelf, ShelfFail};
use eu_name::bytes::Bytes;
use eu_name::text::Text;
use nddl_ast::kind::TextKind;
use std::alloc::Global;

/// What there is under a file's name.
#[derive(Drop)]
pub enum Content {
    /// The bytes of the file.
    Bytes(Bytes),
    /// What is printed, as there is no such file, or it is too long.
    Faulty(Printed),
}

// What is printed of a file.
fn wrong(printed: Result<Printed, RunFault>) -> Result<Content, RunFault>
    ensures told { result ≡ told_content printed }
    ensures short { IfOk result IsShort }
    ensures counted { is_read result ≡ is_read printed }
    ensures written { is_write result ≡ is_write printed }
{
    match printed {
        Ok(printed) => Ok(Content::Faulty(printed)),
        Err(fault) => Err(fault),
    }
}

/// Reads the file of this name.
pub fn read_content<F: Shelf>(
    alloc: Global,
    shelf: &mut F,
    file: &Text,
) -> Result<Content, RunFault>
    ensures content { (files : List FileEntry) → F.files shelf.old ≡ Some files
        → IsContent file.now (file_named file.now files) result }
    ensures short { IfOk result IsShort }
    ensures kept { F.files shelf.new ≡ F.files shelf.old }
    ensures counted { F.faults shelf.new ≡ counted (is_read result) (F.faults shelf.old) }
    ensures last { NoneAfter (is_read result) (F.has_failed shelf.new) }
    ensures no_write { is_write result ≡ false }
{
    match shelf.get(file.as_str(), FILE_LIMIT) {
        Ok(bytes) => Ok(Content::Bytes(bytes)),
        Err(ShelfFail::Absent) => wrong(faulty(alloc, TextKind::Absent, file, 0)),
        Err(ShelfFail::TooLong) => wrong(faulty(alloc, TextKind::LimitBytes, file, 0)),
        Err(ShelfFail::Failed) => Err(RunFault::Read),
        Err(ShelfFail::Memory) => Err(RunFault::Memory),
    }
}
