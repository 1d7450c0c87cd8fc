//! A shelf in memory that fails only for want of memory.

ghost use Rattle.std.specs.Prelude.{◌≡◌};
ghost use Rattle.std.specs.Option.{option_copied};
ghost use Rattle.eu_io.specs.Files.{file_named};

use crate::shelf::{FileEntry, Shelf, ShelfFail};
use eu_name::bytes::Bytes;
use std::marker::Model;

/// Files in memory. Of two entries of one name the first is the file.
#[derive(Drop)]
pub struct CalmShelf {
    entries: Vec<FileEntry>,
}

impl Model for CalmShelf {
    ghost use Rattle.std.specs.Prelude.{List};
    ghost use Rattle.eu_io.specs.declared.shelf.FileEntry.{FileEntry};

    ghost Value = { List FileEntry };

    ghost view = { λ inside. inside.entries.items };
}

impl CalmShelf {
    /// A shelf of these files.
    pub fn new(files: Vec<FileEntry>) -> CalmShelf
        ensures { result ≡ files.items }
    {
        CalmShelf { entries: files }
    }
}

impl Shelf for CalmShelf {
    ghost use Rattle.std.specs.Prelude.{◌≡◌, ◌≢◌, false, Some, Err};
    ghost use Rattle.eu_io.specs.Files.{Gets, CountsFaults, is_failed};
    ghost use Rattle.eu_io.specs.MemoryFiles.{HasWithin};

    ghost files = { λ shelf. Some shelf };

    ghost faults = { λ _. 0 };

    ghost has_failed = { λ _. false };

    fn get(&mut self, name: &str, limit: u64) -> Result<Bytes, ShelfFail>
        ensures given { Gets (Some self.old) name.now limit result }
        ensures kept { Some self.new ≡ Some self.old }
        ensures counted { CountsFaults result 0 0 }
        ensures last { false ≡ is_failed result }
        ensures calm { result ≢ Err ShelfFail.Failed }
        ensures memory { result ≡ Err ShelfFail.Memory → HasWithin self.old name.now limit }
    {
        let Some(bytes) = file_bytes(self.entries.as_slice(), name) else {
            return Err(ShelfFail::Absent);
        };
        if bytes.as_slice().len() as u64 > limit {
            return Err(ShelfFail::TooLong);
        }
        bytes.copy().map_err(|_| ShelfFail::Memory)
    }
}

/// The bytes of the first entry of this name.
fn file_bytes<'a>(entries: &'a [FileEntry], name: &str) -> Option<&'a Bytes>
    ensures { option_copied result ≡ file_named name.now entries.now }
{
    for entry in entries {
        if entry.name.as_str() == name {
            return Some(&entry.bytes);
        }
    }
    None
}
