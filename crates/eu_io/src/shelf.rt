//! Where files are read from.

use eu_name::bytes::Bytes;
use eu_name::text::Text;

/// A file by its name.
#[derive(Drop)]
pub struct FileEntry {
    pub name: Text,
    pub bytes: Bytes,
}

/// Why a file's bytes weren't given.
#[derive(Clone, Copy, Debug, PartialEq, Eq)]
pub enum ShelfFail {
    /// There is no file of this name.
    Absent,
    /// The file has more bytes than were allowed.
    TooLong,
    /// The call failed, and the shelf has counted it.
    Failed,
    Memory,
}

/// Named files.
pub trait Shelf {
    ghost use Rattle.std.specs.Prelude.{◌≡◌, ℕ, Bool, List, Option};
    ghost use Rattle.eu_io.specs.declared.shelf.FileEntry.{FileEntry};
    ghost use Rattle.eu_io.specs.Files.{Gets, CountsFaults, is_failed};

    /// The files with their bytes, where the shelf tells them. Of two entries of one name the first is the file.
    ghost files: { Self → Option (List FileEntry) };

    /// How many calls have failed.
    ghost faults: { Self → ℕ };

    /// Whether the last call failed.
    ghost has_failed: { Self → Bool };

    /// Gives the bytes of the file of this name, if it has at most `limit` bytes.
    fn get(&mut self, name: &str, limit: u64) -> Result<Bytes, ShelfFail>
        ensures given { Gets (files self.old) name.now limit result }
        ensures kept { files self.new ≡ files self.old }
        ensures counted { CountsFaults result (faults self.old) (faults self.new) }
        ensures last { has_failed self.new ≡ is_failed result };
}
