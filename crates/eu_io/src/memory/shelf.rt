//! A shelf in memory that fails where it is told to.

ghost use Rattle.std.specs.Prelude.{◌≡◌};
ghost use Rattle.eu_io.specs.Faults.{no_faults};

use super::calls::Calls;
use crate::calm::shelf::CalmShelf;
use crate::shelf::{FileEntry, Shelf, ShelfFail};
use eu_name::bytes::Bytes;
use std::marker::Model;

/// A shelf as `CalmShelf`, of which the calls fail that it names. They are counted from 1.
#[derive(Drop)]
pub struct MemShelf {
    calm: CalmShelf,
    calls: Calls,
}

impl Model for MemShelf {
    ghost use Rattle.eu_io.specs.MemoryFiles.{MemShelfState};

    ghost Value = { MemShelfState };

    ghost view = { λ inside. record { entries = inside.calm; calls = inside.calls } };
}

impl MemShelf {
    /// A shelf of these files, which was not called yet.
    pub fn new(files: Vec<FileEntry>, fails: Vec<u64>) -> MemShelf
        ensures entries { result.entries ≡ files.items }
        ensures calls { result.calls ≡ record { fails = fails.items; made = 0; faults = no_faults } }
    {
        MemShelf {
            calm: CalmShelf::new(files),
            calls: Calls::new(fails),
        }
    }

    /// How many calls have failed.
    pub fn faults(&self) -> u64
        ensures { result ≡ self.now.calls.faults.count }
    {
        self.calls.faults()
    }
}

impl Shelf for MemShelf {
    ghost use Rattle.std.specs.Prelude.{◌≡◌, Some, Err, IsTrue, ◌↔◌, nat_eq};
    ghost use Rattle.eu_io.specs.Files.{Gets, CountsFaults, is_failed};
    ghost use Rattle.eu_io.specs.Memory.{fails_next, after_call};
    ghost use Rattle.eu_io.specs.MemoryFiles.{HasWithin};

    ghost files = { λ shelf. Some shelf.entries };

    ghost faults = { λ shelf. shelf.calls.faults.count };

    ghost has_failed = { λ shelf. shelf.calls.faults.last };

    fn get(&mut self, name: &str, limit: u64) -> Result<Bytes, ShelfFail>
        ensures given { Gets (Some self.old.entries) name.now limit result }
        ensures kept { Some self.new.entries ≡ Some self.old.entries }
        ensures counted { CountsFaults result self.old.calls.faults.count self.new.calls.faults.count }
        ensures last { self.new.calls.faults.last ≡ is_failed result }
        ensures fails { (result ≡ Err ShelfFail.Failed) ↔ IsTrue (fails_next self.old.calls) }
        ensures memory { result ≡ Err ShelfFail.Memory → HasWithin self.old.entries name.now limit }
        ensures calls { self.new.calls ≡ after_call self.old.calls (fails_next self.old.calls) }
    {
        if self.calls.count() {
            return Err(ShelfFail::Failed);
        }
        self.calm.get(name, limit)
    }
}
