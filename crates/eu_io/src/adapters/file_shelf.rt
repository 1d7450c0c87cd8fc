//! The files of the system as a shelf.

ghost use Rattle.std.specs.Prelude.{◌≡◌, ◌≢◌, ◌↔◌, ◌≤◌, length, IfOk};
ghost use Rattle.std.specs.IoError.{error_kind};
ghost use Rattle.eu_io.specs.Faults.{no_faults};

use crate::fault_count::FaultCount;
use crate::shelf::{Shelf, ShelfFail};
use eu_name::bytes::Bytes;
use std::io::{ErrorKind, Read};
use std::marker::Model;
use std::rt::Files;
use std::{fs, io};

/// The files that a runtime reaches, whose names are paths. It tells nothing of them.
#[derive(Drop)]
pub struct FileShelf<R: Files + AllocGlobal> {
    runtime: R,
    faults: FaultCount,
}

impl<R: Files + AllocGlobal> Model for FileShelf<R> {
    ghost use Rattle.eu_io.specs.Faults.{FaultState};

    ghost Value = { FaultState };

    ghost view = { λ inside. inside.faults };
}

impl<R: Files + AllocGlobal> FileShelf<R> {
    /// A shelf over this runtime, or over a reference to one. No call has failed yet.
    pub fn new(runtime: R) -> FileShelf<R>
        ensures { result ≡ no_faults }
    {
        FileShelf {
            runtime,
            faults: FaultCount::new(),
        }
    }

    /// How many calls have failed.
    pub fn faults(&self) -> u64
        ensures { result ≡ self.now.count }
    {
        self.faults.get()
    }
}

impl<R: Files + AllocGlobal> Shelf for FileShelf<R> {
    ghost use Rattle.std.specs.Prelude.{◌≡◌, None};
    ghost use Rattle.eu_io.specs.Files.{Gets, CountsFaults, is_failed};

    ghost files = { λ _. None };

    ghost faults = { λ shelf. shelf.count };

    ghost has_failed = { λ shelf. shelf.last };

    #[tactic(auto, using(crate::proofs::Untold::untold_gets))]
    fn get(&mut self, name: &str, limit: u64) -> Result<Bytes, ShelfFail>
        ensures given { Gets None name.now limit result }
        ensures counted { CountsFaults result self.old.count self.new.count }
        ensures last { self.new.last ≡ is_failed result }
    {
        let answer = read_file(&self.runtime, name, limit);
        self.faults.note(matches!(answer, Err(ShelfFail::Failed)));
        answer
    }
}

/// The bytes of the file at this path, of which at most one more than `limit` are read.
fn read_file<R: Files + AllocGlobal>(
    runtime: &R,
    path: &str,
    limit: u64,
) -> Result<Bytes, ShelfFail>
    ensures { IfOk result (λ bytes. length bytes ≤ limit) }
{
    let file = fs::open(runtime, path).map_err(|error| open_fail(&error))?;
    let mut bytes = Vec::new(runtime.alloc());
    let mut front = file.take(limit.saturating_add(1));
    front
        .read_to_end(&mut bytes)
        .map_err(|error| read_fail(&error))?;
    if bytes.len() as u64 > limit {
        return Err(ShelfFail::TooLong);
    }
    Ok(Bytes::from_vec(bytes))
}

/// Why a file wasn't opened.
fn open_fail(error: &io::Error) -> ShelfFail
    ensures absent { (result ≡ ShelfFail.Absent) ↔ (error_kind error.now ≡ ErrorKind.NotFound) }
    ensures memory { (result ≡ ShelfFail.Memory) ↔ (error_kind error.now ≡ ErrorKind.OutOfMemory) }
    ensures not_read { result ≢ ShelfFail.TooLong }
{
    match error.kind() {
        ErrorKind::NotFound => ShelfFail::Absent,
        _ => read_fail(error),
    }
}

/// Why a file wasn't read.
fn read_fail(error: &io::Error) -> ShelfFail
    ensures memory { (result ≡ ShelfFail.Memory) ↔ (error_kind error.now ≡ ErrorKind.OutOfMemory) }
    ensures opened { result ≢ ShelfFail.Absent }
    ensures not_longer { result ≢ ShelfFail.TooLong }
{
    match error.kind() {
        ErrorKind::OutOfMemory => ShelfFail::Memory,
        _ => ShelfFail::Failed,
    }
}
