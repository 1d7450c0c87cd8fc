//! One file taken from the shelf and read.

ghost use Rattle.std.specs.Prelude.{◌≡◌, ◌≤◌, ◌++◌, ◌∷◌, [], IfOk, length};
ghost use Rattle.nddl_parser.specs.Limits.{most_bytes};
ghost use Rattle.nddl_parser.specs.Outcomes.{CountsReads, NoReadAfter};
ghost use Rattle.nddl_parser.specs.Includes.{includes_of};
ghost use Rattle.nddl_parser.specs.Taking.{fail_of, CountsFetch, NoFetchAfter, Fetches, HasDecls, ParsesFile, TakesFile};

use super::fault::{ReadAllFault, Refusal};
use super::include::{Ask, Include, includes_in};
use super::reader::TextReader;
use eu_io::shelf::{Shelf, ShelfFail};
use eu_name::bytes::Bytes;
use eu_name::sequence::Sequence;
use eu_name::text::Text;
use nddl_ast::declaration::{Decl, FileDecls};
use nddl_grammar::joining::{behind, joined};
use std::alloc::{AllocError, Global};

/// The most bytes that a file may have.
pub const MOST_BYTES: u64 = 1_048_576;

/// The most files that are read.
pub const MOST_FILES: usize = 64;

/// Why the bytes of a file weren't given.
#[derive(Clone, Copy)]
pub enum FetchFail {
    Refused(Refusal),
    /// The shelf's call failed, and the shelf has counted it.
    ReadFault,
    Memory,
}

impl From<ShelfFail> for FetchFail {
    ghost from_gives = { λ fail given. given ≡ fail_of fail };

    fn from(fail: ShelfFail) -> FetchFail {
        match fail {
            ShelfFail::Absent => FetchFail::Refused(Refusal::Absent),
            ShelfFail::TooLong => FetchFail::Refused(Refusal::TooLong),
            ShelfFail::Failed => FetchFail::ReadFault,
            ShelfFail::Memory => FetchFail::Memory,
        }
    }
}

/// Gives the text of this file, where as many were read before, and includes may still go as many levels deep, that of
/// this file counted.
fn fetch<F: Shelf>(
    shelf: &mut F,
    name: &str,
    count: usize,
    levels: usize,
) -> Result<Bytes, FetchFail>
    ensures fetched { Fetches (F.files shelf.old) count levels name.now result }
    ensures kept { F.files shelf.new ≡ F.files shelf.old }
    ensures counted { CountsFetch result (F.faults shelf.old) (F.faults shelf.new) }
    ensures last { NoFetchAfter result (F.has_failed shelf.new) }
{
    let text = shelf.get(name, MOST_BYTES)?;
    if count >= MOST_FILES {
        return Err(FetchFail::Refused(Refusal::TooManyFiles));
    }
    if levels == 0 {
        return Err(FetchFail::Refused(Refusal::TooDeep));
    }
    Ok(text)
}

/// The declarations of the text of this file.
fn parse<R: TextReader>(
    alloc: Global,
    reader: &R,
    name: &Text,
    text: &[u8],
) -> Result<Sequence<Decl>, ReadAllFault>
    requires { length text.now ≤ most_bytes }
    ensures { ParsesFile (R.reads reader.now) name.now text.now result }
{
    match reader.read(alloc, text) {
        Ok(decls) => Ok(decls),
        Err(fail) => Err(fail.located(name)?),
    }
}

/// The declarations of the file that is asked for, where as many were read before.
fn declarations<F: Shelf, R: TextReader>(
    alloc: Global,
    shelf: &mut F,
    reader: &R,
    ask: &Ask,
    count: usize,
    levels: usize,
) -> Result<Sequence<Decl>, ReadAllFault>
    ensures declared { HasDecls (R.reads reader.now) (F.files shelf.old) count levels ask.now result }
    ensures kept { F.files shelf.new ≡ F.files shelf.old }
    ensures counted { CountsReads result (F.faults shelf.old) (F.faults shelf.new) }
    ensures last { NoReadAfter result (F.has_failed shelf.new) }
{
    match fetch(shelf, ask.name.as_str(), count, levels) {
        Ok(text) => parse(alloc, reader, &ask.name, text.as_slice()),
        Err(FetchFail::Refused(refusal)) => Err(refusal.located(ask)?),
        Err(FetchFail::ReadFault) => Err(ReadAllFault::ReadFault),
        Err(FetchFail::Memory) => Err(ReadAllFault::Memory),
    }
}

/// The file of this name with its declarations.
fn file_of(name: &Text, decls: Sequence<Decl>) -> Result<FileDecls, AllocError>
    ensures { IfOk result (λ file. file ≡ record { name = name.now; decls = decls }) }
{
    let name = name.copy();
    let (decls, name) = joined(decls, name)?;
    Ok(FileDecls { name, decls })
}

/// Puts the file after those that were read before, and gives its includes.
fn keep(
    alloc: Global,
    read: &mut Sequence<FileDecls>,
    file: FileDecls,
) -> Result<Sequence<Include>, AllocError>
    ensures { IfOk result (λ includes. (includes ≡ includes_of file.decls) × (read.new ≡ read.old ++ file ∷ [])) }
{
    let includes = includes_in(alloc, file.decls.as_slice());
    let (file, includes) = joined(file, includes)?;
    let done = read.push(file);
    behind(done, includes)
}

/// Takes the file that is asked for, puts its declarations after those that were read before, and gives its includes.
pub fn take_file<F: Shelf, R: TextReader>(
    alloc: Global,
    shelf: &mut F,
    reader: &R,
    read: &mut Sequence<FileDecls>,
    ask: &Ask,
    levels: usize,
) -> Result<Sequence<Include>, ReadAllFault>
    ensures taken { TakesFile (R.reads reader.now) (F.files shelf.old) levels ask.now read.old read.new result }
    ensures kept { F.files shelf.new ≡ F.files shelf.old }
    ensures counted { CountsReads result (F.faults shelf.old) (F.faults shelf.new) }
    ensures last { NoReadAfter result (F.has_failed shelf.new) }
{
    let decls = declarations(alloc, shelf, reader, ask, read.len(), levels)?;
    let file = file_of(&ask.name, decls)?;
    Ok(keep(alloc, read, file)?)
}
