//! A file and those that it includes, each after the one that includes it.

ghost use Rattle.std.specs.Prelude.{◌≡◌};
ghost use Rattle.nddl_parser.specs.Outcomes.{CountsReads, NoReadAfter, TellsOutcome};
ghost use Rattle.nddl_parser.specs.Visits.{ComesOf, FollowsIncludes, Visits, ReadsAll};

use super::fault::ReadAllFault;
use super::include::{Ask, Include};
use super::names::{ask_of, is_skipped};
use super::reader::TextReader;
use super::taking::take_file;
use eu_io::shelf::Shelf;
use eu_name::sequence::Sequence;
use eu_name::text::Text;
use nddl_ast::declaration::FileDecls;
use std::alloc::Global;

/// How deep includes may go. The file that is asked for first is 0 deep.
pub const DEEPEST: usize = 8;

/// Reads the file of this name to its end, and then each of its includes in their order, with the includes of an
/// included file before the next one. Gives the files as they were read, that of this name first, or the fault that was
/// met first. An include is passed over where it has the name of a file that was read, byte by byte, or is
/// `Plasma.nddl` or `PlannerConfig.nddl`, for which nothing need be declared.
pub fn read_all<F: Shelf, R: TextReader>(
    alloc: Global,
    shelf: &mut F,
    reader: &R,
    name: &str,
) -> Result<Sequence<FileDecls>, ReadAllFault>
    ensures told { TellsOutcome (ReadsAll (R.reads reader.now) (F.files shelf.old) name.now) result }
    ensures kept { F.files shelf.new ≡ F.files shelf.old }
    ensures counted { CountsReads result (F.faults shelf.old) (F.faults shelf.new) }
    ensures last { NoReadAfter result (F.has_failed shelf.new) }
{
    let ask = Ask {
        name: Text::from_str(alloc, name)?,
        file: Text::from_str(alloc, name)?,
        at: 0,
    };
    let before = Sequence::new(alloc);
    visit(alloc, shelf, reader, before, &ask, DEEPEST + 1)
}

/// Reads the file that is asked for and its includes, after what was read before.
#[cycle(visit)]
fn visit<F: Shelf, R: TextReader>(
    alloc: Global,
    shelf: &mut F,
    reader: &R,
    before: Sequence<FileDecls>,
    ask: &Ask,
    levels: usize,
) -> Result<Sequence<FileDecls>, ReadAllFault>
    ensures told { TellsOutcome (Visits (R.reads reader.now) (F.files shelf.old) levels ask.now before) result }
    ensures kept { F.files shelf.new ≡ F.files shelf.old }
    ensures counted { CountsReads result (F.faults shelf.old) (F.faults shelf.new) }
    ensures last { NoReadAfter result (F.has_failed shelf.new) }
{
    let mut read = before;
    let includes = take_file(alloc, shelf, reader, &mut read, ask, levels)?;
    follow(
        alloc,
        shelf,
        reader,
        read,
        &ask.name,
        includes.as_slice(),
        levels - 1,
    )
}

/// Reads what the includes of the file ask for, one after another, after what was read before.
#[cycle(visit)]
fn follow<F: Shelf, R: TextReader>(
    alloc: Global,
    shelf: &mut F,
    reader: &R,
    before: Sequence<FileDecls>,
    file: &Text,
    includes: &[Include],
    levels: usize,
) -> Result<Sequence<FileDecls>, ReadAllFault>
    ensures told { TellsOutcome
        (FollowsIncludes (Visits (R.reads reader.now) (F.files shelf.old) levels) file.now includes.now before) result }
    ensures kept { F.files shelf.new ≡ F.files shelf.old }
    ensures counted { CountsReads result (F.faults shelf.old) (F.faults shelf.new) }
    ensures last { NoReadAfter result (F.has_failed shelf.new) }
{
    let mut read = before;
    for include in includes {
        read = enter(alloc, shelf, reader, read, file, include, levels)?;
    }
    Ok(read)
}

/// Reads what the include asks for, after what was read before, unless it is passed over.
#[cycle(visit)]
fn enter<F: Shelf, R: TextReader>(
    alloc: Global,
    shelf: &mut F,
    reader: &R,
    read: Sequence<FileDecls>,
    file: &Text,
    include: &Include,
    levels: usize,
) -> Result<Sequence<FileDecls>, ReadAllFault>
    ensures told { TellsOutcome
        (ComesOf (Visits (R.reads reader.now) (F.files shelf.old) levels) file.now include.now read) result }
    ensures kept { F.files shelf.new ≡ F.files shelf.old }
    ensures counted { CountsReads result (F.faults shelf.old) (F.faults shelf.new) }
    ensures last { NoReadAfter result (F.has_failed shelf.new) }
{
    if is_skipped(include.name.as_slice(), read.as_slice()) {
        return Ok(read);
    }
    match ask_of(alloc, file, include) {
        Ok(ask) => visit(alloc, shelf, reader, read, &ask, levels),
        Err(fault) => Err(fault),
    }
}
