//! A file of the language with those that it includes.

ghost use Rattle.std.specs.Prelude.{◌≡◌};
ghost use Rattle.nddl_parser.specs.Outcomes.{CountsReads, NoReadAfter, TellsOutcome};
ghost use Rattle.nddl_parser.specs.Visits.{ReadsAll};
ghost use Rattle.nddl_parser.specs.Language.{ReadsAs};

use super::language::Language;
use crate::fault::ReadAllFault;
use crate::includes as reading;
use eu_io::shelf::Shelf;
use eu_name::sequence::Sequence;
use nddl_ast::declaration::FileDecls;
use std::alloc::Global;

/// Reads the file of this name, and each that it includes, as trees: the first file first, and each include's own
/// includes before the next one. Or gives the fault that is met first.
pub fn read_all<F: Shelf>(
    alloc: Global,
    shelf: &mut F,
    name: &str,
) -> Result<Sequence<FileDecls>, ReadAllFault>
    ensures told { TellsOutcome (ReadsAll ReadsAs (F.files shelf.old) name.now) result }
    ensures kept { F.files shelf.new ≡ F.files shelf.old }
    ensures counted { CountsReads result (F.faults shelf.old) (F.faults shelf.new) }
    ensures last { NoReadAfter result (F.has_failed shelf.new) }
{
    reading::read_all(alloc, shelf, &Language, name)
}
