//! Names that are declared a second time where few names stand.

ghost use Rattle.std.specs.Prelude.{◌≡◌, OnOk};
ghost use Rattle.nddl_symbols.specs.Finding.{earliest_fault};
ghost use Rattle.eu_index.specs.Index.{with_noted};
ghost use Rattle.nddl_symbols.specs.Repeats.{repeated_fault};

use super::fault::{Fault, note_at};
use super::twice::kind_if;
use eu_index::NameIndex;
use nddl_ast::TextKind;
use nddl_ast::name::Name;
use std::alloc::AllocError;

/// Notes the name, which stands in the declaration of this number, and that it is declared a second time, if it was
/// noted before.
pub fn note_repeated(
    noted: &mut NameIndex,
    decl: usize,
    name: &Name,
    first: &mut Option<Fault>,
) -> Result<(), AllocError>
    ensures fault { OnOk result (first.new ≡ earliest_fault first.old (repeated_fault decl noted.old name.now)) }
    ensures noted { OnOk result (noted.new ≡ with_noted noted.old name.now.text 0) }
{
    let is_new = noted.note(&name.text, 0)?;
    note_at(first, decl, name.at, kind_if(!is_new, TextKind::Twice));
    Ok(())
}
