//! Names of files that are read already, or never.

ghost use Rattle.std.specs.Prelude.{◌≡◌};
ghost use Rattle.nddl_parser.specs.Includes.{is_built_in, is_taken, is_skipped, NamesText};

use super::fault::ReadAllFault;
use super::include::{Ask, Include};
use eu_name::text::Text;
use nddl_ast::declaration::FileDecls;
use std::alloc::Global;
use std::str;

/// Whether what such a file would declare is built in.
fn is_built_in(name: &[u8]) -> bool
    ensures { result ≡ is_built_in name.now }
{
    name == b"Plasma.nddl".as_slice() || name == b"PlannerConfig.nddl".as_slice()
}

/// Whether a file of this name was read.
fn is_taken(name: &[u8], read: &[FileDecls]) -> bool
    ensures { result ≡ is_taken name.now read.now }
{
    read.iter().any(|file| file.name.as_bytes() == name)
}

/// Whether an include of this name is passed over.
pub fn is_skipped(name: &[u8], read: &[FileDecls]) -> bool
    ensures { result ≡ is_skipped name.now read.now }
{
    is_built_in(name) || is_taken(name, read)
}

/// What the include in this file asks for. A name that isn't text is that of no file.
pub fn ask_of(alloc: Global, file: &Text, include: &Include) -> Result<Ask, ReadAllFault>
    ensures { NamesText file.now include.now result }
{
    let file = file.copy()?;
    let at = include.at;
    match str::from_utf8(include.name.as_slice()) {
        Ok(name) => {
            let name = Text::from_str(alloc, name)?;
            Ok(Ask { name, file, at })
        }
        Err(_) => Err(ReadAllFault::Absent { file, at }),
    }
}
