//! Files that pose no database.

ghost use Rattle.std.specs.Prelude.{◌≡◌, false};
ghost use Rattle.run_commands.specs.Posing.{IsUnposed, is_read_fault};
ghost use Rattle.run_commands.specs.Statuses.{is_read, is_write};

use crate::{Printed, RunFault, faulty};
use run_load::fault::PoseFault;
use std::alloc::Global;

/// What is printed where a file poses no database.
pub fn unposed(alloc: Global, fault: PoseFault) -> Result<Printed, RunFault>
    ensures told { IsUnposed fault result }
    ensures counted { is_read result ≡ is_read_fault fault }
    ensures no_write { is_write result ≡ false }
{
    match fault {
        PoseFault::Text { kind, file, at } => faulty(alloc, kind, &file, at),
        PoseFault::Read => Err(RunFault::Read),
        PoseFault::Memory => Err(RunFault::Memory),
    }
}
