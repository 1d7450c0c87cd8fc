//! The command `gen`.

ghost use Rattle.std.specs.Prelude.{◌≡◌, ◌≤◌, false};
ghost use Rattle.run_commands.specs.Generating.{GenerateOutput};
ghost use Rattle.run_commands.specs.Printed.{AnswersAs};
ghost use Rattle.run_commands.specs.Statuses.{is_read, is_write};

use crate::{Printed, RunEnd, RunFault};
use problem_gen::{GenFault, generate};
use std::alloc::Global;

/// The generated problem of so many goals.
pub fn generated(alloc: Global, number: u32) -> Result<Printed, RunFault>
    requires some { 1 ≤ number }
    requires few { number ≤ 200 }
    ensures generated { AnswersAs (GenerateOutput number) result }
    ensures no_read { is_read result ≡ false }
    ensures no_write { is_write result ≡ false }
{
    match generate(alloc, number) {
        Ok(text) => Ok(Printed {
            text,
            end: RunEnd::Done,
        }),
        Err(GenFault::OutOfRange) => unreachable!(),
        Err(GenFault::Memory) => Err(RunFault::Memory),
    }
}
