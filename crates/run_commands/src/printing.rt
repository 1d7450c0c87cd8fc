//! Writing what is printed.

ghost use Rattle.std.specs.Prelude.{◌≡◌, false};
ghost use Rattle.eu_io.specs.Faults.{counted, NoneAfter};
ghost use Rattle.run_commands.specs.Printed.{Prints};
ghost use Rattle.run_commands.specs.Statuses.{is_read, is_write};

use super::lines::Printed;
use super::status::{RunEnd, RunFault};
use eu_io::sink::Sink;
use session_loop::write_lines;

/// Writes what is printed, each line as one piece, and says how the run ends then. A write that fails ends it.
pub fn print<O: Sink>(out: &mut O, printed: &Printed) -> Result<RunEnd, RunFault>
    ensures prints { Prints printed.now (O.written out.old) (O.written out.new) result }
    ensures writes { O.faults out.new ≡ counted (is_write result) (O.faults out.old) }
    ensures last { NoneAfter (is_write result) (O.has_failed out.new) }
    ensures no_read { is_read result ≡ false }
{
    match write_lines(out, printed.text.as_slice()) {
        Ok(()) => Ok(printed.end),
        Err(_failed) => Err(RunFault::Write),
    }
}
