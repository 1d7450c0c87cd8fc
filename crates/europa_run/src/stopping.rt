//! Why a run stopped before its end.

ghost use Rattle.std.specs.Prelude.{◌≡◌, false};
ghost use Rattle.session_loop.specs.Ends.{is_read_fault, is_write_fault};
ghost use Rattle.run_commands.specs.Statuses.{is_read, is_write};
ghost use Rattle.europa_run.specs.Halts.{outside, in_session, halted_status, is_file_fault, is_input_fault, is_output_fault};

use run_commands::{RunEnd, RunFault, Status, status_of};
use session_loop::fault::SessionFault;

/// Why a run stopped before its end.
#[derive(Clone, Copy, Debug, PartialEq, Eq)]
pub enum Halt {
    /// In no session: a read of a file failed, or the write of what is printed, or memory ran out.
    Outside(RunFault),
    /// In the session of a script, which this fault ended.
    InSession(SessionFault),
}

/// How a run ended that came to this in no session.
pub fn outside(ended: Result<RunEnd, RunFault>) -> Result<RunEnd, Halt>
    ensures is { result ≡ outside ended }
    ensures file { is_file_fault result ≡ is_read ended }
    ensures input { is_input_fault result ≡ false }
    ensures output { is_output_fault result ≡ is_write ended }
{
    match ended {
        Ok(end) => Ok(end),
        Err(fault) => Err(Halt::Outside(fault)),
    }
}

/// How a run ended whose session came to this.
pub fn in_session(ended: Result<RunEnd, SessionFault>) -> Result<RunEnd, Halt>
    ensures is { result ≡ in_session ended }
    ensures file { is_file_fault result ≡ false }
    ensures input { is_input_fault result ≡ is_read_fault ended }
    ensures output { is_output_fault result ≡ is_write_fault ended }
{
    match ended {
        Ok(end) => Ok(end),
        Err(fault) => Err(Halt::InSession(fault)),
    }
}

/// The status of a run that ended so.
pub fn halted_status(ended: Result<RunEnd, Halt>) -> Status
    ensures { result ≡ halted_status ended }
{
    match ended {
        Ok(end) => status_of(Ok(end)),
        Err(Halt::Outside(fault)) => status_of(Err(fault)),
        Err(Halt::InSession(SessionFault::ReadFault)) => Status::ReadFault,
        Err(Halt::InSession(SessionFault::WriteFault)) => Status::WriteFault,
        Err(Halt::InSession(SessionFault::LinesSpent)) => Status::LinesSpent,
        Err(Halt::InSession(SessionFault::Memory)) => Status::Memory,
    }
}
