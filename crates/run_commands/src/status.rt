//! How a run ends.

ghost use Rattle.std.specs.Prelude.{◌≡◌};
ghost use Rattle.run_commands.specs.declared.status.RunFault.TheVariants as fault;
ghost use Rattle.run_commands.specs.Statuses.{status_of};

use std::alloc::AllocError;

/// How a run ended that said all that it had to say.
#[derive(Clone, Copy, Debug, PartialEq, Eq)]
pub enum RunEnd {
    /// The command was carried out: the script's input was read to its end or to `quit`, the plan is valid or was found, or what
    /// was asked for is shown.
    Done,
    /// The words are no command line.
    Usage,
    /// A text has a fault, of the problem or of what it decides.
    Text,
    /// What is checked is no text of a plan, or its plan isn't valid.
    NotAPlan,
    /// A line brought the count of a script's lines above the most.
    LinesSpent,
    /// The search ended without a plan.
    Exhausted,
    /// The search needs more visits than it may make.
    Budget,
}

/// Why a run stopped before.
#[derive(Clone, Copy, Debug, PartialEq, Eq)]
pub enum RunFault {
    /// A read of a file or of the input failed.
    Read,
    /// A write of the output failed.
    Write,
    Memory,
}

impl From<AllocError> for RunFault {
    ghost from_gives = { λ _ wrong. wrong ≡ fault.Memory };

    fn from(_error: AllocError) -> RunFault {
        RunFault::Memory
    }
}

/// What the process says of its run.
#[derive(Clone, Copy, Debug, PartialEq, Eq)]
pub enum Status {
    /// The command was carried out: the script's input was read to its end or to `quit`, the plan is valid or was found, or what
    /// was asked for is shown.
    Done,
    /// The words are no command line.
    Usage,
    /// A text has a fault, of the problem or of what it decides.
    Text,
    /// What is checked is no text of a plan, or its plan isn't valid.
    NotAPlan,
    /// A line brought the count of a script's lines above the most.
    LinesSpent,
    /// The search ended without a plan.
    Exhausted,
    /// The search needs more visits than it may make.
    Budget,
    /// A read of a file or of the input failed.
    ReadFault,
    /// A write of the output failed.
    WriteFault,
    Memory,
}

/// The status of a run that ended so.
pub fn status_of(ended: Result<RunEnd, RunFault>) -> Status
    ensures { result ≡ status_of ended }
{
    match ended {
        Ok(RunEnd::Done) => Status::Done,
        Ok(RunEnd::Usage) => Status::Usage,
        Ok(RunEnd::Text) => Status::Text,
        Ok(RunEnd::NotAPlan) => Status::NotAPlan,
        Ok(RunEnd::LinesSpent) => Status::LinesSpent,
        Ok(RunEnd::Exhausted) => Status::Exhausted,
        Ok(RunEnd::Budget) => Status::Budget,
        Err(RunFault::Read) => Status::ReadFault,
        Err(RunFault::Write) => Status::WriteFault,
        Err(RunFault::Memory) => Status::Memory,
    }
}

impl Status {
    ghost use Rattle.std.specs.Prelude.{◌≡◌};
    ghost use Rattle.run_commands.specs.Statuses.{exit_number};

    /// The number with which the process ends.
    pub fn number(self) -> u8
        ensures { result ≡ exit_number self }
    {
        match self {
            Status::Done => 0,
            Status::Usage => 2,
            Status::Text => 3,
            Status::NotAPlan => 5,
            Status::LinesSpent => 6,
            Status::Exhausted => 10,
            Status::Budget => 11,
            Status::ReadFault => 20,
            Status::WriteFault => 21,
            Status::Memory => 30,
        }
    }
}
