//! Why a session ended before its input did.

ghost use Rattle.std.specs.Prelude.{◌≡◌};
ghost use Rattle.session_loop.specs.declared.fault.SessionFault.TheVariants.{Memory};

use std::alloc::AllocError;

#[derive(Clone, Copy, Debug, PartialEq, Eq)]
pub enum SessionFault {
    /// A read failed.
    ReadFault,
    /// A write failed.
    WriteFault,
    /// A line brought the count of lines above the most.
    LinesSpent,
    Memory,
}

impl From<AllocError> for SessionFault {
    ghost from_gives = { λ _ fault. fault ≡ Memory };

    fn from(_error: AllocError) -> SessionFault {
        SessionFault::Memory
    }
}
