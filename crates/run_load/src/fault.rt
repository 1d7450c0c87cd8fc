//! Why a file poses no database.

ghost use Rattle.std.specs.Prelude.{◌≡◌, MatchOption};
ghost use Rattle.run_load.specs.declared.fault.PoseFault.TheVariants as answer;
ghost use Rattle.run_load.specs.Pieces.{IsAnswerTo, answer_to};

use eu_name::text::Text;
use nddl_ast::TextFault;
use nddl_ast::kind::TextKind;
use nddl_parser::fault::ReadAllFault;
use std::alloc::AllocError;

/// Why a file poses no database.
#[derive(Drop)]
pub enum PoseFault {
    /// What is wrong first, in which file, and at which byte of it.
    Text { kind: TextKind, file: Text, at: u32 },
    /// A call of the shelf failed.
    Read,
    Memory,
}

impl From<AllocError> for PoseFault {
    ghost from_gives = { λ _ fault. fault ≡ answer.Memory };

    fn from(_error: AllocError) -> PoseFault {
        PoseFault::Memory
    }
}

/// What is answered where files have no model for this fault.
pub fn uncompiled(fault: TextFault) -> PoseFault
    ensures { result ≡ answer_to fault }
{
    match fault {
        TextFault::At { kind, file, at } => PoseFault::Text { kind, file, at },
        TextFault::Memory => PoseFault::Memory,
    }
}

// The fault of this kind and place, where it has these.
fn located(kind: Option<TextKind>, at: Option<u32>, file: Text) -> PoseFault
    ensures { MatchOption kind (result ≡ answer.Memory)
        (λ kind. MatchOption at (result ≡ answer.Memory) (λ at. result ≡ answer.Text kind file at)) }
{
    match (kind, at) {
        (Some(kind), Some(at)) => PoseFault::Text { kind, file, at },
        _ => PoseFault::Memory,
    }
}

/// What is answered where files aren't read for this fault.
pub fn unread(fault: ReadAllFault) -> PoseFault
    ensures { IsAnswerTo fault result }
{
    match fault {
        ReadAllFault::Absent { file, at } => text(TextKind::Absent, file, at),
        ReadAllFault::TooLong { file, at } => text(TextKind::LimitBytes, file, at),
        ReadAllFault::TooManyFiles { file, at } => text(TextKind::LimitFiles, file, at),
        ReadAllFault::TooDeep { file, at } => text(TextKind::LimitDepth, file, at),
        ReadAllFault::Lex { file, fault } => located(fault.kind(), fault.at(), file),
        ReadAllFault::Parse { file, fault } => located(fault.kind(), fault.at(), file),
        ReadAllFault::ReadFault => PoseFault::Read,
        ReadAllFault::Memory => PoseFault::Memory,
    }
}

fn text(kind: TextKind, file: Text, at: u32) -> PoseFault
    ensures { result ≡ answer.Text kind file at }
{
    PoseFault::Text { kind, file, at }
}
