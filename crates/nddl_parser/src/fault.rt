//! Why a file and what it includes wasn't read.

ghost use Rattle.std.specs.Prelude.{◌≡◌, None, Some, IfOk, MatchOption};
ghost use Rattle.nddl_parser.specs.Faults.{fail_kind, fail_place, fail_in, fault_at, fault_kind, fault_file, fault_place};
ghost use Rattle.nddl_parser.specs.declared.fault.ReadAllFault.TheVariants as all;

use super::include::Ask;
use crate::parsing::ParseFault;
use eu_name::text::Text;
use nddl_ast::kind::TextKind;
use nddl_lexer::kinds::LexFault;
use std::alloc::AllocError;

/// Why one text wasn't read: what is wrong in its lexemes, or where these are right in its grammar.
#[derive(Clone, Copy, Debug, PartialEq, Eq)]
pub enum TextFail {
    Lex(LexFault),
    Parse(ParseFault),
}

/// Why a file isn't read, whatever is in it.
#[derive(Clone, Copy, Debug, PartialEq, Eq)]
pub enum Refusal {
    /// There is no such file.
    Absent,
    /// It has too many bytes.
    TooLong,
    /// As many files as there may be were read before.
    TooManyFiles,
    /// It is included in a file that is included, and so on, too deep.
    TooDeep,
}

/// Why a file and what it includes wasn't read. The first four stand at an include, in the file that has it, or at 0 of
/// the file that was asked for first.
#[derive(Drop)]
pub enum ReadAllFault {
    /// There is no such file, or its name isn't UTF-8.
    Absent { file: Text, at: u32 },
    /// The file has more than 1,048,576 bytes.
    TooLong { file: Text, at: u32 },
    /// The file is the 65th.
    TooManyFiles { file: Text, at: u32 },
    /// The include is 9 deep.
    TooDeep { file: Text, at: u32 },
    /// The lexemes of this file are faulty. The fault is never Memory.
    Lex { file: Text, fault: LexFault },
    /// The lexemes of this file make no tree. The fault is never Memory.
    Parse { file: Text, fault: ParseFault },
    /// A call of the shelf failed.
    ReadFault,
    Memory,
}

impl TextFail {
    /// What kind of fault it is; none where there is no memory.
    pub fn kind(self) -> Option<TextKind>
        ensures { result ≡ fail_kind self }
    {
        match self {
            TextFail::Lex(fault) => fault.kind(),
            TextFail::Parse(fault) => fault.kind(),
        }
    }

    /// The byte at which it is; none where there is no memory.
    pub fn at(self) -> Option<u32>
        ensures { result ≡ fail_place self }
    {
        match self {
            TextFail::Lex(fault) => fault.at(),
            TextFail::Parse(fault) => fault.at(),
        }
    }

    /// The fault of the file whose text it is.
    pub fn located(self, file: &Text) -> Result<ReadAllFault, AllocError>
        ensures { IfOk result (λ fault. fault ≡ fail_in self file.now) }
    {
        if self.kind().is_none() {
            return Ok(ReadAllFault::Memory);
        }
        let file = file.copy()?;
        Ok(match self {
            TextFail::Lex(fault) => ReadAllFault::Lex { file, fault },
            TextFail::Parse(fault) => ReadAllFault::Parse { file, fault },
        })
    }
}

impl From<AllocError> for ReadAllFault {
    ghost from_gives = { λ _ fault. fault ≡ all.Memory };

    fn from(_error: AllocError) -> ReadAllFault {
        ReadAllFault::Memory
    }
}

impl Refusal {
    /// The refusal of the file that was asked for.
    pub fn located(self, ask: &Ask) -> Result<ReadAllFault, AllocError>
        ensures { IfOk result (λ fault. fault ≡ fault_at self ask.now) }
    {
        let file = ask.file.copy()?;
        let at = ask.at;
        Ok(match self {
            Refusal::Absent => ReadAllFault::Absent { file, at },
            Refusal::TooLong => ReadAllFault::TooLong { file, at },
            Refusal::TooManyFiles => ReadAllFault::TooManyFiles { file, at },
            Refusal::TooDeep => ReadAllFault::TooDeep { file, at },
        })
    }
}

impl ReadAllFault {
    /// What kind of fault it is; none where a call of the shelf failed, or there is no memory.
    pub fn kind(&self) -> Option<TextKind>
        ensures { result ≡ fault_kind self.now }
    {
        match self {
            ReadAllFault::Absent { .. } => Some(TextKind::Absent),
            ReadAllFault::TooLong { .. } => Some(TextKind::LimitBytes),
            ReadAllFault::TooManyFiles { .. } => Some(TextKind::LimitFiles),
            ReadAllFault::TooDeep { .. } => Some(TextKind::LimitDepth),
            ReadAllFault::Lex { fault, .. } => fault.kind(),
            ReadAllFault::Parse { fault, .. } => fault.kind(),
            ReadAllFault::ReadFault | ReadAllFault::Memory => None,
        }
    }

    /// The byte at which it is, of its file.
    pub fn at(&self) -> Option<u32>
        ensures { result ≡ fault_place self.now }
    {
        match self {
            ReadAllFault::Absent { at, .. }
            | ReadAllFault::TooLong { at, .. }
            | ReadAllFault::TooManyFiles { at, .. }
            | ReadAllFault::TooDeep { at, .. } => Some(*at),
            ReadAllFault::Lex { fault, .. } => fault.at(),
            ReadAllFault::Parse { fault, .. } => fault.at(),
            ReadAllFault::ReadFault | ReadAllFault::Memory => None,
        }
    }

    /// The file in which it is.
    pub fn file(&self) -> Option<&Text>
        ensures { MatchOption result (fault_file self.now ≡ None) (λ file. fault_file self.now ≡ Some file.now) }
    {
        match self {
            ReadAllFault::Absent { file, .. }
            | ReadAllFault::TooLong { file, .. }
            | ReadAllFault::TooManyFiles { file, .. }
            | ReadAllFault::TooDeep { file, .. }
            | ReadAllFault::Lex { file, .. }
            | ReadAllFault::Parse { file, .. } => Some(file),
            ReadAllFault::ReadFault | ReadAllFault::Memory => None,
        }
    }
}
