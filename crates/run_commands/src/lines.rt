//! What is printed, and the lines that the program prints of its own.

ghost use Rattle.std.specs.Prelude.{◌≡◌, IfOk, false, string_bytes};
ghost use Rattle.run_commands.specs.Printed.{AnswersAs, FaultOutput, UsageOutput, fault_line};
ghost use Rattle.run_commands.specs.Statuses.{is_read, is_write};

use super::status::{RunEnd, RunFault};
use eu_name::bytes::Bytes;
use eu_name::text::Text;
use nddl_ast::kind::TextKind;
use std::alloc::{AllocError, Global};

/// The most bytes that a file may have.
pub const FILE_LIMIT: u64 = 1_048_576;

/// What is printed where the words are no command line.
const USAGE: &str =
    "usage: europa plan FILE [--steps N] [--tokens N] | script FILE | check FILE PLAN | show FILE | gen N | try N\n";

/// The text that a command prints, each line with its line feed, and how its run ends then.
#[derive(Drop)]
pub struct Printed {
    pub text: Bytes,
    pub end: RunEnd,
}

/// The usage line.
pub fn usage(alloc: Global) -> Result<Printed, RunFault>
    ensures told { AnswersAs UsageOutput result }
    ensures no_read { is_read result ≡ false }
    ensures no_write { is_write result ≡ false }
{
    match Bytes::from_slice(alloc, USAGE.as_bytes()) {
        Ok(text) => Ok(Printed {
            text,
            end: RunEnd::Usage,
        }),
        Err(_none) => Err(RunFault::Memory),
    }
}

// The line that says what is wrong with a file, and at which byte of it.
fn fault_line(alloc: Global, kind: TextKind, file: &Text, place: u32) -> Result<String, AllocError>
    ensures { IfOk result (λ line. string_bytes line ≡ fault_line kind file.now place) }
{
    let word = kind.word();
    let file = file.as_str();
    format!(in alloc; "text {word} {file} {place}\n")
}

/// What is wrong with a file, and at which byte of it.
pub fn faulty(alloc: Global, kind: TextKind, file: &Text, place: u32) -> Result<Printed, RunFault>
    ensures told { AnswersAs (FaultOutput kind file.now place) result }
    ensures no_read { is_read result ≡ false }
    ensures no_write { is_write result ≡ false }
{
    match fault_line(alloc, kind, file, place) {
        Ok(line) => Ok(Printed {
            text: Bytes::from_vec(line.into_bytes()),
            end: RunEnd::Text,
        }),
        Err(_none) => Err(RunFault::Memory),
    }
}
