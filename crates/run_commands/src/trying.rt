//! A trial from its number.

ghost use Rattle.std.specs.Prelude.{◌≡◌, ◌≤◌, ◌++◌, IfOk, codes, false};
ghost use Rattle.std.specs.Fmt.{decimal};
ghost use Rattle.plan_db.specs.Database.{IsSound};
ghost use Rattle.problem_gen.specs.Generated.{generated_text};
ghost use Rattle.run_commands.specs.Posing.{PosedOutput};
ghost use Rattle.run_commands.specs.Printed.{AnswersAs};
ghost use Rattle.run_commands.specs.Statuses.{is_read, is_write};
ghost use Rattle.run_commands.specs.Trying.{BodyOutput, TrialOutput, TryOutput, generated_files};

use super::finding::printed_trial;
use crate::{Printed, RunFault, unposed};
use eu_io::{CalmShelf, FileEntry};
use eu_name::bytes::Bytes;
use eu_name::text::Text;
use plan_db::Db;
use plan_db::release::discard;
use problem_gen::{GenFault, generate};
use run_load::pose;
use std::alloc::{AllocError, Global};

/// Generates the problem of this number, compiles it and searches for a plan, and counts and checks what is found.
pub fn trial(alloc: Global, number: u32) -> Result<Printed, RunFault>
    requires some { 1 ≤ number }
    requires few { number ≤ 200 }
    ensures tried { AnswersAs (TryOutput number) result }
    ensures no_read { is_read result ≡ false }
    ensures no_write { is_write result ≡ false }
{
    match body(alloc, number) {
        Ok(printed) => headed(alloc, number, printed),
        Err(fault) => Err(fault),
    }
}

// The text behind the line of the number.
fn head_text(alloc: Global, number: u32, body: &[u8]) -> Result<Bytes, AllocError>
    ensures { IfOk result (λ text. text ≡ codes "try " ++ (decimal number ++ (codes "\n" ++ body.now))) }
{
    let head = format!(in alloc; "try {number}\n")?;
    let mut text = head.into_bytes();
    text.extend_from_slice(body)?;
    Ok(Bytes::from_vec(text))
}

// The line of the number, and behind it what is printed.
fn headed(alloc: Global, number: u32, printed: Printed) -> Result<Printed, RunFault>
    requires { BodyOutput number printed.text printed.end }
    ensures tried { AnswersAs (TryOutput number) result }
    ensures no_read { is_read result ≡ false }
    ensures no_write { is_write result ≡ false }
{
    match head_text(alloc, number, printed.text.as_slice()) {
        Ok(text) => Ok(Printed {
            text,
            end: printed.end,
        }),
        Err(_none) => Err(RunFault::Memory),
    }
}

// The generated text.
fn text_of(alloc: Global, number: u32) -> Result<Bytes, AllocError>
    requires some { 1 ≤ number }
    requires few { number ≤ 200 }
    ensures { IfOk result (λ text. text ≡ generated_text number) }
{
    match generate(alloc, number) {
        Ok(text) => Ok(text),
        Err(GenFault::OutOfRange) => unreachable!(),
        Err(GenFault::Memory) => Err(AllocError),
    }
}

// A shelf whose only file has the generated text.
fn shelf_of(alloc: Global, number: u32) -> Result<CalmShelf, AllocError>
    requires some { 1 ≤ number }
    requires few { number ≤ 200 }
    ensures { IfOk result (λ shelf. shelf ≡ generated_files number) }
{
    let name = Text::from_str(alloc, "gen")?;
    let bytes = text_of(alloc, number)?;
    let mut files = Vec::new(alloc);
    files.push(FileEntry { name, bytes })?;
    Ok(CalmShelf::new(files))
}

// What is printed behind the line of the number.
fn body(alloc: Global, number: u32) -> Result<Printed, RunFault>
    requires some { 1 ≤ number }
    requires few { number ≤ 200 }
    ensures told { AnswersAs (BodyOutput number) result }
    ensures no_read { is_read result ≡ false }
    ensures no_write { is_write result ≡ false }
{
    match shelf_of(alloc, number) {
        Ok(shelf) => body_over(alloc, shelf),
        Err(_none) => Err(RunFault::Memory),
    }
}

// What is printed of the file `gen` of this shelf.
fn body_over(alloc: Global, shelf: CalmShelf) -> Result<Printed, RunFault>
    ensures told { AnswersAs (PosedOutput shelf (codes "gen") TrialOutput) result }
    ensures no_read { is_read result ≡ false }
    ensures no_write { is_write result ≡ false }
{
    let mut shelf = shelf;
    match Text::from_str(alloc, "gen") {
        Ok(name) => body_named(alloc, &mut shelf, &name),
        Err(_none) => Err(RunFault::Memory),
    }
}

// What is printed of the file of this name: of the search in its database, or its first fault.
fn body_named(alloc: Global, shelf: &mut CalmShelf, name: &Text) -> Result<Printed, RunFault>
    ensures told { AnswersAs (PosedOutput shelf.old name.now TrialOutput) result }
    ensures no_read { is_read result ≡ false }
    ensures no_write { is_write result ≡ false }
{
    match pose(alloc, shelf, name) {
        Ok(db) => body_posed(alloc, db),
        Err(fault) => unposed(alloc, fault),
    }
}

// What is told of the search in the database.
fn body_posed(alloc: Global, db: Db) -> Result<Printed, RunFault>
    requires ready { db.behind ≡ false }
    requires sound { IsSound db.database }
    ensures told { AnswersAs (TrialOutput db.database) result }
    ensures no_read { is_read result ≡ false }
    ensures no_write { is_write result ≡ false }
{
    let mut db = db;
    let tried = printed_trial(alloc, &mut db);
    discard(db);
    match tried {
        Ok(printed) => Ok(printed),
        Err(_none) => Err(RunFault::Memory),
    }
}
