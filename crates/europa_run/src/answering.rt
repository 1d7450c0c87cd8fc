//! What requests come to.

ghost use Rattle.std.specs.Prelude.{◌≡◌, List, Some, true, false, IfOk};
ghost use Rattle.eu_io.specs.declared.shelf.FileEntry.{FileEntry};
ghost use Rattle.eu_io.specs.Faults.{counted, NoneAfter};
ghost use Rattle.run_words.specs.declared.request.Request.TheVariants.{Script as AskedScript};
ghost use Rattle.europa_run.specs.Output.{asks_files, is_script};
ghost use Rattle.europa_run.specs.Pieces.{Comes, IsInRange, is_session, told_answer};
ghost use Rattle.run_commands.specs.Statuses.{is_read, is_write};

use eu_io::shelf::Shelf;
use eu_name::text::Text;
use plan_db::Db;
use run_commands::{Printed, RunFault, check, generated, plan, show, trial, unposed};
use run_load::pose;
use run_words::request::Request;
use std::alloc::Global;

/// What a request comes to.
#[derive(Drop)]
pub enum Answer {
    /// This is printed.
    Printed(Printed),
    /// The input's lines are answered over the database.
    Session(Db),
}

// What is printed, as what a request comes to.
fn printed(answer: Result<Printed, RunFault>) -> Result<Answer, RunFault>
    ensures told { result ≡ told_answer answer }
    ensures read { is_read result ≡ is_read answer }
    ensures written { is_write result ≡ is_write answer }
{
    match answer {
        Ok(printed) => Ok(Answer::Printed(printed)),
        Err(fault) => Err(fault),
    }
}

/// What the request comes to over the shelf.
pub fn answer_request<F: Shelf>(
    alloc: Global,
    shelf: &mut F,
    request: &Request<Text>,
) -> Result<Answer, RunFault>
    requires { IsInRange request.now }
    ensures comes { (files : List FileEntry) → F.files shelf.old ≡ Some files → Comes files request.now result }
    ensures of_script { IfOk result (λ answer. is_session answer ≡ true → is_script request.now ≡ true) }
    ensures counted { F.faults shelf.new ≡ counted (is_read result) (F.faults shelf.old) }
    ensures last { NoneAfter (is_read result) (F.has_failed shelf.new) }
    ensures unasked { asks_files request.now ≡ false → shelf.new ≡ shelf.old }
    ensures no_read { asks_files request.now ≡ false → is_read result ≡ false }
    ensures no_write { is_write result ≡ false }
{
    match request {
        Request::Plan {
            file,
            steps,
            tokens,
        } => printed(plan(alloc, shelf, file, *steps, *tokens)),
        Request::Script { file } => script(alloc, shelf, file),
        Request::Check { file, plan } => printed(check(alloc, shelf, file, plan)),
        Request::Show { file } => printed(show(alloc, shelf, file)),
        Request::Generate { number } => printed(generated(alloc, *number)),
        Request::Try { number } => printed(trial(alloc, *number)),
    }
}

// What a script of the file comes to.
fn script<F: Shelf>(alloc: Global, shelf: &mut F, file: &Text) -> Result<Answer, RunFault>
    ensures comes { (files : List FileEntry) → F.files shelf.old ≡ Some files → Comes files (AskedScript file.now) result }
    ensures counted { F.faults shelf.new ≡ counted (is_read result) (F.faults shelf.old) }
    ensures last { NoneAfter (is_read result) (F.has_failed shelf.new) }
    ensures no_write { is_write result ≡ false }
{
    match pose(alloc, shelf, file) {
        Ok(db) => Ok(Answer::Session(db)),
        Err(fault) => printed(unposed(alloc, fault)),
    }
}
