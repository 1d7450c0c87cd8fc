//! A run of the program.

ghost use Rattle.std.specs.Prelude.{◌≡◌, true, false};
ghost use Rattle.eu_io.specs.Faults.{counted, NoneAfter};
ghost use Rattle.europa_run.specs.Halts.{is_file_fault, is_input_fault, is_output_fault};
ghost use Rattle.europa_run.specs.Output.{AsksNoFile, AsksNoScript, asks_files, is_script};
ghost use Rattle.europa_run.specs.Pieces.{IsInRange, RunsRequest, StepsRequest};
ghost use Rattle.europa_run.specs.Runs.{Runs, RunsTo};
ghost use Rattle.europa_run.specs.Steps.{RunsInSteps, UsagePrints};
ghost use Rattle.run_commands.specs.Statuses.{is_read, is_write, is_read_status};

use super::answering::{Answer, answer_request};
use super::stopping::{Halt, halted_status, in_session, outside};
use super::talking::talk;
use eu_io::shelf::Shelf;
use eu_io::sink::Sink;
use eu_io::source::Source;
use eu_name::text::Text;
use run_commands::{RunEnd, RunFault, Status, print, usage};
use run_words::request::{Request, read_words};
use std::alloc::Global;

/// Runs the program on the words after its name: carries out the command that they ask for, over the files that they name, and says
/// how it ended. After a failed call nothing more is read or written: it was the last call of its object, and where it was one of the
/// shelf, input and output are as they were.
pub fn europa<F: Shelf, S: Source, O: Sink>(
    alloc: Global,
    words: &[Text],
    shelf: &mut F,
    input: &mut S,
    out: &mut O,
) -> Status
    // The output, or after a fault what was written of it and what was lost; and which calls failed.
    ensures output { Runs words.now
        (record { files = F.files shelf.old; left = S.left input.old; written = O.written out.old })
        (record { files = F.files shelf.new; left = S.left input.new; written = O.written out.new })
        (record {
          shelf_faults = F.faults shelf.old;
          input_faults = S.faults input.old;
          output_faults = O.faults out.old;
          shelf_failed = F.has_failed shelf.old;
          input_failed = S.has_failed input.old;
          output_failed = O.has_failed out.old;
        })
        (record {
          shelf_faults = F.faults shelf.new;
          input_faults = S.faults input.new;
          output_faults = O.faults out.new;
          shelf_failed = F.has_failed shelf.new;
          input_failed = S.has_failed input.new;
          output_failed = O.has_failed out.new;
        })
        result }
    // Where the shelf's count rose, nothing was taken or written.
    ensures untouched { (F.faults shelf.new ≡ F.faults shelf.old → ⊥) → (input.new ≡ input.old) × (out.new ≡ out.old) }
    // Only a script reads the input, and only a command with a file asks for files; without one no read fails.
    ensures unread { AsksNoScript words.now → input.new ≡ input.old }
    ensures unasked { AsksNoFile words.now → shelf.new ≡ shelf.old }
    ensures no_read_fault { AsksNoFile words.now → is_read_status result ≡ false }
{
    halted_status(carry_out(alloc, words, shelf, input, out))
}

// Carries out what the words ask for.
fn carry_out<F: Shelf, S: Source, O: Sink>(
    alloc: Global,
    words: &[Text],
    shelf: &mut F,
    input: &mut S,
    out: &mut O,
) -> Result<RunEnd, Halt>
    ensures output { RunsTo words.now
        (record { files = F.files shelf.old; left = S.left input.old; written = O.written out.old })
        (record { files = F.files shelf.new; left = S.left input.new; written = O.written out.new }) result }
    ensures steps { RunsInSteps words.now
        (record { files = F.files shelf.old; left = S.left input.old; written = O.written out.old })
        (record { files = F.files shelf.new; left = S.left input.new; written = O.written out.new }) result }
    ensures files { F.faults shelf.new ≡ counted (is_file_fault result) (F.faults shelf.old) }
    ensures reads { S.faults input.new ≡ counted (is_input_fault result) (S.faults input.old) }
    ensures writes { O.faults out.new ≡ counted (is_output_fault result) (O.faults out.old) }
    ensures last_file { NoneAfter (is_file_fault result) (F.has_failed shelf.new) }
    ensures last_read { NoneAfter (is_input_fault result) (S.has_failed input.new) }
    ensures last_write { NoneAfter (is_output_fault result) (O.has_failed out.new) }
    ensures untouched { is_file_fault result ≡ true → (input.new ≡ input.old) × (out.new ≡ out.old) }
    ensures unread { AsksNoScript words.now → input.new ≡ input.old }
    ensures unasked { AsksNoFile words.now → shelf.new ≡ shelf.old }
    ensures no_file_fault { AsksNoFile words.now → is_file_fault result ≡ false }
    ensures no_input_fault { AsksNoScript words.now → is_input_fault result ≡ false }
{
    match read_words(alloc, words) {
        Ok(Some(request)) => serve(alloc, shelf, input, out, &request),
        Ok(None) => outside(print_usage(alloc, out)),
        Err(_none) => Err(Halt::Outside(RunFault::Memory)),
    }
}

// Prints the usage.
fn print_usage<O: Sink>(alloc: Global, out: &mut O) -> Result<RunEnd, RunFault>
    ensures printed { UsagePrints (O.written out.old) (O.written out.new) result }
    ensures writes { O.faults out.new ≡ counted (is_write result) (O.faults out.old) }
    ensures last { NoneAfter (is_write result) (O.has_failed out.new) }
    ensures no_read { is_read result ≡ false }
{
    match usage(alloc) {
        Ok(printed) => print(out, &printed),
        Err(fault) => Err(fault),
    }
}

// Does what is asked for.
fn serve<F: Shelf, S: Source, O: Sink>(
    alloc: Global,
    shelf: &mut F,
    input: &mut S,
    out: &mut O,
    request: &Request<Text>,
) -> Result<RunEnd, Halt>
    requires { IsInRange request.now }
    ensures output { RunsRequest request.now
        (record { files = F.files shelf.old; left = S.left input.old; written = O.written out.old })
        (record { files = F.files shelf.new; left = S.left input.new; written = O.written out.new }) result }
    ensures steps { StepsRequest request.now
        (record { files = F.files shelf.old; left = S.left input.old; written = O.written out.old })
        (record { files = F.files shelf.new; left = S.left input.new; written = O.written out.new }) result }
    ensures files { F.faults shelf.new ≡ counted (is_file_fault result) (F.faults shelf.old) }
    ensures reads { S.faults input.new ≡ counted (is_input_fault result) (S.faults input.old) }
    ensures writes { O.faults out.new ≡ counted (is_output_fault result) (O.faults out.old) }
    ensures last_file { NoneAfter (is_file_fault result) (F.has_failed shelf.new) }
    ensures last_read { NoneAfter (is_input_fault result) (S.has_failed input.new) }
    ensures last_write { NoneAfter (is_output_fault result) (O.has_failed out.new) }
    ensures untouched { is_file_fault result ≡ true → (input.new ≡ input.old) × (out.new ≡ out.old) }
    ensures unread { is_script request.now ≡ false → input.new ≡ input.old }
    ensures unasked { asks_files request.now ≡ false → shelf.new ≡ shelf.old }
    ensures no_file_fault { asks_files request.now ≡ false → is_file_fault result ≡ false }
    ensures no_input_fault { is_script request.now ≡ false → is_input_fault result ≡ false }
{
    match answer_request(alloc, shelf, request) {
        Ok(Answer::Printed(printed)) => outside(print(out, &printed)),
        Ok(Answer::Session(db)) => in_session(talk(alloc, db, input, out)),
        Err(fault) => outside(Err(fault)),
    }
}
