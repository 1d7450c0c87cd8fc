//! The command `check`.

ghost use Rattle.std.specs.Prelude.{◌≡◌, List, Some, false};
ghost use Rattle.eu_io.specs.declared.shelf.FileEntry.{FileEntry};
ghost use Rattle.eu_io.specs.Faults.{counted, NoneAfter};
ghost use Rattle.eu_io.specs.Files.{file_named};
ghost use Rattle.model_core.specs.Lawful.{IsLawful};
ghost use Rattle.run_commands.specs.Checking.{CheckOutput, CheckedOutput, PlanFileOutput, checked_end};
ghost use Rattle.run_commands.specs.Printed.{AnswersAs};
ghost use Rattle.run_commands.specs.Statuses.{is_read, is_write};

use super::content::{Content, read_content};
use super::posing::unposed;
use crate::{Printed, RunEnd, RunFault};
use eu_io::shelf::Shelf;
use eu_name::text::Text;
use model_core::model::Model;
use plan_db::Db;
use plan_db::release::discard;
use plan_report::check_text;
use run_load::pose;
use std::alloc::Global;

/// Checks whether the second file has the text of a valid plan of the problem in the first one. What is wrong with the problem comes
/// before what is wrong with the plan.
pub fn check<F: Shelf>(
    alloc: Global,
    shelf: &mut F,
    file: &Text,
    plan: &Text,
) -> Result<Printed, RunFault>
    ensures checked { (files : List FileEntry) → F.files shelf.old ≡ Some files
        → AnswersAs (CheckOutput files file.now plan.now) result }
    ensures reads { F.faults shelf.new ≡ counted (is_read result) (F.faults shelf.old) }
    ensures last { NoneAfter (is_read result) (F.has_failed shelf.new) }
    ensures no_write { is_write result ≡ false }
{
    match pose(alloc, shelf, file) {
        Ok(db) => check_posed(alloc, shelf, db, plan),
        Err(fault) => unposed(alloc, fault),
    }
}

// Checks the plan in the second file by the model of this database, and lets the database go.
fn check_posed<F: Shelf>(
    alloc: Global,
    shelf: &mut F,
    db: Db,
    plan: &Text,
) -> Result<Printed, RunFault>
    ensures checked { (files : List FileEntry) → F.files shelf.old ≡ Some files
        → AnswersAs (PlanFileOutput db.database.model plan.now (file_named plan.now files)) result }
    ensures reads { F.faults shelf.new ≡ counted (is_read result) (F.faults shelf.old) }
    ensures last { NoneAfter (is_read result) (F.has_failed shelf.new) }
    ensures no_write { is_write result ≡ false }
{
    let checked = check_file(alloc, shelf, db.model(), plan);
    discard(db);
    checked
}

// Checks whether the file has the text of a valid plan of the model.
fn check_file<F: Shelf>(
    alloc: Global,
    shelf: &mut F,
    model: &Model,
    plan: &Text,
) -> Result<Printed, RunFault>
    requires { IsLawful model.now }
    ensures checked { (files : List FileEntry) → F.files shelf.old ≡ Some files
        → AnswersAs (PlanFileOutput model.now plan.now (file_named plan.now files)) result }
    ensures reads { F.faults shelf.new ≡ counted (is_read result) (F.faults shelf.old) }
    ensures last { NoneAfter (is_read result) (F.has_failed shelf.new) }
    ensures no_write { is_write result ≡ false }
{
    match read_content(alloc, shelf, plan) {
        Ok(Content::Bytes(bytes)) => check_bytes(alloc, model, bytes.as_slice()),
        Ok(Content::Faulty(printed)) => Ok(printed),
        Err(fault) => Err(fault),
    }
}

// How a run ends that checked a plan.
fn checked_end(is_valid: bool) -> RunEnd
    ensures { result ≡ checked_end is_valid }
{
    if is_valid {
        RunEnd::Done
    } else {
        RunEnd::NotAPlan
    }
}

// Checks whether it is the text of a valid plan of the model.
fn check_bytes(alloc: Global, model: &Model, text: &[u8]) -> Result<Printed, RunFault>
    requires { IsLawful model.now }
    ensures checked { AnswersAs (CheckedOutput model.now text.now) result }
    ensures no_read { is_read result ≡ false }
    ensures no_write { is_write result ≡ false }
{
    match check_text(alloc, model, text) {
        Ok(checked) => Ok(Printed {
            text: checked.reply,
            end: checked_end(checked.is_valid),
        }),
        Err(_none) => Err(RunFault::Memory),
    }
}
