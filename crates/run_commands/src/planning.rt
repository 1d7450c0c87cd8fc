//! The command `plan`.

ghost use Rattle.std.specs.Prelude.{◌≡◌, ◌<◌, ◌≤◌, List, Some, IfSome, false};
ghost use Rattle.eu_io.specs.declared.shelf.FileEntry.{FileEntry};
ghost use Rattle.eu_io.specs.Faults.{counted, NoneAfter};
ghost use Rattle.plan_db.specs.Database.{IsSound};
ghost use Rattle.session_replies.specs.Texts.{IsFlawlessEnd, TellsSearch};
ghost use Rattle.run_commands.specs.Planning.{PlanOutput};
ghost use Rattle.run_commands.specs.Searching.{SearchOutput, end_of, visits_of};
ghost use Rattle.run_commands.specs.Printed.{AnswersAs};
ghost use Rattle.run_commands.specs.Statuses.{is_read, is_write};

use super::posing::unposed;
use super::searching::{end_of, search};
use crate::{Printed, RunFault};
use eu_io::shelf::Shelf;
use eu_name::text::Text;
use flaw_core::SearchEnd;
use model_core::model::Model;
use plan_db::Db;
use plan_db::release::discard;
use run_load::pose;
use session_replies::end_text;
use std::alloc::Global;

/// Searches for a plan of the file's problem from the decisions of its text, with no more active tokens than the bound, and in so many
/// visits as are given or else as the text allows.
pub fn plan<F: Shelf>(
    alloc: Global,
    shelf: &mut F,
    file: &Text,
    steps: Option<u32>,
    tokens: u32,
) -> Result<Printed, RunFault>
    requires some { IfSome steps (λ steps. 0 < steps) }
    requires tokens { tokens ≤ 512 }
    ensures planned { (files : List FileEntry) → F.files shelf.old ≡ Some files
        → AnswersAs (PlanOutput files file.now steps tokens) result }
    ensures reads { F.faults shelf.new ≡ counted (is_read result) (F.faults shelf.old) }
    ensures last { NoneAfter (is_read result) (F.has_failed shelf.new) }
    ensures no_write { is_write result ≡ false }
{
    match pose(alloc, shelf, file) {
        Ok(db) => plan_posed(alloc, db, steps, tokens),
        Err(fault) => unposed(alloc, fault),
    }
}

// The visits that are given, or else those of the model's text.
fn visits_of(steps: Option<u32>, model: &Model) -> u32
    ensures { result ≡ visits_of steps model.now }
{
    match steps {
        Some(steps) => steps,
        None => model.problem.steps,
    }
}

// Searches in the database that the file poses, and lets the database go.
fn plan_posed(alloc: Global, db: Db, steps: Option<u32>, tokens: u32) -> Result<Printed, RunFault>
    requires ready { db.behind ≡ false }
    requires sound { IsSound db.database }
    requires some { IfSome steps (λ steps. 0 < steps) }
    requires tokens { tokens ≤ 512 }
    ensures planned { AnswersAs (SearchOutput tokens (visits_of steps db.database.model) db.database) result }
    ensures no_read { is_read result ≡ false }
    ensures no_write { is_write result ≡ false }
{
    let budget = visits_of(steps, db.model());
    let mut db = db;
    let planned = plan_search(alloc, &mut db, budget, tokens);
    discard(db);
    planned
}

// What is printed of the search from the decisions that stand.
fn plan_search(alloc: Global, db: &mut Db, budget: u32, tokens: u32) -> Result<Printed, RunFault>
    requires ready { db.old.behind ≡ false }
    requires some { 0 < budget }
    requires tokens { tokens ≤ 512 }
    ensures planned { AnswersAs (SearchOutput tokens budget db.old.database) result }
    ensures no_read { is_read result ≡ false }
    ensures no_write { is_write result ≡ false }
{
    match search(alloc, db, budget, tokens) {
        Ok(end) => plan_end(alloc, db, end),
        Err(_none) => Err(RunFault::Memory),
    }
}

// What is printed of the end of a search.
fn plan_end(alloc: Global, db: &Db, end: SearchEnd) -> Result<Printed, RunFault>
    requires ready { db.now.behind ≡ false }
    requires flawless { IsFlawlessEnd end db.now.database }
    ensures told { AnswersAs (λ out ended. TellsSearch end db.now.database out × (ended ≡ end_of end)) result }
    ensures no_read { is_read result ≡ false }
    ensures no_write { is_write result ≡ false }
{
    match end_text(alloc, db, end) {
        Ok(text) => Ok(Printed {
            text,
            end: end_of(end),
        }),
        Err(_none) => Err(RunFault::Memory),
    }
}
