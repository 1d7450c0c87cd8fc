//! A file of the language as a database.

ghost use Rattle.std.specs.Prelude.{◌≡◌, false, List, Some, Ok, Err, IfOk, MatchResult};
ghost use Rattle.eu_io.specs.declared.shelf.FileEntry.{FileEntry};
ghost use Rattle.eu_io.specs.Faults.{counted, NoneAfter};
ghost use Rattle.model_core.specs.declared.model.Model.{Model as Problem};
ghost use Rattle.model_core.specs.Lawful.{IsLawful};
ghost use Rattle.nddl_laws.specs.Given.{AreGiven};
ghost use Rattle.plan_db.specs.Database.{IsSound};
ghost use Rattle.run_load.specs.Posing.{Poses, undecided};
ghost use Rattle.run_load.specs.Pieces.{TellsPosed, PosesModel, PosesRead, is_read_fault};

use super::fault::{PoseFault, uncompiled, unread};
use super::taking::take_text;
use eu_io::shelf::Shelf;
use eu_name::text::Text;
use model_core::model::Model;
use nddl_ast::declaration::FileDecls;
use nddl_parser::read_all;
use nddl_problem::compile;
use plan_db::Db;
use plan_db::release::discard;
use std::alloc::Global;

/// The database that the file of this name poses with those that it includes: that of their model, in which the decisions of
/// the text are taken. Each is a step that can be undone.
#[tactic(auto, using(crate::proofs::Stages::read_posed, crate::proofs::Stages::unread_posed, crate::proofs::Stages::given, crate::proofs::Stages::counted_none, crate::proofs::Stages::counted_wrong, crate::proofs::Stages::last_none, crate::proofs::Stages::last_wrong))]
pub fn pose<F: Shelf>(alloc: Global, shelf: &mut F, name: &Text) -> Result<Db, PoseFault>
    ensures posed { (files : List FileEntry) → F.files shelf.old ≡ Some files → TellsPosed (Poses files name.now) result }
    ensures ready { IfOk result (λ db. db.behind ≡ false) }
    ensures sound { IfOk result (λ db. IsSound db.database) }
    ensures kept { F.files shelf.new ≡ F.files shelf.old }
    ensures counted { F.faults shelf.new ≡ counted (is_read_fault result) (F.faults shelf.old) }
    ensures last { NoneAfter (is_read_fault result) (F.has_failed shelf.new) }
{
    match read_all(alloc, shelf, name.as_str()) {
        Ok(files) => pose_read(alloc, files.as_slice()),
        Err(fault) => Err(unread(fault)),
    }
}

// The database that these files pose.
#[tactic(auto, using(crate::proofs::Stages::compiled_posed, crate::proofs::Stages::fault_posed, crate::proofs::Stages::fault_unread))]
fn pose_read(alloc: Global, files: &[FileDecls]) -> Result<Db, PoseFault>
    requires given { AreGiven files.now }
    ensures posed { TellsPosed (PosesRead files.now) result }
    ensures ready { IfOk result (λ db. db.behind ≡ false) }
    ensures sound { IfOk result (λ db. IsSound db.database) }
    ensures no_read { is_read_fault result ≡ false }
{
    match compile(alloc, files) {
        Ok(model) => pose_model(alloc, model),
        Err(fault) => Err(uncompiled(fault)),
    }
}

// The database that this model poses.
fn pose_model(alloc: Global, model: Model) -> Result<Db, PoseFault>
    requires lawful { IsLawful model }
    ensures posed { TellsPosed (PosesModel model) result }
    ensures ready { IfOk result (λ db. db.behind ≡ false) }
    ensures sound { IfOk result (λ db. IsSound db.database) }
    ensures no_read { is_read_fault result ≡ false }
{
    match Db::new(alloc, model) {
        Ok(db) => pose_new(db),
        Err(_none) => Err(PoseFault::Memory),
    }
}

// Takes the decisions of the text in a database in which nothing is decided.
fn pose_new(db: Db) -> Result<Db, PoseFault>
    requires ready { db.behind ≡ false }
    requires sound { IsSound db.database }
    ensures posed { (model : Problem) → db.database ≡ undecided model → TellsPosed (PosesModel model) result }
    ensures ready { IfOk result (λ db. db.behind ≡ false) }
    ensures sound { IfOk result (λ db. IsSound db.database) }
    ensures no_read { is_read_fault result ≡ false }
{
    let mut db = db;
    let done = take_text(&mut db);
    behind(done, db)
}

// The database, where what comes before it is done.
fn behind(done: Result<(), PoseFault>, db: Db) -> Result<Db, PoseFault>
    ensures { MatchResult done (λ _. result ≡ Ok db) (λ fault. result ≡ Err fault) }
{
    match done {
        Ok(()) => Ok(db),
        Err(fault) => {
            discard(db);
            Err(fault)
        }
    }
}
