//! The decisions of a text, taken in a database one after another.

ghost use Rattle.std.specs.Prelude.{◌≡◌, ◌<◌, false, length, slice_get, Some, IfOk};
ghost use Rattle.model_core.specs.declared.model.Placed.{Placed as ThePlaced};
ghost use Rattle.plan_db.specs.Database.{IsSound};
ghost use Rattle.run_load.specs.Pieces.{TakesUnless, TakesPlaced, TakesAll, IsFaultOr, IsSpokenBy};

use super::fault::PoseFault;
use model_core::decision::Decision;
use model_core::model::Placed;
use nddl_ast::kind::TextKind;
use plan_db::{Db, DbFault};
use std::alloc::AllocError;

// What kind of fault of a text it is, unless memory is wanting.
fn spoken_by(fault: DbFault) -> Result<Option<TextKind>, AllocError>
    ensures { IfOk result (IsSpokenBy fault) }
{
    match fault {
        DbFault::Behind | DbFault::Memory | DbFault::Nothing | DbFault::NoSuchDecision => Err(
            AllocError,
        ),
        DbFault::InInconsistent => Ok(Some(TextKind::AfterConflict)),
        DbFault::Unknown
        | DbFault::WrongType
        | DbFault::Decided
        | DbFault::NotInDomain
        | DbFault::NotActive
        | DbFault::NotSamePredicate
        | DbFault::NotRejectable
        | DbFault::Same
        | DbFault::ActiveFull => Ok(Some(TextKind::NotAdmissible)),
    }
}

// Takes the decision, or answers what speaks against it.
#[tactic(auto, using(crate::proofs::Steps::spoken_ok, crate::proofs::Steps::applied_model, crate::proofs::Steps::applied_ready))]
fn take_decision(db: &mut Db, decision: &Decision) -> Result<Option<TextKind>, AllocError>
    requires { db.old.behind ≡ false }
    ensures taken { IfOk result (λ against. TakesUnless against db.old.database decision.now db.new.database) }
    ensures model { db.new.database.model ≡ db.old.database.model }
    ensures still { db.new.behind ≡ false }
    ensures sound { IsSound db.new.database }
{
    match db.apply(decision) {
        Ok(_outcome) => Ok(None),
        Err(fault) => spoken_by(fault),
    }
}

// Takes a copy of the decision at this place of the text, or answers what speaks against it.
#[tactic(auto, using(crate::proofs::Steps::taken_as))]
fn take_copy(db: &mut Db, place: usize) -> Result<Option<TextKind>, AllocError>
    requires ready { db.old.behind ≡ false }
    requires sound { IsSound db.old.database }
    requires within { place < length db.old.database.model.problem.decisions }
    ensures taken { (placed : ThePlaced) → slice_get db.old.database.model.problem.decisions place ≡ Some placed
        → IfOk result (λ against. TakesUnless against db.old.database placed.decision db.new.database) }
    ensures model { db.new.database.model ≡ db.old.database.model }
    ensures still { db.new.behind ≡ false }
    ensures sound { IsSound db.new.database }
{
    let decision = placed_at(db, place).decision.copy()?;
    take_decision(db, &decision)
}

// The decision of the text that is at this place.
fn placed_at(db: &Db, place: usize) -> &Placed
    requires { place < length db.now.database.model.problem.decisions }
    ensures { slice_get db.now.database.model.problem.decisions place ≡ Some result.now }
{
    &db.model().problem.decisions.as_slice()[place]
}

// The fault of the decision of the text that is at this place.
fn fault_at(db: &Db, place: usize, kind: TextKind) -> PoseFault
    requires { place < length db.now.database.model.problem.decisions }
    ensures { (placed : ThePlaced) → slice_get db.now.database.model.problem.decisions place ≡ Some placed
        → IsFaultOr kind placed result }
{
    let placed = placed_at(db, place);
    match placed.file.copy() {
        Ok(file) => PoseFault::Text {
            kind,
            file,
            at: placed.at,
        },
        Err(_none) => PoseFault::Memory,
    }
}

// Takes the decision of the text that is at this place.
fn take_at(db: &mut Db, place: usize) -> Result<(), PoseFault>
    requires ready { db.old.behind ≡ false }
    requires sound { IsSound db.old.database }
    requires within { place < length db.old.database.model.problem.decisions }
    ensures taken { (placed : ThePlaced) → slice_get db.old.database.model.problem.decisions place ≡ Some placed
        → TakesPlaced result db.old.database placed db.new.database }
    ensures model { db.new.database.model ≡ db.old.database.model }
    ensures still { db.new.behind ≡ false }
    ensures sound { IsSound db.new.database }
{
    match take_copy(db, place)? {
        Some(kind) => Err(fault_at(db, place, kind)),
        None => Ok(()),
    }
}

// How many decisions the text has.
fn count_of(db: &Db) -> usize
    ensures { result ≡ length db.now.database.model.problem.decisions }
{
    db.model().problem.decisions.len()
}

/// Takes the decisions of the text of the database's model, in their order.
pub fn take_text(db: &mut Db) -> Result<(), PoseFault>
    requires ready { db.old.behind ≡ false }
    requires sound { IsSound db.old.database }
    ensures taken { TakesAll result db.old.database db.old.database.model.problem.decisions db.new.database }
    ensures still { db.new.behind ≡ false }
    ensures sound { IsSound db.new.database }
{
    let count = count_of(db);
    for place in 0..count {
        take_at(db, place)?;
    }
    Ok(())
}
