//! Decisions taken in the database.

ghost use Rattle.std.specs.Prelude.{◌≡◌, ◌++◌, [], ◌∷◌, true, false, Some, Ok, Err, OnOk, OnErr, MatchOption, MatchResult};
ghost use Rattle.model_core.specs.History.{standing, accepted};
ghost use Rattle.plan_defs.specs.Refusals.{IsAdmissible};
ghost use Rattle.plan_db.specs.declared.fault.DbFault.TheVariants.{Memory};
ghost use Rattle.plan_db.specs.Database.{taken_in};
ghost use Rattle.solver_core.specs.Visiting.{TakesFound};

use super::course::{Branch, Course};
use model_core::decision::Decision;
use plan_db::{Db, DbFault};
use std::alloc::AllocError;

// Want of memory, where that is the fault.
fn want_of(fault: DbFault) -> AllocError
    requires { fault ≡ Memory }
{
    match fault {
        DbFault::Memory => AllocError,
        _ => unreachable!(),
    }
}

// Takes an admissible decision.
fn take_choice(db: &mut Db, choice: &Decision) -> Result<(), AllocError>
    requires ready { db.old.behind ≡ false }
    requires admissible { IsAdmissible db.old.database.model (standing db.old.database.history) choice.now }
    ensures ok { OnOk result (db.new.database ≡ taken_in db.old.database.model (accepted db.old.database.history choice.now)) }
    ensures err { OnErr result (db.new.database ≡ db.old.database) }
    ensures still { db.new.behind ≡ false }
{
    match db.apply(choice) {
        Ok(_outcome) => Ok(()),
        Err(fault) => Err(want_of(fault)),
    }
}

// Puts the flaw on the way, and takes a choice of it.
fn put_choice(
    db: &mut Db,
    course: &mut Course,
    branch: Branch,
    choice: &Decision,
) -> Result<(), AllocError>
    requires ready { db.old.behind ≡ false }
    requires admissible { IsAdmissible db.old.database.model (standing db.old.database.history) choice.now }
    ensures branches { OnOk result (course.new.branches.items ≡ course.old.branches.items ++ branch ∷ []) }
    ensures visits { course.new.visits ≡ course.old.visits }
    ensures left_out { course.new.left_out ≡ course.old.left_out }
    ensures ok { OnOk result (db.new.database ≡ taken_in db.old.database.model (accepted db.old.database.history choice.now)) }
    ensures err { OnErr result (db.new.database ≡ db.old.database) }
    ensures still { db.new.behind ≡ false }
{
    course.branches.push(branch)?;
    take_choice(db, choice)
}

// That a choice was taken, unless memory was wanting.
fn when_taken(taken: Result<(), AllocError>) -> Result<bool, AllocError>
    ensures { MatchResult taken (λ _. result ≡ Ok true) (λ none. result ≡ Err none) }
{
    match taken {
        Ok(()) => Ok(true),
        Err(none) => Err(none),
    }
}

// Puts the flaw on the way, and takes a choice of it, which isn't needed behind that.
fn put_owned(
    db: &mut Db,
    course: &mut Course,
    branch: Branch,
    choice: Decision,
) -> Result<bool, AllocError>
    requires ready { db.old.behind ≡ false }
    requires admissible { IsAdmissible db.old.database.model (standing db.old.database.history) choice }
    ensures takes { TakesFound (Some choice) branch db.old course.old.branches.items result db.new course.new.branches.items }
    ensures visits { course.new.visits ≡ course.old.visits }
    ensures left_out { course.new.left_out ≡ course.old.left_out }
    ensures still { db.new.behind ≡ false }
{
    let taken = put_choice(db, course, branch, &choice);
    when_taken(taken)
}

/// Puts the flaw on the way and takes the choice that is found, if one is.
pub fn put_found(
    db: &mut Db,
    course: &mut Course,
    branch: Branch,
    found: Option<Decision>,
) -> Result<bool, AllocError>
    requires ready { db.old.behind ≡ false }
    requires admissible { MatchOption found (Unit {0}) (IsAdmissible db.old.database.model (standing db.old.database.history)) }
    ensures takes { TakesFound found branch db.old course.old.branches.items result db.new course.new.branches.items }
    ensures visits { course.new.visits ≡ course.old.visits }
    ensures left_out { course.new.left_out ≡ course.old.left_out }
    ensures still { db.new.behind ≡ false }
{
    match found {
        Some(choice) => put_owned(db, course, branch, choice),
        None => Ok(false),
    }
}
