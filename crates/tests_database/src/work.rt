//! How much is done for a decision, and for building anew.

use super::deciding::take_choice;
use super::steps::is_taken;
use super::trial::{Trial, told_on_rounds};
use plan_db::Db;
use std::alloc::Global;
use std::test::Fail;

// The narrowings for taking the decision, which fits.
fn work_of(alloc: Global, db: &mut Db, choice: &str) -> Option<u64> {
    let before = db.work();
    if is_taken(take_choice(alloc, db, choice)) {
        Some(db.work().saturating_sub(before))
    } else {
        None
    }
}

// The narrowings for taking the last decision back.
fn work_back(db: &mut Db) -> Option<u64> {
    let before = db.work();
    match db.backtrack() {
        Ok(()) => Some(db.work().saturating_sub(before)),
        Err(_fault) => None,
    }
}

// The narrowings for building anew.
fn work_anew(db: &mut Db) -> Option<u64> {
    let before = db.work();
    match db.rebuild() {
        Ok(()) => Some(db.work().saturating_sub(before)),
        Err(_none) => None,
    }
}

// The narrowings for a decision on a variable of no constraint, for one on a variable of one, for taking that back, and for
// building anew.
fn works_in(alloc: Global, db: &mut Db) -> [Option<u64>; 4] {
    let free = work_of(alloc, db, "specify z 1");
    let bound = work_of(alloc, db, "specify x 4");
    let back = work_back(db);
    [free, bound, back, work_anew(db)]
}

/// The narrowings of all these.
#[derive(Clone, Copy)]
struct Works;

impl Trial for Works {
    type Told = [Option<u64>; 4];

    fn tell(&self, alloc: Global, db: &mut Db) -> [Option<u64>; 4] {
        works_in(alloc, db)
    }
}

fn is_from(count: Option<u64>, least: u64, below: u64) -> bool {
    match count {
        Some(count) => least <= count && count < below,
        None => false,
    }
}

// The narrowings for a decision on a variable of one constraint, behind another one that was taken back.
fn work_behind(alloc: Global, db: &mut Db, other: &str) -> Option<u64> {
    let _taken = work_of(alloc, db, other)?;
    let _back = work_back(db)?;
    let behind = work_of(alloc, db, "specify x 4");
    let _back = work_back(db)?;
    behind
}

// The same behind a decision that narrows nothing, one that brings tokens, and one that leaves nothing possible.
fn works_behind(alloc: Global, db: &mut Db) -> [Option<u64>; 3] {
    [
        work_behind(alloc, db, "specify z 1"),
        work_behind(alloc, db, "activate link"),
        work_behind(alloc, db, "activate lost"),
    ]
}

/// The narrowings behind each of these.
#[derive(Clone, Copy)]
struct WorksBehind;

impl Trial for WorksBehind {
    type Told = [Option<u64>; 3];

    fn tell(&self, alloc: Global, db: &mut Db) -> [Option<u64>; 3] {
        works_behind(alloc, db)
    }
}

// Building anew narrows each item once at least: one constraint, and of each of six tokens that it lasts as it says.
#[test]
fn a_decision_costs_what_it_touches(rt: HostRuntime) -> Result<(), Fail> {
    let [free, bound, back, anew] = told_on_rounds(rt.alloc(), &Works)?;
    assert!(rt; is_from(free, 0, 1) && is_from(back, 0, 1));
    assert!(rt; is_from(bound, 1, 7));
    assert!(rt; is_from(anew, 7, u64::MAX));
    Ok(())
}

#[test]
fn what_was_taken_back_is_not_paid_again(rt: HostRuntime) -> Result<(), Fail> {
    let [idle, dear, failed] = told_on_rounds(rt.alloc(), &WorksBehind)?;
    assert!(rt; is_from(idle, 1, 7));
    assert!(rt; dear == idle && failed == idle);
    Ok(())
}
