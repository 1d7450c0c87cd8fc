//! The search.

ghost use Rattle.std.specs.Prelude.{◌≡◌, ◌+◌, ◌≤◌, false, length, Ok, Err, MatchBool, MatchResult};
ghost use Rattle.solver_core.specs.declared.ending.SolveFault.TheVariants.{Memory};
ghost use Rattle.solver_core.specs.Solving.{Solves, ProvesPlans};
ghost use Rattle.solver_core.specs.Underway.{Task, IsAbove, ComesTo};
ghost use Rattle.solver_core.specs.Ending.{EndsAs, IsFoundEnd, KeepsFound, RestsAs};

use super::advancing::{Advanced, advance};
use super::course::Course;
use super::ending::SolveFault;
use flaw_core::{FlawRule, SearchEnd};
use plan_db::{Db, rewind};
use std::alloc::{AllocError, Global};

// Visits lists up to the end, or until no unit is left.
fn search<R: FlawRule>(
    db: &mut Db,
    rule: &R,
    course: &mut Course,
    budget: u32,
    bound: u32,
) -> Result<SearchEnd, AllocError>
    ghost task: { Task }
    requires bound { (task.bound ≡ bound) × (bound ≤ 512) }
    requires budget { task.budget ≡ budget }
    requires comes { ComesTo (R.is_first rule.now) (R.are_choices rule.now) task course.old db.old }
    ensures { MatchResult result
        (λ end. EndsAs (R.is_first rule.now) (R.are_choices rule.now) task end db.new)
        (λ _. IsAbove task db.new) }
{
    while course.visits < budget {
        match advance(db, rule, course, bound)? {
            Advanced::Found => return Ok(SearchEnd::Found(course.visits)),
            Advanced::Exhausted => return Ok(SearchEnd::Exhausted(course.visits, course.left_out)),
            Advanced::Taken => {}
        }
    }
    Ok(SearchEnd::Budget(budget))
}

// Searches from the list that stands.
fn search_anew<R: FlawRule>(
    alloc: Global,
    db: &mut Db,
    rule: &R,
    budget: u32,
    bound: u32,
) -> Result<SearchEnd, AllocError>
    ghost task: { Task }
    requires bound { (task.bound ≡ bound) × (bound ≤ 512) }
    requires budget { task.budget ≡ budget }
    requires begun { (task.database ≡ db.old.database) × (db.old.behind ≡ false) }
    ensures { MatchResult result
        (λ end. EndsAs (R.is_first rule.now) (R.are_choices rule.now) task end db.new)
        (λ _. IsAbove task db.new) }
{
    let mut course = Course {
        branches: Vec::new(alloc),
        visits: 0,
        left_out: false,
    };
    search(db, rule, &mut course, budget, bound)
}

// Whether a list was found.
fn is_found(end: &Result<SearchEnd, AllocError>) -> bool
    ensures { MatchBool result (IsFoundEnd end.now) (IsFoundEnd end.now → ⊥) }
{
    match end {
        Ok(SearchEnd::Found(_)) => true,
        Ok(SearchEnd::Exhausted(_, _)) => false,
        Ok(SearchEnd::Budget(_)) => false,
        Err(_) => false,
    }
}

// How a search ended, or that memory was wanting, as the fault of a search.
fn or_memory(end: Result<SearchEnd, AllocError>) -> Result<SearchEnd, SolveFault>
    ensures { MatchResult end (λ end. result ≡ Ok end) (λ _. result ≡ Err Memory) }
{
    match end {
        Ok(end) => Ok(end),
        Err(_none) => Err(SolveFault::Memory),
    }
}

// Takes back what was decided since, unless a list was found.
fn keep_found(db: &mut Db, end: &Result<SearchEnd, AllocError>, before: u64)
    ghost task: { Task }
    requires above { IsAbove task db.old }
    requires before { before + 1 ≡ length task.database.history }
    ensures { KeepsFound task end.now db.old db.new }
{
    if is_found(end) {
        return;
    }
    rewind(db, before);
}

// Searches from the list that stands, and takes back what was decided unless a list was found.
fn run<R: FlawRule>(
    alloc: Global,
    db: &mut Db,
    rule: &R,
    budget: u32,
    bound: u32,
) -> Result<SearchEnd, SolveFault>
    ghost task: { Task }
    requires bound { (task.bound ≡ bound) × (bound ≤ 512) }
    requires budget { task.budget ≡ budget }
    requires begun { (task.database ≡ db.old.database) × (db.old.behind ≡ false) }
    ensures { RestsAs (R.is_first rule.now) (R.are_choices rule.now) task result db.new }
{
    let before = db.history();
    let end = search_anew(alloc, db, rule, budget, bound);
    keep_found(db, &end, before);
    or_memory(end)
}

/// Searches for a list of decisions that begins with the one that stands, and in whose least state the rule finds nothing, in
/// so many visits and with no more active tokens than the bound. After `Found` the decisions found stand, each a step that can be
/// undone. After every other answer the decisions and the history are as before.
pub fn solve<R: FlawRule>(
    alloc: Global,
    db: &mut Db,
    rule: &R,
    budget: u32,
    tokens: u32,
) -> Result<SearchEnd, SolveFault>
    requires { tokens ≤ 512 }
    ensures solves { Solves (R.is_first rule.now) (R.are_choices rule.now) tokens budget db.old result db.new }
    ensures proves { ProvesPlans tokens db.old.database result db.new.database }
{
    if db.is_behind() {
        return Err(SolveFault::Behind);
    }
    if !db.is_consistent() {
        return Err(SolveFault::InInconsistent);
    }
    run(alloc, db, rule, budget, tokens)
}
