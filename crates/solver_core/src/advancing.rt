//! How a search advances: a list is visited, and a further one is gone to.

ghost use Rattle.std.specs.Prelude.{◌≡◌, ◌+◌, ◌^◌, ◌<◌, ◌≤◌, ◌||◌, ◌∷◌, false, length, reverse, IfOk, MatchResult};
ghost use Rattle.solver_core.specs.Underway.{Task, IsAbove, IsLooking, HasFailed, ComesTo, HasAdvanced, TakesNext};

use super::course::{Branch, Course};
use super::taking::put_found;
use super::visiting::{Visited, next_choice, visit};
use flaw_core::{Flaw, FlawRule};
use plan_db::{Db, take_back};
use std::alloc::AllocError;

/// What a search has come to once it advanced.
#[derive(Clone, Copy)]
pub enum Advanced {
    /// The list that stands is found.
    Found,
    /// No list is left to be visited.
    Exhausted,
    /// A choice was taken, and the list that stands is to be visited.
    Taken,
}

// Takes the next choice of a flaw of the list that stands, if there is one left.
fn take_next<R: FlawRule>(
    db: &mut Db,
    rule: &R,
    course: &mut Course,
    branch: Branch,
    bound: u32,
) -> Result<bool, AllocError>
    ghost task: { Task }
    requires bound { (task.bound ≡ bound) × (bound ≤ 512) }
    requires looking { IsLooking (R.is_first rule.now) (R.are_choices rule.now) task branch (reverse course.old.branches.items)
        course.old.visits course.old.left_out db.old }
    ensures takes { MatchResult result
        (λ taken. TakesNext (R.is_first rule.now) (R.are_choices rule.now) task taken course.new db.new)
        (λ _. IsAbove task db.new) }
    ensures kept { IfOk result (λ taken. taken ≡ false → length course.new.branches.items ≡ length course.old.branches.items) }
    ensures visits { course.new.visits ≡ course.old.visits }
{
    let after = Branch {
        flaw: branch.flaw,
        next: branch.next + 1,
    };
    match next_choice(db, rule, &branch, bound) {
        Ok(found) => put_found(db, course, after, found),
        Err(none) => Err(none),
    }
}

// Takes the last decision back, and the next choice of the flaw of the list that then stands.
fn back_to<R: FlawRule>(
    db: &mut Db,
    rule: &R,
    course: &mut Course,
    branch: Branch,
    bound: u32,
) -> Result<bool, AllocError>
    ghost task: { Task }
    requires bound { (task.bound ≡ bound) × (bound ≤ 512) }
    requires failed { HasFailed (R.is_first rule.now) (R.are_choices rule.now) task (branch ∷ reverse course.old.branches.items)
        course.old.visits course.old.left_out db.old }
    ensures takes { MatchResult result
        (λ taken. TakesNext (R.is_first rule.now) (R.are_choices rule.now) task taken course.new db.new)
        (λ _. IsAbove task db.new) }
    ensures kept { IfOk result (λ taken. taken ≡ false → length course.new.branches.items ≡ length course.old.branches.items) }
    ensures visits { course.new.visits ≡ course.old.visits }
{
    take_back(db);
    take_next(db, rule, course, branch, bound)
}

// Goes back, as the list that stands has failed, to the last flaw that has a choice left, and takes it.
fn go_back<R: FlawRule>(
    db: &mut Db,
    rule: &R,
    course: &mut Course,
    bound: u32,
) -> Result<Advanced, AllocError>
    ghost task: { Task }
    requires bound { (task.bound ≡ bound) × (bound ≤ 512) }
    requires failed { HasFailed (R.is_first rule.now) (R.are_choices rule.now) task (reverse course.old.branches.items)
        course.old.visits course.old.left_out db.old }
    ensures advances { MatchResult result
        (λ advanced. HasAdvanced (R.is_first rule.now) (R.are_choices rule.now) task advanced course.new db.new)
        (λ _. IsAbove task db.new) }
    ensures visits { course.new.visits ≡ course.old.visits }
{
    while let Some(branch) = course.branches.pop() {
        if back_to(db, rule, course, branch, bound)? {
            return Ok(Advanced::Taken);
        }
    }
    Ok(Advanced::Exhausted)
}

// Goes back unless a choice was taken.
fn unless_taken<R: FlawRule>(
    db: &mut Db,
    rule: &R,
    course: &mut Course,
    taken: bool,
    bound: u32,
) -> Result<Advanced, AllocError>
    ghost task: { Task }
    requires bound { (task.bound ≡ bound) × (bound ≤ 512) }
    requires taken { TakesNext (R.is_first rule.now) (R.are_choices rule.now) task taken course.old db.old }
    ensures advances { MatchResult result
        (λ advanced. HasAdvanced (R.is_first rule.now) (R.are_choices rule.now) task advanced course.new db.new)
        (λ _. IsAbove task db.new) }
    ensures visits { course.new.visits ≡ course.old.visits }
{
    if taken {
        return Ok(Advanced::Taken);
    }
    go_back(db, rule, course, bound)
}

// Takes the first choice of a flaw, or goes back if it has none.
fn go_on<R: FlawRule>(
    db: &mut Db,
    rule: &R,
    course: &mut Course,
    flaw: Flaw,
    bound: u32,
) -> Result<Advanced, AllocError>
    ghost task: { Task }
    requires bound { (task.bound ≡ bound) × (bound ≤ 512) }
    requires looking { IsLooking (R.is_first rule.now) (R.are_choices rule.now) task (record { flaw = flaw; next = 0 })
        (reverse course.old.branches.items) course.old.visits course.old.left_out db.old }
    ensures advances { MatchResult result
        (λ advanced. HasAdvanced (R.is_first rule.now) (R.are_choices rule.now) task advanced course.new db.new)
        (λ _. IsAbove task db.new) }
    ensures visits { course.new.visits ≡ course.old.visits }
{
    match take_next(db, rule, course, Branch { flaw, next: 0 }, bound) {
        Ok(taken) => unless_taken(db, rule, course, taken, bound),
        Err(none) => Err(none),
    }
}

// Whether one of the two is so.
fn either(one: bool, other: bool) -> bool
    ensures { result ≡ (one || other) }
{
    one || other
}

/// Visits the list that stands, and goes to the next one that is to be visited.
pub fn advance<R: FlawRule>(
    db: &mut Db,
    rule: &R,
    course: &mut Course,
    bound: u32,
) -> Result<Advanced, AllocError>
    ghost task: { Task }
    requires bound { (task.bound ≡ bound) × (bound ≤ 512) }
    requires left { (course.old.visits < task.budget) × (task.budget < 2 ^ 32) }
    requires comes { ComesTo (R.is_first rule.now) (R.are_choices rule.now) task course.old db.old }
    ensures advances { MatchResult result
        (λ advanced. HasAdvanced (R.is_first rule.now) (R.are_choices rule.now) task advanced course.new db.new)
        (λ _. IsAbove task db.new) }
    ensures visits { course.new.visits ≡ course.old.visits + 1 }
{
    course.visits += 1;
    match visit(db, rule, bound) {
        Visited::Collapsed => go_back(db, rule, course, bound),
        Visited::Clear => Ok(Advanced::Found),
        Visited::Flawed(flaw, left_out) => {
            course.left_out = either(course.left_out, left_out);
            go_on(db, rule, course, flaw, bound)
        }
    }
}
