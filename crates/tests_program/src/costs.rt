//! What going back costs in a problem of some size.

use eu_name::text::Text;
use flaw_core::Plain;
use model_core::decision::Decision;
use plan_db::Db;
use plan_db::release::discard;
use problem_gen::generate;
use run_load::{PoseFault, pose};
use solver_core::{SearchEnd, solve};
use std::alloc::Global;
use tests_samples::shelf_of;

/// The narrowings for taking the last decision back, for taking it again, and for building anew.
type Works = [Option<u64>; 3];

const NONE: Works = [None; 3];

// The narrowings since there were so many.
fn since(db: &Db, before: u64) -> u64 {
    db.work().saturating_sub(before)
}

fn work_back(db: &mut Db) -> Option<u64> {
    let before = db.work();
    match db.backtrack() {
        Ok(()) => Some(since(db, before)),
        Err(_fault) => None,
    }
}

fn work_again(db: &mut Db, decision: &Decision) -> Option<u64> {
    let before = db.work();
    match db.apply(decision) {
        Ok(_outcome) if db.is_consistent() => Some(since(db, before)),
        _ => None,
    }
}

fn work_anew(db: &mut Db) -> Option<u64> {
    let before = db.work();
    match db.rebuild() {
        Ok(()) => Some(since(db, before)),
        Err(_none) => None,
    }
}

fn works_with(db: &mut Db, last: &Decision) -> Works {
    let back = work_back(db);
    let again = work_again(db, last);
    [back, again, work_anew(db)]
}

// Whether the decision activates a subgoal of this root.
fn activates_below(decision: &Decision, root: u32) -> bool {
    match decision {
        Decision::Activate(token) => token.root == root && token.steps.len() == 1,
        _ => false,
    }
}

// The last decision, if it activates a subgoal of this root.
fn last_below(db: &Db, root: u32) -> Option<Decision> {
    match db.decisions().last() {
        Some(last) if activates_below(last, root) => last.copy().ok(),
        _ => None,
    }
}

fn works_at_end(db: &mut Db, root: u32) -> Works {
    match last_below(db, root) {
        Some(last) => works_with(db, &last),
        None => NONE,
    }
}

// The narrowings of all these behind a search that finds a plan.
fn works_found(alloc: Global, db: &mut Db, root: u32) -> Works {
    match solve(alloc, db, &Plain, 100_000, 512) {
        Ok(SearchEnd::Found(_visits)) => works_at_end(db, root),
        _ => NONE,
    }
}

// The narrowings in this database, which is then let go.
fn works_in(alloc: Global, db: Db, root: u32) -> Works {
    let mut db = db;
    let works = works_found(alloc, &mut db, root);
    discard(db);
    works
}

// The database that the text poses.
fn posed(alloc: Global, text: &str) -> Result<Db, PoseFault> {
    let name = Text::from_str(alloc, "gen")?;
    let mut shelf = shelf_of(alloc, &[("gen", text)])?;
    pose(alloc, &mut shelf, &name)
}

// The narrowings in the problem of this text.
fn works_on(alloc: Global, text: &str, root: u32) -> Works {
    match posed(alloc, text) {
        Ok(db) => works_in(alloc, db, root),
        Err(_fault) => NONE,
    }
}

// The narrowings in the generated problem of so many goals, the last of which has this number.
fn generated_works(alloc: Global, count: u32, last: u32) -> Works {
    match generate(alloc, count) {
        Ok(text) => works_on(
            alloc,
            std::str::from_utf8(text.as_slice()).unwrap_or(""),
            last,
        ),
        Err(_fault) => NONE,
    }
}

// Whether two counts together are a tenth of a third one at most, which is this one at least.
fn are_tenth(works: Works, least: u64) -> bool {
    match works {
        [Some(back), Some(again), Some(anew)] => {
            back == 0 && least <= anew && again <= anew / 10
        }
        _ => false,
    }
}

// The last decision activates the subgoal of the last goal, all of whose variables have one value by then. Building anew narrows
// each item once at least: of each of forty goals its two and the three of its rule, and of each of eighty tokens that it lasts
// as it says.
#[test]
fn going_back_costs_a_tenth_of_building_anew(rt: HostRuntime) {
    assert!(rt; are_tenth(generated_works(rt.alloc(), 40, 39), 280));
}
