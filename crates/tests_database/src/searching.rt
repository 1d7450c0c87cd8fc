//! Searches for a plan, and what they leave.

ghost use Rattle.std.specs.Prelude.{◌≤◌};

use super::asking::model_of;
use super::names::{decision, parts};
use super::trial::{Trial, told_on_rounds};
use flaw_core::Plain;
use plan_db::Db;
use solver_core::{SearchEnd, SolveFault, solve};
use std::alloc::{AllocError, Global};
use std::process::Abort;

/// A search: in how many visits, with how many active tokens, and from which decisions.
#[derive(Clone, Copy)]
struct Search(&'static str);

// How a search ends, then how many decisions stand, and how many steps can be taken back.
type End = (Result<SearchEnd, SolveFault>, usize, u64);

/// Searches, and how they end. The first list that is found activates one, merges two and three with it, activates link and
/// other, rejects lost after trying to activate it, merges link/0:0 with link, and gives seven variables their least value.
const ENDS: &str = "
0 512 | Budget(0) 0 0
1 512 | Budget(1) 0 0
15 512 | Budget(15) 0 0
16 512 | Found(16) 14 14
100 0 | Exhausted(1, true) 0 0
3 1 | Budget(3) 0 0
4 1 | Exhausted(4, true) 0 0
14 2 | Budget(14) 0 0
15 2 | Found(15) 14 14
16 512 activate one, activate two | Budget(16) 2 2
17 512 activate one, activate two | Found(17) 17 17
5 5 specify x 5, specify y 3 | InInconsistent 2 2
";

fn take_choice(alloc: Global, db: &mut Db, choice: &str) {
    if let Some(decision) = decision(alloc, model_of(db), choice) {
        let _answer = db.apply(&decision);
    }
}

fn take_all(alloc: Global, db: &mut Db, choices: &str) {
    for choice in choices.split_terminator(", ") {
        take_choice(alloc, db, choice);
    }
}

fn searched(alloc: Global, db: &mut Db, from: &str, steps: u32, tokens: u32) -> End
    requires { tokens ≤ 512 }
{
    take_all(alloc, db, from);
    let end = solve(alloc, db, &Plain, steps, tokens);
    (end, db.decisions().len(), db.history())
}

impl Trial for Search {
    type Told = Option<End>;

    fn tell(&self, alloc: Global, db: &mut Db) -> Option<End> {
        let (steps, rest) = parts(self.0);
        let (tokens, from) = parts(rest);
        let (steps, tokens) = (steps.parse().unwrap_or(0), tokens.parse().unwrap_or(513));
        if tokens <= 512 {
            Some(searched(alloc, db, from, steps, tokens))
        } else {
            None
        }
    }
}

// What is told, in words.
fn words(alloc: Global, told: Option<End>) -> Result<String, AllocError> {
    match told {
        Some((Ok(end), count, history)) => format!(in alloc; "{end:?} {count} {history}"),
        Some((Err(fault), count, history)) => format!(in alloc; "{fault:?} {count} {history}"),
        None => String::from_str(alloc, "nothing"),
    }
}

fn is_told(alloc: Global, search: Search, wanted: &str) -> bool {
    let told = match told_on_rounds(alloc, &search) {
        Ok(told) => told,
        Err(_none) => None,
    };
    match words(alloc, told) {
        Ok(found) => found.as_str() == wanted,
        Err(_none) => false,
    }
}

fn assert_end<R: Abort + AllocGlobal>(rt: &R, row: &'static str) {
    let (search, wanted) = row.split_once(" | ").unwrap_or((row, ""));
    if !row.is_empty() && !is_told(rt.alloc(), Search(search), wanted) {
        panic!(rt; "{row}");
    }
}

#[test]
fn searches_end_so(rt: HostRuntime) {
    for row in ENDS.split('\n') {
        assert_end(&rt, row);
    }
}
