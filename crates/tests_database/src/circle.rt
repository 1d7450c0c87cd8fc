//! Three tokens of one track in a circle: how often each variable was written, and the time edges of the circle.

use super::asking::model_of;
use super::deciding::take_choice;
use super::names::variable;
use super::reasons::are_edges;
use super::steps::{is_taken, is_text};
use super::trial::{Trial, told_on_rounds};
use plan_db::Db;
use std::alloc::Global;
use std::process::Abort;

// Whether a stamp is greater than an earlier one, the same, or neither.
#[derive(Clone, Copy, Debug, PartialEq, Eq)]
enum Change {
    Written,
    Same,
    Untold,
    /// The turn isn't taken.
    Refused,
}

fn stamp(alloc: Global, db: &Db, name: &str) -> Option<u64> {
    match variable(alloc, model_of(db), name) {
        Some(variable) => db.stamp(&variable),
        None => None,
    }
}

fn compare(before: Option<u64>, after: Option<u64>) -> Change {
    match (before, after) {
        (Some(before), Some(after)) => {
            if after > before {
                Change::Written
            } else if after == before {
                Change::Same
            } else {
                Change::Untold
            }
        }
        _ => Change::Untold,
    }
}

// Takes a decision, or the last one back, and answers whether that is done.
fn take_turn(alloc: Global, db: &mut Db, turn: &str) -> bool {
    if turn == "back" {
        db.backtrack().is_ok()
    } else {
        is_taken(take_choice(alloc, db, turn))
    }
}

// Takes the turn, and tells what becomes of the stamp of the variable.
fn watch_turn(alloc: Global, db: &mut Db, turn: &str, name: &str) -> Change {
    let before = stamp(alloc, db, name);
    if take_turn(alloc, db, turn) {
        compare(before, stamp(alloc, db, name))
    } else {
        Change::Refused
    }
}

fn activate_all(alloc: Global, db: &mut Db) -> bool {
    let mut all = true;
    for choice in ["activate one", "activate two", "activate three"] {
        all = all && take_turn(alloc, db, choice);
    }
    all
}

// The first is put before the second, that is taken back, and then the circle is gone round.
const ROUND: [&str; 5] = [
    "order one two",
    "back",
    "order one two",
    "order two three",
    "order three one",
];

/// A variable, of which it is told what becomes of its stamp at each turn of the round.
#[derive(Clone, Copy)]
struct Watched(&'static str);

fn changes(alloc: Global, db: &mut Db, name: &str) -> [Change; 5] {
    let [ahead, back, again, on, round] = ROUND;
    let ahead = watch_turn(alloc, db, ahead, name);
    let back = watch_turn(alloc, db, back, name);
    let again = watch_turn(alloc, db, again, name);
    let on = watch_turn(alloc, db, on, name);
    [ahead, back, again, on, watch_turn(alloc, db, round, name)]
}

impl Trial for Watched {
    type Told = [Change; 5];

    fn tell(&self, alloc: Global, db: &mut Db) -> [Change; 5] {
        if activate_all(alloc, db) {
            changes(alloc, db, self.0)
        } else {
            [Change::Refused; 5]
        }
    }
}

// All variables, and what becomes of their stamps. The horizon is from 0 to 10, and a token lasts one tick at least. One before
// two takes a tick from the end of the first and from the beginning of the second, so both last 9 at most; two before three
// takes a further one from each, and two from the beginning of the third. Round the circle nothing is possible.
const STAMPS: &str =
    "one.start one.end one.duration two.start two.end two.duration | [Written, Written, Written, Written, Untold]
three.start three.end three.duration | [Same, Same, Same, Written, Untold]
one.object two.object three.object x y z | [Same, Same, Same, Same, Untold]
link.start link.end link.duration link.object | [Same, Same, Same, Same, Untold]
other.start other.end other.duration other.object | [Same, Same, Same, Same, Untold]
lost.start lost.end lost.duration lost.object | [Same, Same, Same, Same, Untold]";

fn is_changed(alloc: Global, name: &'static str, wanted: &str) -> bool {
    match told_on_rounds(alloc, &Watched(name)) {
        Ok(changes) => is_text(format!(in alloc; "{changes:?}"), wanted),
        Err(_none) => false,
    }
}

fn assert_changed<R: Abort + AllocGlobal>(rt: &R, row: &'static str) {
    let (names, wanted) = row.split_once(" | ").unwrap_or((row, ""));
    for name in names.split(' ') {
        if !is_changed(rt.alloc(), name, wanted) {
            panic!(rt; "{name}");
        }
    }
}

#[test]
fn stamps_follow_the_circle(rt: HostRuntime) {
    for row in STAMPS.split('\n') {
        assert_changed(&rt, row);
    }
}

fn goes_round(alloc: Global, db: &mut Db) -> bool {
    let mut all = true;
    for turn in &ROUND {
        all = all && take_turn(alloc, db, turn);
    }
    all
}

// The edges that have to be there, in order: those of each token by itself, and those of the orders.
const EDGES: &str =
    "origin 0 one.start, one.end -10 origin, one.start 1 one.end, one.end -8 one.start, \
    origin 0 two.start, two.end -10 origin, two.start 1 two.end, two.end -8 two.start, \
    origin 0 three.start, three.end -10 origin, three.start 1 three.end, three.end -8 three.start, \
    one.end 0 two.start, two.end 0 three.start, three.end 0 one.start";

fn has_edges(alloc: Global, db: &Db) -> bool {
    match db.time_edges() {
        Ok(edges) => are_edges(alloc, model_of(db), edges.as_slice(), EDGES),
        Err(_fault) => false,
    }
}

// Whether there are no edges before the last decision, each turn is taken, and the edges are there in the end.
fn is_told(alloc: Global, db: &mut Db) -> bool {
    let free = activate_all(alloc, db) && db.time_edges().is_err();
    free && goes_round(alloc, db) && has_edges(alloc, db)
}

/// Whether the circle is told.
#[derive(Clone, Copy)]
struct Circle;

impl Trial for Circle {
    type Told = bool;

    fn tell(&self, alloc: Global, db: &mut Db) -> bool {
        is_told(alloc, db)
    }
}

#[test]
fn a_circle_is_told(rt: HostRuntime) {
    assert!(rt; told_on_rounds(rt.alloc(), &Circle) == Ok(true));
}
