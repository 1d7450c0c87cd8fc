//! Runs steps on a database, and compares what each answers.

use super::asking::{
    domain, has_plan, has_tokens, is_flawed, is_unseen, is_untold, model_of, ordered, stand,
    token_fate,
};
use super::names::{decision, parts, subject};
use super::reasons::{has_no_reason, is_conflict, is_cycle};
use super::steps::{Said, is_text};
use super::trial::Trial;
use plan_db::{Db, DbFault, Outcome, QueryFault};
use std::alloc::Global;

/// The plan of the mission where `here` is merged.
const MERGED: &str = "plan
global total 4
global !1 0
global mode slow
global on false
fact base Rover.At start 0 end 1 duration 1 object spirit place 1
merged here base
rejected there
rejected drill
rejected sun
rejected work
end
";

/// The plan of the mission where `here` is active.
const ACTIVE: &str = "plan
global total 4
global !1 0
global mode slow
global on false
fact base Rover.At start 0 end 1 duration 1 object spirit place 1
token here Rover.At start 2 end 4 duration 2 object spirit place 3
local here/0!0 1
rejected there
rejected drill
rejected sun
rejected work
token here/0:1 Arm.uses start 2 end 4 duration 2 object arm quantity 1
end
";

/// The answer, in one value.
pub fn said(answer: Result<Outcome, DbFault>) -> Said {
    match answer {
        Ok(Outcome::Consistent) => Said::Fits,
        Ok(Outcome::Inconsistent) => Said::Fails,
        Err(fault) => Said::Refused(fault),
    }
}

/// Takes the decision, if the model has what it names.
pub fn take_choice(alloc: Global, db: &mut Db, choice: &str) -> Option<Said> {
    match decision(alloc, model_of(db), choice) {
        Some(decision) => Some(said(db.apply(&decision))),
        None => None,
    }
}

fn reset(alloc: Global, db: &mut Db, on: &str) -> Option<Said> {
    match subject(alloc, model_of(db), on) {
        Some(subject) => Some(said(db.reset(&subject))),
        None => None,
    }
}

fn backtrack(db: &mut Db) -> Said {
    match db.backtrack() {
        Ok(()) => Said::Done,
        Err(fault) => Said::Refused(fault),
    }
}

fn rebuild(db: &mut Db) -> Option<Said> {
    match db.rebuild() {
        Ok(()) => Some(Said::Done),
        Err(_none) => None,
    }
}

// What the step that changes something answers.
fn changed(alloc: Global, db: &mut Db, step: &str) -> Option<Said> {
    let (word, rest) = parts(step);
    match word {
        "reset" => reset(alloc, db, rest),
        "undo" => Some(said(db.undo())),
        "backtrack" => Some(backtrack(db)),
        "rebuild" => rebuild(db),
        _ => take_choice(alloc, db, step),
    }
}

// Whether the variable has this least, this greatest, and so many values.
fn is_domain(alloc: Global, db: &Db, name: &str, wanted: &str) -> bool {
    match domain(alloc, db, name) {
        Some((lo, hi, count)) => is_text(format!(in alloc; "{lo} {hi} {count}"), wanted),
        None => false,
    }
}

fn is_fate(alloc: Global, db: &Db, name: &str, wanted: &str) -> bool {
    match token_fate(alloc, db, name) {
        Some(fate) => is_text(format!(in alloc; "{fate:?}"), wanted),
        None => false,
    }
}

fn is_said(alloc: Global, said: Option<Said>, wanted: &str) -> bool {
    match said {
        Some(said) => is_text(format!(in alloc; "{said:?}"), wanted),
        None => false,
    }
}

// Whether the decisions put the one token before the other.
fn are_ordered(alloc: Global, db: &Db, tokens: &str, wanted: &str) -> bool {
    let (first, second) = parts(tokens);
    match ordered(alloc, db, first, second) {
        Some(is) => is_text(format!(in alloc; "{is}"), wanted),
        None => false,
    }
}

fn plan_text(name: &str) -> &'static str {
    if name == "MERGED" { MERGED } else { ACTIVE }
}

// Whether the values and what has become of a token are so, or what is listed; none, where another thing is asked for.
fn is_so(alloc: Global, db: &Db, step: &str, wanted: &str) -> Option<bool> {
    let (word, rest) = parts(step);
    match word {
        "domain" => Some(is_domain(alloc, db, rest, wanted)),
        "unknown" => Some(is_untold(alloc, db, rest, QueryFault::Unknown)),
        "unseen" => Some(is_unseen(db)),
        "fate" => Some(is_fate(alloc, db, rest, wanted)),
        _ => is_listed(alloc, db, step, wanted),
    }
}

// Whether the tokens, their order and the decisions are so; none, where another thing is asked for.
fn is_listed(alloc: Global, db: &Db, step: &str, wanted: &str) -> Option<bool> {
    let (word, rest) = parts(step);
    match word {
        "tokens" => Some(has_tokens(alloc, db, rest)),
        "ordered" => Some(are_ordered(alloc, db, rest, wanted)),
        "stand" => Some(stand(alloc, model_of(db), db.decisions(), rest)),
        "history" => Some(wanted.parse() == Ok(db.history())),
        _ => None,
    }
}

// Whether the conflict, the cycle, or the plan is so; none, where another thing is asked for.
fn is_found(alloc: Global, db: &Db, step: &str, wanted: &str) -> Option<bool> {
    let (word, rest) = parts(step);
    match word {
        "why" => Some(is_conflict(alloc, db, rest)),
        "no" => Some(has_no_reason(alloc, db, wanted)),
        "cycle" => Some(is_cycle(alloc, db, rest)),
        "flawed" => Some(is_flawed(alloc, db)),
        "plan" => Some(has_plan(alloc, db, plan_text(rest))),
        _ => None,
    }
}

// Whether the step answers as it says.
fn answers(alloc: Global, db: &mut Db, step: &str, wanted: &str) -> bool {
    match is_so(alloc, db, step, wanted) {
        Some(is) => is,
        None => match is_found(alloc, db, step, wanted) {
            Some(is) => is,
            None => is_said(alloc, changed(alloc, db, step), wanted),
        },
    }
}

// Whether the line is no step, or one that answers as it says.
fn is_right(alloc: Global, db: &mut Db, line: &str) -> bool {
    let (step, wanted) = line.split_once(" | ").unwrap_or((line, ""));
    line.is_empty() || line.starts_with('#') || answers(alloc, db, step, wanted)
}

// The number of the first line that answers something else; none, where all answer as they say.
fn first_wrong_in(alloc: Global, db: &mut Db, lines: &str) -> Option<usize> {
    for (number, line) in lines.split('\n').enumerate() {
        if !is_right(alloc, db, line) || db.is_behind() {
            return Some(number);
        }
    }
    None
}

/// A title and steps, of which the number of the first is told that answers something else.
#[derive(Clone, Copy)]
pub struct Steps(pub &'static str);

impl Trial for Steps {
    type Told = Option<usize>;

    fn tell(&self, alloc: Global, db: &mut Db) -> Option<usize> {
        let (_title, steps) = self.0.split_once('\n').unwrap_or(("", ""));
        first_wrong_in(alloc, db, steps)
    }
}
