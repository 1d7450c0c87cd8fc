//! Lines that go round a circle once. A line of eu_forest goes round until it has as many things as there are.

ghost use Rattle.std.specs.Prelude.{◌≡◌, IfOk};
ghost use Rattle.nddl_hierarchy.specs.Rounds.{IsRound, first_met, is_first, unless_first};

use super::circles::is_circle;
use eu_forest::{Lineage, parent_in};
use std::alloc::{AllocError, Global};

/// The thing of this number and what it leads up to, in order, until that comes back to one of them.
pub fn one_round(
    alloc: Global,
    parents: &[Option<usize>],
    lineage: &Lineage,
    number: usize,
) -> Result<Vec<usize>, AllocError>
    ensures { IfOk result (λ line. IsRound parents.now number line.items) }
{
    let mut line = Vec::new(alloc);
    let mut first = None;
    let mut next = Some(number);
    for _ in 0..parents.len() {
        match next {
            Some(here) => {
                line.push(here)?;
                first = first_met(lineage, first, here);
                next = unless_first(first, parent_in(parents, here));
            }
            None => break,
        }
    }
    Ok(line)
}

// The first thing of a line that stands on a circle, if this one comes next.
fn first_met(lineage: &Lineage, first: Option<usize>, here: usize) -> Option<usize>
    ensures { result ≡ first_met lineage.now.marks.items first here }
{
    match first {
        Some(first) => Some(first),
        None => {
            if is_circle(lineage.rootedness(here)) {
                Some(here)
            } else {
                None
            }
        }
    }
}

// Whether it is that one.
fn is_first(first: Option<usize>, number: usize) -> bool
    ensures { result ≡ is_first first number }
{
    match first {
        Some(first) => first == number,
        None => false,
    }
}

// What comes next, unless it is that one.
fn unless_first(first: Option<usize>, next: Option<usize>) -> Option<usize>
    ensures { result ≡ unless_first first next }
{
    let number = next?;
    if is_first(first, number) {
        None
    } else {
        Some(number)
    }
}
