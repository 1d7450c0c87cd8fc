//! Domains: that there is memory for sets and copies, which no clause says, and the calls on both kinds by hand.

use super::rows::{Row, assert_rows, both};
use super::shapes::Written::{Ends, Members};
use super::shapes::{Shape, Written, made, shape};
use domain_core::{Change, Dom, SetFault};
use std::alloc::Global;

/// The shape of a copy.
fn copied(domain: &Dom) -> Option<Shape> {
    match domain.copy() {
        Ok(copied) => Some(shape(&copied)),
        Err(_) => None,
    }
}

/// The shape of a copy of the domain that is written so.
fn copied_from(alloc: Global, written: Written) -> Option<Shape> {
    match made(alloc, written) {
        Some(domain) => copied(&domain),
        None => None,
    }
}

/// The shape of the set of the list, or why there is none.
fn set_of(alloc: Global, values: &[i32]) -> Result<Shape, SetFault> {
    match Dom::set_of(alloc, values) {
        Ok(set) => Ok(shape(&set)),
        Err(fault) => Err(fault),
    }
}

/// The numbers below the count, with a zero after each.
fn numbers(alloc: Global, count: i32) -> Option<Vec<i32>> {
    let mut numbers = Vec::new(alloc);
    for number in 0..count {
        if numbers.push(number).is_err() || numbers.push(0).is_err() {
            return None;
        }
    }
    Some(numbers)
}

/// The shape of the set of so many numbers, or why there is none.
fn set_of_many(alloc: Global, count: i32) -> Option<Result<Shape, SetFault>> {
    match numbers(alloc, count) {
        Some(numbers) => Some(set_of(alloc, numbers.as_slice())),
        None => None,
    }
}

/// A list, and the shape of its set, or why it has none.
struct Listed(&'static [i32], Result<Shape, SetFault>);

impl Row for Listed {
    fn holds(&self, alloc: Global) -> bool {
        set_of(alloc, self.0) == self.1
    }
}

static LISTS: [Listed; 3] = [
    Listed(&[7, -3, 7, 1_000_000, 0, -3], Ok((false, -3, 1_000_000, 4))),
    Listed(&[], Err(SetFault::Empty)),
    Listed(&[1, 1_000_001], Err(SetFault::OutOfRange)),
];

#[test]
fn sets_are_made_of_lists(rt: HostRuntime) {
    assert_rows(&rt, &LISTS);
}

/// Whether so many numbers have a set of them all.
fn is_whole(alloc: Global, count: i32) -> bool {
    set_of_many(alloc, count) == Some(Ok((false, 0, count.saturating_sub(1), count.unsigned_abs())))
}

/// Whether so many numbers are too many.
fn is_too_many(alloc: Global, count: i32) -> bool {
    set_of_many(alloc, count) == Some(Err(SetFault::TooMany))
}

#[test]
fn sets_have_4096_members_at_most(rt: HostRuntime) {
    assert!(rt; is_whole(rt.alloc(), 4096));
    assert!(rt; is_too_many(rt.alloc(), 4097));
}

/// A domain, and the shape of its copy.
struct CopyOf(Written, Shape);

impl Row for CopyOf {
    fn holds(&self, alloc: Global) -> bool {
        copied_from(alloc, self.0) == Some(self.1)
    }
}

static COPIES: [CopyOf; 2] = [
    CopyOf(Members(&[5, 2]), (false, 2, 5, 2)),
    CopyOf(Ends(-2, 2), (true, -2, 2, 5)),
];

#[test]
fn copies_are_equal(rt: HostRuntime) {
    assert_rows(&rt, &COPIES);
}

/// What meeting the other domain answers and leaves.
fn met_with(own: &mut Dom, other: &Dom) -> (Change, Shape) {
    let change = own.meet_set(other);
    (change, shape(own))
}

fn met(alloc: Global, own: Written, other: Written) -> Option<(Change, Shape)> {
    match both(made(alloc, own), made(alloc, other)) {
        Some((mut own, other)) => Some(met_with(&mut own, &other)),
        None => None,
    }
}

/// What is met with what, the answer, and what is left.
struct Meeting(Written, Written, Change, Shape);

impl Row for Meeting {
    fn holds(&self, alloc: Global) -> bool {
        met(alloc, self.0, self.1) == Some((self.2, self.3))
    }
}

static MEETINGS: [Meeting; 5] = [
    Meeting(
        Ends(1, 7),
        Members(&[0, 2, 4, 6, 8]),
        Change::Smaller,
        (true, 2, 6, 5),
    ),
    Meeting(
        Members(&[0, 2, 4, 6, 8]),
        Ends(2, 5),
        Change::Smaller,
        (false, 2, 4, 2),
    ),
    Meeting(
        Members(&[2, 4]),
        Members(&[3, 6, 9]),
        Change::Empty,
        (false, 2, 4, 2),
    ),
    Meeting(
        Members(&[3, 6, 9]),
        Members(&[0, 2, 4, 6, 8]),
        Change::Smaller,
        (false, 6, 6, 1),
    ),
    Meeting(Ends(2, 5), Ends(0, 9), Change::Same, (true, 2, 5, 4)),
];

#[test]
fn domains_are_met(rt: HostRuntime) {
    assert_rows(&rt, &MEETINGS);
}

/// What taking the value out answers and leaves.
fn dropped_from(own: &mut Dom, value: i32) -> (Change, Shape) {
    let change = own.drop_value(value);
    (change, shape(own))
}

fn dropped(alloc: Global, own: Written, value: i32) -> Option<(Change, Shape)> {
    match made(alloc, own) {
        Some(mut own) => Some(dropped_from(&mut own, value)),
        None => None,
    }
}

/// What is taken out of what, the answer, and what is left.
struct TakenOut(Written, i32, Change, Shape);

impl Row for TakenOut {
    fn holds(&self, alloc: Global) -> bool {
        dropped(alloc, self.0, self.1) == Some((self.2, self.3))
    }
}

static DROPS: [TakenOut; 5] = [
    TakenOut(Ends(2, 6), 4, Change::Same, (true, 2, 6, 5)),
    TakenOut(Ends(2, 6), 6, Change::Smaller, (true, 2, 5, 4)),
    TakenOut(Members(&[2, 4]), 3, Change::Same, (false, 2, 4, 2)),
    TakenOut(Members(&[2, 4]), 2, Change::Smaller, (false, 4, 4, 1)),
    TakenOut(Members(&[4]), 4, Change::Empty, (false, 4, 4, 1)),
];

#[test]
fn values_are_taken_out(rt: HostRuntime) {
    assert_rows(&rt, &DROPS);
}
