//! Each constraint, run through its bound on domains that were narrowed by hand: that the definitions say what is
//! meant, and that the calls answer.

ghost use Rattle.std.specs.Prelude.{◌≡◌};

use super::rows::{Row, assert_rows, both};
use super::shapes::Written::{Ends, Members};
use super::shapes::{Shape, Written, made, shape};
use Change::{Empty, Same, Smaller};
use domain_core::{Change, Dom};
use narrow_core::field::Field;
use narrow_core::narrow::Narrow;
use narrow_core::{AddEq, Eq, FieldEntry, Leq, Lt, MulEq, Neq, TestEq, TestLeq};
use std::alloc::Global;

/// What the constraint answers and leaves of two domains.
fn narrowed_pair<C: Narrow>(constraint: &C, domains: [Dom; 2]) -> (Change, [Shape; 2])
    requires { C.count constraint.now ≡ 2 }
{
    let mut domains = domains;
    let change = constraint.narrow(&mut domains);
    (change, [shape(&domains[0]), shape(&domains[1])])
}

/// What the constraint answers and leaves of two domains that are written.
fn pair<C: Narrow>(
    alloc: Global,
    constraint: &C,
    args: [Written; 2],
) -> Option<(Change, [Shape; 2])>
    requires { C.count constraint.now ≡ 2 }
{
    match both(made(alloc, args[0]), made(alloc, args[1])) {
        Some((x, y)) => Some(narrowed_pair(constraint, [x, y])),
        None => None,
    }
}

/// A constraint of two arguments.
#[derive(Clone, Copy)]
enum OfTwo {
    Equal,
    Apart,
    Less,
    AtMost,
    Thrice,
    MinusThrice,
}

fn narrowed_two(
    alloc: Global,
    constraint: OfTwo,
    args: [Written; 2],
) -> Option<(Change, [Shape; 2])> {
    match constraint {
        OfTwo::Equal => pair(alloc, &Eq, args),
        OfTwo::Apart => pair(alloc, &Neq, args),
        OfTwo::Less => pair(alloc, &Lt, args),
        OfTwo::AtMost => pair(alloc, &Leq, args),
        OfTwo::Thrice => pair(alloc, &MulEq::by(3), args),
        OfTwo::MinusThrice => pair(alloc, &MulEq::by(-3), args),
    }
}

/// A constraint and two arguments, what is answered, and what is left.
struct TwoArgs(OfTwo, &'static [Written; 2], Change, [Shape; 2]);

impl Row for TwoArgs {
    fn holds(&self, alloc: Global) -> bool {
        narrowed_two(alloc, self.0, *self.1) == Some((self.2, self.3))
    }
}

static PAIRS: [TwoArgs; 9] = [
    TwoArgs(
        OfTwo::Equal,
        &[Ends(0, 9), Members(&[2, 5, 12])],
        Smaller,
        [(true, 2, 5, 4), (false, 2, 5, 2)],
    ),
    TwoArgs(
        OfTwo::Apart,
        &[Ends(0, 9), Ends(9, 9)],
        Smaller,
        [(true, 0, 8, 9), (true, 9, 9, 1)],
    ),
    TwoArgs(
        OfTwo::Apart,
        &[Ends(0, 9), Members(&[4, 4, 4])],
        Same,
        [(true, 0, 9, 10), (false, 4, 4, 1)],
    ),
    TwoArgs(
        OfTwo::Apart,
        &[Ends(3, 3), Ends(3, 3)],
        Empty,
        [(true, 3, 3, 1), (true, 3, 3, 1)],
    ),
    TwoArgs(
        OfTwo::Less,
        &[Ends(0, 9), Ends(0, 9)],
        Smaller,
        [(true, 0, 8, 9), (true, 1, 9, 9)],
    ),
    TwoArgs(
        OfTwo::AtMost,
        &[Ends(3, 9), Members(&[1, 4, 7])],
        Smaller,
        [(true, 3, 7, 5), (false, 4, 7, 2)],
    ),
    TwoArgs(
        OfTwo::Thrice,
        &[Ends(0, 3), Ends(1, 8)],
        Smaller,
        [(true, 1, 2, 2), (true, 3, 6, 4)],
    ),
    TwoArgs(
        OfTwo::MinusThrice,
        &[Ends(-5, 5), Ends(-8, 2)],
        Smaller,
        [(true, 0, 2, 3), (true, -6, 0, 7)],
    ),
    TwoArgs(
        OfTwo::MinusThrice,
        &[Ends(0, 2), Members(&[-6, -1, 0])],
        Smaller,
        [(true, 0, 2, 3), (false, -6, 0, 2)],
    ),
];

#[test]
fn two_arguments_are_narrowed(rt: HostRuntime) {
    assert_rows(&rt, &PAIRS);
}

/// What the constraint answers and leaves of three domains.
fn narrowed_triple<C: Narrow>(constraint: &C, domains: [Dom; 3]) -> (Change, [Shape; 3])
    requires { C.count constraint.now ≡ 3 }
{
    let mut domains = domains;
    let change = constraint.narrow(&mut domains);
    (
        change,
        [shape(&domains[0]), shape(&domains[1]), shape(&domains[2])],
    )
}

/// What the constraint answers and leaves of three domains that are written.
fn triple<C: Narrow>(
    alloc: Global,
    constraint: &C,
    args: [Written; 3],
) -> Option<(Change, [Shape; 3])>
    requires { C.count constraint.now ≡ 3 }
{
    let second_and_third = both(made(alloc, args[1]), made(alloc, args[2]));
    match both(made(alloc, args[0]), second_and_third) {
        Some((x, (y, z))) => Some(narrowed_triple(constraint, [x, y, z])),
        None => None,
    }
}

/// A constraint of three arguments.
#[derive(Clone, Copy)]
enum OfThree {
    Sum,
    WhetherEqual,
    WhetherAtMost,
}

fn narrowed_three(
    alloc: Global,
    constraint: OfThree,
    args: [Written; 3],
) -> Option<(Change, [Shape; 3])> {
    match constraint {
        OfThree::Sum => triple(alloc, &AddEq, args),
        OfThree::WhetherEqual => triple(alloc, &TestEq, args),
        OfThree::WhetherAtMost => triple(alloc, &TestLeq, args),
    }
}

/// A constraint and three arguments, what is answered, and what is left.
struct ThreeArgs(OfThree, &'static [Written; 3], Change, [Shape; 3]);

impl Row for ThreeArgs {
    fn holds(&self, alloc: Global) -> bool {
        narrowed_three(alloc, self.0, *self.1) == Some((self.2, self.3))
    }
}

static TRIPLES: [ThreeArgs; 5] = [
    ThreeArgs(
        OfThree::Sum,
        &[Ends(0, 10), Ends(2, 3), Ends(1, 6)],
        Smaller,
        [(true, 0, 4, 5), (true, 2, 3, 2), (true, 2, 6, 5)],
    ),
    ThreeArgs(
        OfThree::WhetherEqual,
        &[
            Members(&[0, 1, 1]),
            Members(&[1, 2, 2]),
            Members(&[3, 4, 4]),
        ],
        Smaller,
        [(false, 0, 0, 1), (false, 1, 2, 2), (false, 3, 4, 2)],
    ),
    ThreeArgs(
        OfThree::WhetherEqual,
        &[Members(&[1, 1, 1]), Members(&[1, 2, 3]), Ends(2, 9)],
        Smaller,
        [(false, 1, 1, 1), (false, 2, 3, 2), (true, 2, 3, 2)],
    ),
    ThreeArgs(
        OfThree::WhetherAtMost,
        &[Members(&[0, 1, 1]), Ends(0, 2), Ends(2, 9)],
        Smaller,
        [(false, 1, 1, 1), (true, 0, 2, 3), (true, 2, 9, 8)],
    ),
    ThreeArgs(
        OfThree::WhetherAtMost,
        &[Members(&[0, 0, 0]), Ends(0, 9), Ends(3, 7)],
        Smaller,
        [(false, 0, 0, 1), (true, 4, 9, 6), (true, 3, 7, 5)],
    ),
];

#[test]
fn three_arguments_are_narrowed(rt: HostRuntime) {
    assert_rows(&rt, &TRIPLES);
}

/// A field of three objects.
fn field(alloc: Global) -> Option<Field> {
    let entries = [
        FieldEntry {
            object: 0,
            value: 20,
        },
        FieldEntry {
            object: 1,
            value: 30,
        },
        FieldEntry {
            object: 2,
            value: 20,
        },
    ];
    match Vec::from_slice(alloc, entries.as_slice()) {
        Ok(entries) => Field::new(entries).ok(),
        Err(_) => None,
    }
}

fn field_narrowed(alloc: Global, args: [Written; 2]) -> Option<(Change, [Shape; 2])> {
    match field(alloc) {
        Some(field) => pair(alloc, &field, args),
        None => None,
    }
}

/// Objects and values, what the field answers, and what is left.
struct OfField(&'static [Written; 2], Change, [Shape; 2]);

impl Row for OfField {
    fn holds(&self, alloc: Global) -> bool {
        field_narrowed(alloc, *self.0) == Some((self.1, self.2))
    }
}

static FIELDS: [OfField; 4] = [
    OfField(
        &[Members(&[0, 1, 2]), Ends(20, 25)],
        Smaller,
        [(false, 0, 2, 2), (true, 20, 20, 1)],
    ),
    OfField(
        &[Members(&[1, 1, 1]), Members(&[20, 25, 30])],
        Smaller,
        [(false, 1, 1, 1), (false, 30, 30, 1)],
    ),
    OfField(
        &[Members(&[0, 1, 2]), Members(&[20, 25, 30])],
        Smaller,
        [(false, 0, 2, 3), (false, 20, 30, 2)],
    ),
    OfField(
        &[Members(&[1, 1, 1]), Members(&[10, 20, 40])],
        Empty,
        [(false, 1, 1, 1), (false, 10, 40, 3)],
    ),
];

#[test]
fn a_field_is_narrowed(rt: HostRuntime) {
    assert_rows(&rt, &FIELDS);
}
