//! Networks: that there is memory for each call, which no clause says, what propagation leaves in rows worked out by
//! hand, and how many narrowings it takes.

ghost use Rattle.std.specs.Prelude.{◌≡◌, ◌<◌, length};
ghost use Rattle.constraint_net.specs.Marks.{KeepMarks};

use super::shapes::Written::{Ends, Members};
use super::shapes::{Shape, Written, made, shape};
use Posted::{AtMostTwo, Equal, Less, Thrice};
use constraint_net::NetArg::{Lit, Var};
use constraint_net::laws::marks_stay;
use constraint_net::{Net, NetFault};
use domain_core::domain::{GREATEST_VALUE, LEAST_VALUE};
use domain_core::kind::Kind;
use domain_core::{Change, Dom};
use std::alloc::Global;

/// What is done with a network, and seen of it in plain values. Only `seen` owns one, since a proof goes through all that an
/// owner may drop.
trait Run {
    type Seen: Drop;

    fn run(&self, net: &mut Net, alloc: Global) -> Self::Seen
        requires { length net.old.tables ≡ 0 };
}

/// What is seen of a new network.
fn seen<R: Run>(alloc: Global, run: &R) -> R::Seen {
    let mut net = Net::new(alloc);
    run.run(&mut net, alloc)
}

/// The number of a new variable with this domain.
fn add(net: &mut Net, alloc: Global, written: Written) -> Option<usize> {
    match made(alloc, written) {
        Some(domain) => net.add_var(domain).ok(),
        None => None,
    }
}

/// What limiting the variable to a range answers.
fn limit(net: &mut Net, variable: usize, lo: i32, hi: i32) -> Option<Change> {
    if net.get(variable).is_none() {
        return None;
    }
    match Dom::range(lo, hi) {
        Some(range) => net.limit(variable, &range).ok(),
        None => None,
    }
}

/// What the variable may still be.
fn left(net: &Net, variable: usize) -> Option<Shape> {
    match net.get(variable) {
        Some(domain) => Some(shape(domain)),
        None => None,
    }
}

fn post_eq(net: &mut Net, x: usize, y: usize) -> bool {
    if net.get(x).is_none() || net.get(y).is_none() {
        return false;
    }
    let args = [Var(x), Var(y)];
    net.post(Kind::Eq, &args).is_ok()
}

fn post_lt(net: &mut Net, x: usize, y: usize) -> bool {
    if net.get(x).is_none() || net.get(y).is_none() {
        return false;
    }
    let args = [Var(x), Var(y)];
    net.post(Kind::Lt, &args).is_ok()
}

fn post_leq(net: &mut Net, x: usize, y: usize) -> bool {
    if net.get(x).is_none() || net.get(y).is_none() {
        return false;
    }
    let args = [Var(x), Var(y)];
    net.post(Kind::Leq, &args).is_ok()
}

/// That z is three times x.
fn post_thrice(net: &mut Net, x: usize, z: usize) -> bool {
    if net.get(x).is_none() || net.get(z).is_none() {
        return false;
    }
    let args = [Var(x), Lit(3), Var(z)];
    net.post(Kind::MulEq, &args).is_ok()
}

/// That b says whether x is at most 2.
fn post_at_most_two(net: &mut Net, b: usize, x: usize) -> bool {
    if net.get(b).is_none() || net.get(x).is_none() {
        return false;
    }
    let args = [Var(b), Var(x), Lit(2)];
    net.post(Kind::TestLeq, &args).is_ok()
}

/// A constraint, by the numbers of its variables.
#[derive(Clone, Copy)]
enum Posted {
    Equal(usize, usize),
    Less(usize, usize),
    Thrice(usize, usize),
    AtMostTwo(usize, usize),
}

fn post(net: &mut Net, posted: Posted) -> bool {
    match posted {
        Equal(x, y) => post_eq(net, x, y),
        Less(x, y) => post_lt(net, x, y),
        Thrice(x, z) => post_thrice(net, x, z),
        AtMostTwo(b, x) => post_at_most_two(net, b, x),
    }
}

/// Whether there are variables with these domains now, numbered from zero.
fn are_added(net: &mut Net, alloc: Global, domains: &[Written]) -> bool {
    for (number, written) in domains.iter().enumerate() {
        if add(net, alloc, *written) != Some(number) {
            return false;
        }
    }
    true
}

fn are_posted(net: &mut Net, constraints: &[Posted]) -> bool {
    for posted in constraints {
        if !post(net, *posted) {
            return false;
        }
    }
    true
}

/// Variables by their domains, and constraints on them.
#[derive(Clone, Copy)]
struct Network {
    domains: &'static [Written],
    constraints: &'static [Posted],
}

fn is_made(net: &mut Net, alloc: Global, network: &Network) -> bool {
    are_added(net, alloc, network.domains) && are_posted(net, network.constraints)
}

fn is_propagated(net: &mut Net) -> bool {
    net.propagate_all().is_ok()
}

/// What the first three variables may still be.
fn first_three(net: &Net) -> [Option<Shape>; 3] {
    [left(net, 0), left(net, 1), left(net, 2)]
}

/// Whether a network was made and propagates, what is left of its variables, what limiting one of them answers, what is
/// left then, and whether the second was never written.
type Narrowed = (
    bool,
    [Option<Shape>; 3],
    Option<Change>,
    [Option<Shape>; 3],
    bool,
);

/// A network, and a variable of it that is limited to a range.
#[derive(Clone, Copy)]
struct Limited {
    network: Network,
    variable: usize,
    range: (i32, i32),
}

impl Run for Limited {
    type Seen = Narrowed;

    fn run(&self, net: &mut Net, alloc: Global) -> Narrowed {
        let made = is_made(net, alloc, &self.network) && is_propagated(net);
        let before = first_three(net);
        let change = limit(net, self.variable, self.range.0, self.range.1);
        let propagated = is_propagated(net);
        (
            made && propagated,
            before,
            change,
            first_three(net),
            net.stamp(1) == Some(0),
        )
    }
}

/// A range and a set that are equal, and the range becomes a single value.
static EQUAL: Limited = Limited {
    network: Network {
        domains: &[Ends(0, 10), Members(&[2, 5, 9])],
        constraints: &[Equal(0, 1)],
    },
    variable: 0,
    range: (5, 5),
};

static EQUAL_LEFT: Narrowed = (
    true,
    [Some((true, 2, 9, 8)), Some((false, 2, 9, 3)), None],
    Some(Change::Smaller),
    [Some((true, 5, 5, 1)), Some((false, 5, 5, 1)), None],
    false,
);

#[test]
fn a_range_and_a_set_are_equal(rt: HostRuntime) {
    let left = EQUAL_LEFT;
    assert!(rt; seen(rt.alloc(), &EQUAL) == left);
}

/// A range that is less than each member of a set, and the range becomes less.
static APART: Limited = Limited {
    network: Network {
        domains: &[Ends(0, 10), Members(&[12, 15, 20])],
        constraints: &[Less(0, 1)],
    },
    variable: 0,
    range: (4, 7),
};

static APART_LEFT: Narrowed = (
    true,
    [Some((true, 0, 10, 11)), Some((false, 12, 20, 3)), None],
    Some(Change::Smaller),
    [Some((true, 4, 7, 4)), Some((false, 12, 20, 3)), None],
    true,
);

#[test]
fn a_set_that_stays_is_not_written(rt: HostRuntime) {
    let left = APART_LEFT;
    assert!(rt; seen(rt.alloc(), &APART) == left);
}

/// z is three times x, b says whether x is at most 2, and b becomes false.
static PRODUCT: Limited = Limited {
    network: Network {
        domains: &[Ends(0, 10), Ends(0, 10), Members(&[0, 1, 1])],
        constraints: &[Thrice(0, 1), AtMostTwo(2, 0)],
    },
    variable: 2,
    range: (0, 0),
};

static PRODUCT_LEFT: Narrowed = (
    true,
    [
        Some((true, 0, 3, 4)),
        Some((true, 0, 9, 10)),
        Some((false, 0, 1, 2)),
    ],
    Some(Change::Smaller),
    [
        Some((true, 3, 3, 1)),
        Some((true, 9, 9, 1)),
        Some((false, 0, 0, 1)),
    ],
    false,
);

#[test]
fn a_product_is_propagated_before_and_after_a_test_is_false(rt: HostRuntime) {
    let left = PRODUCT_LEFT;
    assert!(rt; seen(rt.alloc(), &PRODUCT) == left);
}

/// Whether a network was made, and why it can't be propagated.
impl Run for Network {
    type Seen = (bool, Option<NetFault>);

    fn run(&self, net: &mut Net, alloc: Global) -> (bool, Option<NetFault>) {
        let made = is_made(net, alloc, self);
        (made, net.propagate_all().err())
    }
}

/// Each of two variables is less than the other.
static CONTRADICTION: Network = Network {
    domains: &[
        Ends(LEAST_VALUE, GREATEST_VALUE),
        Ends(LEAST_VALUE, GREATEST_VALUE),
    ],
    constraints: &[Less(0, 1), Less(1, 0)],
};

#[test]
fn orders_that_contradict_each_other_collapse(rt: HostRuntime) {
    assert!(rt; seen(rt.alloc(), &CONTRADICTION) == (true, Some(NetFault::Collapsed)));
}

/// Objects with 5 in a field.
fn post_field(net: &mut Net, objects: Dom) -> bool
    requires { length net.old.tables ≡ 0 }
{
    let Ok(capacity) = net.add_table(&[(0, 5), (1, 7), (2, 5)]) else {
        return false;
    };
    let Ok(object) = net.add_var(objects) else {
        return false;
    };
    let args = [Var(object), Lit(5)];
    net.post(Kind::Field(capacity), &args).is_ok()
}

/// Whether there is such a field now.
fn is_field_posted(net: &mut Net, alloc: Global) -> bool
    requires { length net.old.tables ≡ 0 }
{
    match made(alloc, Members(&[0, 1, 2])) {
        Some(objects) => post_field(net, objects),
        None => false,
    }
}

#[derive(Clone, Copy)]
struct FieldRead;

impl Run for FieldRead {
    type Seen = (bool, Option<Shape>);

    /// What is left of the objects.
    fn run(&self, net: &mut Net, alloc: Global) -> (bool, Option<Shape>) {
        let posted = is_field_posted(net, alloc);
        let propagated = is_propagated(net);
        (posted && propagated, left(net, 0))
    }
}

#[test]
fn a_field_is_read_from_its_table(rt: HostRuntime) {
    assert!(rt; seen(rt.alloc(), &FieldRead) == (true, Some((false, 0, 2, 2))));
}

/// Each of so many variables is at most the next one.
fn make_chain(net: &mut Net, alloc: Global, count: usize) -> bool {
    for number in 0..count {
        if add(net, alloc, Ends(0, 1000)) != Some(number) {
            return false;
        }
        if number > 0 && !post_leq(net, number - 1, number) {
            return false;
        }
    }
    true
}

/// A chain of so many variables.
#[derive(Clone, Copy)]
struct Chain(usize);

impl Run for Chain {
    type Seen = (bool, u64, Option<Shape>);

    /// How many narrowings propagation takes after the first variable has become less, and what is left of the last one.
    fn run(&self, net: &mut Net, alloc: Global) -> (bool, u64, Option<Shape>) {
        let made = make_chain(net, alloc, self.0) && is_propagated(net);
        let before = net.work();
        let propagated = limit(net, 0, 7, 9).is_some() && is_propagated(net);
        let spent = net.work().saturating_sub(before);
        let last = left(net, self.0.saturating_sub(1));
        (made && propagated, spent, last)
    }
}

#[test]
fn a_chain_takes_three_narrowings_a_variable(rt: HostRuntime) {
    let (propagated, spent, last) = seen(rt.alloc(), &Chain(100));
    assert!(rt; propagated);
    assert!(rt; spent <= 300, "{spent}");
    assert!(rt; last == Some((true, 7, 1000, 994)));
}

/// A chain of three variables, and a fourth by itself.
fn make_three_and_one(net: &mut Net, alloc: Global) -> bool {
    make_chain(net, alloc, 3) && add(net, alloc, Ends(0, 9)) == Some(3)
}

/// Limits the variable, where there is one, and keeps the marks.
fn keep(net: &mut Net, variable: usize, to: &Dom) -> bool
    ensures { KeepMarks net.old net.new }
{
    marks_stay();
    if net.get(variable).is_none() {
        return true;
    }
    net.limit(variable, to).is_ok()
}

/// Propagates, and keeps the marks.
fn propagate(net: &mut Net) -> Option<NetFault>
    ensures { KeepMarks net.old net.new }
{
    marks_stay();
    net.propagate_all().err()
}

/// Whether there was memory, what propagation says twice, what a variable may be before and after going back, and how
/// often variables were written.
type Visited = (
    [bool; 2],
    [Option<NetFault>; 2],
    [Option<Shape>; 2],
    [Option<u64>; 3],
);

/// Limits the variable to a range, and keeps the marks.
fn keep_range(net: &mut Net, variable: usize, ends: (i32, i32)) -> bool
    ensures { KeepMarks net.old net.new }
{
    match Dom::range(ends.0, ends.1) {
        Some(range) => keep(net, variable, &range),
        None => false,
    }
}

/// To where the first and the third variable of a chain become less, by their ends, and back.
#[derive(Clone, Copy)]
struct Journey {
    first: (i32, i32),
    third: (i32, i32),
}

/// Propagation after the first and the third variable became less, once more, and the third before and after going
/// back, with how often it and the fourth were written.
fn there_and_back(net: &mut Net, journey: &Journey) -> Visited {
    let mark = net.mark();
    let low = keep_range(net, 0, journey.first);
    let high = keep_range(net, 2, journey.third);
    let faults = [propagate(net), propagate(net)];
    let inside = left(net, 2);
    let risen = net.stamp(2);
    net.back_to(mark);
    (
        [low, high],
        faults,
        [inside, left(net, 2)],
        [risen, net.stamp(2), net.stamp(3)],
    )
}

impl Run for Journey {
    type Seen = (bool, Visited, bool);

    /// Whether there was memory for the network, what was seen on the way, and whether it propagates after going back.
    fn run(&self, net: &mut Net, alloc: Global) -> (bool, Visited, bool) {
        let made = make_three_and_one(net, alloc);
        let visited = there_and_back(net, self);
        (made, visited, is_propagated(net))
    }
}

#[test]
fn a_chain_goes_back_to_a_mark(rt: HostRuntime) {
    let shapes = [Some((true, 7, 1000, 994)), Some((true, 0, 1000, 1001))];
    let visited = (
        [true, true],
        [None, None],
        shapes,
        [Some(1), Some(2), Some(0)],
    );
    let journey = Journey {
        first: (7, 9),
        third: (0, 1000),
    };
    assert!(rt; seen(rt.alloc(), &journey) == (true, visited, true));
}

/// From where nothing waits to where the first variable of a chain becomes less, and back.
fn there_and_back_idle(net: &mut Net) -> bool {
    let mark = net.mark();
    let low = keep_range(net, 0, (7, 9));
    let fault = propagate(net);
    net.back_to(mark);
    low && fault.is_none()
}

/// A chain of so many variables that is left and come back to.
#[derive(Clone, Copy)]
struct Return(usize);

impl Run for Return {
    type Seen = (bool, u64, Option<usize>);

    /// How many narrowings propagation takes after going back to where nothing waited, and what is noted as changed.
    fn run(&self, net: &mut Net, alloc: Global) -> (bool, u64, Option<usize>) {
        let made = make_chain(net, alloc, self.0) && is_propagated(net);
        let back = there_and_back_idle(net);
        let before = net.work();
        let propagated = is_propagated(net);
        let spent = net.work().saturating_sub(before);
        (made && back && propagated, spent, net.next_changed())
    }
}

#[test]
fn nothing_waits_after_going_back_to_where_nothing_waited(rt: HostRuntime) {
    assert!(rt; seen(rt.alloc(), &Return(100)) == (true, 0, None));
}

/// The first four variables on the list of those that have changed.
fn first_changed(net: &mut Net) -> [Option<usize>; 4] {
    [
        net.next_changed(),
        net.next_changed(),
        net.next_changed(),
        net.next_changed(),
    ]
}

#[derive(Clone, Copy)]
struct Changes;

impl Run for Changes {
    type Seen = (bool, [Option<usize>; 4]);

    /// What has changed after the first variable became less and the network propagated.
    fn run(&self, net: &mut Net, alloc: Global) -> (bool, [Option<usize>; 4]) {
        let made = make_three_and_one(net, alloc);
        let propagated = limit(net, 0, 7, 9).is_some() && is_propagated(net);
        (made && propagated, first_changed(net))
    }
}

#[test]
fn a_network_tells_what_has_changed(rt: HostRuntime) {
    let changed = [Some(0), Some(1), Some(2), None];
    assert!(rt; seen(rt.alloc(), &Changes) == (true, changed));
}

#[test]
fn a_collapsed_chain_is_propagated_after_going_back(rt: HostRuntime) {
    let faults = [Some(NetFault::Collapsed), Some(NetFault::Collapsed)];
    let shapes = [Some((true, 0, 5, 6)), Some((true, 0, 1000, 1001))];
    let visited = ([true, true], faults, shapes, [Some(1), Some(2), Some(0)]);
    let journey = Journey {
        first: (7, 9),
        third: (0, 5),
    };
    assert!(rt; seen(rt.alloc(), &journey) == (true, visited, true));
}
