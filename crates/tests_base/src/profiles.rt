//! Profiles by hand.

ghost use Rattle.std.specs.Prelude.{◌≤ℤ◌, pos};
ghost use Rattle.resource_profile.specs.Level.{IsSmall};

use super::rows::{Row, assert_rows};
use resource_profile::{LevelChange, Use, level_out, over_use};
use std::alloc::Global;

fn usage(from: i32, until: i32, quantity: i32) -> Use
    requires { pos 0 ≤ℤ quantity }
    ensures { pos 0 ≤ℤ result.quantity }
{
    Use {
        from,
        until,
        quantity,
    }
}

fn change(at: i32, add: i64) -> LevelChange
    requires { IsSmall (record { at = at; add = add }) }
    ensures { IsSmall result }
{
    LevelChange { at, add }
}

/// When the capacity is exceeded by two uses that meet, one that overlaps both, one that begins late and one that is
/// empty.
fn over(capacity: u16) -> Option<i32> {
    let uses = [
        usage(5, 9, 2),
        usage(2, 5, 2),
        usage(4, 6, 1),
        usage(20, 30, 4),
        usage(7, 7, 9),
    ];
    over_use(&uses, i32::from(capacity))
}

/// A capacity, and when it is exceeded.
struct Capacity(u16, Option<i32>);

impl Row for Capacity {
    fn holds(&self, _alloc: Global) -> bool {
        over(self.0) == self.1
    }
}

static CAPACITIES: [Capacity; 5] = [
    Capacity(0, Some(2)),
    Capacity(1, Some(2)),
    Capacity(2, Some(4)),
    Capacity(3, Some(20)),
    Capacity(4, None),
];

#[test]
fn finds_the_first_over_use(rt: HostRuntime) {
    assert_rows(&rt, &CAPACITIES);
}

/// When a level is out of its limits that is 3 at first, 8 from 2 on, 4 from 6 on, 9 from 8 on and -1 from 10 on, where
/// the changes at 8 are in two parts.
fn out(low: i32, high: i32, from: i32) -> Option<i32> {
    let changes = [
        change(8, -2),
        change(2, 5),
        change(10, -10),
        change(6, -4),
        change(8, 7),
    ];
    level_out(&changes, 3, low, high, from)
}

/// Limits and the first instant, and when the level is out of them.
struct Within(i32, i32, i32, Option<i32>);

impl Row for Within {
    fn holds(&self, _alloc: Global) -> bool {
        out(self.0, self.1, self.2) == self.3
    }
}

static LIMITS: [Within; 8] = [
    Within(0, 10, -5, Some(10)),
    Within(0, 8, -5, Some(8)),
    Within(0, 7, -5, Some(2)),
    Within(0, 7, 3, Some(3)),
    Within(0, 7, 6, Some(8)),
    Within(4, 9, -5, Some(-5)),
    Within(-1, 9, 0, None),
    Within(0, 9, 11, Some(11)),
];

#[test]
fn finds_the_first_level_out(rt: HostRuntime) {
    assert_rows(&rt, &LIMITS);
}
