//! Plans, and what the checker says of them.

ghost use Rattle.model_core.specs.Lawful.{IsLawful};

use super::rows::{Asked, assert_rows};
use model_core::model::Model;
use plan_check::{Verdict, check};
use plan_core::read_plan;
use std::alloc::{AllocError, Global};
use tests_samples::mission::mission;

// What the checker says of the plan that the text says; none, where it says none.
fn verdict_of(alloc: Global, model: &Model, text: &str) -> Option<Verdict>
    requires { IsLawful model.now }
{
    match read_plan(alloc, model, text.as_bytes()) {
        Ok(plan) => check(alloc, model, &plan).ok(),
        Err(_fault) => None,
    }
}

// What the checker says of the plan that the text says of the small model.
fn verdict(alloc: Global, text: &str) -> Option<Verdict> {
    match mission(alloc) {
        Ok(model) => verdict_of(alloc, &model, text),
        Err(_none) => None,
    }
}

/// What the checker says of the plan of a text.
struct Checked;

impl Asked for Checked {
    fn answer(&self, alloc: Global, given: &str) -> Result<String, AllocError> {
        format!(in alloc; "{:?}", verdict(alloc, given))
    }
}

// Lines are counted in order of names.
const PLANS: &str = "
== # nothing takes place but the fact
== Some(Valid)
plan
global total 4
global !1 0
global mode slow
global on false
fact base Rover.At start 0 end 1 duration 1 object spirit place 1
merged here base
rejected there
rejected drill
rejected sun
rejected work
end

== # globals without values, and with values that aren't in their bases
== Some(Invalid(V1, Global(1)))
plan
global total 4
fact base Rover.At start 0 end 1 duration 1 object spirit place 1
merged here base
rejected there
rejected drill
rejected sun
rejected work
end

== Some(Invalid(V1, Global(0)))
plan
global !1 0
global mode slow
global on false
fact base Rover.At start 0 end 1 duration 1 object spirit place 1
merged here base
rejected there
rejected drill
rejected sun
rejected work
end

== Some(Invalid(V1, Global(0)))
plan
global total 11
global !1 6
global mode slow
global on false
fact base Rover.At start 0 end 1 duration 1 object spirit place 1
merged here base
rejected there
rejected drill
rejected sun
rejected work
end

== # a root without a line, and with lines of other sorts
== Some(Invalid(V2, Root(1)))
plan
global total 4
global !1 0
global mode slow
global on false
fact base Rover.At start 0 end 1 duration 1 object spirit place 1
rejected there
rejected drill
rejected sun
rejected work
end

== Some(Invalid(V2, Root(1)))
plan
global total 4
global !1 0
global mode slow
global on false
fact base Rover.At start 0 end 1 duration 1 object spirit place 1
rejected here
rejected there
rejected drill
rejected sun
rejected work
end

== Some(Invalid(V2, Root(0)))
plan
global total 4
global !1 0
global mode slow
global on false
token base Rover.At start 0 end 1 duration 1 object spirit place 1
merged here base
rejected there
rejected drill
rejected sun
rejected work
end

== Some(Invalid(V2, Root(2)))
plan
global total 4
global !1 0
global mode slow
global on false
fact base Rover.At start 0 end 1 duration 1 object spirit place 1
merged here base
fact there Rover.At start 0 end 1 duration 1 object twin place 0
rejected drill
rejected sun
rejected work
end

== Some(Invalid(V2, Line(7)))
plan
global total 4
global !1 0
global mode slow
global on false
fact base Rover.At start 0 end 1 duration 1 object spirit place 1
token here Rover.At start 2 end 4 duration 2 object spirit place 3
local here/0!0 1
rejected here/0:1
rejected there
rejected drill
rejected sun
rejected work
end

== # values out of their bases, and a token that doesn't last as it says
== Some(Invalid(V3, Line(0)))
plan
global total 4
global !1 0
global mode slow
global on false
fact base Rover.At start 0 end 1 duration 1 object spirit place 4
merged here base
rejected there
rejected drill
rejected sun
rejected work
end

== Some(Invalid(V3, Line(0)))
plan
global total 4
global !1 0
global mode slow
global on false
fact base Rover.At start 10 end 11 duration 1 object spirit place 1
merged here base
rejected there
rejected drill
rejected sun
rejected work
end

== Some(Invalid(V3, Line(0)))
plan
global total 4
global !1 0
global mode slow
global on false
fact base Rover.At start 0 end 2 duration 1 object spirit place 1
merged here base
rejected there
rejected drill
rejected sun
rejected work
end

== Some(Invalid(V3, Line(2)))
plan
global total 4
global !1 0
global mode slow
global on false
fact base Rover.At start 0 end 1 duration 1 object spirit place 1
merged here base
token there Rover.At start 0 end 1 duration 1 object spirit place 1
rejected drill
rejected sun
rejected work
end

== # targets: the token itself, one that doesn't take place, one of another predicate, and one on another object
== Some(Invalid(V4, Line(1)))
plan
global total 4
global !1 0
global mode slow
global on false
fact base Rover.At start 0 end 1 duration 1 object spirit place 1
merged here here
rejected there
rejected drill
rejected sun
rejected work
end

== Some(Invalid(V4, Line(1)))
plan
global total 4
global !1 0
global mode slow
global on false
fact base Rover.At start 0 end 1 duration 1 object spirit place 1
merged here there
rejected there
rejected drill
rejected sun
rejected work
end

== Some(Invalid(V4, Line(1)))
plan
global total 4
global !1 0
global mode slow
global on false
fact base Rover.At start 0 end 1 duration 1 object spirit place 1
merged here drill
rejected there
token drill Arm.uses start 0 end 1 duration 1 object arm quantity 1
rejected sun
rejected work
end

== Some(Invalid(V4, Line(1)))
plan
global total 4
global !1 0
global mode slow
global on false
fact base Rover.At start 0 end 1 duration 1 object spirit place 1
merged here there
token there Rover.At start 0 end 1 duration 1 object twin place 1
rejected drill
rejected sun
rejected work
end

== # a slot of an open block without a token, a local without a value or with one that isn't in its base
== Some(Invalid(V5, Slot { line: 1, rule: 0, slot: 1 }))
plan
global total 4
global !1 0
global mode slow
global on false
fact base Rover.At start 0 end 1 duration 1 object spirit place 1
token here Rover.At start 2 end 4 duration 2 object spirit place 3
rejected there
rejected drill
rejected sun
rejected work
end

== Some(Invalid(V5, Slot { line: 1, rule: 0, slot: 1 }))
plan
global total 4
global !1 0
global mode slow
global on false
fact base Rover.At start 0 end 1 duration 1 object spirit place 1
token here Rover.At start 2 end 4 duration 2 object spirit place 3
local here/0!0 1
rejected there
rejected drill
rejected sun
rejected work
end

== Some(Invalid(V5, Local { line: 1, rule: 0, number: 0 }))
plan
global total 4
global !1 0
global mode slow
global on false
fact base Rover.At start 0 end 1 duration 1 object spirit place 1
token here Rover.At start 2 end 4 duration 2 object spirit place 3
token here/0:1 Arm.uses start 2 end 4 duration 2 object arm quantity 1
rejected there
rejected drill
rejected sun
rejected work
end

== Some(Invalid(V5, Local { line: 1, rule: 0, number: 0 }))
plan
global total 4
global !1 0
global mode slow
global on false
fact base Rover.At start 0 end 1 duration 1 object spirit place 1
token here Rover.At start 2 end 4 duration 2 object spirit place 3
local here/0!0 10
token here/0:1 Arm.uses start 2 end 4 duration 2 object arm quantity 1
rejected there
rejected drill
rejected sun
rejected work
end

== # the same behind an `else`
== Some(Invalid(V5, Slot { line: 1, rule: 0, slot: 0 }))
plan
global total 4
global !1 0
global mode slow
global on false
fact base Rover.At start 0 end 1 duration 1 object spirit place 1
token here Rover.At start 2 end 4 duration 2 object spirit place 2
token here/0:1 Arm.uses start 2 end 4 duration 2 object arm quantity 1
rejected there
rejected drill
rejected sun
rejected work
end

== # what no block asks for: of a merged token, of a fact, behind the `else` of a guard that is true, and the other way round
== Some(Invalid(V6, Line(6)))
plan
global total 4
global !1 0
global mode slow
global on false
fact base Rover.At start 0 end 1 duration 1 object spirit place 1
merged here base
token here/0:1 Arm.uses start 2 end 4 duration 2 object arm quantity 1
rejected there
rejected drill
rejected sun
rejected work
end

== Some(Invalid(V6, Line(6)))
plan
global total 4
global !1 0
global mode slow
global on false
fact base Rover.At start 0 end 1 duration 1 object spirit place 1
token base/0:1 Arm.uses start 0 end 1 duration 1 object arm quantity 1
merged here base
rejected there
rejected drill
rejected sun
rejected work
end

== Some(Invalid(V6, Line(7)))
plan
global total 4
global !1 0
global mode slow
global on false
fact base Rover.At start 0 end 1 duration 1 object spirit place 1
token here Rover.At start 2 end 4 duration 2 object spirit place 3
local here/0!0 1
token here/0:1 Arm.uses start 2 end 4 duration 2 object arm quantity 1
merged here/0:0 base
rejected there
rejected drill
rejected sun
rejected work
end

== Some(Invalid(V6, Line(2)))
plan
global total 4
global !1 0
global mode slow
global on false
fact base Rover.At start 0 end 1 duration 1 object spirit place 1
token here Rover.At start 2 end 4 duration 2 object spirit place 2
local here/0!0 1
token here/0:1 Arm.uses start 2 end 4 duration 2 object arm quantity 1
merged here/0:0 base
rejected there
rejected drill
rejected sun
rejected work
end

== # the blocks as they should be
== Some(Valid)
plan
global total 4
global !1 0
global mode slow
global on false
fact base Rover.At start 0 end 1 duration 1 object spirit place 1
token here Rover.At start 2 end 4 duration 2 object spirit place 3
local here/0!0 1
token here/0:1 Arm.uses start 2 end 4 duration 2 object arm quantity 1
rejected there
rejected drill
rejected sun
rejected work
end

== Some(Valid)
plan
global total 4
global !1 0
global mode slow
global on false
fact base Rover.At start 0 end 1 duration 1 object spirit place 1
token here Rover.At start 2 end 4 duration 2 object spirit place 2
token here/0:1 Arm.uses start 2 end 4 duration 2 object arm quantity 1
merged here/0:0 base
rejected there
rejected drill
rejected sun
rejected work
end

== # items of the problem
== Some(Invalid(V7, Problem(0)))
plan
global total 6
global !1 0
global mode slow
global on false
fact base Rover.At start 0 end 1 duration 1 object spirit place 1
merged here base
rejected there
rejected drill
rejected sun
rejected work
end

== Some(Invalid(V7, Problem(1)))
plan
global total 4
global !1 0
global mode slow
global on false
fact base Rover.At start 0 end 1 duration 1 object spirit place 1
merged here base
token there Rover.At start 0 end 1 duration 1 object twin place 3
local there/0!0 1
token there/0:1 Arm.uses start 0 end 1 duration 1 object arm quantity 1
token drill Arm.uses start 1 end 2 duration 1 object arm quantity 1
rejected sun
rejected work
end

== # the same, where one of the two doesn't take place
== Some(Valid)
plan
global total 4
global !1 0
global mode slow
global on false
fact base Rover.At start 0 end 1 duration 1 object spirit place 1
merged here base
rejected there
token drill Arm.uses start 1 end 2 duration 1 object arm quantity 1
rejected sun
rejected work
end

== # items of open blocks
== Some(Invalid(V7, Item { line: 1, rule: 0, item: 0 }))
plan
global total 4
global !1 0
global mode slow
global on false
fact base Rover.At start 0 end 1 duration 1 object spirit place 1
token here Rover.At start 2 end 4 duration 2 object spirit place 3
local here/0!0 1
token here/0:1 Arm.uses start 2 end 5 duration 3 object arm quantity 1
rejected there
rejected drill
rejected sun
rejected work
end

== Some(Invalid(V7, Item { line: 1, rule: 0, item: 1 }))
plan
global total 4
global !1 0
global mode slow
global on false
fact base Rover.At start 0 end 1 duration 1 object spirit place 1
token here Rover.At start 2 end 4 duration 2 object spirit place 3
local here/0!0 2
token here/0:1 Arm.uses start 2 end 4 duration 2 object arm quantity 1
rejected there
rejected drill
rejected sun
rejected work
end

== Some(Invalid(V7, Item { line: 1, rule: 0, item: 2 }))
plan
global total 4
global !1 0
global mode slow
global on false
fact base Rover.At start 0 end 1 duration 1 object spirit place 1
token here Rover.At start 0 end 4 duration 4 object spirit place 2
token here/0:1 Arm.uses start 0 end 4 duration 4 object arm quantity 1
merged here/0:0 base
rejected there
rejected drill
rejected sun
rejected work
end

== # tokens of one timeline that overlap
== Some(Invalid(V8, Pair(0, 1)))
plan
global total 4
global !1 0
global mode slow
global on false
fact base Rover.At start 0 end 1 duration 1 object spirit place 1
token here Rover.At start 0 end 4 duration 4 object spirit place 3
local here/0!0 1
token here/0:1 Arm.uses start 0 end 4 duration 4 object arm quantity 1
rejected there
rejected drill
rejected sun
rejected work
end

== Some(Invalid(V8, Pair(0, 6)))
plan
global total 4
global !1 0
global mode slow
global on false
fact base Rover.At start 0 end 1 duration 1 object spirit place 1
token here Rover.At start 2 end 4 duration 2 object spirit place 2
token here/0:1 Arm.uses start 2 end 4 duration 2 object arm quantity 1
token here/0:0 Rover.At start 0 end 2 duration 2 object spirit place 3
local here/0:0/0!0 1
token here/0:0/0:1 Arm.uses start 0 end 2 duration 2 object arm quantity 1
rejected there
rejected drill
rejected sun
rejected work
end

== # that touch, and that are on two timelines
== Some(Valid)
plan
global total 4
global !1 0
global mode slow
global on false
fact base Rover.At start 0 end 1 duration 1 object spirit place 1
token here Rover.At start 1 end 4 duration 3 object spirit place 3
local here/0!0 1
token here/0:1 Arm.uses start 1 end 4 duration 3 object arm quantity 1
rejected there
rejected drill
rejected sun
rejected work
end

== Some(Valid)
plan
global total 4
global !1 0
global mode slow
global on false
fact base Rover.At start 0 end 1 duration 1 object spirit place 1
merged here base
token there Rover.At start 0 end 1 duration 1 object twin place 3
local there/0!0 1
token there/0:1 Arm.uses start 0 end 1 duration 1 object arm quantity 1
rejected drill
rejected sun
rejected work
end

== # more uses than the arm has, and uses that touch
== Some(Invalid(V9, Instant { object: 2, at: 3 }))
plan
global total 4
global !1 0
global mode slow
global on false
fact base Rover.At start 0 end 1 duration 1 object spirit place 1
token here Rover.At start 2 end 4 duration 2 object spirit place 3
local here/0!0 1
token here/0:1 Arm.uses start 2 end 4 duration 2 object arm quantity 2
rejected there
token drill Arm.uses start 3 end 5 duration 2 object arm quantity 1
rejected sun
rejected work
end

== Some(Invalid(V9, Instant { object: 2, at: 6 }))
plan
global total 4
global !1 0
global mode slow
global on false
fact base Rover.At start 0 end 1 duration 1 object spirit place 1
merged here base
rejected there
token drill Arm.uses start 6 end 9 duration 3 object arm quantity 3
rejected sun
rejected work
end

== Some(Valid)
plan
global total 4
global !1 0
global mode slow
global on false
fact base Rover.At start 0 end 1 duration 1 object spirit place 1
token here Rover.At start 2 end 4 duration 2 object spirit place 3
local here/0!0 1
token here/0:1 Arm.uses start 2 end 4 duration 2 object arm quantity 2
rejected there
token drill Arm.uses start 4 end 6 duration 2 object arm quantity 2
rejected sun
rejected work
end

== # a level out of its limits, which later comes back, and one that stays within them
== Some(Invalid(V10, Instant { object: 3, at: 2 }))
plan
global total 4
global !1 0
global mode slow
global on false
fact base Rover.At start 0 end 1 duration 1 object spirit place 1
merged here base
rejected there
rejected drill
token sun Cell.produce start 4 end 5 duration 1 object cell quantity 6
token work Cell.consume start 2 end 3 duration 1 object cell quantity 6
end

== Some(Invalid(V10, Instant { object: 3, at: 3 }))
plan
global total 4
global !1 0
global mode slow
global on false
fact base Rover.At start 0 end 1 duration 1 object spirit place 1
merged here base
rejected there
rejected drill
token sun Cell.produce start 3 end 4 duration 1 object cell quantity 6
rejected work
end

== Some(Valid)
plan
global total 4
global !1 0
global mode slow
global on false
fact base Rover.At start 0 end 1 duration 1 object spirit place 1
merged here base
rejected there
rejected drill
token sun Cell.produce start 2 end 3 duration 1 object cell quantity 6
token work Cell.consume start 2 end 3 duration 1 object cell quantity 6
end
";

#[test]
fn plans_are_judged(rt: HostRuntime) {
    assert_rows(&rt, &Checked, PLANS);
}
