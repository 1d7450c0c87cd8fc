//! Texts of plans, read and written.

ghost use Rattle.model_core.specs.Lawful.{IsLawful};

use super::rows::{Asked, assert_rows};
use eu_name::bytes::Bytes;
use model_core::model::Model;
use plan_core::read_plan;
use plan_text::{PlanTextFault, write_plan};
use std::alloc::{AllocError, Global};
use tests_samples::mission::mission;

// What is wrong with the text; nothing, where it is a plan's.
fn fault_of(alloc: Global, text: &str) -> Option<PlanTextFault> {
    match mission(alloc) {
        Ok(model) => read_plan(alloc, &model, text.as_bytes()).err(),
        Err(_none) => None,
    }
}

// The text that is written of the plan of the model which this one says; none, where it says none.
fn written_in(alloc: Global, model: &Model, text: &str) -> Option<Bytes>
    requires { IsLawful model.now }
{
    match read_plan(alloc, model, text.as_bytes()) {
        Ok(plan) => write_plan(alloc, model, &plan).ok(),
        Err(_fault) => None,
    }
}

// The text that is written of the plan of the small model which this one says.
fn written_again(alloc: Global, text: &str) -> Option<Bytes> {
    match mission(alloc) {
        Ok(model) => written_in(alloc, &model, text),
        Err(_none) => None,
    }
}

// Whether this is the text that is written of the plan of the other.
fn is_written(alloc: Global, text: &str, written: &str) -> bool {
    match written_again(alloc, text) {
        Some(found) => found.as_slice() == written.as_bytes(),
        None => false,
    }
}

/// Whether the second text is written of the plan of the first.
struct Written;

impl Asked for Written {
    fn answer(&self, alloc: Global, given: &str) -> Result<String, AllocError> {
        let (text, written) = given.split_once("\n-- written\n").unwrap_or((given, ""));
        format!(in alloc; "{}", is_written(alloc, text, written))
    }
}

const PLANS: &str = "
== # no line
== true
plan
end

-- written
plan
end

== # no line feed at the end
== true
plan
end
-- written
plan
end

== # lists counted
== true
found 0000012
plan
end

-- written
plan
end

== # lines in any order
== true
plan
local here/0!0 7
token here Rover.At start 0 end 2 duration 2 object spirit place 3
global on true
merged here/0:0 here
global total 4
global mode fast
global !1 5
rejected there
end

-- written
plan
global total 4
global !1 5
global mode fast
global on true
token here Rover.At start 0 end 2 duration 2 object spirit place 3
local here/0!0 7
rejected there
merged here/0:0 here
end

== # globals behind one of which nothing is said
== true
plan
global total 1
global mode slow
end

-- written
plan
global total 1
end

== # values outside of the bases
== true
plan
global total -1000000
fact there Rover.At start 1000000 end -1 duration 0 object spirit place 9
end

-- written
plan
global total -1000000
fact there Rover.At start 1000000 end -1 duration 0 object spirit place 9
end

== # tokens below tokens
== true
plan
rejected here/0:0/0:0
merged there/0:0 here/0:0/0:0
local here/0:0/0!0 1
local there/0!0 0
end

-- written
plan
local there/0!0 0
local here/0:0/0!0 1
merged there/0:0 here/0:0/0:0
rejected here/0:0/0:0
end
";

#[test]
fn plans_are_read_and_written_in_order(rt: HostRuntime) {
    assert_rows(&rt, &Written, PLANS);
}

/// What is wrong first with a text.
struct Fault;

impl Asked for Fault {
    fn answer(&self, alloc: Global, given: &str) -> Result<String, AllocError> {
        format!(in alloc; "{:?}", fault_of(alloc, given))
    }
}

const FAULTS: &str = "
== Some(Syntax(0))

== Some(Syntax(1))

plan
end

== Some(Syntax(0))
plans
end

== Some(Syntax(4))
plan
== Some(Syntax(5))
plan

== Some(Syntax(10))
plan
end


== Some(Syntax(9))
plan
end x

== Some(Syntax(6))
plan 
end

== Some(Syntax(6))
plan

end

== Some(Syntax(6))
plan
 end

== Some(Syntax(5))
plan
globals total 3
end

== Some(Syntax(5))
plan
global\ttotal 3
end

== Some(Syntax(13))
plan
global  total 3
end

== Some(Syntax(18))
plan
global total
end

== Some(Syntax(20))
plan
global total 3 4
end

== Some(Syntax(6))
found 12345678
plan
end

== Some(Syntax(6))
found 1x
plan
end

== Some(Syntax(6))
found
plan
end

== Some(Syntax(8))
found 1 plan
end

== Some(Syntax(8))
found 1
end

== Some(Syntax(12))
plan
global 3 3
end

== Some(Syntax(12))
plan
global !01 3
end

== Some(Unknown(12))
plan
global x 3
end

== Some(Unknown(12))
plan
global !0 3
end

== Some(Unknown(12))
plan
global here 3
end

== Some(Unknown(12))
plan
global here.start 3
end

== Some(Unknown(14))
plan
rejected total
end

== Some(Unknown(14))
plan
rejected here/1:0
end

== Some(Unknown(14))
plan
rejected here/0!0
end

== Some(Unknown(11))
plan
local here.start 3
end

== Some(Unknown(11))
plan
local here/0!1 3
end

== Some(Syntax(11))
plan
local here/00!0 3
end

== Some(Twice(27))
plan
global total 1
global total x
end

== Some(Twice(26))
plan
rejected here
merged here there
end

== Some(Twice(26))
plan
rejected here
global here 3
end

== Some(Twice(28))
plan
local here/0!0 1
local here/0!0 2
end

== Some(Unknown(17))
plan
merged here total
end

== Some(Unknown(17))
plan
merged here elsewhere
end

== Some(Syntax(17))
plan
merged here 0
end

== Some(Syntax(17))
plan
merged here
end

== Some(Syntax(18))
plan
global total 03
end

== Some(Syntax(18))
plan
global total -0
end

== Some(Syntax(18))
plan
global total -03
end

== Some(Syntax(18))
plan
global total +3
end

== Some(Syntax(18))
plan
global total -
end

== Some(Syntax(18))
plan
global total inf
end

== Some(Syntax(18))
plan
global total class
end

== Some(Syntax(18))
plan
global total 3.5
end

== Some(Unknown(18))
plan
global total 1000001
end

== Some(Unknown(18))
plan
global total -1000001
end

== Some(Unknown(18))
plan
global total 99999999999999999999
end

== Some(Unknown(18))
plan
global total true
end

== Some(Unknown(18))
plan
global total spirit.wheel
end

== Some(Syntax(18))
plan
global total spirit..wheel
end

== Some(Unknown(17))
plan
global mode 1
end

== Some(Unknown(17))
plan
global mode Mode.fast
end

== Some(Unknown(15))
plan
global on 1
end

== Some(Syntax(15))
plan
global on True!
end

== Some(Syntax(16))
plan
token here Rover start 0
end

== Some(Syntax(16))
plan
token here Rover.At.x start 0
end

== Some(Unknown(16))
plan
token here Rover.In start 0
end

== Some(Syntax(25))
plan
token here Rover.At end 0
end

== Some(Unknown(31))
plan
token here Rover.At start true end 0
end

== Some(Unknown(57))
plan
token here Rover.At start 0 end 2 duration 2 object 0 place 3
end

== Some(Unknown(57))
plan
token here Rover.At start 0 end 2 duration 2 object opportunity place 3
end

== Some(Syntax(64))
plan
token here Rover.At start 0 end 2 duration 2 object spirit
end

== Some(Unknown(64))
plan
token here Rover.At start 0 end 2 duration 2 object spirit speed 3
end

== Some(Syntax(64))
plan
token here Rover.At start 0 end 2 duration 2 object spirit 3 place
end

== Some(Syntax(72))
plan
token here Rover.At start 0 end 2 duration 2 object spirit place 3 place 3
end

== Some(Unknown(72))
plan
token here Rover.At start 0 end 2 duration 2 object spirit place 3 speed 3
end

== Some(Syntax(72))
plan
token here Rover.At start 0 end 2 duration 2 object spirit place 3 4
end
";

#[test]
fn faults_are_told_with_their_places(rt: HostRuntime) {
    assert_rows(&rt, &Fault, FAULTS);
}

// What two tokens become that stand so many steps below a rover, which the steps lead to.
fn put_two(text: &mut String, steps: &str) -> Result<(), AllocError> {
    text.push_str("rejected here")?;
    text.push_str(steps)?;
    text.push_str("\nrejected there")?;
    text.push_str(steps)?;
    text.push('\n')
}

// Puts twice as many lines as this, each of a token further down, in order of names.
fn put_lines(text: &mut String, steps: &mut String, count: u32) -> Result<(), AllocError> {
    for _ in 0..count {
        put_two(text, steps)?;
        steps.push_str("/0:0")?;
    }
    Ok(())
}

// The text of a plan with these lines.
fn long_text(alloc: Global, count: u32) -> Result<String, AllocError> {
    let mut text = String::from_str(alloc, "plan\n")?;
    put_lines(&mut text, &mut String::new(alloc), count)?;
    text.push_str("end\n")?;
    Ok(text)
}

// Whether such a text is read, and written again as it is.
fn is_kept(alloc: Global, count: u32) -> bool {
    match long_text(alloc, count) {
        Ok(text) => is_written(alloc, text.as_str(), text.as_str()),
        Err(_none) => false,
    }
}

// A plan may have more lines than tokens may be active.
#[test]
fn plans_of_many_lines_are_read_and_written(rt: HostRuntime) {
    assert!(rt; is_kept(rt.alloc(), 300));
}
