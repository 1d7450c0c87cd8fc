//! What `check` prints, by hand from the form of a plan's text and from the clauses.

use super::rows::assert_runs;

const CHECKS: &str = "
== 5 check m.nddl p.txt
-- m.nddl
BATTERY
-- p.txt
plan
token c Battery.consume start 2 end 3 duration 1 object b quantity 6
token d Battery.produce start 4 end 5 duration 1 object b quantity 6
end

-- output
invalid V10 b 2

== 0 check m.nddl p.txt
-- m.nddl
BATTERY
-- p.txt
plan
token c Battery.consume start 2 end 3 duration 1 object b quantity 6
token d Battery.produce start 2 end 3 duration 1 object b quantity 6
end

-- output
valid

== 0 check m.nddl p.txt
-- m.nddl
USUAL
-- p.txt
USUAL_FOUND
-- output
valid

== 0 check m.nddl p.txt
-- m.nddl
ROVER
-- p.txt
ROVER_FOUND
-- output
valid

== # Texts that are no plan's, and the form that a plan's text may have.
== 5 check m.nddl p.txt
-- m.nddl
int [0 9] x;
-- p.txt
-- output
invalid text Syntax 0

== 5 check m.nddl p.txt
-- m.nddl
int [0 9] x;
-- p.txt
plan
global x
end

-- output
invalid text Syntax 14

== 5 check m.nddl p.txt
-- m.nddl
int [0 9] x;
-- p.txt
plan
global  x 3
end

-- output
invalid text Syntax 13

== 5 check m.nddl p.txt
-- m.nddl
int [0 9] x;
-- p.txt

plan
end

-- output
invalid text Syntax 1

== 5 check m.nddl p.txt
-- m.nddl
int [0 9] x;
-- p.txt
plan
end


-- output
invalid text Syntax 10

== 5 check m.nddl p.txt
-- m.nddl
int [0 9] x;
-- p.txt
plan
global x inf
end

-- output
invalid text Syntax 14

== 5 check m.nddl p.txt
-- m.nddl
int [0 9] x;
-- p.txt
plan
global x 03
end

-- output
invalid text Syntax 14

== 5 check m.nddl p.txt
-- m.nddl
int [0 9] x;
-- p.txt
plan
global x -0
end

-- output
invalid text Syntax 14

== 5 check m.nddl p.txt
-- m.nddl
int [0 9] x;
-- p.txt
plan
global x true
end

-- output
invalid text Unknown 14

== 5 check m.nddl p.txt
-- m.nddl
int [0 9] x;
-- p.txt
plan
global x 1000001
end

-- output
invalid text Unknown 14
";

#[test]
fn plans_are_checked(rt: HostRuntime) {
    assert_runs(&rt, CHECKS, "");
}

// More of the same.
const CLAUSES: &str = "
== 5 check m.nddl p.txt
-- m.nddl
int [0 9] x;
-- p.txt
plan
global y 3
end

-- output
invalid text Unknown 12

== 5 check m.nddl p.txt
-- m.nddl
int [0 9] x;
-- p.txt
plan
global x 3
global x 3
end

-- output
invalid text Twice 23

== 5 check m.nddl p.txt
-- m.nddl
int [0 9] x;
-- p.txt
found 12345678
plan
end

-- output
invalid text Syntax 6

== 0 check m.nddl p.txt
-- m.nddl
int [0 9] x;
-- p.txt
found 0000012
plan
global x 3
end
-- output
valid

== # The clauses, each broken first.
== 5 check m.nddl p.txt
-- m.nddl
int [0 9] x;
-- p.txt
plan
end

-- output
invalid V1 x

== 5 check m.nddl p.txt
-- m.nddl
int [0 9] x;
-- p.txt
plan
global x 11
end

-- output
invalid V1 x

== 5 check m.nddl p.txt
-- m.nddl
ROVER
-- p.txt
plan
token g Rover.At start 2 end 3 duration 1 object r place 2
token g/0:0 Rover.Going start 1 end 2 duration 1 object r from 0 to 2
end

-- output
invalid V2 init

== 5 check m.nddl p.txt
-- m.nddl
ROVER
-- p.txt
plan
fact init Rover.At start 0 end 1 duration 1 object r place 0
rejected g
end

-- output
invalid V2 g

== 5 check m.nddl p.txt
-- m.nddl
ROVER
-- p.txt
plan
fact init Rover.At start 0 end 1 duration 1 object r place 0
token g Rover.At start 2 end 4 duration 1 object r place 2
end

-- output
invalid V3 g

== 5 check m.nddl p.txt
-- m.nddl
ROVER
-- p.txt
plan
fact init Rover.At start 0 end 1 duration 1 object r place 0
token g Rover.At start 2 end 3 duration 1 object r place 4
end

-- output
invalid V3 g

== 5 check m.nddl p.txt
-- m.nddl
ROVER
-- p.txt
plan
fact init Rover.At start 0 end 1 duration 1 object r place 0
token g Rover.At start 2 end 3 duration 1 object r place 2
token g/0:0 Rover.Going start 1 end 2 duration 1 object r from 0 to 2
merged g/0:0/0:0 g/0:0
end

-- output
invalid V4 g/0:0/0:0

== 5 check m.nddl p.txt
-- m.nddl
ROVER
-- p.txt
plan
fact init Rover.At start 0 end 1 duration 1 object r place 0
token g Rover.At start 2 end 3 duration 1 object r place 2
token g/0:0 Rover.Going start 1 end 2 duration 1 object r from 0 to 2
end

-- output
invalid V5 g/0:0/0:0

== 5 check m.nddl p.txt
-- m.nddl
ROVER
-- p.txt
plan
fact init Rover.At start 0 end 1 duration 1 object r place 0
token g Rover.At start 2 end 3 duration 1 object r place 2
token g/0:0 Rover.Going start 1 end 2 duration 1 object r from 0 to 2
merged g/0:0/0:0 init
merged g/0:0/0:0/0:0 g/0:0
end

-- output
invalid V6 g/0:0/0:0/0:0

== # The constraints of the problem come before those of rules, which are counted with what else stands in a rule.
== 5 check m.nddl p.txt
-- m.nddl
ROVER
-- p.txt
plan
fact init Rover.At start 0 end 1 duration 1 object r place 0
token g Rover.At start 2 end 3 duration 1 object r place 1
token g/0:0 Rover.Going start 1 end 2 duration 1 object r from 0 to 2
merged g/0:0/0:0 init
end

-- output
invalid V7 problem 2
";

#[test]
fn clauses_are_checked(rt: HostRuntime) {
    assert_runs(&rt, CLAUSES, "");
}

// More of the same.
const OTHERS: &str = "
== 5 check m.nddl p.txt
-- m.nddl
ROVER
-- p.txt
plan
fact init Rover.At start 0 end 1 duration 1 object r place 0
token g Rover.At start 2 end 3 duration 1 object r place 2
token g/0:0 Rover.Going start 1 end 2 duration 1 object r from 0 to 3
merged g/0:0/0:0 init
end

-- output
invalid V7 g/0 2

== 5 check m.nddl p.txt
-- m.nddl
ROVER
-- p.txt
plan
fact init Rover.At start 0 end 1 duration 1 object r place 0
token g Rover.At start 3 end 4 duration 1 object r place 2
token g/0:0 Rover.Going start 1 end 2 duration 1 object r from 0 to 2
merged g/0:0/0:0 init
end

-- output
invalid V7 g/0 1

== 5 check m.nddl p.txt
-- m.nddl
PAIR
-- p.txt
plan
token b L.A start 4 end 6 duration 2 object l
token a L.A start 0 end 5 duration 5 object l
end

-- output
invalid V8 a b

== 0 check m.nddl p.txt
-- m.nddl
PAIR
-- p.txt
plan
token b L.A start 5 end 6 duration 1 object l
token a L.A start 0 end 5 duration 5 object l
end

-- output
valid

== 5 check m.nddl p.txt
-- m.nddl
TOOL
-- p.txt
plan
token a Tool.uses start 0 end 5 duration 5 object t quantity 2
token b Tool.uses start 4 end 8 duration 4 object t quantity 1
end

-- output
invalid V9 t 4

== 0 check m.nddl p.txt
-- m.nddl
TOOL
-- p.txt
plan
token a Tool.uses start 0 end 5 duration 5 object t quantity 2
token b Tool.uses start 5 end 8 duration 3 object t quantity 1
end

-- output
valid

== # What the problem's text decides is no part of validity.
== 0 check m.nddl p.txt
-- m.nddl
int [0 9] x; x.specify(3);
-- p.txt
plan
global x 4
end

-- output
valid

== 0 check m.nddl p.txt
-- m.nddl
int [0 9] x; int [0 9] y; lt(x, y); x.specify(9);
-- p.txt
plan
global x 0
global y 1
end

-- output
valid

== # What is wrong with the problem comes first.
== 3 check m.nddl p.txt
-- m.nddl
int [4 3] x;
-- p.txt
plan
end

-- output
text NotInDomain m.nddl 4

== 3 check m.nddl p.txt
-- m.nddl
int [0 5] x; x.specify(9);
-- p.txt
-- output
text NotAdmissible m.nddl 13

== # A constraint on a rejectable that is rejected doesn't count, and one on a rejectable that takes place does.
== 0 check m.nddl p.txt
-- m.nddl
class N { predicate A { int [0 5] v; } } N n = new N(); rejectable(n.A r); eq(r.v, 4);
-- p.txt
plan
rejected r
end

-- output
valid

== 5 check m.nddl p.txt
-- m.nddl
class N { predicate A { int [0 5] v; } } N n = new N(); rejectable(n.A r); eq(r.v, 4);
-- p.txt
plan
token r N.A start 0 end 1 duration 1 object n v 3
end

-- output
invalid V7 problem 0

== 5 check m.nddl p.txt
-- m.nddl
class N { predicate A { int [0 5] v; } } N n = new N(); rejectable(n.A r); eq(r.v, 4);
-- p.txt
plan
fact r N.A start 0 end 1 duration 1 object n v 4
end

-- output
invalid V2 r
";

#[test]
fn other_plans_are_checked(rt: HostRuntime) {
    assert_runs(&rt, OTHERS, "");
}
