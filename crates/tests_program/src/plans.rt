//! What `plan`, `gen` and `try` print.

use super::rows::assert_runs;

const PLANS: &str = "
== 0 plan m.nddl
-- m.nddl
-- output
found 1
plan
end

== 0 plan m.nddl
-- m.nddl
DOUBTED
-- output
found 7
plan
token g N.A start 0 end 1 duration 1 object n v 3
rejected r
end

== 0 plan m.nddl
-- m.nddl
ROVER
-- output
ROVER_FOUND
== 0 plan m.nddl --steps 12
-- m.nddl
ROVER
-- output
ROVER_FOUND
== 0 plan --tokens=512 -- m.nddl
-- m.nddl
ROVER
-- output
ROVER_FOUND
== 0 plan --steps=0000012 m.nddl --tokens 3
-- m.nddl
ROVER
-- output
ROVER_FOUND
== 11 plan m.nddl --steps 11
-- m.nddl
ROVER
-- output
budget 11

== 10 plan m.nddl --tokens 2
-- m.nddl
ROVER
-- output
exhausted 3 bound

== 11 plan m.nddl --tokens 0 --steps 1
-- m.nddl
ROVER
-- output
budget 1

== 0 plan m.nddl
-- m.nddl
USUAL
-- output
USUAL_FOUND
== 0 plan m.nddl
-- m.nddl
USES
-- output
found 8
plan
token a Tool.uses start 0 end 2 duration 2 object t quantity 1
token b Tool.uses start 2 end 4 duration 2 object t quantity 2
end

== 10 plan m.nddl
-- m.nddl
OVERUSE
-- output
exhausted 16

== 11 plan m.nddl --steps 15
-- m.nddl
OVERUSE
-- output
budget 15

== # The decisions of the text leave nothing.
== 10 plan m.nddl
-- m.nddl
int [0 5] x; int [0 5] y; int [0 5] z; leq(x, y); x.specify(4); y.specify(3);
-- output
exhausted 1

== # Values go up, and the globals come first.
== 0 plan m.nddl
-- m.nddl
int [3 9] x; bool b; int {7, 5} y; lt(x, y);
-- output
found 4
plan
global x 3
global b false
global y 5
end

== 3 plan m.nddl
-- m.nddl
int [4 3] x;
-- output
text NotInDomain m.nddl 4

== 0 gen 1
-- m.nddl
ORDERED
-- output
GENERATED
== 0 gen 0000001
-- m.nddl
ORDERED
-- output
GENERATED
== 2 gen 0
-- m.nddl
ORDERED
-- output
USAGE
== 2 gen 201
-- m.nddl
ORDERED
-- output
USAGE
== 0 try 1
-- m.nddl
ORDERED
-- output
try 1
found 3
active 2
merged 0
valid

== 0 try 3
-- m.nddl
ORDERED
-- output
try 3
found 13
active 6
merged 0
valid

== 0 try 007
-- m.nddl
ORDERED
-- output
try 7
found 57
active 14
merged 0
valid

== 0 try 40
-- m.nddl
ORDERED
-- output
try 40
found 1641
active 80
merged 0
valid
";

#[test]
fn searches_are_told(rt: HostRuntime) {
    assert_runs(&rt, PLANS, "");
}
