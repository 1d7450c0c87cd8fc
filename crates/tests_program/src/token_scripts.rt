//! What scripts that decide of tokens are answered, by hand from what the decisions leave.

use super::rows::assert_runs;

const TOKENS: &str = "
== 0 script m.nddl
-- m.nddl
CHAIN
-- input
activate g
merge g/0:0 g
activate h
merge h/0:0 g
reset g
decisions
merge h/0:0 h/0:0
order h h

-- output
ok
ok
ok
ok
ok
decisions 1
activate h
refused not-active
refused same

== # A constraint that names a rejectable counts only where that is active or merged.
== 0 script m.nddl
-- m.nddl
DOUBTED
-- input
domain r.v
activate r
undo
specify r.v 1
reject g
reject r
domain g.v
tokens

-- output
r.v [0 5]
inconsistent
ok
refused not-active
refused not-rejectable
ok
g.v [3 3]
tokens 2
g N.A inactive
r N.A rejected

== 0 script m.nddl
-- m.nddl
PAIR
-- input
activate a
activate b
specify a.start 0
specify a.end 5
specify b.start 5
domain b.end
reset b.start
specify b.start 4

-- output
ok
ok
ok
ok
ok
b.end [6 10]
ok
inconsistent

== 0 script m.nddl
-- m.nddl
THREE
-- input
ROUND
-- output
ROUND_ANSWERS
== 0 script m.nddl
-- m.nddl
TOOL
-- input
activate a
activate b
specify b.start 5
reset b.start
specify b.start 4

-- output
ok
ok
ok
ok
inconsistent

== # A level is looked at once no token can come any more.
== 0 script m.nddl
-- m.nddl
BATTERY
-- input
activate c
activate d
specify c.quantity 6
specify d.quantity 6
specify c.start 2
specify d.start 4
reset d.start
specify d.start 2

-- output
ok
ok
ok
ok
ok
inconsistent
ok
ok

== # Decisions of the text that leave nothing.
== 0 script m.nddl
-- m.nddl
int [0 5] x; int [0 5] y; int [0 5] z; leq(x, y); x.specify(4); y.specify(3);
-- input
domain x
reset y
domain y

-- output
inconsistent
ok
y [4 5]

== 0 script m.nddl
-- m.nddl
DOUBTED
-- input
flaws
activate g
flaws
solve 100 512
decisions

-- output
flaw token g choices 1
ok
flaw token r choices 3
found 6
plan
token g N.A start 0 end 1 duration 1 object n v 3
rejected r
end
decisions 4
activate g
reject r
specify g.start 0
specify g.duration 1

== # A slot without an object.
== 0 script m.nddl
-- m.nddl
class E { predicate Q { } } class N { predicate A { } } N::A { any(E.Q q); } N n = new N(); goal(n.A g);
-- input
activate g

-- output
inconsistent

== 0 script m.nddl
-- m.nddl
enum C { red, green, blue }; typedef int [0 5] Small; class A { int k; A(int n) { k = n; } predicate P { C c; Small v; } } class B \
extends A { B() { super(4); } } B b = new B(); close(); goal(b.P g); eq(g.v, b.k); g.c.specify(green);
-- input
domain g.v
domain g.c
domain g.object

-- output
g.v [4 4]
g.c {green}
g.object {b}

== 0 script m.nddl
-- m.nddl
int [0 10] x; int [0 10] z; bool b; mulEq(x, 3, z); testLEQ(b, x, 2);
-- input
domain x
domain z
domain b
specify b false
domain x
domain z

-- output
x [0 3]
z [0 9]
b {false true}
ok
x [3 3]
z [9 9]

== # States of tokens.
== 0 script m.nddl
-- m.nddl
ROVER
-- input
activate g
activate g/0:0
merge g/0:0/0:0 init
tokens
domain g.start
reset g
tokens

-- output
ok
ok
ok
tokens 4
init Rover.At fact
g Rover.At active
g/0:0 Rover.Going active
g/0:0/0:0 Rover.At merged init
g.start [2 9]
ok
tokens 2
init Rover.At fact
g Rover.At inactive

== # Searches that end in each way; what they find stands, each decision a step.
== 0 script m.nddl
-- m.nddl
ROVER
-- input
solve 100 2
solve 11 512
decisions
solve 12 512
undo
flaws

-- output
exhausted 3 bound
budget 11
decisions 0
found 12
plan
fact init Rover.At start 0 end 1 duration 1 object r place 0
token g Rover.At start 2 end 3 duration 1 object r place 2
token g/0:0 Rover.Going start 1 end 2 duration 1 object r from 0 to 2
merged g/0:0/0:0 init
end
ok
flaw time g.duration choices 8
";

#[test]
fn scripts_of_tokens_are_answered(rt: HostRuntime) {
    assert_runs(&rt, TOKENS, "");
}
