//! Constraints and relations that a session posts, by hand from what the decisions leave.

use super::rows::assert_runs;

const CONSTRAINTS: &str = "
== 0 script m.nddl
-- m.nddl
int [0 10] x; int [0 10] y;
-- input
post leq x y
specify x 4
domain y
post leq x y
post lt x q
post eq x true
post leq x
post eq 1 2
withdraw leq x y
domain y
undo
domain y
withdraw lt x y
decisions

-- output
ok
ok
y [4 10]
refused decided
refused unknown
refused unknown
refused wrong-type
refused wrong-type
ok
y [0 10]
ok
y [4 10]
refused no-decision
decisions 2
post leq x y
specify x 4

== # Each constraint by its word: x is 4.
== 0 script m.nddl
-- m.nddl
int [0 10] x; int [0 10] y;
-- input
specify x 4
post eq x y
domain y
withdraw eq x y
post neq x y
specify y 4
undo
withdraw neq x y
post lt x y
domain y
withdraw lt x y
post leq x y
domain y
withdraw leq x y
post addEq x y 9
domain y
withdraw addEq x y 9
post mulEq x 2 y
domain y
withdraw mulEq x 2 y
post testEQ true x y
domain y
withdraw testEQ true x y
post testLEQ false x y
domain y

-- output
ok
ok
y [4 4]
ok
ok
inconsistent
ok
ok
ok
y [5 10]
ok
ok
y [4 10]
ok
ok
y [5 5]
ok
ok
y [8 8]
ok
ok
y [4 4]
ok
ok
y [0 3]

== # What names nothing comes before what has no kind and before a wrong number of arguments.
== 0 script m.nddl
-- m.nddl
int x; int y;
-- input
post leq x z y
post leq x 1 2
post eq z 2
post leq x !9
post leq x g/0!1
post addEq x y true
post lt x y y y

-- output
refused unknown
refused wrong-type
refused wrong-type
refused unknown
refused unknown
refused unknown
refused wrong-type

== # Each place has its kind: a truth, a factor, and what is compared.
== 0 script m.nddl
-- m.nddl
int x; bool b;
-- input
post testEQ 1 x 2
post testEQ b 1 2
post mulEq x 0 x
post testLEQ x x 2
post testLEQ true x b
post eq x b
post lt b b
post addEq b b b
post mulEq x b x
post mulEq x 2.5 x
post mulEq x true x
post mulEq 2 2 2
post eq b b
post testEQ true 2 x
domain x
domain b

-- output
refused unknown
refused wrong-type
refused wrong-type
refused wrong-type
refused wrong-type
refused wrong-type
refused wrong-type
refused wrong-type
refused wrong-type
refused unknown
refused unknown
refused wrong-type
ok
ok
x [2 2]
b {false true}

== # A value out of range; what has no kind or names nothing is no decision to take out.
== 0 script m.nddl
-- m.nddl
int x; bool b;
-- input
post leq x 1000001
post leq -99999999999999999999 x
post mulEq x 1000001 x
post eq b 1000001
withdraw leq x 1000001
withdraw leq x 1000000
withdraw leq x q
withdraw eq 1 2
withdraw leq x
post leq x 1000000
withdraw leq x 1000001
withdraw leq x 1000000

-- output
refused not-in-domain
refused not-in-domain
refused not-in-domain
refused unknown
refused no-decision
refused no-decision
refused no-decision
refused no-decision
refused no-decision
ok
refused no-decision
ok

== # Values are the same by what they are, and arguments in their order.
== 0 script m.nddl
-- m.nddl
int [0 10] x; int [0 10] y;
-- input
post leq x 4
post leq x 04
post eq x y
post eq y x
decisions
withdraw leq x 004
withdraw eq x y
withdraw eq x y
domain y
specify x 7
domain y

-- output
ok
refused decided
ok
ok
decisions 3
post leq x 4
post eq x y
post eq y x
ok
ok
refused no-decision
y [0 10]
ok
y [7 7]

== # Decimals are read in the kind of the first variable, and the factor is a whole number.
== 0 script m.nddl
-- m.nddl
float [0 2.5] f; float g; int i;
-- input
post leq f 1.5
post leq f 1.50
domain f
post addEq f 0.25 g
domain g
post mulEq f 2 g
post eq f true
post eq f i
post leq i 1.0
post leq f 1000000
decisions
withdraw leq f 1.500

-- output
ok
refused decided
f [0.000 1.500]
ok
g [0.250 1.750]
ok
refused unknown
refused wrong-type
refused unknown
refused not-in-domain
decisions 3
post leq f 1.500
post addEq f 0.250 g
post mulEq f 2 g
ok

== # Members and objects as values.
== 0 script m.nddl
-- m.nddl
enum E { m, k } class N { } N n = new N(); N o = new N(); E e; N z;
-- input
post neq e m
domain e
post neq z n
domain z
post eq e n
post eq z m
post leq e k
decisions

-- output
ok
e {k}
ok
z {o}
refused unknown
refused unknown
refused wrong-type
decisions 2
post neq e m
post neq z n

== # A variable that stands twice is two arguments.
== 0 script m.nddl
-- m.nddl
int [0 9] x;
-- input
post neq x x
domain x
specify x 3
why

-- output
ok
x [0 9]
inconsistent
conflict 2
post neq x x
specify x 3

== # No command, whatever the model has.
== 0 script m.nddl
-- m.nddl
int [0 10] x; class N { predicate A { } } N n = new N(); goal(n.A g); goal(n.A h);
-- input
post
post leq
post gt x 1
post LEQ x 1
post allDiff x 1
post field x 1
post leq x +1
post leq x 1x
post leq x inf
withdraw leq
withdraw allDiff x 1
withdraw leq x +1
relate before g
relate before g h g
relate near g h
unrelate before g
unrelate near g h
decisions

-- output
refused syntax
refused syntax
refused syntax
refused syntax
refused syntax
refused syntax
refused syntax
refused syntax
refused syntax
refused syntax
refused syntax
refused syntax
refused syntax
refused syntax
refused syntax
refused syntax
refused syntax
decisions 0

== # Where nothing is possible a decision is refused before its names are looked at, and what stands can be taken out.
== 0 script m.nddl
-- m.nddl
int [0 9] x; int [0 9] y;
-- input
post lt x y
specify x 9
post leq q 1
relate before a b
withdraw lt q y
unrelate before a b
why
withdraw lt x y
domain y
undo
why

-- output
ok
inconsistent
refused inconsistent
refused inconsistent
refused no-decision
refused no-decision
conflict 2
post lt x y
specify x 9
ok
y [0 9]
inconsistent
conflict 2
post lt x y
specify x 9

== # What is posted holds in a plan that is found.
== 0 script m.nddl
-- m.nddl
int [0 10] x; int [0 10] y;
-- input
post lt x y
post leq 3 x
solve 100 0
decisions

-- output
ok
ok
found 3
plan
global x 3
global y 4
end
decisions 4
post lt x y
post leq 3 x
specify x 3
specify y 4

== 0 script m.nddl
-- m.nddl
int [0 3] x;
-- input
post addEq x x 3
domain x
solve 100 0

-- output
ok
x [0 3]
exhausted 5
";

#[test]
fn constraints_are_posted(rt: HostRuntime) {
    assert_runs(&rt, CONSTRAINTS, "");
}

const RELATIONS: &str = "
== 0 script m.nddl
-- m.nddl
PAIR
-- input
activate a
activate b
relate before a b
domain b.start
relate before b a
cycle
unrelate before a b

-- output
ok
ok
ok
b.start [1 9]
inconsistent
cycle 4
a.start + 1 <= a.end
a.end + 0 <= b.start
b.start + 1 <= b.end
b.end + 0 <= a.start
ok

== # The same relation stands once, and isn't the order of the two.
== 0 script m.nddl
-- m.nddl
PAIR
-- input
activate a
activate b
relate before a b
relate before a b
flaws
order a b
decisions
reset a b
unrelate before a b
unrelate before a b

-- output
ok
ok
ok
refused decided
flaw order a b choices 2
ok
decisions 4
activate a
activate b
relate before a b
order a b
ok
ok
refused no-decision

== # Edges come in the order of the list, both sorts together, and a value is no point.
== 0 script m.nddl
-- m.nddl
PAIR
-- input
activate a
activate b
post leq a.end 3
post lt b.end a.start
relate meets a b
cycle
why
undo
specify a.start 3
cycle
why

-- output
ok
ok
ok
ok
inconsistent
cycle 4
a.start + 1 <= a.end
a.end + 0 <= b.start
b.start + 1 <= b.end
b.end + 1 <= a.start
conflict 2
post lt b.end a.start
relate meets a b
ok
inconsistent
cycle 0
conflict 2
post leq a.end 3
specify a.start 3

== # Of tokens that don't take place there are no edges.
== 0 script m.nddl
-- m.nddl
FREE
-- input
relate before g h
domain g.end
domain h.start
relate before h g
cycle
undo
relate met_by h g
domain h.start
relate before g g
relate before g k
relate before g g.start
relate any h g
unrelate any g h

-- output
ok
g.end [1 9]
h.start [1 9]
inconsistent
cycle 0
ok
ok
h.start [1 9]
refused same
refused unknown
refused unknown
ok
refused no-decision

== # Each relation by its word: g lasts from 3 to 6.
== 0 script m.nddl
-- m.nddl
FREE
-- input
specify g.start 3
specify g.end 6
relate any g h
domain h.start
domain h.end
unrelate any g h
relate before g h
domain h.start
domain h.end
unrelate before g h
relate after g h
domain h.start
domain h.end
unrelate after g h
relate meets g h
domain h.start
domain h.end
unrelate meets g h
relate met_by g h
domain h.start
domain h.end
unrelate met_by g h
relate equals g h
domain h.start
domain h.end
unrelate equals g h
relate contains g h
domain h.start
domain h.end
unrelate contains g h
relate contained_by g h
domain h.start
domain h.end
unrelate contained_by g h
relate starts g h
domain h.start
domain h.end
unrelate starts g h
relate ends g h
domain h.start
domain h.end
unrelate ends g h
relate parallels g h
domain h.start
domain h.end
unrelate parallels g h
relate paralleled_by g h
domain h.start
domain h.end
unrelate paralleled_by g h
relate starts_during g h
domain h.start
domain h.end
unrelate starts_during g h
relate contains_start g h
domain h.start
domain h.end
unrelate contains_start g h
relate ends_during g h
domain h.start
domain h.end
unrelate ends_during g h
relate contains_end g h
domain h.start
domain h.end
unrelate contains_end g h

-- output
ok
ok
ok
h.start [0 9]
h.end [1 10]
ok
ok
h.start [6 9]
h.end [7 10]
ok
ok
h.start [0 2]
h.end [1 3]
ok
ok
h.start [6 6]
h.end [7 10]
ok
ok
h.start [0 2]
h.end [3 3]
ok
ok
h.start [3 3]
h.end [6 6]
ok
ok
h.start [3 5]
h.end [4 6]
ok
ok
h.start [0 3]
h.end [6 10]
ok
ok
h.start [3 3]
h.end [4 10]
ok
ok
h.start [0 5]
h.end [6 6]
ok
ok
h.start [3 9]
h.end [6 10]
ok
ok
h.start [0 3]
h.end [1 6]
ok
ok
h.start [0 3]
h.end [3 10]
ok
ok
h.start [3 6]
h.end [4 10]
ok
ok
h.start [0 6]
h.end [6 10]
ok
ok
h.start [0 5]
h.end [3 6]
ok

== # What is posted stays where the token stays.
== 0 script m.nddl
-- m.nddl
class N { predicate A { } } N n = new N(); goal(n.A g);
-- input
activate g
post leq g.start 4
reset g
domain g.start

-- output
ok
ok
ok
g.start [0 4]

== # It falls with a subgoal that goes, and comes back with it.
== 0 script m.nddl
-- m.nddl
class N { predicate A { } predicate B { int [0 9] w; } } N::A { any(N.B s); } N n = new N(); goal(n.A g);
-- input
post leq g/0:0.w 3
relate before g g/0:0
activate g
post leq g/0:0.w 3
relate before g g/0:0
domain g/0:0.w
reset g
decisions
domain g/0:0.w
undo
domain g/0:0.w
decisions

-- output
refused unknown
refused unknown
ok
ok
ok
g/0:0.w [0 3]
ok
decisions 0
refused unknown
ok
g/0:0.w [0 3]
decisions 3
activate g
post leq g/0:0.w 3
relate before g g/0:0

== # A rejectable has to be active or merged, and what is posted on it falls with that.
== 0 script m.nddl
-- m.nddl
OPTIONAL
-- input
post leq r.start 4
relate before g r
relate before r r
activate r
post leq r.start 4
relate before g r
domain g.end
reset r
decisions
domain g.end
undo
decisions

-- output
refused not-active
refused not-active
refused not-active
ok
ok
ok
g.end [1 4]
ok
decisions 0
g.end [1 10]
ok
decisions 3
activate r
post leq r.start 4
relate before g r

== # A merged token has its target's times, in a relation too.
== 0 script m.nddl
-- m.nddl
OPTIONAL
-- input
activate g
merge r g
activate h
relate before r h
domain g.end
specify g.start 9
cycle

-- output
ok
ok
ok
ok
g.end [1 9]
inconsistent
cycle 5
origin + 9 <= g.start
g.start + 1 <= g.end
g.end + 0 <= h.start
h.start + 1 <= h.end
h.end + -10 <= origin
";

#[test]
fn relations_are_posted(rt: HostRuntime) {
    assert_runs(&rt, RELATIONS, "");
}
