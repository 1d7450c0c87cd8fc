//! What scripts are answered, by hand from what the decisions leave.

use super::rows::assert_runs;

const VALUES: &str = "
== 0 script m.nddl
-- m.nddl
ORDERED
-- input
specify x 4
domain y
undo
domain y

-- output
ok
y [4 10]
ok
y [0 10]

== 0 script m.nddl
-- m.nddl
ORDERED
-- input
specify x 4
domain y
quit
undo
domain y

-- output
ok
y [4 10]

== # The last line may lack its line end, and lines without words have no reply.
== 0 script m.nddl
-- m.nddl
ORDERED
-- input

 \t\r
specify x 4

\tdomain  y\r
undo
domain y
-- output
ok
y [4 10]
ok
y [0 10]

== 0 script m.nddl
-- m.nddl
int [3 3] x;
-- input
domain x

-- output
x [3 3]

== 0 script m.nddl
-- m.nddl
ORDERED
-- input
specify q 1
specify x 11
specify x 4
specify x 5
reset y
undo
undo
why
bogus

-- output
refused unknown
refused not-in-domain
ok
refused decided
refused no-decision
ok
refused nothing
refused consistent
refused syntax

== # The order of the constraints doesn't tell in which direction values go.
== 0 script m.nddl
-- m.nddl
int [0 10] x; int [0 10] y; int [0 10] z; leq(y, z); leq(x, y);
-- input
specify x 4
domain z
specify z 6
domain y

-- output
ok
z [4 10]
ok
y [4 6]

== # What the standing decisions exclude may be specified, and leaves nothing; what the declaration excludes may not.
== 0 script m.nddl
-- m.nddl
ORDERED
-- input
specify x 5
specify y 3
domain x
specify x 1
specify q 1
undo
domain y

-- output
ok
inconsistent
inconsistent
refused inconsistent
refused inconsistent
ok
y [5 10]

== 0 script m.nddl
-- m.nddl
int [-inf inf] x;
-- input
specify x 1000001
specify x 99999999999999999999
specify x 1000000
domain x

-- output
refused not-in-domain
refused not-in-domain
ok
x [1000000 1000000]

== # A range keeps no holes, and a set does.
== 0 script m.nddl
-- m.nddl
int [0 10] x; int {2, 5, 9} y; eq(x, y);
-- input
domain x
domain y
specify x 5
domain y
specify x 4
undo
specify x 4
domain x

-- output
x [2 9]
y {2 5 9}
ok
y {5}
refused decided
ok
inconsistent
inconsistent

== # A text that leaves nothing by itself.
== 0 script m.nddl
-- m.nddl
int x; int y; lt(x, y); lt(y, x);
-- input
domain x
why
cycle

-- output
inconsistent
conflict 0
cycle 0

== 0 script m.nddl
-- m.nddl
int [0 10] x; int [0 10] y; int [0 10] z; leq(x, y);
-- input
specify z 1
specify x 5
specify y 3
why

-- output
ok
ok
inconsistent
conflict 2
specify x 5
specify y 3

== # The sides of a guard.
== 0 script m.nddl
-- m.nddl
GUARDED
-- input
activate g
tokens
specify g.b true
tokens
reset g.b
specify g.b false
tokens

-- output
ok
tokens 1
g T.P active
ok
tokens 2
g T.P active
g/0:0 T.Q inactive
ok
ok
tokens 2
g T.P active
g/0:1 T.R inactive

== # A reset takes out what may not be taken any more without its decision.
== 0 script m.nddl
-- m.nddl
GLOBAL
-- input
activate g
specify g.b true
activate g/0:0
specify c true
reset g.b
tokens
decisions
undo
decisions

-- output
ok
ok
ok
ok
ok
tokens 2
g T.P active
g/0:0 T.Q inactive
decisions 2
activate g
specify c true
ok
decisions 4
activate g
specify g.b true
activate g/0:0
specify c true
";

#[test]
fn scripts_are_answered(rt: HostRuntime) {
    assert_runs(&rt, VALUES, "");
}

// Constraints, names, facts, locals, and rules over objects.
const NAMES: &str = "
== 0 script m.nddl
-- m.nddl
int [0 3] x; int [1 8] z; mulEq(x, 3, z);
-- input
domain x
domain z

-- output
x [1 2]
z [3 6]

== # The two places of one variable are two arguments.
== 0 script m.nddl
-- m.nddl
int [0 9] x; neq(x, x);
-- input
domain x
specify x 3

-- output
x [0 9]
inconsistent

== 0 script m.nddl
-- m.nddl
int [0 5] x = 9; int {3, 5} y = 3; int {1, 1, 2} z;
-- input
domain x
domain y
domain z

-- output
x [9 9]
y {3}
z {1 2}

== # Names of a sort that isn't wanted, and words that are no names.
== 0 script m.nddl
-- m.nddl
class N { predicate A { } } N n = new N(); goal(n.A g);
-- input
activate g.start
specify g/0:0 1
domain g
activate !0
domain !0.start
activate g/00:1
activate class

-- output
refused unknown
refused unknown
refused unknown
refused unknown
refused syntax
refused syntax
refused syntax

== # A fact is decided, and can be merged into.
== 0 script m.nddl
-- m.nddl
class N { predicate A { } } N n = new N(); fact(n.A f); goal(n.A g);
-- input
activate f
reset f
specify f.start 5
merge g f
domain g.start
tokens

-- output
refused decided
refused no-decision
ok
ok
g.start [5 5]
tokens 2
f N.A fact
g N.A merged f

== 0 script m.nddl
-- m.nddl
class N { predicate A { } predicate B { } } N n = new N(); goal(n.A a); goal(n.B b);
-- input
activate a
merge b a
reject b
order a a
order a b
activate b
order a b
order a b
decisions
reset a b
reset a b

-- output
ok
refused not-same-predicate
refused not-rejectable
refused same
refused not-active
ok
ok
refused decided
decisions 3
activate a
activate b
order a b
ok
refused no-decision

== # Locals, in the block of a rule and behind `else`.
== 0 script m.nddl
-- m.nddl
class N { predicate A { int [0 5] v; } } N::A { int [0 9] w = v; if (v == 3) { leq(w, duration); } else { int [1 2] u; eq(u, v); } } N n \
= new N(); goal(n.A g);
-- input
activate g
domain g/0!0
domain g/0!1
specify g.v 3
domain g.duration
reset g.v
specify g.v 2
domain g/0!1
domain g.duration

-- output
ok
g/0!0 [0 5]
refused unknown
ok
g.duration [3 1000]
ok
ok
g/0!1 [2 2]
g.duration [1 1000]

== # A rule over all objects of a class.
== 0 script m.nddl
-- m.nddl
class R { int k; R(int n) { k = n; } } class N { predicate A { int v; } } N::A { foreach (r in R) { leq(r.k, v); } } R p = new R(4); R q \
= new R(7); N n = new N(); close(); goal(n.A g);
-- input
activate g
domain g.v

-- output
ok
g.v [7 1000000]

== # A set in a rule has the object of the turn.
== 0 script m.nddl
-- m.nddl
class R { predicate P { } } R::P { foreach (r in R) { R {r} x; } } R r = new R(); R s = new R(); goal(r.P g);
-- input
activate g
domain g/0!0
domain g/0!1

-- output
ok
g/0!0 {r}
g/0!1 {s}

== # A token that is merged has the values of its target.
== 0 script m.nddl
-- m.nddl
CHAIN
-- input
activate g
specify g.start 3
merge h g
domain h.start
domain g/0:0.start
reset g
domain h.start

-- output
ok
ok
ok
h.start [3 3]
g/0:0.start [0 999]
ok
h.start [0 999]

== 0 script m.nddl
-- m.nddl
class N { predicate A { } } PlannerConfig p = new PlannerConfig(2, 10, 100); N n = new N(); goal(n.A g);
-- input
domain g.start
domain g.end
domain g.duration
domain g.object
specify g.object n

-- output
g.start [2 9]
g.end [3 10]
g.duration [1 8]
g.object {n}
ok

== # Files with nothing to decide.
== 0 script m.nddl
-- m.nddl
-- input
tokens
decisions
flaws
solve 1 0
undo

-- output
tokens 0
decisions 0
flaw none
found 1
plan
end
refused nothing
";

#[test]
fn scripts_of_names_are_answered(rt: HostRuntime) {
    assert_runs(&rt, NAMES, "");
}
