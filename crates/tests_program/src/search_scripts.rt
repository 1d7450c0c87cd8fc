//! What scripts that search are answered, by hand from the stated search.

use super::rows::assert_runs;

const SEARCHES: &str = "
== # What is to be decided first.
== 0 script m.nddl
-- m.nddl
PAIR
-- input
activate a
flaws
activate b
flaws
order a b
flaws
domain a.start

-- output
ok
flaw token b choices 2
ok
flaw order a b choices 2
ok
flaw time a.start choices 9
a.start [0 8]

== 0 script m.nddl
-- m.nddl
int [0 2] x;
-- input
flaws
specify x 1
flaws

-- output
flaw variable x choices 3
ok
flaw none

== # The conflict leaves out what has to go with what is left out.
== 0 script m.nddl
-- m.nddl
class N { predicate A { } predicate B { int w; } } N n = new N(); goal(n.A g); N::A { any(N.B s); } int [0 5] x; int [0 5] y; lt(x, y);
-- input
activate g
specify g/0:0.w 3
specify x 5
why

-- output
ok
ok
inconsistent
conflict 1
specify x 5

== # Given times are edges to the origin and from it.
== 0 script m.nddl
-- m.nddl
class N { predicate A { } } N n = new N(); fact(n.A f); goal(n.A g); leq(f.end, g.start);
-- input
activate g
specify f.start 5
specify g.start 3
cycle

-- output
ok
ok
inconsistent
cycle 4
origin + 5 <= f.start
f.start + 1 <= f.end
f.end + 0 <= g.start
g.start + -3 <= origin

== # Words of values and numbers.
== 0 script m.nddl
-- m.nddl
int [0 10] x;
-- input
specify x 007
domain x
undo
specify x 99999999999999999999
specify x +5
specify x inf
solve 01 5
solve 0 5
solve 5 513

-- output
ok
x [7 7]
ok
refused not-in-domain
refused syntax
refused syntax
refused syntax
refused syntax
refused syntax

== 0 script m.nddl
-- m.nddl
bool b;
-- input
specify b 1
specify b 2000000
specify b true
domain b
specify b 2000000

-- output
refused unknown
refused unknown
ok
b {true}
refused unknown

== 0 script m.nddl
-- m.nddl
int [0 10] x;
-- input
specify x 5
specify x 2000000

-- output
ok
refused decided

== # What is answered where nothing is possible.
== 0 script m.nddl
-- m.nddl
int [0 9] x; int [0 9] y; lt(x, y);
-- input
specify x 9
specify q 1
domain q
tokens
flaws
solve 5 5
decisions
reset q
reset x

-- output
inconsistent
refused inconsistent
inconsistent
inconsistent
inconsistent
inconsistent
decisions 1
specify x 9
refused no-decision
ok

== # Decisions of the text are steps like others.
== 0 script m.nddl
-- m.nddl
int [0 9] y; y.specify(3);
-- input
decisions
undo
undo

-- output
decisions 1
specify y 3
ok
refused nothing

== # Each field that is read of a variable has a global of its own.
== 0 script m.nddl
-- m.nddl
class K { int k; K(int n) { k = n; } } K k1 = new K(4); K x; int y; eq(x.k, x.k);
-- input
domain !3
domain !0

-- output
!3 [4 4]
refused unknown

== 0 script m.nddl
-- m.nddl
class A { int k; A(int n) { k = n; } predicate P { } } A a = new A(3); A b = new A(4); goal(A.P g); g.object.k.specify(3);
-- input
decisions
domain g.object

-- output
decisions 1
specify !0 3
g.object {a}

== 0 script m.nddl
-- m.nddl
class E { } E x;
-- input
domain x

-- output
inconsistent

== # Rules go by their places in the text.
== 0 script m.nddl
-- m.nddl
N::P { any(object.P s); } class N { predicate P { int v; leq(v, 3); } } N n = new N(); goal(n.P g);
-- input
activate g
domain g/0:0.end

-- output
ok
g/0:0.end [1 1000]
";

#[test]
fn scripts_with_searches_are_answered(rt: HostRuntime) {
    assert_runs(&rt, SEARCHES, "");
}
