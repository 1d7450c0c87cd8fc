//! Decimals in texts, scripts and plans, by hand from what a decimal is: a whole number of thousandths.

use super::rows::assert_runs;

const SCRIPTS: &str = "
== 0 script m.nddl
-- m.nddl
float [0 2.5] x; float {1, 0.25} y; eq(x, y);
-- input
domain x
domain y
specify y 1
domain x
specify x 2.501
specify x 0.25
undo
specify x 1.2345

-- output
x [0.250 1.000]
y {0.250 1.000}
ok
x [1.000 1.000]
refused not-in-domain
inconsistent
ok
refused syntax

== # The greatest number names the greatest decimal in a text, and is out of range in a script.
== 0 script m.nddl
-- m.nddl
float f;
-- input
domain f
specify f 1001
specify f 1000000
specify f -1000.001
specify f 99999999999999999999.5
specify f true
specify f 007.5
domain f
undo
specify f -0.0
domain f

-- output
f [-1000.000 1000.000]
refused not-in-domain
refused not-in-domain
refused not-in-domain
refused not-in-domain
refused unknown
ok
f [7.500 7.500]
ok
ok
f [0.000 0.000]

== 0 script m.nddl
-- m.nddl
float [-0.5 inf] f; int x; bool b;
-- input
domain f
specify f .5
specify f 1.
specify f 1..5
specify f +1.5
specify f 1.5x
specify x 1.000
specify b 1.0
specify f -0.5
decisions

-- output
f [-0.500 1000.000]
refused syntax
refused syntax
refused syntax
refused syntax
refused syntax
refused unknown
refused unknown
ok
decisions 1
specify f -0.500

== # What is less is so by a thousandth.
== 0 script m.nddl
-- m.nddl
float f; float g; lt(f, 0); mulEq(g, 3, 4.5);
-- input
domain f
domain g

-- output
f [-1000.000 -0.001]
g [1.500 1.500]

== # One and a half isn't one, and one is 1.000 beside decimals.
== 10 plan m.nddl
-- m.nddl
eq(1.5, 1);
-- output
exhausted 1

== 0 script m.nddl
-- m.nddl
float f; bool b; eq(f, 1); testLEQ(b, 2, f);
-- input
domain f
domain b

-- output
f [1.000 1.000]
b {false}

== # Numbers stand for decimals in types, as what a variable begins as, and behind `new` and `super`.
== 0 script m.nddl
-- m.nddl
typedef float [0 2.5] Angle; Angle a = 2; float b = inf; float c; c.specify(3);
class Seat { float high; Seat(float h) { high = h; } }
class Chair extends Seat { Chair() { super(1); } }
Chair chair = new Chair(); Seat seat = new Seat(0.45); float d = seat.high; float e; eq(e, chair.high);
-- input
domain a
domain b
domain c
domain d
domain e

-- output
a [2.000 2.000]
b [1000.000 1000.000]
c [3.000 3.000]
d [0.450 0.450]
e [1.000 1.000]

== # In a rule: parameters, locals, sets and guards.
== 0 script m.nddl
-- m.nddl
class N { predicate A { float [0 3] v; } }
N::A { float {1, 2.5} w; eq(v, w); if (v == 1) { float x = 0.5; } else { float [2 3] y; } }
N n = new N(); goal(n.A g);
-- input
activate g
domain g.v
domain g/0!0
specify g.v 1
domain g/0!0
domain g/0!1

-- output
ok
g.v [1.000 2.500]
g/0!0 {1.000 2.500}
ok
g/0!0 {1.000}
g/0!1 [0.500 0.500]
";

#[test]
fn scripts_read_and_tell_decimals(rt: HostRuntime) {
    assert_runs(&rt, SCRIPTS, "");
}

const PLANS: &str = "
== 0 plan m.nddl
-- m.nddl
float [0 2.5] f; eq(f, 0.5);
-- output
found 1
plan
global f 0.500
end

== 0 show m.nddl
-- m.nddl
float[0,2.5]x;
-- output
float [ 0 2.500 ] x ;

== 0 check m.nddl p.txt
-- m.nddl
float [0 2.5] f;
-- p.txt
plan
global f 1.500
end

-- output
valid

== 5 check m.nddl p.txt
-- m.nddl
float [0 2.5] f;
-- p.txt
plan
global f 1.5
end

-- output
invalid text Syntax 14

== 5 check m.nddl p.txt
-- m.nddl
float [0 2.5] f;
-- p.txt
plan
global f -0.000
end

-- output
invalid text Syntax 14

== 5 check m.nddl p.txt
-- m.nddl
float [0 2.5] f;
-- p.txt
plan
global f 01.500
end

-- output
invalid text Syntax 14

== 5 check m.nddl p.txt
-- m.nddl
float [0 2.5] f;
-- p.txt
plan
global f 1
end

-- output
invalid text Unknown 14

== 5 check m.nddl p.txt
-- m.nddl
float f;
-- p.txt
plan
global f 1000.001
end

-- output
invalid text Unknown 14

== 5 check m.nddl p.txt
-- m.nddl
int x;
-- p.txt
plan
global x 1.500
end

-- output
invalid text Unknown 14

== 5 check m.nddl p.txt
-- m.nddl
float [0 2.5] f;
-- p.txt
plan
global f 2.501
end

-- output
invalid V1 f
";

#[test]
fn plans_have_decimals(rt: HostRuntime) {
    assert_runs(&rt, PLANS, "");
}
