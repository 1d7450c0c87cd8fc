//! Models with guards, fields, inherited rules, unrolled blocks and all that a problem can have, by hand.

use super::compiled::assert_gives;

const SWITCH: &str = "bool c;
class T { predicate P { bool b; } predicate Q { } predicate R { } }
T::P { if (b) { any(object.Q q); } else { any(object.R r); } }
T t = new T();
close();
goal(t.P g);
eq(g.b, c);
";

const SWITCH_MODEL: &str = "
class 0 Object
class 1 Timeline under 0
class 2 Reusable under 0, capacity int [-1000000 1000000]
class 3 Reservoir under 0, initial int [-1000000 1000000], low int [-1000000 1000000], high int [-1000000 1000000]
class 4 T under 0
object 0 t of 4, plain
pred 0 uses of 2, uses, quantity int [0 1000000]
pred 1 produce of 3, produces, quantity int [0 1000000]
pred 2 consume of 3, consumes, quantity int [0 1000000]
pred 3 P of 4, plain, b bool {0 1}, rules 0
pred 4 Q of 4, plain
pred 5 R of 4, plain
rule 0
  has slot 0 of 4 {0}
  has slot 1 of 5 {0}
  if p0 == 1
    slot 0
    0: eq s0.object object
    1: any s0
  else
    slot 1
    2: eq s1.object object
    3: any s1
horizon 0 1000, steps 1000
root 0 g goal of 3 {0}
global 0 c bool {0 1}
item 0: eq r0.p0 g0
";

#[test]
fn a_switch_has_this_model(rt: HostRuntime) {
    assert_gives(&rt, SWITCH, SWITCH_MODEL);
}

const TRIP: &str = "class Place { int spot; Place(int n) { spot = n; } }
class Vehicle extends Timeline {
    Place home;
    predicate Go { Place to; leq(duration, 9); }
    predicate At { Place here; }
}
class Rover extends Vehicle { Rover(int n) { home = new Place(n); } }
Rover::Go {
    meets(At at);
    eq(at.here, to);
    if (to.spot == 0) { neq(to, object.home); } else { before(object.At next); }
}
PlannerConfig p = new PlannerConfig(0, 50, 100);
Place lake = new Place(0);
Rover r = new Rover(7);
goal(r.Go g);
rejectable(Vehicle.At h);
leq(g.start, x);
int [0 9] x = 4;
g.to.spot.specify(0);
";

const TRIP_MODEL: &str = "
class 0 Object
class 1 Timeline under 0
class 2 Reusable under 0, capacity int [-1000000 1000000]
class 3 Reservoir under 0, initial int [-1000000 1000000], low int [-1000000 1000000], high int [-1000000 1000000]
class 4 Place under 0, spot int [-1000000 1000000]
class 5 Vehicle under 1, home object {0 2}
class 6 Rover under 5, home object {0 2}
object 0 lake of 4, plain, fields 0
object 1 r of 6, timeline, fields 2
object 2 r.home of 4, plain, fields 7
pred 0 uses of 2, uses, quantity int [0 1000000]
pred 1 produce of 3, produces, quantity int [0 1000000]
pred 2 consume of 3, consumes, quantity int [0 1000000]
pred 3 Go of 5, plain, to object {0 2}, rules 0
pred 4 At of 5, plain, here object {0 2}
pred 5 Go of 6, plain, to object {0 2}, rules 1 2
pred 6 At of 6, plain, here object {0 2}
rule 0
  0: leq duration 9
rule 1
  0: leq duration 9
rule 2
  has slot 0 of 6 {1}
  has slot 1 of 6 {1}
  has local 0 int [-1000000 1000000]
  has local 1 object {0 2}
  slot 0
  0: meets s0
  1: eq s0.p0 p0
  local 0
  2: field 0 p0 l0
  if l0 == 0
    local 1
    3: field 0 object l1
    4: neq p0 l1
  else
    slot 1
    5: eq s1.object object
    6: before s1
horizon 0 50, steps 100
root 0 g goal of 5 {1}
root 1 h rejectable of 4 {1}
global 0 x int [4 4]
global 1 !1 int [-1000000 1000000]
item 0: leq r0.start g0
item 1: field 0 r0.p0 g1
decision 0 at m 564: specify g1 0
";

#[test]
fn a_trip_has_this_model(rt: HostRuntime) {
    assert_gives(&rt, TRIP, TRIP_MODEL);
}

const TURNS: &str = "class A { int k; A(int n) { k = n; } predicate P { int v; } predicate Q { } }
class B extends A { B(int n) { super(n); } }
A::P {
    foreach (o in A) { int x = o.k; if (object.k == v) { any(o.Q t); } else { leq(x, 2); } }
    allDiff(start, end, v);
    before(Q last);
}
A r = new A(1);
B s = new B(2);
goal(s.P g);
";

// The rule is there twice, since B inherits it. In both the slots of `o` are of the class that `foreach` names, and only that
// of `last` is of the predicate's class.
const TURNS_MODEL: &str = "
class 0 Object
class 1 Timeline under 0
class 2 Reusable under 0, capacity int [-1000000 1000000]
class 3 Reservoir under 0, initial int [-1000000 1000000], low int [-1000000 1000000], high int [-1000000 1000000]
class 4 A under 0, k int [-1000000 1000000]
class 5 B under 4, k int [-1000000 1000000]
object 0 r of 4, plain, fields 1
object 1 s of 5, plain, fields 2
pred 0 uses of 2, uses, quantity int [0 1000000]
pred 1 produce of 3, produces, quantity int [0 1000000]
pred 2 consume of 3, consumes, quantity int [0 1000000]
pred 3 P of 4, plain, v int [-1000000 1000000], rules 0
pred 4 Q of 4, plain
pred 5 P of 5, plain, v int [-1000000 1000000], rules 1
pred 6 Q of 5, plain
rule 0
  has slot 0 of 4 {0 1}
  has slot 1 of 4 {0 1}
  has slot 2 of 4 {0 1}
  has local 0 int [-1000000 1000000]
  has local 1 int [-1000000 1000000]
  has local 2 int [-1000000 1000000]
  has local 3 int [-1000000 1000000]
  local 0
  0: eq l0 1
  local 1
  1: field 0 object l1
  if l1 == p0
    slot 0
    2: eq s0.object 0
    3: any s0
  else
    4: leq l0 2
  local 2
  5: eq l2 2
  local 3
  6: field 0 object l3
  if l3 == p0
    slot 1
    7: eq s1.object 1
    8: any s1
  else
    9: leq l2 2
  10: neq start end
  11: neq start p0
  12: neq end p0
  slot 2
  13: before s2
rule 1
  has slot 0 of 4 {0 1}
  has slot 1 of 4 {0 1}
  has slot 2 of 6 {1}
  has local 0 int [-1000000 1000000]
  has local 1 int [-1000000 1000000]
  has local 2 int [-1000000 1000000]
  has local 3 int [-1000000 1000000]
  local 0
  0: eq l0 1
  local 1
  1: field 0 object l1
  if l1 == p0
    slot 0
    2: eq s0.object 0
    3: any s0
  else
    4: leq l0 2
  local 2
  5: eq l2 2
  local 3
  6: field 0 object l3
  if l3 == p0
    slot 1
    7: eq s1.object 1
    8: any s1
  else
    9: leq l2 2
  10: neq start end
  11: neq start p0
  12: neq end p0
  slot 2
  13: before s2
horizon 0 1000, steps 1000
root 0 g goal of 5 {1}
";

#[test]
fn unrolled_rules_have_this_model(rt: HostRuntime) {
    assert_gives(&rt, TURNS, TURNS_MODEL);
}

const POSED: &str = "enum Size { small, large, huge }
typedef Size {huge, small} Extreme;
class Ghost { }
class A { int k; A(int n) { k = n; } predicate P { Size size; } }
leq(x, a.k);
A a = new A(3);
A b = new A(4);
goal(A.P g);
rejectable(a.P h);
rejectable(a.P j);
fact(b.P f);
Extreme e;
int {7, 3, 7} n = 5;
int [0 9] m = 10;
bool t = true;
A {b} c;
A d;
Ghost v;
int x;
eq(g.object.k, x);
addEq(x, n, m);
mulEq(x, -2, m);
testEQ(t, g.size, e);
testLEQ(t, 1, x);
allDiff(x, m, 4);
lt(d.k, c.k);
g.object.k.specify(4);
g.activate();
j.merge(f);
h.reject();
e.specify(huge);
";

const POSED_MODEL: &str = "
enum 0 Size small large huge
class 0 Object
class 1 Timeline under 0
class 2 Reusable under 0, capacity int [-1000000 1000000]
class 3 Reservoir under 0, initial int [-1000000 1000000], low int [-1000000 1000000], high int [-1000000 1000000]
class 4 Ghost under 0
class 5 A under 0, k int [-1000000 1000000]
object 0 a of 5, plain, fields 3
object 1 b of 5, plain, fields 4
pred 0 uses of 2, uses, quantity int [0 1000000]
pred 1 produce of 3, produces, quantity int [0 1000000]
pred 2 consume of 3, consumes, quantity int [0 1000000]
pred 3 P of 5, plain, size enum 0 {0 1 2}
horizon 0 1000, steps 1000
root 0 g goal of 3 {0 1}
root 1 h rejectable of 3 {0}
root 2 j rejectable of 3 {0}
root 3 f fact of 3 {1}
global 0 e enum 0 {0 2}
global 1 n int {5}
global 2 m int [10 10]
global 3 t bool {1}
global 4 c object {1}
global 5 d object {0 1}
global 6 v object void
global 7 x int [-1000000 1000000]
global 8 !8 int [-1000000 1000000]
global 9 !9 int [-1000000 1000000]
global 10 !10 int [-1000000 1000000]
global 11 !11 int [-1000000 1000000]
item 0: leq g7 3
item 1: field 0 r0.object g8
item 2: eq g8 g7
item 3: addEq g7 g1 g2
item 4: mulEq g7 -2 g2
item 5: testEQ g3 r0.p0 g0
item 6: testLEQ g3 1 g7
item 7: neq g7 g2
item 8: neq g7 4
item 9: neq g2 4
item 10: field 0 g5 g9
item 11: field 0 g4 g10
item 12: lt g9 g10
item 13: field 0 r0.object g11
decision 0 at m 479: specify g11 4
decision 1 at m 502: activate r0
decision 2 at m 516: merge r2 r3
decision 3 at m 528: reject r1
decision 4 at m 540: specify g0 2
";

#[test]
fn a_posed_problem_has_this_model(rt: HostRuntime) {
    assert_gives(&rt, POSED, POSED_MODEL);
}
