//! Models with resources, by hand: a battery, a tool, and the generated problem with three goals.

use super::compiled::assert_gives;
use problem_gen::generate;

const BATTERY: &str =
    "class Battery extends Reservoir { Battery(int i, int l, int h) { super(i, l, h); } }
PlannerConfig p = new PlannerConfig(0, 10, 100);
Battery b = new Battery(5, 0, 10);
close();
goal(b.consume c);
goal(b.produce d);
";

const BATTERY_MODEL: &str = "
class 0 Object
class 1 Timeline under 0
class 2 Reusable under 0, capacity int [-1000000 1000000]
class 3 Reservoir under 0, initial int [-1000000 1000000], low int [-1000000 1000000], high int [-1000000 1000000]
class 4 Battery under 3, initial int [-1000000 1000000], low int [-1000000 1000000], high int [-1000000 1000000]
object 0 b of 4, reservoir 5 0 10, fields 5 0 10
pred 0 uses of 2, uses, quantity int [0 1000000]
pred 1 produce of 3, produces, quantity int [0 1000000]
pred 2 consume of 3, consumes, quantity int [0 1000000]
pred 3 produce of 4, produces, quantity int [0 1000000]
pred 4 consume of 4, consumes, quantity int [0 1000000]
horizon 0 10, steps 100
root 0 c goal of 4 {0}
root 1 d goal of 3 {0}
";

#[test]
fn a_battery_has_this_model(rt: HostRuntime) {
    assert_gives(&rt, BATTERY, BATTERY_MODEL);
}

const TOOL: &str = "class Tool extends Reusable { Tool(int c) { super(c); } }
PlannerConfig p = new PlannerConfig(0, 10, 100);
Tool t = new Tool(2);
close();
goal(t.uses a);
goal(t.uses b);
eq(a.quantity, 2);
eq(b.quantity, 1);
eq(a.start, 0);
eq(a.end, 5);
eq(b.end, 8);
";

const TOOL_MODEL: &str = "
class 0 Object
class 1 Timeline under 0
class 2 Reusable under 0, capacity int [-1000000 1000000]
class 3 Reservoir under 0, initial int [-1000000 1000000], low int [-1000000 1000000], high int [-1000000 1000000]
class 4 Tool under 2, capacity int [-1000000 1000000]
object 0 t of 4, reusable 2, fields 2
pred 0 uses of 2, uses, quantity int [0 1000000]
pred 1 produce of 3, produces, quantity int [0 1000000]
pred 2 consume of 3, consumes, quantity int [0 1000000]
pred 3 uses of 4, uses, quantity int [0 1000000]
horizon 0 10, steps 100
root 0 a goal of 3 {0}
root 1 b goal of 3 {0}
item 0: eq r0.p0 2
item 1: eq r1.p0 1
item 2: eq r0.start 0
item 3: eq r0.end 5
item 4: eq r1.end 8
";

#[test]
fn a_tool_has_this_model(rt: HostRuntime) {
    assert_gives(&rt, TOOL, TOOL_MODEL);
}

const GENERATED_MODEL: &str = "
class 0 Object
class 1 Timeline under 0
class 2 Reusable under 0, capacity int [-1000000 1000000]
class 3 Reservoir under 0, initial int [-1000000 1000000], low int [-1000000 1000000], high int [-1000000 1000000]
class 4 Tool under 2, capacity int [-1000000 1000000]
class 5 Line under 1
object 0 t of 4, reusable 1, fields 1
object 1 l of 5, timeline
pred 0 uses of 2, uses, quantity int [0 1000000]
pred 1 produce of 3, produces, quantity int [0 1000000]
pred 2 consume of 3, consumes, quantity int [0 1000000]
pred 3 uses of 4, uses, quantity int [0 1000000]
pred 4 Job of 5, plain, kind int [0 9], rules 0
rule 0
  has slot 0 of 3 {0}
  0: eq duration 2
  slot 0
  1: equals s0
  2: eq s0.p0 1
horizon 0 6, steps 100000
root 0 g0 goal of 4 {1}
root 1 g1 goal of 4 {1}
root 2 g2 goal of 4 {1}
item 0: eq r0.start 4
item 1: eq r0.p0 0
item 2: eq r1.start 2
item 3: eq r1.p0 1
item 4: eq r2.start 0
item 5: eq r2.p0 2
";

#[test]
fn a_generated_problem_has_this_model(rt: HostRuntime) {
    let text = generate(rt.alloc(), 3).ok().expect(&rt, "memory");
    let text = std::str::from_utf8(text.as_slice())
        .ok()
        .expect(&rt, "a text");
    assert_gives(&rt, text, GENERATED_MODEL);
}
