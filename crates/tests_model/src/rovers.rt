//! Models with rovers, by hand.

use super::compiled::{assert_gives, assert_two_give};

const ROVER: &str = "class Rover extends Timeline {
  predicate At { int [0 3] place; }
  predicate Going { int [0 3] from; int [0 3] to; }
}
Rover::At { met_by(object.Going g); eq(g.to, place); }
Rover::Going { met_by(object.At a); eq(a.place, from); neq(from, to); }
PlannerConfig p = new PlannerConfig(0, 10, 100);
Rover r = new Rover();
close();
fact(r.At init);
goal(r.At g);
eq(init.place, 0);
eq(init.start, 0);
eq(g.place, 2);
";

const ROVER_MODEL: &str = "
class 0 Object
class 1 Timeline under 0
class 2 Reusable under 0, capacity int [-1000000 1000000]
class 3 Reservoir under 0, initial int [-1000000 1000000], low int [-1000000 1000000], high int [-1000000 1000000]
class 4 Rover under 1
object 0 r of 4, timeline
pred 0 uses of 2, uses, quantity int [0 1000000]
pred 1 produce of 3, produces, quantity int [0 1000000]
pred 2 consume of 3, consumes, quantity int [0 1000000]
pred 3 At of 4, plain, place int [0 3], rules 0
pred 4 Going of 4, plain, from int [0 3], to int [0 3], rules 1
rule 0
  has slot 0 of 4 {0}
  slot 0
  0: eq s0.object object
  1: met_by s0
  2: eq s0.p1 p0
rule 1
  has slot 0 of 3 {0}
  slot 0
  0: eq s0.object object
  1: met_by s0
  2: eq s0.p0 p0
  3: neq p0 p1
horizon 0 10, steps 100
root 0 init fact of 3 {0}
root 1 g goal of 3 {0}
item 0: eq r0.p0 0
item 1: eq r0.start 0
item 2: eq r1.p0 2
";

#[test]
fn a_rover_has_this_model(rt: HostRuntime) {
    assert_gives(&rt, ROVER, ROVER_MODEL);
}

const ROVER_PROBLEM: &str = "PlannerConfig p = new PlannerConfig(0, 10, 100);
Rover r = new Rover();
#include \"q\"
fact(r.At init);
goal(r.At g);
eq(init.place, 0);
eq(init.start, 0);
eq(g.place, 2);
";

const ROVER_CLASSES: &str = "#include \"m\"
#include \"Plasma.nddl\"
Rover::Going { met_by(object.At a); eq(a.place, from); neq(from, to); }
close();
class Rover extends Timeline {
  predicate At { int [0 3] place; }
  predicate Going { int [0 3] from; int [0 3] to; }
}
Rover::At { met_by(object.Going g); eq(g.to, place); }
";

#[test]
fn a_rover_in_two_files_has_the_same_model(rt: HostRuntime) {
    assert_two_give(&rt, ROVER_PROBLEM, ROVER_CLASSES, ROVER_MODEL);
}

const USUAL: &str = "#include \"Plasma.nddl\"
#include \"PlannerConfig.nddl\"
enum Location { lander, rock, hill };
class Rover extends Timeline {
  predicate At { Location location; }
  predicate Going { Location from; Location to; neq(from, to); }
}
Rover::At { met_by(object.Going g); eq(g.to, location); }
Rover::Going { met_by(object.At a); eq(a.location, from); eq(duration, 3); }
PlannerConfig plannerConfig = new PlannerConfig(0, 100, 500);
Rover spirit = new Rover();
close();
fact(spirit.At here);
here.start.specify(0);
here.location.specify(lander);
goal(spirit.At there);
there.location.specify(rock);
";

// The body of a predicate is a rule at the place of the predicate's name, which is before the rule that follows the class.
const USUAL_MODEL: &str = "
enum 0 Location lander rock hill
class 0 Object
class 1 Timeline under 0
class 2 Reusable under 0, capacity int [-1000000 1000000]
class 3 Reservoir under 0, initial int [-1000000 1000000], low int [-1000000 1000000], high int [-1000000 1000000]
class 4 Rover under 1
object 0 spirit of 4, timeline
pred 0 uses of 2, uses, quantity int [0 1000000]
pred 1 produce of 3, produces, quantity int [0 1000000]
pred 2 consume of 3, consumes, quantity int [0 1000000]
pred 3 At of 4, plain, location enum 0 {0 1 2}, rules 0
pred 4 Going of 4, plain, from enum 0 {0 1 2}, to enum 0 {0 1 2}, rules 1 2
rule 0
  has slot 0 of 4 {0}
  slot 0
  0: eq s0.object object
  1: met_by s0
  2: eq s0.p1 p0
rule 1
  0: neq p0 p1
rule 2
  has slot 0 of 3 {0}
  slot 0
  0: eq s0.object object
  1: met_by s0
  2: eq s0.p0 p0
  3: eq duration 3
horizon 0 100, steps 500
root 0 here fact of 3 {0}
root 1 there goal of 3 {0}
decision 0 at m 483: specify r0.start 0
decision 1 at m 506: specify r0.p0 0
decision 2 at m 560: specify r1.p0 1
";

#[test]
fn a_file_in_the_usual_form_has_this_model(rt: HostRuntime) {
    assert_gives(&rt, USUAL, USUAL_MODEL);
}

const DAY: &str = "enum Site { lander, rock, hill };
class Battery extends Reservoir { Battery(int charge, int low, int high) { super(charge, low, high); } }
class Rover extends Timeline {
  Battery battery;
  Rover(Battery b) { battery = b; }
  predicate At { Site site; }
  predicate Driving { Site from; Site to; neq(from, to); }
}
class Drill extends Timeline {
  Rover rover;
  Drill(Rover r) { rover = r; }
  predicate Sampling { Site site; bool deep; }
}
Rover::At { met_by(object.Driving drive); eq(drive.to, site); }
Rover::Driving {
  met_by(object.At before);
  eq(before.site, from);
  leq(5, duration);
  leq(duration, 10);
  starts(object.battery.consume drain);
  eq(drain.duration, 1);
  if (to == hill) { eq(drain.quantity, 5); } else { eq(drain.quantity, 3); }
}
Drill::Sampling {
  contained_by(object.rover.At stand);
  eq(stand.site, site);
  starts(object.rover.battery.consume drain);
  eq(drain.duration, 1);
  if (deep) { eq(duration, 8); eq(drain.quantity, 4); } else { eq(duration, 4); eq(drain.quantity, 2); }
}
PlannerConfig config = new PlannerConfig(0, 60, 500);
Battery battery = new Battery(16, 0, 20);
Rover rover = new Rover(battery);
Drill drill = new Drill(rover);
close();
fact(rover.At landed);
landed.start.specify(0);
landed.site.specify(lander);
goal(drill.Sampling sample);
sample.site.specify(rock);
sample.deep.specify(false);
rejectable(drill.Sampling extra);
eq(extra.site, hill);
eq(extra.deep, true);
";

const DAY_MODEL: &str = "
enum 0 Site lander rock hill
class 0 Object
class 1 Timeline under 0
class 2 Reusable under 0, capacity int [-1000000 1000000]
class 3 Reservoir under 0, initial int [-1000000 1000000], low int [-1000000 1000000], high int [-1000000 1000000]
class 4 Battery under 3, initial int [-1000000 1000000], low int [-1000000 1000000], high int [-1000000 1000000]
class 5 Rover under 1, battery object {0}
class 6 Drill under 1, rover object {1}
object 0 battery of 4, reservoir 16 0 20, fields 16 0 20
object 1 rover of 5, timeline, fields 0
object 2 drill of 6, timeline, fields 1
pred 0 uses of 2, uses, quantity int [0 1000000]
pred 1 produce of 3, produces, quantity int [0 1000000]
pred 2 consume of 3, consumes, quantity int [0 1000000]
pred 3 produce of 4, produces, quantity int [0 1000000]
pred 4 consume of 4, consumes, quantity int [0 1000000]
pred 5 At of 5, plain, site enum 0 {0 1 2}, rules 0
pred 6 Driving of 5, plain, from enum 0 {0 1 2}, to enum 0 {0 1 2}, rules 1 2
pred 7 Sampling of 6, plain, site enum 0 {0 1 2}, deep bool {0 1}, rules 3
rule 0
  has slot 0 of 6 {1}
  slot 0
  0: eq s0.object object
  1: met_by s0
  2: eq s0.p1 p0
rule 1
  0: neq p0 p1
rule 2
  has slot 0 of 5 {1}
  has slot 1 of 4 {0}
  has local 0 object {0}
  slot 0
  0: eq s0.object object
  1: met_by s0
  2: eq s0.p0 p0
  3: leq 5 duration
  4: leq duration 10
  local 0
  5: field 0 object l0
  slot 1
  6: eq s1.object l0
  7: starts s1
  8: eq s1.duration 1
  if p1 == 2
    9: eq s1.p0 5
  else
    10: eq s1.p0 3
rule 3
  has slot 0 of 5 {1}
  has slot 1 of 4 {0}
  has local 0 object {1}
  has local 1 object {1}
  has local 2 object {0}
  local 0
  0: field 0 object l0
  slot 0
  1: eq s0.object l0
  2: contained_by s0
  3: eq s0.p0 p0
  local 1
  4: field 0 object l1
  local 2
  5: field 0 l1 l2
  slot 1
  6: eq s1.object l2
  7: starts s1
  8: eq s1.duration 1
  if p1 == 1
    9: eq duration 8
    10: eq s1.p0 4
  else
    11: eq duration 4
    12: eq s1.p0 2
horizon 0 60, steps 500
root 0 landed fact of 5 {1}
root 1 sample goal of 7 {2}
root 2 extra rejectable of 7 {2}
item 0: eq r2.p0 2
item 1: eq r2.p1 1
decision 0 at m 1215: specify r0.start 0
decision 1 at m 1240: specify r0.p0 0
decision 2 at m 1298: specify r1.p0 1
decision 3 at m 1325: specify r1.p1 0
";

#[test]
fn a_day_of_a_rover_has_this_model(rt: HostRuntime) {
    assert_gives(&rt, DAY, DAY_MODEL);
}
