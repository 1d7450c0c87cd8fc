//! Texts of problems, scripts and answers that more than one test runs on.

/// The texts, each behind its name; a row that begins with `#` is a comment. A text that ends in a line feed is followed by an
/// empty line.
const TEXTS: &str = "
== # Two variables in order.
== ORDERED
int [0 10] x; int [0 10] y; leq(x, y);
== # A rule that asks for one token where `b` is true, and for another where it is false.
== GUARDED
class T { predicate P { bool b; } predicate Q { } predicate R { } }
T::P { if (b) { any(object.Q q); } else { any(object.R r); } }
T t = new T();
close();
goal(t.P g);

== # The same with a global that equals `b`.
== GLOBAL
bool c;
class T { predicate P { bool b; } predicate Q { } predicate R { } }
T::P { if (b) { any(object.Q q); } else { any(object.R r); } }
T t = new T();
close();
goal(t.P g);
eq(g.b, c);

== # Tokens that each ask for another one of their predicate.
== CHAIN
class N { predicate A { } } N::A { any(object.A a); } N n = new N(); close(); goal(n.A g); goal(n.A h);
== # A rejectable that can't take place.
== DOUBTED
class N { predicate A { int [0 5] v; } } N n = new N(); close(); goal(n.A g); rejectable(n.A r); eq(g.v, 3); eq(r.v, 4); eq(r.v, g.v);
== # A rover that has to go to be somewhere else.
== ROVER
class Rover extends Timeline {
  predicate At { int [0 3] place; }
  predicate Going { int [0 3] from; int [0 3] to; }
}
Rover::At { met_by(object.Going g); eq(g.to, place); }
Rover::Going { met_by(object.At a); eq(a.place, from); neq(from, to); }
PlannerConfig p = new PlannerConfig(0, 10, 100);
Rover r = new Rover();
close();
fact(r.At init);
goal(r.At g);
eq(init.place, 0);
eq(init.start, 0);
eq(g.place, 2);

== # How the search tells the plan of the rover.
== ROVER_FOUND
found 12
plan
fact init Rover.At start 0 end 1 duration 1 object r place 0
token g Rover.At start 2 end 3 duration 1 object r place 2
token g/0:0 Rover.Going start 1 end 2 duration 1 object r from 0 to 2
merged g/0:0/0:0 init
end

== # Two tokens of one timeline.
== PAIR
class L extends Timeline { predicate A { } } PlannerConfig p = new PlannerConfig(0, 10, 100); L l = new L(); close(); goal(l.A a); \
goal(l.A b);
== # Two tokens that may take place at one time.
== FREE
class N { predicate A { } } PlannerConfig p = new PlannerConfig(0, 10, 100); N n = new N(); close(); goal(n.A g); goal(n.A h);
== # The same with a token that may be left out.
== OPTIONAL
class N { predicate A { } } PlannerConfig p = new PlannerConfig(0, 10, 100); N n = new N(); close(); goal(n.A g); goal(n.A h); \
rejectable(n.A r);
== # Three of one timeline.
== THREE
class L extends Timeline { predicate A { } } PlannerConfig p = new PlannerConfig(0, 10, 100); L l = new L(); close(); goal(l.A a); \
goal(l.A b); goal(l.A e);
== # Orders of the three that go round.
== ROUND
activate a
activate b
activate e
order a b
order b e
order e a
cycle
undo
domain e.start

== # What is answered.
== ROUND_ANSWERS
ok
ok
ok
ok
ok
inconsistent
cycle 6
a.start + 1 <= a.end
a.end + 0 <= b.start
b.start + 1 <= b.end
b.end + 0 <= e.start
e.start + 1 <= e.end
e.end + 0 <= a.start
ok
e.start [2 9]

== # Two uses of a tool.
== TOOL
class Tool extends Reusable { Tool(int c) { super(c); } } PlannerConfig p = new PlannerConfig(0, 10, 100); Tool t = new Tool(2); close(); \
goal(t.uses a); goal(t.uses b); eq(a.quantity, 2); eq(b.quantity, 1); eq(a.start, 0); eq(a.end, 5); eq(b.end, 8);
== # What takes from a battery, and what gives to it.
== BATTERY
class Battery extends Reservoir { Battery(int i, int l, int h) { super(i, l, h); } } PlannerConfig p = new PlannerConfig(0, 10, 100); \
Battery b = new Battery(5, 0, 10); close(); goal(b.consume c); goal(b.produce d);
== # A file as planners write it.
== USUAL
#include \"Plasma.nddl\"
#include \"PlannerConfig.nddl\"
enum Location { lander, rock, hill };
class Rover extends Timeline {
  predicate At { Location location; }
  predicate Going { Location from; Location to; neq(from, to); }
}
Rover::At { met_by(object.Going g); eq(g.to, location); }
Rover::Going { met_by(object.At a); eq(a.location, from); eq(duration, 3); }
PlannerConfig plannerConfig = new PlannerConfig(0, 100, 500);
Rover spirit = new Rover();
close();
fact(spirit.At here);
here.start.specify(0);
here.location.specify(lander);
goal(spirit.At there);
there.location.specify(rock);

== # How the search tells the plan of it.
== USUAL_FOUND
found 11
plan
fact here Rover.At start 0 end 1 duration 1 object spirit location lander
token there Rover.At start 4 end 5 duration 1 object spirit location rock
token there/0:0 Rover.Going start 1 end 4 duration 3 object spirit from lander to rock
merged there/0:0/1:0 here
end

== USAGE
usage: europa plan FILE [--steps N] [--tokens N] | script FILE | check FILE PLAN | show FILE | gen N | try N

== # Two uses of a tool that have no room beside each other.
== USES
class Tool extends Reusable { Tool(int c) { super(c); } } PlannerConfig p = new PlannerConfig(0, 4, 100); Tool t = new Tool(2); close(); \
goal(t.uses a); goal(t.uses b); eq(a.quantity, 1); eq(b.quantity, 2); eq(a.duration, 2); eq(b.duration, 2);
== # The same where one of them uses more than there is.
== OVERUSE
class Tool extends Reusable { Tool(int c) { super(c); } } PlannerConfig p = new PlannerConfig(0, 4, 100); Tool t = new Tool(2); close(); \
goal(t.uses a); goal(t.uses b); eq(a.quantity, 1); eq(b.quantity, 3); eq(a.duration, 2); eq(b.duration, 2);
== # The generated problem of one goal.
== GENERATED
class Tool extends Reusable { Tool(int c) { super(c); } }
class Line extends Timeline { predicate Job { int [0 9] kind; } }
Line::Job { eq(duration, 2); equals(Tool.uses u); eq(u.quantity, 1); }
PlannerConfig p = new PlannerConfig(0, 2, 100000);
Tool t = new Tool(1);
Line l = new Line();
close();
goal(l.Job g0);
eq(g0.start, 0);
eq(g0.kind, 0);

== # A file in the usual form, with everything that the grammar has.
== WHOLE
#include \"Plasma.nddl\"
#include \"PlannerConfig.nddl\";
enum Location { lander, rock, hill };
typedef int [0, 10] Level;
typedef float {-0.5, inf} Charge;
class Rock;
class Rover extends Timeline { // one of two
  Location home;
  Level [0 +5] level;
  predicate At { Location location; eq(location, home); }
  predicate Going { bool {true, false} fast; float [0.25 1] speed; neq(fast, true); };
  Rover(Location l, string s) { super(l, -1.5, true); home = l; level = 007; mate = new Rock(); }
}
class Rock { Rock() { } };
Rover::At {
  met_by(object.Going g);
  Rock r;
  Location l = g.to;
  if (fast) { eq(speed, 0.5); } else if (l == home) { } else { any(Going h); }
  foreach (r in Rock) { if (r.level != 3) { leq(r.level, duration); } }
}
PlannerConfig config = new PlannerConfig(0, 100, 500);
Rover spirit = new Rover(lander, x.y);
bool done = false;
close();
fact(spirit.At here);
here.location.specify(lander);

== # The same in the canonical spelling.
== SPELLED
#include \"Plasma.nddl\"
#include \"PlannerConfig.nddl\"
enum Location { lander , rock , hill }
typedef int [ 0 10 ] Level ;
typedef float { -0.500 , 1000000 } Charge ;
class Rock ;
class Rover extends Timeline { Location home ; Level [ 0 5 ] level ; predicate At { Location location ; eq ( location , home ) ; } \
predicate Going { bool { true , false } fast ; float [ 0.250 1 ] speed ; neq ( fast , true ) ; } Rover ( Location l , string s ) { super \
( l , -1.500 , true ) ; home = l ; level = 7 ; mate = new Rock ( ) ; } }
class Rock { Rock ( ) { } }
Rover :: At { met_by ( object . Going g ) ; Rock r ; Location l = g . to ; if ( fast ) { eq ( speed , 0.500 ) ; } else { if ( l == home ) \
{ } else { any ( Going h ) ; } } foreach ( r in Rock ) { if ( r . level != 3 ) { leq ( r . level , duration ) ; } } }
PlannerConfig config = new PlannerConfig ( 0 , 100 , 500 ) ;
Rover spirit = new Rover ( lander , x . y ) ;
bool done = false ;
close ( ) ;
fact ( spirit . At here ) ;
here . location . specify ( lander ) ;
";

/// What stands behind its name and a line feed in this section, where that is the name.
fn section_text<'a>(section: &'a str, name: &str) -> Option<&'a str> {
    match section.split_once('\n') {
        Some((found, text)) => { if found == name { Some(text) } else { None } }
        None => None,
    }
}

/// The text of this name among the sections, where there is one.
pub fn section_in<'a>(sections: &'a str, separator: &str, name: &str) -> Option<&'a str> {
    let mut found = None;
    for section in sections.split(separator) {
        found = found.or(section_text(section, name));
    }
    found
}

/// The text of this name, or the word itself.
pub fn text_of(word: &str) -> &str {
    section_in(TEXTS, "\n== ", word).unwrap_or(word)
}
