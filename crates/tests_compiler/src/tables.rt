//! The table of a text with all of the language's declarations, by hand.

use super::asked::{Sought, told};
use nddl_types::{Named, NamedKind, TypeTable};
use std::alloc::{AllocError, Global};
use tests_samples::lines::{Lines, tell_all};

fn name_word(kind: NamedKind) -> &'static str {
    match kind {
        NamedKind::Enum => "enum",
        NamedKind::Member => "member",
        NamedKind::Typedef => "typedef",
        NamedKind::Class => "class",
        NamedKind::Global => "global",
        NamedKind::Object => "object",
        NamedKind::Root => "root",
        NamedKind::Config => "config",
    }
}

/// A name, with what it is and where it stands.
fn tell_name(named: &Named, lines: &mut Lines) {
    lines.say(name_word(named.kind));
    lines.say(" ");
    lines.say(named.name.as_str());
    lines.say(" ");
    lines.say(named.file.as_str());
    lines.numbered(" ", named.at);
    lines.end_line();
}

fn tell_table(table: &TypeTable, lines: &mut Lines) {
    tell_all(table.enums.as_slice(), lines);
    tell_all(table.classes.as_slice(), lines);
    tell_all(table.preds.as_slice(), lines);
    for named in table.scope.as_slice() {
        tell_name(named, lines);
    }
}

/// All of a table, each thing on a line.
pub fn table_words(alloc: Global, table: &TypeTable) -> Result<String, AllocError> {
    let mut lines = Lines::new(alloc);
    tell_table(table, &mut lines);
    lines.into_text()
}

const TEXT: &str = "#include \"q\"
enum Color { red, green, blue }
typedef Color {green, red} Warm;
typedef int [0 9] Digit;
class Tool;
class Rover extends Timeline {
    Digit speed; Warm paint; bool busy; Rover other;
    Rover(Digit n) { speed = n; }
    predicate At { int [2 5] place; Tool with; }
    predicate Idle { eq(duration, 1); }
}
class Tool extends Reusable { int {3, 1, 2, 1} size; Tool(int c) { super(c); } }
class Fast extends Rover { Color trim; predicate Fly { leq(height, 3); int height; Mode {on, off} mode; } }
PlannerConfig p = new PlannerConfig(0, 10, 100);
int [0 5] x = 3;
Fast f = new Fast(1);
goal(f.At g);
Rover::At { any(object.Idle s); }
leq(x, 4);
close();
x.specify(2);
";

const OTHER: &str = "enum Mode { on, off } class Tank extends Reservoir { Mode {off} mode; }";

const TABLE: &str = "enum 0 Mode on off
enum 1 Color red green blue
class 0 Object
class 1 Timeline under 0
class 2 Reusable under 0, capacity int [-1000000 1000000]
class 3 Reservoir under 0, initial int [-1000000 1000000], low int [-1000000 1000000], high int [-1000000 1000000]
class 4 Tank under 3, initial int [-1000000 1000000], low int [-1000000 1000000], high int [-1000000 1000000], mode enum 0 {1}
class 5 Tool under 2, capacity int [-1000000 1000000], size int {1 2 3}
class 6 Rover under 1, speed int [0 9], paint enum 1 {0 1}, busy bool {0 1}, other object void
class 7 Fast under 6, speed int [0 9], paint enum 1 {0 1}, busy bool {0 1}, other object void, trim enum 1 {0 1 2}
pred 0 uses of 2, uses, quantity int [0 1000000]
pred 1 produce of 3, produces, quantity int [0 1000000]
pred 2 consume of 3, consumes, quantity int [0 1000000]
pred 3 produce of 4, produces, quantity int [0 1000000]
pred 4 consume of 4, consumes, quantity int [0 1000000]
pred 5 uses of 5, uses, quantity int [0 1000000]
pred 6 At of 6, plain, place int [2 5], with object void
pred 7 Idle of 6, plain
pred 8 At of 7, plain, place int [2 5], with object void
pred 9 Idle of 7, plain
pred 10 Fly of 7, plain, height int [-1000000 1000000], mode enum 0 {0 1}
enum Mode q 5
member on q 12
member off q 16
class Tank q 28
enum Color m 18
member red m 26
member green m 31
member blue m 38
typedef Warm m 72
typedef Digit m 96
class Tool m 109
class Rover m 121
class Fast m 411
config p m 527
global x m 572
object f m 584
root g m 611
";

/// Whether this is the table of the texts.
fn is_table(alloc: Global, text: &str, other: &str, table: &str) -> bool {
    match told(alloc, Sought::Table, text, other) {
        Ok(words) => words.as_str() == table,
        Err(_none) => false,
    }
}

#[test]
fn a_text_has_this_table(rt: HostRuntime) {
    assert!(rt; is_table(rt.alloc(), TEXT, OTHER, TABLE));
}
