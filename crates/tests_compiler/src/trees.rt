//! What is wrong first with the rules of texts, and the trees of rules, by hand from what the language allows.

use super::asked::{Sought, fault_words};
use super::rows::assert_rows;
use nddl_ast::declaration::FileDecls;
use nddl_rules::rules;
use nddl_terms::{Meaning, RuleTree};
use nddl_types::TypeTable;
use std::alloc::{AllocError, Global};
use tests_samples::lines::Lines;
use tests_samples::variables::tell_part;

fn tell_meaning(meaning: Meaning, lines: &mut Lines) {
    match meaning {
        Meaning::Turn(number) => lines.numbered("t", number),
        Meaning::Local(number) => lines.numbered("l", number),
        Meaning::Slot(number) => lines.numbered("s", number),
        Meaning::Scope(number) => lines.numbered("f", number),
        Meaning::BuiltIn(number) => lines.numbered("b", number),
        Meaning::Here(part) => tell_part(part, lines),
    }
}

/// The predicate, the file, the place of the rule (its declaration and the byte of its name) and how many statements.
fn tell_head(tree: &RuleTree, lines: &mut Lines) {
    lines.numbered("", tree.pred);
    lines.say(" ");
    lines.say(tree.file.as_str());
    lines.begin(" ", tree.place.decl);
    lines.numbered("", tree.place.at);
    lines.say(" ");
    lines.number(tree.body.len());
    lines.say(":");
}

/// Behind the head, each name that is read, with its place and what it means.
fn tell_tree(tree: &RuleTree, lines: &mut Lines) {
    tell_head(tree, lines);
    for name in tree.names.as_slice() {
        lines.numbered(" ", name.at);
        lines.say(" ");
        tell_meaning(name.meaning, lines);
    }
    lines.say("; ");
}

fn trees_words(alloc: Global, trees: &[RuleTree]) -> Result<String, AllocError> {
    let mut lines = Lines::new(alloc);
    for tree in trees {
        tell_tree(tree, &mut lines);
    }
    lines.into_text()
}

/// What is wrong first with the rules of files with this table, or their trees.
pub fn rules_words(
    alloc: Global,
    table: &TypeTable,
    files: &[FileDecls],
) -> Result<String, AllocError> {
    match rules(alloc, table, files) {
        Ok(trees) => trees_words(alloc, trees.as_slice()),
        Err(fault) => fault_words(alloc, &fault),
    }
}

/// A class with a field, two predicates, of which one has parameters, and an object of it.
const CLASSES: &str =
    "class A { int k; A() { k = 1; } predicate P { int v; bool b; } predicate Q { } } A r = new A();";

const FAULTS: &str = "
#include \"q\" A::P { eq(v, b); } | WrongType m 26
#include \"q\" A::P { leq(v); } | WrongCount m 20
#include \"q\" A::P { leq(v, w); } | Unknown m 27
#include \"q\" A::P { mulEq(v, 0, v); } | WrongType m 29
#include \"q\" A::P { testEQ(v, 1, 2); } | WrongType m 27
#include \"q\" A::P { any(Q s); any(s); any(A.P s); } | Twice m 46
#include \"q\" A::P { before(object.R); } | Unknown m 34
#include \"q\" A::P { meets(v.Q); } | WrongType m 26
#include \"q\" A::P { any(s); any(Q s); } | Unknown m 24
#include \"q\" A::P { foreach (o in B) { } } | Unknown m 34
#include \"q\" A::P { foreach (o in r) { } } | WrongType m 34
#include \"q\" A::P { foreach (o in A) { int o; eq(o, 1); } } | WrongType m 52
#include \"q\" A::P { int r; A {r} x; } | WrongType m 30
#include \"q\" A::P { int r; if (b) { A {r} x; } } | WrongType m 39
#include \"q\" A::P { any(Q r); A {r} x; } | WrongType m 33
#include \"q\" A::P { if (b) { int r; } A {r, q} x; } | Unknown m 44
#include \"q\" A::P { A {v} x; } | WrongType m 23
#include \"q\" A::P { A {object} x; } | WrongType m 23
#include \"q\" A::P { int [start 5] x; } | WrongType m 25
#include \"q\" A::P { int [0 w] w; } | Unknown m 27
#include \"q\" enum E { e, f } A::P { bool e; E {f, e} x; } | WrongType m 50
#include \"q\" A::P { foreach (o in A) { int [0 o] x; } } | WrongType m 46
#include \"q\" A::P { foreach (o in A) { bool [o 1] x; } } | WrongType m 45
#include \"q\" A::P { foreach (o in A) { bool {true, o} x; } } | WrongType m 51
#include \"q\" A::P { foreach (o in Object) { A {r, o} x; } } | NotInDomain m 50
#include \"q\" class B extends A { } typedef B {s} T; B s = new B(); A::P { foreach (o in A) { T {o} x; } } | NotInDomain m 96
#include \"q\" A::P { if (v) { } } | WrongType m 24
#include \"q\" A::P { if (v == b) { } else { eq(q, 1); } } | WrongType m 29
#include \"q\" A::P { A n = new A(); } | WrongType m 26
#include \"q\" A::P { int y = r; } | WrongType m 28
#include \"q\" A::P { x.specify(3); } | Unknown m 20
#include \"q\" A::P { r.specify(3); } | Unknown m 22
#include \"q\" A::P { contains(3); } | WrongType m 29
#include \"q\" A::P { eq(r.k.z, 1); } | WrongType m 23
#include \"q\" A::R { eq(q, 1); } | Unknown m 16
#include \"q\" B::P { eq(q, 1); } | Unknown m 13
";

#[test]
fn rules_have_these_first_faults(rt: HostRuntime) {
    assert_rows(&rt, Sought::Trees, CLASSES, FAULTS);
}

/// A text, maybe that of the file `q`, and the trees of their rules: what each name means by its number, as a turn, a local, a
/// slot, a name of the files or a built-in class, or as a part of the token.
const TREES: &str = "
class T { predicate P { bool b; } predicate Q { } predicate R { } } T::P { if (b) { any(object.Q q); } else { any(object.R r); } } | 3 \
    m 1 68 1: 79 p0 88 object 114 object;
class A { predicate P { int v; leq(v, 3); } } A::P { eq(v, start); } class B extends A { } B::P { } | 3 m 0 20 1: 35 p0; 3 m 1 46 1: 56 \
    p0 59 start; 4 m 0 20 1: 35 p0; 4 m 1 46 1: 56 p0 59 start; 4 m 3 91 0:;
N::P { any(object.P s); } class N { predicate P { int v; leq(v, 3); } } | 3 m 0 0 1: 11 object; 3 m 1 46 1: 61 p0;
#include \"q\" N::P { before(N.P s); int x = s.start; if (x == 3) { int s; eq(s, x); } before(s); meets(P t); eq(t.end, end); } | class \
    N { predicate P { } } | 3 m 1 13 6: 27 f0 43 s0 56 l0 76 l1 79 l0 92 s0 111 s1 118 end;
class A { int k; A() { k = 1; } predicate P { } } enum E { a, b } A o = new A(); A::P { foreach (o in A) { int [0 3] o; eq(o.k, \
    duration); E {a} e = b; any(object.P); any(A.P z); } A {o} w; eq(w, o); } | 3 m 3 81 3: 102 f0 123 t0 128 duration 139 f1 142 f2 \
    149 f3 156 object 171 f0 181 f0 184 f4 193 l2 196 f4;
class R extends Reusable { R() { super(3); } } Reusable::uses { eq(quantity, 1); } R::uses { foreach (r in Reusable) { } } | 0 m 1 47 \
    1: 67 p0; 3 m 1 47 1: 67 p0; 3 m 2 83 1: 107 b2;
class N; class N { predicate P { } } int z; N::P { eq(z, 1); Timeline t; N n; } | 3 m 3 44 3: 54 f1 61 b1 73 f0;
class B { predicate P { } } class A extends B { } A r = new A(); A s = new A(); B::P { B {s, r} x; foreach (r in A) { int r; B \
    {r, s} y; } B {r} z; } | 3 m 4 80 3: 87 f0 90 f3 93 f2 113 f1 125 f0 128 t0 131 f3 139 f0 142 f2; 4 m 4 80 3: 87 f0 90 f3 93 \
    f2 113 f1 125 f0 128 t0 131 f3 139 f0 142 f2;
";

#[test]
fn rules_have_these_trees(rt: HostRuntime) {
    assert_rows(&rt, Sought::Trees, "", TREES);
}
