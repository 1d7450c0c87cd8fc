//! Trees of texts, compared as wholes.

use super::rows::{Asked, assert_answer, assert_rows};
use eu_name::sequence::Sequence;
use eu_name::text::Text;
use nddl_ast::declaration::Decl;
use nddl_ast::name::Name;
use nddl_ast::same::are_same;
use nddl_lexer::lexing::lex;
use nddl_parser::{ParseFault, parse};
use std::alloc::{AllocError, Global};

/// The tree of a text, or its first fault of grammar; Memory also where the text is long, or its lexemes are faulty.
pub fn tree_of(alloc: Global, text: &[u8]) -> Result<Sequence<Decl>, ParseFault> {
    if text.len() > 10_000 {
        return Err(ParseFault::Memory);
    }
    match lex(alloc, text) {
        Ok(lexemes) => parse(alloc, text, lexemes.as_slice()),
        Err(_) => Err(ParseFault::Memory),
    }
}

/// Whether the text has this tree, up to places.
fn has_tree(alloc: Global, text: &[u8], tree: &[Decl]) -> bool {
    match tree_of(alloc, text) {
        Ok(found) => are_same(found.as_slice(), tree),
        Err(_) => false,
    }
}

/// Whether both texts have trees that are equal up to places. Each tree has an owner of its own, since a proof goes through all
/// that an owner may drop.
pub fn are_alike(alloc: Global, one: &[u8], other: &[u8]) -> bool {
    match tree_of(alloc, other) {
        Ok(tree) => has_tree(alloc, one, tree.as_slice()),
        Err(_) => false,
    }
}

/// Whether two texts have one tree.
struct OneTree;

impl Asked for OneTree {
    fn answer(&self, alloc: Global, given: &str) -> Result<String, AllocError> {
        let (one, other) = given.split_once(" | ").unwrap_or((given, ""));
        format!(in alloc; "{}", are_alike(alloc, one.as_bytes(), other.as_bytes()))
    }
}

// Spellings of one tree, or of two.
const PAIRS: &str = r#"
int[0,1]x; | int [ 00 +1 ] /* */ x ; | true
float x = 1.5; | float x = 001.500; | true
enum E {a, b}; | enum E{a,b} | true
class A { }; | class A{} | true
#include "a"; | #include "a" | true
A::P { if (x) { } else if (y) { } } | A::P{if(x){}else{if(y){}}} | true
int [inf 1] x; | int [1000000 1] x; | true
int x; | int y; | false
int x; | int x; int x; | false
int x; | bool x; | false
int x = 1; | int x = 2; | false
int x = 1; | float x = 0.001; | false
int [0 1] x; | int {0, 1} x; | false
x.y(); | x.z(); | false
f(a, b); | f(a); | false
any(object.Q q); | any(subject.Q q); | false
class A extends B { } | class A { } | false
class A; | class A { } | false
class A { int k; } | class A { A() { } } | false
class A { A() { x = 1; } } | class A { A() { super(1); } } | false
class A { predicate P { int x; } } | class A { predicate P { leq(x, 1); } } | false
A::P { if (x) { } } | A::P { if (x) { } else { } } | false
A::P { if (x == 1) { } } | A::P { if (x != 1) { } } | false
A::P { foreach (o in N) { f(1); } } | A::P { foreach (o in N) { f(2); } } | false
#include "a" | #include "b" | false
"#;

#[test]
fn trees_are_compared_without_their_places(rt: HostRuntime) {
    assert_rows(&rt, &OneTree, PAIRS);
    assert_answer(&rt, &OneTree, " |  // nothing\n", "true");
}

/// Whether a copy of the name has this text and place.
fn has_copy(name: &Name, text: &str, at: u32) -> bool {
    match name.copy() {
        Ok(copy) => copy.text.as_str() == text && copy.at == at,
        Err(_none) => false,
    }
}

/// Whether the name of this text and place is copied.
fn is_copied(alloc: Global, text: &str, at: u32) -> bool {
    match Text::from_str(alloc, text) {
        Ok(written) => has_copy(&Name { text: written, at }, text, at),
        Err(_none) => false,
    }
}

#[test]
fn a_name_is_copied_with_its_place(rt: HostRuntime) {
    assert!(rt; is_copied(rt.alloc(), "start", 7));
}
