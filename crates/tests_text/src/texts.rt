//! Texts, with the count of declarations or the fault that each has.

use super::rows::{Asked, assert_rows};
use super::spellings::spelling_of;
use super::trees::{are_alike, tree_of};
use nddl_parser::ParseFault;
use std::alloc::{AllocError, Global};

/// How many declarations the text has, or its fault.
fn count_of(alloc: Global, text: &str) -> Result<usize, ParseFault> {
    match tree_of(alloc, text.as_bytes()) {
        Ok(tree) => Ok(tree.len()),
        Err(fault) => Err(fault),
    }
}

/// Whether the text's canonical spelling has the tree that the text has.
fn is_read_back(alloc: Global, text: &[u8]) -> bool {
    match spelling_of(alloc, text) {
        Some(spelling) => are_alike(alloc, text, spelling.as_slice()),
        None => false,
    }
}

/// How many declarations a text has, and whether it is read back.
struct Declared;

impl Asked for Declared {
    fn answer(&self, alloc: Global, given: &str) -> Result<String, AllocError> {
        let count = count_of(alloc, given);
        format!(in alloc; "{count:?} {}", is_read_back(alloc, given.as_bytes()))
    }
}

const TEXTS: &str = "
 | Ok(0) true
#include \"a.nddl\" | Ok(1) true
#include \"a.nddl\"; | Ok(1) true
enum E { a } | Ok(1) true
enum E { a, b }; | Ok(1) true
typedef int [0 1] T; | Ok(1) true
typedef E {a, b} F; | Ok(1) true
class A; | Ok(1) true
class A { } | Ok(1) true
class A extends B { } ; | Ok(1) true
class A { int x; B b; B {a} c; predicate P { int [0 1] x; B b; leq(x, b); object.ok(); }; predicate Q { } A(int x, B b) { x = 1; b = \
    new B(x, true); super(x); } A() { } } | Ok(1) true
A::P { } | Ok(1) true
A::P { int x; B b = new B(); B c = a.b; leq(x, 1); any(object.Q q); any(object.Q); a.b.c(); if (x) { } if (a.b == 1.5) { } else { } \
    foreach (x in B) { leq(x, 1); } } | Ok(1) true
A::P { if (x) { } else if (x != false) { } else { } if (y) { } } | Ok(1) true
int x; float [0, 1.5] y = -1; bool z = true; string s; x.specify(1); close(); goal(a.P p); f(a, 1, true); | Ok(8) true
A::P{if(x){}else if(x){}else if(x){}else if(x){}else if(x){}else if(x){}else if(x){}else if(x){}else if(x){}else if(x){}else \
    if(x){}else if(x){}else if(x){}else if(x){}else if(x){}} | Ok(1) true
A::P{if(a){if(a){if(a){if(a){if(a){if(a){if(a){if(a){if(a){if(a){if(a){if(a){if(a){if(a){if(a){}}}}}}}}}}}}}}}} | Ok(1) true
";

#[test]
fn reads_each_line_of_the_grammar(rt: HostRuntime) {
    assert_rows(&rt, &Declared, TEXTS);
}

/// How many declarations a text has.
struct Count;

impl Asked for Count {
    fn answer(&self, alloc: Global, given: &str) -> Result<String, AllocError> {
        format!(in alloc; "{:?}", count_of(alloc, given))
    }
}

const FAULTS: &str = "
int int x; | Err(Syntax(4))
int inf; | Err(Syntax(4))
int x | Err(Syntax(5))
int | Err(Syntax(3))
int x = ; | Err(Syntax(8))
int x = new; | Err(Syntax(11))
int x = new 1 | Err(Syntax(12))
int x y | Err(Syntax(6))
int [0 ] x; | Err(Syntax(7))
int [0,1,2] x; | Err(Syntax(8))
int {} x; | Err(Syntax(5))
int {0,} x; | Err(Syntax(7))
int {0 1} x; | Err(Syntax(7))
x | Err(Syntax(1))
x; | Err(Syntax(1))
x.; | Err(Syntax(2))
x.y; | Err(Syntax(3))
x( | Err(Syntax(2))
x(a | Err(Syntax(3))
x(a,) | Err(Syntax(4))
x(a b c) | Err(Syntax(6))
x(a b | Err(Syntax(5))
x(1 b) | Err(Syntax(4))
x() | Err(Syntax(3))
x.y(a b); | Err(Syntax(6))
#include a | Err(Syntax(9))
enum E | Err(Syntax(6))
enum E { } | Err(Syntax(9))
enum E { a, } | Err(Syntax(12))
enum E { a b } | Err(Syntax(11))
typedef int; | Err(Syntax(11))
typedef T {a} ; | Err(Syntax(14))
class | Err(Syntax(5))
class int | Err(Syntax(6))
class A = 1 | Err(Syntax(8))
class A extends | Err(Syntax(15))
class A extends B; | Err(Syntax(17))
class A { | Err(Syntax(9))
class A { 1 } | Err(Syntax(10))
class A { predicate P { any(object.Q q); } } | Err(Syntax(37))
class A { predicate P { if (x) { } } } | Err(Syntax(24))
class A { A(int) { } } | Err(Syntax(15))
class A { A(int x,) { } } | Err(Syntax(18))
class A { A() { x 1; } } | Err(Syntax(18))
class A { A() { super; } } | Err(Syntax(21))
class A { A() } | Err(Syntax(14))
A:: | Err(Syntax(3))
A::P; | Err(Syntax(4))
A::P { class B; } | Err(Syntax(7))
A::P { if x } | Err(Syntax(10))
A::P { if (x = 1) { } } | Err(Syntax(13))
A::P { if (x) y(); } | Err(Syntax(14))
A::P { if (x) { } else y(); } | Err(Syntax(23))
A::P { else { } } | Err(Syntax(7))
A::P { foreach (x B) { } } | Err(Syntax(18))
A::P { foreach (x in B) leq(x); } | Err(Syntax(24))
A::P { x::P { } } | Err(Syntax(8))
A::P { int x; } } | Err(Syntax(16))
int x; } | Err(Syntax(7))
A::P{if(a){if(a){if(a){if(a){if(a){if(a){if(a){if(a){if(a){if(a){if(a){if(a){if(a){if(a){if(a){if(a)x | Err(Syntax(100))
";

#[test]
fn tells_the_first_fault(rt: HostRuntime) {
    assert_rows(&rt, &Count, FAULTS);
}

const NESTED: &str = "
A::P{if(x){}else if(x){}else if(x){}else if(x){}else if(x){}else if(x){}else if(x){}else if(x){}else if(x){}else if(x){}else \
    if(x){}else if(x){}else if(x){}else if(x){}else if(x){}else if(x){}} | Err(TooDeep(190))
A::P{if(a){if(a){if(a){if(a){if(a){if(a){if(a){if(a){if(a){if(a){if(a){if(a){if(a){if(a){if(a){if(a){}}}}}}}}}}}}}}}}} | Err(TooDeep(100))
A::P{foreach(a in b){foreach(a in b){foreach(a in b){foreach(a in b){foreach(a in b){foreach(a in b){foreach(a in b){foreach(a in \
    b){foreach(a in b){foreach(a in b){foreach(a in b){foreach(a in b){foreach(a in b){foreach(a in b){foreach(a in b){foreach(a in b){ \
    | Err(TooDeep(260))
A::P{if(a){if(a){if(a){if(a){if(a){if(a){if(a){if(a){if(a){if(a){if(a){if(a){if(a){if(a){if(a){if(a){) | Err(TooDeep(100))
";

#[test]
fn tells_the_first_block_nested_too_deep(rt: HostRuntime) {
    assert_rows(&rt, &Count, NESTED);
}
