//! What is wrong first with the names and types of texts, by hand from what the language allows.

use super::asked::Sought;
use super::rows::assert_rows;

// A text, and maybe that of the file `q`.
const FIRST: &str = "
int [0.5 3] x; | WrongType m 5
float {0.5, 2000} f; | NotInDomain m 12
float [0 2000] f; | NotInDomain m 9
float [1 0.5] f; | NotInDomain m 6
typedef float [0 2.5] T; T [1 3] x; | NotInDomain m 27
typedef float [0 2.5] T; T {1, 2.501} x; | NotInDomain m 31
int {1, 1.5} x; | WrongType m 8
x y; | Unknown m 0
PlannerConfig p; | Unknown m 0
class A { predicate P { int v; B w; } } | Unknown m 31
class A extends B { } | Unknown m 16
class A extends PlannerConfig { } | Unknown m 16
int {1, q} x; | Unknown m 8
enum E { a } int {1} x; bool {true, E} y; | Unknown m 36
int x; bool x; | Twice m 12
enum E { a } class A { predicate P { } } goal(A.P a); | Twice m 50
goal(A.P a); class A { predicate P { } } enum E { b, a } | Twice m 53
class A; A a = new A(); typedef int a; | Twice m 36
class N; class N { } class N; class N { } | Twice m 36
class N; int N; | Twice m 13
class A { int P; predicate P { } } | Twice m 27
class A { predicate P { int v; bool v; } } | Twice m 36
class A { A(int n, bool n) { } } | Twice m 24
class A { int P; } class B extends A { predicate P { } } | Twice m 49
class C extends B { bool k; } class B extends A { } class A { int k; } | Twice m 25
class A extends Reservoir { predicate produce { } } | Twice m 38
class A extends Reusable { } class B extends A { int capacity; } | Twice m 53
class A { A() { } A(int n) { } } | Twice m 18
class A { A() { } B() { } } | Twice m 18
PlannerConfig p = new PlannerConfig(0, 1, 1); PlannerConfig q = new PlannerConfig(0, 1, 1); | Twice m 60
class A { predicate P { int v; bool end; } } | Twice m 36
class A { predicate P { A object; } } | Twice m 26
class A { predicate P { int start; } } | Twice m 28
class A { predicate P { int duration; } } | Twice m 28
class Timeline; | Twice m 6
enum E { a, Object } | Twice m 12
int PlannerConfig; | Twice m 4
int x; x y; | WrongType m 7
string s; | WrongType m 0
int x; class A extends x { } | WrongType m 23
class A { } typedef A T; class B extends T { } | WrongType m 41
bool [0 1] b; | WrongType m 6
bool [q 1] b; | Unknown m 6
typedef int {1, 2} T; T [1 2] x; | WrongType m 25
int [0 true] x; | WrongType m 7
enum C { red } enum D { up } C {up} x; | WrongType m 32
class A { } A {3} x; | WrongType m 15
class A extends A { } | WrongType m 6
class B extends A { } class A extends B { } | WrongType m 6
class C extends A { } class A extends B { } class B extends A { } | WrongType m 28
typedef T T; | WrongType m 10
T x; typedef U T; typedef T U; | WrongType m 15
typedef U V; V {3} x; typedef T U; typedef U T; | WrongType m 32
class A { B() { } } | WrongType m 10
eq(q, 1); int [4 3] x; | NotInDomain m 14
T [3 6] x; typedef int [0 5] T; | NotInDomain m 2
typedef int [0 5] T; typedef T [1 5] U; T {0} x; U {5, 0} y; | NotInDomain m 55
enum C { red, up } typedef C {red} D; D {up} x; | NotInDomain m 41
class R { } class S { } R r = new R(); S s = new S(); R {r, s} x; | NotInDomain m 60
int [4 3] x; y z; | NotInDomain m 4
T [5 4] x; typedef q T; | Unknown m 19
A {q} x; typedef A B; typedef B A; | Unknown m 3
E [q 1] x; typedef string E; | Unknown m 3
E [true false] x; typedef string E; | WrongType m 26
E {1, true, 1} x; typedef q E; | Unknown m 26
class C { E [1 0.5] x; } typedef string E; | WrongType m 33
class C { predicate P { E {q} v; } } typedef T E; typedef E T; | Unknown m 27
class C { C(E {q} n) { } } typedef string E; | Unknown m 15
class B extends A { bool k; } class A extends q { int k; } | Twice m 25
class B extends A { int k; } class A extends Q { int k; } | Twice m 24
class B extends A { int k; } class A extends Q { bool n; } | Unknown m 45
class C extends A { int k; } class A extends B { } class B extends A { predicate k { } } | Twice m 24
R {a} x; class A extends q { } class R { } A a = new A(); | NotInDomain m 3
R {a} x; class A extends R { } class R extends q { } A a = new A(); | Unknown m 47
Object {a} x; class A extends q { } A a = new A(); | Unknown m 30
R {a} x; class A extends B { } class B extends A { } class R { } A a = new A(); | NotInDomain m 3
B {a} x; class A extends B { } class B extends A { } A a = new A(); | WrongType m 15
int x; #include \"q\" y z; | bool x; | Twice q 5
#include \"q\" bool x; | int x; | Twice m 18
class A { int k; } #include \"q\" | class B extends A { bool k; } | Twice q 25
#include \"q\" | class A { A() { } A() { } } | Twice q 18
PlannerConfig p = new PlannerConfig(0, 1, 1); #include \"q\" | PlannerConfig q = new PlannerConfig(0, 1, 1); | Twice q 14
#include \"q\" | class A { predicate P { int start; } } | Twice q 28
#include \"q\" | int Line; class Reusable { } | Twice q 16
int a; x y; #include \"q\" | z w; | Unknown m 7
int a; #include \"q\" x y; | bool b; z w; | Unknown q 8
int a; #include \"q\" x y; | bool b; | Unknown m 20
class N; class N { } class N; | fine
int {1, 1, 2} x; typedef int T; T [2, 2] y; | fine
B x; #include \"q\" class A { A(int k) { } int k; predicate P { bool k; } } int k; | class B extends A { } | fine
eq(q, 1); N::P { x y; } class A { } typedef A T; A x = new T(1); x.close(); | fine
";

#[test]
fn texts_have_these_first_faults(rt: HostRuntime) {
    assert_rows(&rt, Sought::Fault, "", FIRST);
}

const PIECES: &str = "
enum E { m<<4095 , m#>> } | fine
enum E { m<<4096 , m#>> } | Limit:members m 7
int {-1, -1<<4095 , #>>} x; | fine
int {-1, -1<<4096 , #>>} x; | Limit:members m 4
class A { predicate P { <<32 int v#;>> } } | fine
class A { predicate P { <<33 int v#;>> } } | Limit:parameters m 20
";

#[test]
fn members_and_parameters_are_limited(rt: HostRuntime) {
    assert_rows(&rt, Sought::Fault, "", PIECES);
}
