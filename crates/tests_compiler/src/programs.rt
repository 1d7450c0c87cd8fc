//! What is wrong first with whole programs, by hand from what the language allows.

use super::asked::Sought;
use super::rows::assert_rows;

const STATED: &str = "
eq(q, 1); A::P { } class A { predicate P { } } | Unknown m 3
foo(q); eq(1); | Unknown m 0
class N { predicate P { } } N n = new N(); goal(n.P g); before(g); | Unknown m 56
class N { predicate P { } } N n = new N(); goal(n.P g); any(n.P s); | Unknown m 56
int x; leq(x); | WrongCount m 7
int x; allDiff(x); | WrongCount m 7
int x; bool b; eq(b, x); | WrongType m 21
int x; bool b; testEQ(x, b, 1); | WrongType m 22
int x; mulEq(x, 0, x); | WrongType m 16
class K { int k; K() { k = 2; } } K c = new K(); int x; mulEq(x, c.k, x); | WrongType m 65
int x; eq(x.y.z, 1); | WrongType m 10
class N { predicate P { } } N n = new N(); goal(n.P g); leq(g, 3); | WrongType m 60
class N { } eq(N, 3); | WrongType m 15
enum E { a } int x; eq(x, E); | Unknown m 26
typedef int T; int x; eq(x, T); | Unknown m 28
class N { predicate P { int v; } } N n = new N(); goal(n.P g); leq(g.w, g.v); | Unknown m 69
class A { } class B extends A { int k; B() { k = 1; } } A x = new B(); eq(x.k, 1); | Unknown m 76
class N { predicate P { } } N n = new N(); goal(n.P g); leq(g.start, start); | Unknown m 69
int x; eq(x, 1.5); eq(q, 1); | WrongType m 10
eq(1.5, 1); float f; f.specify(2); | fine
class A { float f; A(float n) { f = n; } } A a = new A(1000); A b = new A(-0.5); | fine
float f; int i; eq(i, f); | WrongType m 19
float f; int i; bool b; testLEQ(b, i, f); | WrongType m 35
bool b; float f; eq(b, f); | WrongType m 20
float f; mulEq(f, 1.5, f); | WrongType m 18
float f; mulEq(f, 2, f); addEq(f, 1, 0.5); leq(-1000, f); lt(f, inf); allDiff(f, 1, 2.5); | fine
int x; int y; addEq(x, y, 1.5); | WrongType m 20
int x; int y; mulEq(x, 2, 1.5); | WrongType m 20
float f = 2000; | NotInDomain m 10
float f; f.specify(1001); | NotInDomain m 19
float f; eq(f, -1001); | NotInDomain m 15
typedef float T; int i; T x = i; | WrongType m 30
int x = 1.0; | WrongType m 8
int x; x.specify(1.0); | WrongType m 17
class A { float f; A(int n) { f = n; } } | WrongType m 34
class A { float f; A(float v) { f = v; } } class B extends A { B() { super(1001); } } | NotInDomain m 75
class A { float f; A(float v) { f = v; } } A a = new A(1001); | NotInDomain m 55
class A { float f; A(float v) { f = v; } } A a = new A(true); | WrongType m 55
class A { float [0 1] f; A(float v) { f = v; } } A a = new A(2); | NotInDomain m 59
class T extends Reusable { T() { super(1.5); } } | WrongType m 39
PlannerConfig p = new PlannerConfig(0, 10.0, 5); | WrongType m 39
class N { predicate P { eq(duration, 1.5); } } | WrongType m 27
class N { predicate P { float v; } } N::P { int k; if (v == k) { } } | WrongType m 60
class N { predicate P { float v; } } N::P { if (v != 1001) { } } | NotInDomain m 53
class N { predicate P { float v; } } N::P { float {1, 2000} w; } | NotInDomain m 54
class N { predicate P { float v; } } N::P { int w = 0.5; } | WrongType m 52
class A { int k; A(int n) { k = n; } } A a = new A(3); A x; int y; eq(x.k, a.k); leq(y, x.k); | fine
class R { predicate P { } } R::P { foreach (o in R) { R {o} x; } } R r = new R(); | fine
class R { predicate P { } } R::P { foreach (r in R) { R {r} x; } } R r = new R(); R s = new R(); goal(r.P g); | fine
class R { predicate P { } } R r = new R(); R::P { int r; R {r} x; } | WrongType m 60
class R { predicate P { } } class S extends R { } S s = new S(); typedef R {s} T; R::P { foreach (o in S) { T {o} x; R {o, s} y; } } | fine
enum E { u, w } E x; E y; neq(x, w); eq(y, x); allDiff(x, y, u); bool b; testEQ(b, x, y); testLEQ(b, 1, 2); | fine
close(1); | WrongCount m 0
class A { } A.close(1); | WrongCount m 14
class A { } A a = new A(); a.close(); | WrongType m 27
int x; x.close(); | WrongType m 7
class A { } q.close(); | Unknown m 12
class A { } A a = new A(); A.close(); close(); Object.close(); close(); | fine
close(); PlannerConfig p = new PlannerConfig(0, 1, 1); | Closed m 27
class A { } close(); A a = new A(3); | Closed m 27
int x; goal(x g); | WrongType m 12
class A { predicate P { } } goal(A g); | WrongType m 33
class A { predicate P { } } goal(P g); | Unknown m 33
class A { predicate P { } } A a = new A(); goal(a.Q g); | Unknown m 50
class A { } class B extends A { predicate Q { } } A x = new B(); goal(x.Q g); | Unknown m 72
class A { predicate P { } } A a = new A(); A x; goal(x.P g); | WrongType m 53
class A { predicate P { } } A a = new A(); goal(a.P g); goal(g.object.P h); | WrongType m 61
goal(g.P g); | WrongType m 5
class A { int k; A() { k = 1; } predicate P { } } A a = new A(); goal(a.k.P g); | WrongType m 70
class A { predicate P { } } A a = new A(); post(a.P g); | Unknown m 43
class B { predicate P { } } class A { B f; A() { f = new B(); } } A a = new A(); rejectable(a.f.P g); fact(B.P h); | fine
Reusable u = new Reusable(3); goal(u.uses g); | fine
";

#[test]
fn constraints_and_posted_tokens_have_these_first_faults(rt: HostRuntime) {
    assert_rows(&rt, Sought::Program, "", STATED);
}

const BEGUN: &str = "
int [0 5] x = true; | WrongType m 14
int [3 3] x; int y = x; | WrongType m 21
class A { } A x = A; | WrongType m 18
int x = q; | Unknown m 8
enum E { a } enum D { b } E x = b; | WrongType m 32
class A { } int x = new A(); | WrongType m 20
class A { } class B extends A { } B x = new A(); | NotInDomain m 44
class A { } class B extends A { } A a = new A(); B x = a; | NotInDomain m 55
class A { } class B extends A { } class C { A f; C() { f = new A(); } } B x = c.f; C c = new C(); | NotInDomain m 78
int [0 5] x = 9; enum E { a, b } E {a} y = b; class A { } A r = new A(); A s = new A(); A {r} z = s; | fine
class A { } class B extends A { } A a = new B(); B x = a; int y = c.k; class C { int k; C() { k = 1; } } C c = new C(); | fine
int [0 5] x; x.specify(9); x.specify(true); | WrongType m 37
int x; int y; x.specify(y); | WrongType m 24
int x; x.specify(); | WrongCount m 9
int x; x.specify(1, 2); | WrongCount m 9
class A { int k; A() { k = 1; } } A a = new A(); a.k.specify(1); | WrongType m 49
class A { predicate P { } } A a = new A(); goal(a.P g); g.specify(1); | WrongType m 56
enum E { a } a.specify(a); | WrongType m 13
int x; x.set(1); | Unknown m 9
int x; y.set(1); | Unknown m 7
class A { predicate P { } } A a = new A(); goal(a.P g); g.v.specify(1); | Unknown m 58
int x; x.activate(); | WrongType m 7
class A { predicate P { } } A a = new A(); goal(a.P g); g.object.activate(); | WrongType m 56
class A { predicate P { } } A a = new A(); a.reject(); | WrongType m 43
g.activate(); | Unknown m 0
class A { predicate P { } } A a = new A(); goal(a.P g); g.activate(1); | WrongCount m 58
class A { predicate P { } } A a = new A(); goal(a.P g); g.merge(); | WrongCount m 58
class A { predicate P { } } A a = new A(); goal(a.P g); g.merge(a); | WrongType m 64
class A { predicate P { } } A a = new A(); goal(a.P g); g.merge(1); | WrongType m 64
class A { predicate P { } } A a = new A(); goal(a.P g); g.merge(h); | Unknown m 64
class A { predicate P { } } A a = new A(); goal(a.P g); fact(a.P h); g.merge(h.object); | WrongType m 77
class A { int k; A() { k = 1; } predicate P { int v; } } A a = new A(); goal(a.P g); rejectable(a.P h); g.activate(); g.v.specify(a.k); \
    g.object.k.specify(1); h.reject(); h.merge(g); | fine
";

#[test]
fn globals_and_decisions_have_these_first_faults(rt: HostRuntime) {
    assert_rows(&rt, Sought::Program, "", BEGUN);
}

const MADE: &str = "
class A { int k; A() { k = q; } } | Unknown m 27
class A { int k; A() { k = q; } } N::P { } | Unknown m 34
class A { int k; int m; A() { k = 1; m = k; } } | Unknown m 41
class A { } typedef A T; A x = new T(); | WrongType m 35
class A { A(A x) { } } A r = new A(r); | Unknown m 35
class A { A(int n) { } } class B extends A { B() { super(); } } | fine
class A { A(int n) { } } class B extends A { B() { super(); } } B b = new B(); | WrongCount m 74
class B extends Reusable { B() { super(1); capacity = 2; } } B b = new B(); | WrongCount m 71
class B { int [0 5] k; B(int n) { k = n; } } class A { B b; A() { b = new B(7); } } foo(1); A a = new A(); | NotInDomain m 74
class A { int {1, 3} k; A(int n) { k = n; } } A a = new A(3); A b = new A(2); | NotInDomain m 72
enum E { a, b, c } class A { E {a, c} k; } class B extends A { B(E e) { k = e; } } class C extends A { C() { k = b; } } B x = new B(c); C y = new C(); | NotInDomain m 146
class A { int {1} k; A() { k = 1; } } class B { int {2} k; B() { k = 1; } } A a = new A(); B b = new B(); | NotInDomain m 101
class R { } R r = new R(); R s = new R(); class A { R {r} f; A(R x) { f = x; } } A a = new A(r); A b = new A(s); | NotInDomain m 107
class A { A(int [0 5] n) { } } A a = new A(9); | fine
class A { int k; A(int k) { k = k; } } A a = new A(9); | fine
class A { A f; A() { f = new A(); } } A a = new A(); | Limit:new m 29
class A0 { } class A1 { A0 f; A1() { f = new A0(); } } class A2 { A1 f; A2() { f = new A1(); } } class A3 { A2 f; \
    A3() { f = new A2(); } } class A4 { A3 f; A4() { f = new A3(); } } class A5 { A4 f; A5() { f = new A4(); } } \
    class A6 { A5 f; A6() { f = new A5(); } } class A7 { A6 f; A7() { f = new A6(); } } class A8 { A7 f; A8() { f = \
    new A7(); } } class A9 { A8 f; A9() { f = new A8(); } } class A10 { A9 f; A10() { f = new A9(); } } class A11 { \
    A10 f; A11() { f = new A10(); } } class A12 { A11 f; A12() { f = new A11(); } } class A13 { A12 f; A13() { f = \
    new A12(); } } class A14 { A13 f; A14() { f = new A13(); } } class A15 { A14 f; A15() { f = new A14(); } } class \
    A16 { A15 f; A16() { f = new A15(); } } A16 a = new A16(); | fine
class A0 { } class A1 { A0 f; A1() { f = new A0(); } } class A2 { A1 f; A2() { f = new A1(); } } class A3 { A2 f; \
    A3() { f = new A2(); } } class A4 { A3 f; A4() { f = new A3(); } } class A5 { A4 f; A5() { f = new A4(); } } \
    class A6 { A5 f; A6() { f = new A5(); } } class A7 { A6 f; A7() { f = new A6(); } } class A8 { A7 f; A8() { f = \
    new A7(); } } class A9 { A8 f; A9() { f = new A8(); } } class A10 { A9 f; A10() { f = new A9(); } } class A11 { \
    A10 f; A11() { f = new A10(); } } class A12 { A11 f; A12() { f = new A11(); } } class A13 { A12 f; A13() { f = \
    new A12(); } } class A14 { A13 f; A14() { f = new A13(); } } class A15 { A14 f; A15() { f = new A14(); } } class \
    A16 { A15 f; A16() { f = new A15(); } } class A17 { A16 f; A17() { f = new A16(); } } A17 a = new A17(); | \
    Limit:new m 45
Reusable u = new Reusable(-1); | NotInDomain m 17
Reservoir r = new Reservoir(5, 0, 4); | NotInDomain m 18
PlannerConfig p = new PlannerConfig(0, 10, 5, q); | Unknown m 46
PlannerConfig p = new PlannerConfig(3, 3, 5); | NotInDomain m 22
PlannerConfig p = new PlannerConfig(3, 4); | WrongCount m 22
class A { predicate P { } } goal(A.P g); | NotInDomain m 28
class B { } class A { predicate P { int v; B w; } } A a = new A(); fact(a.P f); eq(q, 1); | NotInDomain m 67
rejectable(Reusable.uses g); | NotInDomain m 0
goal(A.P g); class A { A(int n) { } predicate P { } } A a = new A(); | WrongCount m 64
goal(A.P g); class A { predicate P { } } PlannerConfig p = new PlannerConfig(5, 3, 1); | NotInDomain m 0
goal(A.P g); class A { predicate P { } } PlannerConfig p = new PlannerConfig(0, q, 1); | NotInDomain m 0
goal(A.P g); class A { predicate P { } } close(); PlannerConfig p = new PlannerConfig(0, 3, 1); | NotInDomain m 0
goal(B.P g); class B { predicate P { } } class A { int k; A() { k = q; } } | NotInDomain m 0
goal(B.P g); class B { predicate P { } } class A { int k; A() { k = q; } } class C extends A { } A a = new A(); | Unknown m 68
goal(B.P g); class B { predicate P { } } class A { int k; A() { k = q; } } class C extends A { } C c = new C(); | Unknown m 68
goal(B.P g); class B { predicate P { } } class A { } class C extends A { int k; C() { k = q; } } A a = new A(); | NotInDomain m 0
goal(B.P g); class B { predicate P { } } class A; class A { int k; A() { k = q; } } A a = new A(); | Unknown m 77
goal(B.P g); class B { predicate P { } } class A { } close(); A a = new A(); | Closed m 68
goal(B.P g); class B { predicate P { } } class A { int k; A() { } } A a = new A(); | WrongCount m 78
goal(B.P g); class B { predicate P { } } Reusable u = new Reusable(-1); | NotInDomain m 58
class E { } E x; class A { predicate P { } } class B extends A { } B b = new B(); goal(A.P g); | fine
int x; #include \"q\" eq(y, 1); | eq(z, 1); | Unknown q 3
#include \"q\" eq(y, 1); | int x; eq(x, 1); | Unknown m 16
#include \"q\" | class A { predicate P { } } goal(A.P g); eq(z, 1); | NotInDomain q 28
";

#[test]
fn objects_and_files_have_these_first_faults(rt: HostRuntime) {
    assert_rows(&rt, Sought::Program, "", MADE);
}

const PIECES: &str = "
class A { predicate P { } } A a = new A(); <<4096 goal(a.P g#);>> | fine
class A { predicate P { } } A a = new A(); <<4097 goal(a.P g#);>> | Limit:roots m 64469
class A { predicate P { } } A a = new A(); <<512 fact(a.P g#);>> | fine
class A { predicate P { } } A a = new A(); <<513 fact(a.P g#);>> | Limit:facts m 7613
<<4096 int x#;>> | fine
<<4097 int x#;>> | Limit:globals m 39854
class K { int k; K(int n) { k = n; } } class L { K f; L() { f = new K(1); } } L o = new L(); L x; <<4091 int y#;>> eq(x.f.k, 1); eq(x.f, x.f); \
    | fine
class K { int k; K(int n) { k = n; } } class L { K f; L() { f = new K(1); } } L o = new L(); L x; <<4091 int y#;>> eq(x.f.k, 1); eq(x.f, x.f); \
    eq(y0, x.f.k); | Limit:globals m 39934
class K { int k; K(int n) { k = n; } } class L { K f; L() { f = new K(1); } } L o = new L(); L x; <<4092 int y#;>> eq(o.f.k, 1); eq(x.f, x.f); \
    x.f.k.specify(1); | Limit:globals m 39937
class A { } <<4096 A a# = new A();>> | fine
class A { } <<4097 A a# = new A();>> | Limit:objects m 72644
class B { } class A { A a; A() { a = new A(); } } <<4078 B b# = new B();>> A a = new A(); | Limit:new m 41
class B { } class A { A a; A() { a = new A(); } } <<4079 B b# = new B();>> A a = new A(); | Limit:objects m 41
class A { int k; A() { k = 1; } predicate P { int v; bool b; } predicate Q { } } A r = new A(); A::P { <<1024 leq(v, #); >>} | fine
class A { int k; A() { k = 1; } predicate P { int v; bool b; } predicate Q { } } A r = new A(); A::P { <<1025 leq(v, #); >>} | \
    Limit:items m 96
class A { int k; A() { k = 1; } predicate P { int v; bool b; } predicate Q { } } A r = new A(); A::P { <<1024 if (v == #) { } >>} | fine
class A { int k; A() { k = 1; } predicate P { int v; bool b; } predicate Q { } } A r = new A(); A::P { <<1025 if (v == #) { } >>} | \
    Limit:guards m 96
class A { int k; A() { k = 1; } predicate P { int v; bool b; } predicate Q { } } A r = new A(); A::P { <<128 any(object.Q s#); >>} | fine
class A { int k; A() { k = 1; } predicate P { int v; bool b; } predicate Q { } } A r = new A(); A::P { <<129 any(object.Q s#); >>} | \
    Limit:slots m 96
class A { int k; A() { k = 1; } predicate P { int v; bool b; } predicate Q { } } A r = new A(); A::P { <<128 int x#; >>} | fine
class A { int k; A() { k = 1; } predicate P { int v; bool b; } predicate Q { } } A r = new A(); A::P { <<129 int x#; >>} | Limit:locals m 96
class A { predicate P { } } <<1024 A::P { eq(duration, #); } >> | fine
class A { predicate P { } } <<1025 A::P { eq(duration, #); } >> | Limit:rules m 28614
class A { predicate P { } } <<255 A a# = new A();>> A::P { foreach (o in A) { foreach (p in A) { } } } | fine
class A { predicate P { } } <<256 A a# = new A();>> A::P { foreach (o in A) { foreach (p in A) { } } } | Limit:turns m 4271
class K { int k; K(int n) { k = n; } } class L { K f; L() { f = new K(1); } predicate P { } } L o = new L(); L::P { <<64 eq(object.f.k, #); >>} | fine
class K { int k; K(int n) { k = n; } } class L { K f; L() { f = new K(1); } predicate P { } } L o = new L(); L::P { <<65 eq(object.f.k, #); >>} | Limit:locals m 109
class K { int k; K(int n) { k = n; } } class L { K f; L() { f = new K(1); } predicate P { } } L o = new L(); L p = new L(); L::P { foreach (q in L) { <<512 eq(q.f.k, #); >>} } | fine
class K { int k; K(int n) { k = n; } } class L { K f; L() { f = new K(1); } predicate P { } } L o = new L(); L p = new L(); L::P { foreach (q in L) { <<513 eq(q.f.k, #); >>} } | \
    Limit:items m 124
class A { predicate P {  <<1025 leq(start, #); >>} } | Limit:items m 20
";

#[test]
fn programs_are_limited(rt: HostRuntime) {
    assert_rows(&rt, Sought::Program, "", PIECES);
}
