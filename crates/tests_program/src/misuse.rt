//! Words that are no command line, and files with faults.

use super::rows::assert_runs;

const USAGES: &str = "
== 2
== 2 bogus
== 2 --help
== 2 --version
== 2 help
== 2 -- script m.nddl
== 2 script
== 2 script -f
== 2 script m.nddl m.nddl
== 2 script --steps=5 m.nddl
== 2 script --
== 2 show
== 2 show -f
== 2 show m.nddl m.nddl
== 2 show --help
== 2 check m.nddl
== 2 check m.nddl p.txt q.txt
== 2 check m.nddl -p
== 2 plan
== 2 plan --steps -5 m.nddl
== 2 plan m.nddl --steps
== 2 plan m.nddl --steps=
== 2 plan m.nddl --steps 0
== 2 plan m.nddl --steps 1000001
== 2 plan m.nddl --steps +5
== 2 plan m.nddl --steps 00000005
== 2 plan m.nddl --steps 5 --steps=5
== 2 plan m.nddl --step 5
== 2 plan m.nddl --tokens 513
== 2 plan m.nddl -- --steps 5
== 2 gen
== 2 gen 00000001
== 2 gen 1x
== 2 try 201
";

const ASKED: &str = "m.nddl
ORDERED
-- input
domain x

-- output
USAGE";

#[test]
fn words_may_be_no_command(rt: HostRuntime) {
    assert_runs(&rt, USAGES, ASKED);
}

/// Where a file is wrong, the input isn't answered.
const INPUT: &str = "input
domain x
";

const FAULTY: &str = "
== 3 script n.nddl
-- m.nddl
ORDERED
-- output
text Absent n.nddl 0

== 3 show n.nddl
-- m.nddl
ORDERED
-- output
text Absent n.nddl 0

== 3 plan -- -x
-- m.nddl
ORDERED
-- output
text Absent -x 0

== 3 check m.nddl p.txt
-- m.nddl
ORDERED
-- output
text Absent p.txt 0

== 3 check n.nddl p.txt
-- m.nddl
ORDERED
-- output
text Absent n.nddl 0

== 3 script m.nddl
-- m.nddl
int [4 3] x;
-- output
text NotInDomain m.nddl 4

== 3 script m.nddl
-- m.nddl
int [0 1000001] x;
-- output
text OutOfRange m.nddl 7

== 3 script m.nddl
-- m.nddl
/* x
-- output
text OpenComment m.nddl 0

== 3 script m.nddl
-- m.nddl
int x; @
-- output
text BadByte m.nddl 7

== 3 script m.nddl
-- m.nddl
int x
-- output
text Syntax m.nddl 5

== 3 script m.nddl
-- m.nddl
float f; int i; eq(f, i);
-- output
text WrongType m.nddl 22

== 3 script m.nddl
-- m.nddl
float [0 1.2345] f;
-- output
text OutOfRange m.nddl 9

== 3 script m.nddl
-- m.nddl
int [0 1.5] x;
-- output
text WrongType m.nddl 7

== 3 script m.nddl
-- m.nddl
eq(q, 1); int [4 3] x;
-- output
text NotInDomain m.nddl 14

== 3 script m.nddl
-- m.nddl
eq(q, 1); N::P { }
-- output
text Unknown m.nddl 10
";

#[test]
fn the_first_fault_is_told(rt: HostRuntime) {
    assert_runs(&rt, FAULTY, INPUT);
}

// More of the same.
const WRONG: &str = "
== 3 script m.nddl
-- m.nddl
enum E { a } int x; eq(x, E);
-- output
text Unknown m.nddl 26

== 3 script m.nddl
-- m.nddl
class A { int P; predicate P { } }
-- output
text Twice m.nddl 27

== 3 script m.nddl
-- m.nddl
class Timeline;
-- output
text Twice m.nddl 6

== 3 script m.nddl
-- m.nddl
int x; bool b; eq(b, x);
-- output
text WrongType m.nddl 21

== 3 script m.nddl
-- m.nddl
class C extends A { } class A extends B { } class B extends A { }
-- output
text WrongType m.nddl 28

== 3 script m.nddl
-- m.nddl
class B extends Reusable { B() { super(1); capacity = 2; } } B b = new B();
-- output
text WrongCount m.nddl 71

== 3 script m.nddl
-- m.nddl
class B { int [0 5] k; B(int n) { k = n; } } class A { B b; A() { b = new B(7); } } foo(1); A a = new A();
-- output
text NotInDomain m.nddl 74

== 3 script m.nddl
-- m.nddl
close(); PlannerConfig p = new PlannerConfig(0, 1, 1);
-- output
text Closed m.nddl 27

== # A token's object or parameter could have no value.
== 3 script m.nddl
-- m.nddl
class E { } class N { predicate A { E e; } } N n = new N(); goal(n.A g);
-- output
text NotInDomain m.nddl 60

== 3 script m.nddl
-- m.nddl
class A { A a; A() { a = new A(); } } A b = new A();
-- output
text Limit:new m.nddl 29

== 3 script m.nddl
-- m.nddl
A::P{if(a){if(a){if(a){if(a){if(a){if(a){if(a){if(a){if(a){if(a){if(a){if(a){if(a){if(a){if(a){if(a){}}}}}}}}}}}}}}}}}
-- output
text Limit:nesting m.nddl 100

== # The decisions of the text come last, and are taken in order.
== 3 script m.nddl
-- m.nddl
int [0 5] x; x.specify(9);
-- output
text NotAdmissible m.nddl 13

== 3 script m.nddl
-- m.nddl
int [0 5] x; x.specify(9); x.specify(true);
-- output
text WrongType m.nddl 37
";

#[test]
fn the_first_wrong_name_is_told(rt: HostRuntime) {
    assert_runs(&rt, WRONG, INPUT);
}

// More of the same.
const INCLUDING: &str = "
== 3 script m.nddl
-- m.nddl
int [0 9] x; int [0 9] y; lt(x, y); x.specify(9); x.specify(9);
-- output
text AfterConflict m.nddl 50

== 3 script m.nddl
-- m.nddl
int [0 5] x; int [0 5] y; int [0 5] z; leq(x, y); x.specify(4); y.specify(3); z.specify(1);
-- output
text AfterConflict m.nddl 78

== 3 plan m.nddl
-- m.nddl
int [0 5] x; x.specify(9);
-- output
text NotAdmissible m.nddl 13

== # A file is read to its end before its includes, and each of these to its end before the next.
== 3 script m.nddl
-- m.nddl
#include \"q.nddl\"
-- r.nddl
-- output
text Absent m.nddl 0

== 3 script m.nddl
-- m.nddl
#include \"q.nddl\" int x
-- r.nddl
-- output
text Syntax m.nddl 23

== 3 script m.nddl
-- m.nddl
#include \"q.nddl\"
-- q.nddl
int x
-- output
text Syntax q.nddl 5

== 3 script m.nddl
-- m.nddl
#include \"q.nddl\" int x;
-- q.nddl
int x;
-- output
text Twice m.nddl 22

== 3 script m.nddl
-- m.nddl
int x; #include \"q.nddl\"
-- q.nddl
int x;
-- output
text Twice q.nddl 4

== 3 script m.nddl
-- m.nddl
#include \"q.nddl\" eq(y, q);
-- q.nddl
int y;
-- output
text Unknown m.nddl 24

== 3 script m.nddl
-- m.nddl
#include \"q.nddl\"
-- q.nddl
#include \"r.nddl\"
-- output
text Absent q.nddl 0

== 3 script m.nddl
-- m.nddl
int x; #include \"q.nddl\"
-- q.nddl
int [0 5] z; x.specify(3); z.specify(6);
-- output
text NotAdmissible q.nddl 27

== 3 plan m.nddl
-- m.nddl
#include \"q.nddl\"
-- q.nddl
int x; @
-- output
text BadByte q.nddl 7

== 3 check m.nddl q.nddl
-- m.nddl
#include \"q.nddl\"
-- q.nddl
plan
end

-- output
text Syntax q.nddl 9
";

#[test]
fn the_first_fault_of_files_is_told(rt: HostRuntime) {
    assert_runs(&rt, INCLUDING, INPUT);
}

const INCLUDED: &str = "
== 0 script m.nddl
-- m.nddl
#include \"q.nddl\" int [0 10] x; leq(x, y);
-- q.nddl
int [0 10] y;
== 0 script m.nddl
-- m.nddl
#include \"q.nddl\"; int [0 10] x; leq(x, y);
-- q.nddl
#include \"m.nddl\" int [0 10] y;
== 0 script m.nddl
-- m.nddl
#include \"q.nddl\" #include \"q.nddl\" int [0 10] x;
-- q.nddl
int [0 10] y; leq(x, y);
== 0 script m.nddl
-- m.nddl
#include \"Plasma.nddl\" #include \"q.nddl\"
-- q.nddl
#include \"q.nddl\" int [0 10] x; int [0 10] y; leq(x, y);
== 0 script m.nddl
-- m.nddl
leq(x, y); int [0 10] x; #include \"q.nddl\"
-- q.nddl
#include \"PlannerConfig.nddl\" int [0 10] y;
== 0 script m.nddl
-- m.nddl
#include \"m.nddl\" int [0 10] x; int [0 10] y; leq(x, y);
-- q.nddl";

/// A few lines, and what is answered to them.
const ANSWERED: &str = "input
specify x 4
domain y

-- output
ok
y [4 10]
";

#[test]
fn included_files_are_read_once(rt: HostRuntime) {
    assert_runs(&rt, INCLUDED, ANSWERED);
}
