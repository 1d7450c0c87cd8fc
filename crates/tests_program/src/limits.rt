//! Runs at the limits.

use super::rows::assert_runs;

const BLANKS: &str = "
== 3 script m.nddl
-- m.nddl
<<1048577  >>
-- output
text Limit:bytes m.nddl 0

== 0 script m.nddl
-- m.nddl
<<1048576  >>
== 3 show m.nddl
-- m.nddl
<<1048577  >>
-- output
text Limit:bytes m.nddl 0

== 0 show m.nddl
-- m.nddl
<<1048576  >>
== 3 check m.nddl m.nddl
-- m.nddl
<<1048577  >>
-- output
text Limit:bytes m.nddl 0
";

#[test]
fn long_files_are_refused(rt: HostRuntime) {
    assert_runs(&rt, BLANKS, "");
}

/// Two variables.
const ORDERED: &str = "m.nddl
ORDERED";

const LINES: &str = "
== 0 script m.nddl
-- input
<<4096 a>>
domain y

-- output
refused syntax
y [0 10]

== 0 script m.nddl
-- input
<<4097 a>>
domain y

-- output
refused long
y [0 10]

== 0 script m.nddl
-- input
<<4096  >>
domain y

-- output
y [0 10]

== 0 script m.nddl
-- input
<<4097  >>
domain y

-- output
refused long
y [0 10]

== 0 script m.nddl
-- input
<<999998 \n>>
domain y

-- output
y [0 10]

== 6 script m.nddl
-- input
<<999999 \n>>
domain y
";

#[test]
fn long_lines_are_refused_and_lines_are_counted(rt: HostRuntime) {
    assert_runs(&rt, LINES, ORDERED);
}

const NESTED: &str = "
== 0 script m.nddl
-- m.nddl
class A { predicate P { bool b; } } \
A::P{if(b){if(b){if(b){if(b){if(b){if(b){if(b){if(b){if(b){if(b){if(b){if(b){if(b){if(b){if(b){}}}}}}}}}}}}}}}}
== 3 script m.nddl
-- m.nddl
class A { predicate P { bool b; } } \
A::P{if(b){if(b){if(b){if(b){if(b){if(b){if(b){if(b){if(b){if(b){if(b){if(b){if(b){if(b){if(b){if(b){}}}}}}}}}}}}}}}}}
-- output
text Limit:nesting m.nddl 136
";

#[test]
fn blocks_are_nested_so_deep(rt: HostRuntime) {
    assert_runs(&rt, NESTED, "");
}

const DEEP: &str = "
== # The last of nine files, each of which includes the next.
== 0 script m.nddl
-- h
int [3 3] x;
-- output
x [3 3]

== 3 script m.nddl
-- h
int [3 3] x; #include \"i\"
-- output
text Limit:depth h 13
";

/// Files that each include the next.
const CHAIN: &str = "m.nddl
#include \"a\"
-- a
#include \"b\"
-- b
#include \"c\"
-- c
#include \"d\"
-- d
#include \"e\"
-- e
#include \"f\"
-- f
#include \"g\"
-- g
#include \"h\"
-- i
-- input
domain x
";

#[test]
fn files_are_included_so_deep(rt: HostRuntime) {
    assert_runs(&rt, DEEP, CHAIN);
}

// Steps are taken until there are as many as there may be.
const STEPS: &str = "
== 0 script m.nddl
-- input
<<50000 specify x 1
reset x
>>specify x 1
solve 1 1
reset y
post leq x y
relate before g h
withdraw leq x y
unrelate before g h
undo
specify x 1
reset x

-- output
<<50000 ok
ok
>>refused full
refused full
refused full
refused full
refused full
refused full
refused full
ok
refused decided
ok
";

#[test]
fn steps_are_counted(rt: HostRuntime) {
    assert_runs(&rt, STEPS, ORDERED);
}

// As many tokens as may be active are activated, and no more.
const ACTIVE: &str = "
== 0 script m.nddl
-- m.nddl
class N { predicate A { } } N n = new N(); close(); <<513 goal(n.A g#);>>
-- input
<<513 activate g#
>>merge g512 g0

-- output
<<512 ok
>>refused active-full
ok
";

#[test]
fn so_many_tokens_are_active(rt: HostRuntime) {
    assert_runs(&rt, ACTIVE, "");
}
