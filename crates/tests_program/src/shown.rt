//! Files in the canonical spelling.

use super::rows::assert_runs;

const SHOWN: &str = "
== 0 show m.nddl
-- m.nddl
== 0 show m.nddl
-- m.nddl
int[0,+inf]x;
-- output
int [ 0 1000000 ] x ;

== # Includes aren't followed.
== 0 show m.nddl
-- m.nddl
#include \"q.nddl\"; int x; // the end
-- output
#include \"q.nddl\"
int x ;

== 0 show m.nddl
-- m.nddl
N::A{any(object.Q q);}
-- output
N :: A { any ( object . Q q ) ; }

== 0 show m.nddl
-- m.nddl
float [-0.0 007.5] x; float [+1.5 2] y;
-- output
float [ 0.000 7.500 ] x ;
float [ 1.500 2 ] y ;

== 0 show m.nddl
-- m.nddl
int [+info] x;
-- output
int [ 1000000 o ] x ;

== 3 show m.nddl
-- m.nddl
/*/
-- output
text OpenComment m.nddl 0

== 3 show m.nddl
-- m.nddl
/* x
-- output
text OpenComment m.nddl 0

== 3 show m.nddl
-- m.nddl
int x; @
-- output
text BadByte m.nddl 7

== 3 show m.nddl
-- m.nddl
int [0 1000001] x;
-- output
text OutOfRange m.nddl 7

== 3 show m.nddl
-- m.nddl
int x
-- output
text Syntax m.nddl 5

== 3 show m.nddl
-- m.nddl
int int @
-- output
text BadByte m.nddl 8

== 3 show m.nddl
-- m.nddl
A::P{if(a){if(a){if(a){if(a){if(a){if(a){if(a){if(a){if(a){if(a){if(a){if(a){if(a){if(a){if(a){if(a){}}}}}}}}}}}}}}}}}
-- output
text Limit:nesting m.nddl 100

== # A file with everything that the grammar has, and what is shown of it.
== 0 show m.nddl
-- m.nddl
WHOLE
-- output
SPELLED
== 0 show m.nddl
-- m.nddl
SPELLED
-- output
SPELLED";

#[test]
fn shows_texts(rt: HostRuntime) {
    assert_runs(&rt, SHOWN, "");
}
