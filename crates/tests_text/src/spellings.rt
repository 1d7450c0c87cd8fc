//! Texts in the canonical spelling.

use super::rows::{Asked, assert_rows};
use super::trees::tree_of;
use eu_name::bytes::Bytes;
use nddl_print::print;
use std::alloc::{AllocError, Global};
use std::str;

// A file with everything that the grammar has, as one writes it by hand.
const USUAL: &[u8] = br#"// a file
#include "Plasma.nddl";
#include "more.nddl"

enum Colour { red, green };
typedef int [0, +010] Level;
typedef float [-0.0 02.5] Rate;
typedef Colour {red} Warm;

class Rover;
class Base { }
class Rover extends Timeline {
  Level fuel; bool {true, false} ready; string note; float rate;
  Rover(int {1, 2} count, Colour colour) {
    super(count, colour);
    fuel = count; rate = -1.5; base = new Base();
  }
  Rover() { super(); }
  predicate Go { Level far; leq(far, 7); neq(object.fuel, far); };
  predicate Stay { }
};

Rover::Go {
  meets(object.Stay s); any(Stay); Level x = s.far; /* both */
  if (ready) { eq(x, -3); } else if (x != far) { starts(object.Go t); }
  else { foreach (r in Rover) { neq(r.fuel, inf); } }
  if (x == true) { }
}

Rover rover = new Rover(3, red);
int [-5 -inf] y;
int z = +0;
close();
Rover.close();
goal(rover.Go g);
rover.specify(false);
"#;

// That text in the canonical spelling.
const CANONICAL: &[u8] = br#"#include "Plasma.nddl"
#include "more.nddl"
enum Colour { red , green }
typedef int [ 0 10 ] Level ;
typedef float [ 0.000 2.500 ] Rate ;
typedef Colour { red } Warm ;
class Rover ;
class Base { }
class Rover extends Timeline { Level fuel ; bool { true , false } ready ; string note ; float rate ; Rover ( int { 1 , 2 } count , Colour colour ) { super ( count , colour ) ; fuel = count ; rate = -1.500 ; base = new Base ( ) ; } Rover ( ) { super ( ) ; } predicate Go { Level far ; leq ( far , 7 ) ; neq ( object . fuel , far ) ; } predicate Stay { } }
Rover :: Go { meets ( object . Stay s ) ; any ( Stay ) ; Level x = s . far ; if ( ready ) { eq ( x , -3 ) ; } else { if ( x != far ) { starts ( object . Go t ) ; } else { foreach ( r in Rover ) { neq ( r . fuel , 1000000 ) ; } } } if ( x == true ) { } }
Rover rover = new Rover ( 3 , red ) ;
int [ -5 -1000000 ] y ;
int z = 0 ;
close ( ) ;
Rover . close ( ) ;
goal ( rover . Go g ) ;
rover . specify ( false ) ;
"#;

/// The canonical spelling of the text, if it has no fault.
pub fn spelling_of(alloc: Global, text: &[u8]) -> Option<Bytes> {
    match tree_of(alloc, text) {
        Ok(tree) => print(alloc, tree.as_slice()).ok(),
        Err(_) => None,
    }
}

/// Whether the text is printed so.
fn is_printed(alloc: Global, text: &[u8], spelling: &[u8]) -> bool {
    match spelling_of(alloc, text) {
        Some(bytes) => bytes.as_slice() == spelling,
        None => false,
    }
}

/// How a text is printed, where that is printed as it is.
struct Spelled;

impl Asked for Spelled {
    fn answer(&self, alloc: Global, given: &str) -> Result<String, AllocError> {
        match spelling_of(alloc, given.as_bytes()) {
            Some(spelling) => settled(alloc, spelling.as_slice()),
            None => String::from_str(alloc, "not printed"),
        }
    }
}

/// The spelling, where it is printed as it is.
fn settled(alloc: Global, spelling: &[u8]) -> Result<String, AllocError> {
    if is_printed(alloc, spelling, spelling) {
        format!(in alloc; "{:?}", str::from_utf8(spelling).unwrap_or("not UTF-8"))
    } else {
        String::from_str(alloc, "printed otherwise")
    }
}

const SPELLINGS: &str = r#"
 | ""
int[0,+inf]x; | "int [ 0 1000000 ] x ;\n"
int [+info] x; | "int [ 1000000 o ] x ;\n"
float [-0.0 007.5] x; | "float [ 0.000 7.500 ] x ;\n"
float{+1.5,2,-0.001,-999.999}x; | "float { 1.500 , 2 , -0.001 , -999.999 } x ;\n"
"#;

#[test]
fn texts_have_these_canonical_spellings(rt: HostRuntime) {
    assert_rows(&rt, &Spelled, SPELLINGS);
    assert!(rt; is_printed(rt.alloc(), USUAL, CANONICAL));
    assert!(rt; is_printed(rt.alloc(), CANONICAL, CANONICAL));
}
