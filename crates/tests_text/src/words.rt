//! Which bytes are names, and which words are reserved.

use super::rows::{Asked, assert_rows};
use eu_name::word::{Reserved, is_name, is_reserved, reserved_of};
use std::alloc::{AllocError, Global};

/// Whether a text is a name.
struct Named;

impl Asked for Named {
    fn answer(&self, alloc: Global, given: &str) -> Result<String, AllocError> {
        format!(in alloc; "{}", is_name(given.as_bytes()))
    }
}

const NAMES: &str = "
x | true
_k | true
Zz9 | true
info | true
leq | true
Int | true
in_ | true
inf | false
in | false
int | false
foreach | false
super | false
9x | false
 | false
a.b | false
x-y | false
x  | false
é | false
";

#[test]
fn tells_names_from_others(rt: HostRuntime) {
    assert_rows(&rt, &Named, NAMES);
}

/// Which reserved word a text is, and whether it is one.
struct Word;

impl Asked for Word {
    fn answer(&self, alloc: Global, given: &str) -> Result<String, AllocError> {
        let bytes = given.as_bytes();
        format!(in alloc; "{:?} {}", reserved_of(bytes), is_reserved(bytes))
    }
}

const WORDS: &str = "
class | Some(Class) true
string | Some(Str) true
super | Some(Super) true
in | Some(In) true
int | Some(Int) true
inf | None false
clas | None false
 | None false
";

#[test]
fn tells_reserved_words_from_others(rt: HostRuntime) {
    assert_rows(&rt, &Word, WORDS);
    assert!(rt; Reserved::Str.word() == b"string".as_slice());
}
