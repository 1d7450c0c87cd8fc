//! Texts with their lexemes, their faults and the values of their numbers, all by hand.

use super::rows::{Asked, assert_answer, assert_rows};
use nddl_lexer::kinds::{LexFault, Lexeme};
use nddl_lexer::lexing::lex;
use nddl_lexer::numbers::{decimal_value, number_value};
use std::alloc::{AllocError, Global};

/// How many lexemes there are, and for each its kind, where it begins and how long it is.
fn words(alloc: Global, lexemes: &[Lexeme]) -> Result<String, AllocError> {
    let mut words = format!(in alloc; "{}", lexemes.len())?;
    for lexeme in lexemes {
        write!(words, " {:?}:{}+{}", lexeme.kind, lexeme.at, lexeme.len)?;
    }
    Ok(words)
}

/// The lexemes of a text, which is short.
struct Lexemes;

impl Asked for Lexemes {
    fn answer(&self, alloc: Global, given: &str) -> Result<String, AllocError> {
        if given.len() > 100 {
            return String::from_str(alloc, "long");
        }
        match lex(alloc, given.as_bytes()) {
            Ok(lexemes) => words(alloc, lexemes.as_slice()),
            Err(fault) => format!(in alloc; "{fault:?}"),
        }
    }
}

const TEXTS: &str = r#"
 | 0
info | 1 Word:0+4
inf | 1 Number:0+3
+info | 2 Number:0+4 Word:4+1
-inf_ | 2 Number:0+4 Word:4+1
12ab | 2 Number:0+2 Word:2+2
1.5 | 1 Decimal:0+3
1. | 2 Number:0+1 Point:1+1
-1.5.2 | 3 Decimal:0+4 Point:4+1 Number:5+1
=== = | 3 Equal:0+2 Assign:2+1 Assign:4+1
!=:: | 2 NotEqual:0+2 DoubleColon:2+2
{}()[];,. | 9 BraceOpen:0+1 BraceClose:1+1 ParenOpen:2+1 ParenClose:3+1 BracketOpen:4+1 BracketClose:5+1 Semicolon:6+1 Comma:7+1 Point:8+1
#include"a b" | 2 Include:0+8 Str:8+5
#includes | 2 Include:0+8 Word:8+1
"é"//é | 1 Str:0+4
a/*/ * //*/b | 2 Word:0+1 Word:11+1
/***/+0 | 1 Number:5+2
-1000000 1000000 1000.000 | 3 Number:0+8 Number:9+7 Decimal:17+8
"#;

#[test]
fn texts_are_these_lexemes(rt: HostRuntime) {
    assert_rows(&rt, &Lexemes, TEXTS);
    assert_answer(&rt, &Lexemes, " \t\r\n", "0");
    assert_answer(&rt, &Lexemes, "a//b*/\nc", "2 Word:0+1 Word:7+1");
}

/// The first fault of the text, which is short.
fn fault_of(alloc: Global, text: &str) -> Option<LexFault> {
    if text.len() > 100 {
        return None;
    }
    match lex(alloc, text.as_bytes()) {
        Ok(_) => None,
        Err(fault) => Some(fault),
    }
}

/// The first fault of a text.
struct Fault;

impl Asked for Fault {
    fn answer(&self, alloc: Global, given: &str) -> Result<String, AllocError> {
        format!(in alloc; "{:?}", fault_of(alloc, given))
    }
}

const FAULTS: &str = r#"
/ | Some(BadByte(0))
a / b | Some(BadByte(2))
int int @ | Some(BadByte(8))
! | Some(BadByte(0))
a:b | Some(BadByte(1))
+ 1 | Some(BadByte(0))
- | Some(BadByte(0))
+.5 | Some(BadByte(0))
" | Some(BadByte(0))
#inc | Some(BadByte(0))
aé | Some(BadByte(1))
/*/ | Some(OpenComment(0))
a /* * | Some(OpenComment(2))
x 1000001 | Some(OutOfRange(2))
-1000001 | Some(OutOfRange(0))
99999999999999999999 | Some(OutOfRange(0))
float [0 1.5000] f; | Some(OutOfRange(9))
1000.001 | Some(OutOfRange(0))
1.5000 @ /* | Some(OutOfRange(0))
"#;

#[test]
fn texts_have_these_faults(rt: HostRuntime) {
    assert_rows(&rt, &Fault, FAULTS);
    assert_answer(&rt, &Fault, "x \"a\nb\"", "Some(BadByte(2))");
}

/// The value of a number.
struct Number;

impl Asked for Number {
    fn answer(&self, alloc: Global, given: &str) -> Result<String, AllocError> {
        format!(in alloc; "{:?}", number_value(given.as_bytes()))
    }
}

const NUMBERS: &str = "
007 | Some(7)
-0 | Some(0)
+12 | Some(12)
-inf | Some(-1000000)
1000001 | None
 | None
+-1 | None
1x | None
";

/// The thousandths of a decimal.
struct Decimal;

impl Asked for Decimal {
    fn answer(&self, alloc: Global, given: &str) -> Result<String, AllocError> {
        format!(in alloc; "{:?}", decimal_value(given.as_bytes()))
    }
}

const DECIMALS: &str = "
-1.5 | Some(-1500)
007.05 | Some(7050)
0.001 | Some(1)
-0.0 | Some(0)
1000.000 | Some(1000000)
1000.001 | None
0.1230 | None
1. | None
.5 | None
1.x | None
";

#[test]
fn numbers_have_these_values(rt: HostRuntime) {
    assert_rows(&rt, &Number, NUMBERS);
    assert_rows(&rt, &Decimal, DECIMALS);
}
