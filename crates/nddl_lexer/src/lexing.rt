//! A whole text as lexemes.

ghost use Rattle.std.specs.Prelude.{◌≡◌, ◌≢◌, ◌+◌, ◌<◌, ◌≤◌, ◌^◌, ◌++◌, [], ◌↔◌, IsTrue, IfOk, IfErr, OnOk, length, drop, take};
ghost use Rattle.nddl_lexer.specs.declared.kinds.LexFault.TheVariants.{Memory};
ghost use Rattle.nddl_lexer.specs.Spelling.{IsInRange};
ghost use Rattle.nddl_lexer.specs.Reading.{piece_of, with_lexeme, IsFault, IsFaultFrom, Lexes, Starts, HasOneOutcome, HasOneReading, LieInOrder, BlanksSeparate};

use super::fronts::{Front, Stop, read_front};
use super::kinds::{LexFault, LexKind, Lexeme};
use super::numbers::{decimal_value, number_value};
use eu_name::sequence::Sequence;
use std::alloc::{AllocError, Global};

impl From<AllocError> for LexFault {
    ghost from_gives = { λ _ fault. fault ≡ Memory };

    fn from(_error: AllocError) -> LexFault {
        LexFault::Memory
    }
}

// Whether the value of the piece is in range, if it has one.
fn is_in_range(kind: Option<LexKind>, bytes: &[u8]) -> bool
    ensures { IsTrue result ↔ IsInRange kind bytes.now }
{
    match kind {
        Some(LexKind::Number) => number_value(bytes).is_some(),
        Some(LexKind::Decimal) => decimal_value(bytes).is_some(),
        _ => true,
    }
}

// The piece at the place, if there is one with a value in range.
fn piece_at(text: &[u8], at: usize) -> Result<Front, LexFault>
    requires short { length text.now < 2 ^ 32 }
    requires inside { at < length text.now }
    ensures piece { IfOk result (λ front. Starts (drop at text.now)
        (piece_of front.kind (take front.len (drop at text.now))) (drop (at + front.len) text.now)
        × IsInRange front.kind (take front.len (drop at text.now))) }
    ensures within { IfOk result (λ front. (0 < front.len) × (at + front.len ≤ length text.now)) }
    ensures fault { IfErr result (IsFaultFrom (drop at text.now) at) }
{
    let rest = &text[at..];
    match read_front(rest) {
        Ok(front) => {
            if is_in_range(front.kind, &rest[..front.len]) {
                Ok(front)
            } else {
                Err(LexFault::OutOfRange(at as u32))
            }
        }
        Err(Stop::BadByte) => Err(LexFault::BadByte(at as u32)),
        Err(Stop::OpenComment) => Err(LexFault::OpenComment(at as u32)),
    }
}

// Keeps the piece if it is a lexeme.
fn keep(
    lexemes: &mut Sequence<Lexeme>,
    kind: Option<LexKind>,
    at: u32,
    len: u32,
) -> Result<(), AllocError>
    ensures ok { OnOk result (lexemes.new ≡ lexemes.old ++ with_lexeme kind at len []) }
{
    match kind {
        Some(kind) => lexemes.push(Lexeme { kind, at, len }),
        None => Ok(()),
    }
}

/// The lexemes of a text in order, or what is wrong with it first. Comments and blanks are left out.
pub fn lex(alloc: Global, text: &[u8]) -> Result<Sequence<Lexeme>, LexFault>
    requires { length text.now < 2 ^ 32 }
    ensures lexemes { IfOk result (Lexes text.now) }
    ensures fault { IfErr result (λ fault. fault ≢ Memory → IsFault text.now fault) }
{
    let mut lexemes = Sequence::new(alloc);
    let mut at = 0;
    while at < text.len() {
        let front = piece_at(text, at)?;
        keep(&mut lexemes, front.kind, at as u32, front.len as u32)?;
        at += front.len;
    }
    Ok(lexemes)
}

/// A text is lexemes or has a first fault, and never both or two: the fault's sort and place are the only ones.
pub fn each_text_has_one_outcome()
    ensures { HasOneOutcome }
{}

/// No text has two lists of lexemes.
pub fn each_text_has_one_reading()
    ensures { HasOneReading }
{}

/// The lexemes of a text lie in it in order, without overlap, each spelled as its kind says and with a value in range.
pub fn lexemes_lie_in_order()
    ensures { LieInOrder }
{}

/// A blank after a lexeme ends it there, whatever follows: so lexemes that are written with blanks between them are
/// read again.
pub fn blanks_separate_lexemes()
    ensures { BlanksSeparate }
{}
