//! What stands at the front of a text: a lexeme, a blank or a comment, told by the first byte.

ghost use Rattle.std.specs.Prelude.{◌≡◌, ◌≤◌, ◌+◌, ◌<◌, ◌^◌, length, take, IfOk, IfSome};
ghost use Rattle.std.specs.List.{prefix_len};
ghost use Rattle.nddl_lexer.specs.Bytes.{is_blank, is_sign, is_quotable, is_in_line};
ghost use Rattle.nddl_lexer.specs.Scan.{gap_of, lexeme_of, class_of, kind_of_word, word_len, digits_len, begins_with_digit, fraction_len, amount_of, amount_at, after_sign, after_quote, after_hash, close_len, after_slash, double_mark, single_mark, mark_at, front_of};

use super::kinds::LexKind;
use eu_name::word;

/// A lexeme of some kind, or without a kind a blank or a comment, and how many bytes it has.
#[derive(Clone, Copy)]
pub struct Front {
    pub kind: Option<LexKind>,
    pub len: usize,
}

/// Why a text begins with no lexeme, blank or comment.
#[derive(Clone, Copy)]
pub enum Stop {
    /// Its first byte begins none.
    BadByte,
    /// It begins with a comment that is never closed.
    OpenComment,
}

/// What can begin with a byte.
#[derive(Clone, Copy)]
pub enum Class {
    /// A blank.
    Blank,
    /// A word or `inf`.
    Letter,
    /// A number or a decimal.
    Digit,
    /// A number or a decimal with a sign.
    Sign,
    /// A string.
    Quote,
    /// `#include`.
    Hash,
    /// A comment.
    Slash,
    /// A mark, or nothing.
    Other,
}

fn gap(len: usize) -> Front
    ensures { result ≡ gap_of len }
{
    Front { kind: None, len }
}

fn lexeme(kind: LexKind, len: usize) -> Front
    ensures { result ≡ lexeme_of kind len }
{
    Front {
        kind: Some(kind),
        len,
    }
}

fn is_blank(byte: u8) -> bool
    ensures { result ≡ is_blank byte }
{
    byte == b' ' || byte == b'\t' || byte == b'\r' || byte == b'\n'
}

fn is_sign(byte: u8) -> bool
    ensures { result ≡ is_sign byte }
{
    byte == b'+' || byte == b'-'
}

fn class_of(byte: u8) -> Class
    ensures { result ≡ class_of byte }
{
    if is_blank(byte) {
        Class::Blank
    } else if word::is_word_start(byte) {
        Class::Letter
    } else if byte.is_ascii_digit() {
        Class::Digit
    } else if is_sign(byte) {
        Class::Sign
    } else if byte == b'"' {
        Class::Quote
    } else if byte == b'#' {
        Class::Hash
    } else if byte == b'/' {
        Class::Slash
    } else {
        Class::Other
    }
}

// How many bytes the text begins with that can go on a word.
fn word_len(text: &[u8]) -> usize
    ensures len { result ≡ word_len text.now }
    ensures within { result ≤ length text.now }
{
    text.iter()
        .take_while(|byte| word::is_word_byte(**byte))
        .count()
}

fn kind_of_word(bytes: &[u8]) -> LexKind
    ensures { result ≡ kind_of_word bytes.now }
{
    if bytes == b"inf".as_slice() {
        LexKind::Number
    } else {
        LexKind::Word
    }
}

fn word(text: &[u8]) -> Front
    ensures exact { result ≡ lexeme_of (kind_of_word (take (word_len text.now) text.now)) (word_len text.now) }
    ensures within { result.len ≤ length text.now }
{
    let len = word_len(text);
    lexeme(kind_of_word(&text[..len]), len)
}

// How many digits the text begins with.
pub(super) fn digits_len(text: &[u8]) -> usize
    ensures len { result ≡ digits_len text.now }
    ensures within { result ≤ length text.now }
{
    text.iter().take_while(|byte| byte.is_ascii_digit()).count()
}

fn begins_with_digit(text: &[u8]) -> bool
    ensures { result ≡ begins_with_digit text.now }
{
    match text.split_first() {
        Some((byte, _)) => byte.is_ascii_digit(),
        None => false,
    }
}

// How many bytes a point and the digits after it take at the front, if they stand there.
fn fraction_len(text: &[u8]) -> usize
    ensures len { result ≡ fraction_len text.now }
    ensures within { result ≤ length text.now }
{
    match text.split_first() {
        Some((byte, rest)) => {
            if *byte == b'.' && begins_with_digit(rest) {
                digits_len(rest) + 1
            } else {
                0
            }
        }
        None => 0,
    }
}

fn amount_of(whole: usize, fraction: usize) -> Front
    requires { whole + fraction < 2 ^ 64 }
    ensures { result ≡ amount_of whole fraction }
{
    if fraction == 0 {
        lexeme(LexKind::Number, whole)
    } else {
        lexeme(LexKind::Decimal, whole + fraction)
    }
}

fn amount(text: &[u8]) -> Front
    ensures exact { result ≡ amount_at text.now }
    ensures within { result.len ≤ length text.now }
{
    let whole = digits_len(text);
    amount_of(whole, fraction_len(&text[whole..]))
}

fn after_sign(rest: &[u8]) -> Result<Front, Stop>
    ensures exact { result ≡ after_sign rest.now }
    ensures within { IfOk result (λ front. front.len ≤ length rest.now + 1) }
{
    if rest.starts_with(b"inf") {
        return Ok(lexeme(LexKind::Number, 4));
    }
    if !begins_with_digit(rest) {
        return Err(Stop::BadByte);
    }
    let front = amount(rest);
    Ok(Front {
        kind: front.kind,
        len: front.len + 1,
    })
}

// How many bytes the text begins with that can stand in a string.
fn inside_len(text: &[u8]) -> usize
    ensures len { result ≡ prefix_len is_quotable text.now }
    ensures within { result ≤ length text.now }
{
    text.iter()
        .take_while(|byte| !(**byte == b'"' || **byte == b'\n'))
        .count()
}

fn after_quote(rest: &[u8]) -> Result<Front, Stop>
    ensures exact { result ≡ after_quote rest.now }
    ensures within { IfOk result (λ front. front.len ≤ length rest.now + 1) }
{
    let inside = inside_len(rest);
    if inside < rest.len() && rest[inside] == b'"' {
        Ok(lexeme(LexKind::Str, inside + 2))
    } else {
        Err(Stop::BadByte)
    }
}

fn after_hash(rest: &[u8]) -> Result<Front, Stop>
    ensures exact { result ≡ after_hash rest.now }
    ensures within { IfOk result (λ front. front.len ≤ length rest.now + 1) }
{
    if rest.starts_with(b"include") {
        Ok(lexeme(LexKind::Include, 8))
    } else {
        Err(Stop::BadByte)
    }
}

// How many bytes stand on the line before its end.
fn line_len(text: &[u8]) -> usize
    ensures len { result ≡ prefix_len is_in_line text.now }
    ensures within { result ≤ length text.now }
{
    text.iter().take_while(|byte| **byte != b'\n').count()
}

// How many bytes there are up to the end of the first `*/`.
fn close_len(text: &[u8]) -> Option<usize>
    ensures exact { result ≡ close_len text.now }
    ensures within { IfSome result (λ len. len ≤ length text.now) }
{
    for i in 1..text.len() {
        if text[i - 1] == b'*' && text[i] == b'/' {
            return Some(i + 1);
        }
    }
    None
}

fn after_slash(rest: &[u8]) -> Result<Front, Stop>
    ensures exact { result ≡ after_slash rest.now }
    ensures within { IfOk result (λ front. front.len ≤ length rest.now + 1) }
{
    match rest.split_first() {
        Some((b'/', line)) => Ok(gap(line_len(line) + 2)),
        Some((b'*', block)) => match close_len(block) {
            Some(len) => Ok(gap(len + 2)),
            None => Err(Stop::OpenComment),
        },
        _ => Err(Stop::BadByte),
    }
}

fn double_mark(first: u8, second: u8) -> Option<LexKind>
    ensures { result ≡ double_mark first second }
{
    if first == b'=' && second == b'=' {
        Some(LexKind::Equal)
    } else if first == b'!' && second == b'=' {
        Some(LexKind::NotEqual)
    } else if first == b':' && second == b':' {
        Some(LexKind::DoubleColon)
    } else {
        None
    }
}

fn single_mark(byte: u8) -> Option<LexKind>
    ensures { result ≡ single_mark byte }
{
    match byte {
        b'{' => Some(LexKind::BraceOpen),
        b'}' => Some(LexKind::BraceClose),
        b'(' => Some(LexKind::ParenOpen),
        b')' => Some(LexKind::ParenClose),
        b'[' => Some(LexKind::BracketOpen),
        b']' => Some(LexKind::BracketClose),
        b';' => Some(LexKind::Semicolon),
        b',' => Some(LexKind::Comma),
        b'.' => Some(LexKind::Point),
        b'=' => Some(LexKind::Assign),
        _ => None,
    }
}

fn mark(first: u8, rest: &[u8]) -> Result<Front, Stop>
    ensures exact { result ≡ mark_at first rest.now }
    ensures within { IfOk result (λ front. front.len ≤ length rest.now + 1) }
{
    if let Some((second, _)) = rest.split_first() {
        if let Some(kind) = double_mark(first, *second) {
            return Ok(lexeme(kind, 2));
        }
    }
    match single_mark(first) {
        Some(kind) => Ok(lexeme(kind, 1)),
        None => Err(Stop::BadByte),
    }
}

/// The lexeme, blank or comment at the front of the text, the longest that begins there.
#[tactic(auto, unfolding(crate::specs::Scan::front_of))]
pub fn read_front(text: &[u8]) -> Result<Front, Stop>
    ensures exact { result ≡ front_of text.now }
    ensures within { IfOk result (λ front. front.len ≤ length text.now) }
{
    let Some((first, rest)) = text.split_first() else {
        return Err(Stop::BadByte);
    };
    match class_of(*first) {
        Class::Blank => Ok(gap(1)),
        Class::Letter => Ok(word(text)),
        Class::Digit => Ok(amount(text)),
        Class::Sign => after_sign(rest),
        Class::Quote => after_quote(rest),
        Class::Hash => after_hash(rest),
        Class::Slash => after_slash(rest),
        Class::Other => mark(*first, rest),
    }
}
