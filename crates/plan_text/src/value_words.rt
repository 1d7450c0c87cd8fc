//! Which words have the form of a value.

ghost use Rattle.std.specs.Prelude.{◌≡◌, ◌↔◌, ◌≤◌, ◌++◌, All, false, not, length, IsTrue, MatchOption, codes};
ghost use Rattle.std.specs.Char.{is_ascii_digit};
ghost use Rattle.std.specs.List.{prefix_len};
ghost use Rattle.model_core.specs.Naming.{is_point, IsPath};
ghost use Rattle.plan_text.specs.Values.{IsPlainNumber, IsNumberWord, IsPlainDecimal, IsDecimalWord, IsTruthWord, IsValueWord};

use super::words::is_word;
use eu_name::word::is_name;

// Whether the digits are a number without a zero before others.
fn is_plain_number(digits: &[u8]) -> bool
    ensures { IsTrue result ↔ IsPlainNumber digits.now }
{
    !digits.is_empty()
        && digits.iter().all(|byte| byte.is_ascii_digit())
        && !(digits.len() > 1 && digits[0] == b'0')
}

// Whether the word has the form of a number.
fn is_number_word(word: &[u8]) -> bool
    ensures { IsTrue result ↔ IsNumberWord word.now }
{
    match word.split_first() {
        Some((b'-', digits)) => is_plain_number(digits) && !is_word(digits, b"0"),
        _ => is_plain_number(word),
    }
}

/// Whether these are three digits.
pub fn are_three_digits(digits: &[u8]) -> bool
    ensures { IsTrue result ↔ ((length digits.now ≡ 3) × All (λ byte. IsTrue (is_ascii_digit byte)) digits.now) }
{
    digits.len() == 3 && digits.iter().all(|byte| byte.is_ascii_digit())
}

// Whether the word is a number without a zero before others, a point and three digits.
fn is_plain_decimal(word: &[u8]) -> bool
    ensures { IsTrue result ↔ IsPlainDecimal word.now }
{
    match cut_at_point(word) {
        Some((whole, digits)) => is_plain_number(whole) && are_three_digits(digits),
        None => false,
    }
}

// Whether the word has the form of a decimal.
fn is_decimal_word(word: &[u8]) -> bool
    ensures { IsTrue result ↔ IsDecimalWord word.now }
{
    match word.split_first() {
        Some((b'-', digits)) => is_plain_decimal(digits) && !is_word(digits, b"0.000"),
        _ => is_plain_decimal(word),
    }
}

/// Whether the word is a truth.
pub fn is_truth_word(word: &[u8]) -> bool
    ensures { IsTrue result ↔ IsTruthWord word.now }
{
    is_word(word, b"true") || is_word(word, b"false")
}

/// Whether the word is names with single points between them.
pub fn is_path_word(word: &[u8]) -> bool
    ensures { IsTrue result ↔ IsPath word.now }
{
    let mut rest = word;
    while let Some((name, after)) = cut_at_point(rest) {
        if !is_name(name) {
            return false;
        }
        rest = after;
    }
    is_name(rest)
}

// How many bytes stand before the first point.
fn point_place(word: &[u8]) -> usize
    ensures len { result ≡ prefix_len (λ byte. not (is_point byte)) word.now }
    ensures within { result ≤ length word.now }
{
    word.iter().take_while(|byte| **byte != b'.').count()
}

/// What stands before the first point, and what behind it.
pub fn cut_at_point(word: &[u8]) -> Option<(&[u8], &[u8])>
    ensures { MatchOption result
        (All (λ byte. is_point byte ≡ false) word.now)
        (λ cut. All (λ byte. is_point byte ≡ false) cut.0.now × (word.now ≡ cut.0.now ++ (codes "." ++ cut.1.now))) }
{
    let (name, back) = word.split_at(point_place(word));
    match back.split_first() {
        Some((_point, after)) => Some((name, after)),
        None => None,
    }
}

/// Whether the word has the form of a value.
pub fn is_value_word(word: &[u8]) -> bool
    ensures { IsTrue result ↔ IsValueWord word.now }
{
    is_number_word(word) || is_decimal_word(word) || is_truth_word(word) || is_path_word(word)
}
