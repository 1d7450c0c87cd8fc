//! Numbers in decimal digits, and those with a point among them.

ghost use Rattle.std.specs.Prelude.{◌≡◌, ◌↔◌, ◌≤ℤ◌, pos, All, IsTrue, IfSome, IfNone, MatchOption, slice_get};
ghost use Rattle.std.specs.Char.{is_ascii_digit, digit_value};
ghost use Rattle.domain_core.specs.Domain.{IsValue};
ghost use Rattle.script_lang.specs.Number.{IsSignedNumber, signed_value, without_minus, with_sign_of};
ghost use Rattle.script_lang.specs.Number.{IsFraction, HasDecimalParts, IsSignedDecimal, fraction_value, thousandths};

use domain_core::domain::{GREATEST_VALUE, LEAST_VALUE};
use plan_text::value_words::cut_at_point;

/// What follows a minus sign at the front, or all where there is none.
fn without_minus(word: &[u8]) -> &[u8]
    ensures { result.now ≡ without_minus word.now }
{
    match word.split_first() {
        Some((b'-', digits)) => digits,
        _ => word,
    }
}

/// Whether the word is a number.
pub fn is_number(word: &[u8]) -> bool
    ensures { IsTrue result ↔ IsSignedNumber word.now }
{
    let digits = without_minus(word);
    !digits.is_empty() && digits.iter().all(|byte| byte.is_ascii_digit())
}

/// Text of a number, whose bytes are all ASCII.
fn number_text(number: &[u8]) -> &str
    requires { IsSignedNumber number.now }
    ensures { result.now ≡ number.now }
{
    match std::str::from_utf8(number) {
        Ok(text) => text,
        Err(_) => unreachable!(),
    }
}

/// The value that a number names; None where it lies outside the range of values.
pub fn value_of(number: &[u8]) -> Option<i32>
    requires { IsSignedNumber number.now }
    ensures some { IfSome result (λ value. (value ≡ signed_value number.now) × IsValue value) }
    ensures none { IfNone result (IsValue (signed_value number.now) → ⊥) }
{
    match number_text(number).parse::<i32>() {
        Ok(value) if LEAST_VALUE <= value && value <= GREATEST_VALUE => Some(value),
        _ => None,
    }
}

/// Whether these are one to three digits.
fn is_fraction(digits: &[u8]) -> bool
    ensures { IsTrue result ↔ IsFraction digits.now }
{
    !digits.is_empty() && digits.len() <= 3 && digits.iter().all(|byte| byte.is_ascii_digit())
}

/// What a decimal has before its point, and what behind it.
pub fn decimal_parts(word: &[u8]) -> Option<(&[u8], &[u8])>
    ensures { MatchOption result (IsSignedDecimal word.now → ⊥) (λ parts. HasDecimalParts word.now parts.0.now parts.1.now) }
{
    match cut_at_point(word) {
        Some((whole, fraction)) => {
            if is_number(whole) && is_fraction(fraction) {
                Some((whole, fraction))
            } else {
                None
            }
        }
        None => None,
    }
}

/// Whether the word is a decimal.
pub fn is_decimal(word: &[u8]) -> bool
    ensures { IsTrue result ↔ IsSignedDecimal word.now }
{
    decimal_parts(word).is_some()
}

/// What the digit at this place says; past the last one it is zero.
fn digit_at(digits: &[u8], place: usize) -> i32
    requires { All (λ byte. IsTrue (is_ascii_digit byte)) digits.now }
    ensures value { MatchOption (slice_get digits.now place) (result ≡ pos 0) (λ byte. result ≡ pos (digit_value byte)) }
    ensures small { (pos 0 ≤ℤ result) × (result ≤ℤ pos 9) }
{
    match digits.get(place) {
        Some(digit) => i32::from(*digit - b'0'),
        None => 0,
    }
}

/// How many thousandths the digits behind a point are.
fn fraction_value(fraction: &[u8]) -> i32
    requires { IsFraction fraction.now }
    ensures { result ≡ pos (fraction_value fraction.now) }
{
    100 * digit_at(fraction, 0) + 10 * digit_at(fraction, 1) + digit_at(fraction, 2)
}

/// The amount with the sign that the word has at its front.
fn with_sign_of(word: &[u8], amount: i32) -> i32
    requires { IsValue amount }
    ensures { result ≡ with_sign_of word.now amount }
{
    match word.first() {
        Some(b'-') => -amount,
        _ => amount,
    }
}

/// The thousandths of the number that has these digits before its point and those behind it; None where they lie outside
/// the range of values.
pub fn thousandths_of(whole: &[u8], fraction: &[u8]) -> Option<i32>
    requires number { IsSignedNumber whole.now }
    requires digits { IsFraction fraction.now }
    ensures some { IfSome result (λ value. (value ≡ thousandths whole.now fraction.now) × IsValue value) }
    ensures none { IfNone result (IsValue (thousandths whole.now fraction.now) → ⊥) }
{
    match value_of(without_minus(whole)) {
        Some(units) => {
            let amount = units * 1000 + fraction_value(fraction);
            if amount <= GREATEST_VALUE {
                Some(with_sign_of(whole, amount))
            } else {
                None
            }
        }
        None => None,
    }
}
