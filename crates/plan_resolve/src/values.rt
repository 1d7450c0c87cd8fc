//! What words say of values.

ghost use Rattle.std.specs.Prelude.{◌≡◌, ◌⊎◌, ◌↔◌, ◌<◌, ◌≤◌, ◌+◌, ◌/◌, ◌%◌, ℕ, ℤ, pos, IsTrue, Some, None, IfSome, MatchOption, option_copied, codes, slice_get};
ghost use Rattle.std.specs.Char.{is_ascii_digit};
ghost use Rattle.std.specs.Fmt.{signed_decimal};
ghost use Rattle.domain_core.specs.Domain.{IsValue};
ghost use Rattle.model_core.specs.declared.class.Enum.{Enum};
ghost use Rattle.model_core.specs.Lawful.{IsLawful};
ghost use Rattle.plan_text.specs.Found.{Judges};
ghost use Rattle.plan_text.specs.Values.{decimal_text, thousandths_text, three_digits, IsTruthWord, IsValueText, IsNoValueText};

use super::indexed::IndexedModel;
use domain_core::domain::{GREATEST_VALUE, LEAST_VALUE};
use eu_name::text::Text;
use itoa::Buffer;
use model_core::class::Enum;
use model_core::variable::ValueKind;
use plan_text::fault::Wrong;
use plan_text::value_words::{are_three_digits, cut_at_point, is_value_word};
use plan_text::words::{behind, is_word};

// The number that `parse` finds in the word: that of which the word is the text, if it is one's.
fn parsed(word: &[u8]) -> Option<i32>
    ensures { (value : ℤ) → IsValue value → word.now ≡ signed_decimal value → result ≡ Some value }
{
    match std::str::from_utf8(word) {
        Ok(text) => text.parse::<i32>().ok(),
        Err(_) => None,
    }
}

// Whether the word is the text of the number.
fn is_text_of(value: i32, word: &[u8]) -> bool
    ensures { IsTrue result ↔ (word.now ≡ signed_decimal value) }
{
    let mut buffer = Buffer::new();
    is_word(word, buffer.format(value).as_bytes())
}

// The number that the word is.
fn number_value(word: &[u8]) -> Option<i32>
    ensures { MatchOption result
        ((value : ℤ) → IsValue value → word.now ≡ signed_decimal value → ⊥)
        (λ value. IsValue value × (word.now ≡ signed_decimal value)) }
{
    match parsed(word) {
        Some(value) if LEAST_VALUE <= value && value <= GREATEST_VALUE && is_text_of(value, word) =>
            { Some(value) }
        _ => None,
    }
}

// The number below 1,000 of which these are the three digits.
fn three_digits_value(digits: &[u8]) -> Option<u32>
    ensures { MatchOption result
        ((n : ℕ) → digits.now ≡ three_digits n → ⊥)
        (λ n. (n < 1000) × (digits.now ≡ three_digits n)) }
{
    if !are_three_digits(digits) {
        return None;
    }
    Some(digit_value(digits[0]) * 100 + digit_value(digits[1]) * 10 + digit_value(digits[2]))
}

// What the digit stands for.
fn digit_value(digit: u8) -> u32
    requires { IsTrue (is_ascii_digit digit) }
    ensures { (result < 10) × (digit ≡ 48 + result) }
{
    (digit - b'0') as u32
}

// So many whole ones and thousandths, in thousandths, if they are a value that isn't negative.
fn in_thousandths(whole: i32, rest: u32) -> Option<i32>
    requires whole { IsValue whole }
    requires rest { rest < 1000 }
    ensures { MatchOption result
        ((n : ℕ) → n ≤ 1000000 → whole ≡ pos (n / 1000) → rest ≡ n % 1000 → ⊥)
        (λ value. (n : ℕ) × ((value ≡ pos n) × (n ≤ 1000000) × (whole ≡ pos (n / 1000)) × (rest ≡ n % 1000))) }
{
    let value = whole * 1000 + rest as i32;
    if 0 <= whole && value <= GREATEST_VALUE {
        Some(value)
    } else {
        None
    }
}

// How many thousandths the word is: a whole number that isn't negative, a point and three digits.
fn thousandths_value(word: &[u8]) -> Option<i32>
    ensures { MatchOption result
        ((n : ℕ) → n ≤ 1000000 → word.now ≡ thousandths_text n → ⊥)
        (λ value. (n : ℕ) × ((value ≡ pos n) × (n ≤ 1000000) × (word.now ≡ thousandths_text n))) }
{
    let Some((whole, digits)) = cut_at_point(word) else {
        return None;
    };
    let Some(whole) = number_value(whole) else {
        return None;
    };
    match three_digits_value(digits) {
        Some(rest) => in_thousandths(whole, rest),
        None => None,
    }
}

// The decimal that the word is, in thousandths.
fn decimal_value(word: &[u8]) -> Option<i32>
    ensures { MatchOption result
        ((value : ℤ) → IsValue value → word.now ≡ decimal_text value → ⊥)
        (λ value. IsValue value × (word.now ≡ decimal_text value)) }
{
    match behind(word, b"-") {
        Some(digits) => match thousandths_value(digits) {
            Some(value) if value > 0 => Some(-value),
            Some(_zero) => None,
            None => None,
        },
        None => thousandths_value(word),
    }
}

// The truth that the word is.
fn truth_value(word: &[u8]) -> Option<i32>
    ensures { MatchOption result
        (IsTruthWord word.now → ⊥)
        (λ value. ((value ≡ pos 0) × (word.now ≡ codes "false")) ⊎ ((value ≡ pos 1) × (word.now ≡ codes "true"))) }
{
    if is_word(word, b"false") {
        return Some(0);
    }
    if is_word(word, b"true") {
        return Some(1);
    }
    None
}

// The place of the name among these.
fn place_of(names: &[Text], word: &[u8]) -> Option<usize>
    ensures { MatchOption result
        ((place : ℕ) → slice_get names.now place ≡ Some word.now → ⊥)
        (λ place. slice_get names.now place ≡ Some word.now) }
{
    for (place, name) in names.iter().enumerate() {
        if is_word(name.as_bytes(), word) {
            return Some(place);
        }
    }
    None
}

// The enum of this number.
fn enum_at<'a>(model: &'a IndexedModel<'_>, number: u32) -> Option<&'a Enum>
    ensures { option_copied result ≡ slice_get model.now.enums number }
{
    model.model().enums.as_slice().get(number as usize)
}

// The place of the member of this name of the enum.
fn member_place(model: &IndexedModel<'_>, number: u32, word: &[u8]) -> Option<usize>
    ensures { MatchOption result
        ((found : Enum) (place : ℕ) → slice_get model.now.enums number ≡ Some found → slice_get found.members place ≡ Some word.now → ⊥)
        (λ place. (found : Enum) × (slice_get model.now.enums number ≡ Some found) × (slice_get found.members place ≡ Some word.now)) }
{
    match enum_at(model, number) {
        Some(found) => place_of(found.members.as_slice(), word),
        None => None,
    }
}

// The value that is the place, of which there are few.
fn value_at(place: Option<usize>) -> Option<i32>
    requires { IfSome place (λ place. place < 4096) }
    ensures { MatchOption place (result ≡ None) (λ place. result ≡ Some (pos place)) }
{
    match place {
        Some(place) => Some(place as i32),
        None => None,
    }
}

/// The value of the kind of which the word is the text.
pub fn value_of(model: &IndexedModel<'_>, kind: ValueKind, word: &[u8]) -> Option<i32>
    requires { IsLawful model.now }
    ensures { MatchOption result
        ((value : ℤ) → IsValueText model.now kind value word.now → ⊥)
        (λ value. IsValueText model.now kind value word.now) }
{
    match kind {
        ValueKind::Int => number_value(word),
        ValueKind::Float => decimal_value(word),
        ValueKind::Bool => truth_value(word),
        ValueKind::Enum(number) => value_at(member_place(model, number, word)),
        ValueKind::Object => value_at(model.object_named(word)),
    }
}

/// What the word says where a value of the kind is due.
pub fn judge_value(model: &IndexedModel<'_>, kind: ValueKind, word: &[u8]) -> Result<i32, Wrong>
    requires { IsLawful model.now }
    ensures { Judges (IsValueText model.now kind) (IsNoValueText model.now kind) word.now result }
{
    match value_of(model, kind, word) {
        Some(value) => Ok(value),
        None if is_value_word(word) => Err(Wrong::Unknown),
        None => Err(Wrong::Syntax),
    }
}
