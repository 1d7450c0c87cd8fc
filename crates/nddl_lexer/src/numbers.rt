//! The values of numbers and decimals.

ghost use Rattle.std.specs.Prelude.{◌≡◌, ◌<◌, ◌≤◌, ◌+◌, ◌-◌, ◌*◌, ◌^◌, ◌++◌, ◌∷◌, ℕ, ℤ, List, MatchOption, IfSome, length};
ghost use Rattle.std.specs.Str.Parse.{digits_value};
ghost use Rattle.nddl_lexer.specs.Bytes.{AreDigits, unsigned};
ghost use Rattle.nddl_lexer.specs.Spelling.{AreParts, IsNumberInRange, SpellsDecimal, SpellsNumber, thousandths_of, with_sign};

use super::fronts::digits_len;
use eu_name::word;

/// The most digits that a decimal may have after its point.
pub const MOST_DIGITS: usize = 3;

// The greatest size of a number, and of a decimal in thousandths; an infinity counts as this number.
const GREATEST: u32 = 1_000_000;

// The bytes after a sign at their front.
fn unsigned(bytes: &[u8]) -> &[u8]
    ensures { result.now ≡ unsigned bytes.now }
{
    match bytes.split_first() {
        Some((b'+' | b'-', rest)) => rest,
        _ => bytes,
    }
}

// The number that the bytes stand for. None where they aren't all digits, and where the number is greater than the most.
fn size_up_to(most: u32, digits: &[u8]) -> Option<u32>
    requires { most ≤ 1000000 }
    ensures value { MatchOption result
        (AreDigits digits.now → most < digits_value 10 digits.now)
        (λ size. AreDigits digits.now × (size ≡ digits_value 10 digits.now)) }
    ensures within { IfSome result (λ size. size ≤ most) }
{
    if digits.is_empty() {
        return None;
    }
    let mut size = 0;
    for digit in digits {
        if !digit.is_ascii_digit() {
            return None;
        }
        size = size * 10 + u32::from(*digit - b'0');
        if size > most {
            return None;
        }
    }
    Some(size)
}

// The number of this size with the sign at the front of the bytes.
fn with_sign(bytes: &[u8], size: u32) -> i32
    requires { size ≤ 1000000 }
    ensures { result ≡ with_sign bytes.now size }
{
    let size = size as i32;
    match bytes.split_first() {
        Some((b'-', _)) => -size,
        _ => size,
    }
}

/// The value of a number. None where the bytes are none, and where it is out of range.
pub fn number_value(bytes: &[u8]) -> Option<i32>
    ensures { MatchOption result
        ((value : ℤ) → SpellsNumber bytes.now value → IsNumberInRange value → ⊥)
        (λ value. SpellsNumber bytes.now value × IsNumberInRange value) }
{
    let digits = unsigned(bytes);
    if word::is_infinity(digits) {
        return Some(with_sign(bytes, GREATEST));
    }
    let size = size_up_to(GREATEST, digits)?;
    Some(with_sign(bytes, size))
}

// The digits before the first byte that is none, if it is a point, and what follows it.
fn parts(bytes: &[u8]) -> Option<(&[u8], &[u8])>
    ensures parts { MatchOption result
        ((whole fraction : List ℕ) → AreParts bytes.now whole fraction → ⊥)
        (λ found. (whole fraction : List ℕ) → AreParts bytes.now whole fraction → (whole ≡ found.0.now) × (fraction ≡ found.1.now)) }
    ensures joined { IfSome result (λ found. bytes.now ≡ found.0.now ++ 46 ∷ found.1.now) }
{
    let (whole, rest) = bytes.split_at(digits_len(bytes));
    let (first, fraction) = rest.split_first()?;
    if *first == b'.' {
        Some((whole, fraction))
    } else {
        None
    }
}

// How many thousandths the last of so many digits after a point counts.
fn weight(digits: usize) -> u32
    requires { digits ≤ 3 }
    ensures { result ≡ 10 ^ (3 - digits) }
{
    match digits {
        0 => 1000,
        1 => 100,
        2 => 10,
        _ => 1,
    }
}

// How many thousandths the parts make. None where they aren't digits, too many thousandths, or too many digits.
fn thousandths(whole: &[u8], fraction: &[u8]) -> Option<u32>
    ensures value { MatchOption result
        (AreDigits whole.now → AreDigits fraction.now → length fraction.now ≤ 3 → 1000000 < thousandths_of whole.now fraction.now)
        (λ size. AreDigits whole.now × AreDigits fraction.now × (length fraction.now ≤ 3) × (size ≡ thousandths_of whole.now fraction.now)) }
    ensures within { IfSome result (λ size. size ≤ 1000000) }
{
    if fraction.len() > MOST_DIGITS {
        return None;
    }
    let above = size_up_to(1000, whole)?;
    let below = size_up_to(999, fraction)?;
    let size = above * 1000 + below * weight(fraction.len());
    if size <= GREATEST { Some(size) } else { None }
}

/// The value of a decimal in thousandths. None where the bytes are none, and where it is out of range or has too many digits
/// after its point.
pub fn decimal_value(bytes: &[u8]) -> Option<i32>
    ensures { MatchOption result
        ((value : ℤ) → SpellsDecimal bytes.now value → IsNumberInRange value → ⊥)
        (λ value. SpellsDecimal bytes.now value × IsNumberInRange value) }
{
    let (whole, fraction) = parts(unsigned(bytes))?;
    let size = thousandths(whole, fraction)?;
    Some(with_sign(bytes, size))
}
