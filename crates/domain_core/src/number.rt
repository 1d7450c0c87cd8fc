//! Numbers that a variable may be, and the greater and the less of two.

ghost use Rattle.std.specs.Prelude.{◌≡◌, ◌≤ℤ◌, ◌⊎◌, ◌↔◌, IsTrue};
ghost use Rattle.domain_core.specs.Domain.{IsValue};

use super::domain::{GREATEST_VALUE, LEAST_VALUE};

/// Whether a variable may be the number.
pub fn is_value(number: i32) -> bool
    ensures { IsTrue result ↔ IsValue number }
{
    LEAST_VALUE <= number && number <= GREATEST_VALUE
}

/// The greater of two numbers.
pub fn greater(a: i32, b: i32) -> i32
    ensures is_one { (result ≡ a) ⊎ (result ≡ b) }
    ensures a { a ≤ℤ result }
    ensures b { b ≤ℤ result }
{
    if a < b { b } else { a }
}

/// The less of two numbers.
pub fn less(a: i32, b: i32) -> i32
    ensures is_one { (result ≡ a) ⊎ (result ≡ b) }
    ensures a { result ≤ℤ a }
    ensures b { result ≤ℤ b }
{
    if a < b { a } else { b }
}
