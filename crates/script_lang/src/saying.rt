//! What words say of values.

ghost use Rattle.std.specs.Prelude.{◌≡◌, ℤ, MatchOption};
ghost use Rattle.domain_core.specs.Domain.{IsValue};
ghost use Rattle.model_core.specs.Lawful.{IsLawful};
ghost use Rattle.script_lang.specs.Number.{IsSignedNumber, SaysThousandths, signed_value};
ghost use Rattle.script_lang.specs.Naming.{SaysValue, StandsFor};

use crate::number::{self, decimal_parts, is_number, thousandths_of};
use domain_core::domain::GREATEST_VALUE;
use model_core::variable::ValueKind;
use plan_resolve::indexed::IndexedModel;
use plan_resolve::values;

// The value; where there is none in the range of values, one outside of it, which stands for all of those.
fn or_outside(value: Option<i32>) -> i32
    ensures { MatchOption value (IsValue result → ⊥) (λ inside. result ≡ inside) }
{
    match value {
        Some(value) => value,
        None => GREATEST_VALUE + 1,
    }
}

// The number that the word is; one outside the range of values stands for all of those.
fn number_said(word: &[u8]) -> Option<i32>
    ensures { MatchOption result
        (IsSignedNumber word.now → ⊥)
        (λ value. IsSignedNumber word.now × StandsFor value (signed_value word.now)) }
{
    if is_number(word) {
        Some(or_outside(number::value_of(word)))
    } else {
        None
    }
}

// The thousandths that the word says; some outside the range of values stand for all of those.
fn thousandths_said(word: &[u8]) -> Option<i32>
    ensures { MatchOption result
        ((value : ℤ) → SaysThousandths value word.now → ⊥)
        (λ value. (said : ℤ) × (SaysThousandths said word.now × StandsFor value said)) }
{
    if is_number(word) {
        return Some(or_outside(thousandths_of(word, b"000")));
    }
    match decimal_parts(word) {
        Some((whole, fraction)) => Some(or_outside(thousandths_of(whole, fraction))),
        None => None,
    }
}

/// The value of the kind that the word says. One outside the range of values is answered by another one outside of it.
pub fn value_said(model: &IndexedModel<'_>, kind: ValueKind, word: &[u8]) -> Option<i32>
    requires { IsLawful model.now }
    ensures { MatchOption result
        ((value : ℤ) → SaysValue model.now kind value word.now → ⊥)
        (λ value. (said : ℤ) × (SaysValue model.now kind said word.now × StandsFor value said)) }
{
    match kind {
        ValueKind::Int => number_said(word),
        ValueKind::Float => thousandths_said(word),
        ValueKind::Bool => values::value_of(model, kind, word),
        ValueKind::Enum(_number) => values::value_of(model, kind, word),
        ValueKind::Object => values::value_of(model, kind, word),
    }
}
