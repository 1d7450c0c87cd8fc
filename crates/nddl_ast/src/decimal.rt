//! What numbers stand for where a decimal is wanted.

ghost use Rattle.std.specs.Prelude.{◌≡◌};
ghost use Rattle.nddl_ast.specs.Decimals.{constant_decimal, decimal_for, written_number};

use super::expression::{Constant, Expr};

/// The decimal, in thousandths, for which a number stands where a decimal is wanted; the greatest and the least number stand
/// for the greatest and the least decimal.
pub fn decimal_for(number: i32) -> Option<i32>
    ensures { result ≡ decimal_for number }
{
    if number == 1_000_000 || number == -1_000_000 {
        Some(number)
    } else if -1000 <= number && number <= 1000 {
        Some(number * 1000)
    } else {
        None
    }
}

impl Constant {
    /// The decimal, in thousandths, that it is or stands for.
    pub fn decimal(self) -> Option<i32>
        ensures { result ≡ constant_decimal self }
    {
        match self {
            Constant::Number(number) => decimal_for(number),
            Constant::Decimal(thousandths) => Some(thousandths.0),
            Constant::Truth(_) => None,
        }
    }
}

impl Expr {
    /// The number, if it is one that is written out.
    pub fn written_number(&self) -> Option<i32>
        ensures { result ≡ written_number self.now }
    {
        match self {
            Expr::Literal(literal) => match literal.constant {
                Constant::Number(number) => Some(number),
                Constant::Decimal(_) | Constant::Truth(_) => None,
            },
            Expr::Path(_) => None,
        }
    }
}
