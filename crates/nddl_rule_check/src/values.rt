//! Which values may stand as arguments.

ghost use Rattle.std.specs.Prelude.{◌≡◌};
ghost use Rattle.nddl_rule_check.specs.Values.{compared_with, is_decimal, is_factor, is_factor_constant, kind_of_value, unfit_fault, unfit_value_fault};

use super::asked::Asked;
use nddl_ast::TextKind;
use nddl_ast::expression::{Constant, Expr};
use nddl_resolve::{Denoted, kind_fault};
use nddl_symbols::kind_if;
use nddl_typeexpr::TypeKind;

/// Of which kind the value is, if it is one.
pub fn kind_of_value(meant: Denoted) -> Option<TypeKind>
    ensures { result ≡ kind_of_value meant }
{
    match meant {
        Denoted::Value { kind, .. } => Some(kind),
        _ => None,
    }
}

/// Whether it means a value of kind float.
pub fn is_decimal(meant: Denoted) -> bool
    ensures { result ≡ is_decimal meant }
{
    match meant {
        Denoted::Value {
            kind: TypeKind::Float,
            ..
        } => true,
        _ => false,
    }
}

// What is wrong with an argument, which means this, where a value is wanted, of this kind if any.
fn unfit_value_fault(wanted: Option<TypeKind>, expr: &Expr, meant: Denoted) -> Option<TextKind>
    ensures { result ≡ unfit_value_fault wanted expr.now meant }
{
    match (wanted, meant) {
        (None, Denoted::Value { .. }) => None,
        (Some(wanted), Denoted::Value { kind, .. }) => kind_fault(wanted, expr, kind),
        (_, Denoted::Faulty) => None,
        (_, Denoted::Token(_) | Denoted::Class(_)) => Some(TextKind::WrongType),
    }
}

// Whether it is a number that is written out, other than 0.
fn is_factor(expr: &Expr) -> bool
    ensures { result ≡ is_factor expr.now }
{
    match expr {
        Expr::Literal(literal) => is_factor_constant(literal.constant),
        Expr::Path(_) => false,
    }
}

fn is_factor_constant(constant: Constant) -> bool
    ensures { result ≡ is_factor_constant constant }
{
    match constant {
        Constant::Number(number) => number != 0,
        _ => false,
    }
}

/// What is wrong with the argument, which means this, of which this is asked, where those that are compared before it are
/// of this kind.
pub fn unfit_fault(
    asks: Asked,
    compared: Option<TypeKind>,
    expr: &Expr,
    meant: Denoted,
) -> Option<TextKind>
    ensures { result ≡ unfit_fault asks compared expr.now meant }
{
    match asks {
        Asked::Of(kind) => unfit_value_fault(Some(kind), expr, meant),
        Asked::Compared => unfit_value_fault(compared, expr, meant),
        Asked::Factor => kind_if(!is_factor(expr), TextKind::WrongType),
    }
}

/// Of which kind those are that are compared, with one argument more.
pub fn compared_with(asks: Asked, compared: Option<TypeKind>, meant: Denoted) -> Option<TypeKind>
    ensures { result ≡ compared_with asks compared meant }
{
    match asks {
        Asked::Compared => compared.or(kind_of_value(meant)),
        Asked::Of(_) | Asked::Factor => compared,
    }
}
