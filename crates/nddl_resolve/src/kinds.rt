//! What is wrong with an argument of one kind where another is wanted.

ghost use Rattle.std.specs.Prelude.{◌≡◌};
ghost use Rattle.nddl_resolve.specs.Kinds.{kind_fault, other_kind_fault};

use nddl_ast::expression::Expr;
use nddl_ast::{TextKind, decimal_for};
use nddl_symbols::kind_if;
use nddl_typeexpr::TypeKind;
use nddl_typeexpr::kind::are_one_kind;

/// What is wrong with an argument that means a value of this kind, where one of the wanted kind is to stand. A number that is
/// written may stand for a decimal.
pub fn kind_fault(wanted: TypeKind, expr: &Expr, kind: TypeKind) -> Option<TextKind>
    ensures { result ≡ kind_fault wanted expr.now kind }
{
    match (wanted, expr.written_number()) {
        (TypeKind::Float, Some(number)) => {
            kind_if(decimal_for(number).is_none(), TextKind::NotInDomain)
        }
        _ => other_kind_fault(wanted, kind),
    }
}

fn other_kind_fault(wanted: TypeKind, kind: TypeKind) -> Option<TextKind>
    ensures { result ≡ other_kind_fault wanted kind }
{
    kind_if(!are_one_kind(wanted, kind), TextKind::WrongType)
}
