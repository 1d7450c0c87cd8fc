//! Names, values and expressions.

ghost use Rattle.std.specs.Prelude.{◌≡◌};
ghost use Rattle.nddl_grammar.specs.Readers.{sequence, mark, IsFound};
ghost use Rattle.nddl_grammar.specs.declared.sort.Sort.TheVariants as sorts;
ghost use Rattle.nddl_grammar.specs.Productions.{name, path, truth, literal, expr, value, begins_value, arguments, creation, init};

use super::list;
use super::list::Item;
use crate::cursor::{Cursor, Stop};
use crate::joining::joined;
use crate::sort::Sort;
use eu_name::sequence::Sequence;
use eu_name::word::Reserved;
use nddl_ast::expression::{Constant, Creation, Expr, Init, Literal, Thousandths, Value};
use nddl_ast::name::{Name, Path};

/// `Name`
#[tactic(auto, unfolding(crate::specs::Productions::name))]
pub fn name(cursor: &mut Cursor<'_>) -> Result<Name, Stop>
    ensures { IsFound result cursor.new (name cursor.old) }
{
    let symbol = cursor.take(Sort::Name)?;
    Ok(Name {
        text: symbol.text(cursor.allocator())?,
        at: symbol.at(),
    })
}

/// Names, one after another.
pub struct Names;

impl Item for Names {
    type Tree = Name;

    ghost use Rattle.nddl_grammar.specs.Readers.{is};
    ghost use Rattle.nddl_grammar.specs.declared.sort.Sort.TheVariants as sorts;
    ghost use Rattle.nddl_grammar.specs.Productions.{name};

    ghost first = { is sorts.Name };

    ghost reader = { name };

    fn is_first(sort: Sort) -> bool {
        sort.is(Sort::Name)
    }

    fn read(cursor: &mut Cursor<'_>) -> Result<Name, Stop> {
        name(cursor)
    }
}

/// `Name { "." Name }`
#[tactic(auto, unfolding(crate::specs::Productions::path))]
pub fn path(cursor: &mut Cursor<'_>) -> Result<Path, Stop>
    ensures { IsFound result cursor.new (path cursor.old) }
{
    let first = name(cursor)?;
    let rest = list::following::<Names>(cursor, Sort::Point)?;
    Ok(Path { first, rest })
}

/// `"true" | "false"`
fn truth(cursor: &mut Cursor<'_>) -> Result<Literal, Stop>
    ensures { IsFound result cursor.new (truth cursor.old) }
{
    if cursor.is_at(Sort::Word(Reserved::True)) {
        let at = cursor.mark_place(Sort::Word(Reserved::True))?;
        return Ok(Literal {
            constant: Constant::Truth(true),
            at,
        });
    }
    let at = cursor.mark_place(Sort::Word(Reserved::False))?;
    Ok(Literal {
        constant: Constant::Truth(false),
        at,
    })
}

/// `Number | Decimal | "true" | "false"`
#[tactic(auto, unfolding(crate::specs::Productions::literal))]
fn literal(cursor: &mut Cursor<'_>) -> Result<Literal, Stop>
    ensures { IsFound result cursor.new (literal cursor.old) }
{
    if cursor.is_at(Sort::Number) {
        let symbol = cursor.take(Sort::Number)?;
        return Ok(Literal {
            constant: Constant::Number(symbol.value()),
            at: symbol.at(),
        });
    }
    if cursor.is_at(Sort::Decimal) {
        let symbol = cursor.take(Sort::Decimal)?;
        return Ok(Literal {
            constant: Constant::Decimal(Thousandths(symbol.value())),
            at: symbol.at(),
        });
    }
    truth(cursor)
}

/// `Path | Number | Decimal | "true" | "false"`
#[tactic(auto, unfolding(crate::specs::Productions::expr))]
pub fn expr(cursor: &mut Cursor<'_>) -> Result<Expr, Stop>
    ensures { IsFound result cursor.new (expr cursor.old) }
{
    if cursor.is_at(Sort::Name) {
        return Ok(Expr::Path(path(cursor)?));
    }
    Ok(Expr::Literal(literal(cursor)?))
}

/// `Number | Decimal | "true" | "false" | Name`
#[tactic(auto, unfolding(crate::specs::Productions::value))]
pub fn value(cursor: &mut Cursor<'_>) -> Result<Value, Stop>
    ensures { IsFound result cursor.new (value cursor.old) }
{
    if cursor.is_at(Sort::Name) {
        return Ok(Value::Name(name(cursor)?));
    }
    Ok(Value::Literal(literal(cursor)?))
}

// Whether an expression or a value can begin with a symbol of the sort.
fn begins_value(sort: Sort) -> bool
    ensures { result ≡ begins_value sort }
{
    match sort {
        Sort::Name
        | Sort::Number
        | Sort::Decimal
        | Sort::Word(Reserved::True)
        | Sort::Word(Reserved::False) => true,
        _ => false,
    }
}

/// Expressions, one after another.
pub struct Expressions;

impl Item for Expressions {
    type Tree = Expr;

    ghost use Rattle.nddl_grammar.specs.Productions.{begins_value, expr};

    ghost first = { begins_value };

    ghost reader = { expr };

    fn is_first(sort: Sort) -> bool {
        begins_value(sort)
    }

    fn read(cursor: &mut Cursor<'_>) -> Result<Expr, Stop> {
        expr(cursor)
    }
}

/// Values, one after another.
pub struct Values;

impl Item for Values {
    type Tree = Value;

    ghost use Rattle.nddl_grammar.specs.Productions.{begins_value, value};

    ghost first = { begins_value };

    ghost reader = { value };

    fn is_first(sort: Sort) -> bool {
        begins_value(sort)
    }

    fn read(cursor: &mut Cursor<'_>) -> Result<Value, Stop> {
        value(cursor)
    }
}

/// `[ Expr { "," Expr } ]`
#[tactic(auto, unfolding(crate::specs::Productions::arguments))]
pub fn arguments(cursor: &mut Cursor<'_>) -> Result<Sequence<Expr>, Stop>
    ensures { IsFound result cursor.new (arguments cursor.old) }
{
    list::listed::<Expressions>(cursor, Sort::Comma)
}

/// `"(" [ Args ] ")"`
fn enclosed(cursor: &mut Cursor<'_>) -> Result<((), (Sequence<Expr>, ())), Stop>
    ensures { IsFound result cursor.new
        (sequence (mark sorts.ParenOpen) (sequence arguments (mark sorts.ParenClose)) cursor.old) }
{
    cursor.mark(Sort::ParenOpen)?;
    let arguments = arguments(cursor)?;
    let done = cursor.mark(Sort::ParenClose);
    let arguments = joined(arguments, done)?;
    Ok(((), arguments))
}

/// `"new" Name "(" [ Args ] ")"`
#[tactic(auto, unfolding(crate::specs::Productions::creation))]
fn creation(cursor: &mut Cursor<'_>) -> Result<Creation, Stop>
    ensures { IsFound result cursor.new (creation cursor.old) }
{
    let at = cursor.mark_place(Sort::Word(Reserved::New))?;
    let class = name(cursor)?;
    let rest = enclosed(cursor);
    let (class, ((), (arguments, ()))) = joined(class, rest)?;
    Ok(Creation {
        at,
        class,
        arguments,
    })
}

/// `Expr | "new" Name "(" [ Args ] ")"`
#[tactic(auto, unfolding(crate::specs::Productions::init))]
pub fn init(cursor: &mut Cursor<'_>) -> Result<Init, Stop>
    ensures { IsFound result cursor.new (init cursor.old) }
{
    if cursor.is_at(Sort::Word(Reserved::New)) {
        return Ok(Init::New(creation(cursor)?));
    }
    Ok(Init::Expr(expr(cursor)?))
}
