//! Statements without blocks.

ghost use Rattle.std.specs.Prelude.{◌≡◌, [], ◌∷◌, ◌++◌};
ghost use Rattle.nddl_grammar.specs.declared.sort.Sort.TheVariants as sorts;
ghost use Rattle.nddl_grammar.specs.Readers.{IsFound, sequence, following, mark, mapped};
ghost use Rattle.nddl_ast.specs.declared.expression.Expr.TheVariants as exprs;
ghost use Rattle.nddl_grammar.specs.Productions.{name, expr, bounds, start, variable, variable_after, call_end, dotted_after, call_after, behind_path, inside_path, inside, parens_after, plain_after, plain_named, plain};

use super::expressions::{Expressions, Names, arguments, init, name, path};
use super::list;
use super::types::{bounds, type_named, type_of};
use crate::cursor::{Cursor, Stop};
use crate::joining::{behind, joined};
use crate::sort::Sort;
use eu_name::sequence::Sequence;
use nddl_ast::expression::{Bounds, Expr, Init};
use nddl_ast::name::{Name, Path};
use nddl_ast::statement::{Ask, Call, Variable};

/// A statement that has no block.
#[derive(Drop)]
pub enum SimpleStmt {
    Variable(Variable),
    Call(Call),
    Ask(Ask),
}

/// `[ "=" Init ]`
#[tactic(auto, unfolding(crate::specs::Productions::start))]
fn start(cursor: &mut Cursor<'_>) -> Result<Option<Init>, Stop>
    ensures { IsFound result cursor.new (start cursor.old) }
{
    if cursor.is_at(Sort::Assign) {
        cursor.mark(Sort::Assign)?;
        return Ok(Some(init(cursor)?));
    }
    Ok(None)
}

// `[ "=" Init ] ";"`
fn start_end(cursor: &mut Cursor<'_>) -> Result<(Option<Init>, ()), Stop>
    ensures { IsFound result cursor.new (sequence start (mark sorts.Semicolon) cursor.old) }
{
    let init = start(cursor)?;
    let done = cursor.mark(Sort::Semicolon);
    joined(init, done)
}

// `Name [ "=" Init ] ";"`
fn named_start(cursor: &mut Cursor<'_>) -> Result<(Name, (Option<Init>, ())), Stop>
    ensures { IsFound result cursor.new (sequence name (sequence start (mark sorts.Semicolon)) cursor.old) }
{
    let name = name(cursor)?;
    let rest = start_end(cursor);
    joined(name, rest)
}

/// `Type Name [ "=" Init ] ";"`
#[tactic(auto, unfolding(crate::specs::Productions::variable))]
pub fn variable(cursor: &mut Cursor<'_>) -> Result<Variable, Stop>
    ensures { IsFound result cursor.new (variable cursor.old) }
{
    let declared = type_of(cursor)?;
    let rest = named_start(cursor);
    let (declared, (name, (init, ()))) = joined(declared, rest)?;
    Ok(Variable {
        declared,
        name,
        init,
    })
}

// What the bounds of a type are, and the same.
fn bounded_start(cursor: &mut Cursor<'_>) -> Result<(Bounds, (Name, (Option<Init>, ()))), Stop>
    ensures { IsFound result cursor.new
        (sequence bounds (sequence name (sequence start (mark sorts.Semicolon))) cursor.old) }
{
    let bounds = bounds(cursor)?;
    let rest = named_start(cursor);
    joined(bounds, rest)
}

/// A variable behind the name with which its type begins.
#[tactic(auto, unfolding(crate::specs::Productions::variable_after))]
fn variable_after(cursor: &mut Cursor<'_>, first: Name) -> Result<Variable, Stop>
    ensures { IsFound result cursor.new (variable_after first cursor.old) }
{
    let rest = bounded_start(cursor);
    let (first, (bounds, (name, (init, ())))) = joined(first, rest)?;
    Ok(Variable {
        declared: type_named(first, bounds),
        name,
        init,
    })
}

/// `"(" [ Args ] ")" ";"`
#[tactic(auto, unfolding(crate::specs::Productions::call_end))]
pub fn call_end(cursor: &mut Cursor<'_>) -> Result<Sequence<Expr>, Stop>
    ensures { IsFound result cursor.new (call_end cursor.old) }
{
    cursor.mark(Sort::ParenOpen)?;
    let arguments = arguments(cursor)?;
    let done = call_closed(cursor);
    behind(done, arguments)
}

/// A call behind the first name of its path, where the path goes on.
#[tactic(auto, unfolding(crate::specs::Productions::dotted_after))]
pub fn dotted_after(cursor: &mut Cursor<'_>, first: Name) -> Result<Call, Stop>
    ensures { IsFound result cursor.new (dotted_after first cursor.old) }
{
    cursor.mark(Sort::Point)?;
    let rest = list::separated::<Names>(cursor, Sort::Point)?;
    let arguments = call_end(cursor);
    let ((first, rest), arguments) = joined((first, rest), arguments)?;
    Ok(Call {
        path: Path { first, rest },
        arguments,
    })
}

// The call of what has this one name.
fn call_of(cursor: &Cursor<'_>, first: Name, arguments: Sequence<Expr>) -> Call
    ensures { result ≡ record { path = record { first = first; rest = [] }; arguments = arguments } }
{
    Call {
        path: Path {
            first,
            rest: Sequence::new(cursor.allocator()),
        },
        arguments,
    }
}

/// A call behind its one name.
#[tactic(auto, unfolding(crate::specs::Productions::call_after))]
pub fn call_after(cursor: &mut Cursor<'_>, first: Name) -> Result<Call, Stop>
    ensures { IsFound result cursor.new (call_after first cursor.old) }
{
    let arguments = call_end(cursor)?;
    Ok(call_of(cursor, first, arguments))
}

// Arguments of which the first is the path.
fn arguments_from(cursor: &mut Cursor<'_>, path: Path) -> Result<Sequence<Expr>, Stop>
    ensures { IsFound result cursor.new
        (mapped (λ more. (exprs.Path path ∷ []) ++ more) (following sorts.Comma expr) cursor.old) }
{
    let mut first = Sequence::new(cursor.allocator());
    first.push(Expr::Path(path))?;
    list::with_following::<Expressions>(cursor, Sort::Comma, first)
}

// A label, or more arguments, behind the path with which what stands between parentheses begins.
#[tactic(auto, unfolding(crate::specs::Productions::behind_path))]
fn behind_path(cursor: &mut Cursor<'_>, word: Name, path: Path) -> Result<SimpleStmt, Stop>
    ensures { IsFound result cursor.new (behind_path word path cursor.old) }
{
    if cursor.is_at(Sort::Name) {
        let label = name(cursor);
        let ((word, path), label) = joined((word, path), label)?;
        return Ok(SimpleStmt::Ask(Ask { word, path, label }));
    }
    let arguments = arguments_from(cursor, path);
    let (word, arguments) = joined(word, arguments)?;
    Ok(SimpleStmt::Call(call_of(cursor, word, arguments)))
}

#[tactic(auto, unfolding(crate::specs::Productions::inside_path))]
fn inside_path(cursor: &mut Cursor<'_>, word: Name) -> Result<SimpleStmt, Stop>
    ensures { IsFound result cursor.new (inside_path word cursor.old) }
{
    let path = path(cursor)?;
    behind_path(cursor, word, path)
}

/// `Path Name | [ Args ]`
#[tactic(auto, unfolding(crate::specs::Productions::inside))]
fn inside(cursor: &mut Cursor<'_>, word: Name) -> Result<SimpleStmt, Stop>
    ensures { IsFound result cursor.new (inside word cursor.old) }
{
    if cursor.is_at(Sort::Name) {
        return inside_path(cursor, word);
    }
    let arguments = arguments(cursor)?;
    Ok(SimpleStmt::Call(call_of(cursor, word, arguments)))
}

// `")" ";"`
fn call_closed(cursor: &mut Cursor<'_>) -> Result<(), Stop>
    ensures { IsFound result cursor.new
        (mapped (λ p. tt) (sequence (mark sorts.ParenClose) (mark sorts.Semicolon)) cursor.old) }
{
    cursor.mark(Sort::ParenClose)?;
    cursor.mark(Sort::Semicolon)
}

/// What stands between parentheses behind the word, and `;`.
#[tactic(auto, unfolding(crate::specs::Productions::parens_after))]
fn parens_after(cursor: &mut Cursor<'_>, word: Name) -> Result<SimpleStmt, Stop>
    ensures { IsFound result cursor.new (parens_after word cursor.old) }
{
    cursor.mark(Sort::ParenOpen)?;
    let inside = inside(cursor, word)?;
    let done = call_closed(cursor);
    behind(done, inside)
}

/// What can stand behind a name: here a call, what asks for something, and a variable are told apart.
#[tactic(auto, unfolding(crate::specs::Productions::plain_after))]
pub fn plain_after(cursor: &mut Cursor<'_>, first: Name) -> Result<SimpleStmt, Stop>
    ensures { IsFound result cursor.new (plain_after first cursor.old) }
{
    if cursor.is_at(Sort::ParenOpen) {
        return parens_after(cursor, first);
    }
    if cursor.is_at(Sort::Point) {
        return Ok(SimpleStmt::Call(dotted_after(cursor, first)?));
    }
    Ok(SimpleStmt::Variable(variable_after(cursor, first)?))
}

#[tactic(auto, unfolding(crate::specs::Productions::plain_named))]
fn plain_named(cursor: &mut Cursor<'_>) -> Result<SimpleStmt, Stop>
    ensures { IsFound result cursor.new (plain_named cursor.old) }
{
    let first = name(cursor)?;
    plain_after(cursor, first)
}

/// `Var | Call | Ask`
#[tactic(auto, unfolding(crate::specs::Productions::plain))]
pub fn plain(cursor: &mut Cursor<'_>) -> Result<SimpleStmt, Stop>
    ensures { IsFound result cursor.new (plain cursor.old) }
{
    if cursor.is_at(Sort::Name) {
        return plain_named(cursor);
    }
    Ok(SimpleStmt::Variable(variable(cursor)?))
}
