//! Types, and the names that are declared with them.

ghost use Rattle.std.specs.Prelude.{◌≡◌};
ghost use Rattle.nddl_grammar.specs.Readers.{sequence, mark, may_mark, IsFound};
ghost use Rattle.nddl_grammar.specs.declared.sort.Sort.TheVariants as sorts;
ghost use Rattle.nddl_grammar.specs.Productions.{name, value, base_behind, base, range, set, bounds, begins_type, type_of, type_named, typed, field, field_after};

use super::expressions::{Values, name, value};
use super::list;
use super::list::Item;
use crate::cursor::{Cursor, Stop};
use crate::joining::{behind, joined};
use crate::sort::Sort;
use eu_name::word::Reserved;
use nddl_ast::declaration::Typed;
use nddl_ast::expression::{BaseType, Bounds, Type, Value};
use nddl_ast::name::Name;

/// `"string" | Name`, at its place.
fn base_behind(cursor: &mut Cursor<'_>) -> Result<(u32, BaseType), Stop>
    ensures { IsFound result cursor.new (base_behind cursor.old) }
{
    if cursor.is_at(Sort::Word(Reserved::Str)) {
        return Ok((cursor.mark_place(Sort::Word(Reserved::Str))?, BaseType::Str));
    }
    let name = name(cursor)?;
    Ok((name.at, BaseType::Named(name)))
}

/// `"int" | "float" | "bool" | "string" | Name`, at its place.
#[tactic(auto, unfolding(crate::specs::Productions::base))]
fn base(cursor: &mut Cursor<'_>) -> Result<(u32, BaseType), Stop>
    ensures { IsFound result cursor.new (base cursor.old) }
{
    if cursor.is_at(Sort::Word(Reserved::Int)) {
        return Ok((cursor.mark_place(Sort::Word(Reserved::Int))?, BaseType::Int));
    }
    if cursor.is_at(Sort::Word(Reserved::Float)) {
        return Ok((
            cursor.mark_place(Sort::Word(Reserved::Float))?,
            BaseType::Float,
        ));
    }
    if cursor.is_at(Sort::Word(Reserved::Bool)) {
        return Ok((
            cursor.mark_place(Sort::Word(Reserved::Bool))?,
            BaseType::Bool,
        ));
    }
    base_behind(cursor)
}

/// `[","] Lit "]"`
fn range_end(cursor: &mut Cursor<'_>) -> Result<((), (Value, ())), Stop>
    ensures { IsFound result cursor.new
        (sequence (may_mark sorts.Comma) (sequence value (mark sorts.BracketClose)) cursor.old) }
{
    cursor.may_mark(Sort::Comma)?;
    let greatest = value(cursor)?;
    let done = cursor.mark(Sort::BracketClose);
    let greatest = joined(greatest, done)?;
    Ok(((), greatest))
}

/// `"[" Lit [","] Lit "]"`
#[tactic(auto, unfolding(crate::specs::Productions::range))]
fn range(cursor: &mut Cursor<'_>) -> Result<Bounds, Stop>
    ensures { IsFound result cursor.new (range cursor.old) }
{
    let at = cursor.mark_place(Sort::BracketOpen)?;
    let least = value(cursor)?;
    let rest = range_end(cursor);
    let (least, ((), (greatest, ()))) = joined(least, rest)?;
    Ok(Bounds::Range {
        at,
        least,
        greatest,
    })
}

/// `"{" Lit { "," Lit } "}"`
#[tactic(auto, unfolding(crate::specs::Productions::set))]
fn set(cursor: &mut Cursor<'_>) -> Result<Bounds, Stop>
    ensures { IsFound result cursor.new (set cursor.old) }
{
    let at = cursor.mark_place(Sort::BraceOpen)?;
    let values = list::separated::<Values>(cursor, Sort::Comma)?;
    let done = cursor.mark(Sort::BraceClose);
    let values = behind(done, values)?;
    Ok(Bounds::Set { at, values })
}

/// A range, a set, or nothing.
#[tactic(auto, unfolding(crate::specs::Productions::bounds))]
pub fn bounds(cursor: &mut Cursor<'_>) -> Result<Bounds, Stop>
    ensures { IsFound result cursor.new (bounds cursor.old) }
{
    if cursor.is_at(Sort::BracketOpen) {
        return range(cursor);
    }
    if cursor.is_at(Sort::BraceOpen) {
        return set(cursor);
    }
    Ok(Bounds::All)
}

/// `Base [ "[" Lit [","] Lit "]" | "{" Lit { "," Lit } "}" ]`
#[tactic(auto, unfolding(crate::specs::Productions::type_of))]
pub fn type_of(cursor: &mut Cursor<'_>) -> Result<Type, Stop>
    ensures { IsFound result cursor.new (type_of cursor.old) }
{
    let base = base(cursor)?;
    let bounds = bounds(cursor);
    let ((at, base), bounds) = joined(base, bounds)?;
    Ok(Type { at, base, bounds })
}

/// The type that begins with the name.
pub fn type_named(first: Name, bounds: Bounds) -> Type
    ensures { result ≡ type_named first bounds }
{
    Type {
        at: first.at,
        base: BaseType::Named(first),
        bounds,
    }
}

/// Whether a type can begin with a symbol of the sort.
pub fn begins_type(sort: Sort) -> bool
    ensures { result ≡ begins_type sort }
{
    match sort {
        Sort::Name
        | Sort::Word(Reserved::Int)
        | Sort::Word(Reserved::Float)
        | Sort::Word(Reserved::Bool)
        | Sort::Word(Reserved::Str) => true,
        _ => false,
    }
}

/// `Type Name`
#[tactic(auto, unfolding(crate::specs::Productions::typed))]
fn typed(cursor: &mut Cursor<'_>) -> Result<Typed, Stop>
    ensures { IsFound result cursor.new (typed cursor.old) }
{
    let declared = type_of(cursor)?;
    let name = name(cursor);
    let (declared, name) = joined(declared, name)?;
    Ok(Typed { declared, name })
}

/// Types with names, one after another.
pub struct Formals;

impl Item for Formals {
    type Tree = Typed;

    ghost use Rattle.nddl_grammar.specs.Productions.{begins_type, typed};

    ghost first = { begins_type };

    ghost reader = { typed };

    fn is_first(sort: Sort) -> bool {
        begins_type(sort)
    }

    fn read(cursor: &mut Cursor<'_>) -> Result<Typed, Stop> {
        typed(cursor)
    }
}

/// `Type Name ";"`
#[tactic(auto, unfolding(crate::specs::Productions::field))]
pub fn field(cursor: &mut Cursor<'_>) -> Result<Typed, Stop>
    ensures { IsFound result cursor.new (field cursor.old) }
{
    let typed = typed(cursor)?;
    let done = cursor.mark(Sort::Semicolon);
    behind(done, typed)
}

/// `Name ";"`
pub fn named_end(cursor: &mut Cursor<'_>) -> Result<(Name, ()), Stop>
    ensures { IsFound result cursor.new (sequence name (mark sorts.Semicolon) cursor.old) }
{
    let name = name(cursor)?;
    let done = cursor.mark(Sort::Semicolon);
    joined(name, done)
}

// What the bounds of a type are, and the same.
fn bounded_name(cursor: &mut Cursor<'_>) -> Result<(Bounds, (Name, ())), Stop>
    ensures { IsFound result cursor.new (sequence bounds (sequence name (mark sorts.Semicolon)) cursor.old) }
{
    let bounds = bounds(cursor)?;
    let rest = named_end(cursor);
    joined(bounds, rest)
}

/// `Type Name ";"` behind the name with which the type begins.
#[tactic(auto, unfolding(crate::specs::Productions::field_after))]
pub fn field_after(cursor: &mut Cursor<'_>, first: Name) -> Result<Typed, Stop>
    ensures { IsFound result cursor.new (field_after first cursor.old) }
{
    let rest = bounded_name(cursor);
    let (first, (bounds, (name, ()))) = joined(first, rest)?;
    Ok(Typed {
        declared: type_named(first, bounds),
        name,
    })
}
