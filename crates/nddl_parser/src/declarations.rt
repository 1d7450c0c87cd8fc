//! Declarations.

ghost use Rattle.std.specs.Prelude.{◌≡◌};
ghost use Rattle.nddl_grammar.specs.declared.sort.Sort.TheVariants as sorts;
ghost use Rattle.nddl_grammar.specs.Readers.{many, mark, may_mark, sequence, IsFound};
ghost use Rattle.nddl_grammar.specs.Productions.{init};
ghost use Rattle.nddl_parser.specs.Grammar.{most_nested};
ghost use Rattle.nddl_parser.specs.Productions.{body_of, sets_behind, constructor_parts, enum_members, class_parts, rule_parts, part_after, part_named, part, field_set, super_set, set_item, begins_set, predicate, constructor_after, member_after, member_named, member, begins_member, file, include, enumeration, typedef, parent, class_body, class_after, class, rule_after, decl_of, decl_after, decl_named, decl, begins_decl, text};

use eu_name::bytes::Bytes;
use eu_name::sequence::Sequence;
use eu_name::word::Reserved;
use nddl_ast::declaration::{Decl, Member, PredicatePart, Set, Typed};
use nddl_ast::expression::Init;
use nddl_ast::name::Name;
use nddl_ast::statement::StmtBlock;
use nddl_grammar::blocks::block;
use nddl_grammar::cursor::{Cursor, Stop};
use nddl_grammar::expressions::{Names, init, name};
use nddl_grammar::joining::{behind, joined};
use nddl_grammar::list;
use nddl_grammar::list::Item;
use nddl_grammar::sort::Sort;
use nddl_grammar::statements::{
    SimpleStmt, call_after, call_end, dotted_after, plain_after, variable,
};
use nddl_grammar::types::{Formals, begins_type, field, field_after, named_end, type_of};

/// How deep blocks may be nested.
pub const MOST_NESTED: u8 = 16;

// What can stand in a predicate behind a name.
#[tactic(auto, unfolding(crate::specs::Productions::part_after))]
fn part_after(cursor: &mut Cursor<'_>, first: Name) -> Result<PredicatePart, Stop>
    ensures { IsFound result cursor.new (part_after first cursor.old) }
{
    if cursor.is_at(Sort::ParenOpen) {
        return Ok(PredicatePart::Constraint(call_after(cursor, first)?));
    }
    if cursor.is_at(Sort::Point) {
        return Ok(PredicatePart::Constraint(dotted_after(cursor, first)?));
    }
    Ok(PredicatePart::Parameter(field_after(cursor, first)?))
}

#[tactic(auto, unfolding(crate::specs::Productions::part_named))]
fn part_named(cursor: &mut Cursor<'_>) -> Result<PredicatePart, Stop>
    ensures { IsFound result cursor.new (part_named cursor.old) }
{
    let first = name(cursor)?;
    part_after(cursor, first)
}

/// `Type Name ";" | Call`
#[tactic(auto, unfolding(crate::specs::Productions::part))]
fn part(cursor: &mut Cursor<'_>) -> Result<PredicatePart, Stop>
    ensures { IsFound result cursor.new (part cursor.old) }
{
    if cursor.is_at(Sort::Name) {
        return part_named(cursor);
    }
    Ok(PredicatePart::Parameter(field(cursor)?))
}

// What stands in a predicate, one part after another.
struct Parts;

impl Item for Parts {
    type Tree = PredicatePart;

    ghost use Rattle.nddl_grammar.specs.Productions.{begins_type};
    ghost use Rattle.nddl_parser.specs.Productions.{part};

    ghost first = { begins_type };

    ghost reader = { part };

    fn is_first(sort: Sort) -> bool {
        begins_type(sort)
    }

    fn read(cursor: &mut Cursor<'_>) -> Result<PredicatePart, Stop> {
        part(cursor)
    }
}

// `"=" Init ";"`
fn assigned(cursor: &mut Cursor<'_>) -> Result<((), (Init, ())), Stop>
    ensures { IsFound result cursor.new (sequence (mark sorts.Assign) (sequence init (mark sorts.Semicolon)) cursor.old) }
{
    cursor.mark(Sort::Assign)?;
    let value = init(cursor)?;
    let done = cursor.mark(Sort::Semicolon);
    let value = joined(value, done)?;
    Ok(((), value))
}

/// `Name "=" Init ";"`
#[tactic(auto, unfolding(crate::specs::Productions::field_set))]
fn field_set(cursor: &mut Cursor<'_>) -> Result<Set, Stop>
    ensures { IsFound result cursor.new (field_set cursor.old) }
{
    let name = name(cursor)?;
    let rest = assigned(cursor);
    let (name, ((), (value, ()))) = joined(name, rest)?;
    Ok(Set::Field { name, value })
}

/// `"super" "(" [ Args ] ")" ";"`
#[tactic(auto, unfolding(crate::specs::Productions::super_set))]
fn super_set(cursor: &mut Cursor<'_>) -> Result<Set, Stop>
    ensures { IsFound result cursor.new (super_set cursor.old) }
{
    let at = cursor.mark_place(Sort::Word(Reserved::Super))?;
    let arguments = call_end(cursor)?;
    Ok(Set::Super { at, arguments })
}

/// `Name "=" Init ";" | "super" "(" [ Args ] ")" ";"`
#[tactic(auto, unfolding(crate::specs::Productions::set_item))]
fn set_item(cursor: &mut Cursor<'_>) -> Result<Set, Stop>
    ensures { IsFound result cursor.new (set_item cursor.old) }
{
    if cursor.is_at(Sort::Word(Reserved::Super)) {
        return super_set(cursor);
    }
    field_set(cursor)
}

// What stands in a constructor, one setting after another.
struct Sets;

impl Item for Sets {
    type Tree = Set;

    ghost use Rattle.nddl_parser.specs.Productions.{begins_set, set_item};

    ghost first = { begins_set };

    ghost reader = { set_item };

    fn is_first(sort: Sort) -> bool {
        match sort {
            Sort::Name | Sort::Word(Reserved::Super) => true,
            _ => false,
        }
    }

    fn read(cursor: &mut Cursor<'_>) -> Result<Set, Stop> {
        set_item(cursor)
    }
}

// `"}" [";"]`
fn body_end(cursor: &mut Cursor<'_>) -> Result<((), ()), Stop>
    ensures { IsFound result cursor.new (sequence (mark sorts.BraceClose) (may_mark sorts.Semicolon) cursor.old) }
{
    cursor.mark(Sort::BraceClose)?;
    cursor.may_mark(Sort::Semicolon)?;
    Ok(((), ()))
}

// Items between braces, and perhaps a semicolon.
fn body<T: Item>(cursor: &mut Cursor<'_>) -> Result<((), (Sequence<T::Tree>, ((), ()))), Stop>
    ensures { IsFound result cursor.new (body_of (many T.first T.reader) cursor.old) }
{
    cursor.mark(Sort::BraceOpen)?;
    let items = list::many::<T>(cursor)?;
    let done = body_end(cursor);
    let items = joined(items, done)?;
    Ok(((), items))
}

/// `"predicate" Name "{" { Type Name ";" | Call } "}" [";"]`
#[tactic(auto, unfolding(crate::specs::Productions::predicate))]
fn predicate(cursor: &mut Cursor<'_>) -> Result<Member, Stop>
    ensures { IsFound result cursor.new (predicate cursor.old) }
{
    let at = cursor.mark_place(Sort::Word(Reserved::Predicate))?;
    let name = name(cursor)?;
    let rest = body::<Parts>(cursor);
    let (name, ((), (parts, ((), ())))) = joined(name, rest)?;
    Ok(Member::Predicate { at, name, parts })
}

// `")" "{" { Set } "}"`
fn sets_behind(cursor: &mut Cursor<'_>) -> Result<((), ((), (Sequence<Set>, ()))), Stop>
    ensures { IsFound result cursor.new (sets_behind cursor.old) }
{
    cursor.mark(Sort::ParenClose)?;
    cursor.mark(Sort::BraceOpen)?;
    let sets = list::many::<Sets>(cursor)?;
    let done = cursor.mark(Sort::BraceClose);
    let sets = joined(sets, done)?;
    Ok(((), ((), sets)))
}

// Formals between parentheses, and sets between braces.
fn constructor_parts(
    cursor: &mut Cursor<'_>,
) -> Result<((), (Sequence<Typed>, ((), ((), (Sequence<Set>, ()))))), Stop>
    ensures { IsFound result cursor.new (constructor_parts cursor.old) }
{
    cursor.mark(Sort::ParenOpen)?;
    let formals = list::listed::<Formals>(cursor, Sort::Comma)?;
    let rest = sets_behind(cursor);
    let parts = joined(formals, rest)?;
    Ok(((), parts))
}

/// `Name "(" [ Type Name { "," Type Name } ] ")" "{" { Set } "}"`, behind the name.
#[tactic(auto, unfolding(crate::specs::Productions::constructor_after))]
fn constructor_after(cursor: &mut Cursor<'_>, first: Name) -> Result<Member, Stop>
    ensures { IsFound result cursor.new (constructor_after first cursor.old) }
{
    let parts = constructor_parts(cursor);
    let (name, ((), (formals, ((), ((), (sets, ())))))) = joined(first, parts)?;
    Ok(Member::Constructor {
        name,
        formals,
        sets,
    })
}

// What can stand in a class behind a name: here a constructor and a field are told apart.
#[tactic(auto, unfolding(crate::specs::Productions::member_after))]
fn member_after(cursor: &mut Cursor<'_>, first: Name) -> Result<Member, Stop>
    ensures { IsFound result cursor.new (member_after first cursor.old) }
{
    if cursor.is_at(Sort::ParenOpen) {
        return constructor_after(cursor, first);
    }
    Ok(Member::Field(field_after(cursor, first)?))
}

#[tactic(auto, unfolding(crate::specs::Productions::member_named))]
fn member_named(cursor: &mut Cursor<'_>) -> Result<Member, Stop>
    ensures { IsFound result cursor.new (member_named cursor.old) }
{
    let first = name(cursor)?;
    member_after(cursor, first)
}

/// A field, a predicate or a constructor.
#[tactic(auto, unfolding(crate::specs::Productions::member))]
fn member(cursor: &mut Cursor<'_>) -> Result<Member, Stop>
    ensures { IsFound result cursor.new (member cursor.old) }
{
    if cursor.is_at(Sort::Word(Reserved::Predicate)) {
        return predicate(cursor);
    }
    if cursor.is_at(Sort::Name) {
        return member_named(cursor);
    }
    Ok(Member::Field(field(cursor)?))
}

// What stands in a class, one member after another.
struct Members;

impl Item for Members {
    type Tree = Member;

    ghost use Rattle.nddl_parser.specs.Productions.{begins_member, member};

    ghost first = { begins_member };

    ghost reader = { member };

    fn is_first(sort: Sort) -> bool {
        match sort {
            Sort::Word(Reserved::Predicate) => true,
            _ => begins_type(sort),
        }
    }

    fn read(cursor: &mut Cursor<'_>) -> Result<Member, Stop> {
        member(cursor)
    }
}

// Bytes between quotes, and where the quotes begin.
#[tactic(auto, unfolding(crate::specs::Productions::file))]
fn file(cursor: &mut Cursor<'_>) -> Result<(Bytes, u32), Stop>
    ensures { IsFound result cursor.new (file cursor.old) }
{
    let symbol = cursor.take(Sort::Quoted)?;
    let bytes = symbol.bytes(cursor.allocator())?;
    Ok((bytes, symbol.at()))
}

/// `Include Str [";"]`
#[tactic(auto, unfolding(crate::specs::Productions::include))]
fn include(cursor: &mut Cursor<'_>) -> Result<Decl, Stop>
    ensures { IsFound result cursor.new (include cursor.old) }
{
    let at = cursor.mark_place(Sort::Include)?;
    let file = file(cursor)?;
    let done = cursor.may_mark(Sort::Semicolon);
    let (file, file_at) = behind(done, file)?;
    Ok(Decl::Include { at, file, file_at })
}

// `"{" Name { "," Name } "}" [";"]`
fn enum_members(cursor: &mut Cursor<'_>) -> Result<(u32, (Sequence<Name>, ((), ()))), Stop>
    ensures { IsFound result cursor.new (enum_members cursor.old) }
{
    let at = cursor.mark_place(Sort::BraceOpen)?;
    let members = list::separated::<Names>(cursor, Sort::Comma)?;
    let done = body_end(cursor);
    let members = joined(members, done)?;
    Ok((at, members))
}

/// `"enum" Name "{" Name { "," Name } "}" [";"]`
#[tactic(auto, unfolding(crate::specs::Productions::enumeration))]
fn enumeration(cursor: &mut Cursor<'_>) -> Result<Decl, Stop>
    ensures { IsFound result cursor.new (enumeration cursor.old) }
{
    let at = cursor.mark_place(Sort::Word(Reserved::Enum))?;
    let name = name(cursor)?;
    let rest = enum_members(cursor);
    let (name, (members_at, (members, ((), ())))) = joined(name, rest)?;
    Ok(Decl::Enum {
        at,
        name,
        members_at,
        members,
    })
}

/// `"typedef" Type Name ";"`
#[tactic(auto, unfolding(crate::specs::Productions::typedef))]
fn typedef(cursor: &mut Cursor<'_>) -> Result<Decl, Stop>
    ensures { IsFound result cursor.new (typedef cursor.old) }
{
    let at = cursor.mark_place(Sort::Word(Reserved::Typedef))?;
    let declared = type_of(cursor)?;
    let rest = named_end(cursor);
    let (declared, (name, ())) = joined(declared, rest)?;
    Ok(Decl::Typedef { at, declared, name })
}

/// `[ "extends" Name ]`
#[tactic(auto, unfolding(crate::specs::Productions::parent))]
fn parent(cursor: &mut Cursor<'_>) -> Result<Option<Name>, Stop>
    ensures { IsFound result cursor.new (parent cursor.old) }
{
    if cursor.is_at(Sort::Word(Reserved::Extends)) {
        cursor.mark(Sort::Word(Reserved::Extends))?;
        return Ok(Some(name(cursor)?));
    }
    Ok(None)
}

// `["extends" Name] "{" { Member } "}" [";"]`
fn class_parts(
    cursor: &mut Cursor<'_>,
) -> Result<(Option<Name>, ((), (Sequence<Member>, ((), ())))), Stop>
    ensures { IsFound result cursor.new (class_parts cursor.old) }
{
    let parent = parent(cursor)?;
    let rest = body::<Members>(cursor);
    joined(parent, rest)
}

/// The declaration of a class, behind its name.
#[tactic(auto, unfolding(crate::specs::Productions::class_body))]
fn class_body(cursor: &mut Cursor<'_>, at: u32, name: Name) -> Result<Decl, Stop>
    ensures { IsFound result cursor.new (class_body at name cursor.old) }
{
    let parts = class_parts(cursor);
    let (name, (parent, ((), (members, ((), ()))))) = joined(name, parts)?;
    Ok(Decl::Class {
        at,
        name,
        parent,
        members,
    })
}

// What stands behind the name of a class: here one that is only named is told from one with a body.
#[tactic(auto, unfolding(crate::specs::Productions::class_after))]
fn class_after(cursor: &mut Cursor<'_>, at: u32, name: Name) -> Result<Decl, Stop>
    ensures { IsFound result cursor.new (class_after at name cursor.old) }
{
    if cursor.is_at(Sort::Semicolon) {
        let done = cursor.mark(Sort::Semicolon);
        let name = behind(done, name)?;
        return Ok(Decl::Forward { at, name });
    }
    class_body(cursor, at, name)
}

/// `"class" Name ";" | "class" Name ["extends" Name] "{" { Member } "}" [";"]`
#[tactic(auto, unfolding(crate::specs::Productions::class))]
fn class(cursor: &mut Cursor<'_>) -> Result<Decl, Stop>
    ensures { IsFound result cursor.new (class cursor.old) }
{
    let at = cursor.mark_place(Sort::Word(Reserved::Class))?;
    let name = name(cursor)?;
    class_after(cursor, at, name)
}

// `"::" Name Block`
fn rule_parts(cursor: &mut Cursor<'_>) -> Result<((), (Name, StmtBlock)), Stop>
    ensures { IsFound result cursor.new (rule_parts most_nested cursor.old) }
{
    cursor.mark(Sort::DoubleColon)?;
    let predicate = name(cursor)?;
    let body = block(cursor, MOST_NESTED);
    let parts = joined(predicate, body)?;
    Ok(((), parts))
}

/// `Name "::" Name Block`, behind the first name.
#[tactic(auto, unfolding(crate::specs::Productions::rule_after))]
fn rule_after(cursor: &mut Cursor<'_>, first: Name) -> Result<Decl, Stop>
    ensures { IsFound result cursor.new (rule_after most_nested first cursor.old) }
{
    let parts = rule_parts(cursor);
    let (class, ((), (predicate, body))) = joined(first, parts)?;
    Ok(Decl::Rule {
        class,
        predicate,
        body,
    })
}

fn decl_of(simple: SimpleStmt) -> Decl
    ensures { result ≡ decl_of simple }
{
    match simple {
        SimpleStmt::Variable(variable) => Decl::Variable(variable),
        SimpleStmt::Call(call) => Decl::Call(call),
        SimpleStmt::Ask(ask) => Decl::Ask(ask),
    }
}

// What can stand in a file behind a name: here rules are told from the rest.
#[tactic(auto, unfolding(crate::specs::Productions::decl_after))]
fn decl_after(cursor: &mut Cursor<'_>, first: Name) -> Result<Decl, Stop>
    ensures { IsFound result cursor.new (decl_after most_nested first cursor.old) }
{
    if cursor.is_at(Sort::DoubleColon) {
        return rule_after(cursor, first);
    }
    Ok(decl_of(plain_after(cursor, first)?))
}

#[tactic(auto, unfolding(crate::specs::Productions::decl_named))]
fn decl_named(cursor: &mut Cursor<'_>) -> Result<Decl, Stop>
    ensures { IsFound result cursor.new (decl_named most_nested cursor.old) }
{
    let first = name(cursor)?;
    decl_after(cursor, first)
}

/// A declaration.
#[tactic(auto, unfolding(crate::specs::Productions::decl))]
fn decl(cursor: &mut Cursor<'_>) -> Result<Decl, Stop>
    ensures { IsFound result cursor.new (decl most_nested cursor.old) }
{
    if cursor.is_at(Sort::Include) {
        return include(cursor);
    }
    if cursor.is_at(Sort::Word(Reserved::Enum)) {
        return enumeration(cursor);
    }
    if cursor.is_at(Sort::Word(Reserved::Typedef)) {
        return typedef(cursor);
    }
    if cursor.is_at(Sort::Word(Reserved::Class)) {
        return class(cursor);
    }
    if cursor.is_at(Sort::Name) {
        return decl_named(cursor);
    }
    Ok(Decl::Variable(variable(cursor)?))
}

// Declarations, one after another.
struct Declarations;

impl Item for Declarations {
    type Tree = Decl;

    ghost use Rattle.nddl_parser.specs.Grammar.{most_nested};
    ghost use Rattle.nddl_parser.specs.Productions.{begins_decl, decl};

    ghost first = { begins_decl };

    ghost reader = { decl most_nested };

    fn is_first(sort: Sort) -> bool {
        match sort {
            Sort::Include
            | Sort::Word(Reserved::Enum)
            | Sort::Word(Reserved::Typedef)
            | Sort::Word(Reserved::Class) => true,
            _ => begins_type(sort),
        }
    }

    fn read(cursor: &mut Cursor<'_>) -> Result<Decl, Stop> {
        decl(cursor)
    }
}

/// `{ Decl }`
#[tactic(auto, unfolding(crate::specs::Productions::text))]
pub fn text(cursor: &mut Cursor<'_>) -> Result<Sequence<Decl>, Stop>
    ensures { IsFound result cursor.new (text most_nested cursor.old) }
{
    list::many::<Declarations>(cursor)
}
