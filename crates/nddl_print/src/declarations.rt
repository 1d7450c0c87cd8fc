//! Declarations and their parts.

ghost use Rattle.std.specs.Prelude.{◌≡◌, ◌++◌, ◌∷◌, [], OnOk};
ghost use Rattle.eu_name.specs.declared.word.Reserved.TheVariants as keywords;
ghost use Rattle.nddl_grammar.specs.declared.sort.Sort.TheVariants as sorts;
ghost use Rattle.nddl_print.specs.Words.{spaced, Quoted};
ghost use Rattle.nddl_print.specs.Canonical.{◌⌢◌, block_words, braced, decl_words, fixed, listed_words, name_words, type_words, formal_words, many_words, member_words, parent_words, part_words, set_words};

use super::expressions::{print_arguments, print_braced};
use super::line::Lines;
use super::lists::{Print, print_listed, print_many};
use eu_name::bytes::Bytes;
use eu_name::word::Reserved;
use nddl_ast::declaration::{Decl, Member, PredicatePart, Set, Typed};
use nddl_ast::expression::Type;
use nddl_ast::name::Name;
use nddl_ast::statement::StmtBlock;
use nddl_grammar::sort::Sort;
use std::alloc::AllocError;

impl Print for PredicatePart {
    ghost words = { part_words };

    fn print(&self, lines: &mut Lines) -> Result<(), AllocError> {
        match self {
            PredicatePart::Parameter(typed) => {
                typed.print(lines)?;
                lines.fixed(Sort::Semicolon)
            }
            PredicatePart::Constraint(call) => call.print(lines),
        }
    }
}

impl Print for Set {
    ghost words = { set_words };

    fn print(&self, lines: &mut Lines) -> Result<(), AllocError> {
        match self {
            Set::Field { name, value } => {
                name.print(lines)?;
                lines.fixed(Sort::Assign)?;
                value.print(lines)?;
                lines.fixed(Sort::Semicolon)
            }
            Set::Super { arguments, .. } => {
                lines.fixed(Sort::Word(Reserved::Super))?;
                print_arguments(arguments.as_slice(), lines)?;
                lines.fixed(Sort::Semicolon)
            }
        }
    }
}

// Items between braces, one after another.
fn print_body<T: Print>(items: &[T], lines: &mut Lines) -> Result<(), AllocError>
    ensures { OnOk result (lines.new ≡ lines.old ++ spaced (braced (many_words T.words items.now))) }
{
    lines.fixed(Sort::BraceOpen)?;
    print_many(items, lines)?;
    lines.fixed(Sort::BraceClose)
}

// Formals between parentheses.
fn print_formals(formals: &[Typed], lines: &mut Lines) -> Result<(), AllocError>
    ensures { OnOk result (lines.new ≡ lines.old ++ spaced (formal_words formals.now)) }
{
    lines.fixed(Sort::ParenOpen)?;
    print_listed(formals, lines)?;
    lines.fixed(Sort::ParenClose)
}

// A constructor.
fn print_constructor(
    name: &Name,
    formals: &[Typed],
    sets: &[Set],
    lines: &mut Lines,
) -> Result<(), AllocError>
    ensures { OnOk result (lines.new ≡ lines.old
        ++ spaced (name_words name.now ⌢ formal_words formals.now ⌢ braced (many_words set_words sets.now))) }
{
    name.print(lines)?;
    print_formals(formals, lines)?;
    print_body(sets, lines)
}

impl Print for Member {
    ghost words = { member_words };

    fn print(&self, lines: &mut Lines) -> Result<(), AllocError> {
        match self {
            Member::Field(typed) => {
                typed.print(lines)?;
                lines.fixed(Sort::Semicolon)
            }
            Member::Predicate { name, parts, .. } => {
                lines.fixed(Sort::Word(Reserved::Predicate))?;
                name.print(lines)?;
                print_body(parts.as_slice(), lines)
            }
            Member::Constructor {
                name,
                formals,
                sets,
            } => print_constructor(name, formals.as_slice(), sets.as_slice(), lines),
        }
    }
}

// `extends` and the parent, if there is one.
fn print_parent(parent: &Option<Name>, lines: &mut Lines) -> Result<(), AllocError>
    ensures { OnOk result (lines.new ≡ lines.old ++ spaced (parent_words parent.now)) }
{
    match parent {
        None => Ok(()),
        Some(name) => {
            lines.fixed(Sort::Word(Reserved::Extends))?;
            name.print(lines)
        }
    }
}

// `#include` and the file.
fn print_include(file: &Bytes, lines: &mut Lines) -> Result<(), AllocError>
    ensures { OnOk result (lines.new ≡ lines.old ++ spaced (fixed sorts.Include ⌢ (Quoted file.now ∷ []))) }
{
    lines.fixed(Sort::Include)?;
    lines.quoted(file.as_slice())
}

// `enum`, its name and its members.
fn print_enum(name: &Name, members: &[Name], lines: &mut Lines) -> Result<(), AllocError>
    ensures { OnOk result (lines.new ≡ lines.old
        ++ spaced (fixed (sorts.Word keywords.Enum) ⌢ name_words name.now ⌢ braced (listed_words name_words members.now))) }
{
    lines.fixed(Sort::Word(Reserved::Enum))?;
    name.print(lines)?;
    print_braced(members, lines)
}

// `typedef`, the type and its name.
fn print_typedef(declared: &Type, name: &Name, lines: &mut Lines) -> Result<(), AllocError>
    ensures { OnOk result (lines.new ≡ lines.old
        ++ spaced (fixed (sorts.Word keywords.Typedef) ⌢ type_words declared.now ⌢ name_words name.now ⌢ fixed sorts.Semicolon)) }
{
    lines.fixed(Sort::Word(Reserved::Typedef))?;
    declared.print(lines)?;
    name.print(lines)?;
    lines.fixed(Sort::Semicolon)
}

// A class that is only named.
fn print_forward(name: &Name, lines: &mut Lines) -> Result<(), AllocError>
    ensures { OnOk result (lines.new ≡ lines.old
        ++ spaced (fixed (sorts.Word keywords.Class) ⌢ name_words name.now ⌢ fixed sorts.Semicolon)) }
{
    lines.fixed(Sort::Word(Reserved::Class))?;
    name.print(lines)?;
    lines.fixed(Sort::Semicolon)
}

// A class with its members.
fn print_class(
    name: &Name,
    parent: &Option<Name>,
    members: &[Member],
    lines: &mut Lines,
) -> Result<(), AllocError>
    ensures { OnOk result (lines.new ≡ lines.old
        ++ spaced (fixed (sorts.Word keywords.Class) ⌢ name_words name.now ⌢ parent_words parent.now
        ⌢ braced (many_words member_words members.now))) }
{
    lines.fixed(Sort::Word(Reserved::Class))?;
    name.print(lines)?;
    print_parent(parent, lines)?;
    print_body(members, lines)
}

// A rule.
fn print_rule(
    class: &Name,
    predicate: &Name,
    body: &StmtBlock,
    lines: &mut Lines,
) -> Result<(), AllocError>
    ensures { OnOk result (lines.new ≡ lines.old
        ++ spaced (name_words class.now ⌢ fixed sorts.DoubleColon ⌢ name_words predicate.now ⌢ block_words body.now)) }
{
    class.print(lines)?;
    lines.fixed(Sort::DoubleColon)?;
    predicate.print(lines)?;
    body.print(lines)
}

impl Print for Decl {
    ghost words = { decl_words };

    fn print(&self, lines: &mut Lines) -> Result<(), AllocError> {
        match self {
            Decl::Include { file, .. } => print_include(file, lines),
            Decl::Enum { name, members, .. } => print_enum(name, members.as_slice(), lines),
            Decl::Typedef { declared, name, .. } => print_typedef(declared, name, lines),
            Decl::Forward { name, .. } => print_forward(name, lines),
            Decl::Class {
                name,
                parent,
                members,
                ..
            } => print_class(name, parent, members.as_slice(), lines),
            Decl::Rule {
                class,
                predicate,
                body,
            } => print_rule(class, predicate, body, lines),
            Decl::Variable(variable) => variable.print(lines),
            Decl::Call(call) => call.print(lines),
            Decl::Ask(ask) => ask.print(lines),
        }
    }
}
