//! The names that declarations give to the scope of the files.

ghost use Rattle.std.specs.Prelude.{◌≡◌, ◌+◌, ◌++◌, ◌∷◌, [], IfOk, OnOk, map};
ghost use Rattle.nddl_symbols.specs.Names.{declared_as, declared_members, enums_in_decl, is_body_sort, is_class_sort, is_config_sort, is_config_type, is_posting_word, is_unbounded, names_in_decl, scope_names, sort_of_variable};
ghost use Rattle.nddl_ast.specs.declared.declaration.Decl.TheVariants as decls;

use super::builtin::is_config;
use crate::Place;
use eu_name::sequence::Sequence;
use eu_name::text::Text;
use nddl_ast::declaration::Decl;
use nddl_ast::expression::{BaseType, Bounds, Init, Type};
use nddl_ast::name::Name;
use nddl_ast::statement::{Ask, Variable};
use std::alloc::{AllocError, Global};

/// As what a name is declared.
#[derive(Clone, Copy, Debug, PartialEq, Eq)]
pub enum Sort {
    /// An enum, with its number among those that are declared.
    Enum(u32),
    /// A member of the enum of this number, at this place in it.
    Member { of: u32, place: u32 },
    Typedef,
    /// A class that is only named.
    Forward,
    /// A class with its members.
    Body,
    Global,
    /// A variable that is made by `new`.
    Object,
    /// The label of a posted token.
    Root,
    /// The settings of a search.
    Config,
}

/// A name with the place at which it is declared.
#[derive(Drop)]
pub struct Declared {
    pub name: Text,
    pub place: Place,
    pub sort: Sort,
}

impl Sort {
    /// Whether it is a class.
    pub fn is_class(self) -> bool
        ensures { result ≡ is_class_sort self }
    {
        match self {
            Sort::Forward | Sort::Body => true,
            _ => false,
        }
    }

    /// Whether it is a class with its members.
    pub fn is_body(self) -> bool
        ensures { result ≡ is_body_sort self }
    {
        match self {
            Sort::Body => true,
            _ => false,
        }
    }

    /// Whether it is the settings of a search.
    pub fn is_config(self) -> bool
        ensures { result ≡ is_config_sort self }
    {
        match self {
            Sort::Config => true,
            _ => false,
        }
    }
}

/// All names that the declarations give to the scope, in their order.
pub fn declared_names(alloc: Global, decls: &[&Decl]) -> Result<Sequence<Declared>, AllocError>
    ensures { IfOk result (λ names. names ≡ scope_names (map (λ decl. decl.now) decls.now)) }
{
    let mut names = Sequence::new(alloc);
    let mut enums: u32 = 0;
    for (number, decl) in decls.iter().enumerate() {
        push_decl(&mut names, number, enums, *decl)?;
        enums = enums_behind(enums, *decl)?;
    }
    Ok(names)
}

// How many enums there are behind the declaration.
fn enums_behind(enums: u32, decl: &Decl) -> Result<u32, AllocError>
    ensures { IfOk result (λ behind. behind ≡ enums + enums_in_decl decl.now) }
{
    match decl {
        Decl::Enum { .. } => next_number(enums),
        _ => Ok(enums),
    }
}

// The number behind this one.
fn next_number(number: u32) -> Result<u32, AllocError>
    ensures { IfOk result (λ next. next ≡ number + 1) }
{
    if number == u32::MAX {
        return Err(AllocError);
    }
    Ok(number + 1)
}

// Puts the names that the declaration gives to the scope at the end.
fn push_decl(
    names: &mut Sequence<Declared>,
    number: usize,
    enums: u32,
    decl: &Decl,
) -> Result<(), AllocError>
    ensures { OnOk result (names.new ≡ names.old ++ names_in_decl number enums decl.now) }
{
    match decl {
        Decl::Enum { name, members, .. } => {
            push_name(names, number, name, Sort::Enum(enums))?;
            push_members(names, number, enums, members.as_slice())
        }
        Decl::Typedef { name, .. } => push_name(names, number, name, Sort::Typedef),
        Decl::Forward { name, .. } => push_name(names, number, name, Sort::Forward),
        Decl::Class { name, .. } => push_name(names, number, name, Sort::Body),
        Decl::Variable(variable) => push_name(
            names,
            number,
            &variable.name,
            variable_sort(variable),
        ),
        Decl::Ask(ask) => push_label(names, number, ask),
        Decl::Include { .. } | Decl::Rule { .. } | Decl::Call(_) => Ok(()),
    }
}

// Puts the members of the enum of this number at the end.
fn push_members(
    names: &mut Sequence<Declared>,
    decl: usize,
    of: u32,
    members: &[Name],
) -> Result<(), AllocError>
    ensures { OnOk result (names.new ≡ names.old ++ declared_members decl of 0 members.now) }
{
    let mut place: u32 = 0;
    for member in members {
        push_name(names, decl, member, Sort::Member { of, place })?;
        place = next_number(place)?;
    }
    Ok(())
}

// Puts the label at the end, if the word posts a token.
fn push_label(names: &mut Sequence<Declared>, number: usize, ask: &Ask) -> Result<(), AllocError>
    ensures { OnOk result (names.new ≡ names.old ++ names_in_decl number 0 (decls.Ask ask.now)) }
{
    if is_posting(ask.word.text.as_str()) {
        push_name(names, number, &ask.label, Sort::Root)
    } else {
        Ok(())
    }
}

fn push_name(
    names: &mut Sequence<Declared>,
    decl: usize,
    name: &Name,
    sort: Sort,
) -> Result<(), AllocError>
    ensures { OnOk result (names.new ≡ names.old ++ declared_as decl name.now sort ∷ []) }
{
    names.push(Declared {
        name: name.text.copy()?,
        place: Place { decl, at: name.at },
        sort,
    })
}

/// Whether the word posts a token.
pub fn is_posting(word: &str) -> bool
    ensures { result ≡ is_posting_word word.now }
{
    word == "goal" || (word == "rejectable" || word == "fact")
}

/// What the variable of a declaration is.
pub fn variable_sort(variable: &Variable) -> Sort
    ensures { result ≡ sort_of_variable variable.now }
{
    match &variable.init {
        Some(Init::New(creation)) => {
            if is_config(creation.class.text.as_str()) && has_config_type(&variable.declared) {
                Sort::Config
            } else {
                Sort::Object
            }
        }
        _ => Sort::Global,
    }
}

// Whether the type is written `PlannerConfig`.
fn has_config_type(declared: &Type) -> bool
    ensures { result ≡ is_config_type declared.now.base declared.now.bounds }
{
    match &declared.base {
        BaseType::Named(name) => is_config(name.text.as_str()) && is_whole(&declared.bounds),
        _ => false,
    }
}

fn is_whole(bounds: &Bounds) -> bool
    ensures { result ≡ is_unbounded bounds.now }
{
    match bounds {
        Bounds::All => true,
        _ => false,
    }
}
