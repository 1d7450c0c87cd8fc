//! Parts of models, made of the words of a row.

use super::rows::{number, value, word};
use domain_core::domain::Dom;
use domain_core::kind::Kind;
use eu_name::name::{Part, TokenName, VarName};
use eu_name::sequence::Sequence;
use eu_name::text::Text;
use model_core::class::{Class, Enum, Object, ObjectKind, Pred, PredKind};
use model_core::decision::Decision;
use model_core::item::{Item, Rel, Term};
use model_core::model::{Placed, Root, RootKind};
use model_core::variable::{Base, ValueKind, VarDecl};
use std::alloc::{AllocError, Global};

/// Puts the thing behind the others, if it was made.
pub fn add<T: Drop>(
    things: &mut Sequence<T>,
    thing: Result<T, AllocError>,
) -> Result<(), AllocError> {
    match thing {
        Ok(thing) => things.push(thing),
        Err(none) => Err(none),
    }
}

/// The list, if it was filled.
pub fn filled<T: Drop>(
    done: Result<(), AllocError>,
    things: Sequence<T>,
) -> Result<Sequence<T>, AllocError> {
    match done {
        Ok(()) => Ok(things),
        Err(none) => Err(none),
    }
}

/// The list of the one thing.
pub fn one<T: Drop>(
    alloc: Global,
    thing: Result<T, AllocError>,
) -> Result<Sequence<T>, AllocError> {
    let mut things = Sequence::new(alloc);
    let done = add(&mut things, thing);
    filled(done, things)
}

fn set(alloc: Global, member: i32) -> Result<Dom, AllocError> {
    match Dom::set_of(alloc, &[member]) {
        Ok(domain) => Ok(domain),
        Err(_) => Err(AllocError),
    }
}

fn range(lo: i32, hi: i32) -> Result<Base, AllocError> {
    match Dom::range(lo, hi) {
        Some(domain) => Ok(Base::Given(domain)),
        None => Err(AllocError),
    }
}

fn given(domain: Result<Dom, AllocError>) -> Result<Base, AllocError> {
    match domain {
        Ok(domain) => Ok(Base::Given(domain)),
        Err(none) => Err(none),
    }
}

fn set_or_void(alloc: Global, word: &str) -> Result<Base, AllocError> {
    if word == "void" {
        return Ok(Base::Void);
    }
    given(set(alloc, value(word)))
}

/// A range as `0..9`, nothing as `void`, or the set of one value.
pub fn base_of(alloc: Global, word: &str) -> Result<Base, AllocError> {
    match word.split_once("..") {
        Some((lo, hi)) => range(value(lo), value(hi)),
        None => set_or_void(alloc, word),
    }
}

// A kind by its word, and that of an enum by its number.
fn kind_of(word: &str) -> ValueKind {
    match word {
        "int" => ValueKind::Int,
        "bool" => ValueKind::Bool,
        "object" => ValueKind::Object,
        _ => ValueKind::Enum(number(word)),
    }
}

/// A variable of this name, of the kind and with the base that the words say.
pub fn variable(alloc: Global, name: &str, kind: &str, base: &str) -> Result<VarDecl, AllocError> {
    Ok(VarDecl {
        name: Text::from_str(alloc, name)?,
        kind: kind_of(kind),
        base: base_of(alloc, base)?,
    })
}

fn add_members(alloc: Global, row: &str, members: &mut Sequence<Text>) -> Result<(), AllocError> {
    for member in row.split(' ').skip(2) {
        add(members, Text::from_str(alloc, member))?;
    }
    Ok(())
}

fn members_of(alloc: Global, row: &str) -> Result<Sequence<Text>, AllocError> {
    let mut members = Sequence::new(alloc);
    let done = add_members(alloc, row, &mut members);
    filled(done, members)
}

/// `enum NAME MEMBER ..`
pub fn enum_of(alloc: Global, row: &str) -> Result<Enum, AllocError> {
    Ok(Enum {
        name: Text::from_str(alloc, word(row, 1))?,
        members: members_of(alloc, row)?,
    })
}

fn add_fields(alloc: Global, row: &str, fields: &mut Sequence<VarDecl>) -> Result<(), AllocError> {
    for name in row.split(' ').skip(5) {
        add(fields, variable(alloc, name, word(row, 3), word(row, 4)))?;
    }
    Ok(())
}

fn fields_of(alloc: Global, row: &str) -> Result<Sequence<VarDecl>, AllocError> {
    let mut fields = Sequence::new(alloc);
    let done = add_fields(alloc, row, &mut fields);
    filled(done, fields)
}

/// `class NAME PARENT KIND BASE FIELD ..`, with `-` for no parent; all fields are of the one kind.
pub fn class_of(alloc: Global, row: &str) -> Result<Class, AllocError> {
    Ok(Class {
        name: Text::from_str(alloc, word(row, 1))?,
        parent: word(row, 2).parse::<u32>().ok(),
        fields: fields_of(alloc, row)?,
    })
}

// What the level of a reservoir begins at, from 0 to 10, or the capacity of a reusable.
fn resource(word: &str, amount: i32) -> ObjectKind {
    match word {
        "reservoir" => ObjectKind::Reservoir {
            initial: amount,
            low: 0,
            high: 10,
        },
        _ => ObjectKind::Reusable { capacity: amount },
    }
}

fn object_kind(word: &str) -> ObjectKind {
    match word.split_once('=') {
        Some((word, amount)) => resource(word, value(amount)),
        None => ObjectKind::Plain,
    }
}

fn add_values(row: &str, values: &mut Sequence<i32>) -> Result<(), AllocError> {
    for word in row.split(' ').skip(4) {
        values.push(value(word))?;
    }
    Ok(())
}

fn values_of(alloc: Global, row: &str) -> Result<Sequence<i32>, AllocError> {
    let mut values = Sequence::new(alloc);
    let done = add_values(row, &mut values);
    filled(done, values)
}

/// `object NAME CLASS KIND VALUE ..`, where the kind is as `plain`, `reusable=2` or `reservoir=5`.
pub fn object_of(alloc: Global, row: &str) -> Result<Object, AllocError> {
    Ok(Object {
        name: Text::from_str(alloc, word(row, 1))?,
        class: number(word(row, 2)),
        fields: values_of(alloc, row)?,
        kind: object_kind(word(row, 3)),
    })
}

fn use_of(word: &str) -> PredKind {
    match word {
        "uses" => PredKind::Uses,
        _ => PredKind::Plain,
    }
}

/// A predicate of the class without parameters.
pub fn bare_pred(
    alloc: Global,
    class: u32,
    name: &str,
    rules: Sequence<u32>,
) -> Result<Pred, AllocError> {
    Ok(Pred {
        class,
        name: Text::from_str(alloc, name)?,
        params: Sequence::new(alloc),
        kind: PredKind::Plain,
        rules,
    })
}

/// `pred CLASS NAME PARAMETER KIND BASE USE`
pub fn pred_of(alloc: Global, row: &str) -> Result<Pred, AllocError> {
    let parameter = variable(alloc, word(row, 3), word(row, 4), word(row, 5));
    Ok(Pred {
        class: number(word(row, 1)),
        name: Text::from_str(alloc, word(row, 2))?,
        params: one(alloc, parameter)?,
        kind: use_of(word(row, 6)),
        rules: Sequence::new(alloc),
    })
}

/// `root LABEL PRED OBJECT`
pub fn root_of(alloc: Global, row: &str) -> Result<Root, AllocError> {
    Ok(Root {
        label: Text::from_str(alloc, word(row, 1))?,
        kind: RootKind::Goal,
        pred: number(word(row, 2)),
        object: set(alloc, value(word(row, 3)))?,
    })
}

/// `global NAME KIND BASE`
pub fn global_of(alloc: Global, row: &str) -> Result<VarDecl, AllocError> {
    variable(alloc, word(row, 1), word(row, 2), word(row, 3))
}

// The global `g0`, the start of the root `r0`, the start of the rule's token, or a value.
fn term_of(word: &str) -> Term {
    if let Some(rest) = word.strip_prefix("g") {
        return Term::Global(number(rest));
    }
    if let Some(rest) = word.strip_prefix("r") {
        return Term::Root(number(rest), Part::Start);
    }
    match word {
        "start" => Term::Here(Part::Start),
        _ => Term::Lit(value(word)),
    }
}

fn add_terms(row: &str, terms: &mut Sequence<Term>) -> Result<(), AllocError> {
    for word in row.split(' ').skip(2) {
        terms.push(term_of(word))?;
    }
    Ok(())
}

fn constraint(alloc: Global, kind: Kind, row: &str) -> Result<Item, AllocError> {
    let mut terms = Sequence::new(alloc);
    match add_terms(row, &mut terms) {
        Ok(()) => Ok(Item::Constraint(kind, terms)),
        Err(none) => Err(none),
    }
}

fn constraint_kind(word: &str) -> Option<Kind> {
    match word {
        "eq" => Some(Kind::Eq),
        "leq" => Some(Kind::Leq),
        "mulEq" => Some(Kind::MulEq),
        "testEQ" => Some(Kind::TestEq),
        "field" => Some(Kind::Field(0)),
        _ => None,
    }
}

/// `item CONSTRAINT TERM ..`, or `item before` for a relation; `field` is that of the number 0.
pub fn item_of(alloc: Global, row: &str) -> Result<Item, AllocError> {
    match constraint_kind(word(row, 1)) {
        Some(kind) => constraint(alloc, kind, row),
        None => Ok(Item::Relation(Rel::Before, 0)),
    }
}

/// `decision ROOT PARAMETER VALUE`
pub fn placed_of(alloc: Global, row: &str) -> Result<Placed, AllocError> {
    let token = TokenName {
        root: number(word(row, 1)),
        steps: Sequence::new(alloc),
    };
    let part = match word(row, 2) {
        "0" => Part::Param(0),
        _ => Part::Param(7),
    };
    let decision = Decision::Specify(VarName::Token(token, part), value(word(row, 3)));
    placed(decision, Text::from_str(alloc, "m"))
}

fn placed(decision: Decision, file: Result<Text, AllocError>) -> Result<Placed, AllocError> {
    match file {
        Ok(file) => Ok(Placed {
            decision,
            file,
            at: 0,
        }),
        Err(none) => Err(none),
    }
}
