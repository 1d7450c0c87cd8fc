//! Names: that there is memory for them, how they are read and written, and their order as one would write it.

use super::rows::{Ordered, Row, assert_ordered, assert_rows};
use eu_name::bytes::Bytes;
use eu_name::name_order::{order, var_order};
use eu_name::sequence::Sequence;
use eu_name::text::Text;
use eu_name::{NameFault, NameText, Part, Step, Tail, TokenName, VarName, read_name, write_name};
use indexmap::IndexMap;
use std::alloc::{AllocError, Global};
use std::cmp::Ordering;

/// Puts the steps into words.
fn describe_steps(words: &mut String, steps: &[Step]) -> Result<(), AllocError> {
    for step in steps {
        write!(words, ", slot {} of rule {}", step.slot, step.rule)?;
    }
    Ok(())
}

/// Puts the last part of a name into words.
fn describe_tail(words: &mut String, tail: &Tail) -> Result<(), AllocError> {
    match tail {
        Tail::None => Ok(()),
        Tail::Part(part) => write!(words, ", its {}", part.as_str()),
        Tail::Local { rule, number } => write!(words, ", local {number} of rule {rule}"),
    }
}

/// Puts what a name says into words.
fn describe(words: &mut String, name: &NameText) -> Result<(), AllocError> {
    words.push_str(name.label.as_str())?;
    describe_steps(words, name.steps.as_slice())?;
    describe_tail(words, &name.tail)
}

/// What a name says, in words.
fn described(alloc: Global, name: &NameText) -> Result<String, AllocError> {
    let mut words = String::new(alloc);
    match describe(&mut words, name) {
        Ok(()) => Ok(words),
        Err(none) => Err(none),
    }
}

/// Whether the name says this.
fn says(alloc: Global, name: &NameText, words: &str) -> bool {
    match described(alloc, name) {
        Ok(found) => found.as_str() == words,
        Err(_) => false,
    }
}

/// Whether the name is written so.
pub fn is_written(alloc: Global, name: &NameText, text: &str) -> bool {
    match write_name(alloc, name) {
        Ok(written) => written.as_slice() == text.as_bytes(),
        Err(_) => false,
    }
}

/// Whether the text is a name that says this and is written as the text again.
fn is_read(alloc: Global, text: &str, words: &str) -> bool {
    match read_name(alloc, text.as_bytes()) {
        Ok(name) => says(alloc, &name, words) && is_written(alloc, &name, text),
        Err(_) => false,
    }
}

/// Whether the text is refused as no name.
fn is_refused(alloc: Global, text: &str) -> bool {
    match read_name(alloc, text.as_bytes()) {
        Ok(_) => false,
        Err(fault) => matches!(fault, NameFault::Syntax),
    }
}

/// A name, and what it says.
struct Read(&'static str, &'static str);

impl Row for Read {
    fn holds(&self, alloc: Global) -> bool {
        is_read(alloc, self.0, self.1)
    }
}

static NAMES: [Read; 9] = [
    Read("g", "g"),
    Read("g/0:2", "g, slot 2 of rule 0"),
    Read(
        "_k/65535:0/1:10",
        "_k, slot 0 of rule 65535, slot 10 of rule 1",
    ),
    Read("g.start", "g, its start"),
    Read("g/0:2.x9", "g, slot 2 of rule 0, its x9"),
    Read("g/0!3", "g, local 3 of rule 0"),
    Read("g/0:2/0!3", "g, slot 2 of rule 0, local 3 of rule 0"),
    Read("!0", "!0"),
    Read("!65535", "!65535"),
];

#[test]
fn names_are_read_and_written(rt: HostRuntime) {
    assert_rows(&rt, &NAMES);
}

/// Texts that are no names.
static OTHERS: [&str; 32] = [
    "",
    "class",
    "inf",
    "9g",
    "g ",
    "g/",
    "g/0",
    "g/0:",
    "g/:1",
    "g/00:1",
    "g/0:01",
    "g/65536:0",
    "g/0:18446744073709551616",
    "g/+1:0",
    "g/0:1/",
    "g/0:1 ",
    "g.",
    "g.0",
    "g.class",
    "g.a.b",
    "g/0!",
    "g/0!03",
    "g/0!3.start",
    "g/0!3/0:1",
    "class/0:1",
    "!",
    "!x",
    "!00",
    "!65536",
    "!0.start",
    "!0/0:0",
    "!0!0",
];

#[test]
fn other_texts_are_no_names(rt: HostRuntime) {
    for text in &OTHERS {
        assert!(rt; is_refused(rt.alloc(), *text), "{text}");
    }
}

/// The token that the steps lead to from a root.
fn token(alloc: Global, root: u32, steps: &[(u16, u16)]) -> Result<TokenName, AllocError> {
    let mut list = Vec::new(alloc);
    for (rule, slot) in steps {
        list.push(Step {
            rule: *rule,
            slot: *slot,
        })?;
    }
    Ok(TokenName {
        root,
        steps: Sequence::from_vec(list),
    })
}

/// How the first name compares with a copy of the second.
fn token_order(one: &TokenName, other: &TokenName) -> Option<Ordering> {
    match other.copy() {
        Ok(copied) => Some(order(one, &copied)),
        Err(_) => None,
    }
}

/// A root and the steps from it.
struct Steps(u32, &'static [(u16, u16)]);

impl Ordered for Steps {
    fn compared(&self, alloc: Global, other: &Steps) -> Option<Ordering> {
        match (token(alloc, self.0, self.1), token(alloc, other.0, other.1)) {
            (Ok(one), Ok(other)) => token_order(&one, &other),
            _ => None,
        }
    }
}

/// Tokens in ascending order.
static TOKENS: [Steps; 8] = [
    Steps(1, &[]),
    Steps(2, &[]),
    Steps(0, &[(9, 9)]),
    Steps(1, &[(0, 3)]),
    Steps(1, &[(1, 2)]),
    Steps(1, &[(1, 3)]),
    Steps(0, &[(0, 0), (0, 1)]),
    Steps(0, &[(0, 1), (0, 0)]),
];

#[test]
fn tokens_are_in_order(rt: HostRuntime) {
    assert_ordered(&rt, &TOKENS);
}

/// A variable of a token, or a global variable in place of it.
#[derive(Clone, Copy)]
enum Variable {
    Global(u32),
    Part(Part),
    Local(u16, u16),
}

/// The variable, of this token.
fn name_of(token: TokenName, variable: Variable) -> VarName {
    match variable {
        Variable::Global(number) => VarName::Global(number),
        Variable::Part(part) => VarName::Token(token, part),
        Variable::Local(rule, number) => VarName::Local {
            token,
            rule,
            number,
        },
    }
}

/// How the first name compares with a copy of the second.
fn variable_order(one: &VarName, other: &VarName) -> Option<Ordering> {
    match other.copy() {
        Ok(copied) => Some(var_order(one, &copied)),
        Err(_) => None,
    }
}

/// A variable of the token that a step leads to from the root.
struct Placed(u32, Variable);

impl Placed {
    fn named(&self, alloc: Global) -> Option<VarName> {
        match token(alloc, self.0, &[(0, 2)]) {
            Ok(token) => Some(name_of(token, self.1)),
            Err(_) => None,
        }
    }
}

impl Ordered for Placed {
    fn compared(&self, alloc: Global, other: &Placed) -> Option<Ordering> {
        match (self.named(alloc), other.named(alloc)) {
            (Some(one), Some(other)) => variable_order(&one, &other),
            _ => None,
        }
    }
}

/// Variables in ascending order.
static VARIABLES: [Placed; 11] = [
    Placed(9, Variable::Global(0)),
    Placed(0, Variable::Global(7)),
    Placed(1, Variable::Part(Part::Object)),
    Placed(1, Variable::Part(Part::Start)),
    Placed(1, Variable::Part(Part::End)),
    Placed(1, Variable::Part(Part::Duration)),
    Placed(1, Variable::Part(Part::Param(0))),
    Placed(1, Variable::Part(Part::Param(65_535))),
    Placed(1, Variable::Local(0, 5)),
    Placed(1, Variable::Local(2, 4)),
    Placed(2, Variable::Part(Part::Object)),
];

#[test]
fn variables_are_in_order(rt: HostRuntime) {
    assert_ordered(&rt, &VARIABLES);
}

fn has_copied_text(text: &Text, characters: &str) -> bool {
    match text.copy() {
        Ok(copied) => copied.as_str() == characters,
        Err(_) => false,
    }
}

/// Whether a copy of the text is the text.
fn is_copied_text(alloc: Global, characters: &str) -> bool {
    match Text::from_str(alloc, characters) {
        Ok(text) => has_copied_text(&text, characters),
        Err(_) => false,
    }
}

fn has_copied_bytes(bytes: &Bytes, slice: &[u8]) -> bool {
    match bytes.copy() {
        Ok(copied) => copied.as_slice() == slice,
        Err(_) => false,
    }
}

/// Whether a copy of the bytes is the bytes.
fn are_copied_bytes(alloc: Global, slice: &[u8]) -> bool {
    match Bytes::from_slice(alloc, slice) {
        Ok(bytes) => has_copied_bytes(&bytes, slice),
        Err(_) => false,
    }
}

#[test]
fn copies_are_equal(rt: HostRuntime) {
    assert!(rt; is_copied_text(rt.alloc(), "x1"));
    assert!(rt; are_copied_bytes(rt.alloc(), b"\x00\xff"));
}

/// Whether three names are put into the map.
fn are_noted(map: &mut IndexMap<TokenName, u32>, alloc: Global) -> bool {
    is_noted(map, token(alloc, 1, &[]), 10)
        && is_noted(map, token(alloc, 1, &[(0, 2)]), 20)
        && is_noted(map, token(alloc, 1, &[(0, 3)]), 30)
}

/// What the map has for the second of them.
fn second_in(map: &IndexMap<TokenName, u32>, alloc: Global) -> Option<u32> {
    match token(alloc, 1, &[(0, 2)]) {
        Ok(name) => map.get(&name).copied(),
        Err(_) => None,
    }
}

/// What a map of names has for the second of three names.
fn second_in_map(alloc: Global) -> Option<u32> {
    let mut map = IndexMap::new(alloc);
    if are_noted(&mut map, alloc) {
        second_in(&map, alloc)
    } else {
        None
    }
}

/// Whether the name is put into the map.
fn is_noted(
    map: &mut IndexMap<TokenName, u32>,
    name: Result<TokenName, AllocError>,
    number: u32,
) -> bool {
    match name {
        Ok(name) => map.insert(name, number).is_ok(),
        Err(_) => false,
    }
}

#[test]
fn names_are_keys(rt: HostRuntime) {
    assert!(rt; second_in_map(rt.alloc()) == Some(20));
}
