//! The field of an object, by a table of what each object has in it.

ghost use Rattle.std.specs.Prelude.{◌≡◌, ◌≤◌, ◌<ℤ◌, ◌≤ℤ◌, ◌↔◌, List, [], ◌∷◌, ◌++◌, Contains, IfOk, IsTrue, length};
ghost use Rattle.std.specs.List.{AllWithin};
ghost use Rattle.domain_core.specs.Domain.{IsDomain, IsRange};
ghost use Rattle.domain_core.specs.Narrowing.{Keeps};
ghost use Rattle.narrow_core.specs.declared.field.FieldEntry.{FieldEntry};
ghost use Rattle.narrow_core.specs.Sides.{side_of, opposite, Pairs, IsPaired, Spans, IsWidened};
ghost use Rattle.narrow_core.specs.Tables.{IsInOrderOf};
ghost use Rattle.narrow_core.specs.Meanings.{IsByObject};
ghost use Rattle.narrow_core.specs.Sweeps.{AllTested};

use super::narrow::Narrow;
use super::passing::all_tested;
use domain_core::Change;
use domain_core::domain::Dom;
use domain_core::number::{greater, less};
use std::alloc::AllocError;
use std::marker::Model;

/// What an object has in a field.
#[derive(Clone, Copy)]
pub struct FieldEntry {
    pub object: i32,
    pub value: i32,
}

/// A side of the table.
#[derive(Clone, Copy)]
enum Side {
    Object,
    Value,
}

impl Side {
    fn opposite(self) -> Side
        ensures { result ≡ opposite self }
    {
        match self {
            Side::Object => Side::Value,
            Side::Value => Side::Object,
        }
    }
}

impl FieldEntry {
    // What the entry has on this side.
    fn at(&self, side: Side) -> i32
        ensures { result ≡ side_of self.now side }
    {
        match side {
            Side::Object => self.object,
            Side::Value => self.value,
        }
    }

    // Whether the entry has the value on this side, and on the other one a value of the other domain.
    fn pairs(&self, side: Side, other: &Dom, value: i32) -> bool
        ensures { IsTrue result ↔ Pairs self.now side other.now value }
    {
        if self.at(side) != value {
            return false;
        }
        other.has(self.at(side.opposite()))
    }
}

/// The first and the last of some values.
#[derive(Clone, Copy)]
struct Span {
    first: i32,
    last: i32,
}

/// The second argument is what the object that is the first has in the field.
///
/// The table is kept in the order of the objects and in that of the values, so that the entries with a value are
/// together on either side.
#[derive(Drop)]
pub struct Field {
    by_object: Vec<FieldEntry>,
    by_value: Vec<FieldEntry>,
}

impl Model for Field {
    ghost use Rattle.narrow_core.specs.Tables.{Table, AreOrders};

    ghost Value = { Table };

    ghost view = { λ inside. record { entries = inside.by_object.items } };

    ghost invariant = { λ inside. AreOrders inside.by_object.items inside.by_value.items };
}

impl Field {
    /// The field with these entries, which are in the order of the objects.
    pub fn new(by_object: Vec<FieldEntry>) -> Result<Field, AllocError>
        requires { IsByObject by_object.items }
        ensures { IfOk result (λ field. field.entries ≡ by_object.items) }
    {
        let mut by_value = Vec::from_slice(*by_object.allocator(), by_object.as_slice())?;
        by_value.sort_by_key(|entry| entry.value)?;
        Ok(Field {
            by_object,
            by_value,
        })
    }

    // The entries in the order of this side.
    fn along(&self, side: Side) -> &[FieldEntry]
        ensures ordered { IsInOrderOf side result.now }
        ensures same { (entry : FieldEntry) → Contains result.now entry ↔ Contains self.now.entries entry }
    {
        match side {
            Side::Object => self.by_object.as_slice(),
            Side::Value => self.by_value.as_slice(),
        }
    }

    // Whether an entry has the value on this side, and on the other one a value of the other domain.
    fn is_paired(&self, side: Side, other: &Dom, value: i32) -> bool
        ensures { IsTrue result ↔ IsPaired self.now.entries side other.now value }
    {
        is_paired_along(self.along(side), side, other, value)
    }

    // The first and the last value of the domain that are paired.
    fn span(&self, side: Side, own: &Dom, other: &Dom) -> Option<Span>
        ensures { Spans self.now.entries side own.now other.now result }
    {
        let mut span = None;
        for entry in self.by_object.as_slice() {
            span = spread(span, entry, side, own, other);
        }
        span
    }

    // Keeps the values of this side that are paired with a value of the other domain.
    fn keep_paired(&self, side: Side, own: &mut Dom, other: &Dom) -> Change
        ensures kept { Keeps (IsPaired self.now.entries side other.now) own.old result own.new }
        ensures domain { IsDomain own.old → IsDomain own.new }
    {
        if own.is_range() {
            return self.cut_to_paired(side, own, other);
        }
        own.keep_members(|value| self.is_paired(side, other, value))
    }

    // Whether `keep_paired` would take nothing.
    fn are_paired(&self, side: Side, own: &Dom, other: &Dom) -> bool
        ensures { IsTrue result ↔ AllTested (IsPaired self.now.entries side other.now) own.now }
    {
        all_tested(own, |value| self.is_paired(side, other, value))
    }

    // Keeps the values of a range that are paired: its ends move to the next value that is paired.
    fn cut_to_paired(&self, side: Side, own: &mut Dom, other: &Dom) -> Change
        requires { IsRange own.old }
        ensures kept { Keeps (IsPaired self.now.entries side other.now) own.old result own.new }
        ensures domain { IsDomain own.old → IsDomain own.new }
    {
        match self.span(side, own, other) {
            Some(span) => own.meet_range(span.first, span.last),
            None => Change::Empty,
        }
    }
}

// The place of the first entry that has the value on this side or more, or the length where each has less.
fn first_with(entries: &[FieldEntry], side: Side, value: i32) -> usize
    requires { IsInOrderOf side entries.now }
    ensures bound { result ≤ length entries.now }
    ensures below { AllWithin (λ entry. side_of entry side <ℤ value) entries.now 0 result }
{
    entries.partition_point(|entry| entry.at(side) < value)
}

// Whether an entry has the value on this side, and on the other one a value of the other domain. The first one with
// the value is found by bisection, and the others are the next ones.
fn is_paired_along(entries: &[FieldEntry], side: Side, other: &Dom, value: i32) -> bool
    requires { IsInOrderOf side entries.now }
    ensures { IsTrue result ↔ IsPaired entries.now side other.now value }
{
    let first = first_with(entries, side, value);
    for place in first..entries.len() {
        let entry = entries[place];
        if value < entry.at(side) {
            return false;
        }
        if entry.pairs(side, other, value) {
            return true;
        }
    }
    false
}

// The span with one value more.
fn widened(span: Option<Span>, value: i32) -> Span
    ensures { IsWidened span value result }
{
    match span {
        Some(span) => Span {
            first: less(span.first, value),
            last: greater(span.last, value),
        },
        None => Span {
            first: value,
            last: value,
        },
    }
}

// The span with the value that the entry adds to it, if it adds one.
fn spread(
    span: Option<Span>,
    entry: &FieldEntry,
    side: Side,
    own: &Dom,
    other: &Dom,
) -> Option<Span>
    ensures { (before : List FieldEntry) → Spans before side own.now other.now span
        → Spans (before ++ entry.now ∷ []) side own.now other.now result }
{
    let value = entry.at(side);
    if !own.has(value) {
        return span;
    }
    if !entry.pairs(side, other, value) {
        return span;
    }
    Some(widened(span, value))
}

impl Narrow for Field {
    ghost use Rattle.std.proofs.Common.{lit<};
    ghost use Rattle.domain_core.specs.Consistency.{Values};
    ghost use Rattle.domain_core.specs.Constraints.{IsFieldOf};
    ghost use Rattle.narrow_core.specs.Meanings.{IsInTable};

    ghost count = { λ _. 2 };

    ghost reach = { λ _. Values };

    ghost holds = { λ it. IsFieldOf (IsInTable it.entries) };

    ghost few = { λ _. (lit< tt, lit< tt) };

    fn keep_supported(&self, before: &[&Dom], own: &mut Dom, after: &[&Dom]) -> Change {
        match (before, after) {
            ([], [values]) => self.keep_paired(Side::Object, own, values),
            ([objects], []) => self.keep_paired(Side::Value, own, objects),
            _ => unreachable!(),
        }
    }

    fn supports(&self, before: &[&Dom], own: &Dom, after: &[&Dom]) -> bool {
        match (before, after) {
            ([], [values]) => self.are_paired(Side::Object, own, values),
            ([objects], []) => self.are_paired(Side::Value, own, objects),
            _ => unreachable!(),
        }
    }
}
