//! Whether rules have little together.

ghost use Rattle.std.specs.Prelude.{◌≡◌, ◌↔◌, ◌≤◌, IsTrue, map, sum_by};
ghost use Rattle.model_core.specs.Block.{plain_entries};
ghost use Rattle.model_core.specs.Lawful.{AreFew};
ghost use Rattle.model_rules.specs.Amounts.{Leaves, amount_in, amount_of, guard_amount, item_amount, size_in};

use super::blocks::contents;
use super::numbers::Sort;
use model_core::rule::{Entry, Rule};

/// What is counted in blocks.
#[derive(Clone, Copy)]
pub enum Amount {
    Items,
    Guards,
}

/// How many rules a predicate may have, and how many items and guards they may have together.
pub const MOST: usize = 1024;

/// How many slots and locals they may have together.
pub const MOST_PARTS: usize = 128;

// What is left of the room behind what takes so much.
fn left_of(room: usize, taken: usize) -> Option<usize>
    ensures { Leaves room taken result }
{
    if room < taken {
        None
    } else {
        Some(room - taken)
    }
}

// What is left of the room behind the entries and what stands in them.
#[cycle(amounts)]
fn left_behind(amount: Amount, entries: &[Entry], room: usize) -> Option<usize>
    ensures { Leaves room (amount_of amount (plain_entries entries.now)) result }
{
    let mut left = room;
    for entry in entries {
        match left_behind_one(amount, entry, left) {
            Some(less) => left = less,
            None => return None,
        }
    }
    Some(left)
}

// What is left of the room behind one entry: of a branch, behind its guard and both blocks.
#[cycle(amounts)]
fn left_behind_one(amount: Amount, entry: &Entry, room: usize) -> Option<usize>
    ensures { Leaves room (amount_in amount entry.now) result }
{
    match entry {
        Entry::Slot(_) => Some(room),
        Entry::Local(_) => Some(room),
        Entry::Item(_) => left_of(room, of_item(amount)),
        Entry::Branch {
            then,
            otherwise,
            ..
        } => {
            let Some(behind_guard) = left_of(room, of_guard(amount)) else {
                return None;
            };
            let Some(behind_then) = left_behind(amount, then.entries.as_slice(), behind_guard)
            else {
                return None;
            };
            left_behind(amount, otherwise.entries.as_slice(), behind_then)
        }
    }
}

// How much an item adds.
fn of_item(amount: Amount) -> usize
    ensures { result ≡ item_amount amount }
{
    match amount {
        Amount::Items => 1,
        Amount::Guards => 0,
    }
}

// How much a guard adds.
fn of_guard(amount: Amount) -> usize
    ensures { result ≡ guard_amount amount }
{
    match amount {
        Amount::Items => 0,
        Amount::Guards => 1,
    }
}

// How many slots or locals the rule has.
fn size(sort: Sort, rule: &Rule) -> usize
    ensures { result ≡ size_in sort rule.now }
{
    match sort {
        Sort::Slots => rule.slots.len(),
        Sort::Locals => rule.locals.len(),
    }
}

// Whether the rules have at most as many items, or guards, as there is room for.
fn have_few_inside(amount: Amount, rules: &[&Rule], room: usize) -> bool
    ensures { IsTrue result ↔ (sum_by (λ rule. amount_of amount rule.now.top) rules.now ≤ room) }
{
    let mut left = room;
    for rule in rules {
        match left_behind(amount, contents(&rule.top), left) {
            Some(less) => left = less,
            None => return false,
        }
    }
    true
}

// Whether the rules have at most as many slots, or locals, as there is room for.
fn have_few(sort: Sort, rules: &[&Rule], room: usize) -> bool
    ensures { IsTrue result ↔ (sum_by (λ rule. size_in sort rule.now) rules.now ≤ room) }
{
    let mut left = room;
    for rule in rules {
        match left_of(left, size(sort, rule)) {
            Some(less) => left = less,
            None => return false,
        }
    }
    true
}

/// Whether the rules are few and have little together.
pub fn are_few(rules: &[&Rule]) -> bool
    ensures { IsTrue result ↔ AreFew (map (λ rule. rule.now) rules.now) }
{
    rules.len() <= MOST
        && have_few(Sort::Slots, rules, MOST_PARTS)
        && have_few(Sort::Locals, rules, MOST_PARTS)
        && have_few_inside(Amount::Items, rules, MOST)
        && have_few_inside(Amount::Guards, rules, MOST)
}
