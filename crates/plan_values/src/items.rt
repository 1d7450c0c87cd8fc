//! The first item of a rule that isn't true in a plan.

ghost use Rattle.std.specs.Prelude.{◌≡◌, ◌+◌, ◌<◌, ◌^◌, ℕ, true, List, IfOk, MatchBool, MatchResult};
ghost use Rattle.model_core.specs.declared.rule.Turn.{Turn};
ghost use Rattle.model_core.specs.Block.{plain_entries};
ghost use Rattle.model_core.specs.Entries.{Entries};
ghost use Rattle.model_core.specs.Lawful.{item_count};
ghost use Rattle.model_core.specs.Numbers.{items_from, items_inside};
ghost use Rattle.plan_values.specs.Keys.{IsOrderly};
ghost use Rattle.plan_values.specs.Meanings.{context_of};
ghost use Rattle.plan_values.specs.Openings.{Allows};
ghost use Rattle.plan_values.specs.Truths.{IsTrueWhere};
ghost use Rattle.plan_values.specs.Walks.{IsOpened, IsReached, IsEntryReached, Scans, IsTruePlaced, items_of};

use super::claims::is_item_true;
use super::open::opened_side;
use super::terms::Standpoint;
use model_core::item::Item;
use model_core::model::Model;
use model_core::rule::{Entry, Guard, Side};
use plan_defs::plan::Plan;

// Whether the guard, which stands in a block that is open or not, opens this side.
fn opens(
    model: &Model,
    plan: &Plan,
    at: Standpoint,
    guard: Guard,
    reached: bool,
    side: Side,
) -> bool
    requires { IsOrderly plan.now }
    ensures { MatchBool result
        (IsOpened (Allows model.now plan.now (context_of at.entry)) reached guard side)
        (IsOpened (Allows model.now plan.now (context_of at.entry)) reached guard side → ⊥) }
{
    if !reached {
        return false;
    }
    match opened_side(model, plan, at, guard) {
        Some(found) => is_side(found, side),
        None => false,
    }
}

// Whether the two sides are one.
fn is_side(one: Side, other: Side) -> bool
    ensures { MatchBool result (one ≡ other) (one ≡ other → ⊥) }
{
    match one {
        Side::Then => matches!(other, Side::Then),
        Side::Otherwise => matches!(other, Side::Otherwise),
    }
}

// Whether the item, which stands in a block that is open or not, isn't true.
fn is_false(model: &Model, plan: &Plan, at: Standpoint, item: &Item, reached: bool) -> bool
    requires { IsOrderly plan.now }
    ensures { MatchBool result
        ((reached ≡ true) × (IsTrueWhere model.now plan.now (context_of at.entry) item.now → ⊥))
        (reached ≡ true → IsTrueWhere model.now plan.now (context_of at.entry) item.now) }
{
    if reached {
        !is_item_true(model, plan, at, item)
    } else {
        false
    }
}

// The number of the first item among the entries, those in open blocks inside of them too, that isn't true, where they are
// numbered from `first` on and their block is open; and else the number behind the last.
#[cycle(false_item)]
pub fn false_among(
    model: &Model,
    plan: &Plan,
    at: Standpoint,
    entries: &[Entry],
    reached: bool,
    first: u32,
) -> Result<u32, u32>
    requires orderly { IsOrderly plan.now }
    requires few { first + item_count (plain_entries entries.now) < 2 ^ 32 }
    ensures counted { IfOk result (λ next. next ≡ first + item_count (plain_entries entries.now)) }
    ensures found { (top : Entries) (path : List Turn)
        → IsReached (Allows model.now plan.now (context_of at.entry)) top path (plain_entries entries.now) reached
        → Scans (IsTruePlaced model.now plan.now (context_of at.entry) top) first
        (items_from path 0 (plain_entries entries.now)) result }
{
    let mut number = first;
    for entry in entries {
        match false_in(model, plan, at, entry, reached, number) {
            Ok(next) => number = next,
            Err(found) => return Err(found),
        }
    }
    Ok(number)
}

// The number of the first such item in one entry, and else the number behind the last in it.
#[cycle(false_item)]
fn false_in(
    model: &Model,
    plan: &Plan,
    at: Standpoint,
    entry: &Entry,
    reached: bool,
    first: u32,
) -> Result<u32, u32>
    requires orderly { IsOrderly plan.now }
    requires few { first + items_inside entry.now < 2 ^ 32 }
    ensures counted { IfOk result (λ next. next ≡ first + items_inside entry.now) }
    ensures found { (top : Entries) (path : List Turn) (place : ℕ)
        → IsEntryReached (Allows model.now plan.now (context_of at.entry)) top path place entry.now reached
        → Scans (IsTruePlaced model.now plan.now (context_of at.entry) top) first (items_of path place entry.now) result }
{
    match entry {
        Entry::Slot(_) | Entry::Local(_) => Ok(first),
        Entry::Item(item) => {
            if is_false(model, plan, at, item, reached) {
                Err(first)
            } else {
                Ok(first + 1)
            }
        }
        Entry::Branch {
            guard,
            then,
            otherwise,
        } => {
            let then_open = opens(model, plan, at, *guard, reached, Side::Then);
            let otherwise_open = opens(model, plan, at, *guard, reached, Side::Otherwise);
            match false_among(model, plan, at, then.entries.as_slice(), then_open, first) {
                Ok(next) => {
                    let entries = otherwise.entries.as_slice();
                    false_among(model, plan, at, entries, otherwise_open, next)
                }
                Err(found) => Err(found),
            }
        }
    }
}
