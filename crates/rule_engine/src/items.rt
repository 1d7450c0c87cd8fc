//! The items of a block, with their numbers in the rule.

ghost use Rattle.std.specs.Prelude.{◌≡◌, ◌+◌, ◌<◌, ◌≤◌, ◌^◌, length, IfOk};
ghost use Rattle.model_core.specs.Block.{plain_entries};
ghost use Rattle.model_core.specs.Lawful.{item_count};
ghost use Rattle.model_core.specs.Numbers.{items_inside};
ghost use Rattle.rule_engine.specs.Places.{AreItemsOf};

use model_core::rule::Entry;
use std::alloc::{AllocError, Global};

/// An item that stands directly in a block.
#[derive(Clone, Copy, Debug, PartialEq, Eq)]
pub struct ItemAt {
    /// How many items come before it in the text of the rule, those in all other blocks included.
    pub number: u32,
    /// Its place among the entries of the block.
    pub entry: u16,
}

/// How many items stand in the entries, those in the blocks of branches included.
#[cycle(count)]
pub fn count_items(entries: &[Entry]) -> u32
    requires { item_count (plain_entries entries.now) < 2 ^ 32 }
    ensures { result ≡ item_count (plain_entries entries.now) }
{
    let mut count = 0;
    for entry in entries {
        count += count_inside(entry);
    }
    count
}

// How many items the entry is or holds.
#[cycle(count)]
fn count_inside(entry: &Entry) -> u32
    requires { items_inside entry.now < 2 ^ 32 }
    ensures { result ≡ items_inside entry.now }
{
    match entry {
        Entry::Item(_) => 1,
        Entry::Branch {
            then,
            otherwise,
            ..
        } => count_items(then.entries.as_slice()) + count_items(otherwise.entries.as_slice()),
        Entry::Slot(_) | Entry::Local(_) => 0,
    }
}

/// The items that stand directly among the entries, where those inside of the entries are numbered from `first` on.
pub fn items_at(alloc: Global, entries: &[Entry], first: u32) -> Result<Vec<ItemAt>, AllocError>
    requires few { first + item_count (plain_entries entries.now) < 2 ^ 32 }
    requires short { length entries.now ≤ 2 ^ 16 }
    ensures { IfOk result (λ items. AreItemsOf first (plain_entries entries.now) items.items) }
{
    let mut items = Vec::new(alloc);
    let mut number = first;
    for (place, entry) in entries.iter().enumerate() {
        if let Entry::Item(_) = entry {
            let entry = place as u16;
            items.push(ItemAt { number, entry })?;
        }
        number += count_inside(entry);
    }
    Ok(items)
}
