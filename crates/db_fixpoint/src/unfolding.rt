//! Open blocks that are unfolded.

ghost use Rattle.std.specs.Prelude.{◌≡◌, ◌<◌, ◌≤◌, ◌^◌, ℕ, List, length, Some, slice_get, OnOk};
ghost use Rattle.model_core.specs.declared.decision.Decision.{Decision};
ghost use Rattle.model_core.specs.Block.{plain_entries};
ghost use Rattle.model_core.specs.Lawful.{IsLawful};
ghost use Rattle.token_store.specs.Tokens.{tokens_now};
ghost use Rattle.model_core.specs.Content.{IsContent};
ghost use Rattle.db_store.specs.StoreMarks.{KeepStoreMarks};
ghost use Rattle.db_store.specs.Stores.{snapshot_of};
ghost use Rattle.db_posting.specs.Counting.{AreTokenStates};
ghost use Rattle.db_posting.specs.Origins.{content_now};
ghost use Rattle.db_posting.specs.Tables.{HaveTables};
ghost use Rattle.db_posting.specs.Underway.{IsStoreUnderway, OnlyAdds};
ghost use Rattle.db_posting.specs.Wanted.{ArePreds};
ghost use Rattle.db_fixpoint.specs.Reading.{CanRead};
ghost use Rattle.db_fixpoint.specs.Unfolding.{UnfoldsBlock};

use super::branches::follow_all;
use super::items::post_items;
use super::reading::{copy_block, entries_of};
use super::slots::bring_slots;
use super::watching::watch_guards;
use constraint_net::NetFault;
use db_store::{OpenBlock, Store};
use model_core::model::Model;
use model_core::rule::Entry;
use std::alloc::Global;

// Unfolds the open block of this number, of which all that its entries name is there.
fn read_entries(
    alloc: Global,
    store: &mut Store,
    model: &Model,
    number: usize,
    block: &OpenBlock,
    entries: &[Entry],
) -> Result<(), NetFault>
    requires lawful { IsLawful model.now }
    requires tables { HaveTables model.now store.old.net.tables }
    requires content { IsContent model.now (content_now store.old) }
    requires block { slice_get store.old.blocks number ≡ Some block.now }
    requires readable { CanRead model.now store.old block.now (plain_entries entries.now) }
    requires few { length entries.now ≤ 2 ^ 16 }
    requires states { (decisions : List Decision) × AreTokenStates model.now decisions (snapshot_of store.old) }
    ensures unfolds { UnfoldsBlock model.now number store.old result store.new }
    ensures tokens { OnOk result (store.new.past ≡ store.old.past) }
    ensures adds { OnOk result (OnlyAdds store.old store.new) }
    ensures marks { KeepStoreMarks store.old store.new }
{
    store.is_sound();
    post_items(alloc, store, model, block, entries)?;
    watch_guards(alloc, store, number, block, entries)?;
    store.is_sound();
    let followed = follow_all(alloc, store, model, block, entries);
    store.is_sound();
    followed
}

// Unfolds the open block, which has this number.
fn unfold_block(
    alloc: Global,
    store: &mut Store,
    model: &Model,
    number: usize,
    block: &OpenBlock,
) -> Result<(), NetFault>
    requires lawful { IsLawful model.now }
    requires tables { HaveTables model.now store.old.net.tables }
    requires block { slice_get store.old.blocks number ≡ Some block.now }
    requires underway { (decisions : List Decision) × ((due : List ℕ)
        × IsStoreUnderway model.now decisions decisions store.old number due) }
    ensures unfolds { UnfoldsBlock model.now number store.old result store.new }
    ensures adds { OnOk result (OnlyAdds store.old store.new) }
    ensures preds { OnOk result (ArePreds model.now (tokens_now store.new.past)) }
    ensures marks { KeepStoreMarks store.old store.new }
{
    store.is_sound();
    let entries = entries_of(store, model, block);
    bring_slots(alloc, store, model, block)?;
    read_entries(alloc, store, model, number, block, entries)
}

/// Unfolds the open block of this number, the first that isn't: what its slots ask for is there, what its items say is
/// posted where it counts, and of its branches those blocks are open that their guards open, which are watched from now on.
pub fn unfold(
    alloc: Global,
    store: &mut Store,
    model: &Model,
    number: usize,
) -> Result<(), NetFault>
    requires lawful { IsLawful model.now }
    requires tables { HaveTables model.now store.old.net.tables }
    requires there { number < length store.old.blocks }
    requires underway { (decisions : List Decision) × ((due : List ℕ)
        × IsStoreUnderway model.now decisions decisions store.old number due) }
    ensures unfolds { UnfoldsBlock model.now number store.old result store.new }
    ensures adds { OnOk result (OnlyAdds store.old store.new) }
    ensures preds { OnOk result (ArePreds model.now (tokens_now store.new.past)) }
    ensures marks { KeepStoreMarks store.old store.new }
{
    let block = copy_block(alloc, store, number)?;
    unfold_block(alloc, store, model, number, &block)
}
