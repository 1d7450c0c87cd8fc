//! The blocks on the sides of branches.

ghost use Rattle.std.specs.Prelude.{◌≡◌, ◌≤◌, ◌^◌, length, IfOk, OnOk};
ghost use Rattle.model_core.specs.Block.{plain_entries};
ghost use Rattle.model_core.specs.Lawful.{IsLawful};
ghost use Rattle.model_core.specs.Numbers.{turned};
ghost use Rattle.db_store.specs.StoreMarks.{KeepStoreMarks};
ghost use Rattle.db_posting.specs.Underway.{OnlyAdds};
ghost use Rattle.db_fixpoint.specs.Branches.{StaysOnWay, FollowsBranch, FollowsFirst, FollowsBranches};
ghost use Rattle.db_fixpoint.specs.Reading.{block_named, CanRead, CanReadAt, IsBranchAt};

use super::guards::open_side;
use super::reading::{copy_block, entries_of};
use constraint_net::NetFault;
use db_opening::open;
use db_posting::Origin;
use db_store::{OpenBlock, Store};
use model_core::model::Model;
use model_core::rule::{Entry, Guard, Turn};
use std::alloc::{AllocError, Global};

// Opens the block on the side that the guard at this place of the block opens, where it opens one.
fn follow(
    alloc: Global,
    store: &mut Store,
    model: &Model,
    block: &OpenBlock,
    place: u16,
    guard: Guard,
) -> Result<(), NetFault>
    requires lawful { IsLawful model.now }
    requires stands { IsBranchAt model.now store.old block.now place guard }
    ensures underway { StaysOnWay model.now store.old result store.new }
    ensures followed { OnOk result
        (FollowsBranch model.now (block_named store.old block.now) place guard store.old store.new) }
    ensures tokens { OnOk result (store.new.past ≡ store.old.past) }
    ensures adds { OnOk result (OnlyAdds store.old store.new) }
    ensures marks { KeepStoreMarks store.old store.new }
{
    store.is_sound();
    let origin = Origin::Rule {
        token: block.token,
        rule: block.rule,
    };
    match open_side(alloc, model, store, origin, guard)? {
        Some(side) => {
            let turn = Turn { entry: place, side };
            let behind = block.behind(alloc, turn)?;
            open(alloc, store, model, behind)
        }
        None => Ok(()),
    }
}

/// Opens the block on the side of each branch among the entries whose guard opens it.
pub fn follow_all(
    alloc: Global,
    store: &mut Store,
    model: &Model,
    block: &OpenBlock,
    entries: &[Entry],
) -> Result<(), NetFault>
    requires lawful { IsLawful model.now }
    requires readable { CanRead model.now store.old block.now (plain_entries entries.now) }
    requires few { length entries.now ≤ 2 ^ 16 }
    ensures underway { StaysOnWay model.now store.old result store.new }
    ensures followed { OnOk result (FollowsFirst model.now (block_named store.old block.now)
        (plain_entries entries.now) (length entries.now) store.old store.new) }
    ensures tokens { OnOk result (store.new.past ≡ store.old.past) }
    ensures adds { OnOk result (OnlyAdds store.old store.new) }
    ensures marks { KeepStoreMarks store.old store.new }
{
    store.is_sound();
    for (place, entry) in entries.iter().enumerate() {
        if let Entry::Branch { guard, .. } = entry {
            store.is_sound();
            follow(alloc, store, model, block, place as u16, *guard)?;
        }
    }
    Ok(())
}

/// Opens the block on the side of each branch in the open block of this number whose guard opens it.
pub fn look_at_branches(
    alloc: Global,
    store: &mut Store,
    model: &Model,
    number: usize,
) -> Result<(), NetFault>
    requires lawful { IsLawful model.now }
    requires readable { CanReadAt model.now store.old number }
    ensures underway { StaysOnWay model.now store.old result store.new }
    ensures followed { OnOk result (FollowsBranches model.now number store.old store.new) }
    ensures tokens { OnOk result (store.new.past ≡ store.old.past) }
    ensures adds { OnOk result (OnlyAdds store.old store.new) }
    ensures marks { KeepStoreMarks store.old store.new }
{
    store.is_sound();
    let block = copy_block(alloc, store, number)?;
    let entries = entries_of(store, model, &block);
    let followed = follow_all(alloc, store, model, &block, entries);
    store.is_sound();
    followed
}
