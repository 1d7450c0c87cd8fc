//! A store is brought to rest.

ghost use Rattle.std.specs.Prelude.{◌≡◌, ◌≤◌, length, OnOk};
ghost use Rattle.model_core.specs.Lawful.{IsLawful};
ghost use Rattle.db_store.specs.StoreMarks.{KeepStoreMarks};
ghost use Rattle.db_posting.specs.Tables.{HaveTables};
ghost use Rattle.db_fixpoint.specs.Looking.{HasWay};
ghost use Rattle.db_fixpoint.specs.Seating.{IsSeatingOf, KeepsSeating};
ghost use Rattle.db_fixpoint.specs.Fixpoint.{CanGoOn, CanComeToRest, Heeds, MakesRound, MakesRounds, LooksAtAll, BringsToRest};

use super::looking::look_at;
use super::seating::Seating;
use crate::unfold;
use constraint_net::NetFault;
use db_store::Store;
use model_core::model::Model;
use std::alloc::Global;

/// What one round comes to.
#[derive(Clone, Copy)]
pub enum Round {
    /// So many blocks are unfolded, and more is to come.
    On(usize),
    /// Nothing more comes.
    AtRest,
}

// Looks at the next variable that has changed, and tells whether there was one.
fn heed_next(
    alloc: Global,
    store: &mut Store,
    seating: &mut Seating,
    model: &Model,
    unfolded: usize,
) -> Result<bool, NetFault>
    requires lawful { IsLawful model.now }
    requires way { CanGoOn model.now store.old unfolded }
    requires seated { IsSeatingOf store.old seating.old }
    ensures heeds { Heeds model.now unfolded store.old result store.new }
    ensures tables { OnOk result (store.new.net.tables ≡ store.old.net.tables) }
    ensures marks { KeepStoreMarks store.old store.new }
    ensures seated { KeepsSeating seating.old store.new seating.new }
{
    let Some(variable) = store.next_changed() else {
        return Ok(false);
    };
    look_at(alloc, store, seating, model, unfolded, variable)?;
    Ok(true)
}

// Propagates the network, of a store whose blocks are all unfolded, and looks at the first variable that has changed.
fn propagate(
    alloc: Global,
    store: &mut Store,
    seating: &mut Seating,
    model: &Model,
    unfolded: usize,
) -> Result<Round, NetFault>
    requires lawful { IsLawful model.now }
    requires way { CanGoOn model.now store.old unfolded }
    requires seated { IsSeatingOf store.old seating.old }
    requires all { length store.old.blocks ≤ unfolded }
    ensures round { MakesRound model.now unfolded store.old result store.new }
    ensures tables { OnOk result (store.new.net.tables ≡ store.old.net.tables) }
    ensures marks { KeepStoreMarks store.old store.new }
    ensures seated { KeepsSeating seating.old store.new seating.new }
{
    store.propagate()?;
    let heeded = heed_next(alloc, store, seating, model, unfolded)?;
    if heeded {
        return Ok(Round::On(unfolded));
    }
    Ok(Round::AtRest)
}

// Unfolds a block, or looks at a variable that has changed, or propagates the network.
fn make_round(
    alloc: Global,
    store: &mut Store,
    seating: &mut Seating,
    model: &Model,
    unfolded: usize,
) -> Result<Round, NetFault>
    requires lawful { IsLawful model.now }
    requires tables { HaveTables model.now store.old.net.tables }
    requires way { CanGoOn model.now store.old unfolded }
    requires seated { IsSeatingOf store.old seating.old }
    ensures round { MakesRound model.now unfolded store.old result store.new }
    ensures tables { OnOk result (store.new.net.tables ≡ store.old.net.tables) }
    ensures marks { KeepStoreMarks store.old store.new }
    ensures seated { KeepsSeating seating.old store.new seating.new }
{
    let blocks = store.block_count();
    if unfolded < blocks {
        unfold(alloc, store, model, unfolded)?;
        return Ok(Round::On(unfolded + 1));
    }
    let heeded = heed_next(alloc, store, seating, model, unfolded)?;
    if heeded {
        return Ok(Round::On(unfolded));
    }
    propagate(alloc, store, seating, model, unfolded)
}

// Makes round after round until nothing more comes. Memory stands for more rounds than can be counted.
fn run(
    alloc: Global,
    store: &mut Store,
    seating: &mut Seating,
    model: &Model,
    unfolded: usize,
) -> Result<(), NetFault>
    requires lawful { IsLawful model.now }
    requires tables { HaveTables model.now store.old.net.tables }
    requires way { CanGoOn model.now store.old unfolded }
    requires seated { IsSeatingOf store.old seating.old }
    ensures runs { MakesRounds model.now unfolded store.old result store.new }
    ensures tables { OnOk result (store.new.net.tables ≡ store.old.net.tables) }
    ensures marks { KeepStoreMarks store.old store.new }
    ensures seated { KeepsSeating seating.old store.new seating.new }
{
    let mut count = unfolded;
    for _round in 0..u32::MAX {
        let Round::On(next) = make_round(alloc, store, seating, model, count)? else {
            return Ok(());
        };
        count = next;
    }
    Err(NetFault::Memory)
}

// Looks at each of the variables.
fn look_at_all(
    alloc: Global,
    store: &mut Store,
    seating: &mut Seating,
    model: &Model,
    unfolded: usize,
    due: &[usize],
) -> Result<(), NetFault>
    requires lawful { IsLawful model.now }
    requires way { HasWay model.now store.old unfolded }
    requires seated { IsSeatingOf store.old seating.old }
    ensures looks { LooksAtAll model.now unfolded due.now store.old result store.new }
    ensures tables { OnOk result (store.new.net.tables ≡ store.old.net.tables) }
    ensures changed { OnOk result (store.new.net.changed ≡ store.old.net.changed) }
    ensures marks { KeepStoreMarks store.old store.new }
    ensures seated { KeepsSeating seating.old store.new seating.new }
{
    for variable in due {
        look_at(alloc, store, seating, model, unfolded, *variable)?;
    }
    Ok(())
}

/// Brings the store to rest, of which so many blocks are unfolded, and in which these variables have to be looked at beside
/// those that have changed: blocks are unfolded, variables looked at, the network propagated until nothing more comes.
pub fn bring_to_rest(
    alloc: Global,
    store: &mut Store,
    seating: &mut Seating,
    model: &Model,
    unfolded: usize,
    due: &[usize],
) -> Result<(), NetFault>
    requires lawful { IsLawful model.now }
    requires tables { HaveTables model.now store.old.net.tables }
    requires way { CanComeToRest model.now store.old unfolded due.now }
    requires seated { IsSeatingOf store.old seating.old }
    ensures brings { BringsToRest model.now unfolded due.now store.old result store.new }
    ensures tables { OnOk result (store.new.net.tables ≡ store.old.net.tables) }
    ensures marks { KeepStoreMarks store.old store.new }
    ensures seated { KeepsSeating seating.old store.new seating.new }
{
    look_at_all(alloc, store, seating, model, unfolded, due)?;
    run(alloc, store, seating, model, unfolded)
}
