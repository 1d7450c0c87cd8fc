//! Variables are looked at that have changed.

ghost use Rattle.std.specs.Prelude.{◌≡◌, ◌↔◌, ◌<◌, length, slice_get, Some, IsTrue, OnOk};
ghost use Rattle.model_core.specs.Lawful.{IsLawful};
ghost use Rattle.db_store.specs.Stores.{blocks_watching};
ghost use Rattle.db_store.specs.StoreMarks.{KeepStoreMarks};
ghost use Rattle.db_posting.specs.Underway.{OnlyAdds};
ghost use Rattle.db_fixpoint.specs.Branches.{StaysOnWay, FollowsBranches};
ghost use Rattle.db_fixpoint.specs.Seating.{IsSeatingOf, KeepsSeating};
ghost use Rattle.db_fixpoint.specs.Turns.{PostsOrMarks};
ghost use Rattle.db_fixpoint.specs.Looking.{HasWay, FollowsWatchers, TellsTurns, OwnerTakesTurns, KeepsWay, LooksAt};

use super::seating::Seating;
use super::turns::look_at_turns;
use crate::look_at_branches;
use constraint_net::NetFault;
use db_store::{Store, VarKey};
use eu_name::name::Part;
use model_core::model::Model;
use std::alloc::{AllocError, Global};

// Looks at the branches of the open block of this number, if it is one of those that are unfolded.
fn look_at_block(
    alloc: Global,
    store: &mut Store,
    model: &Model,
    unfolded: usize,
    number: usize,
) -> Result<(), NetFault>
    requires lawful { IsLawful model.now }
    requires way { HasWay model.now store.old unfolded }
    ensures underway { StaysOnWay model.now store.old result store.new }
    ensures followed { OnOk result (number < unfolded → FollowsBranches model.now number store.old store.new) }
    ensures tokens { OnOk result (store.new.past ≡ store.old.past) }
    ensures adds { OnOk result (OnlyAdds store.old store.new) }
    ensures marks { KeepStoreMarks store.old store.new }
{
    store.is_sound();
    if number >= unfolded {
        return Ok(());
    }
    look_at_branches(alloc, store, model, number)
}

// The number of the block that stands at the place among those that watch the variable.
fn watcher_at(store: &Store, variable: usize, place: usize) -> usize
    requires { place < length (blocks_watching store.now.watches variable) }
    ensures { slice_get (blocks_watching store.now.watches variable) place ≡ Some result }
{
    let blocks = store.watchers_of(variable);
    blocks[place] as usize
}

// Looks at the branches of the blocks that watch the variable.
fn look_at_watchers(
    alloc: Global,
    store: &mut Store,
    model: &Model,
    unfolded: usize,
    variable: usize,
) -> Result<(), NetFault>
    requires lawful { IsLawful model.now }
    requires way { HasWay model.now store.old unfolded }
    ensures underway { StaysOnWay model.now store.old result store.new }
    ensures followed { OnOk result (FollowsWatchers model.now unfolded variable
        (length (blocks_watching store.old.watches variable)) store.old store.new) }
    ensures tokens { OnOk result (store.new.past ≡ store.old.past) }
    ensures adds { OnOk result (OnlyAdds store.old store.new) }
    ensures marks { KeepStoreMarks store.old store.new }
{
    store.is_sound();
    let count = store.watchers_of(variable).len();
    for place in 0..count {
        let number = watcher_at(store, variable, place);
        look_at_block(alloc, store, model, unfolded, number)?;
        store.is_sound();
    }
    Ok(())
}

// Whether the part tells when tokens take turns.
fn tells_turns(part: Part) -> bool
    ensures { IsTrue result ↔ TellsTurns part }
{
    match part {
        Part::Start | Part::End | Part::Object => true,
        _ => false,
    }
}

// Lets the token take its turns whose object, start or end the variable is.
#[tactic(auto, using(crate::proofs::Seated::kept_same))]
fn look_at_owner(
    store: &mut Store,
    seating: &mut Seating,
    model: &Model,
    unfolded: usize,
    variable: usize,
) -> Result<(), AllocError>
    requires way { HasWay model.now store.old unfolded }
    requires seated { IsSeatingOf store.old seating.old }
    ensures way { OnOk result (KeepsWay model.now store.old store.new) }
    ensures turns { OnOk result (OwnerTakesTurns model.now variable store.old store.new) }
    ensures only { PostsOrMarks store.old store.new }
    ensures marks { KeepStoreMarks store.old store.new }
    ensures seated { KeepsSeating seating.old store.new seating.new }
{
    store.is_sound();
    match store.key_at(variable) {
        Some(VarKey::Part(place, part)) => {
            if tells_turns(part) {
                look_at_turns(store, seating, model, place)
            } else {
                Ok(())
            }
        }
        _ => Ok(()),
    }
}

/// Looks at a variable: at the branches of the blocks that watch it, and at the turns of its token.
pub fn look_at(
    alloc: Global,
    store: &mut Store,
    seating: &mut Seating,
    model: &Model,
    unfolded: usize,
    variable: usize,
) -> Result<(), NetFault>
    requires lawful { IsLawful model.now }
    requires way { HasWay model.now store.old unfolded }
    requires seated { IsSeatingOf store.old seating.old }
    ensures looks { LooksAt model.now unfolded variable store.old result store.new }
    ensures tables { OnOk result (store.new.net.tables ≡ store.old.net.tables) }
    ensures changed { OnOk result (store.new.net.changed ≡ store.old.net.changed) }
    ensures marks { KeepStoreMarks store.old store.new }
    ensures seated { KeepsSeating seating.old store.new seating.new }
{
    store.is_sound();
    look_at_watchers(alloc, store, model, unfolded, variable)?;
    store.is_sound();
    look_at_owner(store, seating, model, unfolded, variable)?;
    Ok(())
}
