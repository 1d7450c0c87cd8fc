//! Going on by one decision.

ghost use Rattle.std.specs.Prelude.{◌≡◌, ℕ, ◌<◌, [], List, length, Contains, IfOk, MatchResult, Ok, Err};
ghost use Rattle.model_core.specs.declared.decision.Decision.{Decision as Taken};
ghost use Rattle.model_core.specs.Lawful.{IsLawful};
ghost use Rattle.constraint_net.specs.Networks.{IsIdle};
ghost use Rattle.plan_defs.specs.Settling.{IsSettled};
ghost use Rattle.db_posting.specs.Tables.{HaveTables};
ghost use Rattle.db_store.specs.Stores.{snapshot_of};
ghost use Rattle.db_store.specs.declared.store.Mark.{Mark as Marked};
ghost use Rattle.db_store.specs.StoreMarks.{IsStoreMark, KeepStoreMarks};
ghost use Rattle.db_fixpoint.specs.Seating.{IsSeatingOf, KeepsSeating};
ghost use Rattle.db_opening.specs.Beginning.{IsBeginning};
ghost use Rattle.db_history.specs.Advancing.{but_last, EndsAdmissibly};
ghost use Rattle.db_history.specs.Advancing.{IsRestOf, IsLeastOf, CanFollow, AdvancesBy, StartsFrom, BringsBeginningToRest, LeavesLeast};

use constraint_net::NetFault;
use db_decide::take_up;
use db_fixpoint::{Seating, bring_to_rest};
use db_resources::{resources_fit, resources_fit_since};
use db_store::{Mark, Store};
use model_core::decision::Decision;
use model_core::model::Model;
use std::alloc::{AllocError, Global};

// The numbers of all variables. Memory stands for more than can be counted.
fn all_numbers(alloc: Global, store: &Store) -> Result<Vec<usize>, AllocError>
    ensures { IfOk result (λ due. (number : ℕ) → number < length store.now.keys → Contains due.items number) }
{
    let mut due = Vec::new(alloc);
    for number in 0..usize::MAX {
        let Some(_key) = store.key_at(number) else {
            return Ok(due);
        };
        due.push(number)?;
    }
    Err(AllocError)
}

// Brings a store that has just begun to rest: all its variables are due.
fn bring_beginning_to_rest(alloc: Global, store: &mut Store, model: &Model) -> Result<(), NetFault>
    requires lawful { IsLawful model.now }
    requires beginning { IsBeginning model.now store.old }
    ensures { BringsBeginningToRest model.now result store.new }
{
    let due = all_numbers(alloc, store)?;
    let mut seating = Seating::new(alloc);
    bring_to_rest(alloc, store, &mut seating, model, 0, due.as_slice())
}

// The value, behind what filling it answered.
fn behind<T: Drop>(done: Result<(), NetFault>, value: T) -> Result<T, NetFault>
    ensures { MatchResult done (λ _. result ≡ Ok value) (λ fault. result ≡ Err fault) }
{
    match done {
        Ok(()) => Ok(value),
        Err(fault) => Err(fault),
    }
}

// The store at rest before any decision.
fn start(alloc: Global, model: &Model) -> Result<Store, NetFault>
    requires lawful { IsLawful model.now }
    ensures { StartsFrom model.now result }
{
    let mut store = db_opening::begin(alloc, model)?;
    let rested = bring_beginning_to_rest(alloc, &mut store, model);
    behind(rested, store)
}

// Takes the decision up, and brings the store to rest.
fn advance(
    alloc: Global,
    store: &mut Store,
    seating: &mut Seating,
    model: &Model,
    decision: &Decision,
) -> Result<(), NetFault>
    requires lawful { IsLawful model.now }
    requires follows { (decisions : List Taken) × CanFollow model.now decisions store.old decision.now }
    requires tables { HaveTables model.now store.old.net.tables }
    requires marked { (mark : Marked) × IsStoreMark store.old mark (snapshot_of store.old) }
    requires seated { IsSeatingOf store.old seating.old }
    ensures advances { AdvancesBy model.now decision.now store.old result store.new }
    ensures marks { KeepStoreMarks store.old store.new }
    ensures seated { KeepsSeating seating.old store.new seating.new }
{
    let unfolded = store.block_count();
    let due = take_up(alloc, store, model, decision)?;
    bring_to_rest(alloc, store, seating, model, unfolded, due.as_slice())
}

/// A store for no decision, and whether anything is left in it.
pub fn begin(alloc: Global, model: &Model) -> Result<(Store, bool), AllocError>
    requires lawful { IsLawful model.now }
    ensures { IfOk result (λ begun. LeavesLeast model.now [] begun.1 begun.0) }
{
    match start(alloc, model) {
        Ok(store) => begun(alloc, model, store),
        Err(NetFault::Collapsed) => Ok((Store::new(alloc), false)),
        Err(NetFault::Memory) => Err(AllocError),
    }
}

// Whether resources fit what a store at rest before any decision leaves.
fn begun(alloc: Global, model: &Model, store: Store) -> Result<(Store, bool), AllocError>
    requires lawful { IsLawful model.now }
    requires rest { IsRestOf model.now [] (snapshot_of store) }
    requires tables { HaveTables model.now store.net.tables }
    requires idle { IsIdle store.net }
    ensures { IfOk result (λ begun. LeavesLeast model.now [] begun.1 begun.0) }
{
    let fit = resources_fit(alloc, model, &store, &[]);
    beside(store, fit)
}

// The value with what is told of it.
fn beside<T: Drop>(value: T, told: Result<bool, AllocError>) -> Result<(T, bool), AllocError>
    ensures { MatchResult told (λ is. result ≡ Ok (value, is)) (λ none. result ≡ Err none) }
{
    match told {
        Ok(is) => Ok((value, is)),
        Err(none) => Err(none),
    }
}

/// Brings the store, which is at rest for all but the last of the decisions and marked, to rest for all of them, and answers
/// whether they leave a least state. Nothing waits then.
pub fn take_last_decision(
    alloc: Global,
    store: &mut Store,
    seating: &mut Seating,
    model: &Model,
    decisions: &[Decision],
    mark: &Mark,
) -> Result<bool, AllocError>
    requires lawful { IsLawful model.now }
    requires settled { IsSettled model.now decisions.now }
    requires admissible { EndsAdmissibly model.now decisions.now }
    requires least { IsLeastOf model.now (but_last decisions.now) (snapshot_of store.old) }
    requires marked { IsStoreMark store.old mark.now (snapshot_of store.old) }
    requires seated { IsSeatingOf store.old seating.old }
    ensures taken { IfOk result (λ fit. LeavesLeast model.now decisions.now fit store.new) }
    ensures marks { KeepStoreMarks store.old store.new }
    ensures seated { KeepsSeating seating.old store.new seating.new }
{
    store.is_sound();
    let opened = store.block_count();
    let decision = &decisions[decisions.len() - 1];
    match advance(alloc, store, seating, model, decision) {
        Ok(()) => resources_fit_since(alloc, model, store, decisions, decision, *mark, opened),
        Err(NetFault::Collapsed) => Ok(false),
        Err(NetFault::Memory) => Err(AllocError),
    }
}
