//! The store, with the marks to which it can go back.

ghost use Rattle.std.specs.Prelude.{◌≡◌, [], ◌≤◌, ◌<◌, List, length, take, slice_index_or, Some, true, IfOk, OnErr};
ghost use Rattle.model_core.specs.declared.decision.Decision.{Decision as Taken};
ghost use Rattle.model_core.specs.declared.model.Model.{Model as Problem};
ghost use Rattle.model_core.specs.Lawful.{IsLawful};
ghost use Rattle.plan_defs.specs.Settling.{IsSettled};
ghost use Rattle.db_store.specs.declared.store.Mark.{Mark as Marked};
ghost use Rattle.db_store.specs.Stores.{snapshot_of};
ghost use Rattle.db_store.specs.StoreMarks.{IsStoreMark, CanGoBack, GoesBackTo};
ghost use Rattle.db_store.specs.Stamps.{FollowStamps, StampsRise};
ghost use Rattle.db_history.specs.declared.footing.Footing.TheVariants.{Rest};
ghost use Rattle.db_history.specs.Advancing.{but_last, EndsAdmissibly};
ghost use Rattle.db_history.specs.Standing.{KeepsList, StandsForList, GoesOnTo};
ghost use Rattle.db_history.specs.Seated.{AreSeatedAt};

use super::advance::{begin, take_last_decision};
use super::footing::Footing;
use db_fixpoint::Seating;
use db_store::laws::{stamps_follow, stamps_rise};
use db_store::{Mark, Store};
use model_core::decision::Decision;
use model_core::model::Model;
use std::alloc::{AllocError, Global};
use std::marker;

/// The least state of a list of decisions, and marks at those of its fronts.
#[derive(Drop)]
pub struct Standing {
    store: Store,
    // The store before each decision for which it stands.
    marks: Vec<Mark>,
    // Its tokens by their objects, with a step for each mark.
    seating: Seating,
    footing: Footing,
}

impl marker::Model for Standing {
    ghost use Rattle.db_history.specs.Standing.{Stood};
    ghost use Rattle.db_history.specs.Seated.{AreSeatedAt};

    ghost Value = { Stood };

    ghost view = { λ standing. record { stored = standing.store; marks = standing.marks.items; footing = standing.footing } };

    ghost invariant = { λ standing. AreSeatedAt standing.store standing.marks.items standing.seating };
}

impl Standing {
    /// What is kept before any decision.
    #[tactic(auto, using(crate::proofs::Stepping::seated_new))]
    pub fn new(alloc: Global, model: &Model) -> Result<Standing, AllocError>
        requires { IsLawful model.now }
        ensures { IfOk result (λ standing. KeepsList model.now [] standing) }
    {
        let (store, fit) = begin(alloc, model)?;
        let footing = if fit { Footing::Rest } else { Footing::Void };
        Ok(Standing {
            store,
            marks: Vec::new(alloc),
            seating: Seating::new(alloc),
            footing,
        })
    }

    /// Goes on by the last of the decisions, which is one more than those that are kept, and answers how the list then stands.
    /// Without memory the others are kept.
    pub fn push(
        &mut self,
        alloc: Global,
        model: &Model,
        decisions: &[Decision],
    ) -> Result<Footing, AllocError>
        requires lawful { IsLawful model.now }
        requires settled { IsSettled model.now decisions.now }
        requires admissible { EndsAdmissibly model.now decisions.now }
        requires rest { self.old.footing ≡ Rest }
        requires kept { KeepsList model.now (but_last decisions.now) self.old }
        ensures ok { IfOk result (λ footing. (footing ≡ self.new.footing) × KeepsList model.now decisions.now self.new) }
        ensures err { OnErr result ((self.new.footing ≡ Rest) × KeepsList model.now (but_last decisions.now) self.new) }
        ensures stamps { IfOk result (λ footing. footing ≡ Rest → FollowStamps self.old.stored self.new.stored) }
        ensures risen { OnErr result (StampsRise self.old.stored self.new.stored) }
    {
        let fit = push_last_decision(
            alloc,
            &mut self.store,
            &mut self.marks,
            &mut self.seating,
            model,
            decisions,
        )?;
        if !fit {
            self.footing = Footing::Fallen;
        }
        Ok(self.footing)
    }

    /// Goes back to the first so many of the decisions, which are fewer than those that are kept. It takes no memory.
    pub fn back_to(&mut self, number: usize)
        requires { (model : Problem) × ((decisions : List Taken) × KeepsList model decisions self.old × (number < length decisions)) }
        ensures kept { (model : Problem) (decisions : List Taken)
            → KeepsList model decisions self.old → number < length decisions
            → (self.new.footing ≡ Rest) × KeepsList model (take number decisions) self.new }
        ensures stamps { FollowStamps self.old.stored self.new.stored }
    {
        return_to(&mut self.store, &mut self.marks, &mut self.seating, number);
        self.footing = Footing::Rest;
    }

    /// How the list stands.
    pub fn footing(&self) -> Footing
        ensures { result ≡ self.now.footing }
    {
        self.footing
    }

    /// The store, whose content is the least state of the list if the list leaves one.
    pub fn store(&self) -> &Store
        ensures { result.now ≡ self.now.stored }
    {
        &self.store
    }

    /// What is kept of no list, which takes no memory. It can't be relied on for anything.
    #[tactic(auto, using(crate::proofs::Stepping::seated_new))]
    pub fn nothing(alloc: Global) -> Standing {
        Standing {
            store: Store::new(alloc),
            marks: Vec::new(alloc),
            seating: Seating::new(alloc),
            footing: Footing::Void,
        }
    }

    /// Gives the memory back. A crate above that drops what is kept would have to prove again that all of its parts can be.
    pub fn discard(self) {}
}

// Goes back to the mark, where the step of this number began. Nothing waits then, if nothing did there.
fn go_back(store: &mut Store, seating: &mut Seating, mark: Mark, number: usize)
    requires can { CanGoBack store.old mark }
    requires step { number < length seating.old.steps.items }
    ensures back { GoesBackTo mark store.old store.new }
    ensures seats { seating.new.seats ≡ take (slice_index_or seating.old.steps.items number 0) seating.old.seats }
    ensures steps { seating.new.steps.items ≡ take number seating.old.steps.items }
    ensures marked { (now : Marked) × (seating.new.mark ≡ Some now) × IsStoreMark store.new now (snapshot_of store.new) }
{
    store.back_to(mark);
    let now = store.mark();
    seating.forget_from(number, now);
}

// Goes on by the last of the decisions, and sets a mark before it; where nothing is left, or memory runs out, the store goes
// back.
fn push_last_decision(
    alloc: Global,
    store: &mut Store,
    marks: &mut Vec<Mark>,
    seating: &mut Seating,
    model: &Model,
    decisions: &[Decision],
) -> Result<bool, AllocError>
    requires lawful { IsLawful model.now }
    requires settled { IsSettled model.now decisions.now }
    requires admissible { EndsAdmissibly model.now decisions.now }
    requires stands { StandsForList model.now (but_last decisions.now) store.old marks.old.items }
    requires seated { AreSeatedAt store.old marks.old.items seating.old }
    ensures ok { IfOk result (λ fit. GoesOnTo model.now decisions.now fit store.new marks.new.items) }
    ensures err { OnErr result (StandsForList model.now (but_last decisions.now) store.new marks.new.items) }
    ensures stamps { IfOk result (λ fit. fit ≡ true → FollowStamps store.old store.new) }
    ensures risen { OnErr result (StampsRise store.old store.new) }
    ensures seated { AreSeatedAt store.new marks.new.items seating.new }
{
    stamps_follow();
    stamps_rise();
    store.is_sound();
    marks.reserve(1)?;
    seating.catch_up(store)?;
    seating.begin_step()?;
    let mark = store.mark();
    match take_last_decision(alloc, store, seating, model, decisions, &mark) {
        Ok(true) => {
            store.is_sound();
            marks.push_reserved(mark);
            Ok(true)
        }
        Ok(false) => {
            go_back(store, seating, mark, marks.len());
            Ok(false)
        }
        Err(none) => {
            go_back(store, seating, mark, marks.len());
            Err(none)
        }
    }
}

// Goes back to the state of the first so many decisions.
fn return_to(store: &mut Store, marks: &mut Vec<Mark>, seating: &mut Seating, number: usize)
    requires stands { (model : Problem) × ((decisions : List Taken) × StandsForList model decisions store.old marks.old.items) }
    requires seated { AreSeatedAt store.old marks.old.items seating.old }
    ensures stands { (model : Problem) (decisions : List Taken)
        → StandsForList model decisions store.old marks.old.items → number ≤ length decisions
        → StandsForList model (take number decisions) store.new marks.new.items }
    ensures stamps { FollowStamps store.old store.new }
    ensures seated { AreSeatedAt store.new marks.new.items seating.new }
{
    stamps_follow();
    store.is_sound();
    if number < marks.len() {
        let mark = marks[number];
        go_back(store, seating, mark, number);
        marks.truncate(number);
    }
}
