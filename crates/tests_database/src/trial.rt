//! What is tried on a new database of a model.

ghost use Rattle.model_core.specs.Lawful.{IsLawful};

use model_core::model::Model;
use plan_db::Db;
use plan_db::release::discard;
use std::alloc::{AllocError, Global};
use tests_samples::mission::mission;
use tests_samples::rounds::rounds;

/// What is done with a database, and told of it in plain values. None of these owns one, since a proof goes through all that
/// an owner may drop.
pub trait Trial {
    type Told: Drop;

    fn tell(&self, alloc: Global, db: &mut Db) -> Self::Told;
}

// What is told of a new database of the model.
fn told_of<T: Trial>(alloc: Global, model: Model, trial: &T) -> Result<T::Told, AllocError>
    requires { IsLawful model }
{
    match Db::new(alloc, model) {
        Ok(db) => Ok(told_at_last(alloc, db, trial)),
        Err(none) => Err(none),
    }
}

// What is told of the database, which is then let go.
fn told_at_last<T: Trial>(alloc: Global, db: Db, trial: &T) -> T::Told {
    let mut db = db;
    let told = trial.tell(alloc, &mut db);
    discard(db);
    told
}

/// What is told of the mission.
pub fn told_on_mission<T: Trial>(alloc: Global, trial: &T) -> Result<T::Told, AllocError> {
    match mission(alloc) {
        Ok(model) => told_of(alloc, model, trial),
        Err(none) => Err(none),
    }
}

/// What is told of the rounds.
pub fn told_on_rounds<T: Trial>(alloc: Global, trial: &T) -> Result<T::Told, AllocError> {
    match rounds(alloc) {
        Ok(model) => told_of(alloc, model, trial),
        Err(none) => Err(none),
    }
}
