//! Going back behind decisions that were taken.

ghost use Rattle.std.specs.Prelude.{◌≡◌, ◌+◌, false, length};
ghost use Rattle.plan_db.specs.Database.{Database, EndsAccepted};
ghost use Rattle.plan_db.specs.Rewinding.{IsTakenSince, TakesLastBack};

use crate::Db;

/// Takes the last decision back, which the last step took. It takes no memory.
pub fn take_back(db: &mut Db)
    requires ready { db.old.behind ≡ false }
    requires accepted { EndsAccepted db.old.database.history }
    ensures back { TakesLastBack db.old.database.history db.new.database.history }
    ensures model { db.new.database.model ≡ db.old.database.model }
    ensures still { db.new.behind ≡ false }
{
    match db.backtrack() {
        Ok(()) => {}
        Err(_fault) => unreachable!(),
    }
}

/// Takes back what was decided since so many steps could be taken back. It takes no memory.
pub fn rewind(db: &mut Db, before: u64)
    ghost former: { Database }
    requires ready { db.old.behind ≡ false }
    requires since { IsTakenSince former db.old.database }
    requires before { before + 1 ≡ length former.history }
    ensures database { db.new.database ≡ former }
    ensures still { db.new.behind ≡ false }
{
    while db.history() > before {
        take_back(db);
    }
}
