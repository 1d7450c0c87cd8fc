//! Laws of what files pose.

ghost use Rattle.run_load.specs.Laws.{IsPosedOnce, PosedIsSound};

/// A law: in the same files a name poses one database or has one first fault, and not both.
#[tactic(auto, using(crate::proofs::Once::one_posed))]
pub fn posed_once()
    ensures { IsPosedOnce }
{}

/// A law: a database that is posed is sound: its model is lawful, and its history one of the model.
pub fn posed_databases_are_sound()
    ensures { PosedIsSound }
{}
