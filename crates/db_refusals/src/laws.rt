//! Laws of the state that is seen.

ghost use Rattle.db_refusals.specs.ViewLaws.{ContentsArePutInOrder, ContentsHaveStates, ContentsHaveOneState};

/// A law: what a content has is put in order, of a content of a model this is a state of the model, and there is no other state
/// in order that is like the content.
pub fn contents_are_seen_as_states()
    ensures order { ContentsArePutInOrder }
    ensures states { ContentsHaveStates }
    ensures one { ContentsHaveOneState }
{}
