//! The steps of the log, and what undoing each of them needs.

ghost use Rattle.std.specs.Prelude.{◌≡◌, ◌+◌, ◌<◌, ◌≤◌, [], length, insert, not, count_by, vec_len, vec_capacity, OnOk};
ghost use Rattle.decision_log.specs.Taking.{kept_of};
ghost use Rattle.decision_log.specs.Kept.{put_back, HavePlaces};

use model_core::decision::Decision;
use std::alloc::AllocError;

/// A decision that was taken out, with the place that it had.
#[derive(Drop)]
pub struct TakenOut {
    pub place: usize,
    pub decision: Decision,
}

/// One step from a list of decisions to the next.
#[derive(Drop)]
pub enum Step {
    /// A decision was put at the end.
    Push,
    /// These decisions were taken out, the one of the greatest place first.
    Take(Vec<TakenOut>),
}

/// Puts the decisions back at their places, for which there is room.
pub fn put_all_back(decisions: &mut Vec<Decision>, taken: Vec<TakenOut>)
    requires places { HavePlaces taken.items decisions.old.items }
    requires room { vec_len decisions.old + vec_len taken ≤ vec_capacity decisions.old }
    ensures back { decisions.new.items ≡ put_back taken.items decisions.old.items }
    ensures capacity { vec_capacity decisions.new ≡ vec_capacity decisions.old }
{
    let mut taken = taken;
    while let Some(TakenOut { place, decision }) = taken.pop() {
        insert_in_room(decisions, place, decision);
    }
}

// Puts the decision at the place, for which there is room.
fn insert_in_room(decisions: &mut Vec<Decision>, place: usize, decision: Decision)
    requires place { place ≤ length decisions.old.items }
    requires room { vec_len decisions.old < vec_capacity decisions.old }
    ensures inserted { decisions.new.items ≡ insert decisions.old.items place decision }
    ensures capacity { vec_capacity decisions.new ≡ vec_capacity decisions.old }
{
    match decisions.insert(place, decision) {
        Ok(()) => {}
        Err(_full) => unreachable!(),
    }
}

/// Puts copies of the decisions back at their places.
pub fn put_copies_back(decisions: &mut Vec<Decision>, taken: &[TakenOut]) -> Result<(), AllocError>
    requires { HavePlaces taken.now decisions.old.items }
    ensures { OnOk result (decisions.new.items ≡ put_back taken.now decisions.old.items) }
{
    let mut rest = taken;
    while let Some((last, more)) = rest.split_last() {
        decisions.insert(last.place, last.decision.copy()?)?;
        rest = more;
    }
    Ok(())
}

/// How many flags aren't set.
pub fn count_left_out(keep: &[bool]) -> usize
    ensures { result ≡ count_by not keep.now }
{
    keep.iter().filter(|flag| !**flag).count()
}

/// Takes the decisions out that have no flag, from the last one on.
pub fn take_unflagged(
    decisions: &mut Vec<Decision>,
    keep: &[bool],
    room: Vec<TakenOut>,
) -> Vec<TakenOut>
    requires flags { length keep.now ≡ length decisions.old.items }
    requires empty { room.items ≡ [] }
    requires room { count_by not keep.now ≤ vec_capacity room }
    ensures left { decisions.new.items ≡ kept_of keep.now decisions.old.items }
    ensures back { put_back result.items decisions.new.items ≡ decisions.old.items }
    ensures places { HavePlaces result.items decisions.new.items }
    ensures count { length result.items ≡ count_by not keep.now }
    ensures capacity { vec_capacity decisions.new ≡ vec_capacity decisions.old }
{
    let mut taken = room;
    let mut place = keep.len();
    while place > 0 {
        place -= 1;
        if keep[place] {
            continue;
        }
        let decision = decisions.remove(place);
        taken.push_reserved(TakenOut { place, decision });
    }
    taken
}
